//! Two callers of a device, each in a thread of its own.
ghost use Rattle.std.specs.Prelude.{◌≡◌, ◌≤◌, IfSome, vec_len, vec_capacity};
ghost use Rattle.wg_turn.specs.Passes.{IsPassOf, callers_of, calls_of, number_of};
ghost use Rattle.wg_turn.specs.Closings.{passes_of};

use std::alloc::Global;
use std::sync::Wait;
use std::thread;
use std::thread::Threads;
use wg_device::{Device, DevicePass, Ended};
use wg_limits::default_limits;
use wg_types::handles::{BufferInfo, Handle};
use wg_types::replies::Answer;

/// The bits of a buffer that copies write to.
const COPY_DST: u32 = 8;

/// Makes a buffer, in one thread.
fn maker<R: Wait>(rt: &R, device: &Device, mut pass: DevicePass) -> (DevicePass, Option<Handle>)
    requires { IsPassOf device.now.lock pass × (calls_of pass ≡ 0) }
    ensures { IsPassOf device.now.lock result.0 × (number_of result.0 ≡ number_of pass) }
{
    let info = BufferInfo {
        size: 256,
        usage: COPY_DST,
        mapped: false,
    };
    let made = device.create_buffer(rt, &mut pass, info).ok();
    (pass, made.map(|t| t.0))
}

/// Destroys it, in another.
fn destroyer<R: Wait>(rt: &R, device: &Device, mut pass: DevicePass, buffer: &Handle) -> DevicePass
    requires { IsPassOf device.now.lock pass × (calls_of pass ≡ 0) }
    ensures { IsPassOf device.now.lock result × (number_of result ≡ number_of pass) }
{
    let _ = device.destroy(rt, &mut pass, buffer);
    pass
}

/// The first pass makes a buffer in one thread, and the second destroys it in another, once both have met.
fn handed_over<R: Threads + Wait + Sync>(
    rt: &R,
    device: &Device,
    first: DevicePass,
    second: DevicePass,
) -> (DevicePass, DevicePass)
    requires first { IsPassOf device.now.lock first × (calls_of first ≡ 0) }
    requires second { IsPassOf device.now.lock second × (calls_of second ≡ 0) }
    ensures first { IsPassOf device.now.lock result.0 × (number_of result.0 ≡ number_of first) }
    ensures second { IsPassOf device.now.lock result.1 × (number_of result.1 ≡ number_of second) }
{
    let ((mut first, made), mut second) = thread::join(
        rt,
        || -> (DevicePass, Option<Handle>)
            requires { IsPassOf device.now.lock first × (calls_of first ≡ 0) }
            ensures { IsPassOf device.entry.now.lock result.0 × (number_of result.0 ≡ number_of first) }
        { maker(rt, device, first) },
        || -> DevicePass
            ensures { result ≡ second }
        { second },
    );
    device.meet(&mut first, &mut second);
    let Some(buffer) = made else {
        return (first, second);
    };
    let given = &buffer;
    thread::join(
        rt,
        || -> DevicePass
            ensures { result ≡ first }
        { first },
        || -> DevicePass
            requires { IsPassOf device.now.lock second × (calls_of second ≡ 0) }
            ensures { IsPassOf device.entry.now.lock result × (number_of result ≡ number_of second) }
        { destroyer(rt, device, second, given) },
    )
}

/// A device with its two passes, and the list that had them.
fn opened(alloc: Global) -> Option<(Device, Vec<DevicePass>, DevicePass, DevicePass)>
    ensures device { IfSome result (λ t.
        (callers_of t.0.lock ≡ 2) × (vec_len t.1 ≡ 0) × (2 ≤ vec_capacity t.1)) }
    ensures first { IfSome result (λ t.
        IsPassOf t.0.lock t.2 × (number_of t.2 ≡ 0) × (calls_of t.2 ≡ 0)) }
    ensures second { IfSome result (λ t.
        IsPassOf t.0.lock t.3 × (number_of t.3 ≡ 1) × (calls_of t.3 ≡ 0)) }
{
    let (device, mut passes) = Device::open(alloc, 1024, 7, &default_limits(), 2).ok()?;
    let second = passes.pop().unwrap();
    let first = passes.pop().unwrap();
    Some((device, passes, first, second))
}

/// What the device leaves once both have called.
fn by_threads<R: Threads + Wait + Sync>(rt: &R, alloc: Global) -> Option<Ended>
    ensures { IfSome result (λ ended. passes_of ended ≡ 2) }
{
    let (device, mut passes, first, second) = opened(alloc)?;
    let (first, second) = handed_over(rt, &device, first, second);
    passes.push_reserved(first);
    passes.push_reserved(second);
    Some(device.close(passes))
}

/// How many entries and callers there were; and of each of two entries, who made it and whether it has a fault.
type Told = (u64, u32, [(u32, bool); 2], [Answer; 2]);

/// What the device tells that was left, where it has two entries.
fn told_of(ended: &Ended) -> Option<Told> {
    match ended.state().lines() {
        [a, b] => Some((
            ended.entries(),
            ended.callers(),
            [
                (a.who, a.reply.fault.is_some()),
                (b.who, b.reply.fault.is_some()),
            ],
            [a.reply.answer, b.reply.answer],
        )),
        _ => None,
    }
}

/// The same, of a device that is dropped here.
fn told_by_threads<R: Threads + Wait + Sync>(rt: &R, alloc: Global) -> Option<Told> {
    let ended = by_threads(rt, alloc)?;
    told_of(&ended)
}

#[test]
fn a_handle_goes_from_thread_to_thread(rt: HostRuntime) {
    let made = Answer::Made {
        number: 0,
        valid: true,
    };
    let wanted = (2, 2, [(0, false), (1, false)], [made, Answer::Plain]);
    assert!(rt; told_by_threads(&rt, rt.alloc()) == Some(wanted));
}
