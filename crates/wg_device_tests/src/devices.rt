//! Two devices, of which a buffer of the first is given to the second.
ghost use Rattle.std.specs.Prelude.{◌≡◌, ◌+◌, ◌<◌, ◌≤◌, true, is_some};
ghost use Rattle.wg_turn.specs.Passes.{IsPassOf, calls_of};

use std::alloc::Global;
use std::sync::Wait;
use wg_device::{Device, DevicePass};
use wg_encoder::Recorder;
use wg_entry::NoMemory;
use wg_limits::default_limits;
use wg_types::commands::{Command, On};
use wg_types::handles::{BufferInfo, Handle};
use wg_types::replies::{Answer, Reply};

/// Of 16 bytes, which are copied from and to.
const BUFFER: BufferInfo = BufferInfo {
    size: 16,
    usage: 12,
    mapped: false,
};

/// An answer with the rule of its fault, or 0.
type Told = Option<(Answer, u16)>;

fn told(asked: Result<Reply, NoMemory>) -> Told {
    let reply = asked.ok()?;
    let rule = match reply.fault {
        Some(fault) => fault.rule,
        None => 0,
    };
    Some((reply.answer, rule))
}

/// Object 0 of a device, a buffer.
fn buffer_of<R: Wait>(rt: &R, device: &Device, pass: &mut DevicePass) -> Option<Handle>
    requires { IsPassOf device.now.lock pass.old × (calls_of pass.old < 100) }
    ensures { IsPassOf device.now.lock pass.new × (calls_of pass.new ≤ calls_of pass.old + 1) }
{
    let (handle, _) = device.create_buffer(rt, pass, BUFFER).ok()?;
    Some(handle)
}

/// Records a copy of 16 bytes from one buffer to another.
fn record_copy(recorder: &mut Recorder, source: &Handle, target: &Handle) -> Result<(), NoMemory>
    requires { is_some recorder.old.encoder ≡ true }
    ensures { is_some recorder.new.encoder ≡ true }
{
    let source = source.share()?;
    let copy = Command::CopyBufferToBuffer {
        source,
        source_offset: 0,
        target: target.share()?,
        target_offset: 0,
        size: 16,
    };
    let _ = recorder.record(On::Encoder, copy)?;
    Ok(())
}

/// What the end of an encoder answered.
fn told_of(ended: Result<(Handle, Reply), NoMemory>) -> Told {
    let (_, reply) = ended.ok()?;
    told(Ok(reply))
}

/// The finish of the encoder of a recorder, which is dropped here, after a copy from one buffer to the other.
fn ended<R: Wait>(
    rt: &R,
    device: &Device,
    pass: &mut DevicePass,
    mut recorder: Recorder,
    source: &Handle,
    target: &Handle,
) -> Told
    requires pass { IsPassOf device.now.lock pass.old × (calls_of pass.old < 100) }
    requires opened { is_some recorder.encoder ≡ true }
    ensures { IsPassOf device.now.lock pass.new × (calls_of pass.new ≤ calls_of pass.old + 1) }
{
    let _ = record_copy(&mut recorder, source, target);
    told_of(device.finish(rt, pass, &mut recorder))
}

/// The finish of an encoder on which a copy from one buffer to the other was recorded.
fn copied<R: Wait>(
    rt: &R,
    device: &Device,
    pass: &mut DevicePass,
    source: &Handle,
    target: &Handle,
) -> Told
    requires { IsPassOf device.now.lock pass.old × (calls_of pass.old < 90) }
    ensures { IsPassOf device.now.lock pass.new × (calls_of pass.new ≤ calls_of pass.old + 2) }
{
    let (recorder, _, _) = device.create_encoder(rt, pass).ok()?;
    ended(rt, device, pass, recorder, source, target)
}

/// What a device, which has a buffer of its own with the same number, answers to a write and a destroy of a
/// buffer of another one, and to finishes with copies from it and to it.
fn given<R: Wait>(
    rt: &R,
    device: &Device,
    pass: &mut DevicePass,
    other: &Handle,
) -> Option<[Told; 4]>
    requires { IsPassOf device.now.lock pass.old × (calls_of pass.old < 10) }
{
    let own = buffer_of(rt, device, pass)?;
    let written = told(device.write_buffer(rt, pass, other, 0, 16));
    let destroyed = told(device.destroy(rt, pass, other));
    let from = copied(rt, device, pass, other, &own);
    let to = copied(rt, device, pass, &own, other);
    Some([written, destroyed, from, to])
}

/// The same of a new device with serial 2.
fn given_to_second<R: Wait>(rt: &R, alloc: Global, other: &Handle) -> Option<[Told; 4]> {
    let Ok((device, mut passes)) = Device::open(alloc, 1024, 2, &default_limits(), 1) else {
        return None;
    };
    let mut pass = passes.pop().unwrap();
    given(rt, &device, &mut pass, other)
}

/// A buffer of a device: what a second device answers that is given it, and then the first to a write.
fn of_first<R: Wait>(
    rt: &R,
    alloc: Global,
    device: &Device,
    pass: &mut DevicePass,
) -> Option<([Told; 4], Told)>
    requires { IsPassOf device.now.lock pass.old × (calls_of pass.old < 10) }
{
    let buffer = buffer_of(rt, device, pass)?;
    let other = given_to_second(rt, alloc, &buffer)?;
    let written = told(device.write_buffer(rt, pass, &buffer, 0, 16));
    Some((other, written))
}

/// The same of a new device with serial 1.
fn of_two<R: Wait>(rt: &R, alloc: Global) -> Option<([Told; 4], Told)> {
    let Ok((device, mut passes)) = Device::open(alloc, 1024, 1, &default_limits(), 1) else {
        return None;
    };
    let mut pass = passes.pop().unwrap();
    of_first(rt, alloc, &device, &mut pass)
}

/// A command buffer of this number that is invalid by rule 10.
fn invalid(number: u64) -> Told {
    let answer = Answer::Made {
        number,
        valid: false,
    };
    Some((answer, 10))
}

#[test]
fn a_buffer_of_another_device_is_refused(rt: HostRuntime) {
    let refused = Some((Answer::Plain, 10));
    let wanted = [refused, refused, invalid(2), invalid(4)];
    let written = Some((Answer::Queued(1), 0));
    assert!(rt; of_two(&rt, rt.alloc()) == Some((wanted, written)));
}
