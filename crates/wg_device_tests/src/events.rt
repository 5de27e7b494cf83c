//! Events that a device answers one by one, whose references no script can have.
use std::alloc::Global;
use std::sync::Arc;
use wg_core::{Core, Event, LoggedCore, Spent};
use wg_encoder::{Recorder, Recording, command_limits};
use wg_limits::default_limits;
use wg_turn::Logged;
use wg_types::NoMemory;
use wg_types::commands::{Command, On};
use wg_types::handles::{BufferInfo, Handle, Info, ObjRef};
use wg_types::items::Items;
use wg_types::replies::{Answer, Caught, Fault, FaultKind};
use wg_types::steps::Item;

// Each test makes its device in one function and asks it in another, that borrows it and gives plain answers: so
// its drop, which is dear to prove, stands at one way out, and nothing is held where a test asserts.

/// The object of this number of the device with serial 1.
fn own(number: u64) -> ObjRef {
    ObjRef { device: 1, number }
}

/// A validation fault of this rule that no scope caught.
fn uncaptured(rule: u16) -> Option<Fault> {
    Some(Fault {
        kind: FaultKind::Validation,
        rule,
        caught: Caught::Uncaptured,
    })
}

/// The answer of an event that makes an object.
fn made(number: u64, valid: bool) -> Answer {
    Answer::Made { number, valid }
}

/// Whether an event is answered so; no promise settles.
fn ask(core: &mut LoggedCore, event: Event, answer: Answer, fault: Option<Fault>) -> bool {
    match core.act(0, event).ok() {
        Some((reply, _)) => {
            reply.answer == answer && reply.fault == fault && reply.settled.as_slice().is_empty()
        }
        None => false,
    }
}

/// The same of an event that took memory to make.
fn ask_made(
    core: &mut LoggedCore,
    event: Result<Event, NoMemory>,
    answer: Answer,
    fault: Option<Fault>,
) -> bool {
    match event {
        Ok(event) => ask(core, event, answer, fault),
        Err(NoMemory) => false,
    }
}

/// A createBuffer of 16 bytes with these usages.
fn create(usage: u32) -> Event {
    Event::CreateBuffer {
        info: BufferInfo {
            size: 16,
            usage,
            mapped: false,
        },
    }
}

/// A destroy.
fn destroy(object: ObjRef) -> Event {
    Event::Destroy { object }
}

/// A finish of an encoder.
fn finish(encoder: ObjRef, recording: Recording) -> Event {
    Event::Finish { encoder, recording }
}

/// A handle of a buffer of the device with serial 1, with these usages and 16 bytes.
fn handle(alloc: Global, number: u64, usage: u32) -> Result<Handle, NoMemory> {
    let info = Info::Buffer(BufferInfo {
        size: 16,
        usage,
        mapped: false,
    });
    Ok(Handle::new(own(number), true, Arc::new(alloc, info)?))
}

/// A copy of 16 bytes from the first of two buffers to the other, of which each handle says what is not so.
fn forged_copy(alloc: Global) -> Result<Command, NoMemory> {
    let source = handle(alloc, 1, 4)?;
    let target = handle(alloc, 0, 8)?;
    Ok(Command::CopyBufferToBuffer {
        source,
        source_offset: 0,
        target,
        target_offset: 0,
        size: 16,
    })
}

/// What a recorder of an encoder keeps of a command that it takes. Without memory it keeps none.
fn kept(alloc: Global, command: Command) -> Recording {
    let mut recorder = Recorder::new(alloc, 1, &command_limits(&default_limits()));
    let _ = recorder.record(On::Encoder, command);
    recorder.take()
}

/// What a recorder keeps of no commands.
fn empty(alloc: Global) -> Recording {
    Recorder::new(alloc, 1, &command_limits(&default_limits())).take()
}

/// A finish of encoder 5 with that copy.
fn forged(alloc: Global) -> Result<Event, NoMemory> {
    let copy = forged_copy(alloc)?;
    Ok(finish(own(5), kept(alloc, copy)))
}

/// A submit of the object with this number.
fn submit(alloc: Global, number: u64) -> Result<Event, NoMemory> {
    let mut buffers = Items::new(alloc);
    buffers.push(own(number))?;
    Ok(Event::Submit { buffers })
}

/// Finishes whose references no script can have.
fn ask_finishes(core: &mut LoggedCore, alloc: Global) -> [bool; 7] {
    let unmade = finish(own(2), empty(alloc));
    let unmade = ask(core, unmade, made(0, false), uncaptured(10));
    let buffer = ask(core, create(12), made(1, true), None);
    let encoder = ask(core, Event::CreateEncoder, made(2, true), None);
    let first = finish(own(2), empty(alloc));
    let first = ask(core, first, made(3, true), None);
    let second = finish(own(2), empty(alloc));
    let second = ask(core, second, made(4, false), uncaptured(180));
    let other = ask(core, Event::CreateEncoder, made(5, true), None);
    let forged = ask_made(core, forged(alloc), made(6, false), uncaptured(11));
    [unmade, buffer, encoder, first, second, other, forged]
}

/// Submits of one command buffer.
fn ask_submits(core: &mut LoggedCore, alloc: Global) -> [bool; 2] {
    let first = ask_made(core, submit(alloc, 3), Answer::Queued(1), None);
    let second = ask_made(core, submit(alloc, 3), Answer::Plain, uncaptured(190));
    [first, second]
}

/// Both, of one device.
fn of_references(alloc: Global) -> ([bool; 7], [bool; 2]) {
    let mut core = LoggedCore::new(alloc, 1_000_000, 1, &default_limits());
    let finished = ask_finishes(&mut core, alloc);
    (finished, ask_submits(&mut core, alloc))
}

#[test]
fn references_that_no_script_has(rt: HostRuntime) {
    assert!(rt; of_references(rt.alloc()) == ([true; 7], [true; 2]));
}

/// On the device with serial 2, destroys of an object of another device, of one that was never made, and of an
/// encoder.
fn of_another_device(alloc: Global) -> [bool; 5] {
    let second = ObjRef {
        device: 2,
        number: 1,
    };
    let mut core = LoggedCore::new(alloc, 100, 2, &default_limits());
    [
        ask(&mut core, create(8), made(0, true), None),
        ask(&mut core, destroy(own(0)), Answer::Plain, uncaptured(10)),
        ask(&mut core, destroy(second), Answer::Plain, uncaptured(10)),
        ask(&mut core, Event::CreateEncoder, made(1, true), None),
        ask(&mut core, destroy(second), Answer::Plain, uncaptured(10)),
    ]
}

#[test]
fn references_of_another_device_and_kind(rt: HostRuntime) {
    assert!(rt; of_another_device(rt.alloc()) == [true; 5]);
}

/// Asks a device without a log, and takes what a driver has to do out of the list: whether the event is answered so,
/// with so many items.
fn step(
    core: &mut Core,
    items: &mut Vec<Item>,
    event: Event,
    answer: Answer,
    count: usize,
) -> bool {
    let mut spent = Spent::new(*items.allocator());
    items.clear();
    match core.step(0, event, items, &mut spent).ok() {
        Some(reply) => reply.answer == answer && items.len() == count,
        None => false,
    }
}

/// A write of a whole buffer.
fn write(number: u64) -> Event {
    Event::WriteBuffer {
        buffer: own(number),
        offset: 0,
        size: 16,
    }
}

/// A buffer that is made, written, whose write is completed, and that is destroyed, on a device without a log.
fn of_steps(alloc: Global) -> [bool; 4] {
    let mut core = Core::new(alloc, 1_000_000, 1, &default_limits());
    let mut items = Vec::new(alloc);
    [
        step(&mut core, &mut items, create(8), made(0, true), 0),
        // The write: a buffer has no barrier at its first use.
        step(&mut core, &mut items, write(0), Answer::Queued(1), 1),
        step(
            &mut core,
            &mut items,
            Event::Complete { op: 1 },
            Answer::Plain,
            0,
        ),
        // The release.
        step(&mut core, &mut items, destroy(own(0)), Answer::Plain, 1),
    ]
}

#[test]
fn a_device_without_a_log_hands_out_what_is_to_be_done(rt: HostRuntime) {
    assert!(rt; of_steps(rt.alloc()) == [true; 4]);
}
