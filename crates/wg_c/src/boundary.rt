//! What lies behind a device and behind an encoder is taken out for a call, and put back after it; a device that a call
//! only reads stays where it is.
ghost use Rattle.std.specs.Prelude.{◌≡◌, ℕ, Option, Some, None, IfOk, IfSome, IfNone, option_copied, option_map};
ghost use Rattle.wg_types.specs.declared.requests.RequestOf.{RequestOf as Request};
ghost use Rattle.wg_types.specs.declared.commands.CommandOf.{CommandOf as Command};
ghost use Rattle.wg_told.specs.Flats.{on_of};
ghost use Rattle.wg_c.specs.Exports.{status_of, Asks, AsksOpen, MakesOpen, Makes, FinishesOpen, Finishes, TellsLateOpen, TellsLate, ClosesEncoder, RecordsOpen, Records, Begins};

use crate::encoder::Encoder;
use crate::inner::Inner;
use crate::lent::Lent;
use crate::parts::Parts;
use crate::sealed::Device;
use crate::statuses::{BAD_VALUE, CLOSED, IS_OPEN, LATE, NO_MEMORY, NO_OBJECT, NO_PASS, OK};
use std::alloc::Global;
use std::mem;
use wg_desk::DeskError;
use wg_encoder::{Noted, Recorder, no_limits};
use wg_told::{ToldReply, on_of};
use wg_types::NoMemory;
use wg_types::commands::{CommandOf, On};
use wg_types::requests::RequestOf;

/// Takes out what lies behind a device, if it is open.
#[tactic(auto, using(crate::proofs::Crossing::is_there))]
pub fn take(device: &mut Device, alloc: Global) -> Option<Box<Inner>>
    ensures some { IfSome result (λ inner. Some inner.value ≡ device.old.inside) }
    ensures none { IfNone result (device.old.inside ≡ None) }
    ensures taken { device.new.inside ≡ None }
{
    let (is_shut, held) = mem::replace(device, Device::empty(alloc)).tested();
    if is_shut {
        return None;
    }
    Some(held.into_parts().into_box())
}

/// Puts it back.
pub fn give(device: &mut Device, inner: Box<Inner>)
    ensures { device.new.inside ≡ Some inner.value }
{
    *device = Device::of_parts(Parts::of(inner));
}

/// What a device lends, if it is open.
#[tactic(auto, using(crate::proofs::Crossing::is_there))]
fn look(device: &Lent) -> Option<&Inner>
    ensures { option_copied result ≡ device.now.inside }
{
    if device.is_shut() {
        return None;
    }
    Some(device.get())
}

/// Takes out the recorder of an encoder, if it is open.
#[tactic(auto, using(crate::proofs::Crossing::is_held))]
pub fn take_recorder(encoder: &mut Encoder, alloc: Global) -> Option<Box<Recorder>>
    ensures some { IfSome result (λ recorder. Some recorder.value ≡ encoder.old.inside) }
    ensures none { IfNone result (encoder.old.inside ≡ None) }
    ensures taken { encoder.new.inside ≡ None }
{
    let (is_shut, held) = mem::replace(encoder, Encoder::empty(alloc)).tested();
    if is_shut {
        return None;
    }
    Some(held.into_parts().into_box())
}

/// Puts it back.
pub fn give_recorder(encoder: &mut Encoder, recorder: Box<Recorder>)
    ensures { encoder.new.inside ≡ Some recorder.value }
{
    *encoder = Encoder::of_parts(Parts::of(recorder));
}

/// What the desk's refusal returns.
fn status_of(error: DeskError) -> u32
    ensures { result ≡ status_of error }
{
    match error {
        DeskError::NoMemory => NO_MEMORY,
        DeskError::NoObject => NO_OBJECT,
        DeskError::NoPass => NO_PASS,
    }
}

impl Inner {
    /// Makes a call of an open device.
    fn answer(&mut self, request: &RequestOf<u64>, out: &mut ToldReply) -> u32
        ensures { AsksOpen (Some request.now) out.old out.new result self.old self.new }
    {
        match self.ask(request) {
            Ok((told, _)) => {
                *out = told;
                OK
            }
            Err(error) => status_of(error),
        }
    }

    /// Makes an encoder on an open device, and puts its recorder behind a pointer that has none.
    fn make(
        &mut self,
        alloc: Global,
        request: &RequestOf<u64>,
        encoder: &mut Encoder,
        out: &mut ToldReply,
    ) -> u32
        requires { encoder.old.inside ≡ None }
        ensures { MakesOpen (Some request.now) out.old out.new result encoder.new.inside self.old self.new }
    {
        // A recorder of no encoder stands where that of the new one will be.
        let Ok(mut room) = Box::new(alloc, Recorder::new(alloc, 0, &no_limits())) else {
            return NO_MEMORY;
        };
        match self.ask(request) {
            Ok((told, Some(recorder))) => {
                *room = recorder;
                give_recorder(encoder, room);
                *out = told;
                OK
            }
            Ok((told, None)) => {
                *out = told;
                OK
            }
            Err(error) => status_of(error),
        }
    }

    /// Ends an open encoder of an open device.
    fn end(&mut self, recorder: &mut Recorder, out: &mut ToldReply) -> u32
        ensures { FinishesOpen out.old out.new result self.old self.new recorder.old recorder.new }
    {
        match self.finish(recorder) {
            Ok(told) => {
                *out = told;
                OK
            }
            Err(error) => status_of(error),
        }
    }

    /// Tells an open device that a command came late on an open encoder.
    fn hear(&mut self, recorder: &Recorder, out: &mut ToldReply) -> u32
        ensures { TellsLateOpen out.old out.new result self.old self.new recorder.now recorder.now }
    {
        match self.late(recorder) {
            Ok(told) => {
                *out = told;
                OK
            }
            Err(error) => status_of(error),
        }
    }

    /// Records a command on an open encoder of an open device.
    fn note(&self, recorder: &mut Recorder, on: On, command: &CommandOf<u64>) -> u32
        ensures { RecordsOpen (Some command.now) on result self.now recorder.old recorder.new }
    {
        match self.record(recorder, on, command) {
            Ok(Noted::Kept) => OK,
            Ok(Noted::Late) => LATE,
            Err(error) => status_of(error),
        }
    }
}

/// Makes a call, if its arguments stand for one.
#[tactic(auto, using(crate::proofs::Crossing::asks_shut, crate::proofs::Crossing::asks_open, crate::proofs::Crossing::asks_bad, crate::proofs::Crossing::asks_without_memory))]
pub fn ask(
    device: &mut Device,
    alloc: Global,
    request: Result<Option<RequestOf<u64>>, NoMemory>,
    out: &mut ToldReply,
) -> u32
    ensures { (asked : Option (Request ℕ)) → IfOk request (λ made. made ≡ asked) → Asks asked device.old.inside device.new.inside out.old out.new result }
{
    let Some(mut inner) = take(device, alloc) else {
        return CLOSED;
    };
    match request {
        Ok(Some(request)) => {
            let status = inner.answer(&request, out);
            give(device, inner);
            status
        }
        Ok(None) => {
            give(device, inner);
            BAD_VALUE
        }
        Err(_) => {
            give(device, inner);
            NO_MEMORY
        }
    }
}

/// Makes a call that any arguments stand for, unless there was no memory for it.
pub fn ask_made(
    device: &mut Device,
    alloc: Global,
    request: Result<RequestOf<u64>, NoMemory>,
    out: &mut ToldReply,
) -> u32
    ensures { (asked : Request ℕ) → IfOk request (λ made. made ≡ asked) → Asks (Some asked) device.old.inside device.new.inside out.old out.new result }
{
    match request {
        Ok(request) => ask(device, alloc, Ok(Some(request)), out),
        Err(_) => ask(device, alloc, Err(NoMemory), out),
    }
}

/// Makes an encoder, if the arguments stand for one, and puts its recorder behind a pointer that has none.
#[tactic(auto, using(crate::proofs::Crossing::makes_held, crate::proofs::Crossing::makes_shut, crate::proofs::Crossing::makes_open, crate::proofs::Crossing::makes_bad, crate::proofs::Crossing::makes_without_memory))]
pub fn make(
    device: &mut Device,
    encoder: &mut Encoder,
    alloc: Global,
    request: Result<Option<RequestOf<u64>>, NoMemory>,
    out: &mut ToldReply,
) -> u32
    ensures { (asked : Option (Request ℕ)) → IfOk request (λ made. made ≡ asked) → Makes asked device.old.inside device.new.inside encoder.old.inside encoder.new.inside out.old out.new result }
{
    if let Some(recorder) = take_recorder(encoder, alloc) {
        give_recorder(encoder, recorder);
        return IS_OPEN;
    }
    let Some(mut inner) = take(device, alloc) else {
        return CLOSED;
    };
    match request {
        Ok(Some(request)) => {
            let status = inner.make(alloc, &request, encoder, out);
            give(device, inner);
            status
        }
        Ok(None) => {
            give(device, inner);
            BAD_VALUE
        }
        Err(_) => {
            give(device, inner);
            NO_MEMORY
        }
    }
}

/// Ends an encoder.
#[tactic(auto, using(crate::proofs::Crossing::finishes_shut, crate::proofs::Crossing::finishes_open))]
pub fn finish(device: &mut Device, encoder: &mut Encoder, alloc: Global, out: &mut ToldReply) -> u32
    ensures { Finishes device.old.inside device.new.inside encoder.old.inside encoder.new.inside out.old out.new result }
{
    let Some(mut inner) = take(device, alloc) else {
        return CLOSED;
    };
    let Some(mut recorder) = take_recorder(encoder, alloc) else {
        give(device, inner);
        return CLOSED;
    };
    let status = inner.end(&mut recorder, out);
    give(device, inner);
    give_recorder(encoder, recorder);
    status
}

/// Tells a device that a command came late on an encoder of it.
#[tactic(auto, using(crate::proofs::Crossing::lates_shut, crate::proofs::Crossing::lates_open))]
pub fn late(device: &mut Device, encoder: &mut Encoder, alloc: Global, out: &mut ToldReply) -> u32
    ensures { TellsLate device.old.inside device.new.inside encoder.old.inside encoder.new.inside out.old out.new result }
{
    let Some(mut inner) = take(device, alloc) else {
        return CLOSED;
    };
    let Some(recorder) = take_recorder(encoder, alloc) else {
        give(device, inner);
        return CLOSED;
    };
    let status = inner.hear(&recorder, out);
    give(device, inner);
    give_recorder(encoder, recorder);
    status
}

/// Closes an encoder.
pub fn close(encoder: &mut Encoder, alloc: Global) -> u32
    ensures { ClosesEncoder encoder.old.inside encoder.new.inside result }
{
    match take_recorder(encoder, alloc) {
        Some(_) => OK,
        None => CLOSED,
    }
}

/// Records a command, if its arguments stand for one.
#[tactic(auto, using(crate::proofs::Crossing::records_shut, crate::proofs::Crossing::records_open, crate::proofs::Crossing::records_bad, crate::proofs::Crossing::records_without_memory))]
pub fn record(
    device: &Lent,
    encoder: &mut Encoder,
    alloc: Global,
    pass: u32,
    command: Result<Option<CommandOf<u64>>, NoMemory>,
) -> u32
    ensures { (asked : Option (Command ℕ)) → IfOk command (λ made. made ≡ asked) → Records asked (on_of pass) device.now.inside encoder.old.inside encoder.new.inside result }
{
    let on = on_of(pass);
    let Some(inner) = look(device) else {
        return CLOSED;
    };
    let Some(mut recorder) = take_recorder(encoder, alloc) else {
        return CLOSED;
    };
    match command {
        Ok(Some(command)) => {
            let status = inner.note(&mut recorder, on, &command);
            give_recorder(encoder, recorder);
            status
        }
        Ok(None) => {
            give_recorder(encoder, recorder);
            BAD_VALUE
        }
        Err(_) => {
            give_recorder(encoder, recorder);
            NO_MEMORY
        }
    }
}

/// Records a command that any arguments stand for, unless there was no memory for it.
pub fn record_made(
    device: &Lent,
    encoder: &mut Encoder,
    alloc: Global,
    pass: u32,
    command: Result<CommandOf<u64>, NoMemory>,
) -> u32
    ensures { (asked : Command ℕ) → IfOk command (λ made. made ≡ asked) → Records (Some asked) (on_of pass) device.now.inside encoder.old.inside encoder.new.inside result }
{
    match command {
        Ok(command) => record(device, encoder, alloc, pass, Ok(Some(command))),
        Err(_) => record(device, encoder, alloc, pass, Err(NoMemory)),
    }
}

/// How many passes were begun on an encoder, if it is open.
fn passes_of(encoder: &mut Encoder, alloc: Global) -> Option<u32>
    ensures same { encoder.new.inside ≡ encoder.old.inside }
    ensures passes { result ≡ option_map (λ recorder. recorder.passes) encoder.old.inside }
{
    let recorder = take_recorder(encoder, alloc)?;
    let passes = recorder.passes();
    give_recorder(encoder, recorder);
    Some(passes)
}

/// Records a command that begins a pass, if its arguments stand for one, and tells the number of that.
pub fn begin(
    device: &Lent,
    encoder: &mut Encoder,
    alloc: Global,
    command: Result<Option<CommandOf<u64>>, NoMemory>,
    out: &mut u32,
) -> u32
    ensures { (asked : Option (Command ℕ)) → IfOk command (λ made. made ≡ asked) → Begins asked device.now.inside encoder.old.inside encoder.new.inside out.old out.new result }
{
    let passes = passes_of(encoder, alloc);
    let status = record(device, encoder, alloc, u32::MAX, command);
    if status == OK || status == LATE {
        if let Some(pass) = passes {
            *out = pass;
        }
    }
    status
}
