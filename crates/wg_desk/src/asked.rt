//! Calls over numbers, as calls over the handles at these.
ghost use Rattle.std.specs.Prelude.{◌≡◌, IfOk};
ghost use Rattle.wg_types.specs.Commands.{named as command_named, map_refs as map_command};
ghost use Rattle.wg_types.specs.Requests.{named, map_refs};
ghost use Rattle.wg_desk.specs.Seats.{found_at, is_missing, any_missing};
ghost use Rattle.wg_desk.specs.Sent.{dropped_number};

use crate::seats::Seats;
use std::alloc::Global;
use std::sync::Arc;
use wg_core::Event;
use wg_entry::NoMemory;
use wg_types::commands::{Command, CommandOf};
use wg_types::handles::{Handle, Info, ObjRef};
use wg_types::refs::{Find, Test, Tested};
use wg_types::requests::RequestOf;
use wg_types::wanted::Wanted;

/// Stands for no object.
const NO_OBJECT: ObjRef = ObjRef {
    device: 0,
    number: 0,
};

/// Whether a number has no handle.
#[derive(Drop)]
struct Missing<'a> {
    seats: &'a Seats,
}

impl Test<u64> for Missing<'_> {
    ghost holds = { λ m. is_missing m.seats.now.items };

    fn holds(&self, object: &u64, _wanted: Wanted) -> bool {
        self.seats.handle_at(*object).is_none()
    }
}

/// The handles at numbers.
#[derive(Drop)]
struct Found<'a> {
    alloc: Global,
    seats: &'a Seats,
}

impl Find<u64, Handle> for Found<'_> {
    ghost finds = { λ f. found_at f.seats.now.items };

    fn find(&self, object: &u64) -> Result<Handle, NoMemory> {
        match self.seats.handle_at(*object) {
            Some(handle) => handle.share(),
            None => Ok(Handle::new(NO_OBJECT, false, Arc::new(self.alloc, Info::CommandBuffer)?)),
        }
    }
}

/// Whether a call names a number that has no handle.
pub fn is_missing_in(seats: &Seats, request: &RequestOf<u64>) -> bool
    ensures { result ≡ any_missing seats.now.items (named request.now) }
{
    let test = Missing { seats };
    request.first(&Tested { test: &test }).is_some()
}

/// Whether a command names a number that has no handle.
pub fn is_missing_on(seats: &Seats, command: &CommandOf<u64>) -> bool
    ensures { result ≡ any_missing seats.now.items (command_named command.now) }
{
    command.any(&Missing { seats })
}

/// The call over the handles at its numbers.
pub fn request_over(
    alloc: Global,
    seats: &Seats,
    request: &RequestOf<u64>,
) -> Result<RequestOf<Handle>, NoMemory>
    ensures { IfOk result (λ asked. asked ≡ map_refs (found_at seats.now.items) request.now) }
{
    request.map(alloc, &Found { alloc, seats })
}

/// The command over the handles at its numbers.
pub fn command_over(
    alloc: Global,
    seats: &Seats,
    command: &CommandOf<u64>,
) -> Result<Command, NoMemory>
    ensures { IfOk result (λ asked. asked ≡ map_command (found_at seats.now.items) command.now) }
{
    command.map(alloc, &Found { alloc, seats })
}

/// The number of the object that an event drops, if it drops one.
pub fn dropped_number(event: &Event) -> Option<u64>
    ensures { result ≡ dropped_number event.now }
{
    match event {
        Event::Drop { object } => Some(object.number),
        _ => None,
    }
}
