//! The calls of a lane with handles in place of slots.
ghost use Rattle.std.specs.Prelude.{◌≡◌, IfOk, OnOk, OnErr};
ghost use Rattle.wg_encoder.specs.Recorders.{noted};
ghost use Rattle.wg_play.specs.Lanes.{command_seen, noted_on, request_seen};
ghost use Rattle.wg_play.specs.Objects.{is_late_on};
ghost use Rattle.wg_play.specs.Sights.{SeesSame, sight_of, handle_in_sight};

use crate::objects::{Object, Stand, begun_by, record_on};
use crate::seen::LaneSight;
use std::alloc::Global;
use wg_encoder::Noted;
use wg_entry::NoMemory;
use wg_types::commands::{Command, CommandOf};
use wg_types::handles::Handle;
use wg_types::refs::Find;
use wg_types::requests::RequestOf;

/// The handles that slots stand for.
#[derive(Drop)]
struct Handles<'a, 's> {
    alloc: Global,
    seen: &'a LaneSight<'s>,
}

impl Find<u32, Handle> for Handles<'_, '_> {
    ghost finds = { λ find. handle_in_sight (sight_of find.seen.now) };

    fn find(&self, object: &u32) -> Result<Handle, NoMemory> {
        self.seen.handle(self.alloc, *object)
    }
}

/// A recording call's command, with the handle of each object in place of its slot.
pub fn command_of(
    alloc: Global,
    seen: &LaneSight<'_>,
    command: &CommandOf<u32>,
) -> Result<Command, NoMemory>
    ensures { IfOk result (λ found. found ≡ command_seen (sight_of seen.now) command.now) }
{
    command.map(alloc, &Handles { alloc, seen })
}

/// A call of the device, with the handle of each object in place of its slot.
pub fn request_of(
    alloc: Global,
    seen: &LaneSight<'_>,
    request: &RequestOf<u32>,
) -> Result<RequestOf<Handle>, NoMemory>
    ensures { IfOk result (λ found. found ≡ request_seen (sight_of seen.now) request.now) }
{
    request.map(alloc, &Handles { alloc, seen })
}

/// Records a command where it stands, and makes the pass that it begins, late or not. The room for a pass is
/// taken first, so that without memory nothing is recorded.
pub fn note_command(
    seen: &mut LaneSight<'_>,
    stand: Stand,
    command: Command,
    made: Option<u32>,
) -> Result<Noted, NoMemory>
    ensures same { SeesSame seen.old seen.new }
    ensures noted { IfOk result (λ answer. answer ≡ noted (is_late_on (sight_of seen.old).own stand)) }
    ensures after { OnOk result (sight_of seen.new ≡ noted_on (sight_of seen.old) stand command made) }
    ensures unchanged { OnErr result (sight_of seen.new ≡ sight_of seen.old) }
{
    let begun = begun_by(seen.own.as_slice(), stand.encoder, &command, made);
    if seen.own.reserve(1).is_err() {
        drop(command);
        return Err(NoMemory);
    }
    let noted = record_on(&mut seen.own, stand, command)?;
    if let Some(number) = begun {
        seen.own.push_reserved(Object::Pass {
            encoder: stand.encoder,
            number,
        });
    }
    Ok(noted)
}
