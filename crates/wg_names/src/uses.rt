//! The names that a call uses, and the name that it makes.
ghost use Rattle.std.specs.Prelude.{◌≡◌, ◌∷◌, OnOk};
ghost use Rattle.wg_types.specs.Commands.{place_wanted, named_on};
ghost use Rattle.wg_types.specs.Wanted.{within};
ghost use Rattle.wg_types.specs.Requests.{named as asked_of};
ghost use Rattle.wg_types.specs.Canvases.{named as canvas_named};
ghost use Rattle.std.specs.Option.{option_map};
ghost use Rattle.wg_names.specs.Names.{kind_in, check_use};
ghost use Rattle.wg_names.specs.Known.{names_in};
ghost use Rattle.wg_names.specs.Uses.{made_as, made_of, broken, refused};
ghost use Rattle.wg_names.specs.Script.{check_uses, check_setting, with_setting, uses_by};

use crate::known::BoundNames;
use wg_script::{Call, Name, NoMemory};
use wg_types::canvases::{CanvasCall, CanvasOf};
use wg_types::commands::CommandOf;
use wg_types::refs::Ask;
use wg_types::requests::RequestOf;
use wg_types::wanted::{Kind, Wanted};

/// The tests of a name that a call of this phase and lane uses.
#[derive(Drop)]
struct Use<'a, 'k> {
    known: &'k BoundNames<'a>,
    phase: u32,
    lane: u32,
}

impl Ask<Name, u8> for Use<'_, '_> {
    ghost asks = { λ asked name. broken (check_use (names_in asked.known.now) asked.phase asked.lane name) };

    fn ask(&self, object: &Name, wanted: Wanted) -> Option<u8> {
        match self.known.check_use(self.phase, self.lane, object, wanted) {
            Ok(()) => None,
            Err(rule) => Some(rule),
        }
    }
}

/// Refuses a rule that is broken.
fn refused(found: Option<u8>) -> Result<(), u8>
    ensures { result ≡ refused found }
{
    match found {
        Some(rule) => Err(rule),
        None => Ok(()),
    }
}

/// The same in a recording call on something of this kind.
#[derive(Drop)]
struct UseOn<'a, 'k> {
    used: Use<'a, 'k>,
    place: Kind,
}

impl Ask<Name, u8> for UseOn<'_, '_> {
    ghost asks = { λ asked name. broken (check_use (names_in asked.used.known.now) asked.used.phase asked.used.lane (name.0, within asked.place name.1)) };

    fn ask(&self, object: &Name, wanted: Wanted) -> Option<u8> {
        self.used.ask(object, wanted.within(self.place))
    }
}

/// Tests the names that a command uses which stands on something of this kind.
#[tactic(auto, using(crate::proofs::Asking::uses_asked_on))]
fn check_command(
    known: &BoundNames<'_>,
    phase: u32,
    lane: u32,
    place: Kind,
    command: &CommandOf<Name>,
) -> Result<(), u8>
    ensures { result ≡ check_uses (names_in known.now) phase lane (named_on place command.now) }
{
    let used = Use { known, phase, lane };
    refused(command.first(&UseOn { used, place }))
}

/// Tests the names that a request uses.
#[tactic(auto, using(crate::proofs::Asking::uses_asked))]
fn check_request(
    known: &BoundNames<'_>,
    phase: u32,
    lane: u32,
    request: &RequestOf<Name>,
) -> Result<(), u8>
    ensures { result ≡ check_uses (names_in known.now) phase lane (asked_of request.now) }
{
    let asked = Use { known, phase, lane };
    refused(request.first(&asked))
}

/// Tests the canvas that a call names, if it names one.
#[tactic(auto, using(crate::proofs::Asking::uses_asked))]
fn check_canvas(
    known: &BoundNames<'_>,
    phase: u32,
    lane: u32,
    call: &CanvasOf<Name>,
) -> Result<(), u8>
    ensures { result ≡ check_uses (names_in known.now) phase lane (canvas_named call.now) }
{
    let asked = Use { known, phase, lane };
    refused(call.first(&asked))
}

/// Tests what a recording call stands on, and then the names that its command uses.
fn check_record(
    known: &BoundNames<'_>,
    phase: u32,
    lane: u32,
    on: &Name,
    command: &CommandOf<Name>,
) -> Result<(), u8>
    ensures { result ≡ check_uses (names_in known.now) phase lane ((on.now, place_wanted command.now) ∷ named_on (kind_in (names_in known.now) on.now) command.now) }
{
    known.check_use(phase, lane, on, command.place_wanted())?;
    check_command(known, phase, lane, known.kind(on), command)
}

/// Tests the names that a call uses, in the order of its keys: what a recording call stands on comes first.
pub fn check_uses(known: &BoundNames<'_>, phase: u32, lane: u32, call: &Call) -> Result<(), u8>
    ensures { result ≡ check_uses (names_in known.now) phase lane (uses_by (names_in known.now) call.now) }
{
    match call {
        Call::Record { on, command, .. } => check_record(known, phase, lane, on, command),
        Call::Ask { request, .. } => check_request(known, phase, lane, request),
        Call::Canvas { call, .. } => check_canvas(known, phase, lane, call),
    }
}

/// A name with the kind of what is made under it, where there are both.
fn made_as(made: &Option<Name>, kind: Option<Kind>) -> Option<(&Name, Kind)>
    ensures { option_map (λ m. (m.0.now, m.1)) result ≡ made_as made.now kind }
{
    match (made, kind) {
        (Some(name), Some(kind)) => Some((name, kind)),
        (Some(_), None) | (None, _) => None,
    }
}

/// The name that a call makes, and what it stands for: an object, a pass or a canvas.
pub fn made_of(call: &Call) -> Option<(&Name, Kind)>
    ensures { option_map (λ m. (m.0.now, m.1)) result ≡ made_of call.now }
{
    match call {
        Call::Record { command, made, .. } => made_as(made, command.kind_begun()),
        Call::Ask { request, made } => made_as(made, request.kind_made()),
        Call::Canvas { call, made } => made_as(made, call.kind_made()),
    }
}

/// Script rule 15: refuses a call that asks for the current texture of a canvas that no earlier call has
/// configured.
pub fn check_setting(known: &BoundNames<'_>, call: &Call) -> Result<(), u8>
    ensures { result ≡ check_setting (names_in known.now) call.now }
{
    match call {
        Call::Canvas {
            call: CanvasOf::On {
                canvas,
                call: CanvasCall::Current,
            },
            ..
        } if !known.is_configured(canvas.as_str()) => Err(15),
        Call::Canvas { .. } | Call::Record { .. } | Call::Ask { .. } => Ok(()),
    }
}

/// Notes the canvas that a call configures, if it configures one.
pub fn note_setting<'a>(known: &mut BoundNames<'a>, call: &'a Call) -> Result<(), NoMemory>
    ensures { OnOk result (names_in known.new ≡ with_setting call.now (names_in known.old)) }
{
    match call {
        Call::Canvas {
            call: CanvasOf::On {
                canvas,
                call: CanvasCall::Configure { .. },
            },
            ..
        } => known.configure(canvas),
        Call::Canvas { .. } | Call::Record { .. } | Call::Ask { .. } => Ok(()),
    }
}
