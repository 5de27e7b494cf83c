//! Goes through the calls of a script in order, and through the names of each.
ghost use Rattle.std.specs.Prelude.{◌≡◌, IfOk, MatchResult};
ghost use Rattle.std.specs.List.{list_all};
ghost use Rattle.wg_script.specs.Outcome.{Reads};
ghost use Rattle.wg_script.specs.Sizes.{IsSized};
ghost use Rattle.wg_names.specs.Names.{is_name, is_name_byte};
ghost use Rattle.wg_names.specs.Known.{names_in};
ghost use Rattle.wg_names.specs.Script.{call_bound, lane_bound, phase_bound, walk, script_from, script_of, Binds};
ghost use Rattle.wg_names.specs.Bound.{IsBound, IsBoundFrom, IsBoundRead};

use crate::known::BoundNames;
use crate::slots::bound_phases;
use crate::uses::{check_setting, check_uses, made_of, note_setting};
use std::alloc::Global;
use wg_script::{Call, Lane, Phase, Place, Script, ScriptDraft, ScriptFault};

/// How many letters a name may have.
const MOST_LETTERS: usize = 64;

fn is_name_byte(byte: u8) -> bool
    ensures { result ≡ is_name_byte byte }
{
    byte.is_ascii_alphanumeric() || byte == b'_'
}

fn all_name_bytes(bytes: &[u8]) -> bool
    ensures { result ≡ list_all is_name_byte bytes.now }
{
    bytes.iter().all(|byte| is_name_byte(*byte))
}

/// Whether a text is a name: 1 to 64 letters, digits and `_`.
fn is_name(text: &str) -> bool
    ensures { result ≡ is_name text.now }
{
    let bytes = text.as_bytes();
    !bytes.is_empty() && bytes.len() <= MOST_LETTERS && all_name_bytes(bytes)
}

/// Tests the names of a call, and the canvas of which it asks for a texture; adds the name that it makes,
/// and notes the canvas that it configures.
#[tactic(auto, unfolding(crate::specs::Script::call_bound))]
fn bind_call<'a>(
    known: &mut BoundNames<'a>,
    phase: u32,
    lane: u32,
    at: u32,
    call: &'a Call,
) -> Result<(), ScriptFault>
    ensures { Binds result (names_in known.new) (call_bound phase lane at (names_in known.old) call.now) }
{
    let place = Place::Call(phase, lane, at);
    if let Err(rule) = check_uses(known, phase, lane, call) {
        return Err(ScriptFault::Bad { rule, place });
    }
    if let Err(rule) = check_setting(known, call) {
        return Err(ScriptFault::Bad { rule, place });
    }
    if let Some((name, kind)) = made_of(call) {
        if !is_name(name.as_str()) || !known.is_new(name.as_str()) {
            return Err(ScriptFault::Bad { rule: 9, place });
        }
        known.add(phase, lane, name, kind)?;
    }
    note_setting(known, call)?;
    Ok(())
}

/// A number in a place. The lists of a script are never so long that there is none.
fn number_of(index: usize) -> Result<u32, ScriptFault>
    ensures { MatchResult result (λ n. n ≡ index) (λ fault. fault ≡ ScriptFault.NoMemory) }
{
    match u32::try_from(index) {
        Ok(number) => Ok(number),
        Err(_) => Err(ScriptFault::NoMemory),
    }
}

/// Goes through the calls of a lane.
fn bind_lane<'a>(
    known: &mut BoundNames<'a>,
    phase: u32,
    lane: u32,
    calls: &'a [Call],
) -> Result<(), ScriptFault>
    ensures { Binds result (names_in known.new) (lane_bound phase lane (names_in known.old) calls.now) }
{
    for (index, call) in calls.iter().enumerate() {
        let at = number_of(index)?;
        bind_call(known, phase, lane, at, call)?;
    }
    Ok(())
}

/// Goes through the lanes of a phase.
fn bind_phase<'a>(
    known: &mut BoundNames<'a>,
    phase: u32,
    lanes: &'a [Lane],
) -> Result<(), ScriptFault>
    ensures { Binds result (names_in known.new) (phase_bound phase (names_in known.old) lanes.now) }
{
    for (index, calls) in lanes.iter().enumerate() {
        let lane = number_of(index)?;
        bind_lane(known, phase, lane, calls.as_slice())?;
    }
    Ok(())
}

/// Goes through the phases of a script.
fn bind_phases<'a>(known: &mut BoundNames<'a>, phases: &'a [Phase]) -> Result<(), ScriptFault>
    ensures { Binds result (names_in known.new) (walk phase_bound 0 (names_in known.old) phases.now) }
{
    for (index, lanes) in phases.iter().enumerate() {
        let phase = number_of(index)?;
        bind_phase(known, phase, lanes.as_slice())?;
    }
    Ok(())
}

/// Binds the names of a script. What comes back is the script with the same calls, in which each name
/// has become the slot of what it stands for, was made by an earlier call that is visible and stands for
/// what is wanted, and in which each canvas is configured before its current texture is asked for; or the
/// rule that is broken first and its place; or that there was no memory. A list of 2^32 phases, lanes or
/// calls, whose places have no number, counts as want of memory, and so does the 2^32-th name.
pub fn bind(alloc: Global, draft: ScriptDraft) -> Result<Script, ScriptFault>
    ensures read { Reads result (script_from draft) }
    ensures bound { IfOk result (λ script. IsBound script.phases) }
    ensures from { IfOk result (λ script. IsBoundFrom draft.phases script.phases) }
{
    let mut known = BoundNames::new(alloc);
    bind_phases(&mut known, draft.phases.as_slice())?;
    let phases = bound_phases(alloc, &known, draft.phases.as_slice())?;
    Ok(Script {
        budget: draft.budget,
        limits: draft.limits,
        phases,
    })
}

/// Reads a script, by both readings. It has few phases, and each phase few lanes.
pub fn read_script(alloc: Global, bytes: &[u8]) -> Result<Script, ScriptFault>
    ensures read { Reads result (script_of bytes.now) }
    ensures bound { IfOk result (λ script. IsBound script.phases) }
    ensures from { IfOk result (λ script. IsBoundRead bytes.now script.phases) }
    ensures sized { IfOk result (λ script. IsSized script.phases) }
{
    match wg_script::read(alloc, bytes) {
        Ok(draft) => bind(alloc, draft),
        Err(fault) => Err(fault),
    }
}
