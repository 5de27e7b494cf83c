//! One pass: its state, in place of a walk over its commands.
ghost use Rattle.std.specs.Prelude.{◌≡◌, [], List, true, IfOk, OnOk, OnErr};
ghost use Rattle.wg_types.specs.Commands.{Command, is_begin};
ghost use Rattle.wg_types.specs.declared.limits.Maker.{Maker};
ghost use Rattle.wg_model.specs.Compute.{compute_does};
ghost use Rattle.wg_model.specs.Render.{render_does};
ghost use Rattle.wg_model.specs.Walk.{compute_rule, render_rule};
ghost use Rattle.wg_compute.specs.After.{settings_after};
ghost use Rattle.wg_render.specs.After.{render_after};
ghost use Rattle.wg_encoder.specs.Done.{done_by_pass};
ghost use Rattle.wg_encoder.specs.Walked.{IsStateOf, IsTaken};

use crate::done::Done;
use crate::named::{check_named, check_named_on};
use std::alloc::Global;
use wg_compute::ComputeState;
use wg_render::{RenderState, check_begin};
use wg_types::NoMemory;
use wg_types::commands::Command;
use wg_types::limits::Maker;
use wg_types::steps::StepName;
use wg_types::wanted::Kind;

/// The state of a pass: its first unmet rule, or what is set in it.
#[derive(Drop)]
pub enum PassState {
    Refused(u16),
    Compute(ComputeState),
    Render(RenderState),
}

/// The state of a pass that was just begun.
#[tactic(auto, using(crate::proofs::PassLemmas::named_refused))]
pub fn begin(alloc: Global, maker: &Maker, command: &Command) -> Result<PassState, NoMemory>
    requires { is_begin command.now ≡ true }
    ensures { IfOk result (λ state. IsStateOf maker.now command.now [] state) }
{
    if let Some(rule) = check_named(maker.device, command) {
        return Ok(PassState::Refused(rule));
    }
    let Some(begin) = command.render_begun() else {
        return Ok(PassState::Compute(ComputeState::new()));
    };
    if let Some(rule) = check_begin(&maker.limits, begin) {
        return Ok(PassState::Refused(rule));
    }
    let state = RenderState::new(alloc, begin)?;
    Ok(PassState::Render(state))
}

/// The first unmet rule of a command of a compute pass.
fn check_compute(set: &ComputeState, maker: &Maker, command: &Command) -> Option<u16>
    ensures { result ≡ compute_rule maker.now set.now command.now }
{
    if let Some(rule) = check_named_on(maker.device, Kind::ComputePass, command) {
        return Some(rule);
    }
    set.rule(command)
}

/// The first unmet rule of a command of a render pass.
fn check_render(set: &RenderState, maker: &Maker, command: &Command) -> Option<u16>
    ensures { result ≡ render_rule maker.now set.now command.now }
{
    if let Some(rule) = check_named_on(maker.device, Kind::RenderPass, command) {
        return Some(rule);
    }
    set.rule(&maker.limits, command)
}

/// Takes a command of a compute pass no rule of which is unmet, and adds the step of a dispatch to what is done.
#[tactic(auto, using(crate::proofs::PassLemmas::none_dispatched))]
fn take_compute(
    set: &mut ComputeState,
    done: &mut Done,
    alloc: Global,
    command: &Command,
) -> Result<(), NoMemory>
    ensures set { OnOk result (set.new ≡ settings_after set.old command.now) }
    ensures done { OnOk result (done.new ≡ done_by_pass done.old (compute_does set.old command.now)) }
    ensures unchanged { OnErr result (set.new ≡ set.old) }
    ensures none_done { OnErr result (done.new ≡ done.old) }
{
    let Some(touches) = set.dispatched(alloc, command)? else {
        return set.take(command);
    };
    done.add(alloc, StepName::Dispatch, touches.as_slice())
}

/// Takes a command of a render pass no rule of which is unmet, and adds the step of the whole pass to what is
/// done where the command ends it.
#[tactic(auto, using(crate::proofs::PassLemmas::end_keeps, crate::proofs::PassLemmas::end_does, crate::proofs::PassLemmas::no_end_does))]
fn take_render(
    pass: &mut RenderState,
    done: &mut Done,
    alloc: Global,
    command: &Command,
) -> Result<(), NoMemory>
    ensures set { OnOk result (pass.new ≡ render_after pass.old command.now) }
    ensures done { OnOk result (done.new ≡ done_by_pass done.old (render_does pass.old command.now)) }
    ensures unchanged { OnErr result (pass.new ≡ pass.old) }
    ensures none_done { OnErr result (done.new ≡ done.old) }
{
    if command.is_end() {
        return done.add(alloc, StepName::RenderPass, pass.touches());
    }
    pass.take(alloc, command)
}

/// Takes a command, and gives the rule of the pass after it. Where no rule is unmet, the step that it
/// completes is added to what is done.
pub fn take(
    state: &mut PassState,
    done: &mut Done,
    alloc: Global,
    maker: &Maker,
    command: &Command,
) -> Result<Option<u16>, NoMemory>
    ensures ok { (begin : Command) (earlier : List Command) → IsStateOf maker.now begin earlier state.old → IfOk result (λ rule. IsTaken maker.now begin earlier command.now state.new done.old done.new rule) }
    ensures err { OnErr result (state.new ≡ state.old) }
    ensures none_done { OnErr result (done.new ≡ done.old) }
{
    match state {
        PassState::Refused(rule) => return Ok(Some(*rule)),
        PassState::Compute(set) => {
            if let Some(rule) = check_compute(set, maker, command) {
                *state = PassState::Refused(rule);
                return Ok(Some(rule));
            }
            take_compute(set, done, alloc, command)?;
            return Ok(None);
        }
        PassState::Render(pass) => {
            if let Some(rule) = check_render(pass, maker, command) {
                *state = PassState::Refused(rule);
                return Ok(Some(rule));
            }
            take_render(pass, done, alloc, command)?;
            return Ok(None);
        }
    }
}
