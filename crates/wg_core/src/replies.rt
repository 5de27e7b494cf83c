//! The reply to an event, by the form in which it is answered.
ghost use Rattle.std.specs.Prelude.{◌≡◌, ◌+◌, ◌^◌, ◌<◌, false, reverse, length, IfOk};
ghost use Rattle.wg_fading.specs.Fading.{was_let_go};
ghost use Rattle.wg_state.specs.Gone.{any_gone, asked_by};
ghost use Rattle.wg_history.specs.Entries.{effects_of};
ghost use Rattle.wg_history.specs.Loss.{is_lost};
ghost use Rattle.wg_history.specs.Answers.{fault_kind, fault_by, is_taken, answer_by, at_once, own_settled, loss_settled, unmap_settled, settled_by, reply_by};

use std::alloc::Global;
use wg_history::NoMemory;
use wg_history::events::{Effects, Event, Form, Promise};
use wg_rules::BYTES_ARE_WITHIN_BUDGET;
use wg_state::State;
use wg_types::handles::ObjRef;
use wg_types::items::Items;
use wg_types::replies::{Answer, Fault, FaultKind, How, Reply, Settlement, Settlements};

/// The kind of a rule's fault: want of memory is told by rule 13 alone.
fn kind_of(rule: u16) -> FaultKind
    ensures { result ≡ fault_kind rule }
{
    if rule == BYTES_ARE_WITHIN_BUDGET {
        FaultKind::OutOfMemory
    } else {
        FaultKind::Validation
    }
}

/// The fault of an unmet rule, which a lost device does not make (WebGPU, "Errors & Debugging").
fn fault(state: &State, rule: Option<u16>) -> Option<Fault>
    ensures { result ≡ fault_by (reverse state.now.history) (is_lost (reverse state.now.history)) rule }
{
    let rule = rule?;
    let kind = kind_of(rule);
    let caught = state.catches(kind)?;
    Some(Fault { kind, rule, caught })
}

/// Whether a completion is taken.
pub fn is_taken(state: &State, op: u64) -> bool
    ensures { result ≡ is_taken (reverse state.now.history) op }
{
    state.completed() < op && op <= state.issued()
}

/// The answer in a form, where the event is done or is not.
fn answer(state: &State, form: Form, done: bool) -> Answer
    requires { length state.now.history + 1 < 2 ^ 64 }
    ensures { result ≡ answer_by (reverse state.now.history) form done }
{
    match form {
        Form::Making => Answer::Made {
            number: state.book().count(),
            valid: done,
        },
        Form::Queue => {
            if done {
                Answer::Queued(state.issued() + 1)
            } else {
                Answer::Plain
            }
        }
        Form::Promise(_) => Answer::Promised,
        Form::Completion(op) => {
            if is_taken(state, op) {
                Answer::Plain
            } else {
                Answer::BadCompletion
            }
        }
        Form::Plain => Answer::Plain,
    }
}

/// The settlement of one promise.
fn at_once(alloc: Global, promise: u64, how: How) -> Result<Settlements, NoMemory>
    ensures { IfOk result (λ settled. settled ≡ at_once promise how) }
{
    let mut settled = Items::new(alloc);
    settled.push(Settlement { promise, how })?;
    Ok(settled)
}

/// What a map settles at once.
fn map_settled(
    alloc: Global,
    state: &State,
    buffer: ObjRef,
    met: bool,
) -> Result<Settlements, NoMemory>
    requires { was_let_go state.now.gone buffer.number ≡ false }
    ensures { (mode offset size : _) → IfOk result (λ settled. settled ≡ own_settled (reverse state.now.history) (is_lost (reverse state.now.history)) met (Promise.Map buffer mode offset size)) }
{
    let number = state.len();
    if state.is_lost() {
        return at_once(alloc, number, How::Aborted);
    }
    if !met {
        return at_once(alloc, number, How::Rejected);
    }
    if state.last_use(buffer.number) <= state.completed() {
        return at_once(alloc, number, How::Mapped);
    }
    Ok(Items::new(alloc))
}

/// What the promise of an event settles at once.
fn own_settled(
    alloc: Global,
    state: &State,
    promise: Promise,
    met: bool,
) -> Result<Settlements, NoMemory>
    requires { any_gone state.now.gone (asked_by (Form.Promise promise)) ≡ false }
    ensures { IfOk result (λ settled. settled ≡ own_settled (reverse state.now.history) (is_lost (reverse state.now.history)) met promise) }
{
    let number = state.len();
    match promise {
        Promise::WorkDone => {
            if state.is_idle() {
                at_once(alloc, number, How::Done)
            } else {
                Ok(Items::new(alloc))
            }
        }
        Promise::ScopeError => at_once(alloc, number, state.top()),
        Promise::Map { buffer, .. } => map_settled(alloc, state, buffer, met),
    }
}

/// What the loss of the device settles, which is all that waits where it was not lost before.
fn loss_settled(alloc: Global, state: &State) -> Result<Settlements, NoMemory>
    ensures { IfOk result (λ settled. settled ≡ loss_settled (reverse state.now.history) (is_lost (reverse state.now.history))) }
{
    if state.is_lost() {
        return Ok(Items::new(alloc));
    }
    state.ended(alloc)
}

/// What the end of a buffer's mapping settles, by an event that meets its rules or does not.
fn unmap_settled(
    alloc: Global,
    state: &State,
    buffer: Option<ObjRef>,
    met: bool,
) -> Result<Settlements, NoMemory>
    ensures { IfOk result (λ settled. settled ≡ unmap_settled (reverse state.now.history) met buffer) }
{
    let Some(buffer) = buffer else {
        return Ok(Items::new(alloc));
    };
    if !met {
        return Ok(Items::new(alloc));
    }
    state.aborted(alloc, buffer.number)
}

/// What an event settles, in the order of the promises.
fn settled(
    alloc: Global,
    state: &State,
    effects: Effects,
    met: bool,
) -> Result<Settlements, NoMemory>
    requires { any_gone state.now.gone (asked_by effects.form) ≡ false }
    ensures { IfOk result (λ settled. settled ≡ settled_by (reverse state.now.history) effects (is_lost (reverse state.now.history)) met) }
{
    match effects.form {
        Form::Making | Form::Queue => Ok(Items::new(alloc)),
        Form::Promise(promise) => own_settled(alloc, state, promise, met),
        Form::Completion(op) => {
            if !is_taken(state, op) {
                return Ok(Items::new(alloc));
            }
            state.kept(alloc, op)
        }
        Form::Plain => {
            if effects.loses {
                return loss_settled(alloc, state);
            }
            unmap_settled(alloc, state, effects.unmapped.or(effects.destroyed), met)
        }
    }
}

/// The reply to an event, by its first unmet rule.
pub fn reply(
    alloc: Global,
    state: &State,
    event: &Event,
    rule: Option<u16>,
) -> Result<Reply, NoMemory>
    requires names { any_gone state.now.gone (asked_by (effects_of event.now).form) ≡ false }
    requires small { length state.now.history + 1 < 2 ^ 64 }
    ensures { IfOk result (λ reply. reply ≡ reply_by (reverse state.now.history) (effects_of event.now) (is_lost (reverse state.now.history)) rule) }
{
    let effects = event.effects();
    let settled = settled(alloc, state, effects, rule.is_none())?;
    Ok(Reply {
        answer: answer(state, effects.form, !state.is_lost() && rule.is_none()),
        fault: fault(state, rule),
        settled,
    })
}
