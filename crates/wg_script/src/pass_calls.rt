//! Reads the calls on compute passes: a function for each, with its keys.
ghost use Rattle.wg_json.specs.View.{view};
ghost use Rattle.wg_script.specs.Giving.{Gives};
ghost use Rattle.wg_script.specs.PassCalls.{begin_compute_pass_of, bare_of, end_of, set_pipeline_of, set_bind_group_of, dispatch_of, indirect_of, dispatch_indirect_of};

use crate::calling::{beginning, recording};
use crate::calls::Call;
use crate::labels::made_in;
use crate::lists::{item_or_null, list_or_empty};
use crate::name::Name;
use crate::values::{
    MOST_WHOLE, Refusal, check_keys, name_at, reading, short_at, short_or, whole_at,
};
use std::alloc::Global;
use wg_json::Value;
use wg_types::commands::CommandOf;
use wg_types::shared::Shared;

/// Reads `beginComputePass`.
#[tactic(auto, unfolding(crate::specs::PassCalls::begin_compute_pass_of))]
pub fn begin_compute_pass(alloc: Global, call: &Value<'_>) -> Result<Call, Refusal>
    ensures { Gives result (begin_compute_pass_of (view call.now)) }
{
    reading!(call:
        need on = name_at(alloc, "on");
        make made = made_in(alloc);
        => beginning(on, CommandOf::BeginComputePass, made))
}

/// Reads a command with no other key than what it stands on.
pub fn bare(alloc: Global, call: &Value<'_>, command: CommandOf<Name>) -> Result<Call, Refusal>
    ensures { Gives result (bare_of command (view call.now)) }
{
    reading!(call:
        need on = name_at(alloc, "on");
        => recording(on, command))
}

/// Reads `end`.
#[tactic(auto, unfolding(crate::specs::PassCalls::end_of))]
pub fn end(alloc: Global, call: &Value<'_>) -> Result<Call, Refusal>
    ensures { Gives result (end_of (view call.now)) }
{
    bare(alloc, call, CommandOf::End)
}

/// Reads `setPipeline`.
#[tactic(auto, unfolding(crate::specs::PassCalls::set_pipeline_of))]
pub fn set_pipeline(alloc: Global, call: &Value<'_>) -> Result<Call, Refusal>
    ensures { Gives result (set_pipeline_of (view call.now)) }
{
    reading!(call:
        need on = name_at(alloc, "on");
        need pipeline = name_at(alloc, "pipeline");
        => recording(on, CommandOf::SetPipeline { pipeline }))
}

/// Reads `setBindGroup`.
#[tactic(auto, unfolding(crate::specs::PassCalls::set_bind_group_of))]
pub fn set_bind_group(alloc: Global, call: &Value<'_>) -> Result<Call, Refusal>
    ensures { Gives result (set_bind_group_of (view call.now)) }
{
    reading!(call:
        need on = name_at(alloc, "on");
        need index = short_at("index");
        need group = item_or_null(alloc, "group");
        may offsets = list_or_empty(alloc, "offsets");
        => recording(on, CommandOf::SetBindGroup { index, group, offsets: Shared::new(alloc, offsets)? }))
}

/// Reads `dispatch`.
#[tactic(auto, unfolding(crate::specs::PassCalls::dispatch_of))]
pub fn dispatch(alloc: Global, call: &Value<'_>) -> Result<Call, Refusal>
    ensures { Gives result (dispatch_of (view call.now)) }
{
    reading!(call:
        need on = name_at(alloc, "on");
        need x = short_at("x");
        may y = short_or("y", 1);
        may z = short_or("z", 1);
        => recording(on, CommandOf::Dispatch { x, y, z }))
}

/// The buffer from which a command takes its counts, where they lie in it, and what the command stands on.
#[derive(Drop)]
pub struct IndirectCall {
    pub on: Name,
    pub buffer: Name,
    pub offset: u64,
}

/// Reads a command that takes its counts from a buffer.
#[tactic(auto, unfolding(crate::specs::PassCalls::indirect_of))]
pub fn indirect(alloc: Global, call: &Value<'_>) -> Result<IndirectCall, Refusal>
    ensures { Gives result (indirect_of (view call.now)) }
{
    reading!(call:
        need on = name_at(alloc, "on");
        need buffer = name_at(alloc, "buffer");
        need offset = whole_at("offset", MOST_WHOLE);
        => IndirectCall { on, buffer, offset })
}

/// Reads `dispatchIndirect`.
#[tactic(auto, unfolding(crate::specs::PassCalls::dispatch_indirect_of))]
pub fn dispatch_indirect(alloc: Global, call: &Value<'_>) -> Result<Call, Refusal>
    ensures { Gives result (dispatch_indirect_of (view call.now)) }
{
    let IndirectCall { on, buffer, offset } = indirect(alloc, call)?;
    Ok(recording(on, CommandOf::DispatchIndirect { buffer, offset }))
}
