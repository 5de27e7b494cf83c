//! Reads the calls on layouts, bind groups and compute pipelines, and the one that gets a layout of a pipeline: a
//! function for each, with its keys.
ghost use Rattle.serde_json.specs.Find.{get};
ghost use Rattle.wg_json.specs.View.{view};
ghost use Rattle.wg_script.specs.Giving.{Gives};
ghost use Rattle.wg_script.specs.BindingCalls.{create_group_layout_of, create_pipeline_layout_of, create_group_of, layout_at, create_compute_of, get_group_layout_of};

use crate::calling::making;
use crate::calls::Call;
use crate::labels::made_in;
use crate::lists::{list_at, list_or_empty};
use crate::name::Name;
use crate::values::{Refusal, check_keys, name_at, reading, short_at};
use std::alloc::Global;
use wg_json::Value;
use wg_types::groups::Interface;
use wg_types::requests::RequestOf;
use wg_types::shared::Shared;

/// Reads `createBindGroupLayout`.
#[tactic(auto, unfolding(crate::specs::BindingCalls::create_group_layout_of))]
pub fn create_bind_group_layout(alloc: Global, call: &Value<'_>) -> Result<Call, Refusal>
    ensures { Gives result (create_group_layout_of (view call.now)) }
{
    reading!(call:
        need entries = list_at(alloc, "entries");
        make made = made_in(alloc);
        => making(RequestOf::CreateBindGroupLayout { entries: Shared::new(alloc, entries)? }, made))
}

/// Reads `createPipelineLayout`.
#[tactic(auto, unfolding(crate::specs::BindingCalls::create_pipeline_layout_of))]
pub fn create_pipeline_layout(alloc: Global, call: &Value<'_>) -> Result<Call, Refusal>
    ensures { Gives result (create_pipeline_layout_of (view call.now)) }
{
    reading!(call:
        need layouts = list_at(alloc, "layouts");
        make made = made_in(alloc);
        => making(RequestOf::CreatePipelineLayout { layouts }, made))
}

/// Reads `createBindGroup`.
#[tactic(auto, unfolding(crate::specs::BindingCalls::create_group_of))]
pub fn create_bind_group(alloc: Global, call: &Value<'_>) -> Result<Call, Refusal>
    ensures { Gives result (create_group_of (view call.now)) }
{
    reading!(call:
        need layout = name_at(alloc, "layout");
        need entries = list_at(alloc, "entries");
        make made = made_in(alloc);
        => making(RequestOf::CreateBindGroup { layout, entries }, made))
}

/// The name of a pipeline layout, under a key that is needed, or none where that holds the word `auto`: the
/// pipeline is to derive its layout itself. Script rule 8 where the value is no text.
pub fn layout_at(alloc: Global, object: &Value<'_>, key: &str) -> Result<Option<Name>, Refusal>
    ensures { Gives result (layout_at (get key.now (view object.now))) }
{
    match object.get(key).and_then(Value::as_str) {
        Some("auto") => Ok(None),
        Some(text) => Ok(Some(Name::new(alloc, text)?)),
        None => Err(Refusal::Rule(8)),
    }
}

/// Reads `createComputePipeline`.
#[tactic(auto, unfolding(crate::specs::BindingCalls::create_compute_of))]
pub fn create_compute_pipeline(alloc: Global, call: &Value<'_>) -> Result<Call, Refusal>
    ensures { Gives result (create_compute_of (view call.now)) }
{
    reading!(call:
        need layout = layout_at(alloc, "layout");
        may entries = list_or_empty(alloc, "iface");
        make made = made_in(alloc);
        => making(RequestOf::CreateComputePipeline { layout, iface: Shared::new(alloc, Interface { entries })? }, made))
}

/// Reads `getBindGroupLayout`.
#[tactic(auto, unfolding(crate::specs::BindingCalls::get_group_layout_of))]
pub fn get_bind_group_layout(alloc: Global, call: &Value<'_>) -> Result<Call, Refusal>
    ensures { Gives result (get_group_layout_of (view call.now)) }
{
    reading!(call:
        need pipeline = name_at(alloc, "pipeline");
        need index = short_at("index");
        make made = made_in(alloc);
        => making(RequestOf::GetBindGroupLayout { pipeline, index }, made))
}
