//! Reads the calls on query sets and occlusion queries: a function for each, with its keys.
ghost use Rattle.wg_json.specs.View.{view};
ghost use Rattle.wg_script.specs.Giving.{Gives};
ghost use Rattle.wg_script.specs.QueryCalls.{create_queries_of, resolve_queries_of, begin_occlusion_of, end_occlusion_of};

use crate::calling::{making, recording};
use crate::calls::Call;
use crate::labels::made_in;
use crate::pass_calls::bare;
use crate::values::{MOST_WHOLE, Refusal, check_keys, name_at, reading, short_at, whole_at};
use std::alloc::Global;
use wg_json::Value;
use wg_types::commands::CommandOf;
use wg_types::handles::QueriesInfo;
use wg_types::requests::RequestOf;

/// Reads `createQuerySet`.
#[tactic(auto, unfolding(crate::specs::QueryCalls::create_queries_of))]
pub fn create_query_set(alloc: Global, call: &Value<'_>) -> Result<Call, Refusal>
    ensures { Gives result (create_queries_of (view call.now)) }
{
    reading!(call:
        need count = short_at("count");
        make made = made_in(alloc);
        => making(RequestOf::CreateQuerySet { info: QueriesInfo { count } }, made))
}

/// Reads `resolveQuerySet`.
#[tactic(auto, unfolding(crate::specs::QueryCalls::resolve_queries_of))]
pub fn resolve_query_set(alloc: Global, call: &Value<'_>) -> Result<Call, Refusal>
    ensures { Gives result (resolve_queries_of (view call.now)) }
{
    reading!(call:
        need on = name_at(alloc, "on");
        need queries = name_at(alloc, "queries");
        need first = short_at("first");
        need count = short_at("count");
        need buffer = name_at(alloc, "buffer");
        need offset = whole_at("offset", MOST_WHOLE);
        => recording(on, CommandOf::ResolveQuerySet { queries, first, count, buffer, offset }))
}

/// Reads `beginOcclusionQuery`.
#[tactic(auto, unfolding(crate::specs::QueryCalls::begin_occlusion_of))]
pub fn begin_occlusion_query(alloc: Global, call: &Value<'_>) -> Result<Call, Refusal>
    ensures { Gives result (begin_occlusion_of (view call.now)) }
{
    reading!(call:
        need on = name_at(alloc, "on");
        need index = short_at("index");
        => recording(on, CommandOf::BeginOcclusionQuery { index }))
}

/// Reads `endOcclusionQuery`.
#[tactic(auto, unfolding(crate::specs::QueryCalls::end_occlusion_of))]
pub fn end_occlusion_query(alloc: Global, call: &Value<'_>) -> Result<Call, Refusal>
    ensures { Gives result (end_occlusion_of (view call.now)) }
{
    bare(alloc, call, CommandOf::EndOcclusionQuery)
}
