//! Reads the calls on render pipelines, render passes and draws: a function for each, with its keys.
ghost use Rattle.wg_json.specs.View.{view};
ghost use Rattle.wg_script.specs.Giving.{Gives};
ghost use Rattle.wg_script.specs.RenderCalls.{create_render_of, begin_render_pass_of, set_vertex_buffer_of, set_index_buffer_of, set_viewport_of, set_scissor_rect_of, set_blend_constant_of, set_stencil_reference_of, draw_of, draw_indexed_of, draw_indirect_of, draw_indexed_indirect_of};

use crate::binding_calls::layout_at;
use crate::binding_entries::staged_or_empty;
use crate::calling::{beginning, making, recording};
use crate::calls::Call;
use crate::fixed_function::fixed_in;
use crate::labels::made_in;
use crate::lists::{item_if, item_or_null, list_at, list_or_empty};
use crate::pass_calls::{IndirectCall, bare, indirect};
use crate::render_words::INDEX_FORMATS;
use crate::values::{
    MOST_WHOLE, Refusal, check_keys, flag_or, name_at, reading, short_at, short_or, whole_at,
    whole_if, whole_or,
};
use crate::words::word_at;
use std::alloc::Global;
use wg_json::Value;
use wg_types::commands::CommandOf;
use wg_types::render::{RenderBeginOf, RenderDesc, Viewport};
use wg_types::requests::RequestOf;
use wg_types::shared::Shared;

/// Reads `createRenderPipeline`.
#[tactic(auto, unfolding(crate::specs::RenderCalls::create_render_of))]
pub fn create_render_pipeline(alloc: Global, call: &Value<'_>) -> Result<Call, Refusal>
    ensures { Gives result (create_render_of (view call.now)) }
{
    reading!(call:
        part fixed = fixed_in("depth", "samples", "primitive", "mask", "alphaToCoverage");
        need layout = layout_at(alloc, "layout");
        may iface = staged_or_empty(alloc, "iface");
        may buffers = list_or_empty(alloc, "buffers");
        may targets = list_or_empty(alloc, "targets");
        make made = made_in(alloc);
        => making(RequestOf::CreateRenderPipeline {
            layout,
            desc: Shared::new(alloc, RenderDesc {
                iface,
                buffers,
                targets,
                primitive: fixed.primitive,
                depth: fixed.depth,
                samples: fixed.samples,
                alpha_to_coverage: fixed.alpha_to_coverage,
            })?,
        }, made))
}

/// Reads `beginRenderPass`.
#[tactic(auto, unfolding(crate::specs::RenderCalls::begin_render_pass_of))]
pub fn begin_render_pass(alloc: Global, call: &Value<'_>) -> Result<Call, Refusal>
    ensures { Gives result (begin_render_pass_of (view call.now)) }
{
    reading!(call:
        need on = name_at(alloc, "on");
        need colors = list_at(alloc, "colors");
        may depth = item_if(alloc, "depth");
        may queries = item_if(alloc, "queries");
        may max_draws = whole_if("maxDrawCount", MOST_WHOLE);
        make made = made_in(alloc);
        => beginning(on, CommandOf::BeginRenderPass { begin: RenderBeginOf { colors, depth, queries, max_draws } }, made))
}

/// Reads `setVertexBuffer`.
#[tactic(auto, unfolding(crate::specs::RenderCalls::set_vertex_buffer_of))]
pub fn set_vertex_buffer(alloc: Global, call: &Value<'_>) -> Result<Call, Refusal>
    ensures { Gives result (set_vertex_buffer_of (view call.now)) }
{
    reading!(call:
        need on = name_at(alloc, "on");
        need slot = short_at("slot");
        need buffer = item_or_null(alloc, "buffer");
        may offset = whole_or("offset", MOST_WHOLE, 0);
        may size = whole_if("size", MOST_WHOLE);
        => recording(on, CommandOf::SetVertexBuffer { slot, buffer, offset, size }))
}

/// Reads `setIndexBuffer`.
#[tactic(auto, unfolding(crate::specs::RenderCalls::set_index_buffer_of))]
pub fn set_index_buffer(alloc: Global, call: &Value<'_>) -> Result<Call, Refusal>
    ensures { Gives result (set_index_buffer_of (view call.now)) }
{
    reading!(call:
        need on = name_at(alloc, "on");
        need buffer = name_at(alloc, "buffer");
        need format = word_at("format", &INDEX_FORMATS);
        may offset = whole_or("offset", MOST_WHOLE, 0);
        may size = whole_if("size", MOST_WHOLE);
        => recording(on, CommandOf::SetIndexBuffer { buffer, format, offset, size }))
}

/// Reads `setViewport`.
#[tactic(auto, unfolding(crate::specs::RenderCalls::set_viewport_of))]
pub fn set_viewport(alloc: Global, call: &Value<'_>) -> Result<Call, Refusal>
    ensures { Gives result (set_viewport_of (view call.now)) }
{
    reading!(call:
        need on = name_at(alloc, "on");
        may x = whole_or("x", MOST_WHOLE, 0);
        may left = flag_or("left", false);
        may y = whole_or("y", MOST_WHOLE, 0);
        may above = flag_or("above", false);
        need width = whole_at("width", MOST_WHOLE);
        need height = whole_at("height", MOST_WHOLE);
        may min_depth = whole_or("minDepth", MOST_WHOLE, 0);
        may max_depth = whole_or("maxDepth", MOST_WHOLE, 65_536);
        => recording(on, CommandOf::SetViewport {
            viewport: Viewport { x, left, y, above, width, height, min_depth, max_depth },
        }))
}

/// Reads `setScissorRect`.
#[tactic(auto, unfolding(crate::specs::RenderCalls::set_scissor_rect_of))]
pub fn set_scissor_rect(alloc: Global, call: &Value<'_>) -> Result<Call, Refusal>
    ensures { Gives result (set_scissor_rect_of (view call.now)) }
{
    reading!(call:
        need on = name_at(alloc, "on");
        need x = short_at("x");
        need y = short_at("y");
        need width = short_at("width");
        need height = short_at("height");
        => recording(on, CommandOf::SetScissorRect { x, y, width, height }))
}

/// Reads `setBlendConstant`.
#[tactic(auto, unfolding(crate::specs::RenderCalls::set_blend_constant_of))]
pub fn set_blend_constant(alloc: Global, call: &Value<'_>) -> Result<Call, Refusal>
    ensures { Gives result (set_blend_constant_of (view call.now)) }
{
    bare(alloc, call, CommandOf::SetBlendConstant)
}

/// Reads `setStencilReference`.
#[tactic(auto, unfolding(crate::specs::RenderCalls::set_stencil_reference_of))]
pub fn set_stencil_reference(alloc: Global, call: &Value<'_>) -> Result<Call, Refusal>
    ensures { Gives result (set_stencil_reference_of (view call.now)) }
{
    reading!(call:
        need on = name_at(alloc, "on");
        need _reference = short_at("reference");
        => recording(on, CommandOf::SetStencilReference))
}

/// Reads `draw`.
#[tactic(auto, unfolding(crate::specs::RenderCalls::draw_of))]
pub fn draw(alloc: Global, call: &Value<'_>) -> Result<Call, Refusal>
    ensures { Gives result (draw_of (view call.now)) }
{
    reading!(call:
        need on = name_at(alloc, "on");
        need vertices = short_at("vertices");
        may instances = short_or("instances", 1);
        may first_vertex = short_or("firstVertex", 0);
        may first_instance = short_or("firstInstance", 0);
        => recording(on, CommandOf::Draw { vertices, instances, first_vertex, first_instance }))
}

/// Reads `drawIndexed`.
#[tactic(auto, unfolding(crate::specs::RenderCalls::draw_indexed_of))]
pub fn draw_indexed(alloc: Global, call: &Value<'_>) -> Result<Call, Refusal>
    ensures { Gives result (draw_indexed_of (view call.now)) }
{
    reading!(call:
        need on = name_at(alloc, "on");
        need indices = short_at("indices");
        may instances = short_or("instances", 1);
        may first_index = short_or("firstIndex", 0);
        may first_instance = short_or("firstInstance", 0);
        may _base_vertex = short_or("baseVertex", 0);
        => recording(on, CommandOf::DrawIndexed { indices, instances, first_index, first_instance }))
}

/// Reads `drawIndirect`.
#[tactic(auto, unfolding(crate::specs::RenderCalls::draw_indirect_of))]
pub fn draw_indirect(alloc: Global, call: &Value<'_>) -> Result<Call, Refusal>
    ensures { Gives result (draw_indirect_of (view call.now)) }
{
    let IndirectCall { on, buffer, offset } = indirect(alloc, call)?;
    Ok(recording(on, CommandOf::DrawIndirect { buffer, offset }))
}

/// Reads `drawIndexedIndirect`.
#[tactic(auto, unfolding(crate::specs::RenderCalls::draw_indexed_indirect_of))]
pub fn draw_indexed_indirect(alloc: Global, call: &Value<'_>) -> Result<Call, Refusal>
    ensures { Gives result (draw_indexed_indirect_of (view call.now)) }
{
    let IndirectCall { on, buffer, offset } = indirect(alloc, call)?;
    Ok(recording(on, CommandOf::DrawIndexedIndirect { buffer, offset }))
}
