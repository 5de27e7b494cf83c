//! Reads a call: a function for each, with its keys. Those of calls on textures, bindings, compute passes,
//! rendering, queries, bundles and canvases stand in files of their own.
ghost use Rattle.std.specs.Prelude.{◌≡◌, bytes_eq};
ghost use Rattle.std.specs.List.{find};
ghost use Rattle.wg_json.specs.View.{view};
ghost use Rattle.wg_types.specs.Words.{word_text, word_of};
ghost use Rattle.wg_script.specs.Giving.{Gives};
ghost use Rattle.wg_script.specs.Calls.{call_of, call_as, create_buffer_of, create_encoder_of, finish_of, submit_of, write_buffer_of, destroy_of, drop_of, complete_of, push_error_scope_of, keyless_of, pop_error_scope_of, work_done_of, lose_of, map_async_of, unmap_of, copy_buffer_to_buffer_of, clear_buffer_of, push_debug_group_of, pop_debug_group_of, insert_debug_marker_of};

use crate::binding_calls::{
    create_bind_group, create_bind_group_layout, create_compute_pipeline, create_pipeline_layout,
    get_bind_group_layout,
};
use crate::bundle_calls::{create_bundle_encoder, execute_bundles, finish_bundle};
use crate::calling::{asking, making, recording};
use crate::calls::Call;
use crate::canvas_calls::{configure_canvas, create_canvas, current_texture, present};
use crate::labels::{label_if, made_in};
use crate::lists::list_at;
use crate::name::Name;
use crate::pass_calls::{
    bare, begin_compute_pass, dispatch, dispatch_indirect, end, set_bind_group, set_pipeline,
};
use crate::query_calls::{
    begin_occlusion_query, create_query_set, end_occlusion_query, resolve_query_set,
};
use crate::render_calls::{
    begin_render_pass, create_render_pipeline, draw, draw_indexed, draw_indexed_indirect,
    draw_indirect, set_blend_constant, set_index_buffer, set_scissor_rect, set_stencil_reference,
    set_vertex_buffer, set_viewport,
};
use crate::sampler_calls::create_sampler;
use crate::texture_calls::{
    copy_buffer_to_texture, copy_texture_to_buffer, copy_texture_to_texture, create_texture,
    create_view, write_texture,
};
use crate::values::{
    MOST_WHOLE, Refusal, check_keys, flag_or, name_at, reading, short_at, whole_at, whole_if,
    whole_or,
};
use crate::words::word_at;
use std::alloc::Global;
use wg_json::Value;
use wg_types::commands::CommandOf;
use wg_types::handles::BufferInfo;
use wg_types::replies::Filter;
use wg_types::requests::RequestOf;
use wg_types::words::Word;

/// Which faults an error scope catches, by its word (WebGPU, "GPUErrorFilter").
const FILTERS: [(&str, Filter); 3] = [
    ("validation", Filter::Validation),
    ("out-of-memory", Filter::OutOfMemory),
    ("internal", Filter::Internal),
];

#[tactic(auto, unfolding(crate::specs::Calls::create_buffer_of))]
fn create_buffer(alloc: Global, call: &Value<'_>) -> Result<Call, Refusal>
    ensures { Gives result (create_buffer_of (view call.now)) }
{
    reading!(call:
        need size = whole_at("size", MOST_WHOLE);
        need usage = short_at("usage");
        may mapped = flag_or("mapped", false);
        make made = made_in(alloc);
        => making(RequestOf::CreateBuffer { info: BufferInfo { size, usage, mapped } }, made))
}

#[tactic(auto, unfolding(crate::specs::Calls::create_encoder_of))]
fn create_encoder(alloc: Global, call: &Value<'_>) -> Result<Call, Refusal>
    ensures { Gives result (create_encoder_of (view call.now)) }
{
    reading!(call:
        make made = made_in(alloc);
        => making(RequestOf::CreateEncoder, made))
}

#[tactic(auto, unfolding(crate::specs::Calls::finish_of))]
fn finish(alloc: Global, call: &Value<'_>) -> Result<Call, Refusal>
    ensures { Gives result (finish_of (view call.now)) }
{
    reading!(call:
        need on = name_at(alloc, "on");
        make made = made_in(alloc);
        => making(RequestOf::Finish { encoder: on }, made))
}

#[tactic(auto, unfolding(crate::specs::Calls::submit_of))]
fn submit(alloc: Global, call: &Value<'_>) -> Result<Call, Refusal>
    ensures { Gives result (submit_of (view call.now)) }
{
    reading!(call:
        need buffers = list_at(alloc, "buffers");
        => asking(RequestOf::Submit { buffers }))
}

#[tactic(auto, unfolding(crate::specs::Calls::write_buffer_of))]
fn write_buffer(alloc: Global, call: &Value<'_>) -> Result<Call, Refusal>
    ensures { Gives result (write_buffer_of (view call.now)) }
{
    reading!(call:
        need buffer = name_at(alloc, "buffer");
        need offset = whole_at("offset", MOST_WHOLE);
        need size = whole_at("size", MOST_WHOLE);
        => asking(RequestOf::WriteBuffer { buffer, offset, size }))
}

#[tactic(auto, unfolding(crate::specs::Calls::destroy_of))]
fn destroy(alloc: Global, call: &Value<'_>) -> Result<Call, Refusal>
    ensures { Gives result (destroy_of (view call.now)) }
{
    reading!(call:
        need object = name_at(alloc, "object");
        => asking(RequestOf::Destroy { object }))
}

#[tactic(auto, unfolding(crate::specs::Calls::drop_of))]
fn drop_call(alloc: Global, call: &Value<'_>) -> Result<Call, Refusal>
    ensures { Gives result (drop_of (view call.now)) }
{
    reading!(call:
        need object = name_at(alloc, "object");
        => asking(RequestOf::Drop { object }))
}

#[tactic(auto, unfolding(crate::specs::Calls::complete_of))]
fn complete(call: &Value<'_>) -> Result<Call, Refusal>
    ensures { Gives result (complete_of (view call.now)) }
{
    reading!(call:
        need op = whole_at("op", MOST_WHOLE);
        => asking(RequestOf::Complete { op }))
}

#[tactic(auto, unfolding(crate::specs::Calls::push_error_scope_of))]
fn push_error_scope(call: &Value<'_>) -> Result<Call, Refusal>
    ensures { Gives result (push_error_scope_of (view call.now)) }
{
    reading!(call:
        need filter = word_at("filter", &FILTERS);
        => asking(RequestOf::PushErrorScope { filter }))
}

/// Reads a call of the device with no key but that of its word.
fn keyless(call: &Value<'_>, request: RequestOf<Name>) -> Result<Call, Refusal>
    ensures { Gives result (keyless_of request (view call.now)) }
{
    reading!(call: => asking(request))
}

#[tactic(auto, unfolding(crate::specs::Calls::pop_error_scope_of))]
fn pop_error_scope(call: &Value<'_>) -> Result<Call, Refusal>
    ensures { Gives result (pop_error_scope_of (view call.now)) }
{
    keyless(call, RequestOf::PopErrorScope)
}

#[tactic(auto, unfolding(crate::specs::Calls::work_done_of))]
fn work_done(call: &Value<'_>) -> Result<Call, Refusal>
    ensures { Gives result (work_done_of (view call.now)) }
{
    keyless(call, RequestOf::WorkDone)
}

#[tactic(auto, unfolding(crate::specs::Calls::lose_of))]
fn lose(call: &Value<'_>) -> Result<Call, Refusal>
    ensures { Gives result (lose_of (view call.now)) }
{
    keyless(call, RequestOf::Lose)
}

#[tactic(auto, unfolding(crate::specs::Calls::map_async_of))]
fn map_async(alloc: Global, call: &Value<'_>) -> Result<Call, Refusal>
    ensures { Gives result (map_async_of (view call.now)) }
{
    reading!(call:
        need buffer = name_at(alloc, "buffer");
        need mode = short_at("mode");
        may offset = whole_or("offset", MOST_WHOLE, 0);
        may size = whole_if("size", MOST_WHOLE);
        => asking(RequestOf::MapAsync { buffer, mode, offset, size }))
}

#[tactic(auto, unfolding(crate::specs::Calls::unmap_of))]
fn unmap(alloc: Global, call: &Value<'_>) -> Result<Call, Refusal>
    ensures { Gives result (unmap_of (view call.now)) }
{
    reading!(call:
        need buffer = name_at(alloc, "buffer");
        => asking(RequestOf::Unmap { buffer }))
}

#[tactic(auto, unfolding(crate::specs::Calls::copy_buffer_to_buffer_of))]
fn copy_buffer_to_buffer(alloc: Global, call: &Value<'_>) -> Result<Call, Refusal>
    ensures { Gives result (copy_buffer_to_buffer_of (view call.now)) }
{
    reading!(call:
        need on = name_at(alloc, "on");
        need source = name_at(alloc, "source");
        need source_offset = whole_at("sourceOffset", MOST_WHOLE);
        need target = name_at(alloc, "target");
        need target_offset = whole_at("targetOffset", MOST_WHOLE);
        need size = whole_at("size", MOST_WHOLE);
        => recording(on, CommandOf::CopyBufferToBuffer { source, source_offset, target, target_offset, size }))
}

#[tactic(auto, unfolding(crate::specs::Calls::clear_buffer_of))]
fn clear_buffer(alloc: Global, call: &Value<'_>) -> Result<Call, Refusal>
    ensures { Gives result (clear_buffer_of (view call.now)) }
{
    reading!(call:
        need on = name_at(alloc, "on");
        need buffer = name_at(alloc, "buffer");
        may offset = whole_or("offset", MOST_WHOLE, 0);
        may size = whole_if("size", MOST_WHOLE);
        => recording(on, CommandOf::ClearBuffer { buffer, offset, size }))
}

#[tactic(auto, unfolding(crate::specs::Calls::push_debug_group_of))]
fn push_debug_group(alloc: Global, call: &Value<'_>) -> Result<Call, Refusal>
    ensures { Gives result (push_debug_group_of (view call.now)) }
{
    reading!(call:
        need on = name_at(alloc, "on");
        may _label = label_if("label");
        => recording(on, CommandOf::PushDebugGroup))
}

#[tactic(auto, unfolding(crate::specs::Calls::pop_debug_group_of))]
fn pop_debug_group(alloc: Global, call: &Value<'_>) -> Result<Call, Refusal>
    ensures { Gives result (pop_debug_group_of (view call.now)) }
{
    bare(alloc, call, CommandOf::PopDebugGroup)
}

#[tactic(auto, unfolding(crate::specs::Calls::insert_debug_marker_of))]
fn insert_debug_marker(alloc: Global, call: &Value<'_>) -> Result<Call, Refusal>
    ensures { Gives result (insert_debug_marker_of (view call.now)) }
{
    reading!(call:
        need on = name_at(alloc, "on");
        may _label = label_if("label");
        => recording(on, CommandOf::InsertDebugMarker))
}

/// Reads a call that this word names.
fn call_as(alloc: Global, word: Word, call: &Value<'_>) -> Result<Call, Refusal>
    ensures { Gives result (call_as word (view call.now)) }
{
    match word {
        Word::CreateBuffer => create_buffer(alloc, call),
        Word::CreateTexture => create_texture(alloc, call),
        Word::CreateView => create_view(alloc, call),
        Word::CreateSampler => create_sampler(alloc, call),
        Word::CreateBindGroupLayout => create_bind_group_layout(alloc, call),
        Word::CreatePipelineLayout => create_pipeline_layout(alloc, call),
        Word::CreateBindGroup => create_bind_group(alloc, call),
        Word::CreateComputePipeline => create_compute_pipeline(alloc, call),
        Word::CreateRenderPipeline => create_render_pipeline(alloc, call),
        Word::GetBindGroupLayout => get_bind_group_layout(alloc, call),
        Word::CreateQuerySet => create_query_set(alloc, call),
        Word::CreateEncoder => create_encoder(alloc, call),
        Word::CreateBundleEncoder => create_bundle_encoder(alloc, call),
        Word::Finish => finish(alloc, call),
        Word::FinishBundle => finish_bundle(alloc, call),
        Word::Submit => submit(alloc, call),
        Word::WriteBuffer => write_buffer(alloc, call),
        Word::WriteTexture => write_texture(alloc, call),
        Word::Destroy => destroy(alloc, call),
        Word::Drop => drop_call(alloc, call),
        Word::Complete => complete(call),
        Word::PushErrorScope => push_error_scope(call),
        Word::PopErrorScope => pop_error_scope(call),
        Word::WorkDone => work_done(call),
        Word::Lose => lose(call),
        Word::MapAsync => map_async(alloc, call),
        Word::Unmap => unmap(alloc, call),
        Word::CopyBufferToBuffer => copy_buffer_to_buffer(alloc, call),
        Word::CopyBufferToTexture => copy_buffer_to_texture(alloc, call),
        Word::CopyTextureToBuffer => copy_texture_to_buffer(alloc, call),
        Word::CopyTextureToTexture => copy_texture_to_texture(alloc, call),
        Word::ClearBuffer => clear_buffer(alloc, call),
        Word::ResolveQuerySet => resolve_query_set(alloc, call),
        Word::PushDebugGroup => push_debug_group(alloc, call),
        Word::PopDebugGroup => pop_debug_group(alloc, call),
        Word::InsertDebugMarker => insert_debug_marker(alloc, call),
        Word::BeginComputePass => begin_compute_pass(alloc, call),
        Word::End => end(alloc, call),
        Word::SetPipeline => set_pipeline(alloc, call),
        Word::SetBindGroup => set_bind_group(alloc, call),
        Word::Dispatch => dispatch(alloc, call),
        Word::DispatchIndirect => dispatch_indirect(alloc, call),
        Word::BeginRenderPass => begin_render_pass(alloc, call),
        Word::SetVertexBuffer => set_vertex_buffer(alloc, call),
        Word::SetIndexBuffer => set_index_buffer(alloc, call),
        Word::SetViewport => set_viewport(alloc, call),
        Word::SetScissorRect => set_scissor_rect(alloc, call),
        Word::SetBlendConstant => set_blend_constant(alloc, call),
        Word::SetStencilReference => set_stencil_reference(alloc, call),
        Word::Draw => draw(alloc, call),
        Word::DrawIndexed => draw_indexed(alloc, call),
        Word::DrawIndirect => draw_indirect(alloc, call),
        Word::DrawIndexedIndirect => draw_indexed_indirect(alloc, call),
        Word::BeginOcclusionQuery => begin_occlusion_query(alloc, call),
        Word::EndOcclusionQuery => end_occlusion_query(alloc, call),
        Word::ExecuteBundles => execute_bundles(alloc, call),
        Word::CreateCanvas => create_canvas(alloc, call),
        Word::ConfigureCanvas => configure_canvas(alloc, call),
        Word::CurrentTexture => current_texture(alloc, call),
        Word::Present => present(alloc, call),
    }
}

/// The words of so many letters, or most of them: where one is left out it is found all the same, only later.
fn words_of(letters: usize) -> &'static [Word] {
    match letters {
        4 => &[Word::Draw, Word::Drop],
        6 => &[Word::Submit, Word::Finish],
        7 => &[Word::Destroy, Word::Present],
        8 => &[Word::Dispatch, Word::Complete, Word::MapAsync],
        11 => &[Word::SetPipeline, Word::WriteBuffer, Word::DrawIndexed],
        12 => &[Word::SetBindGroup, Word::CreateBuffer, Word::WriteTexture],
        13 => &[Word::CreateEncoder, Word::CreateTexture],
        15 => &[
            Word::SetVertexBuffer,
            Word::BeginRenderPass,
            Word::CreateBindGroup,
        ],
        16 => &[Word::BeginComputePass],
        18 => &[Word::CopyBufferToBuffer],
        _ => &[],
    }
}

fn word_among(words: &[Word], text: &str) -> Option<Word>
    ensures { result ≡ find (λ word. bytes_eq (word_text word) text.now) words.now }
{
    words.iter().copied().find(|word| word.as_str() == text)
}

/// The call that a text names.
fn word_named(text: &str) -> Option<Word>
    ensures { result ≡ word_of text.now }
{
    match word_among(words_of(text.len()), text) {
        Some(word) => Some(word),
        None => Word::named(text),
    }
}

/// Reads a call.
pub fn call_of(alloc: Global, call: &Value<'_>) -> Result<Call, Refusal>
    ensures { Gives result (call_of (view call.now)) }
{
    match call.get("do").and_then(Value::as_str).and_then(word_named) {
        Some(word) => call_as(alloc, word, call),
        None => Err(Refusal::Rule(6)),
    }
}
