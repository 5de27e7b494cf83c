//! The first unmet rule of each event.
ghost use Rattle.std.specs.Prelude.{◌≡◌, ◌&&◌, ◌+◌, ◌*◌, ◌^◌, ◌<◌, reverse, [], Some, IsNone, IfOk, IfSome, true, false};
ghost use Rattle.wg_fading.specs.Fading.{was_let_go};
ghost use Rattle.wg_state.specs.Gone.{any_gone, names_gone, uses_gone, AreDead};
ghost use Rattle.wg_state.specs.Recordings.{any_spent};
ghost use Rattle.std.specs.List.{list_any};
ghost use Rattle.wg_model.specs.Rules.{first_unmet};
ghost use Rattle.wg_core.specs.Plans.{use_rules, ending_rules, IsMapInRange};
ghost use Rattle.wg_encoder.specs.Uses.{is_sort, is_used_as};
ghost use Rattle.wg_state.specs.Uses.{uses_of};
ghost use Rattle.wg_history.specs.Objects.{made_info};
ghost use Rattle.wg_model.specs.Commands.{no_texture, query_bytes};
ghost use Rattle.wg_access.specs.Ranges.{IsInRange};
ghost use Rattle.wg_history.specs.Entries.{effects_of, submitted, written};
ghost use Rattle.wg_history.specs.Rules.{is_busy, map_async_rule, unmap_rule, create_view_rule, write_buffer_rule, write_texture_rule, destroy_rule, drop_rule, is_destroyed, finish_rule, finish_bundle_rule, kept_rules, has_finished, may_name, is_consumed, are_distinct, listed_rules, submit_rule};
ghost use Rattle.wg_history.specs.FirstRules.{first_rule, create_buffer_rule, create_texture_rule, create_query_set_rule, create_bundle_encoder_rule};
ghost use Rattle.wg_history.specs.Budget.{bytes_made};
ghost use Rattle.wg_model.specs.Memory.{texture_bytes};

use crate::{group_rules, uses};
use std::alloc::Global;
use std::collections::BTreeSet;
use wg_buffers::{check_create as check_buffer, check_map};
use wg_bundle::check_targets;
use wg_copy::{check_write_buffer, check_write_texture};
use wg_encoder::Recording;
use wg_formats::texture_bytes;
use wg_groups::check_sampler;
use wg_history::NoMemory;
use wg_history::events::Event;
use wg_queries::check_create as check_queries;
use wg_rules::{
    BYTES_ARE_WITHIN_BUDGET, CALL_IS_NOT_LATE, COMMAND_BUFFERS_ARE_DISTINCT,
    COMMAND_BUFFERS_ARE_NOT_CONSUMED, ENCODER_HAS_NOT_ENDED,
    EVERY_DEBUG_GROUP_OF_ENCODER_IS_CLOSED, EVERY_PASS_HAS_ENDED, MAPPED_BUFFER_IS_NOT_BUSY,
    OBJECT_IS_NOT_DROPPED, OBJECT_IS_OF_DEVICE, OBJECT_IS_VALID, SUBMITTED_BUFFERS_ARE_NOT_BUSY,
    SUBMITTED_OBJECTS_ARE_NOT_DESTROYED, USAGE_SCOPES_ARE_COMPATIBLE, WRITTEN_BUFFER_IS_NOT_BUSY,
    WRITTEN_TEXTURE_IS_NOT_DESTROYED,
};
use wg_state::State;
use wg_textures::{check_create as check_texture, check_view};
use wg_types::handles::{BufferInfo, Info, ObjRef, QueriesInfo};
use wg_types::render::TargetInfo;
use wg_types::steps::{Sort, Used};
use wg_types::textures::{DataLayout, TextureInfo, TextureSpot, ViewDesc};

/// The first unmet rule of a createBuffer (WebGPU, "Buffer Creation"): rule 13, where the budget has no
/// room for it, is the last.
#[tactic(auto, unfolding(wg_history::specs::FirstRules::create_buffer_rule))]
fn create_buffer(state: &State, info: &BufferInfo) -> Option<u16>
    ensures rule { result ≡ create_buffer_rule state.now.setup (reverse state.now.history) info.now }
    ensures bytes { IsNone result → info.now.size < 2 ^ 64 }
{
    if let Some(rule) = check_buffer(info, &state.setup().limits) {
        return Some(rule);
    }
    if !state.fits(info.size) {
        return Some(BYTES_ARE_WITHIN_BUDGET);
    }
    None
}

/// The first unmet rule of a createTexture (WebGPU, "Texture Creation"): rule 13, where the budget has no
/// room for it, is the last.
#[tactic(auto, unfolding(wg_history::specs::FirstRules::create_texture_rule))]
fn create_texture(state: &State, info: &TextureInfo) -> Option<u16>
    ensures rule { result ≡ create_texture_rule state.now.setup (reverse state.now.history) info.now }
    ensures bytes { IsNone result → texture_bytes info.now < 2 ^ 64 }
{
    if let Some(rule) = check_texture(info, &state.setup().limits) {
        return Some(rule);
    }
    let Some(bytes) = texture_bytes(info) else {
        return Some(BYTES_ARE_WITHIN_BUDGET);
    };
    if !state.fits(bytes) {
        return Some(BYTES_ARE_WITHIN_BUDGET);
    }
    None
}

/// The first unmet rule of a createQuerySet (WebGPU, "QuerySet Creation"): rule 13, where the budget has no
/// room for it, is the last.
#[tactic(auto, unfolding(wg_history::specs::FirstRules::create_query_set_rule))]
fn create_query_set(state: &State, info: &QueriesInfo) -> Option<u16>
    ensures rule { result ≡ create_query_set_rule state.now.setup (reverse state.now.history) info.now }
    ensures bytes { IsNone result → query_bytes * info.now.count < 2 ^ 64 }
{
    if let Some(rule) = check_queries(info, &state.setup().limits) {
        return Some(rule);
    }
    if !state.fits(8 * u64::from(info.count)) {
        return Some(BYTES_ARE_WITHIN_BUDGET);
    }
    None
}

/// The first unmet rule of a createView (WebGPU, "Texture View Creation").
#[tactic(auto, unfolding(wg_history::specs::Rules::create_view_rule))]
fn create_view(state: &State, texture: ObjRef, desc: &ViewDesc) -> Option<u16>
    requires here { was_let_go state.now.gone texture.number ≡ false }
    ensures { result ≡ create_view_rule state.now.setup (reverse state.now.history) texture desc.now }
{
    let Some(info) = wg_state::own_texture(state.setup(), state.book(), texture) else {
        return Some(OBJECT_IS_OF_DEVICE);
    };
    if state.is_dropped(texture.number) {
        return Some(OBJECT_IS_NOT_DROPPED);
    }
    if !state.book().is_valid(texture.number) {
        return Some(OBJECT_IS_VALID);
    }
    check_view(&info, desc)
}

/// The first unmet rule of a destroy (WebGPU, "Buffer Destruction", "Texture Destruction" and "Query Set
/// Destruction").
#[tactic(auto, unfolding(wg_history::specs::Rules::destroy_rule))]
fn destroy(state: &State, object: ObjRef) -> Option<u16>
    requires here { was_let_go state.now.gone object.number ≡ false }
    ensures { result ≡ destroy_rule state.now.setup (reverse state.now.history) object }
{
    if !wg_state::is_own_resource(state.setup(), state.book(), object) {
        return Some(OBJECT_IS_OF_DEVICE);
    }
    if state.is_dropped(object.number) {
        return Some(OBJECT_IS_NOT_DROPPED);
    }
    None
}

/// The first unmet rule of a drop (WebGPU, "Internal Objects").
#[tactic(auto, unfolding(wg_history::specs::Rules::drop_rule))]
fn drop_object(state: &State, object: ObjRef) -> Option<u16>
    requires here { was_let_go state.now.gone object.number ≡ false }
    ensures { result ≡ drop_rule state.now.setup (reverse state.now.history) object }
{
    if !wg_state::is_own_object(state.setup(), state.book(), object) {
        return Some(OBJECT_IS_OF_DEVICE);
    }
    if state.is_dropped(object.number) {
        return Some(OBJECT_IS_NOT_DROPPED);
    }
    None
}

/// The first unmet rule of a write (WebGPU, "writeBuffer").
#[tactic(auto, unfolding(wg_history::specs::Rules::write_buffer_rule))]
fn write_buffer(state: &State, buffer: ObjRef, offset: u64, size: u64) -> Option<u16>
    requires here { was_let_go state.now.gone buffer.number ≡ false }
    ensures rule { result ≡ write_buffer_rule state.now.setup (reverse state.now.history) buffer offset size }
    ensures fits { IsNone result → offset + size < 2 ^ 64 }
{
    let Some(info) = wg_state::own_buffer(state.setup(), state.book(), buffer) else {
        return Some(OBJECT_IS_OF_DEVICE);
    };
    if state.is_dropped(buffer.number) {
        return Some(OBJECT_IS_NOT_DROPPED);
    }
    if !state.book().is_valid(buffer.number) {
        return Some(OBJECT_IS_VALID);
    }
    if let Some(rule) = check_write_buffer(&info, offset, size) {
        return Some(rule);
    }
    if state.is_busy(buffer.number) {
        return Some(WRITTEN_BUFFER_IS_NOT_BUSY);
    }
    None
}

/// The first unmet rule of a map (WebGPU, "mapAsync").
#[tactic(auto, unfolding(wg_history::specs::Rules::map_async_rule))]
fn map_async(state: &State, buffer: ObjRef, mode: u32, offset: u64, size: u64) -> Option<u16>
    requires here { was_let_go state.now.gone buffer.number ≡ false }
    ensures rule { result ≡ map_async_rule state.now.setup (reverse state.now.history) buffer mode offset size }
    ensures fits { IsNone result → offset + size < 2 ^ 64 }
{
    let Some(info) = wg_state::own_buffer(state.setup(), state.book(), buffer) else {
        return Some(OBJECT_IS_OF_DEVICE);
    };
    if state.is_dropped(buffer.number) {
        return Some(OBJECT_IS_NOT_DROPPED);
    }
    if !state.book().is_valid(buffer.number) {
        return Some(OBJECT_IS_VALID);
    }
    if let Some(rule) = check_map(&info, mode, offset, size) {
        return Some(rule);
    }
    if state.is_busy(buffer.number) {
        return Some(MAPPED_BUFFER_IS_NOT_BUSY);
    }
    None
}

/// The first unmet rule of an unmap (WebGPU, "unmap").
#[tactic(auto, unfolding(wg_history::specs::Rules::unmap_rule))]
fn unmap(state: &State, buffer: ObjRef) -> Option<u16>
    requires here { was_let_go state.now.gone buffer.number ≡ false }
    ensures { result ≡ unmap_rule state.now.setup (reverse state.now.history) buffer }
{
    if wg_state::own_buffer(state.setup(), state.book(), buffer).is_none() {
        return Some(OBJECT_IS_OF_DEVICE);
    }
    if state.is_dropped(buffer.number) {
        return Some(OBJECT_IS_NOT_DROPPED);
    }
    None
}

/// The first unmet rule of a write of texels (WebGPU, "writeTexture").
#[tactic(auto, unfolding(wg_history::specs::Rules::write_texture_rule))]
fn write_texture(
    state: &State,
    texture: ObjRef,
    spot: &TextureSpot,
    layout: &DataLayout,
    size: [u32; 3],
    data_size: u64,
) -> Option<u16>
    requires here { was_let_go state.now.gone texture.number ≡ false }
    ensures { result ≡ write_texture_rule state.now.setup (reverse state.now.history) texture spot.now layout.now size data_size }
{
    let Some(info) = wg_state::own_texture(state.setup(), state.book(), texture) else {
        return Some(OBJECT_IS_OF_DEVICE);
    };
    if state.is_dropped(texture.number) {
        return Some(OBJECT_IS_NOT_DROPPED);
    }
    if !state.book().is_valid(texture.number) {
        return Some(OBJECT_IS_VALID);
    }
    if let Some(rule) = check_write_texture(&info, spot, layout, size, data_size) {
        return Some(rule);
    }
    if state.is_destroyed(texture.number) {
        return Some(WRITTEN_TEXTURE_IS_NOT_DESTROYED);
    }
    None
}

/// The first unmet rule of a createBundleEncoder (WebGPU, "createRenderBundleEncoder").
#[tactic(auto, unfolding(wg_history::specs::FirstRules::create_bundle_encoder_rule))]
fn create_bundle_encoder(state: &State, targets: &TargetInfo) -> Option<u16>
    ensures { result ≡ create_bundle_encoder_rule state.now.setup targets.now }
{
    check_targets(targets, &state.setup().limits)
}

/// The first unmet rule of those on the encoder that a finish or a finishBundle ends, once that is one of this device.
fn check_ending(state: &State, encoder: u64) -> Option<u16>
    requires here { was_let_go state.now.gone encoder ≡ false }
    ensures { result ≡ first_unmet (ending_rules state.now.setup (reverse state.now.history) encoder) }
{
    if state.is_dropped(encoder) {
        return Some(OBJECT_IS_NOT_DROPPED);
    }
    if !state.book().is_valid(encoder) {
        return Some(OBJECT_IS_VALID);
    }
    if state.has_finished(encoder) {
        return Some(ENCODER_HAS_NOT_ENDED);
    }
    None
}

/// The first unmet rule on what an encoder of this number has recorded, be it a bundle encoder.
fn check_kept(
    alloc: Global,
    state: &State,
    encoder: u64,
    recording: &Recording,
) -> Result<Option<u16>, NoMemory>
    requires barred { (n : _) → was_let_go state.now.gone n ≡ true → may_name state.now.setup (reverse state.now.history) encoder n ≡ false }
    ensures { IfOk result (λ rule. rule ≡ first_unmet (kept_rules state.now.setup (reverse state.now.history) encoder recording.now)) }
{
    if recording.open_group() {
        return Ok(Some(EVERY_DEBUG_GROUP_OF_ENCODER_IS_CLOSED));
    }
    if uses::any_barred(state, encoder, recording.commands()) {
        return Ok(Some(OBJECT_IS_NOT_DROPPED));
    }
    if recording.scopes(alloc)?.is_some() {
        return Ok(Some(USAGE_SCOPES_ARE_COMPATIBLE));
    }
    Ok(None)
}

/// The first unmet rule of a finish (WebGPU, "finish").
#[tactic(auto, unfolding(wg_history::specs::Rules::finish_rule), using(crate::proofs::Forgotten::barred_gone))]
fn finish(
    alloc: Global,
    state: &State,
    encoder: ObjRef,
    recording: &Recording,
) -> Result<Option<u16>, NoMemory>
    requires dead { AreDead state.now.setup (reverse state.now.history) state.now.gone }
    requires here { was_let_go state.now.gone encoder.number ≡ false }
    ensures { IfOk result (λ rule. rule ≡ finish_rule state.now.setup (reverse state.now.history) encoder recording.now) }
{
    if !wg_state::is_own_encoder(state.setup(), state.book(), encoder) {
        return Ok(Some(OBJECT_IS_OF_DEVICE));
    }
    if let Some(rule) = check_ending(state, encoder.number) {
        return Ok(Some(rule));
    }
    if let Some(rule) = recording.verdict() {
        return Ok(Some(rule));
    }
    if recording.open_pass() {
        return Ok(Some(EVERY_PASS_HAS_ENDED));
    }
    check_kept(alloc, state, encoder.number, recording)
}

/// The first unmet rule of a finishBundle (WebGPU, "finish" of a render bundle encoder).
#[tactic(auto, unfolding(wg_history::specs::Rules::finish_bundle_rule), using(crate::proofs::Forgotten::barred_gone))]
fn finish_bundle(
    alloc: Global,
    state: &State,
    encoder: ObjRef,
    recording: &Recording,
) -> Result<Option<u16>, NoMemory>
    requires dead { AreDead state.now.setup (reverse state.now.history) state.now.gone }
    requires here { was_let_go state.now.gone encoder.number ≡ false }
    ensures { IfOk result (λ rule. rule ≡ finish_bundle_rule state.now.setup (reverse state.now.history) encoder recording.now) }
{
    if !wg_state::is_own_bundle_encoder(state.setup(), state.book(), encoder) {
        return Ok(Some(OBJECT_IS_OF_DEVICE));
    }
    if let Some(rule) = check_ending(state, encoder.number) {
        return Ok(Some(rule));
    }
    if let Some(rule) = recording.verdict() {
        return Ok(Some(rule));
    }
    check_kept(alloc, state, encoder.number, recording)
}

/// Whether some command buffer of a list was consumed.
fn any_consumed(state: &State, buffers: &[ObjRef]) -> bool
    requires { any_gone state.now.gone buffers.now ≡ false }
    ensures { result ≡ list_any (λ buffer. is_consumed state.now.setup (reverse state.now.history) buffer.number) buffers.now }
{
    for buffer in buffers {
        if state.is_consumed(buffer.number) {
            return true;
        }
    }
    false
}

/// Whether a list names no object twice.
#[tactic(auto, using(crate::proofs::Distinct::fresh_none, crate::proofs::Distinct::fresh_met, crate::proofs::Distinct::fresh_next))]
fn are_distinct(alloc: Global, buffers: &[ObjRef]) -> Result<bool, NoMemory>
    ensures { IfOk result (λ distinct. distinct ≡ are_distinct buffers.now) }
{
    let mut seen = BTreeSet::new(alloc);
    for buffer in buffers {
        if !seen.insert(buffer.number)? {
            return Ok(false);
        }
    }
    Ok(true)
}

/// Whether two sorts are the same.
fn is_sort(a: Sort, b: Sort) -> bool
    ensures { result ≡ is_sort a b }
{
    match a {
        Sort::Buffer => matches!(b, Sort::Buffer),
        Sort::Texture => matches!(b, Sort::Texture),
        Sort::Queries => matches!(b, Sort::Queries),
    }
}

/// Whether a buffer is used that is mapped, pending or destroyed.
fn any_busy(state: &State, uses: &[Used]) -> bool
    requires { uses_gone state.now.gone uses.now ≡ false }
    ensures { result ≡ list_any (is_used_as Sort.Buffer (is_busy state.now.setup (reverse state.now.history))) uses.now }
{
    for used in uses {
        if is_sort(Sort::Buffer, used.sort) && state.is_busy(used.number) {
            return true;
        }
    }
    false
}

/// Whether a resource of a sort is used that is destroyed.
fn any_destroyed(state: &State, sort: Sort, uses: &[Used]) -> bool
    requires { uses_gone state.now.gone uses.now ≡ false }
    ensures { result ≡ list_any (is_used_as sort (is_destroyed state.now.setup (reverse state.now.history))) uses.now }
{
    for used in uses {
        if is_sort(sort, used.sort) && state.is_destroyed(used.number) {
            return true;
        }
    }
    false
}

/// The first unmet rule on the command buffers of a submit, one after another.
fn check_listed(state: &State, buffers: &[ObjRef]) -> Option<u16>
    requires { any_gone state.now.gone buffers.now ≡ false }
    ensures { result ≡ first_unmet (listed_rules state.now.setup (reverse state.now.history) buffers.now) }
{
    for buffer in buffers {
        if !wg_state::is_own_command_buffer(state.setup(), state.book(), *buffer) {
            return Some(OBJECT_IS_OF_DEVICE);
        }
        if state.is_dropped(buffer.number) {
            return Some(OBJECT_IS_NOT_DROPPED);
        }
        if !state.book().is_valid(buffer.number) {
            return Some(OBJECT_IS_VALID);
        }
    }
    None
}

/// The first unmet rule of an event, and what its command buffers use, if it submits some.
#[derive(Drop)]
pub struct Ruled {
    pub rule: Option<u16>,
    pub uses: Vec<Used>,
}

/// An event of which no command buffer counts: it has none, or was refused before what they use was known.
fn without_uses(alloc: Global, rule: Option<u16>) -> Ruled
    ensures rule { result.rule ≡ rule }
    ensures uses { result.uses.items ≡ [] }
{
    Ruled {
        rule,
        uses: Vec::new(alloc),
    }
}

/// The first unmet rule on the resources that a submit uses.
fn check_uses(state: &State, uses: &[Used]) -> Option<u16>
    requires { uses_gone state.now.gone uses.now ≡ false }
    ensures { result ≡ first_unmet (use_rules state.now.setup (reverse state.now.history) uses.now) }
{
    if any_busy(state, uses) {
        return Some(SUBMITTED_BUFFERS_ARE_NOT_BUSY);
    }
    if any_destroyed(state, Sort::Texture, uses) || any_destroyed(state, Sort::Queries, uses) {
        return Some(SUBMITTED_OBJECTS_ARE_NOT_DESTROYED);
    }
    None
}

/// The first unmet rule of a submit (WebGPU, "submit"), with what its command buffers use.
#[tactic(auto, unfolding(wg_history::specs::Rules::submit_rule), using(wg_model::proofs::Unmet::first_unmet_joined, crate::proofs::Submitting::submit_found, crate::proofs::Submitting::unspent, crate::proofs::Forgotten::uses_kept))]
fn submit(alloc: Global, state: &State, buffers: &[ObjRef]) -> Result<Ruled, NoMemory>
    requires dead { AreDead state.now.setup (reverse state.now.history) state.now.gone }
    requires here { any_gone state.now.gone buffers.now ≡ false }
    ensures rule { IfOk result (λ ruled. ruled.rule ≡ submit_rule state.now.setup (reverse state.now.history) buffers.now) }
    ensures uses { IfOk result (λ ruled. IsNone ruled.rule → ruled.uses.items ≡ uses_of (reverse state.now.history) buffers.now) }
    ensures unspent { IfOk result (λ ruled. IsNone ruled.rule → any_spent state.now.setup (reverse state.now.history) buffers.now ≡ false) }
    ensures used_here { IfOk result (λ ruled. uses_gone state.now.gone ruled.uses.items ≡ false) }
{
    if let Some(rule) = check_listed(state, buffers) {
        return Ok(without_uses(alloc, Some(rule)));
    }
    if any_consumed(state, buffers) {
        return Ok(without_uses(alloc, Some(COMMAND_BUFFERS_ARE_NOT_CONSUMED)));
    }
    if !are_distinct(alloc, buffers)? {
        return Ok(without_uses(alloc, Some(COMMAND_BUFFERS_ARE_DISTINCT)));
    }
    let uses = state.uses_of(alloc, buffers)?;
    let rule = check_uses(state, uses.as_slice());
    Ok(Ruled { rule, uses })
}

/// The first unmet rule of an event that makes this, which one that meets all its rules has not. A recording call that
/// came after the end of its encoder or pass always has rule 14.
pub fn first_rule(
    alloc: Global,
    state: &State,
    event: &Event,
    made: &Option<Info>,
) -> Result<Ruled, NoMemory>
    requires names { names_gone state.now.gone event.now ≡ false }
    requires dead { AreDead state.now.setup (reverse state.now.history) state.now.gone }
    requires made { made.now ≡ made_info (reverse state.now.history) event.now }
    ensures used_here { IfOk result (λ ruled. uses_gone state.now.gone ruled.uses.items ≡ false) }
    ensures rule { IfOk result (λ ruled. ruled.rule ≡ first_rule state.now.setup (reverse state.now.history) event.now) }
    ensures uses { IfOk result (λ ruled. IsNone ruled.rule → ruled.uses.items ≡ uses_of (reverse state.now.history) (submitted event.now)) }
    ensures unspent { IfOk result (λ ruled. IsNone ruled.rule → any_spent state.now.setup (reverse state.now.history) (submitted event.now) ≡ false) }
    ensures range { IfOk result (λ ruled. IsNone ruled.rule → IfSome (written (λ _. no_texture) event.now) IsInRange) }
    ensures bytes { IfOk result (λ ruled. IsNone ruled.rule → bytes_made event.now < 2 ^ 64) }
    ensures map_range { IfOk result (λ ruled. IsNone ruled.rule → IsMapInRange (effects_of event.now).form) }
{
    let rule = match event {
        Event::CreateBuffer { info } => create_buffer(state, info),
        Event::CreateTexture { info } => create_texture(state, info),
        Event::CreateView { texture, desc } => create_view(state, *texture, desc),
        Event::CreateSampler { desc } => check_sampler(desc),
        Event::CreateBindGroupLayout { entries } => {
            group_rules::create_bind_group_layout(state, entries.get().as_slice())
        }
        Event::CreatePipelineLayout { layouts } => {
            group_rules::create_pipeline_layout(state, layouts.as_slice(), made)
        }
        Event::CreateBindGroup { layout, entries } => {
            group_rules::create_bind_group(state, *layout, entries.as_slice(), made)
        }
        Event::CreateComputePipeline { layout, iface } => {
            group_rules::create_compute_pipeline(alloc, state, *layout, iface, made)?
        }
        Event::CreateRenderPipeline { layout, desc } => {
            group_rules::create_render_pipeline(alloc, state, *layout, desc, made)?
        }
        Event::GetBindGroupLayout { pipeline, index } => {
            group_rules::get_bind_group_layout(state, *pipeline, *index)
        }
        Event::CreateQuerySet { info } => create_query_set(state, info),
        Event::CreateBundleEncoder { targets } => create_bundle_encoder(state, targets.get()),
        Event::Finish { encoder, recording } => finish(alloc, state, *encoder, recording)?,
        Event::FinishBundle { encoder, recording } => {
            finish_bundle(alloc, state, *encoder, recording)?
        }
        Event::Late { .. } => Some(CALL_IS_NOT_LATE),
        Event::Submit { buffers } => return submit(alloc, state, buffers.as_slice()),
        Event::WriteBuffer {
            buffer,
            offset,
            size,
        } => write_buffer(state, *buffer, *offset, *size),
        Event::WriteTexture {
            texture,
            spot,
            layout,
            size,
            data_size,
        } => write_texture(state, *texture, spot, layout, *size, *data_size),
        Event::Destroy { object } => destroy(state, *object),
        Event::Drop { object } => drop_object(state, *object),
        Event::MapAsync {
            buffer,
            mode,
            offset,
            size,
        } => map_async(state, *buffer, *mode, *offset, *size),
        Event::Unmap { buffer } => unmap(state, *buffer),
        Event::CreateEncoder
        | Event::Complete { .. }
        | Event::PushErrorScope { .. }
        | Event::PopErrorScope
        | Event::Lose
        | Event::WorkDone => None,
    };
    Ok(without_uses(alloc, rule))
}
