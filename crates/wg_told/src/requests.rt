//! Which calls the arguments of the header stand for, over the numbers of objects. Each answers none where a
//! value is out of its range, so that the arguments stand for no call.
ghost use Rattle.std.specs.Prelude.{◌≡◌, IfOk, map};
ghost use Rattle.wg_types.specs.declared.requests.RequestOf.TheVariants as request;
ghost use Rattle.wg_told.specs.Asked as asked;
ghost use Rattle.wg_told.specs.Tables.{wide_of};

use crate::fixed::{Targets, depth_of, primitive_of, sampler_of};
use crate::flats::{
    FlatAttribute, FlatBuffer, FlatBundle, FlatGroupEntry, FlatIfaceEntry, FlatLayoutEntry,
    FlatRender, FlatSampler, FlatTarget, FlatTexture, FlatTextureWrite, FlatVertexBuffer, FlatView,
};
use crate::meaning::{
    ComputeUses, Formats, GroupEntries, LayoutEntries, RenderUses, buffer_of, every, extent_of,
    layout_of, spot_of, texture_of, view_of,
};
use crate::tables::{FILTERS, FORMATS, SAMPLER_KINDS, flag_of, maybe_nth, nth, wide_of};
use crate::vertices::vertex_buffers_of;
use std::alloc::Global;
use wg_types::NoMemory;
use wg_types::groups::Interface;
use wg_types::items::Items;
use wg_types::render::{RenderDesc, TargetInfo};
use wg_types::requests::RequestOf;
use wg_types::samplers::SamplerDesc;
use wg_types::shared::Shared;

pub fn create_buffer(buffer: &FlatBuffer) -> Option<RequestOf<u64>>
    ensures { result ≡ asked.create_buffer buffer.now }
{
    let info = buffer_of(buffer)?;
    Some(RequestOf::CreateBuffer { info })
}

pub fn create_texture(texture: &FlatTexture) -> Option<RequestOf<u64>>
    ensures { result ≡ asked.create_texture texture.now }
{
    let info = texture_of(texture)?;
    Some(RequestOf::CreateTexture { info })
}

pub fn create_view(texture: u64, view: &FlatView) -> Option<RequestOf<u64>>
    ensures { result ≡ asked.create_view texture view.now }
{
    let asked = view_of(view)?;
    Some(RequestOf::CreateView { texture, asked })
}

pub fn create_sampler(kind: u32) -> Option<RequestOf<u64>>
    ensures { result ≡ asked.create_sampler kind }
{
    let kind = nth(&SAMPLER_KINDS, kind)?;
    Some(RequestOf::CreateSampler {
        desc: SamplerDesc::Kind(kind),
    })
}

pub fn create_described_sampler(sampler: &FlatSampler) -> Option<RequestOf<u64>>
    ensures { result ≡ asked.create_described_sampler sampler.now }
{
    let fields = sampler_of(sampler)?;
    Some(RequestOf::CreateSampler {
        desc: SamplerDesc::Full(fields),
    })
}

pub fn create_bind_group_layout(
    alloc: Global,
    entries: &[FlatLayoutEntry],
) -> Result<Option<RequestOf<u64>>, NoMemory>
    ensures { IfOk result (λ made. made ≡ asked.create_bind_group_layout entries.now) }
{
    let Some(entries) = every(alloc, &LayoutEntries, entries)? else {
        return Ok(None);
    };
    let entries = Shared::new(alloc, entries)?;
    Ok(Some(RequestOf::CreateBindGroupLayout { entries }))
}

/// The objects of a list, by number.
pub fn objects(alloc: Global, numbers: &[u64]) -> Result<Items<u64>, NoMemory>
    ensures { IfOk result (λ made. made ≡ numbers.now) }
{
    Ok(Items::from_vec(numbers.to_vec(alloc)?))
}

/// The objects of a list, by number, of which each may be left out.
fn maybe_objects(alloc: Global, numbers: &[u64]) -> Result<Items<Option<u64>>, NoMemory>
    ensures { IfOk result (λ made. made ≡ map wide_of numbers.now) }
{
    let mut found = Items::new(alloc);
    for number in numbers {
        found.push(wide_of(*number))?;
    }
    Ok(found)
}

pub fn create_pipeline_layout(alloc: Global, layouts: &[u64]) -> Result<RequestOf<u64>, NoMemory>
    ensures { IfOk result (λ made. made ≡ request.CreatePipelineLayout (map wide_of layouts.now)) }
{
    Ok(RequestOf::CreatePipelineLayout {
        layouts: maybe_objects(alloc, layouts)?,
    })
}

pub fn create_bind_group(
    alloc: Global,
    layout: u64,
    entries: &[FlatGroupEntry],
) -> Result<Option<RequestOf<u64>>, NoMemory>
    ensures { IfOk result (λ made. made ≡ asked.create_bind_group layout entries.now) }
{
    let Some(entries) = every(alloc, &GroupEntries, entries)? else {
        return Ok(None);
    };
    Ok(Some(RequestOf::CreateBindGroup { layout, entries }))
}

pub fn create_compute_pipeline(
    alloc: Global,
    layout: u64,
    iface: &[FlatIfaceEntry],
) -> Result<Option<RequestOf<u64>>, NoMemory>
    ensures { IfOk result (λ made. made ≡ asked.create_compute_pipeline layout iface.now) }
{
    let Some(entries) = every(alloc, &ComputeUses, iface)? else {
        return Ok(None);
    };
    let iface = Shared::new(alloc, Interface { entries })?;
    Ok(Some(RequestOf::CreateComputePipeline {
        layout: wide_of(layout),
        iface,
    }))
}

pub fn create_render_pipeline(
    alloc: Global,
    render: &FlatRender,
    iface: &[FlatIfaceEntry],
    buffers: &[FlatVertexBuffer],
    attributes: &[FlatAttribute],
    targets: &[FlatTarget],
) -> Result<Option<RequestOf<u64>>, NoMemory>
    ensures { IfOk result (λ made. made ≡ asked.create_render_pipeline render.now iface.now buffers.now attributes.now targets.now) }
{
    let Some(primitive) = primitive_of(render) else {
        return Ok(None);
    };
    let Some(depth) = depth_of(render) else {
        return Ok(None);
    };
    let Some(alpha_to_coverage) = flag_of(render.alpha_to_coverage) else {
        return Ok(None);
    };
    let Some(iface) = every(alloc, &RenderUses, iface)? else {
        return Ok(None);
    };
    let Some(buffers) = vertex_buffers_of(alloc, buffers, attributes)? else {
        return Ok(None);
    };
    let Some(targets) = every(alloc, &Targets, targets)? else {
        return Ok(None);
    };
    let desc = RenderDesc {
        iface,
        buffers,
        targets,
        primitive,
        depth,
        samples: render.samples,
        alpha_to_coverage,
    };
    let desc = Shared::new(alloc, desc)?;
    Ok(Some(RequestOf::CreateRenderPipeline {
        layout: wide_of(render.layout),
        desc,
    }))
}

pub fn create_bundle_encoder(
    alloc: Global,
    bundle: &FlatBundle,
    colors: &[u32],
) -> Result<Option<RequestOf<u64>>, NoMemory>
    ensures { IfOk result (λ made. made ≡ asked.create_bundle_encoder bundle.now colors.now) }
{
    let Some(depth) = maybe_nth(&FORMATS, bundle.depth_format) else {
        return Ok(None);
    };
    let Some(depth_read_only) = flag_of(bundle.depth_read_only) else {
        return Ok(None);
    };
    let Some(stencil_read_only) = flag_of(bundle.stencil_read_only) else {
        return Ok(None);
    };
    let Some(colors) = every(alloc, &Formats, colors)? else {
        return Ok(None);
    };
    let targets = TargetInfo {
        colors,
        depth,
        samples: bundle.samples,
        depth_read_only,
        stencil_read_only,
    };
    let targets = Shared::new(alloc, targets)?;
    Ok(Some(RequestOf::CreateBundleEncoder { targets }))
}

pub fn submit(alloc: Global, buffers: &[u64]) -> Result<RequestOf<u64>, NoMemory>
    ensures { IfOk result (λ made. made ≡ request.Submit buffers.now) }
{
    Ok(RequestOf::Submit {
        buffers: objects(alloc, buffers)?,
    })
}

pub fn write_texture(write: &FlatTextureWrite) -> Option<RequestOf<u64>>
    ensures { result ≡ asked.write_texture write.now }
{
    let layout = layout_of(&write.layout)?;
    let spot = spot_of(&write.spot)?;
    Some(RequestOf::WriteTexture {
        texture: write.spot.texture,
        spot,
        layout,
        size: extent_of(write.size),
        data_size: write.data_size,
    })
}

pub fn push_error_scope(filter: u32) -> Option<RequestOf<u64>>
    ensures { result ≡ asked.push_error_scope filter }
{
    let filter = nth(&FILTERS, filter)?;
    Some(RequestOf::PushErrorScope { filter })
}
