//! What flat samplers, and the fixed function of flat render pipelines, stand for.
ghost use Rattle.std.specs.Prelude.{◌≡◌};
ghost use Rattle.wg_told.specs.Fixed.{sampler_of, component_of, blend_with, blend_of, target_with, target_of, face_of, faces_of, stencil_of, depth_with, depth_of, primitive_of};

use crate::flats::{FlatBlend, FlatFace, FlatRender, FlatSampler, FlatTarget};
use crate::meaning::Reads;
use crate::tables::{
    BLEND_FACTORS, BLEND_OPERATIONS, COMPARES, CULL_MODES, FILTER_MODES, FORMATS, INDEX_FORMATS,
    STENCIL_OPERATIONS, TOPOLOGIES, flag_of, maybe_flag_of, maybe_nth, nth_or,
};
use wg_types::fixed::{
    BlendComponent, BlendFactor, BlendOperation, BlendState, CullMode, DepthState, PrimitiveState,
    StencilFace, StencilOperation, StencilState, Target, Topology,
};
use wg_types::formats::Format;
use wg_types::samplers::{Compare, FilterMode, SamplerFields};

pub fn sampler_of(flat: &FlatSampler) -> Option<SamplerFields>
    ensures { result ≡ sampler_of flat.now }
{
    let mag_filter = nth_or(&FILTER_MODES, FilterMode::Nearest, flat.mag_filter)?;
    let min_filter = nth_or(&FILTER_MODES, FilterMode::Nearest, flat.min_filter)?;
    let mipmap_filter = nth_or(&FILTER_MODES, FilterMode::Nearest, flat.mipmap_filter)?;
    let compare = maybe_nth(&COMPARES, flat.compare)?;
    Some(SamplerFields {
        mag_filter,
        min_filter,
        mipmap_filter,
        compare,
        lod_min: flat.lod_min,
        lod_max: flat.lod_max,
        max_anisotropy: flat.max_anisotropy,
    })
}

fn component_of(flat: FlatBlend) -> Option<BlendComponent>
    ensures { result ≡ component_of flat }
{
    let operation = nth_or(&BLEND_OPERATIONS, BlendOperation::Add, flat.operation)?;
    let src_factor = nth_or(&BLEND_FACTORS, BlendFactor::One, flat.src_factor)?;
    let dst_factor = nth_or(&BLEND_FACTORS, BlendFactor::Zero, flat.dst_factor)?;
    Some(BlendComponent {
        operation,
        src_factor,
        dst_factor,
    })
}

fn blend_with(flat: &FlatTarget) -> Option<Option<BlendState>>
    ensures { result ≡ blend_with flat.now }
{
    let color = component_of(flat.color)?;
    let alpha = component_of(flat.alpha)?;
    Some(Some(BlendState { color, alpha }))
}

fn blend_of(flat: &FlatTarget) -> Option<Option<BlendState>>
    ensures { result ≡ blend_of flat.now }
{
    if flag_of(flat.blends)? {
        return blend_with(flat);
    }
    Some(None)
}

fn target_with(flat: &FlatTarget, format: Format) -> Option<Option<Target>>
    ensures { result ≡ target_with flat.now format }
{
    let blend = blend_of(flat)?;
    Some(Some(Target {
        format,
        blend,
        write_mask: flat.write_mask,
    }))
}

/// Reads color targets that may be left out.
#[derive(Drop)]
pub struct Targets;

impl Reads<FlatTarget, Option<Target>> for Targets {
    ghost reads = { λ _. target_of };

    fn read(&self, flat: &FlatTarget) -> Option<Option<Target>> {
        match maybe_nth(&FORMATS, flat.format)? {
            Some(format) => target_with(flat, format),
            None => Some(None),
        }
    }
}

fn face_of(flat: FlatFace) -> Option<StencilFace>
    ensures { result ≡ face_of flat }
{
    let compare = nth_or(&COMPARES, Compare::Always, flat.compare)?;
    let fail_op = nth_or(&STENCIL_OPERATIONS, StencilOperation::Keep, flat.fail_op)?;
    let depth_fail_op = nth_or(
        &STENCIL_OPERATIONS,
        StencilOperation::Keep,
        flat.depth_fail_op,
    )?;
    let pass_op = nth_or(&STENCIL_OPERATIONS, StencilOperation::Keep, flat.pass_op)?;
    Some(StencilFace {
        compare,
        fail_op,
        depth_fail_op,
        pass_op,
    })
}

fn faces_of(flat: &FlatRender) -> Option<StencilState>
    ensures { result ≡ faces_of flat.now }
{
    let front = face_of(flat.stencil_front)?;
    let back = face_of(flat.stencil_back)?;
    Some(StencilState::Faces {
        front,
        back,
        write_mask: flat.stencil_write_mask,
    })
}

fn stencil_of(flat: &FlatRender) -> Option<StencilState>
    ensures { result ≡ stencil_of flat.now }
{
    if flag_of(flat.stencil_write)? {
        return Some(StencilState::Written(true));
    }
    faces_of(flat)
}

fn depth_with(flat: &FlatRender, format: Format) -> Option<Option<DepthState>>
    ensures { result ≡ depth_with flat.now format }
{
    let depth_write = maybe_flag_of(flat.depth_write)?;
    let depth_compare = maybe_nth(&COMPARES, flat.depth_compare)?;
    let stencil = stencil_of(flat)?;
    let bias = flag_of(flat.biased)?;
    Some(Some(DepthState {
        format,
        depth_write,
        depth_compare,
        stencil,
        bias,
    }))
}

/// What a render pipeline does with depth and stencil, which may be left out.
pub fn depth_of(flat: &FlatRender) -> Option<Option<DepthState>>
    ensures { result ≡ depth_of flat.now }
{
    match maybe_nth(&FORMATS, flat.depth_format)? {
        Some(format) => depth_with(flat, format),
        None => Some(None),
    }
}

/// What the vertices of a render pipeline make.
pub fn primitive_of(flat: &FlatRender) -> Option<PrimitiveState>
    ensures { result ≡ primitive_of flat.now }
{
    let topology = nth_or(&TOPOLOGIES, Topology::TriangleList, flat.topology)?;
    let strip_index_format = maybe_nth(&INDEX_FORMATS, flat.strip_index_format)?;
    let cull_mode = nth_or(&CULL_MODES, CullMode::None, flat.cull_mode)?;
    Some(PrimitiveState {
        topology,
        strip_index_format,
        cull_mode,
    })
}
