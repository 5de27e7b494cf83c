//! Reads what a createRenderPipeline says of fixed function: its targets and how they are blended, what it does
//! with depth and stencil, what its vertices make, and its samples.
ghost use Rattle.std.specs.Prelude.{◌≡◌};
ghost use Rattle.serde_json.specs.Find.{get};
ghost use Rattle.wg_json.specs.View.{view};
ghost use Rattle.wg_script.specs.Lists.{item_if};
ghost use Rattle.wg_script.specs.Values.{value_or, value_at};
ghost use Rattle.wg_script.specs.FixedFunction.{blend_component_of, blend_of, plain_target, described_target_of, target_of, plain_face, face_of, written_keys, faces_keys, written_depth_of, faced_depth_of, depth_state_of, plain_primitive, primitive_of, fixed_keys};

use crate::fixed_words::{
    BLEND_FACTORS, BLEND_OPERATIONS, CULL_MODES, DEPTH_COMPARES, FRONT_FACES, STENCIL_OPERATIONS,
    TOPOLOGIES,
};
use crate::lists::ReadItem;
use crate::render_words::INDEX_FORMATS;
use crate::sampler_words::COMPARES;
use crate::texture_words::FORMATS;
use crate::values::{Refusal, check_object, flag_or, flag_or_none, has_any, reading, short_or};
use crate::words::{word, word_at, word_if, word_or};
use std::alloc::Global;
use wg_json::Value;
use wg_types::fixed::{
    BlendComponent, BlendFactor, BlendOperation, BlendState, CullMode, DepthState, PrimitiveState,
    StencilFace, StencilOperation, StencilState, Target, Topology,
};
use wg_types::formats::Format;
use wg_types::samplers::Compare;

/// All bits of a mask.
const ALL_BITS: u32 = 0xffff_ffff;

/// All channels of a color.
const ALL_CHANNELS: u32 = 15;

/// The keys of which any says that what is done with the stencil is described.
const DESCRIBING_STENCIL: [&str; 4] = [
    "stencilFront",
    "stencilBack",
    "stencilReadMask",
    "stencilWriteMask",
];

/// All that a createRenderPipeline says that takes no memory.
#[derive(Clone, Copy)]
pub struct FixedFunction {
    pub depth: Option<DepthState>,
    pub samples: u32,
    pub primitive: PrimitiveState,
    pub alpha_to_coverage: bool,
}

#[tactic(auto, unfolding(crate::specs::FixedFunction::blend_component_of))]
fn blend_component(value: &Value<'_>) -> Result<BlendComponent, u8>
    ensures { result ≡ blend_component_of (view value.now) }
{
    reading!(inside value:
        may operation = word_or("operation", &BLEND_OPERATIONS, BlendOperation::Add);
        may src_factor = word_or("srcFactor", &BLEND_FACTORS, BlendFactor::One);
        may dst_factor = word_or("dstFactor", &BLEND_FACTORS, BlendFactor::Zero);
        => BlendComponent { operation, src_factor, dst_factor })
}

fn blend_component_at(object: &Value<'_>, key: &str) -> Result<BlendComponent, u8>
    ensures { result ≡ value_at blend_component_of (get key.now (view object.now)) }
{
    match object.get(key) {
        Some(value) => blend_component(value),
        None => Err(8),
    }
}

#[tactic(auto, unfolding(crate::specs::FixedFunction::blend_of))]
fn blend(value: &Value<'_>) -> Result<BlendState, u8>
    ensures { result ≡ blend_of (view value.now) }
{
    reading!(inside value:
        need color = blend_component_at("color");
        need alpha = blend_component_at("alpha");
        => BlendState { color, alpha })
}

fn blend_if(object: &Value<'_>, key: &str) -> Result<Option<BlendState>, u8>
    ensures { result ≡ item_if blend_of (get key.now (view object.now)) }
{
    match object.get(key) {
        Some(value) => Ok(Some(blend(value)?)),
        None => Ok(None),
    }
}

/// A target of which the format alone is told.
fn plain_target(format: Format) -> Target
    ensures { result ≡ plain_target format }
{
    Target {
        format,
        blend: None,
        write_mask: ALL_CHANNELS,
    }
}

#[tactic(auto, unfolding(crate::specs::FixedFunction::described_target_of))]
fn described_target(value: &Value<'_>) -> Result<Target, u8>
    ensures { result ≡ described_target_of (view value.now) }
{
    reading!(inside value:
        need format = word_at("format", &FORMATS);
        may blend = blend_if("blend");
        may write_mask = short_or("writeMask", ALL_CHANNELS);
        => Target { format, blend, write_mask })
}

impl ReadItem<Target> for Target {
    ghost reads = { target_of };

    #[tactic(auto, unfolding(crate::specs::FixedFunction::target_of))]
    fn read_item(_alloc: Global, value: &Value<'_>) -> Result<Target, Refusal> {
        if value.as_str().is_some() {
            Ok(plain_target(word(value, &FORMATS)?))
        } else {
            Ok(described_target(value)?)
        }
    }
}

/// What is done with the stencil of faces of which nothing is told.
fn plain_face() -> StencilFace
    ensures { result ≡ plain_face }
{
    StencilFace {
        compare: Compare::Always,
        fail_op: StencilOperation::Keep,
        depth_fail_op: StencilOperation::Keep,
        pass_op: StencilOperation::Keep,
    }
}

#[tactic(auto, unfolding(crate::specs::FixedFunction::face_of))]
fn face(value: &Value<'_>) -> Result<StencilFace, u8>
    ensures { result ≡ face_of (view value.now) }
{
    reading!(inside value:
        may compare = word_or("compare", &COMPARES, Compare::Always);
        may fail_op = word_or("failOp", &STENCIL_OPERATIONS, StencilOperation::Keep);
        may depth_fail_op = word_or("depthFailOp", &STENCIL_OPERATIONS, StencilOperation::Keep);
        may pass_op = word_or("passOp", &STENCIL_OPERATIONS, StencilOperation::Keep);
        => StencilFace { compare, fail_op, depth_fail_op, pass_op })
}

fn face_or_plain(object: &Value<'_>, key: &str) -> Result<StencilFace, u8>
    ensures { result ≡ value_or plain_face face_of (get key.now (view object.now)) }
{
    match object.get(key) {
        Some(value) => face(value),
        None => Ok(plain_face()),
    }
}

/// Whether the stencil is written, which is all that is told of it.
fn written_in(object: &Value<'_>) -> Result<StencilState, u8>
    ensures { result ≡ written_keys.read (view object.now) }
{
    Ok(StencilState::Written(flag_or(object, "stencilWrite", false)?))
}

/// What is done with the stencil, where that is described.
fn faces_in(object: &Value<'_>) -> Result<StencilState, u8>
    ensures { result ≡ faces_keys.read (view object.now) }
{
    let front = face_or_plain(object, "stencilFront")?;
    let back = face_or_plain(object, "stencilBack")?;
    short_or(object, "stencilReadMask", ALL_BITS)?;
    let write_mask = short_or(object, "stencilWriteMask", ALL_BITS)?;
    Ok(StencilState::Faces {
        front,
        back,
        write_mask,
    })
}

#[tactic(auto, unfolding(crate::specs::FixedFunction::written_depth_of))]
fn written_depth(value: &Value<'_>) -> Result<DepthState, u8>
    ensures { result ≡ written_depth_of (view value.now) }
{
    reading!(inside value:
        need format = word_at("format", &FORMATS);
        may depth_write = flag_or_none("depthWrite");
        may depth_compare = word_or("depthCompare", &DEPTH_COMPARES, Some(Compare::Always));
        part stencil = written_in("stencilWrite");
        may bias = flag_or("bias", false);
        => DepthState { format, depth_write, depth_compare, stencil, bias })
}

#[tactic(auto, unfolding(crate::specs::FixedFunction::faced_depth_of))]
fn faced_depth(value: &Value<'_>) -> Result<DepthState, u8>
    ensures { result ≡ faced_depth_of (view value.now) }
{
    reading!(inside value:
        need format = word_at("format", &FORMATS);
        may depth_write = flag_or_none("depthWrite");
        may depth_compare = word_or("depthCompare", &DEPTH_COMPARES, Some(Compare::Always));
        part stencil = faces_in("stencilFront", "stencilBack", "stencilReadMask", "stencilWriteMask");
        may bias = flag_or("bias", false);
        => DepthState { format, depth_write, depth_compare, stencil, bias })
}

/// What a pipeline does with depth and stencil. Where the stencil is described, whether it is written is not told
/// beside that.
#[tactic(auto, unfolding(crate::specs::FixedFunction::depth_state_of))]
fn depth_state(value: &Value<'_>) -> Result<DepthState, u8>
    ensures { result ≡ depth_state_of (view value.now) }
{
    if has_any(value, &DESCRIBING_STENCIL) {
        faced_depth(value)
    } else {
        written_depth(value)
    }
}

fn depth_if(object: &Value<'_>, key: &str) -> Result<Option<DepthState>, u8>
    ensures { result ≡ item_if depth_state_of (get key.now (view object.now)) }
{
    match object.get(key) {
        Some(value) => Ok(Some(depth_state(value)?)),
        None => Ok(None),
    }
}

/// What vertices make where nothing of that is told.
fn plain_primitive() -> PrimitiveState
    ensures { result ≡ plain_primitive }
{
    PrimitiveState {
        topology: Topology::TriangleList,
        strip_index_format: None,
        cull_mode: CullMode::None,
    }
}

#[tactic(auto, unfolding(crate::specs::FixedFunction::primitive_of))]
fn primitive(value: &Value<'_>) -> Result<PrimitiveState, u8>
    ensures { result ≡ primitive_of (view value.now) }
{
    reading!(inside value:
        may topology = word_or("topology", &TOPOLOGIES, Topology::TriangleList);
        may strip_index_format = word_if("stripIndexFormat", &INDEX_FORMATS);
        may _front = word_or("frontFace", &FRONT_FACES, ());
        may cull_mode = word_or("cullMode", &CULL_MODES, CullMode::None);
        => PrimitiveState { topology, strip_index_format, cull_mode })
}

fn primitive_or_plain(object: &Value<'_>, key: &str) -> Result<PrimitiveState, u8>
    ensures { result ≡ value_or plain_primitive primitive_of (get key.now (view object.now)) }
{
    match object.get(key) {
        Some(value) => primitive(value),
        None => Ok(plain_primitive()),
    }
}

/// Reads all of a createRenderPipeline that takes no memory. Nothing of the mask of samples is kept.
pub fn fixed_in(call: &Value<'_>) -> Result<FixedFunction, u8>
    ensures { result ≡ fixed_keys.read (view call.now) }
{
    let depth = depth_if(call, "depth")?;
    let samples = short_or(call, "samples", 1)?;
    let primitive = primitive_or_plain(call, "primitive")?;
    short_or(call, "mask", ALL_BITS)?;
    let alpha_to_coverage = flag_or(call, "alphaToCoverage", false)?;
    Ok(FixedFunction {
        depth,
        samples,
        primitive,
        alpha_to_coverage,
    })
}
