//! What render pipelines do with depth and stencil.
ghost use Rattle.std.specs.Prelude.{◌≡◌};
ghost use Rattle.wg_model.specs.Rules.{first_unmet};
ghost use Rattle.wg_model.specs.FixedFunction.{is_keep, is_always, keeps, is_plain, draws_fronts, draws_backs, writes_stencil, told_to_write, faces_are_plain, changes_where_depth_fails, writes_depth, compares_depth, state_has_depth, state_has_stencil, asks_depth_compare, depth_state_rules, depth_rules};
ghost use Rattle.wg_model.specs.RenderPipelines.{depth_state_fits};

use crate::primitives::makes_triangles;
use wg_formats::{has_depth, has_stencil, is_color};
use wg_rules::{
    COMPARED_DEPTH_IS_IN_FORMAT, DEPTH_BIAS_IS_OF_TRIANGLES, DEPTH_COMPARE_IS_GIVEN,
    DEPTH_WRITE_IS_GIVEN, STENCIL_OF_FACES_IS_IN_FORMAT,
};
use wg_types::fixed::{
    CullMode, DepthState, StencilFace, StencilOperation, StencilState, Topology,
};
use wg_types::samplers::Compare;

/// Whether an operation leaves a value of the stencil as it is.
fn is_keep(operation: StencilOperation) -> bool
    ensures { result ≡ is_keep operation }
{
    match operation {
        StencilOperation::Keep => true,
        StencilOperation::Zero
        | StencilOperation::Replace
        | StencilOperation::Invert
        | StencilOperation::IncrementClamp
        | StencilOperation::DecrementClamp
        | StencilOperation::IncrementWrap
        | StencilOperation::DecrementWrap => false,
    }
}

/// Whether a comparison lets all pass.
fn is_always(compare: Compare) -> bool
    ensures { result ≡ is_always compare }
{
    match compare {
        Compare::Always => true,
        Compare::Never
        | Compare::Less
        | Compare::Equal
        | Compare::LessEqual
        | Compare::Greater
        | Compare::NotEqual
        | Compare::GreaterEqual => false,
    }
}

/// Whether each operation of a face leaves the stencil as it is.
fn keeps(face: StencilFace) -> bool
    ensures { result ≡ keeps face }
{
    is_keep(face.fail_op) && is_keep(face.depth_fail_op) && is_keep(face.pass_op)
}

/// Whether a face neither looks at the stencil nor changes it.
fn is_plain(face: StencilFace) -> bool
    ensures { result ≡ is_plain face }
{
    is_always(face.compare) && keeps(face)
}

/// Whether fronts are drawn.
fn draws_fronts(culled: CullMode) -> bool
    ensures { result ≡ draws_fronts culled }
{
    match culled {
        CullMode::None | CullMode::Back => true,
        CullMode::Front => false,
    }
}

/// Whether backs are drawn.
fn draws_backs(culled: CullMode) -> bool
    ensures { result ≡ draws_backs culled }
{
    match culled {
        CullMode::None | CullMode::Front => true,
        CullMode::Back => false,
    }
}

/// Whether a pipeline writes stencil (WebGPU, "GPURenderPipeline", "[[writesStencil]]"): as it is told, or where
/// some bit of its mask is set, and a face that is drawn has an operation that does not leave the stencil as it is.
pub fn writes_stencil(culled: CullMode, stencil: &StencilState) -> bool
    ensures { result ≡ writes_stencil culled stencil.now }
{
    match *stencil {
        StencilState::Written(writes) => writes,
        StencilState::Faces {
            front,
            back,
            write_mask,
        } => {
            write_mask != 0
                && (draws_fronts(culled) && !keeps(front) || draws_backs(culled) && !keeps(back))
        }
    }
}

/// Whether stencil is told to be written, without a word of faces.
fn told_to_write(stencil: StencilState) -> bool
    ensures { result ≡ told_to_write stencil }
{
    match stencil {
        StencilState::Written(writes) => writes,
        StencilState::Faces { .. } => false,
    }
}

/// Whether both faces are plain.
fn faces_are_plain(stencil: StencilState) -> bool
    ensures { result ≡ faces_are_plain stencil }
{
    match stencil {
        StencilState::Written(_) => true,
        StencilState::Faces { front, back, .. } => is_plain(front) && is_plain(back),
    }
}

/// Whether a face has an operation that changes the stencil where depth fails.
fn changes_where_depth_fails(stencil: StencilState) -> bool
    ensures { result ≡ changes_where_depth_fails stencil }
{
    match stencil {
        StencilState::Written(_) => false,
        StencilState::Faces { front, back, .. } => {
            !is_keep(front.depth_fail_op) || !is_keep(back.depth_fail_op)
        }
    }
}

/// Whether depth is written (WebGPU, "GPUDepthStencilState", "depthWriteEnabled"), which it is not where that is
/// left out.
pub fn writes_depth(depth: &DepthState) -> bool
    ensures { result ≡ writes_depth depth.now }
{
    depth.depth_write.is_some_and(|writes| writes)
}

/// Whether depth is compared, and not so that all pass.
fn compares_depth(depth: DepthState) -> bool
    ensures { result ≡ compares_depth depth }
{
    depth
        .depth_compare
        .is_some_and(|compare| !is_always(compare))
}

fn state_has_depth(depth: DepthState) -> bool
    ensures { result ≡ state_has_depth depth }
{
    has_depth(depth.format.row().aspects)
}

fn state_has_stencil(depth: DepthState) -> bool
    ensures { result ≡ state_has_stencil depth }
{
    has_stencil(depth.format.row().aspects)
}

/// Whether it has to be told how depth is compared: where there is depth, and it is written, or something
/// hangs on that it fails.
fn asks_depth_compare(depth: DepthState) -> bool
    ensures { result ≡ asks_depth_compare depth }
{
    state_has_depth(depth) && (writes_depth(&depth) || changes_where_depth_fails(depth.stencil))
}

/// Whether the format is one of depth or stencil, and has what is told to be written.
pub fn depth_fits(depth: DepthState) -> bool
    ensures { result ≡ depth_state_fits depth }
{
    !is_color(depth.format)
        && (!writes_depth(&depth) || state_has_depth(depth))
        && (!told_to_write(depth.stencil) || state_has_stencil(depth))
}

/// The first unmet rule of a state of depth and stencil, after that of its format.
fn check_state(topology: Topology, depth: DepthState) -> Option<u16>
    ensures { result ≡ first_unmet (depth_state_rules topology depth) }
{
    if compares_depth(depth) && !state_has_depth(depth) {
        return Some(COMPARED_DEPTH_IS_IN_FORMAT);
    }
    if !faces_are_plain(depth.stencil) && !state_has_stencil(depth) {
        return Some(STENCIL_OF_FACES_IS_IN_FORMAT);
    }
    if state_has_depth(depth) && depth.depth_write.is_none() {
        return Some(DEPTH_WRITE_IS_GIVEN);
    }
    if asks_depth_compare(depth) && depth.depth_compare.is_none() {
        return Some(DEPTH_COMPARE_IS_GIVEN);
    }
    if depth.bias && !makes_triangles(topology) {
        return Some(DEPTH_BIAS_IS_OF_TRIANGLES);
    }
    None
}

/// The first unmet rule of depth and stencil, where there are any, after that of their format (WebGPU,
/// "Depth/Stencil State").
pub fn check_depth(topology: Topology, depth: Option<DepthState>) -> Option<u16>
    ensures { result ≡ first_unmet (depth_rules topology depth) }
{
    match depth {
        Some(depth) => check_state(topology, depth),
        None => None,
    }
}
