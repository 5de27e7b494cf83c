//! Render pipelines as they are set.
ghost use Rattle.std.specs.Prelude.{◌≡◌, Some, option_copied};
ghost use Rattle.std.specs.Option.{option_map};
ghost use Rattle.wg_types.specs.declared.fixed.DepthState.{DepthState};
ghost use Rattle.wg_types.specs.declared.fixed.Target.{Target};
ghost use Rattle.wg_types.specs.Formats.{same_format};
ghost use Rattle.wg_model.specs.Rules.{first_unmet};
ghost use Rattle.wg_model.specs.Equality.{same_option};
ghost use Rattle.wg_model.specs.FixedFunction.{target_formats};
ghost use Rattle.wg_model.specs.Render.{desc_in, known_pipeline, buffers_wanted, strip_wanted, none_given, same_targets, draws_to, spares, pipeline_rules, pipeline_given_rules};

use wg_compute::Settings;
use wg_pipes::{writes_depth, writes_stencil};
use wg_rules::{PIPELINE_DRAWS_TO_TARGETS, PIPELINE_SPARES_READ_ONLY};
use wg_types::fixed::{CullMode, DepthState, Target};
use wg_types::formats::Format;
use wg_types::handles::{Handle, Info};
use wg_types::render::{RenderDesc, TargetInfo};
use wg_types::vertex::{IndexFormat, VertexBuffer};

/// What is known of a render pipeline, if it is one.
fn desc_in(info: &Info) -> Option<&RenderDesc>
    ensures { option_copied result ≡ desc_in info.now }
{
    match info {
        Info::Render(pipeline) => Some(pipeline.desc.get()),
        _ => None,
    }
}

/// What a handle knows of a render pipeline, which of an invalid one is nothing.
fn known_pipeline(handle: &Handle) -> Option<&RenderDesc>
    ensures { option_copied result ≡ known_pipeline handle.now }
{
    if !handle.valid() {
        return None;
    }
    desc_in(handle.info())
}

/// The vertex buffers of the pipeline that is set, of which some may be left out.
pub fn buffers_wanted(set: &Settings) -> &[Option<VertexBuffer>]
    ensures { result.now ≡ buffers_wanted set.now }
{
    let Some(pipeline) = set.pipeline() else {
        return &[];
    };
    match known_pipeline(pipeline) {
        Some(desc) => desc.buffers.as_slice(),
        None => &[],
    }
}

/// Of what format the indexes of strips are, if that is told, where the pipeline that is set makes strips.
pub fn strip_wanted(set: &Settings) -> Option<Option<IndexFormat>>
    ensures { result ≡ strip_wanted set.now }
{
    match known_pipeline(set.pipeline()?) {
        Some(desc) => desc.primitive.strip(),
        None => None,
    }
}

/// Whether two formats are left out, or are the same.
pub fn same_target(a: Option<Format>, b: Option<Format>) -> bool
    ensures { result ≡ same_option same_format a b }
{
    match (a, b) {
        (None, None) => true,
        (Some(a), Some(b)) => a == b,
        (None, Some(_)) | (Some(_), None) => false,
    }
}

/// Whether all targets are left out.
fn none_given(targets: &[Option<Format>]) -> bool
    ensures { result ≡ none_given targets.now }
{
    targets.iter().all(|target| target.is_none())
}

/// Whether targets have the same formats, where what is left out at the end does not count.
#[tactic(auto, using(crate::proofs::SameTargets::same_as_none))]
pub fn same_targets(targets: &[Option<Format>], others: &[Option<Format>]) -> bool
    ensures { result ≡ same_targets targets.now others.now }
{
    let mut rest = others;
    for (i, target) in targets.iter().enumerate() {
        let [other, behind @ ..] = rest else {
            return none_given(&targets[i..]);
        };
        if !same_target(*target, *other) {
            return false;
        }
        rest = behind;
    }
    none_given(rest)
}

/// The format of a target of a pipeline, if it is not left out.
fn target_format(target: Option<Target>) -> Option<Format>
    ensures { result ≡ option_map (λ (given : Target). given.format) target }
{
    match target {
        Some(given) => Some(given.format),
        None => None,
    }
}

/// Whether all targets of a pipeline are left out.
fn no_target(targets: &[Option<Target>]) -> bool
    ensures { result ≡ none_given (target_formats targets.now) }
{
    for target in targets {
        let Some(_) = target else { continue };
        return false;
    }
    true
}

/// Whether targets of a pipeline have these formats, where what is left out at the end does not count.
#[tactic(auto, using(crate::proofs::SameTargets::same_as_none))]
fn have_formats(targets: &[Option<Target>], others: &[Option<Format>]) -> bool
    ensures { result ≡ same_targets (target_formats targets.now) others.now }
{
    let mut rest = others;
    for (i, target) in targets.iter().enumerate() {
        let [other, behind @ ..] = rest else {
            return no_target(&targets[i..]);
        };
        if !same_target(target_format(*target), *other) {
            return false;
        }
        rest = behind;
    }
    none_given(rest)
}

/// The format of depth and stencil that a pipeline draws to, if it does.
fn depth_format(depth: Option<DepthState>) -> Option<Format>
    ensures { result ≡ option_map (λ (state : DepthState). state.format) depth }
{
    match depth {
        Some(state) => Some(state.format),
        None => None,
    }
}

/// Whether a pipeline draws to what a pass draws to.
fn draws_to(targets: &TargetInfo, desc: &RenderDesc) -> bool
    ensures { result ≡ draws_to targets.now desc.now }
{
    have_formats(desc.targets.as_slice(), targets.colors.as_slice())
        && same_target(depth_format(desc.depth), targets.depth)
        && desc.samples == targets.samples
}

/// Whether what a pass only reads is not written.
fn spares(targets: &TargetInfo, culled: CullMode, depth: &DepthState) -> bool
    ensures { result ≡ spares targets.now culled depth.now }
{
    !(targets.depth_read_only && writes_depth(depth))
        && !(targets.stencil_read_only && writes_stencil(culled, &depth.stencil))
}

/// The first unmet rule of a pipeline that is set in a pass.
fn check_desc(targets: &TargetInfo, desc: &RenderDesc) -> Option<u16>
    ensures { result ≡ first_unmet (pipeline_rules targets.now (Some desc.now)) }
{
    if !draws_to(targets, desc) {
        return Some(PIPELINE_DRAWS_TO_TARGETS);
    }
    if let Some(depth) = &desc.depth {
        if !spares(targets, desc.primitive.cull_mode, depth) {
            return Some(PIPELINE_SPARES_READ_ONLY);
        }
    }
    None
}

/// The first unmet rule of the pipeline that a command sets in a pass, if it sets one (WebGPU,
/// "setPipeline").
pub fn check_pipeline(targets: &TargetInfo, pipeline: Option<&Handle>) -> Option<u16>
    ensures { result ≡ first_unmet (pipeline_given_rules targets.now (option_copied pipeline.entry)) }
{
    match known_pipeline(pipeline?) {
        Some(desc) => check_desc(targets, desc),
        None => None,
    }
}
