//! To what is drawn: what is asked of color targets and samples, of render pipelines and of bundles.
ghost use Rattle.std.specs.Prelude.{◌≡◌, Option, is_some};
ghost use Rattle.std.specs.List.{list_all, list_any};
ghost use Rattle.wg_types.specs.declared.formats.Format.{Format};
ghost use Rattle.wg_types.specs.declared.fixed.Target.{Target as Declared};
ghost use Rattle.wg_model.specs.Rules.{first_unmet};
ghost use Rattle.wg_model.specs.Formats.{is_color};
ghost use Rattle.wg_model.specs.FixedFunction.{each_target, target_formats};
ghost use Rattle.wg_model.specs.RenderPipelines.{passes, is_multisampled, samples_fit, color_rules, whole_rules, target_rules};

use crate::blending::{check_blending, first_covers};
use crate::depth::{check_depth, depth_fits};
use crate::primitives::check_primitive;
use wg_formats::{is_color, targets_sample_fits};
use wg_rules::{
    ALPHA_TO_COVERAGE_FITS_TARGETS, PIPELINE_DEPTH_FORMAT_FITS, PIPELINE_HAS_TARGET,
    PIPELINE_SAMPLES_ARE_ALLOWED, PIPELINE_TARGETS_ARE_COLORS, SAMPLE_BYTES_ARE_WITHIN_LIMIT,
};
use wg_types::fixed::Target;
use wg_types::formats::Format;
use wg_types::limits::Limits;
use wg_types::render::RenderDesc;

/// Whether textures of the format may have four samples.
pub fn is_multisampled(format: Format) -> bool
    ensures { result ≡ is_multisampled format }
{
    format.row().multisampled
}

/// Whether all formats that are not left out are color formats.
pub fn are_color(formats: &[Option<Format>]) -> bool
    ensures { result ≡ list_all (passes is_color) formats.now }
{
    formats
        .iter()
        .all(|format| format.is_none_or(|given| is_color(given)))
}

/// Whether some format is not left out.
pub fn has_target(formats: &[Option<Format>]) -> bool
    ensures { result ≡ list_any (λ (format : Option Format). is_some format) formats.now }
{
    formats.iter().any(|format| format.is_some())
}

/// Whether all formats that are not left out may have four samples.
fn are_multisampled(formats: &[Option<Format>]) -> bool
    ensures { result ≡ list_all (passes is_multisampled) formats.now }
{
    formats
        .iter()
        .all(|format| format.is_none_or(is_multisampled))
}

/// Whether there may be so many samples (WebGPU, "Multisample State"), where this tells whether the depth
/// format may have four, or is left out.
pub fn samples_fit(samples: u32, formats: &[Option<Format>], depth_allows: bool) -> bool
    ensures { result ≡ samples_fit samples formats.now depth_allows }
{
    samples == 1 || samples == 4 && are_multisampled(formats) && depth_allows
}

/// Whether all targets that are not left out have color formats.
fn targets_are_color(targets: &[Option<Target>]) -> bool
    ensures { result ≡ each_target (λ (given : Declared). is_color given.format) targets.now }
{
    targets
        .iter()
        .all(|target| target.is_none_or(|given| is_color(given.format)))
}

/// Whether all targets that are not left out have formats that may have four samples.
fn targets_are_multisampled(targets: &[Option<Target>]) -> bool
    ensures { result ≡ each_target (λ (given : Declared). is_multisampled given.format) targets.now }
{
    targets.iter().all(|target| target.is_none_or(|given| is_multisampled(given.format)))
}

/// Whether some target is not left out.
fn some_target(targets: &[Option<Target>]) -> bool
    ensures { result ≡ list_any (λ (target : Option Declared). is_some target) targets.now }
{
    targets.iter().any(|target| target.is_some())
}

/// Whether a render pipeline may have so many samples.
#[tactic(auto, using(crate::proofs::TargetFormats::multisampled_formats))]
fn target_samples_fit(samples: u32, targets: &[Option<Target>], depth_allows: bool) -> bool
    ensures { result ≡ samples_fit samples (target_formats targets.now) depth_allows }
{
    samples == 1 || samples == 4 && targets_are_multisampled(targets) && depth_allows
}

/// The first unmet rule of color targets (WebGPU, "Color Target State").
#[tactic(auto, using(crate::proofs::Parted::blending_parted, crate::proofs::TargetFormats::color_formats))]
fn check_colors(targets: &[Option<Target>], limits: &Limits) -> Option<u16>
    ensures { result ≡ first_unmet (color_rules limits.now targets.now) }
{
    if targets.len() as u64 > u64::from(limits.max_color_attachments)
        || !targets_are_color(targets)
    {
        return Some(PIPELINE_TARGETS_ARE_COLORS);
    }
    if let Some(rule) = check_blending(targets) {
        return Some(rule);
    }
    if !targets_sample_fits(targets, limits.max_color_attachment_bytes_per_sample) {
        return Some(SAMPLE_BYTES_ARE_WITHIN_LIMIT);
    }
    None
}

/// The first unmet rule of all that a render pipeline draws to together (WebGPU, "Multisample State" among
/// others).
fn check_whole(desc: &RenderDesc) -> Option<u16>
    ensures { result ≡ first_unmet (whole_rules desc.now) }
{
    let targets = desc.targets.as_slice();
    if !some_target(targets) && desc.depth.is_none() {
        return Some(PIPELINE_HAS_TARGET);
    }
    let depth_allows = desc.depth.is_none_or(|depth| is_multisampled(depth.format));
    if !target_samples_fit(desc.samples, targets, depth_allows) {
        return Some(PIPELINE_SAMPLES_ARE_ALLOWED);
    }
    if desc.alpha_to_coverage && !(desc.samples == 4 && first_covers(targets)) {
        return Some(ALPHA_TO_COVERAGE_FITS_TARGETS);
    }
    None
}

/// The first unmet rule of what a render pipeline makes of its vertices, and to what it draws (WebGPU,
/// "Primitive State", "Color Target State", "Depth/Stencil State" and "Multisample State").
#[tactic(auto, using(crate::proofs::Parted::targets_parted))]
pub fn check_targets(desc: &RenderDesc, limits: &Limits) -> Option<u16>
    ensures { result ≡ first_unmet (target_rules limits.now desc.now) }
{
    if let Some(rule) = check_primitive(desc.primitive) {
        return Some(rule);
    }
    if let Some(rule) = check_colors(desc.targets.as_slice(), limits) {
        return Some(rule);
    }
    if !desc.depth.is_none_or(depth_fits) {
        return Some(PIPELINE_DEPTH_FORMAT_FITS);
    }
    if let Some(rule) = check_depth(desc.primitive.topology, desc.depth) {
        return Some(rule);
    }
    check_whole(desc)
}
