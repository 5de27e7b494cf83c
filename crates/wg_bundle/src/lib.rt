//! The rules of bundle encoders.
#![tactic(auto)]

ghost use Rattle.std.specs.Prelude.{◌≡◌};
ghost use Rattle.wg_model.specs.Bundles.{bundle_target_rules};
ghost use Rattle.wg_model.specs.Rules.{first_unmet};

use wg_formats::{is_color, sample_fits};
use wg_pipes::{are_color, has_target, is_multisampled, samples_fit};
use wg_rules::{
    BUNDLE_FORMATS_FIT, BUNDLE_HAS_TARGET, BUNDLE_SAMPLES_ARE_ALLOWED,
    SAMPLE_BYTES_ARE_WITHIN_LIMIT,
};
use wg_types::limits::Limits;
use wg_types::render::TargetInfo;

/// The first unmet rule of createBundleEncoder on a device of these limits (WebGPU,
/// "createRenderBundleEncoder").
pub fn check_targets(targets: &TargetInfo, limits: &Limits) -> Option<u16>
    ensures { result ≡ first_unmet (bundle_target_rules limits.now targets.now) }
{
    let colors = targets.colors.as_slice();
    if colors.len() as u64 > u64::from(limits.max_color_attachments)
        || !are_color(colors)
        || targets.depth.is_some_and(|format| is_color(format))
    {
        return Some(BUNDLE_FORMATS_FIT);
    }
    if !has_target(colors) && targets.depth.is_none() {
        return Some(BUNDLE_HAS_TARGET);
    }
    let depth_allows = targets.depth.is_none_or(|format| is_multisampled(format));
    if !samples_fit(targets.samples, colors, depth_allows) {
        return Some(BUNDLE_SAMPLES_ARE_ALLOWED);
    }
    if !sample_fits(colors, limits.max_color_attachment_bytes_per_sample) {
        return Some(SAMPLE_BYTES_ARE_WITHIN_LIMIT);
    }
    None
}
