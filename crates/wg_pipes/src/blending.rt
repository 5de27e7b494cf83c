//! How color targets are blended, and what of them is written.
ghost use Rattle.std.specs.Prelude.{◌≡◌};
ghost use Rattle.wg_model.specs.Rules.{first_unmet};
ghost use Rattle.wg_model.specs.FixedFunction.{each_target, may_blend, has_alpha, blend_fits, takes_one, is_one, factors_fit, blend_factors_fit, mask_is_known, blending_rules, first_covers};

use wg_rules::{
    BLENDED_TARGETS_MAY_BLEND, LEAST_AND_GREATEST_ARE_OF_FACTORS_ONE, WRITE_MASKS_ARE_KNOWN,
};
use wg_types::fixed::{BlendComponent, BlendFactor, BlendOperation, Target};
use wg_types::formats::Format;

/// The bits of all colors, and of alpha (WebGPU, "GPUColorWrite").
const ALL: u32 = 15;

/// Whether targets of the format may blend.
fn may_blend(format: Format) -> bool
    ensures { result ≡ may_blend format }
{
    format.row().target.is_some_and(|target| target.blends)
}

/// Whether the format has an alpha channel.
fn has_alpha(format: Format) -> bool
    ensures { result ≡ has_alpha format }
{
    format.row().target.is_some_and(|target| target.alpha)
}

/// Whether a target does not blend, or may.
fn blend_fits(target: Target) -> bool
    ensures { result ≡ blend_fits target }
{
    target.blend.is_none() || may_blend(target.format)
}

/// Whether an operation takes the lesser or the greater of two values.
fn takes_one(operation: BlendOperation) -> bool
    ensures { result ≡ takes_one operation }
{
    match operation {
        BlendOperation::Min | BlendOperation::Max => true,
        BlendOperation::Add | BlendOperation::Subtract | BlendOperation::ReverseSubtract => false,
    }
}

/// Whether a factor is one.
fn is_one(factor: BlendFactor) -> bool
    ensures { result ≡ is_one factor }
{
    match factor {
        BlendFactor::One => true,
        BlendFactor::Zero
        | BlendFactor::Src
        | BlendFactor::OneMinusSrc
        | BlendFactor::SrcAlpha
        | BlendFactor::OneMinusSrcAlpha
        | BlendFactor::Dst
        | BlendFactor::OneMinusDst
        | BlendFactor::DstAlpha
        | BlendFactor::OneMinusDstAlpha
        | BlendFactor::SrcAlphaSaturated
        | BlendFactor::Constant
        | BlendFactor::OneMinusConstant => false,
    }
}

/// Whether the lesser or the greater is taken of values that are multiplied by one alone (WebGPU, "Blend
/// State", "validating GPUBlendComponent").
fn factors_fit(component: BlendComponent) -> bool
    ensures { result ≡ factors_fit component }
{
    !takes_one(component.operation) || is_one(component.src_factor) && is_one(component.dst_factor)
}

/// Whether the factors of colors and those of alphas fit, where there are any.
fn blend_factors_fit(target: Target) -> bool
    ensures { result ≡ blend_factors_fit target }
{
    target.blend.is_none_or(|blend| factors_fit(blend.color) && factors_fit(blend.alpha))
}

/// Whether all targets that are not left out blend only where they may.
fn blends_fit(targets: &[Option<Target>]) -> bool
    ensures { result ≡ each_target blend_fits targets.now }
{
    targets
        .iter()
        .all(|target| target.is_none_or(|given| blend_fits(given)))
}

/// Whether the factors of all targets that are not left out fit.
fn all_factors_fit(targets: &[Option<Target>]) -> bool
    ensures { result ≡ each_target blend_factors_fit targets.now }
{
    targets.iter().all(|target| target.is_none_or(|given| blend_factors_fit(given)))
}

/// Whether the masks of all targets that are not left out are known.
fn masks_are_known(targets: &[Option<Target>]) -> bool
    ensures { result ≡ each_target mask_is_known targets.now }
{
    targets.iter().all(|target| target.is_none_or(|given| given.write_mask <= ALL))
}

/// The first unmet rule of how color targets are blended, and of what of them is written (WebGPU, "Color
/// Target State" and "Blend State").
pub fn check_blending(targets: &[Option<Target>]) -> Option<u16>
    ensures { result ≡ first_unmet (blending_rules targets.now) }
{
    if !blends_fit(targets) {
        return Some(BLENDED_TARGETS_MAY_BLEND);
    }
    if !all_factors_fit(targets) {
        return Some(LEAST_AND_GREATEST_ARE_OF_FACTORS_ONE);
    }
    if !masks_are_known(targets) {
        return Some(WRITE_MASKS_ARE_KNOWN);
    }
    None
}

/// Whether the first of some targets is given, and has a format that may blend and has alpha.
pub fn first_covers(targets: &[Option<Target>]) -> bool
    ensures { result ≡ first_covers targets.now }
{
    match targets.first() {
        Some(Some(target)) => may_blend(target.format) && has_alpha(target.format),
        _ => false,
    }
}
