//! The rules of new samplers.
ghost use Rattle.std.specs.Prelude.{◌≡◌};
ghost use Rattle.wg_model.specs.Rules.{first_unmet};
ghost use Rattle.wg_model.specs.Samplers.{are_linear, sampler_rules};

use wg_rules::{ANISOTROPY_FITS_FILTERS, LEVELS_OF_DETAIL_ARE_IN_ORDER};
use wg_types::samplers::{SamplerDesc, SamplerFields};

/// Whether all filters are linear.
fn are_linear(fields: SamplerFields) -> bool
    ensures { result ≡ are_linear fields }
{
    fields.mag_filter.is_linear()
        && fields.min_filter.is_linear()
        && fields.mipmap_filter.is_linear()
}

/// The number of the first unmet rule of createSampler (WebGPU, "GPUSamplerDescriptor"); none where the sampler
/// may be made. One that is asked for by its kind alone has no rule.
pub fn check_sampler(desc: &SamplerDesc) -> Option<u16>
    ensures { result ≡ first_unmet (sampler_rules desc.now) }
{
    let SamplerDesc::Full(fields) = *desc else {
        return None;
    };
    if fields.lod_min > fields.lod_max {
        return Some(LEVELS_OF_DETAIL_ARE_IN_ORDER);
    }
    if fields.max_anisotropy < 1 || fields.max_anisotropy > 1 && !are_linear(fields) {
        return Some(ANISOTROPY_FITS_FILTERS);
    }
    None
}
