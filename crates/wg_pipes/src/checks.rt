//! The rules in their order.
ghost use Rattle.std.specs.Prelude.{◌≡◌};
ghost use Rattle.wg_model.specs.Rules.{first_unmet};
ghost use Rattle.wg_model.specs.Pipelines.{compute_pipeline_rules};
ghost use Rattle.wg_model.specs.RenderPipelines.{render_pipeline_rules};

use crate::interface::offer_all;
use crate::targets::check_targets;
use wg_rules::INTERFACE_FITS_LAYOUT;
use wg_types::bindings::IfaceEntry;
use wg_types::groups::PipelineLayoutInfo;
use wg_types::limits::Limits;
use wg_types::render::RenderDesc;
use wg_vertex::check_layout;

/// The number of the first unmet rule of createComputePipeline (WebGPU, "Compute Pipeline Creation"), of
/// those that the layout and what the shader uses tell; none where the pipeline may be made.
pub fn check_compute(layout: &PipelineLayoutInfo, iface: &[IfaceEntry]) -> Option<u16>
    ensures { result ≡ first_unmet (compute_pipeline_rules layout.now.layouts_info iface.now) }
{
    if !offer_all(layout.layouts_info.as_slice(), iface) {
        return Some(INTERFACE_FITS_LAYOUT);
    }
    None
}

/// The number of the first unmet rule of createRenderPipeline on a device of these limits (WebGPU,
/// "Render Pipeline Creation"), of those that the layout and the description tell; none where the
/// pipeline may be made.
#[tactic(auto, using(crate::proofs::Parted::rules_parted), unfolding(wg_model::specs::RenderPipelines::render_pipeline_rules))]
pub fn check_render(layout: &PipelineLayoutInfo, desc: &RenderDesc, limits: &Limits) -> Option<u16>
    ensures { result ≡ first_unmet (render_pipeline_rules limits.now layout.now.layouts_info desc.now) }
{
    if !offer_all(layout.layouts_info.as_slice(), desc.iface.as_slice()) {
        return Some(INTERFACE_FITS_LAYOUT);
    }
    if let Some(rule) = check_layout(desc, limits) {
        return Some(rule);
    }
    check_targets(desc, limits)
}
