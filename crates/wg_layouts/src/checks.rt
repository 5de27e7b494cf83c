//! The rules in their order.
ghost use Rattle.std.specs.Prelude.{◌≡◌, option_copied};
ghost use Rattle.std.specs.List.{list_all};
ghost use Rattle.wg_model.specs.Rules.{first_unmet};
ghost use Rattle.wg_model.specs.Layouts.{group_layout_rules, is_for_all, together_rules, pipeline_layout_rules};
ghost use Rattle.wg_model.specs.Automatic.{get_layout_rules};

use crate::counts::{LayoutEntries, dynamic_fits, stages_fit};
use crate::distinct::are_distinct;
use crate::entries::{
    all_multi_fit, all_storage_fit, are_below, are_of_stages, are_read_by_vertices,
};
use crate::setting::known_layouts;
use wg_rules::{
    GROUP_INDEX_IS_IN_PIPELINE, LAYOUT_BINDINGS_ARE_DISTINCT, LAYOUT_BINDINGS_ARE_WITHIN_LIMIT,
    LAYOUT_DYNAMIC_BUFFERS_ARE_WITHIN_LIMITS, LAYOUT_STAGES_ARE_WITHIN_LIMITS,
    LAYOUT_VISIBILITY_IS_KNOWN, LAYOUTS_ARE_EXCLUSIVE_TO_NO_PIPELINE,
    MULTISAMPLED_BINDING_IS_2D_AND_NOT_FLOAT, PIPELINE_LAYOUT_COUNT_IS_WITHIN_LIMIT,
    PIPELINE_LAYOUT_DYNAMIC_BUFFERS_ARE_WITHIN_LIMITS, PIPELINE_LAYOUT_STAGES_ARE_WITHIN_LIMITS,
    STORAGE_TEXTURE_FORMAT_HAS_ACCESS, VERTEX_STAGE_WRITES_NOTHING,
};
use wg_types::bindings::LayoutEntry;
use wg_types::groups::GroupLayoutInfo;
use wg_types::handles::Info;
use wg_types::limits::Limits;
use wg_types::shared::Shared;

/// The number of the first unmet rule of createBindGroupLayout on a device of these limits (WebGPU,
/// "Bind Group Layout Creation"); none where the layout may be made.
pub fn check_group_layout(entries: &[LayoutEntry], limits: &Limits) -> Option<u16>
    ensures { result ≡ first_unmet (group_layout_rules limits.now entries.now) }
{
    if !are_distinct(entries) {
        return Some(LAYOUT_BINDINGS_ARE_DISTINCT);
    }
    if !are_below(entries, limits.max_bindings_per_bind_group) {
        return Some(LAYOUT_BINDINGS_ARE_WITHIN_LIMIT);
    }
    if !are_of_stages(entries) {
        return Some(LAYOUT_VISIBILITY_IS_KNOWN);
    }
    if !are_read_by_vertices(entries) {
        return Some(VERTEX_STAGE_WRITES_NOTHING);
    }
    if !all_multi_fit(entries) {
        return Some(MULTISAMPLED_BINDING_IS_2D_AND_NOT_FLOAT);
    }
    if !all_storage_fit(entries) {
        return Some(STORAGE_TEXTURE_FORMAT_HAS_ACCESS);
    }
    if !stages_fit(limits, LayoutEntries::One(entries)) {
        return Some(LAYOUT_STAGES_ARE_WITHIN_LIMITS);
    }
    if !dynamic_fits(limits, LayoutEntries::One(entries)) {
        return Some(LAYOUT_DYNAMIC_BUFFERS_ARE_WITHIN_LIMITS);
    }
    None
}

/// The number of the first unmet rule of the layouts of a pipeline together on a device of these limits
/// (WebGPU, "Pipeline Layout Creation"), whether it is made with them or derives them: 140 there are no
/// more groups than may be, 141 no stage sees more of a sort than it may, 142 no more buffers are dynamic
/// than may be; none where they may be a pipeline's.
pub fn check_together(layouts: &[Shared<GroupLayoutInfo>], limits: &Limits) -> Option<u16>
    ensures { result ≡ first_unmet (together_rules limits.now layouts.now) }
{
    if layouts.len() as u64 > u64::from(limits.max_bind_groups) {
        return Some(PIPELINE_LAYOUT_COUNT_IS_WITHIN_LIMIT);
    }
    if !stages_fit(limits, LayoutEntries::All(layouts)) {
        return Some(PIPELINE_LAYOUT_STAGES_ARE_WITHIN_LIMITS);
    }
    if !dynamic_fits(limits, LayoutEntries::All(layouts)) {
        return Some(PIPELINE_LAYOUT_DYNAMIC_BUFFERS_ARE_WITHIN_LIMITS);
    }
    None
}

/// Whether no layout is exclusive to a pipeline.
fn are_for_all(layouts: &[Shared<GroupLayoutInfo>]) -> bool
    ensures { result ≡ list_all is_for_all layouts.now }
{
    layouts
        .iter()
        .all(|layout| layout.get().exclusive.is_none())
}

/// The number of the first unmet rule of createPipelineLayout on a device of these limits (WebGPU,
/// "Pipeline Layout Creation"): those of the layouts together, and 143 that none is exclusive to a
/// pipeline; none where the layout may be made.
#[tactic(auto, using(wg_model::proofs::Unmet::first_unmet_joined))]
pub fn check_pipeline_layout(layouts: &[Shared<GroupLayoutInfo>], limits: &Limits) -> Option<u16>
    ensures { result ≡ first_unmet (pipeline_layout_rules limits.now layouts.now) }
{
    if let Some(rule) = check_together(layouts, limits) {
        return Some(rule);
    }
    if !are_for_all(layouts) {
        return Some(LAYOUTS_ARE_EXCLUSIVE_TO_NO_PIPELINE);
    }
    None
}

/// The number of the first unmet rule of getBindGroupLayout (WebGPU, "getBindGroupLayout"), by what is
/// known of the pipeline, of whichever kind: 169 the index is one of a group of its layout; none where the
/// layout of that group may be got. Where it is not known to be a pipeline there is no such index.
pub fn check_get_layout(pipeline: Option<&Info>, index: u32) -> Option<u16>
    ensures { result ≡ first_unmet (get_layout_rules (option_copied pipeline.entry) index) }
{
    if (index as usize) < known_layouts(pipeline).len() {
        return None;
    }
    Some(GROUP_INDEX_IS_IN_PIPELINE)
}
