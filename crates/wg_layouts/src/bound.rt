//! The rules of the groups that are set where a pipeline runs.
ghost use Rattle.std.specs.Prelude.{◌≡◌, option_copied};
ghost use Rattle.wg_model.specs.Rules.{first_unmet};
ghost use Rattle.wg_model.specs.Bound.{layout_fits, layouts_fit, bound_rules};

use crate::equivalence::equivalent_for;
use crate::overlaps::are_clear;
use crate::places::{group_at, has_entries, info_set};
use wg_rules::{GROUPS_FIT_PIPELINE, WRITTEN_BINDINGS_ARE_APART};
use wg_types::commands::BoundGroup;
use wg_types::groups::GroupLayoutInfo;
use wg_types::shared::Shared;

/// Whether a group is set with an equivalent layout, or the layout has no entry. The layout counts as
/// exclusive to this pipeline, by its number, or to none.
fn layout_fits(owner: Option<u64>, layout: &GroupLayoutInfo, group: Option<&BoundGroup>) -> bool
    ensures { result ≡ layout_fits owner layout.now (option_copied group.entry) }
{
    if !has_entries(layout) {
        return true;
    }
    match info_set(group) {
        Some(known) => equivalent_for(owner, layout, known.layout_info.get()),
        None => false,
    }
}

/// The same of each layout.
fn layouts_fit(
    owner: Option<u64>,
    layouts: &[Shared<GroupLayoutInfo>],
    groups: &[Option<BoundGroup>],
) -> bool
    ensures { result ≡ layouts_fit owner layouts.now groups.now 0 }
{
    for (i, layout) in layouts.iter().enumerate() {
        if !layout_fits(owner, layout.get(), group_at(groups, i)) {
            return false;
        }
    }
    true
}

/// The number of the first unmet rule of the groups that are set, by index, where a pipeline with these
/// layouts runs (WebGPU, "Programmable Passes" and "Encoder bind groups alias a writable resource"); none
/// where it may run. `owner` is the number of the pipeline where it derived its layouts itself, and else
/// none: 341 asks that the layout of each group that has an entry is set with the same entries, and is
/// exclusive to the owner, or to none where there is no owner. 342 asks that no two bindings overlap that
/// one stage sees, where shaders may write one of them.
#[tactic(auto, unfolding(wg_model::specs::Bound::bound_rules))]
pub fn check_bound(
    layouts: &[Shared<GroupLayoutInfo>],
    groups: &[Option<BoundGroup>],
    owner: Option<u64>,
) -> Option<u16>
    ensures { result ≡ first_unmet (bound_rules owner layouts.now groups.now) }
{
    if !layouts_fit(owner, layouts, groups) {
        return Some(GROUPS_FIT_PIPELINE);
    }
    if !are_clear(layouts, groups) {
        return Some(WRITTEN_BINDINGS_ARE_APART);
    }
    None
}
