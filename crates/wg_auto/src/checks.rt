//! The rules of pipelines whose layout is derived.
ghost use Rattle.std.specs.Prelude.{◌≡◌, List};
ghost use Rattle.std.specs.List.{list_all};
ghost use Rattle.wg_types.specs.declared.bindings.IfaceEntry.{IfaceEntry};
ghost use Rattle.wg_types.specs.declared.groups.GroupLayoutInfo.{GroupLayoutInfo as Layout};
ghost use Rattle.wg_model.specs.Rules.{first_unmet};
ghost use Rattle.wg_model.specs.Automatic.{entries_meet, together_meet, layouts_meet, automatic_rules};
ghost use Rattle.wg_auto.specs.Merged.{IsMerged};

use crate::merging::Merged;
use wg_layouts::{check_group_layout, check_together};
use wg_rules::{AUTO_INTERFACE_AGREES, DERIVED_LAYOUTS_ARE_ALLOWED};
use wg_types::bindings::LayoutEntry;
use wg_types::groups::GroupLayoutInfo;
use wg_types::limits::Limits;
use wg_types::shared::Shared;

/// Whether a layout with these entries may be made.
#[tactic(auto, unfolding(wg_model::specs::Automatic::entries_meet))]
fn entries_meet(entries: &[LayoutEntry], limits: &Limits) -> bool
    ensures { result ≡ entries_meet limits.now entries.now }
{
    check_group_layout(entries, limits).is_none()
}

/// Whether layouts may be those of a pipeline together.
#[tactic(auto, unfolding(wg_model::specs::Automatic::together_meet))]
fn together_meet(layouts: &[Shared<GroupLayoutInfo>], limits: &Limits) -> bool
    ensures { result ≡ together_meet limits.now layouts.now }
{
    check_together(layouts, limits).is_none()
}

/// Whether each layout may be made.
fn all_meet(layouts: &[Shared<GroupLayoutInfo>], limits: &Limits) -> bool
    ensures { result ≡ list_all (λ (layout : Layout). entries_meet limits.now layout.entries) layouts.now }
{
    for layout in layouts {
        if !entries_meet(layout.get().entries.get().as_slice(), limits) {
            return false;
        }
    }
    true
}

/// Whether each of some layouts may be made, and they may be those of a pipeline.
fn layouts_meet(layouts: &[Shared<GroupLayoutInfo>], limits: &Limits) -> bool
    ensures { result ≡ layouts_meet limits.now layouts.now }
{
    all_meet(layouts, limits) && together_meet(layouts, limits)
}

/// The number of the first unmet rule of a pipeline that derives its layout, on a device of these limits, of
/// those that say whether it can (WebGPU, "Default pipeline layout"), by what merging what its shaders use
/// answers: 167 they use no binding as different kinds, and 168 they name groups that may be set, and the
/// layouts that are derived may be made and be those of a pipeline; none where it can.
pub fn check_automatic(merged: &Merged, limits: &Limits) -> Option<u16>
    ensures { (iface : List IfaceEntry) → IsMerged iface merged.now → result ≡ first_unmet (automatic_rules limits.now iface) }
{
    match merged {
        Merged::Clash { .. } => Some(AUTO_INTERFACE_AGREES),
        Merged::TooMany => Some(DERIVED_LAYOUTS_ARE_ALLOWED),
        Merged::Layouts(layouts) => {
            if !layouts_meet(layouts.as_slice(), limits) {
                return Some(DERIVED_LAYOUTS_ARE_ALLOWED);
            }
            None
        }
    }
}
