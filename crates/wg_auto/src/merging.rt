//! The layouts of all groups.
ghost use Rattle.std.specs.Prelude.{◌≡◌, ◌≤◌, IfOk, true, List};
ghost use Rattle.wg_types.specs.declared.bindings.IfaceEntry.{IfaceEntry};
ghost use Rattle.wg_model.specs.Automatic.{groups_fit, layouts_below, automatic_layouts};
ghost use Rattle.wg_auto.specs.Walks.{in_order, layout_from, SameUses};
ghost use Rattle.wg_auto.specs.Merged.{IsMerged};

use crate::entries::{group_count, group_entries};
use crate::order::{arranged, first_clash};
use std::alloc::Global;
use wg_types::NoMemory;
use wg_types::bindings::IfaceEntry;
use wg_types::groups::GroupLayoutInfo;
use wg_types::items::Items;
use wg_types::shared::Shared;

/// What is derived from what shaders use.
#[derive(Drop)]
pub enum Merged {
    /// They use this binding of this group as different kinds, and none that comes before it.
    Clash { group: u32, binding: u32 },
    /// They name a group that cannot be set.
    TooMany,
    /// The layout of each group.
    Layouts(Items<Shared<GroupLayoutInfo>>),
}

/// How many bind groups may be set.
const MOST_GROUPS: u32 = 4;

/// Whether each group that is named may be set.
fn groups_fit(iface: &[IfaceEntry]) -> bool
    ensures { result ≡ groups_fit iface.now }
{
    iface.iter().all(|used| used.group < MOST_GROUPS)
}

/// The layout of a group, of uses in the order of their places.
fn group_layout(
    alloc: Global,
    uses: &[IfaceEntry],
    group: u32,
) -> Result<Shared<GroupLayoutInfo>, NoMemory>
    ensures { IfOk result (λ layout. layout ≡ layout_from group uses.now) }
{
    let entries = Shared::new(alloc, group_entries(alloc, uses, group)?)?;
    let layout = GroupLayoutInfo {
        entries,
        exclusive: None,
        pipeline: None,
    };
    Shared::new(alloc, layout)
}

/// The layouts of the first groups.
fn layouts_below(
    alloc: Global,
    uses: &[IfaceEntry],
    count: u64,
) -> Result<Items<Shared<GroupLayoutInfo>>, NoMemory>
    requires few { count ≤ 4 }
    requires ordered { in_order uses.now ≡ true }
    ensures { (iface : List IfaceEntry) → SameUses uses.now iface → IfOk result (λ layouts. layouts ≡ layouts_below iface count) }
{
    let mut layouts = Items::new(alloc);
    for group in 0..count {
        layouts.push(group_layout(alloc, uses, group as u32)?)?;
    }
    Ok(layouts)
}

/// The least layouts that have all that shaders use (WebGPU, "Default pipeline layout"): one for each
/// group up to the greatest that is named, with an entry for each binding that is named in it, which just
/// the stages see that use it. It takes time that grows with n log n in the uses.
pub fn merge(alloc: Global, iface: &[IfaceEntry]) -> Result<Merged, NoMemory>
    ensures { IfOk result (IsMerged iface.now) }
{
    let uses = arranged(alloc, iface)?;
    if let Some((group, binding)) = first_clash(&uses) {
        return Ok(Merged::Clash { group, binding });
    }
    if !groups_fit(iface) {
        return Ok(Merged::TooMany);
    }
    let layouts = layouts_below(alloc, &uses, group_count(iface))?;
    Ok(Merged::Layouts(layouts))
}

/// The layouts that a pipeline derives from what its shaders use, also where it cannot be made: there are
/// none where they use a binding as different kinds, and none where they name a group that cannot be set.
pub fn automatic_layouts(
    alloc: Global,
    iface: &[IfaceEntry],
) -> Result<Items<Shared<GroupLayoutInfo>>, NoMemory>
    ensures { IfOk result (λ layouts. layouts ≡ automatic_layouts iface.now) }
{
    match merge(alloc, iface)? {
        Merged::Layouts(layouts) => Ok(layouts),
        Merged::Clash { .. } | Merged::TooMany => Ok(Items::new(alloc)),
    }
}
