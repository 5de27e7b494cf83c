//! What shaders use, and what the layouts of their pipelines have.
ghost use Rattle.std.specs.Prelude.{◌≡◌};
ghost use Rattle.std.specs.List.{list_all};
ghost use Rattle.wg_model.specs.Pipelines.{serves, offers};

use wg_formats::{same_use, stage_bit};
use wg_types::bindings::{IfaceEntry, LayoutEntry, entry_of};
use wg_types::groups::GroupLayoutInfo;
use wg_types::shared::Shared;

/// Whether an entry of a layout is what a shader uses.
fn serves(used: &IfaceEntry, entry: LayoutEntry) -> bool
    ensures { result ≡ serves used.now entry }
{
    entry.visibility & stage_bit(used.stage) != 0 && same_use(entry.kind, used.kind)
}

/// Whether the layout of its group has what a shader uses.
fn offers(layouts: &[Shared<GroupLayoutInfo>], used: &IfaceEntry) -> bool
    ensures { result ≡ offers layouts.now used.now }
{
    let Some(layout) = layouts.get(used.group as usize) else {
        return false;
    };
    let Some(entry) = entry_of(layout.get().entries.get().as_slice(), used.binding) else {
        return false;
    };
    serves(used, entry)
}

/// Whether the layouts of their groups have all that shaders use.
pub fn offer_all(layouts: &[Shared<GroupLayoutInfo>], iface: &[IfaceEntry]) -> bool
    ensures { result ≡ list_all (offers layouts.now) iface.now }
{
    iface.iter().all(|used| offers(layouts, used))
}
