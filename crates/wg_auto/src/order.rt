//! Uses in the order of their places.
ghost use Rattle.std.specs.Prelude.{◌≡◌, IfOk, true, if◌then◌else◌};
ghost use Rattle.wg_auto.specs.Walks.{use_before, is_clash, clashes_with_next, first_clash, in_order, SameUses};

use std::alloc::Global;
use std::cmp::Ordering;
use wg_formats::same_use;
use wg_types::NoMemory;
use wg_types::bindings::IfaceEntry;

/// The order of two uses, by the group and then by the binding.
fn by_place(a: &IfaceEntry, b: &IfaceEntry) -> Ordering
    ensures { result ≡ (if use_before a.now b.now then Ordering.Less else (if use_before b.now a.now then Ordering.Greater else Ordering.Equal)) }
{
    a.group.cmp(&b.group).then(a.binding.cmp(&b.binding))
}

/// The uses in the order of their places, and of one place in the order in which they stood.
pub fn arranged(alloc: Global, iface: &[IfaceEntry]) -> Result<Vec<IfaceEntry>, NoMemory>
    ensures in_order { IfOk result (λ uses. in_order uses.items ≡ true) }
    ensures same { IfOk result (λ uses. SameUses uses.items iface.now) }
{
    let mut uses = Vec::from_slice(alloc, iface)?;
    uses.sort_by(|a, b| by_place(a, b))?;
    Ok(uses)
}

/// Whether a use is of the same place as the next and of another kind.
fn is_clash(used: &IfaceEntry, next: &IfaceEntry) -> bool
    ensures { result ≡ is_clash used.now next.now }
{
    used.group == next.group && used.binding == next.binding && !same_use(used.kind, next.kind)
}

/// Whether a use clashes so with the one behind it, if there is one.
fn clashes_with_next(used: &IfaceEntry, uses: &[IfaceEntry]) -> bool
    ensures { result ≡ clashes_with_next used.now uses.now }
{
    uses.first().is_some_and(|next| is_clash(used, next))
}

/// The place of the first use of which the next is of the same place and of another kind.
pub fn first_clash(uses: &[IfaceEntry]) -> Option<(u32, u32)>
    ensures { result ≡ first_clash uses.now }
{
    for (i, used) in uses.iter().enumerate() {
        if clashes_with_next(used, &uses[i + 1..]) {
            return Some((used.group, used.binding));
        }
    }
    None
}
