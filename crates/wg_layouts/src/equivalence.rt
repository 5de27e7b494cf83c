//! When two bind group layouts are equivalent.
ghost use Rattle.std.specs.Prelude.{◌≡◌, ◌∷◌, [], MatchOption};
ghost use Rattle.std.specs.List.{list_all};
ghost use Rattle.wg_types.specs.declared.bindings.LayoutEntry.{LayoutEntry};
ghost use Rattle.wg_model.specs.Equality.{same_list, same_layout_entry, of_binding, equivalent, same_owner, equivalent_for, equivalent_layouts};

use wg_formats::same_binding_kind;
use wg_types::bindings::LayoutEntry;
use wg_types::groups::GroupLayoutInfo;

fn same_entry(a: &LayoutEntry, b: &LayoutEntry) -> bool
    ensures { result ≡ same_layout_entry a.now b.now }
{
    a.binding == b.binding && a.visibility == b.visibility && same_binding_kind(a.kind, b.kind)
}

/// The first entry of a binding, and those after it.
fn split_at(entries: &[LayoutEntry], binding: u32) -> Option<(LayoutEntry, &[LayoutEntry])>
    ensures { MatchOption result (of_binding binding entries.now ≡ []) (λ found. of_binding binding entries.now ≡ found.0 ∷ of_binding binding found.1.now) }
{
    for (i, entry) in entries.iter().enumerate() {
        if entry.binding == binding {
            return Some((*entry, &entries[i + 1..]));
        }
    }
    None
}

/// Whether two layouts have the same entries of a binding.
fn same_of(a: &[LayoutEntry], b: &[LayoutEntry], binding: u32) -> bool
    ensures { result ≡ same_list same_layout_entry (of_binding binding a.now) (of_binding binding b.now) }
{
    let mut rest = b;
    for entry in a {
        if entry.binding == binding {
            let Some((other, after)) = split_at(rest, binding) else {
                return false;
            };
            if !same_entry(entry, &other) {
                return false;
            }
            rest = after;
        }
    }
    split_at(rest, binding).is_none()
}

/// Whether two layouts have the same entries of each binding of the first.
fn same_of_each(a: &[LayoutEntry], b: &[LayoutEntry]) -> bool
    ensures { result ≡ list_all (λ (entry : LayoutEntry). same_list same_layout_entry (of_binding entry.binding a.now) (of_binding entry.binding b.now)) a.now }
{
    for entry in a {
        if !same_of(a, b, entry.binding) {
            return false;
        }
    }
    true
}

/// Whether two layouts have the same entries in the same order.
fn same_entries(a: &[LayoutEntry], b: &[LayoutEntry]) -> bool
    ensures { result ≡ same_list same_layout_entry a.now b.now }
{
    let mut rest = b;
    for entry in a {
        let Some((other, after)) = rest.split_first() else {
            return false;
        };
        if !same_entry(entry, other) {
            return false;
        }
        rest = after;
    }
    rest.is_empty()
}

/// Whether two lists have the same entries, in whatever order their bindings are. It takes time linear in
/// the entries where they are in the same order.
#[tactic(auto, using(crate::proofs::InOrder::equivalent_in_order))]
fn have_same(a: &[LayoutEntry], b: &[LayoutEntry]) -> bool
    ensures { result ≡ equivalent a.now b.now }
{
    same_entries(a, b) || a.len() == b.len() && same_of_each(a, b)
}

/// Whether two are exclusive to the same pipeline, by its number, or neither is.
fn same_owner(a: Option<u64>, b: Option<u64>) -> bool
    ensures { result ≡ same_owner a b }
{
    match (a, b) {
        (None, None) => true,
        (Some(a), Some(b)) => a == b,
        _ => false,
    }
}

/// Whether a layout that counts as exclusive to this pipeline, by its number, or to none, is equivalent to
/// one that is set.
pub fn equivalent_for(owner: Option<u64>, layout: &GroupLayoutInfo, set: &GroupLayoutInfo) -> bool
    ensures { result ≡ equivalent_for owner layout.now set.now }
{
    same_owner(owner, set.exclusive)
        && have_same(
            layout.entries.get().as_slice(),
            set.entries.get().as_slice(),
        )
}

/// Whether two layouts are exclusive to the same pipeline, or to none, and have the same entries, in
/// whatever order their bindings are (WebGPU, "group-equivalent"). It takes time linear in the entries
/// where they are in the same order.
pub fn equivalent(a: &GroupLayoutInfo, b: &GroupLayoutInfo) -> bool
    ensures { result ≡ equivalent_layouts a.now b.now }
{
    equivalent_for(a.exclusive, a, b)
}
