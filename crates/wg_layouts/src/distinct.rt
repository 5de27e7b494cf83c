//! Whether the bindings of a layout are distinct.
ghost use Rattle.std.specs.Prelude.{◌≡◌, ◌==◌};
ghost use Rattle.std.specs.List.{list_any};
ghost use Rattle.wg_types.specs.declared.bindings.LayoutEntry.{LayoutEntry};
ghost use Rattle.wg_model.specs.Layouts.{bindings_are_distinct};
ghost use Rattle.wg_layouts.specs.Ascending.{ascends_from};

use wg_types::bindings::LayoutEntry;

/// Whether an entry is of a binding.
fn has(entries: &[LayoutEntry], binding: u32) -> bool
    ensures { result ≡ list_any (λ (other : LayoutEntry). other.binding == binding) entries.now }
{
    entries.iter().any(|other| other.binding == binding)
}

/// Whether no two entries are of one binding, by comparing each two.
fn are_apart(entries: &[LayoutEntry]) -> bool
    ensures { result ≡ bindings_are_distinct entries.now }
{
    for (i, entry) in entries.iter().enumerate() {
        if has(&entries[i + 1..], entry.binding) {
            return false;
        }
    }
    true
}

/// Whether each binding is above the one before it.
pub fn are_ascending(entries: &[LayoutEntry]) -> bool
    ensures { result ≡ ascends_from 0 entries.now }
{
    let mut least = 0;
    for entry in entries {
        if u64::from(entry.binding) < least {
            return false;
        }
        least = u64::from(entry.binding) + 1;
    }
    true
}

/// Whether no two entries are of one binding, as those that ascend are.
#[tactic(auto, using(crate::proofs::Apart::ascending_apart))]
pub fn are_distinct(entries: &[LayoutEntry]) -> bool
    ensures { result ≡ bindings_are_distinct entries.now }
{
    are_ascending(entries) || are_apart(entries)
}
