//! Lookups of bindings in a layout.
ghost use Rattle.std.specs.Prelude.{◌≡◌, true};
ghost use Rattle.wg_types.specs.Bindings.{entry_of};
ghost use Rattle.wg_layouts.specs.Ascending.{ascends_from};

use crate::distinct::are_ascending;
use std::marker::Model;
use wg_types::bindings::{LayoutEntry, entry_of};

/// The entries of a layout, in which bindings are looked up: in few steps where they ascend.
#[derive(Drop)]
pub struct Bindings<'a> {
    entries: &'a [LayoutEntry],
    ascends: bool,
}

impl<'a> Model for Bindings<'a> {
    ghost use Rattle.std.specs.Prelude.{◌≡◌, true, List};
    ghost use Rattle.wg_types.specs.declared.bindings.LayoutEntry.{LayoutEntry};
    ghost use Rattle.wg_layouts.specs.Ascending.{ascends_from};

    ghost Value = { List LayoutEntry };

    ghost view = { λ b. b.entries.now };

    ghost invariant = { λ b. b.ascends ≡ true → ascends_from 0 b.entries.now ≡ true };
}

/// The entry of a binding, among entries that ascend.
fn find_ascending(entries: &[LayoutEntry], binding: u32) -> Option<LayoutEntry>
    requires { ascends_from 0 entries.now ≡ true }
    ensures { result ≡ entry_of entries.now binding }
{
    let mut rest = entries;
    while !rest.is_empty() {
        let (before, from) = rest.split_at(rest.len() / 2);
        let Some((entry, after)) = from.split_first() else {
            return None;
        };
        if entry.binding == binding {
            return Some(*entry);
        }
        if entry.binding < binding {
            rest = after;
        } else {
            rest = before;
        }
    }
    None
}

impl<'a> Bindings<'a> {
    /// Looks at each entry once.
    pub fn new(entries: &'a [LayoutEntry]) -> Bindings<'a>
        ensures { result ≡ entries.now }
    {
        let ascends = are_ascending(entries);
        Bindings { entries, ascends }
    }

    /// All entries.
    pub fn entries(&self) -> &'a [LayoutEntry]
        ensures { result.now ≡ self.now }
    {
        self.entries
    }

    /// The entry of a binding, which is found at once if it stands at this place.
    #[tactic(auto, using(crate::proofs::Found::found_here))]
    pub fn find(&self, place: usize, binding: u32) -> Option<LayoutEntry>
        ensures { result ≡ entry_of self.now binding }
    {
        if !self.ascends {
            return entry_of(self.entries, binding);
        }
        if place < self.entries.len() && self.entries[place].binding == binding {
            return Some(self.entries[place]);
        }
        find_ascending(self.entries, binding)
    }
}
