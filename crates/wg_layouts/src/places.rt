//! What the groups that are set bind.
ghost use Rattle.std.specs.Prelude.{◌≡◌, [], Some, None, option_copied, slice_index_or, MatchOption};
ghost use Rattle.std.specs.Option.{option_to_list};
ghost use Rattle.wg_model.specs.Bound.{entry_places, has_entries, info_set, set_places};
ghost use Rattle.wg_layouts.specs.Places.{entries_places};

use crate::bindings::Bindings;
use crate::setting::{known_group, moved_by};
use std::marker::Model;
use wg_types::bindings::{BoundEntry, BoundResource, LayoutEntry};
use wg_types::commands::BoundGroup;
use wg_types::groups::{GroupInfo, GroupLayoutInfo};

/// What an entry of a group binds: what its layout asks for, by how much it is moved, and the resource.
#[derive(Drop)]
pub struct Place<'a> {
    pub asked: LayoutEntry,
    pub moved: u32,
    pub resource: &'a BoundResource,
}

impl<'a> Model for Place<'a> {
    ghost use Rattle.wg_model.specs.Bound.{Place};

    ghost Value = { Place };

    ghost view = { λ p. record { asked = p.asked; moved = p.moved; resource = p.resource.now } };
}

/// A group that is set: the entries of its layout, its dynamic offsets, and its own entries.
#[derive(Drop)]
pub struct SetGroup<'a> {
    pub layout: Bindings<'a>,
    pub offsets: &'a [u32],
    pub entries: &'a [BoundEntry],
}

/// What is known of the group that is set, if one is.
pub fn info_set(group: Option<&BoundGroup>) -> Option<&GroupInfo>
    ensures { option_copied result ≡ info_set (option_copied group.entry) }
{
    match group {
        Some(bound) => known_group(&bound.group),
        None => None,
    }
}

/// What a group binds, if it is one.
fn entries_set(bound: &BoundGroup) -> Option<SetGroup>
    ensures { MatchOption result (set_places (Some bound.now) ≡ []) (λ set. set_places (Some bound.now) ≡ entries_places set.layout set.offsets.now set.entries.now) }
{
    match known_group(&bound.group) {
        Some(info) => Some(SetGroup {
            layout: Bindings::new(info.layout_info.get().entries.get().as_slice()),
            offsets: bound.offsets.get().as_slice(),
            entries: info.entries.as_slice(),
        }),
        None => None,
    }
}

/// What the group binds that is set, if one is.
pub fn set_group(group: Option<&BoundGroup>) -> Option<SetGroup>
    ensures { MatchOption result (set_places (option_copied group.entry) ≡ []) (λ set. set_places (option_copied group.entry) ≡ entries_places set.layout set.offsets.now set.entries.now) }
{
    match group {
        Some(bound) => entries_set(bound),
        None => None,
    }
}

/// What the entry at this place of a group binds, if its layout has the binding.
pub fn place_of<'a>(
    layout: &Bindings,
    offsets: &[u32],
    at: usize,
    bound: &'a BoundEntry,
) -> Option<Place<'a>>
    ensures { option_to_list result ≡ entry_places layout.now offsets.now bound.now }
{
    let asked = layout.find(at, bound.binding)?;
    Some(Place {
        asked,
        moved: moved_by(layout.entries(), offsets, &asked),
        resource: &bound.resource,
    })
}

/// The group at an index, if one is set there.
pub fn group_at(groups: &[Option<BoundGroup>], index: usize) -> Option<&BoundGroup>
    ensures { option_copied result ≡ slice_index_or groups.now index None }
{
    if index >= groups.len() {
        return None;
    }
    groups[index].as_ref()
}

/// Whether a layout has an entry.
pub fn has_entries(layout: &GroupLayoutInfo) -> bool
    ensures { result ≡ has_entries layout.now }
{
    !layout.entries.get().as_slice().is_empty()
}
