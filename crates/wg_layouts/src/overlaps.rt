//! Whether bindings overlap that one stage sees, where shaders may write one of them.
ghost use Rattle.std.specs.Prelude.{◌≡◌, ◌+◌, option_copied};
ghost use Rattle.std.specs.List.{list_any};
ghost use Rattle.wg_model.specs.Subresources.{ranges_meet};
ghost use Rattle.wg_model.specs.Bound.{entry_places, index_places, layouts_places, resources_meet, overlap, are_clear};
ghost use Rattle.wg_layouts.specs.Places.{set_places_from, places_behind, places_after, AreClearBefore};

use crate::entries::may_write;
use crate::places::{Place, SetGroup, group_at, has_entries, place_of, set_group};
use crate::setting::moved_by;
use wg_subres::views_meet;
use wg_types::bindings::{BoundEntry, BoundResource};
use wg_types::commands::BoundGroup;
use wg_types::groups::GroupLayoutInfo;
use wg_types::shared::Shared;

/// The groups at the indexes from one on, with the layouts of the pipeline.
#[derive(Clone, Copy)]
pub struct Behind<'a> {
    pub layouts: &'a [Shared<GroupLayoutInfo>],
    pub groups: &'a [Option<BoundGroup>],
    pub from: usize,
}

/// Whether two ranges have a byte in common.
fn ranges_meet(a: (u128, u128), b: (u128, u128)) -> bool
    ensures { result ≡ ranges_meet a.0 a.1 b.0 b.1 }
{
    a.0.max(b.0) < a.1.min(b.1)
}

/// A bound range, moved.
fn moved_range(offset: u64, moved: u32, size: u64) -> (u128, u128)
    ensures lo { result.0 ≡ offset + moved }
    ensures hi { result.1 ≡ offset + moved + size }
{
    let lo = u128::from(offset) + u128::from(moved);
    (lo, lo + u128::from(size))
}

/// Whether two bound resources have a byte or a subresource in common, each moved.
fn resources_meet(moved: u32, a: &BoundResource, moved_b: u32, b: &BoundResource) -> bool
    ensures { result ≡ resources_meet moved a.now moved_b b.now }
{
    match (a, b) {
        (
            BoundResource::Buffer {
                buffer,
                offset,
                size,
                ..
            },
            BoundResource::Buffer {
                buffer: buffer_b,
                offset: offset_b,
                size: size_b,
                ..
            },
        ) => {
            buffer.number == buffer_b.number
                && ranges_meet(
                    moved_range(*offset, moved, *size),
                    moved_range(*offset_b, moved_b, *size_b),
                )
        }
        (
            BoundResource::View { view_info, .. },
            BoundResource::View {
                view_info: view_info_b,
                ..
            },
        ) => views_meet(view_info, view_info_b),
        _ => false,
    }
}

/// Whether a place overlaps what the entry at a place of a group binds.
fn overlaps_entry(place: &Place, set: &SetGroup, at: usize, bound: &BoundEntry) -> bool
    ensures { result ≡ list_any (overlap place.now) (entry_places set.now.layout set.now.offsets.now bound.now) }
{
    let Some(asked) = set.layout.find(at, bound.binding) else {
        return false;
    };
    if place.asked.visibility & asked.visibility == 0 {
        return false;
    }
    if !may_write(place.asked.kind) && !may_write(asked.kind) {
        return false;
    }
    let moved = moved_by(set.layout.entries(), set.offsets, &asked);
    resources_meet(place.moved, place.resource, moved, &bound.resource)
}

/// Whether a place overlaps what the entries of a group bind from one on.
#[tactic(auto, using(crate::proofs::Joined::any_of_entries))]
fn overlaps_entries(place: &Place, set: &SetGroup, from: usize) -> bool
    ensures { result ≡ list_any (overlap place.now) (set_places_from set.now from) }
{
    for i in from..set.entries.len() {
        if overlaps_entry(place, set, i, &set.entries[i]) {
            return true;
        }
    }
    false
}

/// Whether a place overlaps what the group binds that is set for a layout.
fn overlaps_group(place: &Place, layout: &GroupLayoutInfo, group: Option<&BoundGroup>) -> bool
    ensures { result ≡ list_any (overlap place.now) (index_places layout.now (option_copied group.entry)) }
{
    if !has_entries(layout) {
        return false;
    }
    match set_group(group) {
        Some(set) => overlaps_entries(place, &set, 0),
        None => false,
    }
}

/// Whether a place overlaps what the groups behind its own bind.
#[tactic(auto, using(crate::proofs::Joined::any_of_layouts))]
fn overlaps_behind(place: &Place, behind: &Behind) -> bool
    ensures { result ≡ list_any (overlap place.now) (places_behind behind.now) }
{
    for i in behind.from..behind.layouts.len() {
        let group = group_at(behind.groups, i);
        if overlaps_group(place, behind.layouts[i].get(), group) {
            return true;
        }
    }
    false
}

/// Whether what an entry of a group binds overlaps nothing that comes after it, as where no stage sees
/// it. The next entry stands at `next`.
#[tactic(auto, using(crate::proofs::Clear::first_clear, crate::proofs::Clear::unseen_clear))]
fn entry_is_clear(set: &SetGroup, bound: &BoundEntry, next: usize, behind: &Behind) -> bool
    ensures { AreClearBefore (entry_places set.now.layout set.now.offsets.now bound.now) (places_after set.now next behind.now) result }
{
    let at = next.saturating_sub(1);
    let Some(place) = place_of(&set.layout, set.offsets, at, bound) else {
        return true;
    };
    if place.asked.visibility == 0 {
        return true;
    }
    !overlaps_entries(&place, set, next) && !overlaps_behind(&place, behind)
}

/// Whether nothing that a group binds overlaps what comes after it.
#[tactic(auto, using(crate::proofs::Clear::places_parted))]
fn entries_are_clear(set: &SetGroup, behind: &Behind) -> bool
    ensures { AreClearBefore (set_places_from set.now 0) (places_behind behind.now) result }
{
    for (i, bound) in set.entries.iter().enumerate() {
        if !entry_is_clear(set, bound, i + 1, behind) {
            return false;
        }
    }
    true
}

/// The same of the group that is set for a layout.
fn group_is_clear(layout: &GroupLayoutInfo, group: Option<&BoundGroup>, behind: &Behind) -> bool
    ensures { AreClearBefore (index_places layout.now (option_copied group.entry)) (places_behind behind.now) result }
{
    if !has_entries(layout) {
        return true;
    }
    match set_group(group) {
        Some(set) => entries_are_clear(&set, behind),
        None => true,
    }
}

/// Whether no two bindings of the groups overlap, where the layouts have an entry.
pub fn are_clear(layouts: &[Shared<GroupLayoutInfo>], groups: &[Option<BoundGroup>]) -> bool
    ensures { result ≡ are_clear (layouts_places layouts.now groups.now 0) }
{
    for (i, layout) in layouts.iter().enumerate() {
        let behind = Behind {
            layouts,
            groups,
            from: i + 1,
        };
        if !group_is_clear(layout.get(), group_at(groups, i), &behind) {
            return false;
        }
    }
    true
}
