//! What is known of groups and pipelines that are set, by how much what a group binds is moved, and the
//! rules of setBindGroup.
ghost use Rattle.std.specs.Prelude.{◌≡◌, ◌%◌, ◌==◌, Some, option_copied};
ghost use Rattle.std.specs.List.{list_all};
ghost use Rattle.wg_model.specs.Rules.{first_unmet};
ghost use Rattle.wg_model.specs.Automatic.{known_layouts};
ghost use Rattle.wg_model.specs.Bound.{group_in, known_group, layouts_in, is_automatic, owner_of, dynamics, dynamics_before, moved_by, entry_places, moved_range_fits, place_fits, offset_rules, set_rules, unset_rules};
ghost use Rattle.wg_layouts.specs.Places.{entries_places};

use crate::bindings::Bindings;
use crate::counts::is_dynamic;
use crate::places::place_of;
use wg_rules::{
    DYNAMIC_OFFSETS_ARE_ALIGNED, DYNAMIC_RANGES_FIT_BUFFERS, GROUP_INDEX_IS_WITHIN_LIMIT,
    OFFSET_COUNT_FITS_LAYOUT,
};
use wg_types::bindings::{BoundEntry, BoundResource, LayoutEntry};
use wg_types::groups::{GroupInfo, GroupLayoutInfo};
use wg_types::handles::{Handle, Info};
use wg_types::shared::Shared;

/// What is known of a group, if it is one.
pub fn group_in(info: &Info) -> Option<&GroupInfo>
    ensures { option_copied result ≡ group_in info.now }
{
    match info {
        Info::Group(group) => Some(group),
        _ => None,
    }
}

/// What a handle knows of a group, which of an invalid one is nothing.
pub fn known_group(handle: &Handle) -> Option<&GroupInfo>
    ensures { option_copied result ≡ known_group handle.now }
{
    if !handle.valid() {
        return None;
    }
    group_in(handle.info())
}

/// The layouts of the groups of a pipeline; none of what is no pipeline.
pub fn layouts_in(info: &Info) -> &[Shared<GroupLayoutInfo>]
    ensures { result.now ≡ layouts_in info.now }
{
    match info {
        Info::Compute(pipeline) => pipeline.layout_info.get().layouts_info.as_slice(),
        Info::Render(pipeline) => pipeline.layout_info.get().layouts_info.as_slice(),
        _ => &[],
    }
}

/// The same of what is known of an object; none where nothing is.
pub fn known_layouts(known: Option<&Info>) -> &[Shared<GroupLayoutInfo>]
    ensures { result.now ≡ known_layouts (option_copied known.entry) }
{
    match known {
        Some(info) => layouts_in(info),
        None => &[],
    }
}

/// Whether a pipeline derived its layouts itself; what is no pipeline did not.
pub fn is_automatic(info: &Info) -> bool
    ensures { result ≡ is_automatic info.now }
{
    match info {
        Info::Compute(pipeline) => pipeline.auto,
        Info::Render(pipeline) => pipeline.auto,
        _ => false,
    }
}

/// The pipeline, by its number, to which the layouts of a pipeline count as exclusive: itself, where it
/// derived them.
pub fn owner_of(handle: &Handle) -> Option<u64>
    ensures { result ≡ owner_of handle.now }
{
    if is_automatic(handle.info()) {
        return Some(handle.reference().number);
    }
    None
}

/// How many bindings take a dynamic offset.
fn dynamics(entries: &[LayoutEntry]) -> usize
    ensures { result ≡ dynamics entries.now }
{
    entries
        .iter()
        .filter(|entry| is_dynamic(entry.kind))
        .count()
}

/// How many of these have lesser numbers than this.
fn dynamics_before(entries: &[LayoutEntry], binding: u32) -> usize
    ensures { result ≡ dynamics_before entries.now binding }
{
    entries
        .iter()
        .filter(|entry| is_dynamic(entry.kind) && entry.binding < binding)
        .count()
}

/// By how much what is bound is moved: offsets are dealt out by ascending binding.
pub fn moved_by(layout: &[LayoutEntry], offsets: &[u32], asked: &LayoutEntry) -> u32
    ensures { result ≡ moved_by layout.now offsets.now asked.now }
{
    if !is_dynamic(asked.kind) {
        return 0;
    }
    let place = dynamics_before(layout, asked.binding);
    if place < offsets.len() {
        return offsets[place];
    }
    0
}

/// Whether a bound range, moved, fits its buffer.
fn range_fits(moved: u32, resource: &BoundResource) -> bool
    ensures { result ≡ moved_range_fits moved resource.now }
{
    match resource {
        BoundResource::Buffer {
            buffer_info,
            offset,
            size,
            ..
        } => {
            u128::from(*offset) + u128::from(moved) + u128::from(*size)
                <= u128::from(buffer_info.size)
        }
        BoundResource::View { .. } | BoundResource::Sampler { .. } => true,
    }
}

/// Whether what the entry at a place of a group binds fits.
fn entry_fits(layout: &Bindings, offsets: &[u32], at: usize, bound: &BoundEntry) -> bool
    ensures { result ≡ list_all place_fits (entry_places layout.now offsets.now bound.now) }
{
    match place_of(layout, offsets, at, bound) {
        Some(place) => range_fits(place.moved, place.resource),
        None => true,
    }
}

/// Whether what each entry of a group binds fits.
#[tactic(auto, using(crate::proofs::Joined::all_of_entries))]
fn entries_fit(layout: &Bindings, offsets: &[u32], entries: &[BoundEntry]) -> bool
    ensures { result ≡ list_all place_fits (entries_places layout.now offsets.now entries.now) }
{
    for (i, bound) in entries.iter().enumerate() {
        if !entry_fits(layout, offsets, i, bound) {
            return false;
        }
    }
    true
}

fn are_aligned(offsets: &[u32]) -> bool
    ensures { result ≡ list_all (λ offset. offset % 256 == 0) offsets.now }
{
    offsets.iter().all(|offset| offset % 256 == 0)
}

/// The first unmet rule of dynamic offsets.
fn check_offsets(group: &GroupInfo, offsets: &[u32]) -> Option<u16>
    ensures { result ≡ first_unmet (offset_rules (Some group.now) offsets.now) }
{
    let layout = group.layout_info.get().entries.get().as_slice();
    if offsets.len() != dynamics(layout) {
        return Some(OFFSET_COUNT_FITS_LAYOUT);
    }
    if !are_aligned(offsets) {
        return Some(DYNAMIC_OFFSETS_ARE_ALIGNED);
    }
    if !entries_fit(&Bindings::new(layout), offsets, group.entries.as_slice()) {
        return Some(DYNAMIC_RANGES_FIT_BUFFERS);
    }
    None
}

/// The number of the first unmet rule of setBindGroup with null (WebGPU, "setBindGroup"); none where that
/// may be set.
pub fn check_unset(index: u32, offsets: &[u32]) -> Option<u16>
    ensures { result ≡ first_unmet (unset_rules index offsets.now) }
{
    if index >= 4 {
        return Some(GROUP_INDEX_IS_WITHIN_LIMIT);
    }
    if !offsets.is_empty() {
        return Some(OFFSET_COUNT_FITS_LAYOUT);
    }
    None
}

/// The number of the first unmet rule of setBindGroup (WebGPU, "setBindGroup"); none where the group may
/// be set. Where it is not known to be a group its index alone is tested.
#[tactic(auto, unfolding(wg_model::specs::Bound::set_rules))]
pub fn check_set(index: u32, group: Option<&GroupInfo>, offsets: &[u32]) -> Option<u16>
    ensures { result ≡ first_unmet (set_rules index (option_copied group.entry) offsets.now) }
{
    if index >= 4 {
        return Some(GROUP_INDEX_IS_WITHIN_LIMIT);
    }
    match group {
        Some(group) => check_offsets(group, offsets),
        None => None,
    }
}
