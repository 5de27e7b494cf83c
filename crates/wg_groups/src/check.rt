//! The rules of new bind groups.
ghost use Rattle.std.specs.Prelude.{◌≡◌, ◌==◌, count_by, is_some};
ghost use Rattle.std.specs.List.{list_all, zip};
ghost use Rattle.wg_types.specs.declared.bindings.LayoutEntry.{LayoutEntry as Asked};
ghost use Rattle.wg_types.specs.declared.bindings.BoundEntry.{BoundEntry as Bound};
ghost use Rattle.wg_types.specs.Bindings.{entry_of};
ghost use Rattle.wg_model.specs.Groups.{are_matched, each_fits, group_rules};
ghost use Rattle.wg_model.specs.Rules.{first_unmet};
ghost use Rattle.wg_groups.specs.Tests.{passes, aligned_from};

use crate::fits::{Test, passes};
use wg_rules::{
    BOUND_BUFFER_USAGE_FITS, BOUND_RANGES_FIT_BUFFERS, BOUND_SAMPLERS_FIT,
    BOUND_SIZES_ARE_WITHIN_LIMITS, BOUND_STORAGE_VIEWS_FIT, BOUND_TEXTURE_VIEWS_FIT,
    ENTRIES_MATCH_LAYOUT, ENTRY_RESOURCES_FIT_LAYOUT,
};
use wg_types::bindings::{BoundEntry, LayoutEntry, entry_of};
use wg_types::groups::GroupLayoutInfo;
use wg_types::limits::Limits;

/// How many entries are of a binding.
fn count_of(entries: &[BoundEntry], binding: u32) -> usize
    ensures { result ≡ count_by (λ entry. entry.binding == binding) entries.now }
{
    entries
        .iter()
        .filter(|entry| entry.binding == binding)
        .count()
}

/// Whether the entries name each binding of a layout once.
fn each_is_named_once(layout: &[LayoutEntry], entries: &[BoundEntry]) -> bool
    ensures { result ≡ list_all (λ (asked : Asked). count_by (λ (entry : Bound). entry.binding == asked.binding) entries.now == 1) layout.now }
{
    layout
        .iter()
        .all(|asked| count_of(entries, asked.binding) == 1)
}

/// Whether the entries name no other binding than those of a layout.
fn each_is_asked(layout: &[LayoutEntry], entries: &[BoundEntry]) -> bool
    ensures { result ≡ list_all (λ (entry : Bound). is_some (entry_of layout.now entry.binding)) entries.now }
{
    entries
        .iter()
        .all(|entry| entry_of(layout, entry.binding).is_some())
}

/// Whether the entries name the bindings of a layout in its order, and these ascend, so that no binding
/// has to be looked up.
fn are_aligned(layout: &[LayoutEntry], entries: &[BoundEntry]) -> bool
    ensures { result ≡ aligned_from 0 layout.now entries.now }
{
    let mut least = 0;
    let mut rest = entries;
    for asked in layout {
        let Some((entry, after)) = rest.split_first() else {
            return false;
        };
        if u64::from(asked.binding) < least || asked.binding != entry.binding {
            return false;
        }
        least = u64::from(asked.binding) + 1;
        rest = after;
    }
    rest.is_empty()
}

/// Whether the entries name each binding of a layout once, and no other.
#[tactic(auto, using(crate::proofs::Aligned::aligned_matched))]
fn are_matched(layout: &[LayoutEntry], entries: &[BoundEntry], aligned: bool) -> bool
    requires { aligned ≡ aligned_from 0 layout.now entries.now }
    ensures { result ≡ are_matched layout.now entries.now }
{
    aligned || each_is_named_once(layout, entries) && each_is_asked(layout, entries)
}

/// Whether each entry passes a test of what the layout has in its place.
fn all_pass_in_place(
    test: Test,
    limits: &Limits,
    layout: &[LayoutEntry],
    entries: &[BoundEntry],
) -> bool
    ensures { result ≡ list_all (λ (pair : Asked × Bound). passes test limits.now pair.0.kind pair.1.resource) (zip layout.now entries.now) }
{
    layout
        .iter()
        .zip(entries)
        .all(|(asked, entry)| passes(test, limits, asked, entry))
}

/// Whether each entry that is asked for passes a test of what is asked.
#[tactic(auto, using(crate::proofs::Aligned::fits_in_place))]
fn all_pass(
    test: Test,
    limits: &Limits,
    layout: &[LayoutEntry],
    entries: &[BoundEntry],
    aligned: bool,
) -> bool
    requires { aligned ≡ aligned_from 0 layout.now entries.now }
    ensures { result ≡ each_fits (passes test limits.now) layout.now entries.now }
{
    if aligned {
        return all_pass_in_place(test, limits, layout, entries);
    }
    entries.iter().all(|entry| {
        entry_of(layout, entry.binding).is_none_or(|asked| passes(test, limits, &asked, entry))
    })
}

/// The first unmet rule of a bind group with a layout of these entries.
fn check_entries(layout: &[LayoutEntry], entries: &[BoundEntry], limits: &Limits) -> Option<u16>
    ensures { result ≡ first_unmet (group_rules limits.now layout.now entries.now) }
{
    let aligned = are_aligned(layout, entries);
    if !are_matched(layout, entries, aligned) {
        return Some(ENTRIES_MATCH_LAYOUT);
    }
    if !all_pass(Test::Sort, limits, layout, entries, aligned) {
        return Some(ENTRY_RESOURCES_FIT_LAYOUT);
    }
    if !all_pass(Test::Usage, limits, layout, entries, aligned) {
        return Some(BOUND_BUFFER_USAGE_FITS);
    }
    if !all_pass(Test::Range, limits, layout, entries, aligned) {
        return Some(BOUND_RANGES_FIT_BUFFERS);
    }
    if !all_pass(Test::Size, limits, layout, entries, aligned) {
        return Some(BOUND_SIZES_ARE_WITHIN_LIMITS);
    }
    if !all_pass(Test::View, limits, layout, entries, aligned) {
        return Some(BOUND_TEXTURE_VIEWS_FIT);
    }
    if !all_pass(Test::StorageView, limits, layout, entries, aligned) {
        return Some(BOUND_STORAGE_VIEWS_FIT);
    }
    if !all_pass(Test::Sampler, limits, layout, entries, aligned) {
        return Some(BOUND_SAMPLERS_FIT);
    }
    None
}

/// The number of the first unmet rule of createBindGroup (WebGPU, "Bind Group Creation"), of those that
/// the layout, the entries and the limits tell; none where the group may be made. It takes time linear
/// in the entries where the bindings of the layout ascend and the entries name them in the same order.
pub fn check_group(layout: &GroupLayoutInfo, entries: &[BoundEntry], limits: &Limits) -> Option<u16>
    ensures { result ≡ first_unmet (group_rules limits.now layout.now.entries entries.now) }
{
    check_entries(layout.entries.get().as_slice(), entries, limits)
}
