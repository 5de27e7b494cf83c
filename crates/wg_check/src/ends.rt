//! The ends of runs in printed order, and the segments between them.
ghost use Rattle.std.specs.Prelude.{◌≡◌, None, IfOk, OnOk, map};
ghost use Rattle.std.specs.List.Sorted.{IsSortedBy, IsPermutation};
ghost use Rattle.wg_check.specs.Segments.{before, rank, ranked, EndsIn};
ghost use Rattle.wg_check.specs.Ends.{ends_of, apart_from, Ascending};

use crate::NoMemory;
use crate::events::{CellDeed, KeyEvent};
use crate::keys::{Key, by_place};
use std::alloc::Global;

/// A deed, and the segments of its run, from `lo` up to but not including `hi`.
#[derive(Clone, Copy)]
pub struct SegmentEvent {
    pub lo: usize,
    pub hi: usize,
    pub deed: CellDeed,
}

/// The ends of all runs, as they come.
fn ends_of(alloc: Global, events: &[KeyEvent]) -> Result<Vec<Key>, NoMemory>
    ensures { IfOk result (λ ends. ends.items ≡ ends_of events.now) }
{
    let mut ends = Vec::new(alloc);
    for event in events {
        ends.push(event.lo)?;
        ends.push(event.hi)?;
    }
    Ok(ends)
}

/// Of keys in order each one once.
fn apart(alloc: Global, keys: &[Key]) -> Result<Vec<Key>, NoMemory>
    ensures { IfOk result (λ ends. ends.items ≡ apart_from None keys.now) }
{
    let mut ends = Vec::new(alloc);
    let mut last: Option<Key> = None;
    for key in keys {
        let behind = match &last {
            Some(last) => last.is_before(key),
            None => true,
        };
        if behind {
            ends.push(*key)?;
            last = Some(*key);
        }
    }
    Ok(ends)
}

fn put_in_order(keys: &mut Vec<Key>) -> Result<(), NoMemory>
    ensures moved { OnOk result (IsPermutation keys.old.items keys.new.items) }
    ensures sorted { OnOk result (IsSortedBy before keys.new.items) }
{
    keys.sort_by(|key, other| by_place(key, other))?;
    Ok(())
}

/// The ends of all runs, in order and each one once.
#[tactic(auto, using(crate::proofs::Sorting::ascending, crate::proofs::Sorting::within))]
pub fn ends(alloc: Global, events: &[KeyEvent]) -> Result<Vec<Key>, NoMemory>
    ensures ascending { IfOk result (λ ends. Ascending ends.items) }
    ensures within { IfOk result (λ ends. EndsIn ends.items events.now) }
{
    let mut keys = ends_of(alloc, events)?;
    put_in_order(&mut keys)?;
    apart(alloc, keys.as_slice())
}

/// How many ends stand at a key or before it: the number of its segment.
#[tactic(auto, using(crate::proofs::Sorting::rank_below, crate::proofs::Sorting::rank_above, crate::proofs::Ranks::rank_within))]
pub fn rank(ends: &[Key], key: &Key) -> usize
    requires { Ascending ends.now }
    ensures { result ≡ rank ends.now key.now }
{
    let mut lo = 0;
    let mut hi = ends.len();
    while lo < hi {
        let middle = lo + (hi - lo) / 2;
        if key.is_before(&ends[middle]) {
            hi = middle;
        } else {
            lo = middle + 1;
        }
    }
    lo
}

/// The events by the segments of their runs.
pub fn ranked(
    alloc: Global,
    events: &[KeyEvent],
    ends: &[Key],
) -> Result<Vec<SegmentEvent>, NoMemory>
    requires { Ascending ends.now }
    ensures { IfOk result (λ segments. segments.items ≡ map (ranked ends.now) events.now) }
{
    let mut segments = Vec::new(alloc);
    for event in events {
        segments.push(SegmentEvent {
            lo: rank(ends, &event.lo),
            hi: rank(ends, &event.hi),
            deed: event.deed,
        })?;
    }
    Ok(segments)
}
