//! What uses find in rows, each of which is the only one of its object: the changes that they bring, and
//! which of them are the first of their parts.
ghost use Rattle.std.specs.Prelude.{◌≡◌, ◌++◌, ◌<◌, [], ◌∷◌, length, IsTrue, IfSome, IfOk};
ghost use Rattle.wg_rows.specs.Runs.{part_sort, part_lo, part_hi};
ghost use Rattle.wg_rows.specs.Cut.{choose, inside, gaps};
ghost use Rattle.wg_bars.specs.Changes.{change_from};
ghost use Rattle.wg_cbtrack.specs.Owners.{Ordered, rows_below};
ghost use Rattle.wg_cbtrack.specs.Near.{use_object};
ghost use Rattle.wg_cbtrack.specs.Alone.{IsAlone, Spread, FindsAll};

use crate::alone::{Places, seek, set_at};
use crate::join::push_change;
use crate::owners::Owned;
use std::alloc::Global;
use wg_bars::barriers::{Change, change_from};
use wg_entry::NoMemory;
use wg_trace::parts::PartRun;
use wg_trace::usages::Usages;

/// Adds what a use finds: the change of its part, or itself where it is the first of it. Whether its
/// object has no other part.
fn push_found(
    changes: &mut Vec<(PartRun, Change)>,
    first: &mut Vec<(PartRun, Usages)>,
    rows: &[(PartRun, Usages)],
    row: (PartRun, Usages),
    at: usize,
) -> Result<bool, NoMemory>
    requires ordered { Ordered use_object rows.now }
    requires place { at ≡ length (rows_below use_object (use_object row) rows.now) }
    requires full { part_lo row.0 < part_hi row.0 }
    ensures alone { IfOk result (λ b. IsTrue b → IsAlone rows.now row.0) }
    ensures changes { IfOk result (λ b. IsTrue b → changes.new.items ≡ changes.old.items ++ choose (change_from row.1) (inside part_sort row.0 rows.now)) }
    ensures first { IfOk result (λ b. IsTrue b → first.new.items ≡ first.old.items ++ gaps part_sort (row ∷ []) rows.now) }
{
    let Some(held) = set_at(rows, row, at) else {
        return Ok(false);
    };
    match held {
        None => {
            first.push(row)?;
            Ok(true)
        }
        Some(from) => {
            push_change(changes, row.0, change_from(from, row.1))?;
            Ok(true)
        }
    }
}

/// Adds a use that is the first of its part. Whether its object has no other part.
fn push_opened(
    first: &mut Vec<(PartRun, Usages)>,
    rows: &[(PartRun, Usages)],
    row: (PartRun, Usages),
    at: usize,
) -> Result<bool, NoMemory>
    requires ordered { Ordered use_object rows.now }
    requires place { at ≡ length (rows_below use_object (use_object row) rows.now) }
    ensures alone { IfOk result (λ b. IsTrue b → IsAlone rows.now row.0) }
    ensures first { IfOk result (λ b. IsTrue b → first.new.items ≡ first.old.items ++ gaps part_sort (row ∷ []) rows.now) }
{
    let Some(held) = set_at(rows, row, at) else {
        return Ok(false);
    };
    match held {
        None => {
            first.push(row)?;
            Ok(true)
        }
        Some(_) => Ok(true),
    }
}

/// Whether the object of a use has no other part.
fn is_alone(rows: &[(PartRun, Usages)], row: (PartRun, Usages), at: usize) -> bool
    requires ordered { Ordered use_object rows.now }
    requires place { at ≡ length (rows_below use_object (use_object row) rows.now) }
    ensures { IsTrue result → IsAlone rows.now row.0 }
{
    set_at(rows, row, at).is_some()
}

/// What uses find: the changes that they bring, those that are the first of their parts, and those that
/// are the first of them among noted steps. Also whether each is known to be the only one of its object, and
/// where they may stand.
#[derive(Drop)]
pub struct Found {
    pub changes: Vec<(PartRun, Change)>,
    pub first: Vec<(PartRun, Usages)>,
    pub opened: Vec<(PartRun, Usages)>,
    pub are_alone: bool,
    pub places: Places,
}

/// What uses find in rows, unless some object has other parts there.
pub fn find_all(
    alloc: Global,
    ends: &[(PartRun, Usages)],
    starts: &[(PartRun, Usages)],
    last: &[(PartRun, Usages)],
    uses: &[(PartRun, Usages)],
) -> Result<Option<Found>, NoMemory>
    requires ends { Ordered use_object ends.now }
    requires starts { Ordered use_object starts.now }
    requires last { Ordered use_object last.now }
    requires spread { Spread uses.now }
    ensures { IfOk result (λ o. IfSome o (λ found. FindsAll ends.now starts.now last.now uses.now found.changes.items found.first.items found.opened.items)) }
{
    let mut changes = Vec::new(alloc);
    let mut first = Vec::new(alloc);
    let mut opened = Vec::new(alloc);
    let mut places = Places::new();
    let mut hint = 0;
    for row in uses {
        let at = seek(ends, row.object(), hint);
        let started = seek(starts, row.object(), at);
        let ended = seek(last, row.object(), at);
        if !push_found(&mut changes, &mut first, ends, *row, at)? {
            return Ok(None);
        }
        if !push_opened(&mut opened, starts, *row, started)? {
            return Ok(None);
        }
        if !is_alone(last, *row, ended) {
            return Ok(None);
        }
        places = places.and(at);
        hint = at.saturating_add(1);
    }
    Ok(Some(Found {
        changes,
        first,
        opened,
        are_alone: true,
        places,
    }))
}
