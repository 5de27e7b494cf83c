//! A step that needs no clear inside, noted in place: its uses and accesses are put among the rows where they
//! belong, and no rows are made anew.
ghost use Rattle.std.specs.Prelude.{◌≡◌, ◌≤◌, ◌<◌, ◌+◌, ◌*◌, ◌&&◌, ◌++◌, ◌∷◌, [], map, length, vec_len, vec_capacity, true, IsTrue, IfOk, IfSome, OnOk, OnErr, if◌then◌else◌};
ghost use Rattle.wg_rows.specs.Rows.{Apart, put};
ghost use Rattle.wg_rows.specs.Cut.{overwrite, put_all};
ghost use Rattle.wg_rows.specs.Runs.{part_sort, cell_sort, part_lo, part_hi, cell_lo, cell_hi};
ghost use Rattle.wg_rows.specs.Uses.{Read, same_set, same_kind, kind_writes};
ghost use Rattle.wg_init.specs.Effects.{is_full};
ghost use Rattle.wg_cbtrack.specs.Join.{used_after, inner_changes, opens};
ghost use Rattle.wg_cbtrack.specs.Owners.{Ordered};
ghost use Rattle.wg_cbtrack.specs.Items.{noted};
ghost use Rattle.wg_cbtrack.specs.Alone.{Spread, AllAlone, ArePutAlone};
ghost use Rattle.wg_cbtrack.specs.Leaves.{AllOf, AreTidy, left_kind, left_after};
ghost use Rattle.wg_cbtrack.specs.Near.{AreOrdered, AreSameRows, use_object};
ghost use Rattle.wg_cbtrack.specs.Track.{Holds};
ghost use Rattle.wg_cbtrack.specs.Placed.{AreReads, IsPlaced};

use crate::alone::{Places, are_spread, put_alone};
use crate::cells::left_kind;
use crate::covered::is_held_at;
use crate::found::{Found, find_all};
use crate::join::{changes_over, opens_over};
use crate::kept::{Kept, Rows};
use crate::reads::find_reads;
use std::alloc::Global;
use wg_bars::barriers::Change;
use wg_entry::NoMemory;
use wg_inplace::place::{overwrite_in, place, place_of, replace};
use wg_rows::cell_runs::{cell_hi, cell_lo, unsets, writes};
use wg_rows::rows::are_apart;
use wg_trace::items::Items;
use wg_trace::parts::{AccessKind, Cells, PartRun};
use wg_trace::steps::Deed;
use wg_trace::usages::Usages;

/// What a step finds: the changes that it brings, its uses that are the first of their parts, those that are
/// the first of them among noted steps, and what it reads that no step before it writes. Also whether each use is
/// known to be the only one of its object, and where it may stand.
#[derive(Drop)]
pub struct Placed {
    pub changes: Vec<(PartRun, Change)>,
    pub first: Vec<(PartRun, Usages)>,
    pub opened: Vec<(PartRun, Usages)>,
    pub pieces: Vec<(Cells, AccessKind)>,
    pub are_alone: bool,
    pub places: Places,
}

/// Whether a row is a read that covers something.
fn is_read(row: (Cells, AccessKind)) -> bool
    ensures kind { IsTrue result → row.1 ≡ Read }
    ensures full { IsTrue result → cell_lo row.0 < cell_hi row.0 }
{
    match row.1 {
        AccessKind::Read => cell_lo(row.0) < cell_hi(row.0),
        _ => false,
    }
}

/// Whether rows are reads that cover something each.
fn are_reads(rows: &[(Cells, AccessKind)]) -> bool
    ensures { IsTrue result → AreReads rows.now }
{
    for row in rows {
        if !is_read(*row) {
            return false;
        }
    }
    true
}

/// What uses find that are in printed form: with no list but of what is found, where each is the only one of
/// its object.
#[tactic(auto, using(crate::proofs::Spreading::spread_told, crate::proofs::Opening::puts_alone))]
fn find_uses(
    alloc: Global,
    ends: &[(PartRun, Usages)],
    starts: &[(PartRun, Usages)],
    last: &[(PartRun, Usages)],
    uses: &[(PartRun, Usages)],
) -> Result<Found, NoMemory>
    requires ends { Apart part_sort ends.now }
    requires starts { Apart part_sort starts.now }
    requires ordered_ends { Ordered use_object ends.now }
    requires ordered_starts { Ordered use_object starts.now }
    requires ordered_last { Ordered use_object last.now }
    ensures changes { IfOk result (λ found. found.changes.items ≡ inner_changes ends.now uses.now) }
    ensures first { IfOk result (λ found. found.first.items ≡ opens ends.now uses.now) }
    ensures opened { IfOk result (λ found. found.opened.items ≡ opens starts.now uses.now) }
    ensures alone { IfOk result (λ found. IsTrue found.are_alone → ArePutAlone ends.now starts.now last.now uses.now found.opened.items) }
{
    if are_spread(uses) {
        if let Some(found) = find_all(alloc, ends, starts, last, uses)? {
            return Ok(found);
        }
    }
    let changes = changes_over(alloc, ends, true, uses)?;
    let first = opens_over(alloc, ends, true, uses)?;
    let opened = opens_over(alloc, starts, true, uses)?;
    Ok(Found {
        changes,
        first,
        opened,
        are_alone: false,
        places: Places::new(),
    })
}

/// What a step finds, unless it needs a clear inside.
pub fn find_placed(alloc: Global, rows: &Rows, deed: &Deed) -> Result<Option<Placed>, NoMemory>
    requires ordered { AreOrdered rows.now }
    requires ends { Apart part_sort rows.now.ends.items }
    requires starts { Apart part_sort rows.now.starts.items }
    requires tidy { AreTidy rows.now.wants.items rows.now.leaves.items }
    ensures placed { IfOk result (λ o. IfSome o (λ found. IsPlaced rows.now deed.now found.changes.items found.first.items found.opened.items found.pieces.items)) }
    ensures alone { IfOk result (λ o. IfSome o (λ found. IsTrue found.are_alone →
        ArePutAlone rows.now.ends.items rows.now.starts.items rows.now.last.items deed.now.uses found.opened.items)) }
{
    let uses = deed.uses.as_slice();
    if !are_apart(uses) {
        return Ok(None);
    }
    let wants = rows.wants.as_slice();
    let leaves = rows.leaves.as_slice();
    let Some(pieces) = find_reads(alloc, wants, leaves, deed.accesses.as_slice())? else {
        return Ok(None);
    };
    if !are_reads(pieces.as_slice()) {
        return Ok(None);
    }
    let found = find_uses(
        alloc,
        rows.ends.as_slice(),
        rows.starts.as_slice(),
        rows.last.as_slice(),
        uses,
    )?;
    let Found {
        changes,
        first,
        opened,
        are_alone,
        places,
    } = found;
    Ok(Some(Placed {
        changes,
        first,
        opened,
        pieces,
        are_alone,
        places,
    }))
}

/// Puts a use over rows in place of what was there.
#[tactic(auto, using(wg_rows::proofs::Runs::part_widens, wg_rows::proofs::Sets::part_clips, crate::proofs::Placing::part_whole))]
fn use_one(rows: &mut Vec<(PartRun, Usages)>, row: (PartRun, Usages))
    requires apart { Apart part_sort rows.old.items }
    requires full { part_lo row.0 < part_hi row.0 }
    requires room { vec_len rows.old + 2 ≤ vec_capacity rows.old }
    ensures items { rows.new.items ≡ overwrite part_sort same_set row rows.old.items }
    ensures len { vec_len rows.new ≤ vec_len rows.old + 2 }
    ensures capacity { vec_capacity rows.old ≤ vec_capacity rows.new }
{
    let at = place(rows.as_slice(), row.0);
    overwrite_in(rows, at, row);
}

/// Puts uses over rows, each in place of what was there.
fn use_in(rows: &mut Vec<(PartRun, Usages)>, uses: &[(PartRun, Usages)])
    requires apart { Apart part_sort rows.old.items }
    requires uses { Apart part_sort uses.now }
    requires room { vec_len rows.old + 2 * length uses.now ≤ vec_capacity rows.old }
    ensures items { rows.new.items ≡ used_after uses.now rows.old.items }
    ensures capacity { vec_capacity rows.old ≤ vec_capacity rows.new }
{
    for row in uses {
        use_one(rows, *row);
    }
}

/// Puts uses over rows, each in place of what was there: with less where each is the only one of its object.
fn put_uses(
    rows: &mut Vec<(PartRun, Usages)>,
    uses: &[(PartRun, Usages)],
    are_alone: bool,
    places: Places,
)
    requires apart { Apart part_sort rows.old.items }
    requires uses { Apart part_sort uses.now }
    requires alone { IsTrue are_alone → Spread uses.now × AllAlone rows.old.items uses.now }
    requires room { vec_len rows.old + 2 * length uses.now ≤ vec_capacity rows.old }
    ensures items { rows.new.items ≡ used_after uses.now rows.old.items }
{
    if are_alone {
        put_alone(rows, uses, places);
        return;
    }
    use_in(rows, uses);
}

/// Puts what an access writes over what is left.
#[tactic(auto, using(wg_rows::proofs::Runs::cell_widens, crate::proofs::Leaving::cell_clips, crate::proofs::Placing::cell_whole, crate::proofs::Covering::left_same))]
fn leave_one(rows: &mut Vec<(Cells, AccessKind)>, access: (Cells, AccessKind))
    requires apart { Apart cell_sort rows.old.items }
    requires room { vec_len rows.old + 2 ≤ vec_capacity rows.old }
    ensures items { rows.new.items ≡ (if kind_writes access.1 && is_full access.0 then overwrite cell_sort same_kind (access.0, left_kind access.1) rows.old.items else rows.old.items) }
    ensures len { vec_len rows.new ≤ vec_len rows.old + 2 }
    ensures capacity { vec_capacity rows.old ≤ vec_capacity rows.new }
{
    if writes(access.1) && cell_lo(access.0) < cell_hi(access.0) {
        let at = place(rows.as_slice(), access.0);
        if !unsets(access.1) && is_held_at(rows.as_slice(), at, access.0, AccessKind::Write) {
            return;
        }
        overwrite_in(rows, at, (access.0, left_kind(access.1)));
    }
}

/// Puts what accesses write over what is left.
fn leave_in(rows: &mut Vec<(Cells, AccessKind)>, accesses: &[(Cells, AccessKind)])
    requires apart { Apart cell_sort rows.old.items }
    requires room { vec_len rows.old + 2 * length accesses.now ≤ vec_capacity rows.old }
    ensures items { rows.new.items ≡ left_after accesses.now rows.old.items }
{
    for access in accesses {
        leave_one(rows, *access);
    }
}

/// Puts a read among what is wanted, and its cells among those that are needed, in the same place.
#[tactic(auto, using(wg_rows::proofs::Runs::cell_widens, crate::proofs::Nearing::cells_chained))]
fn want_one(wants: &mut Vec<(Cells, AccessKind)>, needs: &mut Vec<Cells>, row: (Cells, AccessKind))
    requires apart { Apart cell_sort wants.old.items }
    requires same { needs.old.items ≡ map (λ row. row.0) wants.old.items }
    requires room_wants { vec_len wants.old < vec_capacity wants.old }
    requires room_needs { vec_len needs.old < vec_capacity needs.old }
    ensures wants { wants.new.items ≡ put cell_sort same_kind row wants.old.items }
    ensures same { needs.new.items ≡ map (λ row. row.0) wants.new.items }
    ensures len_wants { vec_len wants.new ≤ vec_len wants.old + 1 }
    ensures len_needs { vec_len needs.new ≤ vec_len needs.old + 1 }
    ensures capacity_wants { vec_capacity wants.old ≤ vec_capacity wants.new }
    ensures capacity_needs { vec_capacity needs.old ≤ vec_capacity needs.new }
{
    let at = place(wants.as_slice(), row.0);
    let (from, to, all) = place_of(wants.as_slice(), at, row);
    replace(wants, from, to, all);
    replace(needs, from, to, all.0);
}

/// Puts reads among what is wanted, and their cells among those that are needed.
fn want_in(
    wants: &mut Vec<(Cells, AccessKind)>,
    needs: &mut Vec<Cells>,
    pieces: &[(Cells, AccessKind)],
)
    requires all { AllOf Read wants.old.items }
    requires reads { AreReads pieces.now }
    requires same { needs.old.items ≡ map (λ row. row.0) wants.old.items }
    requires room_wants { vec_len wants.old + length pieces.now ≤ vec_capacity wants.old }
    requires room_needs { vec_len needs.old + length pieces.now ≤ vec_capacity needs.old }
    ensures wants { wants.new.items ≡ put_all cell_sort same_kind pieces.now wants.old.items }
    ensures same { needs.new.items ≡ map (λ row. row.0) wants.new.items }
{
    for row in pieces {
        want_one(wants, needs, *row);
    }
}

/// Takes room for uses, for those that open parts, for what is wanted and for what is left.
fn make_room(
    rows: &mut Rows,
    uses: usize,
    opened: usize,
    pieces: usize,
    accesses: usize,
) -> Result<(), NoMemory>
    ensures same { AreSameRows rows.old rows.new }
    ensures ends { OnOk result (vec_len rows.new.ends + 2 * uses ≤ vec_capacity rows.new.ends) }
    ensures last { OnOk result (vec_len rows.new.last + 2 * uses ≤ vec_capacity rows.new.last) }
    ensures starts { OnOk result (vec_len rows.new.starts + 2 * opened ≤ vec_capacity rows.new.starts) }
    ensures wants { OnOk result (vec_len rows.new.wants + pieces ≤ vec_capacity rows.new.wants) }
    ensures needs { OnOk result (vec_len rows.new.needs + pieces ≤ vec_capacity rows.new.needs) }
    ensures leaves { OnOk result (vec_len rows.new.leaves + 2 * accesses ≤ vec_capacity rows.new.leaves) }
{
    let Some(used) = uses.checked_mul(2) else {
        return Err(NoMemory);
    };
    let Some(started) = opened.checked_mul(2) else {
        return Err(NoMemory);
    };
    let Some(left) = accesses.checked_mul(2) else {
        return Err(NoMemory);
    };
    rows.ends.reserve(used)?;
    rows.last.reserve(used)?;
    rows.starts.reserve(started)?;
    rows.wants.reserve(pieces)?;
    rows.needs.reserve(pieces)?;
    rows.leaves.reserve(left)?;
    Ok(())
}

/// Puts all that a step uses and accesses among the rows, in room that there is.
fn put_placed(
    rows: &mut Rows,
    uses: &[(PartRun, Usages)],
    opened: &[(PartRun, Usages)],
    pieces: &[(Cells, AccessKind)],
    accesses: &[(Cells, AccessKind)],
    are_alone: bool,
    places: Places,
)
    requires ends { Apart part_sort rows.old.ends.items }
    requires last { Apart part_sort rows.old.last.items }
    requires starts { Apart part_sort rows.old.starts.items }
    requires wants { AllOf Read rows.old.wants.items }
    requires needs { rows.old.needs.items ≡ map (λ row. row.0) rows.old.wants.items }
    requires leaves { Apart cell_sort rows.old.leaves.items }
    requires uses { Apart part_sort uses.now }
    requires opened { Apart part_sort opened.now }
    requires reads { AreReads pieces.now }
    requires alone { IsTrue are_alone → ArePutAlone rows.old.ends.items rows.old.starts.items rows.old.last.items uses.now opened.now }
    requires room_ends { vec_len rows.old.ends + 2 * length uses.now ≤ vec_capacity rows.old.ends }
    requires room_last { vec_len rows.old.last + 2 * length uses.now ≤ vec_capacity rows.old.last }
    requires room_starts { vec_len rows.old.starts + 2 * length opened.now ≤ vec_capacity rows.old.starts }
    requires room_wants { vec_len rows.old.wants + length pieces.now ≤ vec_capacity rows.old.wants }
    requires room_needs { vec_len rows.old.needs + length pieces.now ≤ vec_capacity rows.old.needs }
    requires room_leaves { vec_len rows.old.leaves + 2 * length accesses.now ≤ vec_capacity rows.old.leaves }
    ensures ends { rows.new.ends.items ≡ used_after uses.now rows.old.ends.items }
    ensures last { rows.new.last.items ≡ used_after uses.now rows.old.last.items }
    ensures starts { rows.new.starts.items ≡ used_after opened.now rows.old.starts.items }
    ensures wants { rows.new.wants.items ≡ put_all cell_sort same_kind pieces.now rows.old.wants.items }
    ensures needs { rows.new.needs.items ≡ map (λ row. row.0) rows.new.wants.items }
    ensures leaves { rows.new.leaves.items ≡ left_after accesses.now rows.old.leaves.items }
{
    put_uses(&mut rows.ends, uses, are_alone, places);
    put_uses(&mut rows.last, uses, are_alone, places);
    put_uses(&mut rows.starts, opened, are_alone, places);
    want_in(&mut rows.wants, &mut rows.needs, pieces);
    leave_in(&mut rows.leaves, accesses);
}

/// Notes a step that needs no clear inside.
pub fn note_placed(
    kept: &mut Vec<Kept>,
    rows: &mut Rows,
    deed: Deed,
    found: Placed,
) -> Result<(), NoMemory>
    requires holds { Holds (noted kept.old.items) kept.old.items rows.old }
    requires placed { IsPlaced rows.old deed found.changes.items found.first.items found.opened.items found.pieces.items }
    requires alone { IsTrue found.are_alone →
        ArePutAlone rows.old.ends.items rows.old.starts.items rows.old.last.items deed.uses found.opened.items }
    ensures holds { Holds (noted kept.new.items) kept.new.items rows.new }
    ensures noted { OnOk result (noted kept.new.items ≡ noted kept.old.items ++ deed ∷ []) }
    ensures unchanged { OnErr result (kept.new.items ≡ kept.old.items) }
{
    let Placed {
        changes,
        first,
        opened,
        pieces,
        are_alone,
        places,
    } = found;
    kept.reserve(1)?;
    make_room(
        rows,
        deed.uses.as_slice().len(),
        opened.len(),
        pieces.len(),
        deed.accesses.as_slice().len(),
    )?;
    put_placed(
        rows,
        deed.uses.as_slice(),
        opened.as_slice(),
        pieces.as_slice(),
        deed.accesses.as_slice(),
        are_alone,
        places,
    );
    kept.push_reserved(Kept {
        deed,
        changes: Items::from_vec(changes),
        first: Items::from_vec(first),
        is_noted: true,
    });
    Ok(())
}
