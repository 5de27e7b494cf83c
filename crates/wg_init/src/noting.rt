//! What accesses make of the cells that are set.
ghost use Rattle.std.specs.Prelude.{◌≡◌, ◌≤◌, ◌<◌, ◌++◌, ◌&&◌, not, IfOk, IsTrue, OnOk, OnErr};
ghost use Rattle.wg_rows.specs.Runs.{cell_line, cell_lo, cell_hi};
ghost use Rattle.wg_rows.specs.Uses.{kind_unsets};
ghost use Rattle.wg_num.specs.Runs.{covers_run, insert_run};
ghost use Rattle.wg_bars.specs.Kept.{with_notes, AddsKept, AreMade};
ghost use Rattle.wg_init.specs.Rows.{runs_in};
ghost use Rattle.wg_init.specs.Effects.{effect, with_effect, AreNotes, IsAfter, NotesOne};

use crate::cell_row::CellRow;
use crate::cells::{row_object, row_of, same_row};
use crate::unset::set_in;
use std::alloc::Global;
use wg_bars::kept::{Notes, begin_to, current, grow, place, reserve_to, set_note};
use wg_entry::NoMemory;
use wg_fading::Fading;
use wg_num::RunSet;
use wg_rows::cell_runs::{cell_hi, cell_lo, unsets, writes};
use wg_trace::items::Items;
use wg_trace::parts::{AccessKind, Cells};

/// The runs of a row after an access that writes.
fn effect(set: &RunSet, kind: AccessKind, lo: u64, hi: u64) -> Result<RunSet, NoMemory>
    requires { lo ≤ hi }
    ensures { IfOk result (λ other. other ≡ effect kind lo hi set.now) }
{
    if unsets(kind) {
        return set.without(lo, hi);
    }
    set.with(lo, hi)
}

/// Adds copies of rows at the end.
pub(crate) fn push_copies(
    out: &mut Vec<(CellRow, RunSet)>,
    rows: &[(CellRow, RunSet)],
) -> Result<(), NoMemory>
    ensures { OnOk result (out.new.items ≡ out.old.items ++ rows.now) }
{
    for row in rows {
        out.push((row.0, row.1.copy()?))?;
    }
    Ok(())
}

/// An object's rows after an access that writes.
fn with_effect(
    alloc: Global,
    rows: &[(CellRow, RunSet)],
    run: Cells,
    kind: AccessKind,
) -> Result<Vec<(CellRow, RunSet)>, NoMemory>
    requires { cell_lo run ≤ cell_hi run }
    ensures { IfOk result (λ v. v.items ≡ with_effect run kind rows.now) }
{
    let row = row_of(run);
    let lo = cell_lo(run);
    let hi = cell_hi(run);
    let mut out = Vec::new(alloc);
    for (i, other) in rows.iter().enumerate() {
        if same_row(other.0, row) {
            out.push((other.0, effect(&other.1, kind, lo, hi)?))?;
            push_copies(&mut out, &rows[i + 1..])?;
            return Ok(out);
        }
        out.push((other.0, other.1.copy()?))?;
    }
    let empty = RunSet::new(alloc);
    out.push((row, effect(&empty, kind, lo, hi)?))?;
    Ok(out)
}

/// Whether all of a run of cells is set in an object's rows.
fn covers(rows: &[(CellRow, RunSet)], run: Cells) -> bool
    requires { cell_lo run < cell_hi run }
    ensures test { result ≡ covers_run (cell_lo run) (cell_hi run) (runs_in rows.now (cell_line run)) }
    ensures same { IsTrue result → insert_run (cell_lo run) (cell_hi run) (runs_in rows.now (cell_line run)) ≡ runs_in rows.now (cell_line run) }
{
    match set_in(rows, row_of(run)) {
        Some(set) => set.covers(cell_lo(run), cell_hi(run)),
        None => false,
    }
}

/// Whether an access that writes leaves an object's rows as they are, since it sets what is set.
fn sets_what_is_set(rows: &[(CellRow, RunSet)], run: Cells, kind: AccessKind) -> bool
    requires { cell_lo run < cell_hi run }
    ensures test { result ≡ (not (kind_unsets kind)
        && covers_run (cell_lo run) (cell_hi run) (runs_in rows.now (cell_line run))) }
    ensures same { IsTrue result → with_effect run kind rows.now ≡ rows.now }
{
    !unsets(kind) && covers(rows, run)
}

/// Notes what an access makes of kept rows with notes over them.
fn note_one(
    alloc: Global,
    kept: &Fading<Items<(CellRow, RunSet)>>,
    fresh: &mut Notes<(CellRow, RunSet)>,
    access: (Cells, AccessKind),
) -> Result<(), NoMemory>
    ensures notes { OnOk result (NotesOne kept.now.items fresh.old access fresh.new) }
    ensures here { OnOk result (AddsKept kept.now fresh.old fresh.new) }
{
    if !writes(access.1) {
        return Ok(());
    }
    if cell_hi(access.0) <= cell_lo(access.0) {
        return Ok(());
    }
    let object = row_object(row_of(access.0));
    let Some(rows) = current(kept, fresh, object) else {
        return Err(NoMemory);
    };
    if sets_what_is_set(rows, access.0, access.1) {
        return Ok(());
    }
    let changed = with_effect(alloc, rows, access.0, access.1)?;
    set_note(fresh, object, Items::from_vec(changed))?;
    Ok(())
}

/// What accesses make of kept rows with notes over them, as notes. Without rows of an object that is
/// written, which no step of a device does, it answers that there is no memory.
pub fn notes_of(
    alloc: Global,
    kept: &Fading<Items<(CellRow, RunSet)>>,
    fresh: Notes<(CellRow, RunSet)>,
    accesses: &[(Cells, AccessKind)],
) -> Result<Notes<(CellRow, RunSet)>, NoMemory>
    ensures notes { IfOk result (λ v. AreNotes kept.now.items fresh accesses.now v) }
    ensures noted { IfOk result (λ v.
        IsAfter (with_notes kept.now.items fresh) accesses.now (with_notes kept.now.items v)) }
    ensures here { IfOk result (λ v. AddsKept kept.now fresh v) }
{
    let mut fresh = fresh;
    for access in accesses {
        note_one(alloc, kept, &mut fresh, *access)?;
    }
    Ok(fresh)
}

/// The number behind the greatest object of accesses.
pub(crate) fn end_of(accesses: &[(Cells, AccessKind)]) -> u64 {
    let mut end = 0;
    for access in accesses {
        end = row_object(row_of(access.0)).saturating_add(1).max(end);
    }
    end
}

/// Notes accesses in kept rows, which are made of objects that had none.
pub fn note_in(
    kept: &mut Fading<Items<(CellRow, RunSet)>>,
    accesses: &[(Cells, AccessKind)],
) -> Result<(), NoMemory>
    requires { AreMade kept.old }
    ensures noted { OnOk result (IsAfter kept.old.items accesses.now kept.new.items) }
    ensures made { AreMade kept.new }
    ensures gone { kept.new.gone ≡ kept.old.gone }
    ensures unchanged { OnErr result (kept.new.items ≡ kept.old.items) }
{
    let alloc = kept.allocator();
    let end = end_of(accesses);
    let begun = begin_to(alloc, kept, end)?;
    let fresh = notes_of(alloc, kept, begun, accesses)?;
    reserve_to(kept, end)?;
    grow(kept, end);
    place(kept, fresh);
    Ok(())
}
