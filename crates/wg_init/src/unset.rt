//! The cells that accesses read and that are not set.
ghost use Rattle.std.specs.Prelude.{◌≡◌, [], IfOk, OnOk, map, unwrap_or, option_copied};
ghost use Rattle.wg_rows.specs.Cut.{put_all};
ghost use Rattle.wg_rows.specs.Runs.{cell_sort, cell_line, cell_lo, cell_hi};
ghost use Rattle.wg_rows.specs.Uses.{same_kind};
ghost use Rattle.wg_num.specs.Runs.{AreApart, missing_runs};
ghost use Rattle.wg_bars.specs.Kept.{with_notes};
ghost use Rattle.wg_init.specs.Rows.{row_line, runs_in};
ghost use Rattle.wg_init.specs.Unset.{cells_at, unset_rows};

use crate::cell_row::CellRow;
use crate::cells::{row_object, row_of, same_row};
use std::alloc::Global;
use wg_bars::kept::{Notes, current};
use wg_entry::NoMemory;
use wg_fading::Fading;
use wg_num::RunSet;
use wg_rows::cell_runs::{cell_hi, cell_lo, cells_to, reads};
use wg_rows::rows::put_all;
use wg_trace::items::Items;
use wg_trace::parts::{AccessKind, Cells};

/// The set cells of a row of an object's rows, if that has the row.
pub fn set_in(rows: &[(CellRow, RunSet)], row: CellRow) -> Option<&RunSet>
    ensures { unwrap_or (option_copied result) [] ≡ runs_in rows.now (row_line row) }
{
    for other in rows {
        if same_row(other.0, row) {
            return Some(&other.1);
        }
    }
    None
}

/// The set cells of a row of an object's rows.
pub fn runs_in(rows: &[(CellRow, RunSet)], row: CellRow) -> &[(u64, u64)]
    ensures runs { result.now ≡ runs_in rows.now (row_line row) }
    ensures apart { AreApart 0 result.now }
{
    match set_in(rows, row) {
        Some(set) => set.runs(),
        None => &[],
    }
}

/// What of a run of cells is not set in an object's rows.
fn missing_in(alloc: Global, rows: &[(CellRow, RunSet)], run: Cells) -> Result<RunSet, NoMemory>
    ensures { IfOk result (λ set. set ≡ missing_runs (cell_lo run) (cell_hi run) (runs_in rows.now (cell_line run))) }
{
    match set_in(rows, row_of(run)) {
        Some(set) => set.missing(cell_lo(run), cell_hi(run)),
        None => RunSet::new(alloc).missing(cell_lo(run), cell_hi(run)),
    }
}

/// Runs as cells of the row of a run, each written.
fn cells_at(
    alloc: Global,
    run: Cells,
    runs: &[(u64, u64)],
) -> Result<Vec<(Cells, AccessKind)>, NoMemory>
    ensures { IfOk result (λ v. v.items ≡ cells_at run runs.now) }
{
    let mut out = Vec::with_capacity(alloc, runs.len())?;
    for part in runs {
        out.push((cells_to(run, part.0, part.1), AccessKind::Write))?;
    }
    Ok(out)
}

/// Adds runs of the row of a run at the end of other cells.
#[tactic(auto, using(wg_rows::proofs::Chained::put_all_more))]
fn push_cells(
    cells: &mut Vec<(Cells, AccessKind)>,
    run: Cells,
    runs: &[(u64, u64)],
) -> Result<(), NoMemory>
    ensures { OnOk result (put_all cell_sort same_kind cells.new.items []
        ≡ put_all cell_sort same_kind (cells_at run runs.now)
        (put_all cell_sort same_kind cells.old.items [])) }
{
    let more = cells_at(*cells.allocator(), run, runs)?;
    cells.extend_from_slice(more.as_slice())?;
    Ok(())
}

/// The cells that accesses read and that are not set in kept rows with notes over them, in printed
/// form, each with the access of their clear. Without rows of an object that is read, which no step of a
/// device does, it answers that there is no memory.
pub fn unset_rows(
    alloc: Global,
    kept: &Fading<Items<(CellRow, RunSet)>>,
    fresh: &Notes<(CellRow, RunSet)>,
    accesses: &[(Cells, AccessKind)],
) -> Result<Vec<(Cells, AccessKind)>, NoMemory>
    ensures { IfOk result
        (λ v. v.items ≡ unset_rows (with_notes kept.now.items fresh.now) accesses.now) }
{
    let mut cells = Vec::new(alloc);
    let mut i = accesses.len();
    while i > 0 {
        i -= 1;
        let access = accesses[i];
        if reads(access.1) && cell_lo(access.0) < cell_hi(access.0) {
            let Some(rows) = current(kept, fresh, row_object(row_of(access.0))) else {
                return Err(NoMemory);
            };
            let missing = missing_in(alloc, rows, access.0)?;
            push_cells(&mut cells, access.0, missing.runs())?;
        }
    }
    put_all(alloc, Vec::new(alloc), cells.as_slice())
}

/// The cells of rows.
pub fn cells_of(alloc: Global, rows: &[(Cells, AccessKind)]) -> Result<Vec<Cells>, NoMemory>
    ensures { IfOk result (λ v. v.items ≡ map (λ row. row.0) rows.now) }
{
    let mut out = Vec::with_capacity(alloc, rows.len())?;
    for row in rows {
        out.push(row.0)?;
    }
    Ok(out)
}
