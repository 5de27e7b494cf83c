//! Whether rows of cells have a kind in all of a run.
ghost use Rattle.std.specs.Prelude.{◌≤◌, ◌<◌, length, IsTrue};
ghost use Rattle.wg_rows.specs.Rows.{Apart};
ghost use Rattle.wg_rows.specs.Runs.{cell_sort};
ghost use Rattle.wg_cbtrack.specs.Covered.{CoveredBy};

use crate::near::cells_object;
use crate::owners::Owned;
use wg_inplace::place::place;
use wg_rows::cell_runs::{cell_hi, cell_lo};
use wg_rows::rows::{Run, Value};
use wg_trace::parts::{AccessKind, Cells};

/// Whether the row at a place has a kind in all of a run.
pub fn covers_at(rows: &[(Cells, AccessKind)], at: usize, run: Cells, kind: AccessKind) -> bool
    requires apart { Apart cell_sort rows.now }
    requires within { at < length rows.now }
    ensures { IsTrue result → CoveredBy rows.now run kind }
{
    let row = rows[at];
    if !row.1.is_same(&kind) {
        return false;
    }
    if !row.0.same_line(&run) {
        return false;
    }
    if cell_lo(run) < cell_lo(row.0) || cell_hi(row.0) < cell_hi(run) {
        return false;
    }
    true
}

/// Whether a row beside a place has a kind in all of a run.
pub fn is_held_at(rows: &[(Cells, AccessKind)], at: usize, run: Cells, kind: AccessKind) -> bool
    requires apart { Apart cell_sort rows.now }
    requires bound { at ≤ length rows.now }
    ensures { IsTrue result → CoveredBy rows.now run kind }
{
    if at < rows.len() && covers_at(rows, at, run, kind) {
        return true;
    }
    at > 0 && covers_at(rows, at - 1, run, kind)
}

/// Whether what stands at a place is of an object.
fn is_of(rows: &[(Cells, AccessKind)], at: usize, object: u64) -> bool {
    at < rows.len() && rows[at].object() == object
}

/// Whether a row has a kind in all of a run. It is looked for by its object first, which is told with less.
pub fn is_covered(rows: &[(Cells, AccessKind)], run: Cells, kind: AccessKind) -> bool
    requires { Apart cell_sort rows.now }
    ensures { IsTrue result → CoveredBy rows.now run kind }
{
    let object = cells_object(run);
    let first = rows.partition_point(|row| row.object() < object);
    if first >= rows.len() {
        return false;
    }
    if covers_at(rows, first, run, kind) {
        return true;
    }
    if !is_of(rows, first.saturating_add(1), object) {
        return false;
    }
    is_held_at(rows, place(rows, run), run, kind)
}
