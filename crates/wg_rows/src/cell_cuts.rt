//! Pieces of runs of cells.
ghost use Rattle.std.specs.Prelude.{◌≡◌, ◌≤◌, max};
ghost use Rattle.wg_rows.specs.Clip.{left_run, right_run, inner_run};
ghost use Rattle.wg_rows.specs.Runs.{cell_lo, cell_hi, cell_sort, cell_widen};

use crate::cell_runs::{cell_hi, cell_lo};
use crate::rows::{Clip, Run};
use wg_trace::parts::Cells;

/// A run of the same line with other ends, neither of which is past both of its own.
fn widened(run: Cells, from: u64, to: u64) -> Cells
    requires from { from ≤ max (cell_lo run) (cell_hi run) }
    requires to { to ≤ max (cell_lo run) (cell_hi run) }
    ensures { result ≡ cell_widen run from to }
{
    match run {
        Cells::Bytes { object, .. } => Cells::Bytes {
            object,
            lo: from,
            hi: to,
        },
        Cells::Queries { object, lo, hi } => Cells::Queries {
            object,
            lo: from.min(lo.max(hi) as u64) as u32,
            hi: to.min(lo.max(hi) as u64) as u32,
        },
        Cells::Layers {
            object,
            aspect,
            mip,
            lo,
            hi,
        } => Cells::Layers {
            object,
            aspect,
            mip,
            lo: from.min(lo.max(hi) as u64) as u32,
            hi: to.min(lo.max(hi) as u64) as u32,
        },
        Cells::Slices {
            object,
            mip,
            lo,
            hi,
        } => Cells::Slices {
            object,
            mip,
            lo: from.min(lo.max(hi) as u64) as u32,
            hi: to.min(lo.max(hi) as u64) as u32,
        },
    }
}

/// What of a run lies before another run of its line.
fn left(run: Cells, other: Cells) -> Option<Cells>
    ensures { result ≡ left_run cell_sort run other }
{
    let lo = cell_lo(run);
    if lo < cell_lo(other) {
        return Some(widened(run, lo, cell_hi(run).min(cell_lo(other))));
    }
    None
}

/// What of a run lies behind another run of its line.
fn right(run: Cells, other: Cells) -> Option<Cells>
    ensures { result ≡ right_run cell_sort run other }
{
    let hi = cell_hi(run);
    if cell_hi(other) < hi {
        return Some(widened(run, cell_lo(run).max(cell_hi(other)), hi));
    }
    None
}

/// What of a run lies in another run.
fn inner(run: Cells, other: Cells) -> Option<Cells>
    ensures { result ≡ inner_run cell_sort run other }
{
    let lo = cell_lo(run).max(cell_lo(other));
    let hi = cell_hi(run).min(cell_hi(other));
    if other.same_line(&run) && lo < hi {
        return Some(widened(run, lo, hi));
    }
    None
}

impl Clip for Cells {
    fn left(&self, other: &Cells) -> Option<Cells> {
        left(*self, *other)
    }

    fn right(&self, other: &Cells) -> Option<Cells> {
        right(*self, *other)
    }

    fn inner(&self, other: &Cells) -> Option<Cells> {
        inner(*self, *other)
    }
}
