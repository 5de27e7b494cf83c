//! The cells of one more noted step.
ghost use Rattle.std.specs.Prelude.{◌≡◌, List, IfOk, OnOk, IsTrue};
ghost use Rattle.wg_rows.specs.Cut.{choose, put_all};
ghost use Rattle.wg_rows.specs.Rows.{Apart};
ghost use Rattle.wg_rows.specs.Runs.{cell_sort};
ghost use Rattle.wg_rows.specs.Uses.{AccessKind, Read, same_kind};
ghost use Rattle.wg_cbtrack.specs.Leaves.{
  left_kind,
  left_after,
  with_pieces,
  cleared_kind,
  unset_pieces,
  unwritten_pieces,
  pieces_of,
  AreTidy,
};
ghost use Rattle.wg_cbtrack.specs.Next.{AreCells};

use crate::about::about_cells;
use std::alloc::Global;
use wg_entry::NoMemory;
use wg_rows::cell_runs::{cell_hi, cell_lo, reads, unsets, writes};
use wg_rows::rows::{are_apart, gaps, inside, overwrite, put_all};
use wg_trace::parts::{AccessKind, Cells};

/// The cells that a clear inside sets, those that are wanted from before all steps, and what is left of
/// those that are written.
#[derive(Drop)]
pub struct CellsAfter {
    pub clear: Vec<(Cells, AccessKind)>,
    pub wants: Vec<(Cells, AccessKind)>,
    pub leaves: Vec<(Cells, AccessKind)>,
}

/// Which pieces of a run that is read count: those that are left unset, as they are cleared, or those that
/// no step before wrote, as they are read.
#[derive(Clone, Copy)]
enum Pieces {
    Unset,
    Unwritten,
}

/// What is left of a cell that an access writes.
pub fn left_kind(kind: AccessKind) -> AccessKind
    ensures { result ≡ left_kind kind }
{
    if unsets(kind) {
        return AccessKind::Drop;
    }
    AccessKind::Write
}

/// What is left after accesses.
fn left_after(
    alloc: Global,
    leaves: Vec<(Cells, AccessKind)>,
    accesses: &[(Cells, AccessKind)],
) -> Result<Vec<(Cells, AccessKind)>, NoMemory>
    ensures { IfOk result (λ v. v.items ≡ left_after accesses.now leaves.items) }
{
    let mut out = leaves;
    for access in accesses {
        if writes(access.1) && cell_lo(access.0) < cell_hi(access.0) {
            out = overwrite(alloc, out.as_slice(), (access.0, left_kind(access.1)))?;
        }
    }
    Ok(out)
}

/// The rows of what is left unset, as they are cleared.
pub fn cleared(
    alloc: Global,
    rows: &[(Cells, AccessKind)],
) -> Result<Vec<(Cells, AccessKind)>, NoMemory>
    ensures { IfOk result (λ v. v.items ≡ choose cleared_kind rows.now) }
{
    let mut out = Vec::new(alloc);
    for row in rows {
        if unsets(row.1) {
            out.push((row.0, AccessKind::Write))?;
        }
    }
    Ok(out)
}

/// What of a run is left unset, as it is cleared.
fn unset_pieces(
    alloc: Global,
    leaves: &[(Cells, AccessKind)],
    are_printed: bool,
    run: Cells,
) -> Result<Vec<(Cells, AccessKind)>, NoMemory>
    requires { IsTrue are_printed → Apart cell_sort leaves.now }
    ensures { IfOk result (λ v. v.items ≡ unset_pieces leaves.now run) }
{
    let found = inside(alloc, about_cells(leaves, are_printed, run), run)?;
    cleared(alloc, found.as_slice())
}

/// Adds what of a run is left unset, as it is cleared, at the end of others that are yet to be put in
/// printed form.
#[tactic(auto, using(wg_rows::proofs::Chained::put_all_more))]
fn push_unset(
    found: &mut Vec<(Cells, AccessKind)>,
    leaves: &[(Cells, AccessKind)],
    are_printed: bool,
    run: Cells,
) -> Result<(), NoMemory>
    requires { IsTrue are_printed → Apart cell_sort leaves.now }
    ensures { OnOk result ((rows : List (Cells × AccessKind)) → put_all cell_sort same_kind found.new.items rows
        ≡ put_all cell_sort same_kind (unset_pieces leaves.now run) (put_all cell_sort same_kind found.old.items rows)) }
{
    let more = unset_pieces(*found.allocator(), leaves, are_printed, run)?;
    found.extend_from_slice(more.as_slice())?;
    Ok(())
}

/// Adds what of a run is not written, as it is read, at the end of others that are yet to be put in printed
/// form.
#[tactic(auto, using(wg_rows::proofs::Chained::put_all_more))]
fn push_unwritten(
    found: &mut Vec<(Cells, AccessKind)>,
    leaves: &[(Cells, AccessKind)],
    are_printed: bool,
    run: Cells,
) -> Result<(), NoMemory>
    requires { IsTrue are_printed → Apart cell_sort leaves.now }
    ensures { OnOk result ((rows : List (Cells × AccessKind)) → put_all cell_sort same_kind found.new.items rows
        ≡ put_all cell_sort same_kind (unwritten_pieces leaves.now run) (put_all cell_sort same_kind found.old.items rows)) }
{
    let rows = about_cells(leaves, are_printed, run);
    let more = gaps(*found.allocator(), (run, AccessKind::Read), rows)?;
    found.extend_from_slice(more.as_slice())?;
    Ok(())
}

/// Adds pieces of a run at the end of others that are yet to be put in printed form.
fn push_pieces(
    found: &mut Vec<(Cells, AccessKind)>,
    pieces: Pieces,
    leaves: &[(Cells, AccessKind)],
    are_printed: bool,
    run: Cells,
) -> Result<(), NoMemory>
    requires { IsTrue are_printed → Apart cell_sort leaves.now }
    ensures { OnOk result ((rows : List (Cells × AccessKind)) → put_all cell_sort same_kind found.new.items rows
        ≡ put_all cell_sort same_kind (pieces_of pieces leaves.now run) (put_all cell_sort same_kind found.old.items rows)) }
{
    match pieces {
        Pieces::Unset => push_unset(found, leaves, are_printed, run),
        Pieces::Unwritten => push_unwritten(found, leaves, are_printed, run),
    }
}

/// Pieces of the runs that accesses read, the last access first, which are yet to be put among rows: it is known
/// whether what is left is in printed form.
fn pieces_over(
    alloc: Global,
    pieces: Pieces,
    rows: &[(Cells, AccessKind)],
    leaves: &[(Cells, AccessKind)],
    are_printed: bool,
    accesses: &[(Cells, AccessKind)],
) -> Result<Vec<(Cells, AccessKind)>, NoMemory>
    requires { IsTrue are_printed → Apart cell_sort leaves.now }
    ensures { IfOk result (λ v. put_all cell_sort same_kind v.items rows.now ≡ with_pieces (pieces_of pieces leaves.now) accesses.now rows.now) }
{
    let _ = rows;
    let mut found = Vec::new(alloc);
    let mut i = accesses.len();
    while i > 0 {
        i -= 1;
        let access = accesses[i];
        if reads(access.1) && cell_lo(access.0) < cell_hi(access.0) {
            push_pieces(&mut found, pieces, leaves, are_printed, access.0)?;
        }
    }
    Ok(found)
}

/// Rows with pieces of the runs that accesses read, the last access first.
#[tactic(auto, using(crate::proofs::OfRuns::cells_printed))]
fn with_pieces(
    alloc: Global,
    pieces: Pieces,
    rows: Vec<(Cells, AccessKind)>,
    leaves: &[(Cells, AccessKind)],
    accesses: &[(Cells, AccessKind)],
) -> Result<Vec<(Cells, AccessKind)>, NoMemory>
    ensures { IfOk result (λ v. v.items ≡ with_pieces (pieces_of pieces leaves.now) accesses.now rows.items) }
{
    let are_printed = are_apart(leaves);
    let found = pieces_over(
        alloc,
        pieces,
        rows.as_slice(),
        leaves,
        are_printed,
        accesses,
    )?;
    put_all(alloc, rows, found.as_slice())
}

/// The cells of one more step that accesses these.
pub fn cells_after(
    alloc: Global,
    wants: &[(Cells, AccessKind)],
    leaves: &[(Cells, AccessKind)],
    accesses: &[(Cells, AccessKind)],
) -> Result<CellsAfter, NoMemory>
    ensures { IfOk result (λ r. AreTidy wants.now leaves.now →
        AreCells wants.now leaves.now accesses.now r.clear.items r.wants.items r.leaves.items) }
{
    let none = Vec::new(alloc);
    let clear = with_pieces(alloc, Pieces::Unset, none, leaves, accesses)?;
    let before = Vec::from_slice(alloc, wants)?;
    let wanted = with_pieces(alloc, Pieces::Unwritten, before, leaves, accesses)?;
    let held = Vec::from_slice(alloc, leaves)?;
    let set = left_after(alloc, held, clear.as_slice())?;
    let left = left_after(alloc, set, accesses)?;
    Ok(CellsAfter {
        clear,
        wants: wanted,
        leaves: left,
    })
}
