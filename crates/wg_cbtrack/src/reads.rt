//! What a step reads of the cells of a tracker, found with one look at what is left of each run.
ghost use Rattle.std.specs.Prelude.{◌≡◌, ◌<◌, ◌&&◌, true, List, [], ◌∷◌, IsTrue, IfOk, IfSome, OnOk};
ghost use Rattle.wg_rows.specs.Cut.{put_all};
ghost use Rattle.wg_rows.specs.Runs.{Cells, cell_sort, cell_lo, cell_hi};
ghost use Rattle.wg_rows.specs.Uses.{AccessKind, Read, same_kind, kind_reads};
ghost use Rattle.wg_init.specs.Effects.{is_full};
ghost use Rattle.wg_cbtrack.specs.Leaves.{AllOf, AreTidy, with_pieces, unset_pieces, unwritten_pieces};

use crate::about::{are_none, near_cells};
use crate::cells::cleared;
use crate::covered::{covers_at, is_covered};
use std::alloc::Global;
use wg_entry::NoMemory;
use wg_rows::cell_runs::{cell_hi, cell_lo, reads};
use wg_rows::rows::{gaps, inside};
use wg_trace::parts::{AccessKind, Cells};

/// Adds a run of which nothing is written, unless it is wanted already.
#[tactic(auto, using(crate::proofs::Covering::put_held, crate::proofs::Covering::put_behind_all))]
fn push_free(
    found: &mut Vec<(Cells, AccessKind)>,
    wants: &[(Cells, AccessKind)],
    run: Cells,
) -> Result<(), NoMemory>
    requires reads { AllOf Read wants.now }
    requires held { AllOf Read (put_all cell_sort same_kind found.old.items wants.now) }
    requires full { cell_lo run < cell_hi run }
    ensures { OnOk result (put_all cell_sort same_kind found.new.items wants.now
        ≡ put_all cell_sort same_kind ((run, Read) ∷ []) (put_all cell_sort same_kind found.old.items wants.now)) }
{
    if is_covered(wants, run, AccessKind::Read) {
        return Ok(());
    }
    found.push((run, AccessKind::Read))?;
    Ok(())
}

/// Adds what of a run is not written, of which something is. Whether nothing of it is left unset.
#[tactic(auto, using(wg_rows::proofs::Chained::put_all_more))]
fn push_rest(
    found: &mut Vec<(Cells, AccessKind)>,
    near: &[(Cells, AccessKind)],
    run: Cells,
) -> Result<bool, NoMemory>
    ensures clear { IfOk result (λ b. IsTrue b → unset_pieces near.now run ≡ []) }
    ensures wants { IfOk result (λ b. IsTrue b → (rows : List (Cells × AccessKind)) → put_all cell_sort same_kind found.new.items rows
        ≡ put_all cell_sort same_kind (unwritten_pieces near.now run) (put_all cell_sort same_kind found.old.items rows)) }
{
    let alloc = *found.allocator();
    let held = inside(alloc, near, run)?;
    let unset = cleared(alloc, held.as_slice())?;
    if !are_none(unset.as_slice()) {
        return Ok(false);
    }
    let more = gaps(alloc, (run, AccessKind::Read), near)?;
    found.extend_from_slice(more.as_slice())?;
    Ok(true)
}

/// Adds what of a run no step writes. Whether nothing of it is left unset.
fn push_read(
    found: &mut Vec<(Cells, AccessKind)>,
    wants: &[(Cells, AccessKind)],
    leaves: &[(Cells, AccessKind)],
    run: Cells,
) -> Result<bool, NoMemory>
    requires tidy { AreTidy wants.now leaves.now }
    requires held { AllOf Read (put_all cell_sort same_kind found.old.items wants.now) }
    requires full { cell_lo run < cell_hi run }
    ensures clear { IfOk result (λ b. IsTrue b → unset_pieces leaves.now run ≡ []) }
    ensures wants { IfOk result (λ b. IsTrue b → put_all cell_sort same_kind found.new.items wants.now
        ≡ put_all cell_sort same_kind (unwritten_pieces leaves.now run) (put_all cell_sort same_kind found.old.items wants.now)) }
    ensures held { IfOk result (λ b. IsTrue b → AllOf Read (put_all cell_sort same_kind found.new.items wants.now)) }
{
    let near = near_cells(leaves, run);
    if are_none(near) {
        push_free(found, wants, run)?;
        return Ok(true);
    }
    if covers_at(near, 0, run, AccessKind::Write) {
        return Ok(true);
    }
    let is_clear = push_rest(found, near, run)?;
    Ok(is_clear)
}

/// Adds what of an access is read and no step writes. Whether nothing of that is left unset.
fn push_access(
    found: &mut Vec<(Cells, AccessKind)>,
    wants: &[(Cells, AccessKind)],
    leaves: &[(Cells, AccessKind)],
    access: (Cells, AccessKind),
) -> Result<bool, NoMemory>
    requires tidy { AreTidy wants.now leaves.now }
    requires held { AllOf Read (put_all cell_sort same_kind found.old.items wants.now) }
    ensures clear { IfOk result (λ b. IsTrue b → (kind_reads access.1 && is_full access.0) ≡ true → unset_pieces leaves.now access.0 ≡ []) }
    ensures wants { IfOk result (λ b. IsTrue b → put_all cell_sort same_kind found.new.items wants.now
        ≡ with_pieces (unwritten_pieces leaves.now) (access ∷ []) (put_all cell_sort same_kind found.old.items wants.now)) }
    ensures held { IfOk result (λ b. IsTrue b → AllOf Read (put_all cell_sort same_kind found.new.items wants.now)) }
{
    if reads(access.1) && cell_lo(access.0) < cell_hi(access.0) {
        return push_read(found, wants, leaves, access.0);
    }
    Ok(true)
}

/// What accesses read and no step before them writes, to be put among what is wanted, unless they read what is
/// left unset. It is found from the first access on, so that where accesses are in order each is put behind the
/// one before it.
pub fn find_reads(
    alloc: Global,
    wants: &[(Cells, AccessKind)],
    leaves: &[(Cells, AccessKind)],
    accesses: &[(Cells, AccessKind)],
) -> Result<Option<Vec<(Cells, AccessKind)>>, NoMemory>
    requires tidy { AreTidy wants.now leaves.now }
    ensures clear { IfOk result (λ o. IfSome o (λ v. [] ≡ with_pieces (unset_pieces leaves.now) accesses.now [])) }
    ensures wants { IfOk result (λ o. IfSome o (λ v. put_all cell_sort same_kind v.items wants.now
        ≡ with_pieces (unwritten_pieces leaves.now) accesses.now wants.now)) }
{
    let mut found = Vec::new(alloc);
    for access in accesses {
        if !push_access(&mut found, wants, leaves, *access)? {
            return Ok(None);
        }
    }
    Ok(Some(found))
}
