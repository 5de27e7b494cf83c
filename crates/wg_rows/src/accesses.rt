//! The accesses of a step, as they are printed.
ghost use Rattle.std.specs.Prelude.{◌≡◌, IfOk};
ghost use Rattle.wg_rows.specs.Uses.{printed_accesses};

use crate::rows::{are_apart, are_full, by_place, printed};
use std::alloc::Global;
use wg_entry::NoMemory;
use wg_trace::parts::{AccessKind, Cells};

/// Up to so many accesses are printed as they stand, which costs less than to put them in order first.
const FEW: usize = 16;

/// Accesses as they are printed. More than a few are put into the order of their places first, where
/// those of one cell are of one kind, as in a step that is valid: then their order does not matter.
#[tactic(auto, using(crate::proofs::Permuted::accesses_sorted))]
pub fn printed_accesses(
    alloc: Global,
    rows: &[(Cells, AccessKind)],
) -> Result<Vec<(Cells, AccessKind)>, NoMemory>
    ensures { IfOk result (λ v. v.items ≡ printed_accesses rows.now) }
{
    if rows.len() <= FEW || !are_full(rows) {
        return printed(alloc, rows);
    }
    let mut sorted = Vec::from_slice(alloc, rows)?;
    sorted.sort_by(|row, other| by_place(&row.0, &other.0))?;
    let found = printed(alloc, sorted.as_slice())?;
    if are_apart(found.as_slice()) {
        return Ok(found);
    }
    printed(alloc, rows)
}
