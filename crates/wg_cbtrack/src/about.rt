//! The rows that a run can meet: those of its object, where rows are in printed form.
ghost use Rattle.std.specs.Prelude.{◌<◌, length, IsFalse, ◌≡◌, ◌∷◌, ◌++◌, [], true, nat_lt, IsTrue, IfOk, OnOk};
ghost use Rattle.wg_rows.specs.Cut.{inside, gaps, put_all};
ghost use Rattle.wg_rows.specs.Rows.{Apart};
ghost use Rattle.std.specs.List.{flat_map};
ghost use Rattle.wg_rows.specs.Runs.{PartRun, part_sort, cell_sort, part_lo, part_hi, cell_lo, cell_hi};
ghost use Rattle.wg_rows.specs.Uses.{AccessKind, Usages, same_set};

use std::alloc::Global;
use wg_entry::NoMemory;
use wg_inplace::place::{near_run, place};
use wg_rows::rows::{Run, gaps, put_all};
use wg_trace::parts::{AccessKind, Cells, PartRun};
use wg_trace::usages::Usages;

/// Whether there are no rows.
#[tactic(auto, using(std::proofs::lemmas::List::nil_from_length))]
pub fn are_none<T>(rows: &[T]) -> bool
    ensures yes { IsTrue result → rows.now ≡ [] }
    ensures no { IsFalse result → 0 < length rows.now }
{
    rows.is_empty()
}

/// The rows near a run of parts.
#[tactic(auto, using(crate::proofs::Nearing::inside_parts, crate::proofs::Nearing::gaps_parts, crate::proofs::Nearing::parts_chained))]
fn near_parts(rows: &[(PartRun, Usages)], run: PartRun) -> &[(PartRun, Usages)]
    requires apart { Apart part_sort rows.now }
    requires full { nat_lt (part_lo run) (part_hi run) ≡ true }
    ensures inside { inside part_sort run result.now ≡ inside part_sort run rows.now }
    ensures gaps { (v : Usages) → gaps part_sort ((run, v) ∷ []) result.now ≡ gaps part_sort ((run, v) ∷ []) rows.now }
{
    near_run(rows, place(rows, run), run)
}

/// The rows near a run of cells.
#[tactic(auto, using(crate::proofs::Nearing::inside_cells, crate::proofs::Nearing::gaps_cells, crate::proofs::Nearing::cells_chained, crate::proofs::Nearing::cells_apart))]
pub fn near_cells(rows: &[(Cells, AccessKind)], run: Cells) -> &[(Cells, AccessKind)]
    requires apart { Apart cell_sort rows.now }
    requires full { nat_lt (cell_lo run) (cell_hi run) ≡ true }
    ensures inside { inside cell_sort run result.now ≡ inside cell_sort run rows.now }
    ensures gaps { (v : AccessKind) → gaps cell_sort ((run, v) ∷ []) result.now ≡ gaps cell_sort ((run, v) ∷ []) rows.now }
    ensures apart { Apart cell_sort result.now }
{
    near_run(rows, place(rows, run), run)
}

/// The rows among which those of a run's parts are, if rows are in printed form, or else all rows.
pub fn about_parts(
    rows: &[(PartRun, Usages)],
    are_printed: bool,
    run: PartRun,
) -> &[(PartRun, Usages)]
    requires { IsTrue are_printed → Apart part_sort rows.now }
    ensures inside { inside part_sort run result.now ≡ inside part_sort run rows.now }
    ensures gaps { (v : Usages) → gaps part_sort ((run, v) ∷ []) result.now ≡ gaps part_sort ((run, v) ∷ []) rows.now }
{
    if are_printed && run.is_full() {
        return near_parts(rows, run);
    }
    rows
}

/// The rows among which those of a run's cells are, if rows are in printed form, or else all rows.
pub fn about_cells(
    rows: &[(Cells, AccessKind)],
    are_printed: bool,
    run: Cells,
) -> &[(Cells, AccessKind)]
    requires { IsTrue are_printed → Apart cell_sort rows.now }
    ensures inside { inside cell_sort run result.now ≡ inside cell_sort run rows.now }
    ensures gaps { (v : AccessKind) → gaps cell_sort ((run, v) ∷ []) result.now ≡ gaps cell_sort ((run, v) ∷ []) rows.now }
{
    if are_printed && run.is_full() {
        return near_cells(rows, run);
    }
    rows
}

/// Adds at the end what is left of a row where uses are, which are in printed form.
fn push_left(
    out: &mut Vec<(PartRun, Usages)>,
    row: (PartRun, Usages),
    uses: &[(PartRun, Usages)],
) -> Result<(), NoMemory>
    requires { Apart part_sort uses.now }
    ensures { OnOk result (out.new.items ≡ out.old.items ++ gaps part_sort (row ∷ []) uses.now) }
{
    let left = gaps(*out.allocator(), row, about_parts(uses, true, row.0))?;
    out.extend_from_slice(left.as_slice())?;
    Ok(())
}

/// What is left of rows where uses are, which are in printed form.
fn without(
    alloc: Global,
    rows: &[(PartRun, Usages)],
    uses: &[(PartRun, Usages)],
) -> Result<Vec<(PartRun, Usages)>, NoMemory>
    requires { Apart part_sort uses.now }
    ensures { IfOk result (λ v. v.items ≡ flat_map (λ (u : PartRun × Usages). gaps part_sort (u ∷ []) uses.now) rows.now) }
{
    let mut out = Vec::with_capacity(alloc, rows.len())?;
    for row in rows {
        push_left(&mut out, *row, uses)?;
    }
    Ok(out)
}

/// Rows with uses in place of what was there, which are in printed form.
pub fn put_over(
    alloc: Global,
    rows: &[(PartRun, Usages)],
    uses: &[(PartRun, Usages)],
) -> Result<Vec<(PartRun, Usages)>, NoMemory>
    requires { Apart part_sort uses.now }
    ensures { IfOk result (λ v. v.items ≡ put_all part_sort same_set uses.now (gaps part_sort rows.now uses.now)) }
{
    let rest = without(alloc, rows, uses)?;
    let all = put_all(alloc, rest, uses)?;
    Ok(all)
}
