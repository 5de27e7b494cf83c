//! The sets with which a step uses its parts.
ghost use Rattle.std.specs.Prelude.{◌≡◌, List, ◌∷◌, ◌++◌, IfOk, Some};
ghost use Rattle.wg_rows.specs.Cut.{choose};
ghost use Rattle.wg_rows.specs.Rows.{Apart};
ghost use Rattle.wg_rows.specs.Runs.{part_sort};
ghost use Rattle.wg_rows.specs.Sets.{UseRow, both_sets, union_row, with_use, with_uses, sets, begins_in_line, AreSameSets};

use crate::rows::{Run, are_apart, by_place, cut, gaps, inside, printed, put_all};
use bitflags::Flags;
use std::alloc::Global;
use wg_entry::NoMemory;
use wg_trace::parts::PartRun;
use wg_trace::usages::Usages;

/// The rows with more usages in each.
fn with_usages(
    alloc: Global,
    rows: &[(PartRun, Usages)],
    usages: Usages,
) -> Result<Vec<(PartRun, Usages)>, NoMemory>
    ensures { IfOk result (λ v. v.items ≡ choose (λ old. Some (both_sets usages old)) rows.now) }
{
    let mut out = Vec::new(alloc);
    for row in rows {
        out.push((row.0, usages.union(row.1)))?;
    }
    Ok(out)
}

/// Rows with one more use, whose set is joined with those of its parts.
fn union_row(
    alloc: Global,
    rows: &[(PartRun, Usages)],
    row: (PartRun, Usages),
) -> Result<Vec<(PartRun, Usages)>, NoMemory>
    ensures { IfOk result (λ v. v.items ≡ union_row row rows.now) }
{
    let rest = cut(alloc, rows, row.0)?;
    let old = inside(alloc, rows, row.0)?;
    let joined = with_usages(alloc, old.as_slice(), row.1)?;
    let more = put_all(alloc, rest, joined.as_slice())?;
    let left = gaps(alloc, row, rows)?;
    put_all(alloc, more, left.as_slice())
}

/// Rows with one more use. A use with an empty run adds nothing.
pub fn with_use(
    alloc: Global,
    rows: &[(PartRun, Usages)],
    row: (PartRun, Usages),
) -> Result<Vec<(PartRun, Usages)>, NoMemory>
    ensures { IfOk result (λ v. v.items ≡ with_use row rows.now) }
{
    if row.0.is_full() {
        return union_row(alloc, rows, row);
    }
    let held = Vec::from_slice(alloc, rows)?;
    Ok(held)
}

/// Rows with more uses, the last of which is added first.
pub fn with_uses(
    alloc: Global,
    rows: &[(PartRun, Usages)],
    more: &[(PartRun, Usages)],
) -> Result<Vec<(PartRun, Usages)>, NoMemory>
    ensures { IfOk result (λ v. v.items ≡ with_uses more.now rows.now) }
{
    let mut out = Vec::from_slice(alloc, rows)?;
    let mut i = more.len();
    while i > 0 {
        i -= 1;
        let row = more[i];
        if row.0.is_full() {
            out = union_row(alloc, out.as_slice(), row)?;
        }
    }
    Ok(out)
}

/// Whether rows, if there are any, begin in the line of a run.
fn is_in_line(rows: &[(PartRun, Usages)], run: PartRun) -> bool
    ensures { result ≡ begins_in_line run rows.now }
{
    match rows.first() {
        Some(first) => first.0.same_line(&run),
        None => true,
    }
}

/// The sets of a line with one more use. Where that is of another line, it begins anew, and the line
/// before it goes to the end of those that are done.
#[tactic(auto, using(crate::proofs::Lines::flushed, crate::proofs::Lines::added, crate::proofs::Sets::with_use_apart))]
fn next_in_line(
    alloc: Global,
    done: &mut Vec<(PartRun, Usages)>,
    line: Vec<(PartRun, Usages)>,
    row: (PartRun, Usages),
) -> Result<Vec<(PartRun, Usages)>, NoMemory>
    requires { Apart part_sort line.items }
    ensures apart { IfOk result (λ v. Apart part_sort v.items) }
    ensures sets { IfOk result (λ v. (rest : List UseRow) →
        AreSameSets (done.new.items ++ (v.items ++ rest)) (done.old.items ++ (line.items ++ (row ∷ rest)))) }
{
    if is_in_line(line.as_slice(), row.0) {
        return with_use(alloc, line.as_slice(), row);
    }
    done.extend_from_slice(line.as_slice())?;
    with_use(alloc, &[], row)
}

/// The sets of uses that stand in the order of their lines, line by line.
#[tactic(auto, using(crate::proofs::Lines::last_line))]
fn by_lines(alloc: Global, uses: &[(PartRun, Usages)]) -> Result<Vec<(PartRun, Usages)>, NoMemory>
    ensures { IfOk result (λ v. AreSameSets v.items uses.now) }
{
    let mut done = Vec::with_capacity(alloc, uses.len())?;
    let mut line = Vec::new(alloc);
    for row in uses {
        line = next_in_line(alloc, &mut done, line, *row)?;
    }
    done.extend_from_slice(line.as_slice())?;
    Ok(done)
}

/// The sets of the parts of uses, in printed form. Uses in that form, as those of most steps are, are
/// only looked through. Others are put into the order of their places. They are printed where no two
/// share a part in different ways, and are joined line by line where some do.
#[tactic(auto, using(crate::proofs::Order::sets_same, crate::proofs::Sets::over_none, crate::proofs::SetsPrinted::printed_sets, crate::proofs::Lines::sets_sorted))]
pub fn sets(alloc: Global, uses: &[(PartRun, Usages)]) -> Result<Vec<(PartRun, Usages)>, NoMemory>
    ensures { IfOk result (λ v. v.items ≡ sets uses.now) }
{
    if are_apart(uses) {
        let held = Vec::from_slice(alloc, uses)?;
        return Ok(held);
    }
    let mut sorted = Vec::from_slice(alloc, uses)?;
    sorted.sort_by(|row, other| by_place(&row.0, &other.0))?;
    let rows = printed(alloc, sorted.as_slice())?;
    if are_apart(rows.as_slice()) {
        return Ok(rows);
    }
    let rows = by_lines(alloc, sorted.as_slice())?;
    if are_apart(rows.as_slice()) {
        return Ok(rows);
    }
    with_uses(alloc, &[], uses)
}
