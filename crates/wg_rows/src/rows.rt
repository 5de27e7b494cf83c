//! Rows of runs, each with a value.
ghost use Rattle.std.specs.Prelude.{◌≡◌, Bool, true, nat_lt, min, max, [], ◌∷◌, ◌++◌, reverse, if◌then◌else◌, IfOk, OnOk, IsTrue};
ghost use Rattle.wg_rows.specs.Rows.{Sort, list_eq, run_before, meet, joined, put, printed};
ghost use Rattle.wg_rows.specs.Chained.{ends_before, is_clear, AllClear, Chained};
ghost use Rattle.wg_rows.specs.Cut.{cut_row, cut, inside, gaps, put_all, overwrite};
ghost use Rattle.wg_rows.specs.Order.{are_full, is_first, are_apart};
ghost use Rattle.wg_rows.specs.Clip.{left_run, right_run, inner_run, some_row};

use std::alloc::Global;
use std::cmp::Ordering;
use wg_entry::NoMemory;

/// A run of neighbours in a line.
pub trait Run: Copy {
    ghost sort: { Sort Self };

    fn is_before(&self, other: &Self) -> bool
        ensures { result ≡ run_before sort self.now other.now };

    fn meets(&self, other: &Self) -> bool
        ensures { result ≡ meet sort self.now other.now };

    fn ends_before(&self, other: &Self) -> bool
        ensures { result ≡ ends_before sort self.now other.now };

    /// Whether it covers something.
    fn is_full(&self) -> bool
        ensures { result ≡ nat_lt (sort.lo self.now) (sort.hi self.now) };

    fn same_line(&self, other: &Self) -> bool
        ensures { result ≡ list_eq (sort.line self.now) (sort.line other.now) };

    fn both(&self, other: &Self) -> Self
        requires { meet sort self.now other.now ≡ true }
        ensures { result ≡ sort.widen self.now
            (min (sort.lo self.now) (sort.lo other.now)) (max (sort.hi self.now) (sort.hi other.now)) };
}

/// A run of which pieces can be cut.
pub trait Clip: Run {
    /// What lies before another run of its line.
    fn left(&self, other: &Self) -> Option<Self>
        ensures { result ≡ left_run Self.sort self.now other.now };

    /// What lies behind another run of its line.
    fn right(&self, other: &Self) -> Option<Self>
        ensures { result ≡ right_run Self.sort self.now other.now };

    /// What lies in another run.
    fn inner(&self, other: &Self) -> Option<Self>
        ensures { result ≡ inner_run Self.sort self.now other.now };
}

/// The value of a run. Neighbours are joined where their values are the same.
pub trait Value: Copy {
    ghost same: { Self → Self → Bool };

    fn is_same(&self, other: &Self) -> bool
        ensures { result ≡ same self.now other.now };
}

/// The order in which runs are printed. Runs of a line that begin alike count as equal.
pub fn by_place<R: Run>(run: &R, other: &R) -> Ordering
    ensures { result ≡ (if run_before R.sort run.now other.now then Ordering.Less else
        (if run_before R.sort other.now run.now then Ordering.Greater else Ordering.Equal)) }
{
    if run.is_before(other) {
        Ordering::Less
    } else if other.is_before(run) {
        Ordering::Greater
    } else {
        Ordering::Equal
    }
}

/// Two rows as one, if they meet and have the same value.
pub fn joined<R: Run, V: Value>(row: (R, V), other: (R, V)) -> Option<(R, V)>
    ensures { result ≡ joined R.sort V.same row other }
{
    if row.1.is_same(&other.1) && row.0.meets(&other.0) {
        return Some((row.0.both(&other.0), other.1));
    }
    None
}

/// Rows in printed order with one more.
pub fn put<R: Run, V: Value>(
    alloc: Global,
    rows: &[(R, V)],
    row: (R, V),
) -> Result<Vec<(R, V)>, NoMemory>
    ensures { IfOk result (λ v. v.items ≡ put R.sort V.same row rows.now) }
{
    let mut out = Vec::with_capacity(alloc, rows.len())?;
    let mut row = row;
    for (i, other) in rows.iter().enumerate() {
        match joined(*other, row) {
            Some(both) => {
                row = both;
            }
            None => {
                if row.0.is_before(&other.0) {
                    out.push(row)?;
                    out.extend_from_slice(&rows[i..])?;
                    return Ok(out);
                }
                out.push(*other)?;
            }
        }
    }
    out.push(row)?;
    Ok(out)
}

/// Whether a row stands before another, and cannot be joined with it.
fn is_clear<R: Run, V: Value>(row: (R, V), other: (R, V)) -> bool
    ensures { result ≡ is_clear R.sort V.same row other }
{
    row.0.ends_before(&other.0) && !(row.1.is_same(&other.1) && row.0.meets(&other.0))
}

/// Whether each row covers something.
pub fn are_full<R: Run, V: Value>(rows: &[(R, V)]) -> bool
    ensures { result ≡ are_full R.sort rows.now }
{
    for row in rows {
        if !row.0.is_full() {
            return false;
        }
    }
    true
}

/// Whether the next row, if there is one, stands behind a row and cannot be joined with it.
fn is_first<R: Run, V: Value>(row: (R, V), later: &[(R, V)]) -> bool
    ensures { result ≡ is_first R.sort V.same row later.now }
{
    if later.is_empty() {
        return true;
    }
    is_clear(row, later[0])
}

/// Whether rows are in printed form.
pub fn are_apart<R: Run, V: Value>(rows: &[(R, V)]) -> bool
    ensures { result ≡ are_apart R.sort V.same rows.now }
{
    for (i, row) in rows.iter().enumerate() {
        if !row.0.is_full() {
            return false;
        }
        if !is_first(*row, &rows[i + 1..]) {
            return false;
        }
    }
    true
}

/// Whether the last of the rows ends before a row.
fn is_behind<R: Run, V: Value>(rows: &[(R, V)], row: (R, V)) -> bool
    ensures { IsTrue result → Chained R.sort rows.now → Chained R.sort (rows.now ++ (row ∷ [])) }
{
    match rows.split_last() {
        Some((last, _)) => last.0.ends_before(&row.0),
        None => true,
    }
}

/// Moves rows from the end of those in front to those behind, which are held from last to first, until
/// all in front stand before a row and cannot be joined with it.
#[tactic(auto, using(crate::proofs::Chained::all_clear, crate::proofs::Chained::chained_less))]
fn step_back<R: Run, V: Value>(
    front: &mut Vec<(R, V)>,
    back: &mut Vec<(R, V)>,
    row: (R, V),
) -> Result<(), NoMemory>
    requires { Chained R.sort front.old.items }
    ensures chained { OnOk result (Chained R.sort front.new.items) }
    ensures clear { OnOk result (AllClear R.sort V.same row front.new.items) }
    ensures rows { OnOk result (front.new.items ++ reverse back.new.items
        ≡ front.old.items ++ reverse back.old.items) }
{
    while let Some(last) = front.pop() {
        if is_clear(last, row) {
            front.push(last)?;
            return Ok(());
        }
        back.push(last)?;
    }
    Ok(())
}

/// Moves all rows in front to those behind.
fn step_to_start<R: Run, V: Value>(
    front: &mut Vec<(R, V)>,
    back: &mut Vec<(R, V)>,
) -> Result<(), NoMemory>
    ensures none { OnOk result (front.new.items ≡ []) }
    ensures rows { OnOk result (reverse back.new.items ≡ front.old.items ++ reverse back.old.items) }
{
    while let Some(row) = front.pop() {
        back.push(row)?;
    }
    Ok(())
}

/// Puts a row among those behind. Rows before its place go to the end of those in front: whether each
/// of these still ends before the next.
fn put_behind<R: Run, V: Value>(
    front: &mut Vec<(R, V)>,
    back: &mut Vec<(R, V)>,
    row: (R, V),
) -> Result<bool, NoMemory>
    requires { Chained R.sort front.old.items }
    ensures chained { IfOk result (λ chained. IsTrue chained → Chained R.sort front.new.items) }
    ensures rows { OnOk result (front.new.items ++ reverse back.new.items
        ≡ front.old.items ++ put R.sort V.same row (reverse back.old.items)) }
{
    let mut row = row;
    let mut chained = true;
    while let Some(other) = back.pop() {
        match joined(other, row) {
            Some(both) => {
                row = both;
            }
            None => {
                if row.0.is_before(&other.0) {
                    back.push(other)?;
                    back.push(row)?;
                    return Ok(chained);
                }
                chained = chained && is_behind(front.as_slice(), other);
                front.push(other)?;
            }
        }
    }
    back.push(row)?;
    Ok(chained)
}

/// Puts a row among rows that are held as those in front and those behind, from where the last was put.
#[tactic(auto, using(crate::proofs::Chained::put_behind))]
fn put_near<R: Run, V: Value>(
    front: &mut Vec<(R, V)>,
    back: &mut Vec<(R, V)>,
    row: (R, V),
) -> Result<(), NoMemory>
    requires { Chained R.sort front.old.items }
    ensures chained { OnOk result (Chained R.sort front.new.items) }
    ensures rows { OnOk result (front.new.items ++ reverse back.new.items
        ≡ put R.sort V.same row (front.old.items ++ reverse back.old.items)) }
{
    step_back(front, back, row)?;
    if !put_behind(front, back, row)? {
        step_to_start(front, back)?;
    }
    Ok(())
}

/// Rows as they are printed.
pub fn printed<R: Run, V: Value>(alloc: Global, rows: &[(R, V)]) -> Result<Vec<(R, V)>, NoMemory>
    ensures { IfOk result (λ v. v.items ≡ printed R.sort V.same rows.now) }
{
    let mut front = Vec::new(alloc);
    let mut back = Vec::with_capacity(alloc, rows.len())?;
    let mut i = rows.len();
    while i > 0 {
        i -= 1;
        put_near(&mut front, &mut back, rows[i])?;
    }
    step_to_start(&mut front, &mut back)?;
    back.reverse();
    Ok(back)
}

/// Adds a row at the end, if there is one.
fn push_some<R: Run, V: Value>(
    out: &mut Vec<(R, V)>,
    run: Option<R>,
    value: V,
) -> Result<(), NoMemory>
    ensures { OnOk result (out.new.items ≡ out.old.items ++ some_row run value) }
{
    match run {
        Some(run) => {
            out.push((run, value))?;
            Ok(())
        }
        None => Ok(()),
    }
}

/// Adds at the end what is left of a row without a run.
fn push_cut<R: Clip, V: Value>(out: &mut Vec<(R, V)>, run: R, row: (R, V)) -> Result<(), NoMemory>
    ensures { OnOk result (out.new.items ≡ out.old.items ++ cut_row R.sort run row) }
{
    if !run.same_line(&row.0) {
        out.push(row)?;
        return Ok(());
    }
    push_some(out, row.0.left(&run), row.1)?;
    push_some(out, row.0.right(&run), row.1)
}

/// Rows without a run.
pub fn cut<R: Clip, V: Value>(
    alloc: Global,
    rows: &[(R, V)],
    run: R,
) -> Result<Vec<(R, V)>, NoMemory>
    ensures { IfOk result (λ v. v.items ≡ cut R.sort run rows.now) }
{
    let mut out = Vec::with_capacity(alloc, rows.len())?;
    for row in rows {
        push_cut(&mut out, run, *row)?;
    }
    Ok(out)
}

/// What rows have in a run.
pub fn inside<R: Clip, V: Value>(
    alloc: Global,
    rows: &[(R, V)],
    run: R,
) -> Result<Vec<(R, V)>, NoMemory>
    ensures { IfOk result (λ v. v.items ≡ inside R.sort run rows.now) }
{
    let mut out = Vec::new(alloc);
    for row in rows {
        if let Some(inner) = row.0.inner(&run) {
            out.push((inner, row.1))?;
        }
    }
    Ok(out)
}

/// What is left of a row where other rows are.
pub fn gaps<R: Clip, V: Value, W: Value>(
    alloc: Global,
    row: (R, W),
    rows: &[(R, V)],
) -> Result<Vec<(R, W)>, NoMemory>
    ensures { IfOk result (λ v. v.items ≡ gaps R.sort (row ∷ []) rows.now) }
{
    let mut left = Vec::new(alloc);
    left.push(row)?;
    for other in rows {
        left = cut(alloc, left.as_slice(), other.0)?;
    }
    Ok(left)
}

/// Rows with others put among them.
pub fn put_all<R: Run, V: Value>(
    alloc: Global,
    rows: Vec<(R, V)>,
    more: &[(R, V)],
) -> Result<Vec<(R, V)>, NoMemory>
    ensures { IfOk result (λ v. v.items ≡ put_all R.sort V.same more.now rows.items) }
{
    let mut front = Vec::new(alloc);
    let mut back = rows;
    back.reverse();
    for row in more {
        put_near(&mut front, &mut back, *row)?;
    }
    step_to_start(&mut front, &mut back)?;
    back.reverse();
    Ok(back)
}

/// Rows with another value in a run.
pub fn overwrite<R: Clip, V: Value>(
    alloc: Global,
    rows: &[(R, V)],
    row: (R, V),
) -> Result<Vec<(R, V)>, NoMemory>
    ensures { IfOk result (λ v. v.items ≡ overwrite R.sort V.same row rows.now) }
{
    let rest = cut(alloc, rows, row.0)?;
    put(alloc, rest.as_slice(), row)
}
