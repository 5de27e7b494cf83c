//! Where a row is put among rows in printed form, and rows changed there.
ghost use Rattle.std.specs.Prelude.{◌≡◌, ◌≤◌, ◌<◌, ◌+◌, ◌-◌, ◌∷◌, ◌++◌, take, drop, length, slice_index_or, slice_set, vec_len, vec_capacity, None, true, false, IsTrue, IsFalse};
ghost use Rattle.wg_rows.specs.Rows.{Apart, joined, run_before, put};
ghost use Rattle.wg_rows.specs.Cut.{cut_row, cut, overwrite};
ghost use Rattle.wg_rows.specs.Clip.{some_row};
ghost use Rattle.wg_rows.specs.Chained.{is_clear, AllClear, Chained};
ghost use Rattle.wg_inplace.specs.Place.{Stops, Whole, AllBefore, AllBehind, IsNear};
ghost use Rattle.wg_rows.proofs.Put.{Widens};
ghost use Rattle.wg_rows.proofs.Cut.{Clips};

use wg_rows::rows::{Clip, Run, Value, joined};

/// Whether a row stands before another, and cannot be joined with it.
fn is_clear<R: Run, V: Value>(row: (R, V), other: (R, V)) -> bool
    ensures { result ≡ is_clear R.sort V.same row other }
{
    row.0.ends_before(&other.0) && !(row.1.is_same(&other.1) && row.0.meets(&other.0))
}

/// Where those of the rows before a place end that stand before a row and cannot be joined with it.
pub fn step_back<R: Run, V: Value>(rows: &[(R, V)], at: usize, row: (R, V)) -> usize
    requires chained { Chained R.sort rows.now }
    requires bound { at ≤ length rows.now }
    ensures bound { result ≤ at }
    ensures clear { AllClear R.sort V.same row (take result rows.now) }
{
    let mut at = at;
    while at > 0 {
        if is_clear(rows[at - 1], row) {
            return at;
        }
        at -= 1;
    }
    0
}

/// Whether a row is joined with another, or stands before it.
fn stops<R: Run, V: Value>(other: (R, V), row: (R, V)) -> bool
    ensures yes { IsTrue result → joined R.sort V.same other row ≡ None → run_before R.sort row.0 other.0 ≡ true }
    ensures none { IsFalse result → joined R.sort V.same other row ≡ None }
    ensures behind { IsFalse result → run_before R.sort row.0 other.0 ≡ false }
{
    if row.0.is_before(&other.0) {
        return true;
    }
    joined(other, row).is_some()
}

/// Where a row is put: behind those that stand before it.
#[tactic(auto, using(crate::proofs::Placing::skips, crate::proofs::Placing::stops_at, crate::proofs::Placing::stops_end))]
fn skip<R: Run, V: Value>(rows: &[(R, V)], from: usize, row: (R, V)) -> usize
    requires { from ≤ length rows.now }
    ensures order { from ≤ result }
    ensures bound { result ≤ length rows.now }
    ensures put { take result rows.now ++ put R.sort V.same row (drop result rows.now) ≡ take from rows.now ++ put R.sort V.same row (drop from rows.now) }
    ensures stops { Stops R.sort V.same row (drop result rows.now) }
{
    let mut at = from;
    while at < rows.len() {
        if stops(rows[at], row) {
            return at;
        }
        at += 1;
    }
    at
}

/// A row with all that it is joined with, and where those end.
#[tactic(auto, using(crate::proofs::Placing::stays, crate::proofs::Placing::stays_end))]
fn join_from<R: Run, V: Value>(rows: &[(R, V)], from: usize, row: (R, V)) -> (usize, (R, V))
    requires widens { Widens R.sort }
    requires chained { Chained R.sort rows.now }
    requires bound { from ≤ length rows.now }
    requires stops { Stops R.sort V.same row (drop from rows.now) }
    ensures order { from ≤ result.0 }
    ensures bound { result.0 ≤ length rows.now }
    ensures put { put R.sort V.same row (drop from rows.now) ≡ result.1 ∷ drop result.0 rows.now }
{
    let mut to = from;
    let mut all = row;
    while to < rows.len() {
        match joined(rows[to], all) {
            Some(both) => {
                all = both;
                to += 1;
            }
            None => {
                return (to, all);
            }
        }
    }
    (to, all)
}

/// The rows in whose place a row comes that is put among others, and the row as it comes there. It is looked
/// for from a place.
#[tactic(auto, using(crate::proofs::Placing::put_cut))]
pub fn place_of<R: Run, V: Value>(rows: &[(R, V)], at: usize, row: (R, V)) -> (usize, usize, (R, V))
    requires widens { Widens R.sort }
    requires chained { Chained R.sort rows.now }
    requires bound { at ≤ length rows.now }
    ensures order { result.0 ≤ result.1 }
    ensures bound { result.1 ≤ length rows.now }
    ensures put { put R.sort V.same row rows.now ≡ take result.0 rows.now ++ (result.2 ∷ drop result.1 rows.now) }
{
    let from = skip(rows, step_back(rows, at, row), row);
    let (to, all) = join_from(rows, from, row);
    (from, to, all)
}

/// Moves what stands from one place on to one before it.
fn move_back<T: Copy>(rows: &mut Vec<T>, to: usize, end: usize)
    requires order { end ≤ to }
    requires within { to ≤ vec_len rows.old }
    ensures before { take end rows.new.items ≡ take end rows.old.items }
    ensures behind { drop end rows.new.items ≡ drop to rows.old.items }
    ensures len { vec_len rows.new + to ≡ vec_len rows.old + end }
    ensures capacity { vec_capacity rows.old ≤ vec_capacity rows.new }
{
    if end == to {
        return;
    }
    let len = rows.len();
    rows.copy_within(to..len, end);
    rows.truncate(end + (len - to));
}

/// Takes the rows of a range out.
fn take_out<T: Copy>(rows: &mut Vec<T>, from: usize, to: usize)
    requires order { from ≤ to }
    requires within { to ≤ vec_len rows.old }
    ensures items { rows.new.items ≡ take from rows.old.items ++ drop to rows.old.items }
    ensures capacity { vec_capacity rows.old ≤ vec_capacity rows.new }
{
    move_back(rows, to, from);
}

/// Puts one row in place of another.
fn set_one<T: Copy>(rows: &mut Vec<T>, i: usize, row: T)
    requires { i < vec_len rows.old }
    ensures items { rows.new.items ≡ slice_set rows.old.items i row }
    ensures len { vec_len rows.new ≡ vec_len rows.old }
    ensures capacity { vec_capacity rows.old ≤ vec_capacity rows.new }
{
    rows[i] = row;
}

/// Moves what stands from a place on one place behind, in room that there is.
fn open_up<T: Copy>(rows: &mut Vec<T>, from: usize, row: T)
    requires within { from ≤ vec_len rows.old }
    requires room { vec_len rows.old < vec_capacity rows.old }
    ensures before { take from rows.new.items ≡ take from rows.old.items }
    ensures behind { drop (from + 1) rows.new.items ≡ drop from rows.old.items }
    ensures len { vec_len rows.new ≡ vec_len rows.old + 1 }
    ensures capacity { vec_capacity rows.old ≤ vec_capacity rows.new }
{
    let len = rows.len();
    rows.push_reserved(row);
    rows.copy_within(from..len, from + 1);
}

/// Puts a row in at a place, in room that there is.
#[tactic(auto, using(crate::proofs::Placing::opened))]
pub fn insert_one<T: Copy>(rows: &mut Vec<T>, from: usize, row: T)
    requires within { from ≤ vec_len rows.old }
    requires room { vec_len rows.old < vec_capacity rows.old }
    ensures items { rows.new.items ≡ take from rows.old.items ++ (row ∷ drop from rows.old.items) }
    ensures len { vec_len rows.new ≡ vec_len rows.old + 1 }
    ensures capacity { vec_capacity rows.old ≤ vec_capacity rows.new }
{
    open_up(rows, from, row);
    set_one(rows, from, row);
}

/// Puts one row in place of those of a range, in room that there is.
pub fn replace<T: Copy>(rows: &mut Vec<T>, from: usize, to: usize, row: T)
    requires order { from ≤ to }
    requires within { to ≤ vec_len rows.old }
    requires room { vec_len rows.old < vec_capacity rows.old }
    ensures items { rows.new.items ≡ take from rows.old.items ++ (row ∷ drop to rows.old.items) }
    ensures len { vec_len rows.new + to ≡ vec_len rows.old + from + 1 }
    ensures capacity { vec_capacity rows.old ≤ vec_capacity rows.new }
{
    if from == to {
        insert_one(rows, from, row);
        return;
    }
    set_one(rows, from, row);
    move_back(rows, to, from + 1);
}

/// Puts a row among rows, in room that there is. Its place is looked for from one place.
pub fn put_in<R: Run, V: Value>(rows: &mut Vec<(R, V)>, at: usize, row: (R, V))
    requires widens { Widens R.sort }
    requires chained { Chained R.sort rows.old.items }
    requires bound { at ≤ vec_len rows.old }
    requires room { vec_len rows.old < vec_capacity rows.old }
    ensures items { rows.new.items ≡ put R.sort V.same row rows.old.items }
    ensures len { vec_len rows.new ≤ vec_len rows.old + 1 }
    ensures capacity { vec_capacity rows.old ≤ vec_capacity rows.new }
{
    let (from, to, all) = place_of(rows.as_slice(), at, row);
    replace(rows, from, to, all);
}

/// Puts the pieces of a row in its place, in room that there is: how many they are.
fn put_pieces<R: Copy, V: Copy>(
    rows: &mut Vec<(R, V)>,
    i: usize,
    left: Option<R>,
    right: Option<R>,
    value: V,
) -> usize
    requires within { i < vec_len rows.old }
    requires room { vec_len rows.old < vec_capacity rows.old }
    ensures items { rows.new.items ≡ take i rows.old.items ++ ((some_row left value ++ some_row right value) ++ drop (i + 1) rows.old.items) }
    ensures count { result ≡ length (some_row left value ++ some_row right value) }
    ensures capacity { vec_capacity rows.old ≤ vec_capacity rows.new }
{
    match (left, right) {
        (None, None) => {
            take_out(rows, i, i + 1);
            0
        }
        (Some(left), None) => {
            replace(rows, i, i + 1, (left, value));
            1
        }
        (None, Some(right)) => {
            replace(rows, i, i + 1, (right, value));
            1
        }
        (Some(left), Some(right)) => {
            replace(rows, i, i + 1, (right, value));
            replace(rows, i, i, (left, value));
            2
        }
    }
}

/// Puts what is left of a row without a run in its place, in room that there is: how many pieces that is.
#[tactic(auto, using(crate::proofs::Placing::pieces_are))]
fn cut_one<R: Clip, V: Value>(rows: &mut Vec<(R, V)>, i: usize, run: R) -> usize
    requires within { i < vec_len rows.old }
    requires room { vec_len rows.old < vec_capacity rows.old }
    ensures items { (d : R × V) → rows.new.items ≡ take i rows.old.items ++ (cut_row R.sort run (slice_index_or rows.old.items i d) ++ drop (i + 1) rows.old.items) }
    ensures count { (d : R × V) → result ≡ length (cut_row R.sort run (slice_index_or rows.old.items i d)) }
    ensures capacity { vec_capacity rows.old ≤ vec_capacity rows.new }
{
    let row = rows[i];
    if !run.same_line(&row.0) {
        return 1;
    }
    put_pieces(rows, i, row.0.left(&run), row.0.right(&run), row.1)
}

/// Cuts a run out of the rows from a place on, in room that there is.
fn cut_in<R: Clip, V: Value>(rows: &mut Vec<(R, V)>, from: usize, run: R)
    requires whole { Whole R.sort }
    requires chained { Chained R.sort rows.old.items }
    requires full { R.sort.lo run < R.sort.hi run }
    requires bound { from ≤ vec_len rows.old }
    requires before { AllBefore R.sort run (take from rows.old.items) }
    requires room { vec_len rows.old < vec_capacity rows.old }
    ensures items { rows.new.items ≡ cut R.sort run rows.old.items }
    ensures len { vec_len rows.new ≤ vec_len rows.old + 1 }
    ensures bound { from ≤ vec_len rows.new }
    ensures capacity { vec_capacity rows.old ≤ vec_capacity rows.new }
{
    let mut i = from;
    while i < rows.len() {
        let row = rows[i];
        if run.ends_before(&row.0) {
            return;
        }
        let count = cut_one(rows, i, run);
        i += count;
        if count > 1 {
            return;
        }
    }
}

/// Puts another value in a run, in room that there is. Its place is looked for from one place.
#[tactic(auto, using(crate::proofs::Placing::clear_ends, crate::proofs::Placing::apart_chained, crate::proofs::Placing::cut_chained))]
pub fn overwrite_in<R: Clip, V: Value>(rows: &mut Vec<(R, V)>, at: usize, row: (R, V))
    requires widens { Widens R.sort }
    requires whole { Whole R.sort }
    requires clips { Clips R.sort }
    requires apart { Apart R.sort rows.old.items }
    requires full { R.sort.lo row.0 < R.sort.hi row.0 }
    requires bound { at ≤ vec_len rows.old }
    requires room { vec_len rows.old + 2 ≤ vec_capacity rows.old }
    ensures items { rows.new.items ≡ overwrite R.sort V.same row rows.old.items }
    ensures len { vec_len rows.new ≤ vec_len rows.old + 2 }
    ensures capacity { vec_capacity rows.old ≤ vec_capacity rows.new }
{
    let from = step_back(rows.as_slice(), at, row);
    cut_in(rows, from, row.0);
    put_in(rows, from, row);
}

/// Where a run stands among rows that are in order.
pub fn place<R: Run, V: Value>(rows: &[(R, V)], run: R) -> usize
    ensures { result ≤ length rows.now }
{
    rows.partition_point(|row| row.0.is_before(&run))
}

/// Where those of the rows before a place end that end before a run.
fn back_to<R: Run, V: Value>(rows: &[(R, V)], at: usize, run: R) -> usize
    requires chained { Chained R.sort rows.now }
    requires bound { at ≤ length rows.now }
    ensures bound { result ≤ at }
    ensures before { AllBefore R.sort run (take result rows.now) }
{
    let mut at = at;
    while at > 0 {
        let row = rows[at - 1];
        if row.0.ends_before(&run) {
            return at;
        }
        at -= 1;
    }
    0
}

/// Where the rows from a place on begin that a run ends before.
#[tactic(auto, using(crate::proofs::Placing::behind_at, crate::proofs::Placing::behind_end))]
fn on_to<R: Run, V: Value>(rows: &[(R, V)], from: usize, run: R) -> usize
    requires chained { Chained R.sort rows.now }
    requires bound { from ≤ length rows.now }
    ensures order { from ≤ result }
    ensures bound { result ≤ length rows.now }
    ensures behind { AllBehind R.sort run (drop result rows.now) }
{
    let mut to = from;
    while to < rows.len() {
        if run.ends_before(&rows[to].0) {
            return to;
        }
        to += 1;
    }
    to
}

/// The rows near a run, which are looked for from a place.
#[tactic(auto, using(crate::proofs::Placing::near_at))]
pub fn near_run<R: Run, V: Value>(rows: &[(R, V)], at: usize, run: R) -> &[(R, V)]
    requires chained { Chained R.sort rows.now }
    requires bound { at ≤ length rows.now }
    ensures { IsNear R.sort run rows.now result.now }
{
    let from = back_to(rows, at, run);
    let to = on_to(rows, from, run);
    &rows[from..to]
}
