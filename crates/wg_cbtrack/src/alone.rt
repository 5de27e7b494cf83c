//! Rows that have one of an object at most: they are found, and others are put in place of them, with no
//! list made.
ghost use Rattle.std.specs.Prelude.{◌≡◌, ℕ, suc, slice_index_or, Option, IsFalse, ◌≤◌, ◌<◌, ◌+◌, [], ◌∷◌, ◌++◌, length, vec_len, vec_capacity, true, IsTrue, IfSome};
ghost use Rattle.wg_rows.specs.Rows.{Apart};
ghost use Rattle.wg_rows.specs.Runs.{part_sort};
ghost use Rattle.wg_cbtrack.specs.Owners.{Ordered, rows_of, rows_below, rows_above};
ghost use Rattle.wg_cbtrack.specs.Near.{use_object};
ghost use Rattle.wg_cbtrack.specs.Join.{used_after};
ghost use Rattle.wg_cbtrack.specs.Alone.{some, with_set, IsAlone, is_below, are_spread, Spread, AllAlone};

use crate::owners::{Owned, start_of};
use wg_inplace::place::insert_one;
use wg_rows::rows::Run;
use wg_trace::parts::PartRun;
use wg_trace::usages::Usages;

/// Where the rows of up to four uses were found, in their order.
#[derive(Clone, Copy)]
pub struct Places {
    count: u8,
    first: usize,
    second: usize,
    third: usize,
    fourth: usize,
}

impl Places {
    /// None was found.
    pub fn new() -> Places {
        Places {
            count: 0,
            first: 0,
            second: 0,
            third: 0,
            fourth: 0,
        }
    }

    /// With one more, unless there are four.
    pub fn and(self, at: usize) -> Places {
        match self.count {
            0 => Places {
                count: 1,
                first: at,
                ..self
            },
            1 => Places {
                count: 2,
                second: at,
                ..self
            },
            2 => Places {
                count: 3,
                third: at,
                ..self
            },
            3 => Places {
                count: 4,
                fourth: at,
                ..self
            },
            _ => self,
        }
    }

    /// The first of them, behind rows that came before it since, or another place if there is none.
    fn next_or(self, other: usize, more: usize) -> usize {
        if self.count == 0 {
            return other;
        }
        self.first.saturating_add(more)
    }

    /// Those behind the first.
    fn later(self) -> Places {
        Places {
            count: self.count.saturating_sub(1),
            first: self.second,
            second: self.third,
            third: self.fourth,
            fourth: 0,
        }
    }
}

/// Whether what stands before a place is of a lesser object.
fn is_behind<T: Owned>(rows: &[T], object: u64, at: usize) -> bool
    requires { at ≤ length rows.now }
    ensures { IsTrue result → (j : ℕ) (d : T) → at ≡ suc j → T.object (slice_index_or rows.now j d) < object }
{
    if at == 0 {
        return true;
    }
    rows[at - 1].object() < object
}

/// Whether what stands at a place is of no lesser object.
fn is_before<T: Owned>(rows: &[T], object: u64, at: usize) -> bool
    ensures { IsTrue result → (d : T) → at < length rows.now → object ≤ T.object (slice_index_or rows.now at d) }
{
    if at >= rows.len() {
        return true;
    }
    object <= rows[at].object()
}

/// Whether the rows of an object begin at a place.
fn begins_at<T: Owned>(rows: &[T], object: u64, at: usize) -> bool
    requires { Ordered T.object rows.now }
    ensures place { IsTrue result → at ≡ length (rows_below T.object object rows.now) }
    ensures bound { IsTrue result → at ≤ length rows.now }
{
    if at > rows.len() {
        return false;
    }
    is_behind(rows, object, at) && is_before(rows, object, at)
}

/// Where the rows of an object begin, which is tried first at one place.
pub fn seek<T: Owned>(rows: &[T], object: u64, hint: usize) -> usize
    requires { Ordered T.object rows.now }
    ensures place { result ≡ length (rows_below T.object object rows.now) }
    ensures bound { result ≤ length rows.now }
{
    if begins_at(rows, object, hint) {
        return hint;
    }
    start_of(rows, object)
}

/// Whether what stands behind a place is of an object.
fn goes_on<T: Owned>(rows: &[T], object: u64, at: usize) -> bool
    requires { at < length rows.now }
    ensures { IsFalse result → (d : T) → suc at < length rows.now → T.object (slice_index_or rows.now (suc at) d) ≡ object → ⊥ }
{
    if at + 1 >= rows.len() {
        return false;
    }
    rows[at + 1].object() == object
}

/// The row of an object whose rows begin at a place, unless there are more.
pub fn one_at<T: Owned>(rows: &[T], object: u64, at: usize) -> Option<Option<T>>
    requires ordered { Ordered T.object rows.now }
    requires place { at ≡ length (rows_below T.object object rows.now) }
    ensures { IfSome result (λ row. rows_of T.object object rows.now ≡ some row) }
{
    if at >= rows.len() {
        return Some(None);
    }
    let row = rows[at];
    if row.object() != object {
        return Some(None);
    }
    if goes_on(rows, object, at) {
        return None;
    }
    Some(Some(row))
}

/// The set of a use's run, if its object has no other parts in rows where its own begin at a place.
pub fn set_at(
    rows: &[(PartRun, Usages)],
    row: (PartRun, Usages),
    at: usize,
) -> Option<Option<Usages>>
    requires ordered { Ordered use_object rows.now }
    requires place { at ≡ length (rows_below use_object (use_object row) rows.now) }
    ensures { IfSome result (λ set. rows_of use_object (use_object row) rows.now ≡ with_set row.0 set) }
{
    match one_at(rows, row.object(), at) {
        None => None,
        Some(None) => Some(None),
        Some(Some(held)) => {
            if held.0 != row.0 {
                return None;
            }
            Some(Some(held.1))
        }
    }
}

/// Whether there is a row of an object, whose rows begin at a place.
pub fn is_there<T: Owned>(rows: &[T], object: u64, at: usize) -> bool
    requires ordered { Ordered T.object rows.now }
    requires place { at ≡ length (rows_below T.object object rows.now) }
    ensures yes { IsTrue result → at < length rows.now }
    ensures no { IsFalse result → rows_of T.object object rows.now ≡ [] }
    ensures some { IsTrue result → rows_of T.object object rows.now ≡ [] → ⊥ }
{
    if at >= rows.len() {
        return false;
    }
    rows[at].object() == object
}

/// Puts a row in place of the one of its object, or among the others where there is none.
pub fn put_one<T: Owned>(rows: &mut Vec<T>, at: usize, row: T)
    requires ordered { Ordered T.object rows.old.items }
    requires place { at ≡ length (rows_below T.object (T.object row) rows.old.items) }
    requires one { (held : Option T) × (rows_of T.object (T.object row) rows.old.items ≡ some held) }
    requires room { vec_len rows.old < vec_capacity rows.old }
    ensures items { rows.new.items ≡ rows_below T.object (T.object row) rows.old.items ++ (row ∷ rows_above T.object (T.object row) rows.old.items) }
    ensures len { vec_len rows.new ≤ vec_len rows.old + 1 }
    ensures capacity { vec_capacity rows.old ≤ vec_capacity rows.new }
{
    if is_there(rows.as_slice(), row.object(), at) {
        rows[at] = row;
        return;
    }
    insert_one(rows, at, row);
}

/// Whether a use stands before the next, if there is one, by its object.
fn is_below(row: (PartRun, Usages), later: &[(PartRun, Usages)]) -> bool
    ensures { result ≡ is_below row later.now }
{
    if later.is_empty() {
        return true;
    }
    row.object() < later[0].object()
}

/// Whether uses cover something each, and stand in the order of their objects, each of another one.
pub fn are_spread(uses: &[(PartRun, Usages)]) -> bool
    ensures { result ≡ are_spread uses.now }
{
    for (i, row) in uses.iter().enumerate() {
        if !row.0.is_full() {
            return false;
        }
        if !is_below(*row, &uses[i + 1..]) {
            return false;
        }
    }
    true
}

/// Puts a use over rows in place of what its object has there, which is looked for first at one place: where
/// the next may stand.
fn put_next(rows: &mut Vec<(PartRun, Usages)>, row: (PartRun, Usages), hint: usize) -> usize
    requires ordered { Ordered use_object rows.old.items }
    requires alone { IsAlone rows.old.items row.0 }
    requires room { vec_len rows.old < vec_capacity rows.old }
    ensures items { rows.new.items ≡ rows_below use_object (use_object row) rows.old.items ++ (row ∷ rows_above use_object (use_object row) rows.old.items) }
    ensures len { vec_len rows.new ≤ vec_len rows.old + 1 }
    ensures capacity { vec_capacity rows.old ≤ vec_capacity rows.new }
{
    let at = seek(rows.as_slice(), row.object(), hint);
    put_one(rows, at, row);
    at.saturating_add(1)
}

/// Puts uses over rows, each in place of what its object has there. They are looked for first where they may
/// have been found.
pub fn put_alone(rows: &mut Vec<(PartRun, Usages)>, uses: &[(PartRun, Usages)], places: Places)
    requires apart { Apart part_sort rows.old.items }
    requires spread { Spread uses.now }
    requires alone { AllAlone rows.old.items uses.now }
    requires room { vec_len rows.old + length uses.now ≤ vec_capacity rows.old }
    ensures items { rows.new.items ≡ used_after uses.now rows.old.items }
    ensures capacity { vec_capacity rows.old ≤ vec_capacity rows.new }
{
    let len = rows.len();
    let mut rest = places;
    let mut hint = 0;
    for row in uses {
        let at = rest.next_or(hint, rows.len().saturating_sub(len));
        rest = rest.later();
        hint = put_next(rows, *row, at);
    }
}
