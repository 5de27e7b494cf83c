//! What waits for its release.
ghost use Rattle.std.specs.Prelude.{◌≡◌, List, ◌+◌, ◌≤◌, ◌<◌, ◌∷◌, [], ◌++◌, ◌==◌, true, false, length, map, option_to_list, IfSome, IfNone, vec_len, vec_capacity};
ghost use Rattle.std.specs.VecDeque.{deque_len, deque_capacity};
ghost use Rattle.std.specs.List.{flat_map};
ghost use Rattle.std.specs.List.Sorted.{IsNonDecreasingBy};
ghost use Rattle.wg_fading.specs.Fading.{was_let_go};
ghost use Rattle.wg_holders.specs.Holders.{AreHere};
ghost use Rattle.wg_model.specs.Holding.{is_among};
ghost use Rattle.wg_orders.specs.Trace.{free};
ghost use Rattle.wg_life.specs.Lives.{Notes, live_count, AreOver};
ghost use Rattle.wg_life.specs.Living.{IsKept, IsLess};
ghost use Rattle.wg_life.specs.Waits.{gone_at, waits, is_waiting, will_wait, with_due, freed, is_early, early, starts_late, Losses, IsInserted, IsTidy, IsReleasing, sort_at};

use crate::live::{Live, release_row};
use crate::rows::{Row, lost_in, mark_lost, row_in};
use std::collections::VecDeque;
use wg_fading::Fading;
use wg_types::steps::Item;

/// An object that waits for its release.
#[derive(Clone, Copy)]
pub struct Wait {
    /// The operation that its release waits for: its last use when it was listed.
    pub last: u64,
    pub number: u64,
}

/// What waits for its release, kept beside rows.
#[derive(Drop)]
pub struct Waiting {
    /// The resources that are gone and were not released, in the order of the operations that they wait for.
    pub listed: VecDeque<Wait>,
    /// What a release gives back; empty between releases.
    pub due: Vec<u64>,
    /// What may be dead; no clause speaks of it.
    pub dead: Vec<u64>,
}

/// Notes that an object may be dead, where there is room for that.
fn hint(dead: &mut Vec<u64>, number: u64) {
    if dead.len() < dead.capacity() {
        dead.push_reserved(number);
    }
}

/// Notes that all of a list may be dead.
fn hint_all(dead: &mut Vec<u64>, numbers: &[u64]) {
    for number in numbers {
        hint(dead, *number);
    }
}

/// Lists what waits, behind what waits for the same operation.
fn list(listed: &mut VecDeque<Wait>, wait: Wait)
    requires in_order { IsNonDecreasingBy (λ (other : Wait). other.last) listed.old.items }
    requires room { deque_len listed.old < deque_capacity listed.old }
    ensures inserted { IsInserted wait listed.old.items listed.new.items }
    ensures capacity { deque_capacity listed.old ≤ deque_capacity listed.new }
{
    let place = listed.partition_point(|other| other.last <= wait.last);
    let _ = listed.insert(place, wait);
}

/// Takes out the first that may be due, if there is one.
fn next_early(listed: &mut VecDeque<Wait>, done: u64) -> Option<Wait>
    ensures items { listed.old.items ≡ option_to_list result ++ listed.new.items }
    ensures early { IfSome result (λ wait. is_early done wait ≡ true) }
    ensures late { IfNone result (starts_late done listed.new.items ≡ true) }
    ensures capacity { deque_capacity listed.new ≡ deque_capacity listed.old }
{
    let Some(first) = listed.front() else {
        return None;
    };
    if first.last > done {
        return None;
    }
    listed.pop_front()
}

/// Whether an object waits for its release.
fn waits(row: Row, gone: bool) -> bool
    ensures { result ≡ waits row gone }
{
    row.resource.is_some() && gone && !row.released
}

/// Whether an object that is gone now waits, and did not before.
fn will_wait(row: Row, gone: bool) -> bool
    ensures { result ≡ will_wait row gone }
{
    row.resource.is_some() && !gone && !row.released
}

/// Notes that an object is gone.
#[tactic(auto, using(crate::proofs::Tidy::tidy_lost, crate::proofs::Tidy::tidy_listed, crate::proofs::Bound::listed_lt))]
pub fn lose(
    rows: &Fading<Row>,
    lost: &mut Fading<bool>,
    listed: &mut VecDeque<Wait>,
    dead: &mut Vec<u64>,
    number: u64,
)
    requires here { was_let_go rows.now.gone number ≡ false }
    requires lost_here { was_let_go lost.old.gone number ≡ false }
    requires tidy { IsTidy rows.now.items lost.old.items listed.old.items }
    requires room { live_count rows.now.items ≤ deque_capacity listed.old }
    ensures losses { Losses (λ n. number == n) lost.old.items lost.new.items }
    ensures tidy { IsTidy rows.now.items lost.new.items listed.new.items }
    ensures gone { lost.new.gone ≡ lost.old.gone }
    ensures spare { lost.new.spare ≡ lost.old.spare }
    ensures listed_room { deque_capacity listed.old ≤ deque_capacity listed.new }
{
    let row = row_in(rows, number);
    let was_lost = lost_in(lost, number);
    mark_lost(lost, number);
    if row.resource.is_none() || row.released {
        hint(dead, number);
    }
    if will_wait(row, was_lost) {
        list(
            listed,
            Wait {
                last: row.last,
                number,
            },
        );
    }
}

/// Notes that all of a list are gone.
#[tactic(auto, using(crate::proofs::Gone::losses_none, crate::proofs::Gone::losses_more))]
pub fn lose_all(
    rows: &Fading<Row>,
    lost: &mut Fading<bool>,
    listed: &mut VecDeque<Wait>,
    dead: &mut Vec<u64>,
    numbers: &[u64],
)
    requires here { AreHere rows.now.gone numbers.now }
    requires lost_here { AreHere lost.old.gone numbers.now }
    requires tidy { IsTidy rows.now.items lost.old.items listed.old.items }
    requires room { live_count rows.now.items ≤ deque_capacity listed.old }
    ensures losses { Losses (is_among numbers.now) lost.old.items lost.new.items }
    ensures tidy { IsTidy rows.now.items lost.new.items listed.new.items }
    ensures gone { lost.new.gone ≡ lost.old.gone }
    ensures spare { lost.new.spare ≡ lost.old.spare }
    ensures listed_room { deque_capacity listed.old ≤ deque_capacity listed.new }
{
    for number in numbers {
        lose(rows, lost, listed, dead, *number);
    }
}

/// Releases an object that was listed, if it is due; lists it again if it was used since.
#[tactic(auto, using(crate::proofs::Releasing::step_gone, crate::proofs::Releasing::step_later, crate::proofs::Releasing::step_released, crate::proofs::Kept::less_same))]
fn settle(
    rows: &mut Fading<Row>,
    lost: &Fading<bool>,
    live: &mut Live,
    waiting: &mut Waiting,
    wait: Wait,
    done: u64,
)
    requires tidy { IsTidy rows.old.items lost.now.items (wait ∷ waiting.old.listed.items) }
    requires kept { IsKept rows.old.items live.old }
    requires over { AreOver rows.old.gone rows.old.items }
    requires lost_gone { lost.now.gone ≡ rows.old.gone }
    requires keys_gone { live.old.keys.gone ≡ rows.old.gone }
    requires room { live_count rows.old.items ≤ deque_capacity waiting.old.listed }
    requires due_room { is_waiting rows.old.items lost.now.items wait.number ≡ true → vec_len waiting.old.due < vec_capacity waiting.old.due }
    ensures releasing { (first : List Row) → IsReleasing done first rows.old.items lost.now.items (wait ∷ waiting.old.listed.items) waiting.old.due.items → IsReleasing done first rows.new.items lost.now.items waiting.new.listed.items waiting.new.due.items }
    ensures kept { IsKept rows.new.items live.new }
    ensures less { IsLess live.old live.new }
    ensures over { AreOver rows.new.gone rows.new.items }
    ensures here { AreHere rows.old.gone waiting.old.due.items → AreHere rows.new.gone waiting.new.due.items }
    ensures early { early done waiting.new.listed.items ≤ early done waiting.old.listed.items }
    ensures gone { rows.new.gone ≡ rows.old.gone }
    ensures keys_gone { live.new.keys.gone ≡ live.old.keys.gone }
    ensures rows_spare { rows.new.spare ≡ rows.old.spare }
    ensures listed_room { deque_capacity waiting.old.listed ≤ deque_capacity waiting.new.listed }
    ensures due_room { vec_capacity waiting.old.due ≤ vec_capacity waiting.new.due }
{
    let number = wait.number;
    if !rows.is_kept(number) {
        return;
    }
    let row = row_in(rows, number);
    if !waits(row, lost_in(lost, number)) {
        return;
    }
    if row.last > done {
        list(
            &mut waiting.listed,
            Wait {
                last: row.last,
                number,
            },
        );
        return;
    }
    release_row(rows, live, number);
    waiting.due.push_reserved(number);
}

/// Releases what is due, and lists its numbers.
#[tactic(auto, using(crate::proofs::Kept::less_then))]
fn take_due(
    rows: &mut Fading<Row>,
    lost: &Fading<bool>,
    live: &mut Live,
    waiting: &mut Waiting,
    done: u64,
)
    requires tidy { IsTidy rows.old.items lost.now.items waiting.old.listed.items }
    requires kept { IsKept rows.old.items live.old }
    requires over { AreOver rows.old.gone rows.old.items }
    requires lost_gone { lost.now.gone ≡ rows.old.gone }
    requires keys_gone { live.old.keys.gone ≡ rows.old.gone }
    requires none { waiting.old.due.items ≡ [] }
    requires room { live_count rows.old.items ≤ deque_capacity waiting.old.listed }
    requires due_room { live_count rows.old.items ≤ vec_capacity waiting.old.due }
    ensures releasing { IsReleasing done rows.old.items rows.new.items lost.now.items waiting.new.listed.items waiting.new.due.items }
    ensures kept { IsKept rows.new.items live.new }
    ensures less { IsLess live.old live.new }
    ensures late { starts_late done waiting.new.listed.items ≡ true }
    ensures over { AreOver rows.new.gone rows.new.items }
    ensures here { AreHere rows.new.gone waiting.new.due.items }
    ensures gone { rows.new.gone ≡ rows.old.gone }
    ensures keys_gone { live.new.keys.gone ≡ live.old.keys.gone }
    ensures rows_spare { rows.new.spare ≡ rows.old.spare }
    ensures listed_room { deque_capacity waiting.old.listed ≤ deque_capacity waiting.new.listed }
    ensures due_room { vec_capacity waiting.old.due ≤ vec_capacity waiting.new.due }
{
    while let Some(wait) = next_early(&mut waiting.listed, done) {
        settle(rows, lost, live, waiting, wait, done);
    }
}

/// Adds the release of an object, if it is a resource.
#[tactic(auto, using(crate::proofs::Picked::released_item))]
fn push_released(rows: &Fading<Row>, number: u64, trace: &mut Vec<Item>)
    requires here { was_let_go rows.now.gone number ≡ false }
    requires room { vec_len trace.old + 1 ≤ vec_capacity trace.old }
    ensures items { trace.new.items ≡ trace.old.items ++ map free (sort_at rows.now.items number) }
    ensures room { vec_len trace.new ≤ vec_len trace.old + 1 }
    ensures capacity { vec_capacity trace.new ≡ vec_capacity trace.old }
{
    if let Some(resource) = row_in(rows, number).resource {
        trace.push_reserved(Item::Free {
            object: number,
            sort: resource.sort,
        });
    }
}

/// Adds the releases of those of a list that are resources.
fn push_all(rows: &Fading<Row>, due: &[u64], trace: &mut Vec<Item>)
    requires here { AreHere rows.now.gone due.now }
    requires room { vec_len trace.old + length due.now ≤ vec_capacity trace.old }
    ensures items { trace.new.items ≡ trace.old.items ++ map free (flat_map (sort_at rows.now.items) due.now) }
    ensures capacity { vec_capacity trace.new ≡ vec_capacity trace.old }
{
    for number in due {
        push_released(rows, *number, trace);
    }
}

/// Releases what is due, and adds it to a trace, least numbers first.
#[tactic(auto, using(crate::proofs::Releasing::pushed_due, crate::proofs::Releasing::marked_due, crate::proofs::Bound::due_le))]
pub fn release(
    rows: &mut Fading<Row>,
    lost: &Fading<bool>,
    live: &mut Live,
    waiting: &mut Waiting,
    done: u64,
    trace: &mut Vec<Item>,
)
    requires tidy { IsTidy rows.old.items lost.now.items waiting.old.listed.items }
    requires kept { IsKept rows.old.items live.old }
    requires over { AreOver rows.old.gone rows.old.items }
    requires lost_gone { lost.now.gone ≡ rows.old.gone }
    requires keys_gone { live.old.keys.gone ≡ rows.old.gone }
    requires none { waiting.old.due.items ≡ [] }
    requires room { live_count rows.old.items ≤ deque_capacity waiting.old.listed }
    requires due_room { live_count rows.old.items ≤ vec_capacity waiting.old.due }
    requires trace_room { vec_len trace.old + live_count rows.old.items ≤ vec_capacity trace.old }
    ensures items { trace.new.items ≡ trace.old.items ++ map free (freed rows.old.items lost.now.items done) }
    ensures notes { Notes (λ n. with_due done (gone_at lost.now.items n) true) rows.old.items rows.new.items }
    ensures tidy { IsTidy rows.new.items lost.now.items waiting.new.listed.items }
    ensures kept { IsKept rows.new.items live.new }
    ensures less { IsLess live.old live.new }
    ensures none { waiting.new.due.items ≡ [] }
    ensures over { AreOver rows.new.gone rows.new.items }
    ensures gone { rows.new.gone ≡ rows.old.gone }
    ensures keys_gone { live.new.keys.gone ≡ live.old.keys.gone }
    ensures rows_spare { rows.new.spare ≡ rows.old.spare }
    ensures listed_room { deque_capacity waiting.old.listed ≤ deque_capacity waiting.new.listed }
    ensures due_room { vec_capacity waiting.old.due ≤ vec_capacity waiting.new.due }
    ensures capacity { vec_capacity trace.new ≡ vec_capacity trace.old }
{
    take_due(rows, lost, live, waiting, done);
    waiting.due.sort_unstable();
    push_all(rows, waiting.due.as_slice(), trace);
    hint_all(&mut waiting.dead, waiting.due.as_slice());
    waiting.due.clear();
}
