//! How a lock is closed.
ghost use Rattle.std.specs.Prelude.{◌≡◌, ◌+◌, ◌<◌, ◌++◌, [], length, vec_len, Some};
ghost use mathlib.Core.List.{IsPrefix};
ghost use Rattle.wg_turn.specs.declared.view.Stage.TheVariants.{Idle};

use super::{COUNT, Pass, SERVING, TurnLock};
use crate::logged::Logged;
use crate::turns::{Learn, Tell};
use crate::view::View;
use atomic_table::Seat;
use wg_entry::Entry;

/// What a lock leaves: the state, how many entries were made since the opening, and how many
/// passes the lock had. Only `close` makes one.
#[derive(Drop)]
pub struct Closed<S> {
    state: S,
    entries: u64,
    callers: u32,
}

impl<S> Closed<S> {
    ghost use Rattle.wg_turn.specs.Closings.{entries_of, passes_of, state_of};

    /// The state at the close.
    pub fn state(&self) -> &S
        ensures { result.now ≡ state_of self.now }
    {
        &self.state
    }

    /// How many entries were made since the opening.
    pub fn entries(&self) -> u64
        ensures { result ≡ entries_of self.now }
    {
        self.entries
    }

    /// How many passes the lock had.
    pub fn callers(&self) -> u32
        ensures { result ≡ passes_of self.now }
    {
        self.callers
    }
}

impl<S: Logged> TurnLock<S> {
    ghost use Rattle.wg_turn.specs.Passes.{AreInOrder, IsGathered, IsSeatOf, IsWhole, callers_of, opened_with};
    ghost use Rattle.wg_turn.specs.Closings.{entries_of, passes_of, state_of};

    /// Ends the lock, with all its passes in the order of their numbers. It takes no memory and
    /// waits for nobody.
    pub fn close(self, passes: Vec<Pass<S>>) -> Closed<S>
        requires all { vec_len passes ≡ callers_of self }
        requires in_order { AreInOrder self 0 passes.items }
        ensures setup { S.setup (state_of result) ≡ S.setup (opened_with self) }
        ensures legal { S.legal (S.setup (opened_with self)) (S.history (state_of result)) }
        ensures whole { IsWhole S.history self passes.items (state_of result) (entries_of result) }
        ensures callers { passes_of result ≡ vec_len passes }
    {
        let seat = self.gather(passes);
        let TurnLock { table, callers } = self;
        let mut closed = table.close_with(seat);
        let entries = closed.word(COUNT);
        let state = closed.take(0).unwrap();
        closed.free();
        Closed {
            state,
            entries,
            callers,
        }
    }

    /// One seat that keeps all numbers, and has seen what any pass has seen.
    fn gather(&self, mut passes: Vec<Pass<S>>) -> Seat<Option<S>, View<S, Entry<S::Call, S::Reply>>>
        requires all { vec_len passes ≡ callers_of self.now }
        requires in_order { AreInOrder self.now 0 passes.items }
        ensures { IsGathered self.now 0 passes.items result }
    {
        let Pass { mut seat, .. } = passes.pop().unwrap();
        while let Some(pass) = passes.pop() {
            let others = seat;
            let Pass { seat: next, .. } = pass;
            seat = next;
            self.take_in(&mut seat, others);
        }
        seat
    }

    /// Joins a seat with those of the numbers after its own.
    fn take_in(
        &self,
        seat: &mut Seat<Option<S>, View<S, Entry<S::Call, S::Reply>>>,
        others: Seat<Option<S>, View<S, Entry<S::Call, S::Reply>>>,
    )
        requires seat { IsSeatOf self.now seat.old × (seat.old.me.0.stage ≡ Idle)
            × (length seat.old.me.0.owns ≡ 1) }
        requires others { IsSeatOf self.now others × (others.me.1 ≡ [])
            × (others.me.0.stage ≡ Idle)
            × (others.me.0.opening ≡ Some (opened_with self.now)) }
        requires next { others.me.0.number ≡ seat.old.me.0.number + 1 }
        ensures seat { (seat.new.table_id ≡ seat.old.table_id) × (seat.new.me.1 ≡ seat.old.me.1)
            × (seat.new.me.0.stage ≡ Idle) × (seat.new.me.0.opening ≡ seat.old.me.0.opening)
            × (seat.new.me.0.number ≡ seat.old.me.0.number) }
        ensures owns { seat.new.me.0.owns ≡ seat.old.me.0.owns ++ others.me.0.owns }
        ensures seen { IsPrefix seat.old.me.0.since seat.new.me.0.since
            × IsPrefix others.me.0.since seat.new.me.0.since }
    {
        self.table.shared.join_seat::<Tell>(seat, others);
        self.table.shared.load::<Learn<S>>(seat, SERVING);
    }
}
