//! The lock and its passes.
ghost use Rattle.std.specs.Prelude.{◌≡◌, ◌+◌, ◌^◌, ◌<◌, ◌++◌, [], ◌∷◌, length, Some, IsSome, IfOk, IfErr};
ghost use mathlib.Core.List.{IsPrefix};
ghost use Rattle.wg_turn.specs.Entries.{entry, who_of, EndsWith, Stands, Lawful, Answers};
ghost use Rattle.wg_turn.specs.Turns.{IsIn, Entered, Sound, idle, inside, counted};
ghost use Rattle.wg_turn.specs.declared.view.Stage.TheVariants.{Waiting, Inside};

use crate::logged::Logged;
use crate::turns::{Count, Draw, Enter, Leave, NotedEntry, Turns};
use crate::view::{Opening, View};
use atomic_table::{Seat, Table};
use std::alloc::Global;
use std::marker::Brand;
use std::snapshot::Snapshot;
use std::sync::Wait;
use wg_entry::{Entry, Refused};

mod close;
mod meet;
mod open;

pub use close::Closed;

/// The word that has the next ticket.
const TICKET: usize = 0;

/// The word that has the ticket that is served.
const SERVING: usize = 1;

/// The word that has the number of entries since the opening.
const COUNT: usize = 2;

/// Callers draw tickets, and each in its turn calls the state.
#[derive(Drop)]
pub struct TurnLock<S: Logged> {
    table: Table<Option<S>, View<S, Entry<S::Call, S::Reply>>, Opening<S>, Turns<S>, Global>,
    callers: u32,
    ghost sized: { (table.shared.table_id.words ≡ 3) × (table.shared.table_id.slots ≡ 1) },
    ghost counted: { callers ≡ table.shared.key.callers },
    ghost some_caller: { 0 < callers },
}

/// The right to call the state under one number. It remembers what its caller has seen of the
/// state's history, and which entries its caller made, in the proofs alone.
#[derive(Drop)]
pub struct Pass<S: Logged> {
    seat: Seat<Option<S>, View<S, Entry<S::Call, S::Reply>>>,
    number: u32,
    calls: u64,
}

impl<S: Logged> Pass<S> {
    ghost use Rattle.wg_turn.specs.Passes.{calls_of, number_of};

    /// The number under which the pass calls.
    pub fn number(&self) -> u32
        ensures { result ≡ number_of self.now }
    {
        self.number
    }

    /// How many calls were made with the pass.
    pub fn calls(&self) -> u64
        ensures { result ≡ calls_of self.now }
    {
        self.calls
    }
}

/// Calls a state that is there.
fn act_in<S: Logged>(
    slot: &mut Option<S>,
    number: u32,
    call: S::Call,
) -> Result<(S::Reply, S::Left), Refused<S::Call>>
    requires { IsSome slot.old }
    ensures { (x : S) → slot.old ≡ Some x → (y : S) × (slot.new ≡ Some y)
        × Answers S.setup S.history number call x y result }
{
    match slot {
        Some(state) => state.act(number, call),
        None => unreachable!(),
    }
}

impl<S: Logged> TurnLock<S> {
    ghost use Rattle.wg_turn.specs.Passes.{IsPassOf, IsSeatOf, IsSound, calls_of, front_of, number_of, opened_with, own_of};

    /// Calls the state, once the pass's turn has come. Without memory the call comes back.
    pub fn act(
        &self,
        rt: &impl Wait,
        pass: &mut Pass<S>,
        call: S::Call,
    ) -> Result<S::Reply, Refused<S::Call>>
        requires pass { IsPassOf self.now pass.old }
        requires room { calls_of pass.old < 2 ^ 40 }

        ensures pass { IsPassOf self.now pass.new × (number_of pass.new ≡ number_of pass.old)
            × (calls_of pass.new ≡ calls_of pass.old + 1) }
        ensures sound { IsSound S.history S.setup S.legal self.now pass.new }
        ensures seen { IsPrefix (front_of S.history self.now pass.old)
            (front_of S.history self.now pass.new) }

        // What the pass has seen ends with the new entry, and so do its own entries.
        ensures done { IfOk result (λ r.
            EndsWith (front_of S.history self.now pass.old)
            (front_of S.history self.now pass.new) (entry (number_of pass.old) call r)
            × (own_of pass.new ≡ own_of pass.old ++ entry (number_of pass.old) call r ∷ [])) }
        ensures refused { IfErr result (λ e. (e.call ≡ call)
            × (front_of S.history self.now pass.new ≡ front_of S.history self.now pass.old)
            × (own_of pass.new ≡ own_of pass.old)) }
    {
        let ticket = self
            .table
            .shared
            .fetch_add::<Draw>(&mut pass.seat, TICKET, 1);
        pass.calls += 1;
        self.wait(rt, &mut pass.seat, ticket);
        self.turn(&mut pass.seat, pass.number, call)
    }

    /// Waits until the ticket is served, and takes the state.
    fn wait(
        &self,
        rt: &impl Wait,
        seat: &mut Seat<Option<S>, View<S, Entry<S::Call, S::Reply>>>,
        ticket: u64,
    )
        requires seat { IsSeatOf self.now seat.old }
        requires waiting { (seat.old.me.0.stage ≡ Waiting) × (seat.old.me.0.ticket ≡ ticket)
            × (0 < length seat.old.me.0.owns) }
        ensures seat { (seat.new.table_id ≡ seat.old.table_id) × (seat.new.id ≡ seat.old.id) }
        ensures entered { Entered who_of (Stands S.setup S.history)
            (Lawful S.setup S.history S.legal) seat.old.me seat.new.me }
    {
        for _ in rt.forever() {
            let serving = self.table.shared.load::<Enter<S>>(seat, SERVING);
            if serving == ticket {
                return;
            }
            self.table
                .shared
                .park(rt, SERVING, (serving & 0xffff_ffff) as u32);
        }
        unreachable!()
    }

    /// Passes the turn on.
    fn leave(&self, seat: &mut Seat<Option<S>, View<S, Entry<S::Call, S::Reply>>>)
        requires seat { IsSeatOf self.now seat.old }
        requires inside { IsIn seat.old.me.0.stage × (length seat.old.me.0.owns ≡ 1) }
        requires state { (x : S) × (seat.old.me.1 ≡ (0, Some x) ∷ [])
            × Stands S.setup S.history (opened_with self.now) x seat.old.me.0.held }
        ensures seat { (seat.new.table_id ≡ seat.old.table_id) × (seat.new.id ≡ seat.old.id) }
        ensures left { seat.new.me ≡ (idle seat.old.me.0, []) }
        ensures sound { Sound who_of (Stands S.setup S.history) (Lawful S.setup S.history S.legal)
            seat.old.me.0 }
    {
        self.table.shared.fetch_add::<Leave<S>>(seat, SERVING, 1);
        self.table.shared.wake_all(SERVING);
    }

    /// Counts the entry that `noted` is.
    fn count<N: NotedEntry<Entry<S::Call, S::Reply>>>(
        &self,
        seat: &mut Seat<Option<S>, View<S, Entry<S::Call, S::Reply>>>,
        number: u32,
        asked: &Snapshot<S::Call>,
        reply: &S::Reply,
    )
        requires seat { IsSeatOf self.now seat.old }
        requires inside { (seat.old.me.0.stage ≡ Inside) × (length seat.old.me.0.owns ≡ 1)
            × (seat.old.me.0.number ≡ number) }
        requires noted { N.noted ≡ entry number asked.now.value reply.now ∷ [] }
        requires legal { Lawful S.setup S.history S.legal (opened_with self.now)
            (seat.old.me.0.held ++ entry number asked.now.value reply.now ∷ []) }
        ensures seat { (seat.new.table_id ≡ seat.old.table_id) × (seat.new.id ≡ seat.old.id) }
        ensures counted { seat.new.me
            ≡ (counted (entry number asked.now.value reply.now) seat.old.me.0, seat.old.me.1) }
    {
        let _ = number;
        let _ = asked;
        let _ = reply;
        self.table.shared.fetch_add::<Count<N>>(seat, COUNT, 1);
    }

    /// Calls the state that the seat has taken, where it lies, counts the entry, and passes the turn on. What the call
    /// is done with is dropped after that.
    fn turn(
        &self,
        seat: &mut Seat<Option<S>, View<S, Entry<S::Call, S::Reply>>>,
        number: u32,
        call: S::Call,
    ) -> Result<S::Reply, Refused<S::Call>>
        requires seat { IsSeatOf self.now seat.old }
        requires inside { (seat.old.me.0.stage ≡ Inside) × (length seat.old.me.0.owns ≡ 1)
            × (seat.old.me.0.number ≡ number) }
        requires state { (x : S) × (seat.old.me.1 ≡ (0, Some x) ∷ [])
            × Stands S.setup S.history (opened_with self.now) x seat.old.me.0.held }
        ensures seat { (seat.new.table_id ≡ seat.old.table_id) × (seat.new.id ≡ seat.old.id) }
        ensures done { IfOk result (λ r.
            seat.new.me ≡ (idle (counted (entry number call r) seat.old.me.0), [])) }
        ensures refused { IfErr result (λ e.
            (e.call ≡ call) × (seat.new.me ≡ (idle seat.old.me.0, []))) }
        ensures sound { Sound who_of (Stands S.setup S.history) (Lawful S.setup S.history S.legal)
            seat.new.me.0 }
    {
        let asked = Snapshot::of(&call);
        match act_in(seat.slot_mut(&self.table.shared, 0), number, call) {
            Ok((reply, left)) => {
                self.count::<Brand>(seat, number, &asked, &reply);
                self.leave(seat);
                drop(left);
                Ok(reply)
            }
            Err(refused) => {
                self.leave(seat);
                Err(refused)
            }
        }
    }
}
