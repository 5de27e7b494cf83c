//! How a lock is opened.
ghost use Rattle.std.specs.Prelude.{◌≡◌, ◌-◌, ◌<◌, ◌≤◌, [], vec_len, vec_capacity, replicate, IfOk};
ghost use Rattle.wg_turn.specs.Turns.{first_view};

use super::{Pass, TurnLock};
use crate::logged::Logged;
use crate::turns::Deal;
use crate::view::{Opening, View};
use atomic_table::{Seat, Table};
use std::alloc::Global;
use std::snapshot::Snapshot;
use wg_entry::{Entry, NoMemory};

impl<S: Logged> TurnLock<S> {
    ghost use Rattle.wg_turn.specs.Passes.{AreFresh, AreSound, FrontsAre, IsSeatOf, callers_of, opened_with};

    /// A lock, and its passes in the order of their numbers. Without memory the state is dropped.
    pub fn open(
        alloc: Global,
        state: S,
        callers: u32,
    ) -> Result<(TurnLock<S>, Vec<Pass<S>>), NoMemory>
        requires { (0 < callers) × (callers ≤ 65536) }
        ensures lock { IfOk result (λ t. (opened_with t.0 ≡ state) × (callers_of t.0 ≡ callers)) }
        ensures passes { IfOk result (λ t.
            (vec_len t.1 ≡ callers) × AreFresh t.0 0 t.1.items) }
        ensures fronts { IfOk result (λ t. FrontsAre S.history t.0 t.1.items (S.history state)) }
        ensures sound { IfOk result (λ t. AreSound S.history S.setup S.legal t.0 t.1.items) }
    {
        let mut passes = Vec::with_capacity(alloc, callers as usize)?;
        let (lock, seat) = Self::of(alloc, state, callers)?;
        lock.deal(seat, &mut passes);
        Ok((lock, passes))
    }

    /// The lock, and a seat that keeps all numbers.
    fn of(
        alloc: Global,
        state: S,
        callers: u32,
    ) -> Result<
        (
            TurnLock<S>,
            Seat<Option<S>, View<S, Entry<S::Call, S::Reply>>>,
        ),
        NoMemory,
    >
        requires { (0 < callers) × (callers ≤ 65536) }
        ensures lock { IfOk result (λ t. (opened_with t.0 ≡ state) × (callers_of t.0 ≡ callers)) }
        ensures seat { IfOk result (λ t. IsSeatOf t.0 t.1
            × (t.1.me ≡ (first_view state callers 0 (replicate callers []), []))) }
    {
        let mut slots = Vec::with_capacity(alloc, 1)?;
        let opening = Opening {
            state: Snapshot::of(&state),
            callers,
        };
        slots.push_reserved(Some(state));
        match Table::new(alloc, &[0, 0, 0], slots, &opening) {
            Ok((table, seat)) => Ok((TurnLock { table, callers }, seat)),
            Err(_) => Err(NoMemory),
        }
    }

    /// Hands the numbers out, one to each pass.
    fn deal(
        &self,
        mut seat: Seat<Option<S>, View<S, Entry<S::Call, S::Reply>>>,
        passes: &mut Vec<Pass<S>>,
    )
        requires room { (vec_len passes.old ≡ 0) × (callers_of self.now ≤ vec_capacity passes.old)
            × (0 < callers_of self.now) }
        requires seat { IsSeatOf self.now seat × (seat.me ≡ (
          first_view (opened_with self.now)
              (callers_of self.now) 0 (replicate (callers_of self.now) []),
          [],
        )) }
        ensures { (vec_len passes.new ≡ callers_of self.now)
            × AreFresh self.now 0 passes.new.items }
    {
        for number in 0..self.callers - 1 {
            let others = self.table.shared.split_seat::<Deal>(&mut seat);
            passes.push_reserved(Pass {
                seat,
                number,
                calls: 0,
            });
            seat = others;
        }
        passes.push_reserved(Pass {
            seat,
            number: self.callers - 1,
            calls: 0,
        });
    }
}
