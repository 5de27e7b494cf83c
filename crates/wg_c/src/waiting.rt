//! Settlements that wait to be told.
ghost use Rattle.std.specs.Prelude.{◌≡◌, ◌-◌, ◌^◌, ◌<◌, ◌++◌, ◌∷◌, [], length, min, IfSome, IfNone, OnOk};

use std::alloc::Global;
use std::collections::VecDeque;
use std::marker::Model;
use wg_types::NoMemory;
use wg_types::items::Items;
use wg_types::replies::{Settlement, Settlements};

/// Settlements that wait to be told, in the lists in which replies have them.
#[derive(Drop)]
pub struct Waiting {
    current: Settlements,
    at: usize,
    later: VecDeque<Settlements>,
}

impl Model for Waiting {
    ghost use Rattle.std.specs.Prelude.{◌-◌, ◌++◌, drop};
    ghost use Rattle.std.specs.VecDeque.{deque_len, deque_capacity};
    ghost use Rattle.wg_c.specs.Waits.{WaitingValue, all_of};

    ghost Value = { WaitingValue };

    ghost view = { λ w. record { left = drop w.at w.current ++ all_of w.later.items; room = deque_capacity w.later - deque_len w.later } };
}

impl Waiting {
    /// None.
    pub fn new(alloc: Global) -> Waiting
        ensures { result.left ≡ [] }
    {
        Waiting {
            current: Items::new(alloc),
            at: 0,
            later: VecDeque::new(alloc),
        }
    }

    /// Takes room for those of one more reply.
    pub fn reserve(&mut self) -> Result<(), NoMemory>
        ensures same { self.new.left ≡ self.old.left }
        ensures room { OnOk result (0 < self.new.room) }
    {
        match self.later.reserve(1) {
            Ok(()) => Ok(()),
            Err(_) => Err(NoMemory),
        }
    }

    /// Adds those of a reply, if there are any.
    pub fn push(&mut self, settled: Settlements)
        requires { 0 < self.old.room }
        ensures { self.new.left ≡ self.old.left ++ settled }
    {
        if settled.as_slice().len() > 0 {
            self.later.push_back_reserved(settled);
        }
    }

    /// The next one.
    #[tactic(auto, using(crate::proofs::Waits::drop_some, crate::proofs::Waits::drop_none))]
    pub fn next(&mut self) -> Option<Settlement>
        ensures told { IfSome result (λ settlement. self.old.left ≡ settlement ∷ self.new.left) }
        ensures ended { IfNone result ((self.old.left ≡ []) × (self.new.left ≡ [])) }
    {
        loop {
            if let Some(settlement) = self.current.as_slice().get(self.at) {
                let settlement = *settlement;
                self.at += 1;
                return Some(settlement);
            }
            let Some(current) = self.later.pop_front() else {
                return None;
            };
            self.current = current;
            self.at = 0;
        }
    }

    /// Lets go of all. How many these were, or the greatest number where there were more.
    pub fn clear(&mut self) -> u64
        ensures { result ≡ min (length self.old.left) (2 ^ 64 - 1) }
    {
        let mut count: u64 = 0;
        while let Some(_settlement) = self.next() {
            count = count.saturating_add(1);
        }
        count
    }
}
