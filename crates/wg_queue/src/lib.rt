//! The operations of a queue, by their numbers, and the promises that wait for them.
#![tactic(auto)]

ghost use Rattle.std.specs.Prelude.{◌≡◌, ◌+◌, ◌-◌, ◌<◌, ◌≤◌, ◌^◌, ◌∷◌, ◌++◌, [], not, true, false, drop, length, vec_len, vec_capacity, IsOk, OnOk, OnErr, IfOk, if◌then◌else◌};
ghost use Rattle.std.specs.List.Sorted.{IsNonDecreasingBy};
ghost use Rattle.wg_model.specs.Promises.{promises, due_promises, still_waiting};
ghost use Rattle.wg_trace.specs.declared.replies.Waiting.{Waiting};
ghost use Rattle.wg_queue.specs.Operations.{QueueValue, is_bad, is_idle};

use std::alloc::Global;
use std::marker::Model;
use wg_types::NoMemory;
use wg_types::replies::Waiting;

/// The operations of a queue (WebGPU, "Queues"), which are numbered from 1, and the promises that wait
/// for them. Contracts see how many were issued, up to which all are complete, and the promises that
/// are not settled, in the order in which they were made.
///
/// A promise stays in the list once it is settled, until those that are make up half of it: they stand at
/// its front, since none waits for an earlier operation than one before it.
#[derive(Drop)]
pub struct Queue {
    lost: bool,
    issued: u64,
    completed: u64,
    waiting: Vec<Waiting>,
    settled: usize,
}

impl Model for Queue {
    ghost use Rattle.std.specs.Prelude.{◌-◌, ◌≤◌, drop, vec_len, vec_capacity};
    ghost use Rattle.wg_queue.specs.Operations.{QueueValue};
    ghost use Rattle.wg_queue.specs.Order.{IsInOrder};

    ghost Value = { QueueValue };

    ghost view = { λ q. record { lost = q.lost; issued = q.issued; completed = q.completed; waiting = drop q.settled q.waiting.items; spare = vec_capacity q.waiting - vec_len q.waiting } };

    ghost invariant = { λ q. (q.settled ≤ vec_len q.waiting) × IsInOrder q.issued q.waiting.items };
}

/// How many promises are due, which are the first ones.
fn count_due(waiting: &[Waiting], n: u64) -> usize
    requires { IsNonDecreasingBy (λ (w : Waiting). w.last) waiting.now }
    ensures few { result ≤ length waiting.now }
    ensures later { drop result waiting.now ≡ still_waiting n waiting.now }
{
    waiting.partition_point(|w| w.last <= n)
}

/// Takes the first promises out.
fn cut(waiting: &mut Vec<Waiting>, settled: usize)
    requires { settled ≤ vec_len waiting.old }
    ensures items { waiting.new.items ≡ drop settled waiting.old.items }
    ensures capacity { vec_capacity waiting.new ≡ vec_capacity waiting.old }
{
    let left = waiting.len() - settled;
    waiting.rotate_left(settled);
    waiting.truncate(left);
}

impl Queue {
    /// No operation yet, and not lost.
    pub fn new(alloc: Global) -> Queue
        ensures { result ≡ record { lost = false; issued = 0; completed = 0; waiting = []; spare = 0 } }
    {
        Queue {
            lost: false,
            issued: 0,
            completed: 0,
            waiting: Vec::new(alloc),
            settled: 0,
        }
    }

    /// Makes room for so many promises.
    pub fn reserve(&mut self, n: u64) -> Result<(), NoMemory>
        ensures kept { self.new ≡ record self.old { spare = self.new.spare } }
        ensures spare { self.old.spare ≤ self.new.spare }
        ensures room { OnOk result (n ≤ self.new.spare) }
        ensures succeeds { n ≤ self.old.spare → IsOk result }
    {
        self.waiting.reserve(n as usize)?;
        Ok(())
    }

    /// The next operation's number.
    pub fn issue(&mut self) -> u64
        requires { self.old.issued < 2 ^ 64 - 1 }
        ensures number { result ≡ self.old.issued + 1 }
        ensures after { self.new ≡ record self.old { issued = self.old.issued + 1 } }
    {
        self.issued += 1;
        self.issued
    }

    /// Whether a number can't be that of a completion: it is complete already, or was not issued.
    pub fn is_bad(&self, n: u64) -> bool
        ensures { result ≡ is_bad self.now n }
    {
        n <= self.completed || n > self.issued
    }

    /// Notes that all operations up to a number are complete, and answers false for a bad one. The
    /// promises that waited for no later one wait no more.
    #[tactic(auto, using(crate::proofs::Due::cut_in_order))]
    pub fn complete(&mut self, n: u64) -> bool
        ensures answer { result ≡ not (is_bad self.old n) }
        ensures bad { result ≡ false → self.new ≡ self.old }
        ensures after { result ≡ true → self.new ≡ record self.old { completed = n; waiting = still_waiting n self.old.waiting; spare = self.new.spare } }
        ensures room { self.old.spare ≤ self.new.spare }
    {
        if self.is_bad(n) {
            return false;
        }
        self.completed = n;
        self.settled += count_due(&self.waiting[self.settled..], n);
        if self.settled > self.waiting.len() / 2 {
            cut(&mut self.waiting, self.settled);
            self.settled = 0;
        }
        true
    }

    /// How many operations were issued.
    pub fn issued(&self) -> u64
        ensures { result ≡ self.now.issued }
    {
        self.issued
    }

    /// Up to which operation all are complete.
    pub fn completed(&self) -> u64
        ensures { result ≡ self.now.completed }
    {
        self.completed
    }

    /// Whether a promise made now would have no operation to wait for.
    pub fn is_idle(&self) -> bool
        ensures { result ≡ is_idle self.now }
    {
        self.lost || self.issued == self.completed
    }

    /// Notes a promise that waits for the operations issued so far (WebGPU, "onSubmittedWorkDone"), and
    /// answers true where it settles at once.
    pub fn work_done(&mut self, promise: u64) -> Result<bool, NoMemory>
        ensures answer { IfOk result (λ at_once. at_once ≡ is_idle self.old) }
        ensures waiting { IfOk result (λ at_once. self.new.waiting ≡ (if at_once then self.old.waiting else self.old.waiting ++ (record { promise = promise; last = self.old.issued }) ∷ [])) }
        ensures kept { self.new ≡ record self.old { waiting = self.new.waiting; spare = self.new.spare } }
        ensures same { IfOk result (λ at_once. at_once ≡ true → self.new ≡ self.old) }
        ensures unchanged { OnErr result (self.new ≡ self.old) }
        ensures succeeds { 0 < self.old.spare → IsOk result }
        ensures room { OnOk result (self.old.spare ≤ self.new.spare + 1) }
    {
        if self.is_idle() {
            return Ok(true);
        }
        self.waiting.reserve(1)?;
        self.waiting.push_reserved(Waiting {
            promise,
            last: self.issued,
        });
        Ok(false)
    }

    /// The promises that would settle if all operations up to this one were complete, in the order in
    /// which they were made.
    pub fn due(&self, completed: u64) -> Result<Vec<u64>, NoMemory>
        ensures { IfOk result (λ list. list.items ≡ due_promises completed self.now.waiting) }
    {
        let alloc = *self.waiting.allocator();
        let list = self
            .waits()
            .iter()
            .filter(|w| w.last <= completed)
            .map(|w| w.promise)
            .collect::<Vec<u64>>(alloc)?;
        Ok(list)
    }

    /// The promises that are not settled, each with the operation that it waits for.
    pub fn waits(&self) -> &[Waiting]
        ensures all { result.now ≡ self.now.waiting }
        // None waits for an earlier operation than one before it.
        ensures in_order { IsNonDecreasingBy (λ (w : Waiting). w.last) result.now }
    {
        &self.waiting[self.settled..]
    }

    /// The promises that are not settled, in the order in which they were made.
    pub fn waiting(&self) -> Result<Vec<u64>, NoMemory>
        ensures { IfOk result (λ list. list.items ≡ promises self.now.waiting) }
    {
        let alloc = *self.waiting.allocator();
        let list = self
            .waits()
            .iter()
            .map(|w| w.promise)
            .collect::<Vec<u64>>(alloc)?;
        Ok(list)
    }

    /// The device is lost: no promise waits any more.
    pub fn lose(&mut self)
        ensures after { self.new ≡ record self.old { lost = true; waiting = []; spare = self.new.spare } }
        ensures room { self.old.spare ≤ self.new.spare }
    {
        self.lost = true;
        self.waiting.clear();
        self.settled = 0;
    }
}
