//! What a seat at the lock's table knows. These types are for the proofs alone.

use std::collections::LinkedList;
use std::snapshot::Snapshot;

/// Where a seat is in a call.
pub enum Stage {
    /// Between two calls.
    Idle,
    /// It has drawn a ticket.
    Waiting,
    /// It has taken the state.
    Inside,
    /// It has taken the state, and counted the entry of its call.
    Counted,
}

/// What a seat at the table knows. No value of it is made.
pub struct View<S, E> {
    /// The state as the lock was opened, or none once the seat is spent.
    pub opening: Option<S>,
    /// How many numbers there are, or 0 once the seat is spent.
    pub callers: u32,
    /// The seat keeps the numbers from this one on, one for each list of `owns`.
    pub number: u64,
    /// The entries of each number that it keeps.
    pub owns: LinkedList<LinkedList<E>>,
    /// How many tickets were drawn under these numbers.
    pub calls: u64,
    /// The entries since the opening that were seen.
    pub since: LinkedList<E>,
    /// The beginning of `since` that was seen before, or that another seat had seen.
    pub told: LinkedList<E>,
    pub stage: Stage,
    /// Unless the stage is idle, the ticket that it drew.
    pub ticket: u64,
    /// Where it has taken the state, all entries since the opening.
    pub held: LinkedList<E>,
}

/// What the lock is told once.
#[derive(Drop)]
pub struct Opening<S> {
    /// The state, for the proofs.
    pub state: Snapshot<S>,
    /// How many passes there are.
    pub callers: u32,
}
