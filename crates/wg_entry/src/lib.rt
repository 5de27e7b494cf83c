//! An entry of a history, and want of memory.
#![tactic(auto)]

use std::alloc::{AllocError, AllocFailed};

/// One event that was answered, with the number of its caller.
#[derive(Drop)]
pub struct Entry<C, R> {
    pub who: u32,
    pub event: C,
    pub reply: R,
}

/// There was no memory. Nothing changed, and the call comes back.
#[derive(Drop)]
pub struct Refused<C> {
    pub call: C,
}

/// There was no memory.
#[derive(Clone, Copy, PartialEq, Eq)]
pub struct NoMemory;

impl From<AllocError> for NoMemory {
    fn from(_error: AllocError) -> NoMemory {
        NoMemory
    }
}

impl<T: Drop> From<AllocFailed<T>> for NoMemory {
    fn from(_error: AllocFailed<T>) -> NoMemory {
        NoMemory
    }
}
