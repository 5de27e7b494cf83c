//! A set of numbers.
ghost use Rattle.std.specs.Prelude.{◌≡◌, ℕ, ◌≤◌, ◌&&◌, ◌||◌, not, List, [], IfOk, IsTrue, ◌↔◌};
ghost use Rattle.wg_num.specs.Runs.{AllIn, AreApart, covers_run, in_run, insert_run, is_in, missing_runs, remove_run};

use crate::runs::{covers_run, cut_runs, missing_runs, with_run};
use std::alloc::Global;
use std::marker::Model;
use wg_entry::NoMemory;

/// A set of numbers, seen as its sorted runs, none of which is empty or touches the next. It keeps
/// its allocator.
#[derive(Drop)]
pub struct RunSet {
    held: Vec<(u64, u64)>,
}

impl Model for RunSet {
    ghost Value = { List (ℕ × ℕ) };

    ghost view = { λ s. s.held.items };

    ghost invariant = { λ s. AreApart 0 s.held.items };
}

impl RunSet {
    /// The empty set, which takes no memory.
    pub fn new(alloc: Global) -> RunSet
        ensures { result ≡ [] }
    {
        RunSet {
            held: Vec::new(alloc),
        }
    }

    /// The runs of the set, in order.
    pub fn runs(&self) -> &[(u64, u64)]
        ensures runs { result.now ≡ self.now }
        ensures apart { AreApart 0 self.now }
    {
        self.held.as_slice()
    }

    /// The set with the numbers from `lo` up to but not including `hi`.
    pub fn with(&self, lo: u64, hi: u64) -> Result<RunSet, NoMemory>
        requires { lo ≤ hi }
        ensures runs { IfOk result (λ set. set ≡ insert_run lo hi self.now) }
        ensures members { IfOk result
            (λ set. (n : ℕ) → is_in set n ≡ (in_run lo hi n || is_in self.now n)) }
    {
        if lo < hi {
            let runs = with_run(*self.held.allocator(), self.held.as_slice(), lo, hi)?;
            return Ok(RunSet { held: runs });
        }
        self.copy()
    }

    /// The set without the numbers from `lo` up to but not including `hi`.
    pub fn without(&self, lo: u64, hi: u64) -> Result<RunSet, NoMemory>
        requires { lo ≤ hi }
        ensures runs { IfOk result (λ set. set ≡ remove_run lo hi self.now) }
        ensures members { IfOk result
            (λ set. (n : ℕ) → is_in set n ≡ (is_in self.now n && not (in_run lo hi n))) }
    {
        if lo < hi {
            let runs = cut_runs(*self.held.allocator(), self.held.as_slice(), lo, hi)?;
            return Ok(RunSet { held: runs });
        }
        self.copy()
    }

    /// Whether all numbers from `lo` up to but not including `hi` are in the set, so that it stays as it is
    /// with them.
    pub fn covers(&self, lo: u64, hi: u64) -> bool
        ensures test { result ≡ covers_run lo hi self.now }
        ensures all { IsTrue result ↔ AllIn lo hi self.now }
        ensures same { IsTrue result → insert_run lo hi self.now ≡ self.now }
    {
        covers_run(self.held.as_slice(), lo, hi)
    }

    /// The numbers from `lo` up to but not including `hi` that are not in the set.
    pub fn missing(&self, lo: u64, hi: u64) -> Result<RunSet, NoMemory>
        ensures runs { IfOk result (λ set. set ≡ missing_runs lo hi self.now) }
        ensures members { IfOk result
            (λ set. (n : ℕ) → is_in set n ≡ (in_run lo hi n && not (is_in self.now n))) }
    {
        let runs = missing_runs(*self.held.allocator(), self.held.as_slice(), lo, hi)?;
        Ok(RunSet { held: runs })
    }

    /// An equal set.
    pub fn copy(&self) -> Result<RunSet, NoMemory>
        ensures { IfOk result (λ set. set ≡ self.now) }
    {
        let held = Vec::from_slice(*self.held.allocator(), self.held.as_slice())?;
        Ok(RunSet { held })
    }
}
