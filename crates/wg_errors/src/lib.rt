//! The error scopes of a device.
#![tactic(auto)]

ghost use Rattle.std.specs.Prelude.{◌≡◌, ◌+◌, ◌<◌, ◌≤◌, ◌∷◌, ◌++◌, [], true, false, IsOk, OnOk, OnErr, if◌then◌else◌, Option, reverse, vec_len, vec_capacity};
ghost use Rattle.wg_model.specs.ErrorScopes.{catches, deliver, caught_in, delivered, first_how, pop_how, popped};
ghost use Rattle.wg_errors.specs.Errors.{ErrorsValue};
ghost use Rattle.wg_errors.specs.Catching.{pick, top, within};

use std::alloc::Global;
use std::marker::Model;
use wg_types::NoMemory;
use wg_types::replies::{Caught, FaultKind, Filter, First, How, Scope};

/// The error scopes of a device (WebGPU, "Error Scopes"), and whether it is lost. Contracts see the
/// stack outermost first.
///
/// Beside each scope stands where a fault goes that comes while it is the innermost one.
#[derive(Drop)]
pub struct Errors {
    lost: bool,
    scopes: Vec<Scope>,
    catchers: Vec<Catchers>,
}

/// Where a fault of each kind goes.
#[derive(Clone, Copy)]
pub struct Catchers {
    pub validation: Caught,
    pub memory: Caught,
}

impl Model for Errors {
    ghost use Rattle.std.specs.Prelude.{◌≡◌, ◌-◌, min, reverse, vec_len, vec_capacity};
    ghost use Rattle.wg_errors.specs.Errors.{ErrorsValue};
    ghost use Rattle.wg_errors.specs.Catching.{told, filters};

    ghost Value = { ErrorsValue };

    ghost view = { λ e. record { lost = e.lost; scopes = e.scopes.items; spare = min (vec_capacity e.scopes - vec_len e.scopes) (vec_capacity e.catchers - vec_len e.catchers) } };

    ghost invariant = { λ e. reverse e.catchers.items ≡ told (filters (reverse e.scopes.items)) };
}

fn does_catch(filter: Filter, kind: FaultKind) -> bool
    ensures { result ≡ catches filter kind }
{
    match (filter, kind) {
        (Filter::Validation, FaultKind::Validation) => true,
        (Filter::Validation, FaultKind::OutOfMemory) => false,
        (Filter::OutOfMemory, FaultKind::OutOfMemory) => true,
        (Filter::OutOfMemory, FaultKind::Validation) => false,
        (Filter::Internal, FaultKind::Validation) => false,
        (Filter::Internal, FaultKind::OutOfMemory) => false,
    }
}

/// Where a fault of each kind goes where there is no scope.
const NOWHERE: Catchers = Catchers {
    validation: Caught::Uncaptured,
    memory: Caught::Uncaptured,
};

/// Where a fault of this kind goes.
fn pick(catchers: Catchers, kind: FaultKind) -> Caught
    ensures { result ≡ pick catchers kind }
{
    match kind {
        FaultKind::Validation => catchers.validation,
        FaultKind::OutOfMemory => catchers.memory,
    }
}

/// Where a fault of each kind goes while the scopes stand of which these are told.
fn innermost(catchers: &[Catchers]) -> Catchers
    ensures { result ≡ top (reverse catchers.now) }
{
    match catchers.last() {
        Some(catchers) => *catchers,
        None => NOWHERE,
    }
}

/// The same in a scope with this filter, which has so many around it.
fn within(filter: Filter, place: u64, outer: Catchers) -> Catchers
    ensures { result ≡ within filter place outer }
{
    Catchers {
        validation: if does_catch(filter, FaultKind::Validation) {
            Caught::Scope(place)
        } else {
            outer.validation
        },
        memory: if does_catch(filter, FaultKind::OutOfMemory) {
            Caught::Scope(place)
        } else {
            outer.memory
        },
    }
}

/// Keeps an error in the scope that it went to, where that has none yet.
fn keep(scopes: &mut Vec<Scope>, caught: Caught, error: First)
    ensures items { scopes.new.items ≡ caught_in caught error scopes.old.items }
    ensures capacity { vec_capacity scopes.new ≡ vec_capacity scopes.old }
    ensures len { vec_len scopes.new ≡ vec_len scopes.old }
{
    let Caught::Scope(place) = caught else {
        return;
    };
    let Some(scope) = scopes.get_mut(place as usize) else {
        return;
    };
    if scope.first.is_none() {
        scope.first = Some(error);
    }
}

/// How a pop of the scope that received this first error is settled.
fn settled(first: Option<First>) -> How
    ensures { result ≡ first_how first }
{
    match first {
        Some(first) => How::Error {
            kind: first.kind,
            rule: first.rule,
        },
        None => How::Null,
    }
}

impl Errors {
    /// No scope, and not lost.
    pub fn new(alloc: Global) -> Errors
        ensures { result ≡ record { lost = false; scopes = []; spare = 0 } }
    {
        Errors {
            lost: false,
            scopes: Vec::new(alloc),
            catchers: Vec::new(alloc),
        }
    }

    /// Makes room for so many scopes.
    pub fn reserve(&mut self, n: u64) -> Result<(), NoMemory>
        ensures kept { self.new ≡ record self.old { spare = self.new.spare } }
        ensures spare { self.old.spare ≤ self.new.spare }
        ensures room { OnOk result (n ≤ self.new.spare) }
        ensures succeeds { n ≤ self.old.spare → IsOk result }
    {
        self.scopes.reserve(n as usize)?;
        self.catchers.reserve(n as usize)?;
        Ok(())
    }

    /// Pushes a scope (WebGPU, "pushErrorScope"), on a lost device too.
    pub fn push(&mut self, filter: Filter) -> Result<(), NoMemory>
        ensures scopes { OnOk result (self.new.scopes ≡ self.old.scopes ++ (record { filter = filter; first = Option.None }) ∷ []) }
        ensures kept { self.new ≡ record self.old { scopes = self.new.scopes; spare = self.new.spare } }
        ensures unchanged { OnErr result (self.new ≡ self.old) }
        ensures succeeds { 0 < self.old.spare → IsOk result }
        ensures room { OnOk result (self.old.spare ≤ self.new.spare + 1) }
    {
        self.scopes.reserve(1)?;
        self.catchers.reserve(1)?;
        let place = self.scopes.len() as u64;
        let outer = innermost(self.catchers.as_slice());
        self.catchers.push_reserved(within(filter, place, outer));
        self.scopes.push_reserved(Scope {
            filter,
            first: None,
        });
        Ok(())
    }

    /// Whether the device is lost.
    pub fn is_lost(&self) -> bool
        ensures { result ≡ self.now.lost }
    {
        self.lost
    }

    /// The device is lost: from now on no scope catches anything.
    pub fn lose(&mut self)
        ensures { self.new ≡ record self.old { lost = true } }
    {
        self.lost = true;
    }

    /// Where a fault of this kind would go, which is nowhere on a lost device.
    #[tactic(auto, using(crate::proofs::Catching::picks))]
    pub fn catches(&self, kind: FaultKind) -> Option<Caught>
        ensures { result ≡ (if self.now.lost then Option.None else Option.Some (deliver self.now.scopes kind)) }
    {
        if self.lost {
            return None;
        }
        Some(pick(innermost(self.catchers.as_slice()), kind))
    }

    /// Delivers a fault to the innermost scope that catches faults of its kind, and says where it went
    /// (WebGPU, "dispatch error").
    #[tactic(auto, using(crate::proofs::Catching::keeps))]
    pub fn deliver(&mut self, kind: FaultKind, rule: u16) -> Option<Caught>
        ensures caught { result ≡ (if self.old.lost then Option.None else Option.Some (deliver self.old.scopes kind)) }
        ensures scopes { self.new.scopes ≡ (if self.old.lost then self.old.scopes else delivered self.old.scopes kind rule) }
        ensures kept { self.new ≡ record self.old { scopes = self.new.scopes } }
    {
        let caught = self.catches(kind)?;
        keep(&mut self.scopes, caught, First { kind, rule });
        Some(caught)
    }

    /// How a pop would be settled.
    pub fn top(&self) -> How
        ensures { result ≡ pop_how self.now.lost self.now.scopes }
    {
        if self.lost {
            return How::Null;
        }
        match self.scopes.last() {
            Some(scope) => settled(scope.first),
            None => How::Rejected,
        }
    }

    /// Pops the innermost scope (WebGPU, "popErrorScope"), and says how the pop is settled.
    pub fn pop(&mut self) -> How
        ensures how { result ≡ pop_how self.old.lost self.old.scopes }
        ensures scopes { self.new.scopes ≡ popped self.old.lost self.old.scopes }
        ensures kept { self.new ≡ record self.old { scopes = self.new.scopes; spare = self.new.spare } }
        ensures room { self.old.spare ≤ self.new.spare }
    {
        if self.lost {
            return How::Null;
        }
        let Some(scope) = self.scopes.pop() else {
            return How::Rejected;
        };
        let _ = self.catchers.pop();
        settled(scope.first)
    }
}
