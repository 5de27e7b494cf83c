//! Lanes whose bodies run at once, and the gate that sees their calls.
#![tactic(auto)]

ghost use Rattle.std.specs.Prelude.{◌≡◌, ℕ, length, Some, slice_get};

use std::sync::Wait;
use std::thread;
use std::thread::Threads;

/// What a lane does.
pub trait LaneBody {
    ghost ran: { Self → Self → Type 0 };

    /// Does it.
    fn run<T: Wait + Sync>(&mut self, rt: &T)
        ensures { ran self.old self.new };
}

/// Runs each body once, all of them at once, on threads that are joined. Where no thread can be made the
/// caller does that work itself.
pub fn run_all<T: Wait + Threads + Sync, B: LaneBody + Send>(rt: &T, bodies: &mut [B])
    ensures count { length bodies.new ≡ length bodies.old }
    ensures each { (i : ℕ) (b : B) → slice_get bodies.old i ≡ Some b → (c : B) × (slice_get bodies.new i ≡ Some c) × B.ran b c }
{
    thread::for_each_mut(rt, bodies, bodies.len().max(1), &|_, body| body.run(rt));
}

/// Sees the calls of lanes, before and after each, outside the device's lock. Nothing is said of what it
/// does; it is taken to return.
pub trait Gate {
    /// A call of a lane is next.
    fn before(&self, phase: u32, lane: u32, call: u32);

    /// A call of a lane was made.
    fn after(&self, phase: u32, lane: u32, call: u32);
}

/// A gate that does nothing.
#[derive(Clone, Copy)]
pub struct NoGate;

impl Gate for NoGate {
    fn before(&self, phase: u32, lane: u32, call: u32) {
        let _ = (phase, lane, call);
    }

    fn after(&self, phase: u32, lane: u32, call: u32) {
        let _ = (phase, lane, call);
    }
}
