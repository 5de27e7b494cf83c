//! Where bytes come from and go to, with a count of the faults met.
#![tactic(auto)]

mod copying;
mod memory;
mod reading;
mod standard;

ghost use Rattle.std.specs.Prelude.{◌<◌, ℕ, List, length, IfOk};
ghost use Rattle.std.specs.declared.option.Option.{Option};
ghost use Rattle.std.specs.Io.{ReadsAtMost, WritesAtMost};
ghost use Rattle.std.specs.Io.KnownBytes.{ReadConsumes, WriteAppends};
ghost use Rattle.wg_io.specs.Causes.{HasCause};

pub use memory::{MemSink, MemSource};
pub use reading::{ReadError, read_all};
pub use standard::{StdSink, StdSource};
pub use wg_entry::NoMemory;

/// A read or a write that moved no byte.
#[derive(Clone, Copy, PartialEq, Eq, Debug)]
pub struct Failed;

/// Gives bytes.
pub trait Source {
    // The bytes left, where the source tells them.
    ghost left: { Self → Option (List ℕ) };
    // How many faults were met so far. The count stands still at 2^64 - 1.
    ghost faults: { Self → ℕ };

    /// Puts the next bytes at the front of `into` and answers their number, which is 0 for a slice
    /// that is not empty only at the end. `Failed` comes only with a fault that is counted.
    fn read(&mut self, into: &mut [u8]) -> Result<usize, Failed>
        ensures bound { ReadsAtMost result into.new }
        ensures bytes { ReadConsumes (left self.old) (left self.new) result into.new }
        ensures cause { HasCause (faults self.old) (faults self.new) result };
}

/// Takes bytes.
pub trait Sink {
    // The bytes taken so far, where the sink tells them.
    ghost taken: { Self → Option (List ℕ) };
    // How many faults were met so far. The count stands still at 2^64 - 1.
    ghost faults: { Self → ℕ };

    /// Takes bytes from the front of `piece` and answers their number, which is 0 only for an empty
    /// piece. `Failed` comes only with a fault that is counted.
    fn write(&mut self, piece: &[u8]) -> Result<usize, Failed>
        ensures bound { WritesAtMost result piece.now }
        ensures bytes { WriteAppends (taken self.old) (taken self.new) result piece.now }
        ensures progress { IfOk result (λ n. 0 < length piece.now → 0 < n) }
        ensures cause { HasCause (faults self.old) (faults self.new) result };
}
