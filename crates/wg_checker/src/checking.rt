//! The check of a trace.
ghost use Rattle.std.specs.Prelude.{◌≡◌, ◌≤◌, ◌⊎◌, ℕ, List, length, Some};
ghost use Rattle.wg_io.specs.Causes.{Rose};
ghost use Rattle.wg_rows.specs.Once.{AreOnce};
ghost use Rattle.wg_checker.specs.Checks.{Judges, Answers, Checks, HasAnswered, limit};

use crate::printing::{print_fault, print_verdict};
use std::alloc::Global;
use wg_check::{Clash, verdict};
use wg_io::{ReadError, Sink, Source, read_all};
use wg_readtrace::{TraceFault, read};
use wg_trace::steps::Item;

/// The bytes that a text may have.
const LIMIT: usize = 67_108_864;

/// How a check ended.
#[derive(Clone, Copy, PartialEq, Eq)]
pub enum Checked {
    /// The barriers of the trace are enough, and the line that says so was written.
    Agrees,
    /// This is the least clash of the trace, and its line was written.
    Differs(Clash),
    /// The text is no trace: it breaks this rule first, at the line with this number, from 1, or at 0 as a
    /// whole. The line that says so was written.
    BadTrace { rule: u8, line: u64 },
    /// The source failed.
    ReadFault,
    /// The sink failed.
    WriteFault,
    /// There was no memory. Nothing was written.
    NoMemory,
    /// The source gave more than 67,108,864 bytes.
    TooLarge,
}

/// How a check ends that has written the line of a verdict.
fn told(found: Option<Clash>) -> Checked
    ensures { result ≡ Rattle.wg_checker.specs.Checks.told found }
{
    match found {
        Some(clash) => Checked::Differs(clash),
        None => Checked::Agrees,
    }
}

/// Judges a trace and writes its line.
fn judge<W: Sink>(alloc: Global, items: &[Item], sink: &mut W) -> Checked
    requires { AreOnce items.now }
    ensures { Judges items.now (record { old = W.taken sink.old; new = W.taken sink.new; before = W.faults sink.old; after = W.faults sink.new }) result }
{
    let Ok(found) = verdict(alloc, items) else {
        return Checked::NoMemory;
    };
    match print_verdict(sink, found) {
        Ok(()) => told(found),
        Err(_) => Checked::WriteFault,
    }
}

/// Answers a text.
fn answer<W: Sink>(alloc: Global, bytes: &[u8], sink: &mut W) -> Checked
    ensures { Answers bytes.now (record { old = W.taken sink.old; new = W.taken sink.new; before = W.faults sink.old; after = W.faults sink.new }) result }
{
    match read(alloc, bytes) {
        Ok(items) => judge(alloc, items.as_slice(), sink),
        Err(TraceFault::NoMemory) => Checked::NoMemory,
        Err(TraceFault::Bad { rule, line }) => match print_fault(sink, rule, line) {
            Ok(()) => Checked::BadTrace { rule, line },
            Err(_) => Checked::WriteFault,
        },
    }
}

/// Reads a text to its end, judges the trace in it, and writes one line: that the barriers are enough,
/// the least clash, or the rule that the text breaks first.
pub fn check<R: Source, W: Sink>(alloc: Global, source: &mut R, sink: &mut W) -> Checked
    ensures checks { Checks
        (record { old = R.left source.old; new = R.left source.new; before = R.faults source.old; after = R.faults source.new })
        (record { old = W.taken sink.old; new = W.taken sink.new; before = W.faults sink.old; after = W.faults sink.new })
        result }
    // Without a fault of the source or the sink a text within the limit is answered, or there was no memory.
    ensures complete { (bytes : List ℕ) → R.left source.old ≡ Some bytes → length bytes ≤ limit
        → (Rose (R.faults source.old) (R.faults source.new) → ⊥) → (Rose (W.faults sink.old) (W.faults sink.new) → ⊥)
        → HasAnswered result ⊎ (result ≡ Checked.NoMemory) }
{
    match read_all(alloc, source, LIMIT) {
        Ok(bytes) => answer(alloc, &bytes, sink),
        Err(ReadError::NoMemory) => Checked::NoMemory,
        Err(ReadError::Fault) => Checked::ReadFault,
        Err(ReadError::TooLarge) => Checked::TooLarge,
    }
}
