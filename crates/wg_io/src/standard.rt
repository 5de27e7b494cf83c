ghost use Rattle.std.specs.Prelude.{◌≡◌, ◌<◌, length, IfOk, MatchResult};
ghost use Rattle.std.specs.Io.{ReadsAtMost, WritesAtMost};
ghost use Rattle.std.specs.Io.KnownBytes.{ReadConsumes, WriteAppends};
ghost use Rattle.wg_io.specs.Causes.{HasCause, next_count};

use crate::{Failed, Sink, Source};
use std::io::{Read, Write};
use std::marker::Model;

/// A reader of std. Each error of a read is a fault.
#[derive(Drop)]
pub struct StdSource<R: Read> {
    reader: R,
    faults: u64,
}

impl<R: Read> Model for StdSource<R> {
    ghost use Rattle.wg_io.specs.Standard.{Counted};

    ghost Value = { Counted R };

    ghost view = { λ s. record { inner = s.reader; faults = s.faults } };
}

impl<R: Read> StdSource<R> {
    /// A source of what `reader` gives, with no fault met yet.
    pub fn new(reader: R) -> StdSource<R>
        ensures { result ≡ record { inner = reader; faults = 0 } }
    {
        StdSource { reader, faults: 0 }
    }
}

impl<R: Read> Source for StdSource<R> {
    ghost left = { λ s. R.remaining s.inner };

    ghost faults = { λ s. s.faults };

    fn read(&mut self, into: &mut [u8]) -> Result<usize, Failed>
        ensures bound { ReadsAtMost result into.new }
        ensures bytes { ReadConsumes (R.remaining self.old.inner) (R.remaining self.new.inner) result into.new }
        ensures cause { HasCause self.old.faults self.new.faults result }
        ensures counted { MatchResult result
            (λ _. self.new.faults ≡ self.old.faults)
            (λ _. self.new.faults ≡ next_count self.old.faults) }
    {
        match self.reader.read(into) {
            Ok(count) => Ok(count),
            Err(_) => {
                self.faults = self.faults.saturating_add(1);
                Err(Failed)
            }
        }
    }
}

/// A writer of std. Each error of a write is a fault, and so is a write that takes nothing of a
/// piece that is not empty. Nothing is flushed.
#[derive(Drop)]
pub struct StdSink<W: Write> {
    writer: W,
    faults: u64,
}

impl<W: Write> Model for StdSink<W> {
    ghost use Rattle.wg_io.specs.Standard.{Counted};

    ghost Value = { Counted W };

    ghost view = { λ s. record { inner = s.writer; faults = s.faults } };
}

impl<W: Write> StdSink<W> {
    /// A sink into `writer`, with no fault met yet.
    pub fn new(writer: W) -> StdSink<W>
        ensures { result ≡ record { inner = writer; faults = 0 } }
    {
        StdSink { writer, faults: 0 }
    }
}

impl<W: Write> Sink for StdSink<W> {
    ghost taken = { λ s. W.contents s.inner };

    ghost faults = { λ s. s.faults };

    fn write(&mut self, piece: &[u8]) -> Result<usize, Failed>
        ensures bound { WritesAtMost result piece.now }
        ensures bytes { WriteAppends (W.contents self.old.inner) (W.contents self.new.inner) result piece.now }
        ensures progress { IfOk result (λ n. 0 < length piece.now → 0 < n) }
        ensures cause { HasCause self.old.faults self.new.faults result }
        ensures counted { MatchResult result
            (λ _. self.new.faults ≡ self.old.faults)
            (λ _. self.new.faults ≡ next_count self.old.faults) }
    {
        match self.writer.write(piece) {
            Ok(count) if count > 0 || piece.is_empty() => Ok(count),
            _ => {
                self.faults = self.faults.saturating_add(1);
                Err(Failed)
            }
        }
    }
}
