ghost use Rattle.std.specs.Prelude.{◌≡◌, ◌≤◌, ◌<◌, ◌+◌, ◌∷◌, [], List, ℕ, length, false, true, decimal, MatchResult, OnOk, OnErr};
ghost use Rattle.std.specs.Io.KnownBytes.{Appends};
ghost use Rattle.wg_io.specs.Causes.{Rose};
ghost use Rattle.wg_print.specs.Printing.{Printer, Adds, Puts, TakesPart, Written, IsFresh};
ghost use Rattle.wg_print.specs.Seen.{seen, reference, sink_of, IsLive};

use crate::buffer::Buffer;
use wg_io::{Failed, Sink};

/// A sink with a buffer of 4,096 bytes before it. Its text is what the sink took since `new`, with
/// the buffer after it. Once a call has answered `Failed`, no further call may be made.
#[derive(Drop)]
pub struct Out<'a, W: Sink> {
    sink: &'a mut W,
    held: Buffer,
    failed: bool,
}

impl<'a, W: Sink> Out<'a, W> {
    /// A printer with no text yet.
    pub fn new(sink: &'a mut W) -> Out<'a, W>
        ensures same_reference { reference result ≡ sink.entry.ghost_name }
        ensures same_sink { sink_of result ≡ sink.old }
        ensures fresh { IsFresh (seen W.taken W.faults result) }
    {
        Out {
            sink,
            held: Buffer::new(),
            failed: false,
        }
    }

    /// Passes on what is left in the buffer: the text that was added since the buffer was empty is
    /// then written.
    pub fn finish(self) -> Result<(), Failed>
        requires { IsLive self }
        ensures { (start : Printer) (text : List ℕ) → IsFresh start
            → Adds start (seen W.taken W.faults self.entry) text
            → Written start.taken (W.taken self.exit.0.now)
            start.faults (W.faults self.exit.0.now) text result }
    {
        let Out {
            sink,
            held,
            failed: _,
        } = self;
        write_all(sink, held.as_slice())
    }

    /// The same, also of a printer whose write has failed, which then answers `Failed`. So lines may be
    /// put one after another, and the one answer comes at the end.
    pub fn close(self) -> Result<(), Failed>
        ensures { (start : Printer) (text : List ℕ) → IsFresh start → Puts start (seen W.taken W.faults self.entry) text →
            Written start.taken (W.taken self.exit.0.now) start.faults (W.faults self.exit.0.now) text result }
    {
        let Out { sink, held, failed } = self;
        if failed {
            return Err(Failed);
        }
        let rest = held.as_slice();
        write_all(sink, rest)
    }

    // Whether a write has failed.
    pub(crate) fn check(&self) -> Result<(), Failed>
        ensures { MatchResult result (λ _. self.now.failed ≡ false) (λ _. self.now.failed ≡ true) }
    {
        if self.failed { Err(Failed) } else { Ok(()) }
    }

    // Puts a word at the end of the text. Once a write has failed this does nothing.
    pub(crate) fn word(&mut self, text: &str)
        ensures same_reference { reference self.new ≡ reference self.old }
        ensures text { Puts (seen W.taken W.faults self.old) (seen W.taken W.faults self.new)
            text.now }
    {
        self.put(text.as_bytes());
    }

    // Puts a number in decimal.
    pub(crate) fn number(&mut self, number: u64)
        ensures same_reference { reference self.new ≡ reference self.old }
        ensures text { Puts (seen W.taken W.faults self.old) (seen W.taken W.faults self.new)
            (decimal number) }
    {
        let mut digits = itoa::Buffer::new();
        self.put(digits.format(number).as_bytes());
    }

    // Puts bytes, at once where the buffer has room for them.
    #[inline(always)]
    fn put(&mut self, text: &[u8])
        ensures same_reference { reference self.new ≡ reference self.old }
        ensures text { Puts (seen W.taken W.faults self.old) (seen W.taken W.faults self.new)
            text.now }
    {
        if text.len() <= self.held.room() {
            self.hold_all(text);
        } else {
            self.put_bytes(text);
        }
    }

    #[inline(never)]
    #[tactic(auto, using(crate::proofs::PrintingLemmas::puts_next, crate::proofs::PrintingLemmas::puts_none))]
    fn put_bytes(&mut self, text: &[u8])
        ensures same_reference { reference self.new ≡ reference self.old }
        ensures text { Puts (seen W.taken W.faults self.old) (seen W.taken W.faults self.new)
            text.now }
    {
        for byte in text {
            self.put_byte(*byte);
        }
    }

    #[tactic(auto, using(crate::proofs::PrintingLemmas::puts_then, crate::proofs::PrintingLemmas::puts_none))]
    fn put_byte(&mut self, byte: u8)
        ensures same_reference { reference self.new ≡ reference self.old }
        ensures text { Puts (seen W.taken W.faults self.old) (seen W.taken W.faults self.new)
            (byte ∷ []) }
    {
        self.make_room();
        self.hold(byte);
    }

    // Passes a full buffer on.
    #[tactic(auto, using(crate::proofs::PrintingLemmas::puts_none))]
    fn make_room(&mut self)
        ensures same_reference { reference self.new ≡ reference self.old }
        ensures text { Puts (seen W.taken W.faults self.old) (seen W.taken W.faults self.new) [] }
        ensures room { self.new.failed ≡ false → length self.new.held < 4096 }
    {
        if self.held.len() >= 4096 {
            self.flush();
        }
    }

    fn hold(&mut self, byte: u8)
        requires { self.old.failed ≡ false → length self.old.held < 4096 }
        ensures same_reference { reference self.new ≡ reference self.old }
        ensures text { Puts (seen W.taken W.faults self.old) (seen W.taken W.faults self.new)
            (byte ∷ []) }
    {
        if !self.failed {
            self.held.push(byte);
        }
    }

    fn hold_all(&mut self, text: &[u8])
        requires { length self.old.held + length text.now ≤ 4096 }
        ensures same_reference { reference self.new ≡ reference self.old }
        ensures text { Puts (seen W.taken W.faults self.old) (seen W.taken W.faults self.new)
            text.now }
    {
        if !self.failed {
            self.held.extend(text);
        }
    }

    // Passes the buffer on.
    fn flush(&mut self)
        ensures same_reference { reference self.new ≡ reference self.old }
        ensures text { Puts (seen W.taken W.faults self.old) (seen W.taken W.faults self.new) [] }
        ensures empty { self.new.failed ≡ false → self.new.held ≡ [] }
    {
        if self.failed {
            return;
        }
        match write_all(self.sink, self.held.as_slice()) {
            Ok(()) => self.held.clear(),
            Err(Failed) => self.failed = true,
        }
    }
}

// Writes the whole piece.
#[tactic(auto, using(crate::proofs::PrintingLemmas::takes_part, crate::proofs::PrintingLemmas::writes_on))]
fn write_all<W: Sink>(sink: &mut W, piece: &[u8]) -> Result<(), Failed>
    ensures ok { OnOk result (Appends (W.taken sink.old) (W.taken sink.new) piece.now) }
    ensures part { OnErr result (TakesPart (W.taken sink.old) (W.taken sink.new) piece.now) }
    ensures cause { OnErr result (Rose (W.faults sink.old) (W.faults sink.new)) }
    ensures later { W.faults sink.old ≤ W.faults sink.new }
{
    let mut at = 0;
    while at < piece.len() {
        match sink.write(&piece[at..]) {
            Ok(count) => at += count,
            Err(failed) => return Err(failed),
        }
    }
    Ok(())
}
