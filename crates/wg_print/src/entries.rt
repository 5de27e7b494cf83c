ghost use Rattle.std.specs.Prelude.{◌≡◌, OnOk, OnErr};
ghost use Rattle.wg_print.specs.Entries.{answer_text, caught_text, fault_text, how_text, settlement_text, settled_text, entry_text};
ghost use Rattle.wg_print.specs.Printing.{Puts, Adds, Stops};
ghost use Rattle.wg_print.specs.Seen.{seen, reference, IsLive};

use crate::pieces::{Piece, put_all};
use crate::printing::Out;
use crate::words::{fault_kind_word, validity_word};
use wg_io::{Failed, Sink};
use wg_trace::replies::{Answer, Caught, Fault, How, Reply, Settlement};

fn put_answer<W: Sink>(out: &mut Out<'_, W>, answer: Answer)
    ensures same_reference { reference out.new ≡ reference out.old }
    ensures text { Puts (seen W.taken W.faults out.old) (seen W.taken W.faults out.new)
        (answer_text answer) }
{
    match answer {
        Answer::Made { number, valid } => put_all(
            out,
            &[
                Piece::Word("made "),
                Piece::Number(number),
                Piece::Word(" "),
                Piece::Word(validity_word(valid)),
            ],
        ),
        Answer::Queued(number) => put_all(out, &[Piece::Word("op "), Piece::Number(number)]),
        Answer::Promised => out.word("promise"),
        Answer::Plain => out.word("plain"),
        Answer::BadCompletion => out.word("bad"),
    }
}

fn put_caught<W: Sink>(out: &mut Out<'_, W>, caught: Caught)
    ensures same_reference { reference out.new ≡ reference out.old }
    ensures text { Puts (seen W.taken W.faults out.old) (seen W.taken W.faults out.new)
        (caught_text caught) }
{
    match caught {
        Caught::Scope(place) => put_all(out, &[Piece::Word(" scope "), Piece::Number(place)]),
        Caught::Uncaptured => out.word(" uncaptured"),
    }
}

fn put_fault<W: Sink>(out: &mut Out<'_, W>, fault: Option<Fault>)
    ensures same_reference { reference out.new ≡ reference out.old }
    ensures text { Puts (seen W.taken W.faults out.old) (seen W.taken W.faults out.new)
        (fault_text fault) }
{
    if let Some(fault) = fault {
        put_all(
            out,
            &[
                Piece::Word(" fault "),
                Piece::Word(fault_kind_word(fault.kind)),
                Piece::Word(" "),
                Piece::Number(u64::from(fault.rule)),
            ],
        );
        put_caught(out, fault.caught);
    }
}

fn put_how<W: Sink>(out: &mut Out<'_, W>, how: How)
    ensures same_reference { reference out.new ≡ reference out.old }
    ensures text { Puts (seen W.taken W.faults out.old) (seen W.taken W.faults out.new)
        (how_text how) }
{
    match how {
        How::Mapped => out.word("mapped"),
        How::Done => out.word("done"),
        How::Aborted => out.word("aborted"),
        How::Rejected => out.word("rejected"),
        How::Null => out.word("null"),
        How::Error { kind, rule } => put_all(
            out,
            &[
                Piece::Word("error "),
                Piece::Word(fault_kind_word(kind)),
                Piece::Word(" "),
                Piece::Number(u64::from(rule)),
            ],
        ),
    }
}

fn put_settlement<W: Sink>(out: &mut Out<'_, W>, settlement: Settlement)
    ensures same_reference { reference out.new ≡ reference out.old }
    ensures text { Puts (seen W.taken W.faults out.old) (seen W.taken W.faults out.new)
        (settlement_text settlement) }
{
    put_all(
        out,
        &[
            Piece::Word(" settle "),
            Piece::Number(settlement.promise),
            Piece::Word(" "),
        ],
    );
    put_how(out, settlement.how);
}

fn put_settled<W: Sink>(out: &mut Out<'_, W>, settlements: &[Settlement])
    ensures same_reference { reference out.new ≡ reference out.old }
    ensures text { Puts (seen W.taken W.faults out.old) (seen W.taken W.faults out.new)
        (settled_text settlements.now) }
{
    for settlement in settlements {
        put_settlement(out, *settlement);
    }
}

/// Puts the line of an entry, whose event is told by this text. Once a write has failed this does nothing.
pub fn put_entry<W: Sink>(out: &mut Out<'_, W>, number: u64, who: u32, verb: &str, reply: &Reply)
    ensures same_reference { reference out.new ≡ reference out.old }
    ensures text { Puts (seen W.taken W.faults out.old) (seen W.taken W.faults out.new)
        (entry_text number who verb.now reply.now) }
{
    put_all(
        out,
        &[
            Piece::Number(number),
            Piece::Word(" "),
            Piece::Number(u64::from(who)),
            Piece::Word(" "),
            Piece::Word(verb),
            Piece::Word(" "),
        ],
    );
    put_answer(out, reply.answer);
    put_fault(out, reply.fault);
    put_settled(out, reply.settled.as_slice());
    out.word("\n");
}

/// Prints the entry of the history with this number, of this caller, as one line; `verb` tells its event.
pub fn entry<W: Sink>(
    out: &mut Out<'_, W>,
    number: u64,
    who: u32,
    verb: &str,
    reply: &Reply,
) -> Result<(), Failed>
    requires { IsLive out.old }
    ensures same_reference { reference out.new ≡ reference out.old }
    ensures added { OnOk result (Adds
        (seen W.taken W.faults out.old) (seen W.taken W.faults out.new)
        (entry_text number who verb.now reply.now)) }
    ensures stopped { OnErr result (Stops
        (seen W.taken W.faults out.old) (seen W.taken W.faults out.new)
        (entry_text number who verb.now reply.now)) }
{
    put_entry(out, number, who, verb, reply);
    out.check()
}
