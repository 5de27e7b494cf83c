//! The line that is written of a text.
ghost use Rattle.std.specs.Prelude.{◌≡◌};
ghost use Rattle.wg_print.specs.Printing.{Puts, Written};
ghost use Rattle.wg_print.specs.Seen.{seen, reference};
ghost use Rattle.wg_checker.specs.Texts.{reader_text, clash_text, verdict_text, fault_text};

use wg_check::Clash;
use wg_io::{Failed, Sink};
use wg_print::{Out, Piece, put_all, put_cells};

/// Puts the reader of a clash.
fn put_reader<W: Sink>(out: &mut Out<'_, W>, reader: Option<u64>)
    ensures same_reference { reference out.new ≡ reference out.old }
    ensures text { Puts (seen W.taken W.faults out.old) (seen W.taken W.faults out.new) (reader_text reader) }
{
    match reader {
        Some(step) => put_all(out, &[Piece::Number(step)]),
        None => put_all(out, &[Piece::Word("end")]),
    }
}

/// Puts the line of a clash.
fn put_clash<W: Sink>(out: &mut Out<'_, W>, clash: Clash)
    ensures same_reference { reference out.new ≡ reference out.old }
    ensures text { Puts (seen W.taken W.faults out.old) (seen W.taken W.faults out.new) (clash_text clash) }
{
    put_all(out, &[Piece::Word("differs ")]);
    put_reader(out, clash.reader);
    put_all(
        out,
        &[
            Piece::Word(" "),
            Piece::Number(clash.writer),
            Piece::Word(" "),
        ],
    );
    put_cells(out, clash.cell);
    put_all(out, &[Piece::Word("\n")]);
}

/// Puts the line of a verdict.
fn put_verdict<W: Sink>(out: &mut Out<'_, W>, found: Option<Clash>)
    ensures same_reference { reference out.new ≡ reference out.old }
    ensures text { Puts (seen W.taken W.faults out.old) (seen W.taken W.faults out.new) (verdict_text found) }
{
    match found {
        Some(clash) => put_clash(out, clash),
        None => put_all(out, &[Piece::Word("agrees\n")]),
    }
}

/// Prints the line of a verdict.
pub fn print_verdict<W: Sink>(sink: &mut W, found: Option<Clash>) -> Result<(), Failed>
    ensures { Written (W.taken sink.old) (W.taken sink.new) (W.faults sink.old) (W.faults sink.new) (verdict_text found) result }
{
    let mut out = Out::new(sink);
    put_verdict(&mut out, found);
    out.close()
}

/// Prints the line for a text that is no trace.
pub fn print_fault<W: Sink>(sink: &mut W, rule: u8, line: u64) -> Result<(), Failed>
    ensures { Written (W.taken sink.old) (W.taken sink.new) (W.faults sink.old) (W.faults sink.new) (fault_text (rule, line)) result }
{
    let mut out = Out::new(sink);
    put_all(
        &mut out,
        &[
            Piece::Word("bad trace "),
            Piece::Number(u64::from(rule)),
            Piece::Word(" "),
            Piece::Number(line),
            Piece::Word("\n"),
        ],
    );
    out.close()
}
