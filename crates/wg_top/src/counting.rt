//! The line of a generated script.
ghost use Rattle.std.specs.Prelude.{◌≡◌, count_by};
ghost use Rattle.wg_print.specs.Printing.{Puts, Written};
ghost use Rattle.wg_print.specs.Seen.{seen, reference};
ghost use Rattle.wg_gen.specs.Counts.{is_free, is_barrier, is_clear_step};
ghost use Rattle.wg_top.specs.Line.{counts_text, more_text};
ghost use Rattle.wg_top.specs.Logged.{line_issued, faulted, logged_counts, logged_counted};

use wg_core::Line;
use wg_io::{Failed, Sink};
use wg_print::{Out, Piece, put_all};
use wg_types::replies::Answer;
use wg_types::steps::{Item, StepName};

/// Whether the line is of an entry that issued an operation.
fn line_issued(line: &Line) -> bool
    ensures { result ≡ line_issued line.now }
{
    matches!(line.reply.answer, Answer::Queued(_))
}

/// Whether the line is of an entry with a fault.
fn faulted(line: &Line) -> bool
    ensures { result ≡ faulted line.now }
{
    line.reply.fault.is_some()
}

fn is_free(item: &Item) -> bool
    ensures { result ≡ is_free item.now }
{
    matches!(item, Item::Free { .. })
}

fn is_barrier(item: &Item) -> bool
    ensures { result ≡ is_barrier item.now }
{
    matches!(item, Item::Bar { .. })
}

/// Whether an item is a step that sets fresh memory to zero.
fn is_clear_step(item: &Item) -> bool
    ensures { result ≡ is_clear_step item.now }
{
    match item {
        Item::Step(step) => step.name == StepName::Clear,
        _ => false,
    }
}

fn issues_in(lines: &[Line]) -> usize
    ensures { result ≡ count_by line_issued lines.now }
{
    lines.iter().filter(|line| line_issued(line)).count()
}

fn faults_in(lines: &[Line]) -> usize
    ensures { result ≡ count_by faulted lines.now }
{
    lines.iter().filter(|line| faulted(line)).count()
}

fn frees_in(trace: &[Item]) -> usize
    ensures { result ≡ count_by is_free trace.now }
{
    trace.iter().filter(|item| is_free(item)).count()
}

fn bars_in(trace: &[Item]) -> usize
    ensures { result ≡ count_by is_barrier trace.now }
{
    trace.iter().filter(|item| is_barrier(item)).count()
}

fn clears_in(trace: &[Item]) -> usize
    ensures { result ≡ count_by is_clear_step trace.now }
{
    trace.iter().filter(|item| is_clear_step(item)).count()
}

/// Puts what is counted whatever the order of turns.
fn put_counts<W: Sink>(out: &mut Out<'_, W>, lines: &[Line], trace: &[Item])
    ensures same_reference { reference out.new ≡ reference out.old }
    ensures text { Puts (seen W.taken W.faults out.old) (seen W.taken W.faults out.new) (counts_text (logged_counts lines.now trace.now)) }
{
    put_all(
        out,
        &[
            Piece::Word("entries "),
            Piece::Number(lines.len() as u64),
            Piece::Word(" ops "),
            Piece::Number(issues_in(lines) as u64),
            Piece::Word(" faults "),
            Piece::Number(faults_in(lines) as u64),
            Piece::Word(" frees "),
            Piece::Number(frees_in(trace) as u64),
        ],
    );
}

/// Puts the barriers and the clears, where no lanes are asked for.
fn put_more<W: Sink>(out: &mut Out<'_, W>, lanes: Option<u32>, trace: &[Item])
    ensures same_reference { reference out.new ≡ reference out.old }
    ensures text { Puts (seen W.taken W.faults out.old) (seen W.taken W.faults out.new) (more_text lanes trace.now) }
{
    match lanes {
        None => put_all(
            out,
            &[
                Piece::Word(" bars "),
                Piece::Number(bars_in(trace) as u64),
                Piece::Word(" clears "),
                Piece::Number(clears_in(trace) as u64),
            ],
        ),
        Some(_) => put_all(out, &[]),
    }
}

/// Puts the line of a generated script.
fn put_counted<W: Sink>(out: &mut Out<'_, W>, lanes: Option<u32>, lines: &[Line], trace: &[Item])
    ensures same_reference { reference out.new ≡ reference out.old }
    ensures text { Puts (seen W.taken W.faults out.old) (seen W.taken W.faults out.new) (logged_counted lanes lines.now trace.now) }
{
    put_counts(out, lines, trace);
    put_more(out, lanes, trace);
    put_all(out, &[Piece::Word("\n")]);
}

/// Prints the line of a generated script.
pub fn print_counted<W: Sink>(
    sink: &mut W,
    lanes: Option<u32>,
    lines: &[Line],
    trace: &[Item],
) -> Result<(), Failed>
    ensures { Written (W.taken sink.old) (W.taken sink.new) (W.faults sink.old) (W.faults sink.new) (logged_counted lanes lines.now trace.now) result }
{
    let mut out = Out::new(sink);
    put_counted(&mut out, lanes, lines, trace);
    out.close()
}
