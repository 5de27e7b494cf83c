//! The rules on a trace's lines.
ghost use Rattle.std.specs.Prelude.{◌≡◌, ◌≤◌, ◌<◌, ◌+◌, ◌-◌, ◌^◌, drop, length, List, [], ◌==◌, true, IfOk, IfErr, IfSome, IsNone, None, Some};
ghost use Rattle.std.specs.List.{list_all};
ghost use Rattle.wg_rows.specs.Once.{AreOnce};
ghost use Rattle.wg_rows.specs.Runs.{Cells as Run};
ghost use Rattle.wg_readtrace.specs.Forms.{line_of};
ghost use Rattle.wg_readtrace.specs.Given.{Knows};
ghost use Rattle.wg_readtrace.specs.Lines.{line_len};
ghost use Rattle.wg_readtrace.specs.Reading.{Refuses, is_text_byte, ends_line, lines_of, behind_trace, is_bar, is_step, is_use, is_acc, is_end, is_counted, may_stand, is_none_left, gives_again, judged, as_items, trace_in};
ghost use Rattle.wg_readtrace.specs.Drafts.{Gives, LineIsFull, steps_after, lines_from};

use crate::draft::TraceDraft;
use crate::given::Given;
use crate::line::Line;
use crate::{forms, words};
use std::alloc::Global;
use wg_trace::items::Items;
use wg_trace::steps::Item;

/// Why a text is no trace: the rule that it breaks first, with the number of the line, from 1, or 0 for
/// the text; or there is no memory.
#[derive(Clone, Copy, PartialEq, Eq)]
pub enum TraceFault {
    Bad { rule: u8, line: u64 },
    NoMemory,
}

fn is_text_byte(b: u8) -> bool
    ensures { result ≡ is_text_byte b }
{
    b == 10 || (b >= 32 && b <= 126)
}

fn is_text(bytes: &[u8]) -> bool
    ensures { result ≡ list_all is_text_byte bytes.now }
{
    bytes.iter().all(|b| is_text_byte(*b))
}

/// Whether the last byte is a line end.
fn ends_line(text: &[u8]) -> bool
    ensures { result ≡ ends_line text.now }
{
    if text.is_empty() {
        return false;
    }
    text[text.len() - 1] == 10
}

fn is_bar(line: Line) -> bool
    ensures { result ≡ is_bar line }
{
    match line {
        Line::Bar { .. } => true,
        _ => false,
    }
}

fn is_step(line: Line) -> bool
    ensures { result ≡ is_step line }
{
    match line {
        Line::Step { .. } => true,
        _ => false,
    }
}

fn is_use(line: Line) -> bool
    ensures { result ≡ is_use line }
{
    match line {
        Line::Use { .. } => true,
        _ => false,
    }
}

fn is_acc(line: Line) -> bool
    ensures { result ≡ is_acc line }
{
    match line {
        Line::Acc { .. } => true,
        _ => false,
    }
}

fn is_end(line: Line) -> bool
    ensures { result ≡ is_end line }
{
    match line {
        Line::End => true,
        _ => false,
    }
}

/// Whether a step has the number of the steps before it.
fn is_counted(steps: u64, line: Line) -> bool
    ensures { result ≡ is_counted steps line }
{
    match line {
        Line::Step { number, .. } => number == steps,
        _ => true,
    }
}

/// Whether a line may stand behind another.
fn may_follow(last: Line, line: Line) -> bool
    ensures { result ≡ Rattle.wg_readtrace.specs.Drafts.may_follow last line }
{
    match line {
        Line::Bar { .. } => !is_end(last),
        Line::Step { .. } => !is_end(last),
        Line::Use { .. } => is_step(last) || is_use(last),
        Line::Acc { .. } => is_step(last) || is_use(last) || is_acc(last),
        Line::Free { .. } => !is_bar(last) && !is_end(last),
        Line::End => !is_bar(last) && !is_end(last),
    }
}

/// Whether a line may be the first.
fn may_begin(line: Line) -> bool
    ensures { result ≡ Rattle.wg_readtrace.specs.Drafts.may_begin line }
{
    !is_use(line) && !is_acc(line)
}

/// Whether a line may stand behind another, or behind none, and so many steps.
fn may_stand(last: Option<Line>, steps: u64, line: Line) -> bool
    ensures { result ≡ may_stand last steps line }
{
    if !is_counted(steps, line) {
        return false;
    }
    match last {
        Some(last) => may_follow(last, line),
        None => may_begin(line),
    }
}

/// Whether a line gives a cell again.
fn gives_again(given: &Given, line: Line) -> bool
    requires { LineIsFull line }
    ensures { (rows : List Run) → Knows given.now rows → result ≡ gives_again rows line }
{
    match line {
        Line::Acc { cells, .. } => given.has(cells),
        _ => false,
    }
}

/// A line by rules 2, 3 and 4.
fn judged(
    text: &[u8],
    n: u64,
    is_last: bool,
    last: Option<Line>,
    steps: u64,
    given: &Given,
) -> Result<Line, TraceFault>
    ensures judged { (rows : List Run) → Knows given.now rows → Gives result (judged n is_last last steps rows (line_of text.now)) }
    ensures full { IfOk result LineIsFull }
    ensures once { (rows : List Run) → Knows given.now rows → IfOk result (λ line. Rattle.wg_readtrace.specs.Reading.gives_again rows line ≡ Rattle.std.specs.Prelude.false) }
{
    let Some(line) = forms::line(text) else {
        return Err(TraceFault::Bad { rule: 2, line: n });
    };
    if !may_stand(last, steps, line) {
        return Err(TraceFault::Bad { rule: 3, line: n });
    }
    if is_last && !is_end(line) {
        return Err(TraceFault::Bad { rule: 3, line: n });
    }
    if gives_again(given, line) {
        return Err(TraceFault::Bad { rule: 4, line: n });
    }
    Ok(line)
}

fn steps_after(steps: u64, line: Line) -> u64
    requires { steps < 2 ^ 63 }
    ensures value { result ≡ steps_after steps line }
    ensures small { result ≤ steps + 1 }
{
    match line {
        Line::Step { .. } => steps + 1,
        _ => steps,
    }
}

/// The place of the next line end, or of the end.
fn line_end(text: &[u8], at: usize) -> usize
    requires { at ≤ length text.now }
    ensures lower { at ≤ result }
    ensures upper { result ≤ length text.now }
    ensures len { result - at ≡ line_len (drop at text.now) }
{
    let mut end = at;
    while end < text.len() {
        if text[end] == 10 {
            return end;
        }
        end += 1;
    }
    end
}

/// Whether no line begins at a place.
#[tactic(auto, using(crate::proofs::Lines::none_left, crate::proofs::Lines::some_left))]
fn is_at_end(text: &[u8], at: usize) -> bool
    ensures { result ≡ is_none_left (lines_of (drop at text.now)) }
{
    at >= text.len()
}

/// The items of the lines from a place on, where the first of these has a number.
fn read_items(
    alloc: Global,
    text: &[u8],
    from: usize,
    first: u64,
) -> Result<Items<Item>, TraceFault>
    requires within { from ≤ length text.now + 1 }
    requires small { first ≤ from + 1 }
    ensures ok { IfOk result (λ items. as_items (lines_from first None 0 [] (lines_of (drop from text.now))) ≡ Rattle.std.specs.Prelude.Ok items) }
    ensures err { IfErr result (λ e. Refuses e (as_items (lines_from first None 0 [] (lines_of (drop from text.now))))) }
{
    let mut draft = TraceDraft::new(alloc);
    let mut last = None;
    let mut steps = 0;
    let mut n = first;
    let mut at = from;
    while at < text.len() {
        let end = line_end(text, at);
        let is_last = is_at_end(text, end + 1);
        let line = match judged(&text[at..end], n, is_last, last, steps, &draft.given) {
            Ok(line) => line,
            Err(fault) => return Err(fault),
        };
        if draft.note(line).is_err() {
            return Err(TraceFault::NoMemory);
        }
        steps = steps_after(steps, line);
        last = Some(line);
        n += 1;
        at = end + 1;
    }
    match draft.finish() {
        Ok(items) => Ok(items),
        Err(_) => Err(TraceFault::NoMemory),
    }
}

/// The number of the first line `trace`, and the place behind it.
fn behind_trace(text: &[u8]) -> Option<(u64, usize)>
    ensures none { IsNone result → behind_trace 1 (lines_of text.now) ≡ None }
    ensures some { IfSome result (λ r. behind_trace 1 (lines_of text.now) ≡ Some (r.0, lines_of (drop r.1 text.now))) }
    ensures within { IfSome result (λ r. r.1 ≤ length text.now + 1) }
    ensures small { IfSome result (λ r. r.0 ≤ r.1) }
{
    let mut n: u64 = 1;
    let mut at = 0;
    while at < text.len() {
        let end = line_end(text, at);
        if words::is(&text[at..end], "trace") {
            return Some((n, end + 1));
        }
        n += 1;
        at = end + 1;
    }
    None
}

/// Reads a trace, or a report: what stands before the first line `trace` is passed over. The lines
/// behind it have the form of a report's; the rules are 1 for the text (its bytes, its last line end,
/// the line `trace`), 2 for the form of a line, 3 for its place and the numbers of steps, and 4 for a
/// cell that a step gives twice.
pub fn read(alloc: Global, bytes: &[u8]) -> Result<Items<Item>, TraceFault>
    ensures ok { IfOk result (λ items. trace_in bytes.now ≡ Rattle.std.specs.Prelude.Ok items) }
    ensures once { IfOk result AreOnce }
    ensures err { IfErr result (λ e. Refuses e (trace_in bytes.now)) }
{
    if !is_text(bytes) {
        return Err(TraceFault::Bad { rule: 1, line: 0 });
    }
    if !ends_line(bytes) {
        return Err(TraceFault::Bad { rule: 1, line: 0 });
    }
    let Some((n, at)) = behind_trace(bytes) else {
        return Err(TraceFault::Bad { rule: 1, line: 0 });
    };
    if at >= bytes.len() {
        return Err(TraceFault::Bad { rule: 3, line: n });
    }
    read_items(alloc, bytes, at, n + 1)
}
