//! The forms of a trace's lines. A form reads on from a place of a line, and answers what it read with the
//! place behind it.
ghost use Rattle.std.specs.Prelude.{◌≡◌, ◌≤◌, ◌<◌, ◌^◌, drop, length, IfSome};
ghost use Rattle.wg_readtrace.specs.Words.{aspect_word, kind_word, name_word, sort_word, set_word};
ghost use Rattle.wg_readtrace.specs.Given.{IsFull};
ghost use Rattle.wg_readtrace.specs.Drafts.{LineIsFull};
ghost use Rattle.wg_readtrace.specs.Forms.{Reads, word_as, range, whole, buffer_part, query_part, texture_part, part_as, part_of, bytes_of, queries_of, layers_of, slices_of, is_color, cells_as, cells_of, from_word, place_as, place_of, bar_of, step_of, acc_of, free_of, line_as, line_of, most_32};

use crate::line::Line;
use crate::words;
use wg_trace::parts::{AccessKind, Aspect, Cells, PartRun};
use wg_trace::steps::{Sort, StepName, StepPlace};
use wg_trace::usages::Usages;

const MOST_53: u64 = 9_007_199_254_740_991;

fn number(text: &[u8], at: usize, most: u64) -> Option<(u64, usize)>
    requires within { at ≤ length text.now }
    requires most { most < 2 ^ 60 }
    ensures read { Reads text.now result (Rattle.wg_readtrace.specs.Forms.number most (drop at text.now)) }
    ensures small { IfSome result (λ r. r.0 ≤ most) }
{
    let (word, end) = words::field(text, at)?;
    let n = words::number_word(word, most)?;
    Some((n, end))
}

fn small(text: &[u8], at: usize) -> Option<(u32, usize)>
    requires { at ≤ length text.now }
    ensures { Reads text.now result (Rattle.wg_readtrace.specs.Forms.number most_32 (drop at text.now)) }
{
    let (n, end) = number(text, at, 4_294_967_295)?;
    Some((n as u32, end))
}

fn aspect(text: &[u8], at: usize) -> Option<(Aspect, usize)>
    requires { at ≤ length text.now }
    ensures { Reads text.now result (word_as aspect_word (drop at text.now)) }
{
    let (word, end) = words::field(text, at)?;
    let aspect = words::aspect_word(word)?;
    Some((aspect, end))
}

fn kind(text: &[u8], at: usize) -> Option<(AccessKind, usize)>
    requires { at ≤ length text.now }
    ensures { Reads text.now result (word_as kind_word (drop at text.now)) }
{
    let (word, end) = words::field(text, at)?;
    let kind = words::kind_word(word)?;
    Some((kind, end))
}

fn sort(text: &[u8], at: usize) -> Option<(Sort, usize)>
    requires { at ≤ length text.now }
    ensures { Reads text.now result (word_as sort_word (drop at text.now)) }
{
    let (word, end) = words::field(text, at)?;
    let sort = words::sort_word(word)?;
    Some((sort, end))
}

fn name(text: &[u8], at: usize) -> Option<(StepName, usize)>
    requires { at ≤ length text.now }
    ensures { Reads text.now result (word_as name_word (drop at text.now)) }
{
    let (word, end) = words::field(text, at)?;
    let name = words::name_word(word)?;
    Some((name, end))
}

fn set(text: &[u8], at: usize) -> Option<(Usages, usize)>
    requires { at ≤ length text.now }
    ensures { Reads text.now result (word_as set_word (drop at text.now)) }
{
    let (word, end) = words::field(text, at)?;
    let set = words::set_word(word)?;
    Some((set, end))
}

fn from_word(word: &[u8]) -> Option<Option<Usages>>
    ensures { result ≡ from_word word.now }
{
    if words::is(word, "none") {
        return Some(None);
    }
    let set = words::set_word(word)?;
    Some(Some(set))
}

fn from(text: &[u8], at: usize) -> Option<(Option<Usages>, usize)>
    requires { at ≤ length text.now }
    ensures { Reads text.now result (word_as from_word (drop at text.now)) }
{
    let (word, end) = words::field(text, at)?;
    let from = from_word(word)?;
    Some((from, end))
}

fn range(text: &[u8], at: usize, most: u64) -> Option<((u64, u64), usize)>
    requires within { at ≤ length text.now }
    requires most { most < 2 ^ 60 }
    ensures read { Reads text.now result (range most (drop at text.now)) }
    ensures full { IfSome result (λ r. r.0.0 < r.0.1) }
{
    let (lo, at) = number(text, at, most)?;
    let (hi, at) = number(text, at, most)?;
    if lo < hi { Some(((lo, hi), at)) } else { None }
}

fn small_range(text: &[u8], at: usize) -> Option<((u32, u32), usize)>
    requires { at ≤ length text.now }
    ensures read { Reads text.now result (range most_32 (drop at text.now)) }
    ensures full { IfSome result (λ r. r.0.0 < r.0.1) }
{
    let (lo, at) = small(text, at)?;
    let (hi, at) = small(text, at)?;
    if lo < hi { Some(((lo, hi), at)) } else { None }
}

/// A line behind which nothing stands.
fn whole(text: &[u8], at: usize, line: Line) -> Option<Line>
    requires within { at ≤ length text.now }
    requires full { LineIsFull line }
    ensures read { result ≡ whole (drop at text.now) line }
    ensures full { IfSome result LineIsFull }
{
    if at == text.len() { Some(line) } else { None }
}

#[tactic(auto, unfolding(crate::specs::Forms::buffer_part))]
fn buffer_part(text: &[u8], at: usize) -> Option<(PartRun, usize)>
    requires { at ≤ length text.now }
    ensures { Reads text.now result (buffer_part (drop at text.now)) }
{
    let (object, at) = number(text, at, MOST_53)?;
    Some((PartRun::Buffer { object }, at))
}

#[tactic(auto, unfolding(crate::specs::Forms::query_part))]
fn query_part(text: &[u8], at: usize) -> Option<(PartRun, usize)>
    requires { at ≤ length text.now }
    ensures { Reads text.now result (query_part (drop at text.now)) }
{
    let (object, at) = number(text, at, MOST_53)?;
    Some((PartRun::Queries { object }, at))
}

#[tactic(auto, unfolding(crate::specs::Forms::texture_part))]
fn texture_part(text: &[u8], at: usize) -> Option<(PartRun, usize)>
    requires { at ≤ length text.now }
    ensures { Reads text.now result (texture_part (drop at text.now)) }
{
    let (object, at) = number(text, at, MOST_53)?;
    let (aspect, at) = aspect(text, at)?;
    let (mip, at) = small(text, at)?;
    let ((lo, hi), at) = small_range(text, at)?;
    Some((
        PartRun::Texture {
            object,
            aspect,
            mip,
            lo,
            hi,
        },
        at,
    ))
}

fn part_as(word: &[u8], text: &[u8], at: usize) -> Option<(PartRun, usize)>
    requires { at ≤ length text.now }
    ensures { Reads text.now result (part_as word.now (drop at text.now)) }
{
    if words::is(word, "b") {
        return buffer_part(text, at);
    }
    if words::is(word, "q") {
        return query_part(text, at);
    }
    if words::is(word, "t") {
        return texture_part(text, at);
    }
    None
}

#[tactic(auto, unfolding(crate::specs::Forms::part_of))]
fn part(text: &[u8], at: usize) -> Option<(PartRun, usize)>
    requires { at ≤ length text.now }
    ensures { Reads text.now result (part_of (drop at text.now)) }
{
    let (word, at) = words::field(text, at)?;
    part_as(word, text, at)
}

#[tactic(auto, unfolding(crate::specs::Forms::bytes_of))]
fn bytes(text: &[u8], at: usize) -> Option<(Cells, usize)>
    requires { at ≤ length text.now }
    ensures read { Reads text.now result (bytes_of (drop at text.now)) }
    ensures full { IfSome result (λ r. IsFull r.0) }
{
    let (object, at) = number(text, at, MOST_53)?;
    let ((lo, hi), at) = range(text, at, MOST_53)?;
    Some((Cells::Bytes { object, lo, hi }, at))
}

#[tactic(auto, unfolding(crate::specs::Forms::queries_of))]
fn queries(text: &[u8], at: usize) -> Option<(Cells, usize)>
    requires { at ≤ length text.now }
    ensures read { Reads text.now result (queries_of (drop at text.now)) }
    ensures full { IfSome result (λ r. IsFull r.0) }
{
    let (object, at) = number(text, at, MOST_53)?;
    let ((lo, hi), at) = small_range(text, at)?;
    Some((Cells::Queries { object, lo, hi }, at))
}

#[tactic(auto, unfolding(crate::specs::Forms::layers_of))]
fn layers(text: &[u8], at: usize) -> Option<(Cells, usize)>
    requires { at ≤ length text.now }
    ensures read { Reads text.now result (layers_of (drop at text.now)) }
    ensures full { IfSome result (λ r. IsFull r.0) }
{
    let (object, at) = number(text, at, MOST_53)?;
    let (aspect, at) = aspect(text, at)?;
    let (mip, at) = small(text, at)?;
    let ((lo, hi), at) = small_range(text, at)?;
    Some((
        Cells::Layers {
            object,
            aspect,
            mip,
            lo,
            hi,
        },
        at,
    ))
}

fn is_color(aspect: Aspect) -> bool
    ensures { result ≡ is_color aspect }
{
    match aspect {
        Aspect::Color => true,
        _ => false,
    }
}

#[tactic(auto, unfolding(crate::specs::Forms::slices_of))]
fn slices(text: &[u8], at: usize) -> Option<(Cells, usize)>
    requires { at ≤ length text.now }
    ensures read { Reads text.now result (slices_of (drop at text.now)) }
    ensures full { IfSome result (λ r. IsFull r.0) }
{
    let (object, at) = number(text, at, MOST_53)?;
    let (aspect, at) = aspect(text, at)?;
    let (mip, at) = small(text, at)?;
    let ((lo, hi), at) = small_range(text, at)?;
    if is_color(aspect) {
        Some((
            Cells::Slices {
                object,
                mip,
                lo,
                hi,
            },
            at,
        ))
    } else {
        None
    }
}

fn cells_as(word: &[u8], text: &[u8], at: usize) -> Option<(Cells, usize)>
    requires { at ≤ length text.now }
    ensures read { Reads text.now result (cells_as word.now (drop at text.now)) }
    ensures full { IfSome result (λ r. IsFull r.0) }
{
    if words::is(word, "b") {
        return bytes(text, at);
    }
    if words::is(word, "q") {
        return queries(text, at);
    }
    if words::is(word, "t") {
        return layers(text, at);
    }
    if words::is(word, "s") {
        return slices(text, at);
    }
    None
}

#[tactic(auto, unfolding(crate::specs::Forms::cells_of))]
fn cells(text: &[u8], at: usize) -> Option<(Cells, usize)>
    requires { at ≤ length text.now }
    ensures read { Reads text.now result (cells_of (drop at text.now)) }
    ensures full { IfSome result (λ r. IsFull r.0) }
{
    let (word, at) = words::field(text, at)?;
    cells_as(word, text, at)
}

fn place_as(word: &[u8], text: &[u8], at: usize) -> Option<(StepPlace, usize)>
    requires { at ≤ length text.now }
    ensures { Reads text.now result (place_as word.now (drop at text.now)) }
{
    if words::is(word, "op") {
        let (n, at) = number(text, at, MOST_53)?;
        return Some((StepPlace::Op(n), at));
    }
    if words::is(word, "host") {
        let (n, at) = number(text, at, MOST_53)?;
        return Some((StepPlace::Host(n), at));
    }
    None
}

#[tactic(auto, unfolding(crate::specs::Forms::place_of))]
fn place(text: &[u8], at: usize) -> Option<(StepPlace, usize)>
    requires { at ≤ length text.now }
    ensures { Reads text.now result (place_of (drop at text.now)) }
{
    let (word, at) = words::field(text, at)?;
    place_as(word, text, at)
}

#[tactic(auto, unfolding(crate::specs::Forms::bar_of))]
fn bar(text: &[u8], at: usize) -> Option<Line>
    requires { at ≤ length text.now }
    ensures read { result ≡ bar_of (drop at text.now) }
    ensures full { IfSome result LineIsFull }
{
    let (part, at) = part(text, at)?;
    let (from, at) = from(text, at)?;
    let (to, at) = set(text, at)?;
    whole(text, at, Line::Bar { part, from, to })
}

#[tactic(auto, unfolding(crate::specs::Forms::step_of))]
fn step(text: &[u8], at: usize) -> Option<Line>
    requires { at ≤ length text.now }
    ensures read { result ≡ step_of (drop at text.now) }
    ensures full { IfSome result LineIsFull }
{
    let (number, at) = number(text, at, MOST_53)?;
    let (place, at) = place(text, at)?;
    let (name, at) = name(text, at)?;
    whole(
        text,
        at,
        Line::Step {
            number,
            place,
            name,
        },
    )
}

#[tactic(auto, unfolding(crate::specs::Forms::use_of))]
fn use_of(text: &[u8], at: usize) -> Option<Line>
    requires { at ≤ length text.now }
    ensures read { result ≡ Rattle.wg_readtrace.specs.Forms.use_of (drop at text.now) }
    ensures full { IfSome result LineIsFull }
{
    let (part, at) = part(text, at)?;
    let (set, at) = set(text, at)?;
    whole(text, at, Line::Use { part, set })
}

#[tactic(auto, unfolding(crate::specs::Forms::acc_of))]
fn acc(text: &[u8], at: usize) -> Option<Line>
    requires { at ≤ length text.now }
    ensures read { result ≡ acc_of (drop at text.now) }
    ensures full { IfSome result LineIsFull }
{
    let (kind, at) = kind(text, at)?;
    let (cells, at) = cells(text, at)?;
    whole(text, at, Line::Acc { kind, cells })
}

#[tactic(auto, unfolding(crate::specs::Forms::free_of))]
fn free(text: &[u8], at: usize) -> Option<Line>
    requires { at ≤ length text.now }
    ensures read { result ≡ free_of (drop at text.now) }
    ensures full { IfSome result LineIsFull }
{
    let (sort, at) = sort(text, at)?;
    let (object, at) = number(text, at, MOST_53)?;
    whole(text, at, Line::Free { object, sort })
}

fn line_as(word: &[u8], text: &[u8], at: usize) -> Option<Line>
    requires { at ≤ length text.now }
    ensures read { result ≡ line_as word.now (drop at text.now) }
    ensures full { IfSome result LineIsFull }
{
    if words::is(word, "bar") {
        return bar(text, at);
    }
    if words::is(word, "step") {
        return step(text, at);
    }
    if words::is(word, "use") {
        return use_of(text, at);
    }
    if words::is(word, "acc") {
        return acc(text, at);
    }
    if words::is(word, "free") {
        return free(text, at);
    }
    if words::is(word, "end") {
        return whole(text, at, Line::End);
    }
    None
}

/// The line that a text without its line end is.
#[tactic(auto, unfolding(crate::specs::Forms::line_of))]
pub fn line(text: &[u8]) -> Option<Line>
    ensures read { result ≡ line_of text.now }
    ensures full { IfSome result LineIsFull }
{
    let (word, at) = words::first_word(text);
    line_as(word, text, at)
}
