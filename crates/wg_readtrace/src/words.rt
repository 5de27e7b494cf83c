//! Words of a line, and numbers, kinds and sets of usages among them.
ghost use Rattle.std.specs.Prelude.{◌≡◌, ◌≤◌, ◌<◌, ◌^◌, drop, take, ◌-◌, length, IfSome, IsNone, None, Some, bytes_eq, []};
ghost use Rattle.wg_readtrace.specs.Words.{gap_len, field, digits, number_word, aspect_word, kind_word, name_word, sort_word, usage_word, set_word};

use bitflags::Flags;
use wg_trace::parts::{AccessKind, Aspect};
use wg_trace::steps::{Sort, StepName};
use wg_trace::usages::Usages;

/// The place of the next space, or of the end.
fn word_end(text: &[u8], at: usize) -> usize
    requires { at ≤ length text.now }
    ensures lower { at ≤ result }
    ensures upper { result ≤ length text.now }
    ensures len { result - at ≡ gap_len (drop at text.now) }
{
    let mut end = at;
    while end < text.len() {
        if text[end] == 32 {
            return end;
        }
        end += 1;
    }
    end
}

/// The first word of a line, and where it ends.
pub fn first_word(text: &[u8]) -> (&[u8], usize)
    ensures within { result.1 ≤ length text.now }
    ensures word { result.0.now ≡ take (gap_len text.now) text.now }
    ensures place { result.1 ≡ gap_len text.now }
{
    let end = word_end(text, 0);
    (&text[..end], end)
}

/// The word behind one space, and where it ends.
pub fn field(text: &[u8], at: usize) -> Option<(&[u8], usize)>
    requires { at ≤ length text.now }
    ensures within { IfSome result (λ r. r.1 ≤ length text.now) }
    ensures none { IsNone result → field (drop at text.now) ≡ None }
    ensures some { IfSome result (λ r. field (drop at text.now) ≡ Some (r.0.now, drop r.1 text.now)) }
{
    if at >= text.len() {
        return None;
    }
    if text[at] != 32 {
        return None;
    }
    let end = word_end(text, at + 1);
    Some((&text[at + 1..end], end))
}

fn digits(word: &[u8], most: u64) -> Option<u64>
    requires { most < 2 ^ 60 }
    ensures value { result ≡ digits most 0 word.now }
    ensures small { IfSome result (λ n. n ≤ most) }
{
    let mut n = 0;
    for byte in word {
        let b = *byte;
        if b < 48 || b > 57 {
            return None;
        }
        let more = n * 10 + (b as u64 - 48);
        if more > most {
            return None;
        }
        n = more;
    }
    Some(n)
}

/// A number without leading zeros, at most `most`.
pub fn number_word(word: &[u8], most: u64) -> Option<u64>
    requires { most < 2 ^ 60 }
    ensures value { result ≡ number_word most word.now }
    ensures small { IfSome result (λ n. n ≤ most) }
{
    if word.is_empty() {
        return None;
    }
    if word[0] == 48 && word.len() > 1 {
        return None;
    }
    digits(word, most)
}

/// Whether a word has this text.
pub fn is(word: &[u8], text: &str) -> bool
    ensures { result ≡ bytes_eq word.now text.now }
{
    word == text.as_bytes()
}

pub fn aspect_word(word: &[u8]) -> Option<Aspect>
    ensures { result ≡ aspect_word word.now }
{
    if is(word, "color") {
        return Some(Aspect::Color);
    }
    if is(word, "depth") {
        return Some(Aspect::Depth);
    }
    if is(word, "stencil") {
        return Some(Aspect::Stencil);
    }
    None
}

pub fn kind_word(word: &[u8]) -> Option<AccessKind>
    ensures { result ≡ kind_word word.now }
{
    if is(word, "read") {
        return Some(AccessKind::Read);
    }
    if is(word, "write") {
        return Some(AccessKind::Write);
    }
    if is(word, "both") {
        return Some(AccessKind::Both);
    }
    if is(word, "drop") {
        return Some(AccessKind::Drop);
    }
    if is(word, "readdrop") {
        return Some(AccessKind::ReadDrop);
    }
    None
}

pub fn name_word(word: &[u8]) -> Option<StepName>
    ensures { result ≡ name_word word.now }
{
    if is(word, "clear") {
        return Some(StepName::Clear);
    }
    if is(word, "writeBuffer") {
        return Some(StepName::WriteBuffer);
    }
    if is(word, "writeTexture") {
        return Some(StepName::WriteTexture);
    }
    if is(word, "copyBufferToBuffer") {
        return Some(StepName::CopyBufferToBuffer);
    }
    if is(word, "copyBufferToTexture") {
        return Some(StepName::CopyBufferToTexture);
    }
    if is(word, "copyTextureToBuffer") {
        return Some(StepName::CopyTextureToBuffer);
    }
    if is(word, "copyTextureToTexture") {
        return Some(StepName::CopyTextureToTexture);
    }
    if is(word, "clearBuffer") {
        return Some(StepName::ClearBuffer);
    }
    if is(word, "resolveQuerySet") {
        return Some(StepName::ResolveQuerySet);
    }
    if is(word, "dispatch") {
        return Some(StepName::Dispatch);
    }
    if is(word, "renderPass") {
        return Some(StepName::RenderPass);
    }
    if is(word, "hostRead") {
        return Some(StepName::HostRead);
    }
    if is(word, "hostWrite") {
        return Some(StepName::HostWrite);
    }
    None
}

pub fn sort_word(word: &[u8]) -> Option<Sort>
    ensures { result ≡ sort_word word.now }
{
    if is(word, "b") {
        return Some(Sort::Buffer);
    }
    if is(word, "t") {
        return Some(Sort::Texture);
    }
    if is(word, "q") {
        return Some(Sort::Queries);
    }
    None
}

/// The bit of a usage.
fn usage_word(word: &[u8]) -> Option<u16>
    ensures value { result ≡ usage_word word.now }
    ensures small { IfSome result (λ bit. bit ≤ 4096) }
{
    if is(word, "input") {
        return Some(1);
    }
    if is(word, "constant") {
        return Some(2);
    }
    if is(word, "storage") {
        return Some(4);
    }
    if is(word, "storage-read") {
        return Some(8);
    }
    if is(word, "attachment") {
        return Some(16);
    }
    if is(word, "attachment-read") {
        return Some(32);
    }
    if is(word, "copy-src") {
        return Some(64);
    }
    if is(word, "copy-dst") {
        return Some(128);
    }
    if is(word, "query-write") {
        return Some(256);
    }
    if is(word, "query-read") {
        return Some(512);
    }
    if is(word, "host-read") {
        return Some(1024);
    }
    if is(word, "host-write") {
        return Some(2048);
    }
    if is(word, "clear") {
        return Some(4096);
    }
    None
}

/// The bits of a set with one more usage, which stands behind those of the set.
fn with_usage(set: u16, piece: &[u8]) -> Option<u16>
    ensures value { result ≡ Rattle.wg_readtrace.specs.Words.with_usage set piece.now }
    ensures small { IfSome result (λ s. s < 8192) }
{
    match usage_word(piece) {
        Some(bit) => { if set < bit { Some(set + bit) } else { None } }
        None => None,
    }
}

/// The bits of usages joined by `+`, in printed order.
#[tactic(auto, using(crate::proofs::Sets::within_piece, crate::proofs::Sets::at_plus))]
fn set_bits(word: &[u8]) -> Option<u16>
    ensures { result ≡ Rattle.wg_readtrace.specs.Words.set_from 0 [] word.now }
{
    let mut set = 0;
    let mut start = 0;
    for (i, byte) in word.iter().enumerate() {
        if *byte != 43 {
            continue;
        }
        set = with_usage(set, &word[start..i])?;
        start = i + 1;
    }
    with_usage(set, &word[start..word.len()])
}

/// Usages joined by `+`, in printed order.
pub fn set_word(word: &[u8]) -> Option<Usages>
    ensures { result ≡ set_word word.now }
{
    let bits = set_bits(word)?;
    Some(Usages::from_bits_retain(bits))
}
