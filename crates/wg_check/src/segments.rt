//! The least clash of many segments at once.
ghost use Rattle.std.specs.Prelude.{◌≡◌, ℕ, ◌-◌, ◌≤◌, IfOk, map};
ghost use Rattle.wg_check.specs.Segments.{story_at, earlier, clash_among, Rises};
ghost use Rattle.wg_check.specs.Digests.{digest_onto, told, narrowed, found_at, first_found, found_among, with_writer, nothing, Run};

use crate::NoMemory;
use crate::digests::Digest;
use crate::ends::SegmentEvent;
use crate::events::CellDeed;
use crate::stories::{Access, writer_met};
use std::alloc::Global;

/// A meeting at a segment.
#[derive(Clone, Copy)]
pub struct Spotted {
    pub reader: Option<u64>,
    pub segment: usize,
    pub writer: u64,
}

/// A reader that clashes, the end as `None`, and the segment where.
#[derive(Clone, Copy)]
pub struct FoundClash {
    pub reader: Option<u64>,
    pub segment: usize,
}

/// Of the deeds on some segments: one that is on a run of them, or what some tell that are on all.
#[derive(Clone, Copy)]
pub enum SegmentEntry {
    Run(SegmentEvent),
    Known(Digest),
}

/// The accesses to a segment, in the order of the events.
fn story_at(alloc: Global, events: &[SegmentEvent], segment: usize) -> Result<Vec<Access>, NoMemory>
    ensures { IfOk result (λ story. story.items ≡ story_at segment 0 events.now) }
{
    let mut story = Vec::new(alloc);
    let mut epoch = 0;
    for event in events {
        if event.lo <= segment && segment < event.hi {
            match event.deed {
                CellDeed::Fence => epoch += 1,
                CellDeed::Act {
                    place,
                    reads,
                    writes,
                } => story.push(Access {
                    place,
                    reads,
                    writes,
                    epoch,
                })?,
            }
        }
    }
    Ok(story)
}

/// The entries for the segments from `lo` up to but not including `hi`: what is on all of them is
/// told together.
fn narrowed(
    alloc: Global,
    entries: &[SegmentEntry],
    lo: usize,
    hi: usize,
) -> Result<Vec<SegmentEntry>, NoMemory>
    ensures { IfOk result (λ some. some.items ≡ narrowed lo hi nothing entries.now) }
{
    let mut some = Vec::new(alloc);
    let mut digest = Digest::nothing();
    for entry in entries {
        match *entry {
            SegmentEntry::Known(other) => digest = digest.with(other),
            SegmentEntry::Run(event) => {
                if event.lo < hi && lo < event.hi {
                    if event.lo <= lo && hi <= event.hi {
                        digest = digest.with(Digest::one(event.deed));
                    } else {
                        some.push(SegmentEntry::Known(digest))?;
                        some.push(SegmentEntry::Run(event))?;
                        digest = Digest::nothing();
                    }
                }
            }
        }
    }
    some.push(SegmentEntry::Known(digest))?;
    Ok(some)
}

/// What entries tell of a segment.
fn digest_at(entries: &[SegmentEntry], segment: usize) -> Digest
    ensures { result ≡ digest_onto segment nothing entries.now }
{
    let mut digest = Digest::nothing();
    for entry in entries {
        match *entry {
            SegmentEntry::Known(other) => digest = digest.with(other),
            SegmentEntry::Run(event) => {
                if event.lo <= segment && segment < event.hi {
                    digest = digest.with(Digest::one(event.deed));
                }
            }
        }
    }
    digest
}

fn found_at(entries: &[SegmentEntry], segment: usize) -> Option<FoundClash>
    ensures { result ≡ found_at entries.now segment }
{
    match digest_at(entries, segment).least_reader() {
        Some(reader) => Some(FoundClash { reader, segment }),
        None => None,
    }
}

fn earlier(a: Option<u64>, b: Option<u64>) -> bool
    ensures { result ≡ earlier a b }
{
    match (a, b) {
        (Some(k), Some(l)) => k < l,
        (Some(_), None) => true,
        (None, _) => false,
    }
}

/// The first, unless the second has an earlier reader.
fn first_found(a: Option<FoundClash>, b: Option<FoundClash>) -> Option<FoundClash>
    ensures { result ≡ first_found a b }
{
    match (a, b) {
        (None, b) => b,
        (Some(a), None) => Some(a),
        (Some(a), Some(b)) => {
            if earlier(b.reader, a.reader) {
                Some(b)
            } else {
                Some(a)
            }
        }
    }
}

/// The least reader of the segments from `lo` up to but not including `hi`, with its first segment:
/// that of the two halves, each over its own entries.
#[tactic(auto, using(crate::proofs::Halves::halves, crate::proofs::Halves::no_segments, crate::proofs::Halves::one_segment))]
fn found_among(
    alloc: Global,
    entries: &[SegmentEntry],
    lo: usize,
    hi: usize,
) -> Result<Option<FoundClash>, NoMemory>
    requires { lo ≤ hi }
    ensures { IfOk result (λ found. found ≡ found_among entries.now lo (hi - lo)) }
{
    if lo == hi {
        return Ok(None);
    }
    if hi - lo == 1 {
        return Ok(found_at(entries, lo));
    }
    let middle = lo + (hi - lo) / 2;
    let left = narrowed(alloc, entries, lo, middle)?;
    let first = found_among(alloc, left.as_slice(), lo, middle)?;
    drop(left);
    let right = narrowed(alloc, entries, middle, hi)?;
    let second = found_among(alloc, right.as_slice(), middle, hi)?;
    Ok(first_found(first, second))
}

/// The events as entries.
fn entries_of(alloc: Global, events: &[SegmentEvent]) -> Result<Vec<SegmentEntry>, NoMemory>
    ensures { IfOk result (λ entries. entries.items ≡ map Run events.now) }
{
    let mut entries = Vec::with_capacity(alloc, events.len())?;
    for event in events {
        entries.push(SegmentEntry::Run(*event))?;
    }
    Ok(entries)
}

/// A reader with the writer that it meets.
fn with_writer(found: FoundClash, writer: Option<u64>) -> Option<Spotted>
    ensures { result ≡ with_writer found writer }
{
    let writer = writer?;
    Some(Spotted {
        reader: found.reader,
        segment: found.segment,
        writer,
    })
}

/// What is found, with the writer that it meets.
fn told(
    alloc: Global,
    events: &[SegmentEvent],
    found: Option<FoundClash>,
) -> Result<Option<Spotted>, NoMemory>
    ensures { IfOk result (λ clash. clash ≡ told events.now found) }
{
    match found {
        Some(found) => {
            let story = story_at(alloc, events, found.segment)?;
            Ok(with_writer(found, writer_met(story.as_slice(), found.reader)))
        }
        None => Ok(None),
    }
}

/// The least clash of so many segments: its reader and segment by what the deeds on each tell, and
/// then the writer by the accesses to that segment.
pub fn clash_among(
    alloc: Global,
    events: &[SegmentEvent],
    count: usize,
) -> Result<Option<Spotted>, NoMemory>
    requires { (n : ℕ) → Rises 0 (story_at n 0 events.now) }
    ensures { IfOk result (λ clash. clash ≡ clash_among events.now 0 count) }
{
    let entries = entries_of(alloc, events)?;
    let found = found_among(alloc, entries.as_slice(), 0, count)?;
    drop(entries);
    let clash = told(alloc, events, found)?;
    Ok(clash)
}
