//! What a command buffer is known to use and to need from before it.
use std::alloc::Global;
use wg_cbtrack::CbTrack;
use wg_types::NoMemory;
use wg_types::items::Items;
use wg_types::parts::{AccessKind, Cells, PartRun};
use wg_types::steps::{Deed, StepName};
use wg_types::usages::Usages;

fn buffer(object: u64) -> PartRun {
    PartRun::Buffer { object }
}

fn bytes(object: u64, lo: u64, hi: u64) -> Cells {
    Cells::Bytes { object, lo, hi }
}

/// A list of these.
fn items<T: Copy + Drop>(alloc: Global, rows: &[T]) -> Result<Items<T>, NoMemory> {
    Ok(Items::from_vec(Vec::from_slice(alloc, rows)?))
}

/// Notes a step that does this.
fn note(
    track: &mut CbTrack,
    alloc: Global,
    name: StepName,
    uses: &[(PartRun, Usages)],
    accesses: &[(Cells, AccessKind)],
) -> Result<(), NoMemory> {
    let uses = items(alloc, uses)?;
    let accesses = items(alloc, accesses)?;
    let deed = Deed {
        name,
        uses,
        accesses,
    };
    track.note(deed)
}

/// Notes a dispatch that stores in buffer 0, and then a copy of what it stored to buffer 1.
fn note_both(track: &mut CbTrack, alloc: Global) -> [Result<(), NoMemory>; 2] {
    let stored = [(buffer(0), Usages::STORAGE)];
    let both = [(bytes(0, 0, 16), AccessKind::Both)];
    let copied = [(buffer(0), Usages::COPY_SRC), (buffer(1), Usages::COPY_DST)];
    let cells = [
        (bytes(0, 0, 16), AccessKind::Read),
        (bytes(1, 0, 16), AccessKind::Write),
    ];
    let copy = StepName::CopyBufferToBuffer;
    [
        note(track, alloc, StepName::Dispatch, &stored, &both),
        note(track, alloc, copy, &copied, &cells),
    ]
}

/// Whether its first and last uses are told, and what it needs from before it.
fn is_told(track: &CbTrack) -> [bool; 3] {
    let starts = [(buffer(0), Usages::STORAGE), (buffer(1), Usages::COPY_DST)];
    let ends = [(buffer(0), Usages::COPY_SRC), (buffer(1), Usages::COPY_DST)];
    let needs = [bytes(0, 0, 16)];
    [
        track.starts() == starts.as_slice(),
        track.ends() == ends.as_slice(),
        track.needs() == needs.as_slice(),
    ]
}

/// Whether both were noted, and what is told of them, of what is dropped here.
fn of_track(alloc: Global) -> ([Result<(), NoMemory>; 2], [bool; 3]) {
    let mut track = CbTrack::new(alloc);
    let noted = note_both(&mut track, alloc);
    (noted, is_told(&track))
}

#[test]
fn a_command_buffer_needs_what_it_reads_first(rt: HostRuntime) {
    assert!(rt; of_track(rt.alloc()) == ([Ok(()); 2], [true; 3]));
}
