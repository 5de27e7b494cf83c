//! Set cells, noted step by step.
use std::alloc::Global;
use wg_init::{CellRow, CellState};
use wg_types::NoMemory;
use wg_types::items::Items;
use wg_types::parts::{AccessKind, Cells};
use wg_types::steps::{Step, StepName, StepPlace};

const BUFFER: u64 = 2;

/// A step that accesses bytes of the buffer.
fn step(alloc: Global, lo: u64, hi: u64, kind: AccessKind) -> Result<Step, NoMemory> {
    let mut accesses = Items::new(alloc);
    accesses.push((bytes(lo, hi), kind))?;
    Ok(Step {
        place: StepPlace::Op(1),
        name: StepName::Dispatch,
        uses: Items::new(alloc),
        accesses,
    })
}

fn bytes(lo: u64, hi: u64) -> Cells {
    Cells::Bytes {
        object: BUFFER,
        lo,
        hi,
    }
}

/// Notes an access.
fn note(
    state: &mut CellState,
    alloc: Global,
    (lo, hi): (u64, u64),
    kind: AccessKind,
) -> Result<(), NoMemory> {
    let step = step(alloc, lo, hi, kind)?;
    state.note(&step)
}

/// Whether a read of the first 8 bytes finds that these were not written.
fn lacks(state: &CellState, alloc: Global, cells: &[Cells]) -> Result<bool, NoMemory> {
    let step = step(alloc, 0, 8, AccessKind::Read)?;
    let unset = state.unset(&step)?;
    Ok(unset.as_slice() == cells)
}

/// Whether there are rows of the object of a row, and these runs of that were written.
fn has(state: &CellState, row: CellRow, runs: &[(u64, u64)]) -> bool {
    match state.set_runs(row) {
        Some(found) => found == runs,
        None => false,
    }
}

/// Whether there are no rows of the object of a row.
fn has_none(state: &CellState, row: CellRow) -> bool {
    state.set_runs(row).is_none()
}

/// Whether a copy of a state lacks these too.
fn copy_lacks(state: &CellState, alloc: Global, cells: &[Cells]) -> Result<bool, NoMemory> {
    let other = state.copy()?;
    lacks(&other, alloc, cells)
}

type Told = (
    [Result<(), NoMemory>; 3],
    [Result<bool, NoMemory>; 3],
    [bool; 3],
);

/// Whether three accesses are noted; what a read finds after the first of them, by a copy too, and after all; and
/// what was then written.
fn of_state(alloc: Global) -> Told {
    let mut state = CellState::new(alloc);
    let first = note(&mut state, alloc, (0, 4), AccessKind::Write);
    let before = lacks(&state, alloc, &[bytes(4, 8)]);
    let copied = copy_lacks(&state, alloc, &[bytes(4, 8)]);
    let second = note(&mut state, alloc, (8, 12), AccessKind::Write);
    let third = note(&mut state, alloc, (4, 8), AccessKind::Both);
    let after = lacks(&state, alloc, &[]);
    let rows = [
        has(&state, CellRow::Buffer(BUFFER), &[(0, 12)]),
        has_none(&state, CellRow::Buffer(BUFFER + 1)),
        has(&state, CellRow::Queries(BUFFER), &[]),
    ];
    ([first, second, third], [before, copied, after], rows)
}

#[test]
fn a_read_finds_what_was_not_written(rt: HostRuntime) {
    assert!(rt; of_state(rt.alloc()) == ([Ok(()); 3], [Ok(true); 3], [true; 3]));
}

/// Whether a buffer has no rows once they were let go, whether a read of it is then refused, and whether the
/// object after it has rows as soon as it is made.
fn of_let_go(alloc: Global) -> Result<[bool; 3], NoMemory> {
    let mut state = CellState::new(alloc);
    note(&mut state, alloc, (0, 4), AccessKind::Write)?;
    state.let_go(BUFFER);
    state.reserve()?;
    state.push();
    Ok([
        has_none(&state, CellRow::Buffer(BUFFER)),
        lacks(&state, alloc, &[]) == Err(NoMemory),
        has(&state, CellRow::Buffer(BUFFER + 1), &[]),
    ])
}

#[test]
fn rows_are_let_go(rt: HostRuntime) {
    assert!(rt; of_let_go(rt.alloc()) == Ok([true; 3]));
}
