//! The verdict on a trace.
ghost use Rattle.std.specs.Prelude.{◌≡◌, IfOk};
ghost use Rattle.wg_rows.specs.Once.{AreOnce};
ghost use Rattle.wg_check.specs.Cells.{cell_in, row_cell, cell_from, clash_of};
ghost use Rattle.wg_check.specs.Ends.{Ascending};
ghost use Rattle.wg_check.specs.Keys.{key_events};
ghost use Rattle.wg_check.specs.Segments.{EndsIn};
ghost use Rattle.wg_check.specs.Verdict.{IsVerdict, TellsOrders};

use crate::NoMemory;
use crate::ends::{ends, ranked};
use crate::events::{KeyEvent, aspect_number, key_events};
use crate::keys::Key;
use crate::segments::{Spotted, clash_among};
use std::alloc::Global;
use wg_trace::parts::{AccessKind, Cells};
use wg_trace::steps::Item;

/// A reader of a cell, the end of the trace as `None`, that sees another write than the printed one in
/// some order that keeps the barriers; and a writer that may come between it and that write, or is
/// that write and may come behind it. Steps go by their numbers; the cell is a run of length one.
#[derive(Clone, Copy, PartialEq, Eq)]
pub struct Clash {
    pub reader: Option<u64>,
    pub writer: u64,
    pub cell: Cells,
}

/// The cell of a run that stands at a key.
fn cell_in(run: Cells, key: &Key) -> Option<Cells>
    ensures { result ≡ cell_in run key.now }
{
    match run {
        Cells::Bytes { object, lo, hi } => {
            let at = key.place_in(object, (0, 0, 0), lo, hi)?;
            Some(Cells::Bytes {
                object,
                lo: at,
                hi: at + 1,
            })
        }
        Cells::Queries { object, lo, hi } => {
            let at = key.place_in(object, (1, 0, 0), u64::from(lo), u64::from(hi))? as u32;
            Some(Cells::Queries {
                object,
                lo: at,
                hi: at + 1,
            })
        }
        Cells::Layers {
            object,
            aspect,
            mip,
            lo,
            hi,
        } => {
            let line = (2, aspect_number(aspect), u64::from(mip));
            let at = key.place_in(object, line, u64::from(lo), u64::from(hi))? as u32;
            Some(Cells::Layers {
                object,
                aspect,
                mip,
                lo: at,
                hi: at + 1,
            })
        }
        Cells::Slices {
            object,
            mip,
            lo,
            hi,
        } => {
            let line = (3, 0, u64::from(mip));
            let at = key.place_in(object, line, u64::from(lo), u64::from(hi))? as u32;
            Some(Cells::Slices {
                object,
                mip,
                lo: at,
                hi: at + 1,
            })
        }
    }
}

/// The cell of some rows that stands at a key.
fn row_cell(key: &Key, rows: &[(Cells, AccessKind)]) -> Option<Cells>
    ensures { result ≡ row_cell key.now rows.now }
{
    for row in rows {
        if let Some(cell) = cell_in(row.0, key) {
            return Some(cell);
        }
    }
    None
}

/// The cell at a key among those that a step accesses.
fn cell_of(items: &[Item], step: u64, key: &Key) -> Option<Cells>
    ensures { result ≡ cell_from 0 step key.now items.now }
{
    let mut place = 0;
    for item in items {
        if let Item::Step(found) = item {
            if place == step {
                return row_cell(key, found.accesses.as_slice());
            }
            place += 1;
        }
    }
    None
}

/// What was spotted, with the first cell of its segment, which stands at the end that begins it.
fn clash_of(items: &[Item], ends: &[Key], spotted: Option<Spotted>) -> Option<Clash>
    ensures { result ≡ clash_of items.now ends.now spotted }
{
    let Spotted {
        reader,
        segment,
        writer,
    } = spotted?;
    let key = ends.get(segment.checked_sub(1)?)?;
    let cell = cell_of(items, writer, key)?;
    Some(Clash {
        reader,
        writer,
        cell,
    })
}

/// The least clash of a trace, by what it does and the ends of its runs.
fn least_clash(
    alloc: Global,
    items: &[Item],
    events: &[KeyEvent],
    ends: &[Key],
) -> Result<Option<Clash>, NoMemory>
    requires once { AreOnce items.now }
    requires events { events.now ≡ key_events 0 items.now }
    requires ascending { Ascending ends.now }
    requires within { EndsIn ends.now events.now }
    ensures { IfOk result (λ found. IsVerdict items.now found) }
{
    let segments = ranked(alloc, events, ends)?;
    let spotted = clash_among(alloc, segments.as_slice(), ends.len() + 1)?;
    drop(segments);
    Ok(clash_of(items, ends, spotted))
}

/// Whether the barriers of a trace are enough: None exactly where in every order of the accesses to
/// a cell that keeps them each reader, and who looks after the last step, sees the write that it sees
/// as printed. Else the least clash: by reader, the end last, then by cell as printed, then by
/// writer.
#[tactic(auto, using(crate::proofs::Judging::orders_told))]
pub fn verdict(alloc: Global, items: &[Item]) -> Result<Option<Clash>, NoMemory>
    requires { AreOnce items.now }
    ensures least { IfOk result (λ found. IsVerdict items.now found) }
    ensures orders { IfOk result (λ found. TellsOrders items.now found) }
{
    let events = key_events(alloc, items)?;
    let ends = ends(alloc, events.as_slice())?;
    let found = least_clash(alloc, items, events.as_slice(), ends.as_slice())?;
    Ok(found)
}
