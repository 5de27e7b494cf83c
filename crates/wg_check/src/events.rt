//! What a trace does to runs of cells, in its order.
ghost use Rattle.std.specs.Prelude.{◌≡◌, suc, ◌++◌, IfOk, OnOk};
ghost use Rattle.wg_rows.specs.Runs.{aspect_number};
ghost use Rattle.wg_rows.specs.Uses.{kind_reads, kind_writes};
ghost use Rattle.wg_check.specs.Keys.{key, event, bar_events, run_event, row_events, key_events};
ghost use Rattle.wg_check.specs.declared.events.CellDeed.TheVariants.{Fence};

use crate::NoMemory;
use crate::keys::Key;
use std::alloc::Global;
use wg_trace::parts::{AccessKind, Aspect, Cells, PartRun};
use wg_trace::steps::Item;

/// What an item does to the cells of its run: a barrier parts what stands before it from what comes
/// behind it, and a step accesses them.
#[derive(Clone, Copy)]
pub enum CellDeed {
    Fence,
    Act {
        place: u64,
        reads: bool,
        writes: bool,
    },
}

/// A deed on the cells from `lo` up to but not including `hi`.
#[derive(Clone, Copy)]
pub struct KeyEvent {
    pub lo: Key,
    pub hi: Key,
    pub deed: CellDeed,
}

/// The number of an aspect in printed order.
pub fn aspect_number(aspect: Aspect) -> u64
    ensures { result ≡ aspect_number aspect }
{
    match aspect {
        Aspect::Color => 0,
        Aspect::Depth => 1,
        Aspect::Stencil => 2,
    }
}

fn reads(kind: AccessKind) -> bool
    ensures { result ≡ kind_reads kind }
{
    matches!(
        kind,
        AccessKind::Read | AccessKind::Both | AccessKind::ReadDrop
    )
}

fn writes(kind: AccessKind) -> bool
    ensures { result ≡ kind_writes kind }
{
    !matches!(kind, AccessKind::Read)
}

/// A deed on the places of a line from `lo` up to but not including `hi`.
fn event(object: u64, line: (u64, u64, u64), lo: u64, hi: u64, deed: CellDeed) -> KeyEvent
    ensures lo { result.lo ≡ key object line.0 line.1 line.2 lo }
    ensures hi { result.hi ≡ key object line.0 line.1 line.2 hi }
    ensures deed { result.deed ≡ deed }
{
    let (sort, aspect, mip) = line;
    KeyEvent {
        lo: Key::new(object, sort, aspect, mip, lo),
        hi: Key::new(object, sort, aspect, mip, hi),
        deed,
    }
}

/// A barrier on all places of a mip level of a line: up to the first of the next.
fn fence_all(object: u64, sort: u64, mip: u32) -> KeyEvent
    ensures { result ≡ event (key object sort 0 mip 0) (key object sort 0 (suc mip) 0) Fence }
{
    let mip = u64::from(mip);
    KeyEvent {
        lo: Key::new(object, sort, 0, mip, 0),
        hi: Key::new(object, sort, 0, mip + 1, 0),
        deed: CellDeed::Fence,
    }
}

/// Adds a barrier: on all bytes of a buffer, on all queries of a query set, or on layers, and where
/// layer 0 of aspect color is among them also on the slices of their mip level.
fn push_bar(events: &mut Vec<KeyEvent>, part: PartRun) -> Result<(), NoMemory>
    ensures { OnOk result (events.new.items ≡ events.old.items ++ bar_events part) }
{
    match part {
        PartRun::Buffer { object } => events.push(fence_all(object, 0, 0))?,
        PartRun::Queries { object } => events.push(fence_all(object, 1, 0))?,
        PartRun::Texture {
            object,
            aspect,
            mip,
            lo,
            hi,
        } => {
            let line = (2, aspect_number(aspect), u64::from(mip));
            events.push(event(object, line, u64::from(lo), u64::from(hi), CellDeed::Fence))?;
            if aspect == Aspect::Color && lo == 0 && 0 < hi {
                events.push(fence_all(object, 3, mip))?;
            }
        }
    }
    Ok(())
}

/// A deed on a run of cells.
fn run_event(run: Cells, deed: CellDeed) -> KeyEvent
    ensures { result ≡ run_event run deed }
{
    match run {
        Cells::Bytes { object, lo, hi } => event(object, (0, 0, 0), lo, hi, deed),
        Cells::Queries { object, lo, hi } => {
            event(object, (1, 0, 0), u64::from(lo), u64::from(hi), deed)
        }
        Cells::Layers {
            object,
            aspect,
            mip,
            lo,
            hi,
        } => {
            let line = (2, aspect_number(aspect), u64::from(mip));
            event(object, line, u64::from(lo), u64::from(hi), deed)
        }
        Cells::Slices {
            object,
            mip,
            lo,
            hi,
        } => {
            let line = (3, 0, u64::from(mip));
            event(object, line, u64::from(lo), u64::from(hi), deed)
        }
    }
}

/// Adds the accesses of the step with this number.
fn push_rows(
    events: &mut Vec<KeyEvent>,
    place: u64,
    rows: &[(Cells, AccessKind)],
) -> Result<(), NoMemory>
    ensures { OnOk result (events.new.items ≡ events.old.items ++ row_events place rows.now) }
{
    for row in rows {
        let deed = CellDeed::Act {
            place,
            reads: reads(row.1),
            writes: writes(row.1),
        };
        events.push(run_event(row.0, deed))?;
    }
    Ok(())
}

/// What a trace does to runs of cells, in its order.
pub fn key_events(alloc: Global, items: &[Item]) -> Result<Vec<KeyEvent>, NoMemory>
    ensures { IfOk result (λ events. events.items ≡ key_events 0 items.now) }
{
    let mut events = Vec::new(alloc);
    let mut place = 0;
    for item in items {
        match item {
            Item::Bar { part, .. } => push_bar(&mut events, *part)?,
            Item::Step(step) => {
                push_rows(&mut events, place, step.accesses.as_slice())?;
                place += 1;
            }
            Item::Free { .. } => {}
        }
    }
    Ok(events)
}
