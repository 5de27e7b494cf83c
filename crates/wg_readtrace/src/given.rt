//! The cells that a step has so far, to be asked whether a run gives one of them again.
ghost use Rattle.std.specs.Prelude.{◌≡◌, [], ◌∷◌, ◌++◌, List, false, ◌&&◌, nat_lt, OnOk};
ghost use Rattle.wg_rows.specs.Runs.{Cells as Run, aspect_number};
ghost use Rattle.wg_readtrace.specs.Given.{IsFull, Knows, is_given, line_of, same_line};

use std::alloc::Global;
use std::collections::BTreeMap;
use wg_rows::cell_runs::{cell_hi, cell_lo};
use wg_trace::NoMemory;
use wg_trace::parts::{Aspect, Cells};

// The object, the sort, the aspect and the mip level of a line of cells.
type Line = (u64, u8, u8, u32);

/// Runs that lie apart. Each is kept by its line and where it begins, with where it ends.
#[derive(Drop)]
pub struct Given {
    ends: BTreeMap<(Line, u64), u64>,
}

fn aspect_number(aspect: Aspect) -> u8
    ensures { result ≡ aspect_number aspect }
{
    match aspect {
        Aspect::Color => 0,
        Aspect::Depth => 1,
        Aspect::Stencil => 2,
    }
}

fn line_of(run: Cells) -> Line
    ensures { result ≡ line_of run }
{
    match run {
        Cells::Bytes { object, .. } => (object, 0, 0, 0),
        Cells::Queries { object, .. } => (object, 1, 0, 0),
        Cells::Layers {
            object,
            aspect,
            mip,
            ..
        } => (object, 2, aspect_number(aspect), mip),
        Cells::Slices { object, mip, .. } => (object, 3, 0, mip),
    }
}

fn same_line(a: Line, b: Line) -> bool
    ensures { result ≡ same_line a b }
{
    a.0 == b.0 && a.1 == b.1 && a.2 == b.2 && a.3 == b.3
}

/// Whether a run at a place of its own line, with this end, reaches a place of a line.
fn reaches(place: (Line, u64), end: u64, line: Line, at: u64) -> bool
    ensures { result ≡ (same_line place.0 line && nat_lt at end) }
{
    same_line(place.0, line) && at < end
}

impl Given {
    /// No runs.
    pub fn new(alloc: Global) -> Given
        ensures { Knows result [] }
    {
        Given {
            ends: BTreeMap::new(alloc),
        }
    }

    /// Whether a run has a cell of these.
    pub fn has(&self, run: Cells) -> bool
        requires { IsFull run }
        ensures { (rows : List Run) → Knows self.now rows → result ≡ is_given rows run }
    {
        let line = line_of(run);
        let last = (line, cell_hi(run) - 1);
        match self.ends.range(..=last).next_back() {
            Some((place, end)) => reaches(*place, *end, line, cell_lo(run)),
            None => false,
        }
    }

    /// Adds a run that has no cell of these.
    pub fn add(&mut self, run: Cells) -> Result<(), NoMemory>
        requires { IsFull run }
        ensures { OnOk result ((rows : List Run) → Knows self.old rows → is_given rows run ≡ false
            → Knows self.new (rows ++ run ∷ [])) }
    {
        self.ends
            .insert((line_of(run), cell_lo(run)), cell_hi(run))?;
        Ok(())
    }

    pub fn clear(&mut self)
        ensures { Knows self.new [] }
    {
        self.ends.clear();
    }
}
