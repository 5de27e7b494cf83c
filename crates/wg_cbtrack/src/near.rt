//! The rows of a tracker that a note touches: those of the objects that its step uses or accesses. They
//! are found by halving, and others are put in place of them, so that few rows of other objects are looked at.
ghost use Rattle.std.specs.Prelude.{◌≡◌, IfOk, OnOk};
ghost use Rattle.wg_rows.specs.Runs.{cell_line};
ghost use Rattle.wg_rows.specs.Rows.{line_object};
ghost use Rattle.wg_cbtrack.specs.Owners.{Rising};
ghost use Rattle.wg_cbtrack.specs.Near.{use_object, access_object, cells_object, AreOrdered, AreNear, FitsBeside, AreSameRows, AreAllExchanged};

use crate::kept::Rows;
use crate::owners::{Owned, exchange, rows_among};
use std::alloc::Global;
use wg_entry::NoMemory;
use wg_rows::part_runs::run_object;
use wg_trace::parts::{AccessKind, Cells, PartRun};
use wg_trace::usages::Usages;

/// The object of a run of cells.
pub fn cells_object(run: Cells) -> u64
    ensures { result ≡ line_object (cell_line run) }
{
    match run {
        Cells::Bytes { object, .. } => object,
        Cells::Layers { object, .. } => object,
        Cells::Slices { object, .. } => object,
        Cells::Queries { object, .. } => object,
    }
}

impl Owned for (PartRun, Usages) {
    ghost object = { use_object };

    #[tactic(auto, using(wg_bars::proofs::Parts::object_is))]
    fn object(&self) -> u64 {
        run_object(self.0)
    }
}

impl Owned for (Cells, AccessKind) {
    ghost object = { access_object };

    fn object(&self) -> u64 {
        cells_object(self.0)
    }
}

impl Owned for Cells {
    ghost object = { cells_object };

    fn object(&self) -> u64 {
        cells_object(*self)
    }
}

/// The rows of some objects. Of the cells that are needed none are copied.
pub fn near_rows(alloc: Global, rows: &Rows, objects: &[u64]) -> Result<Rows, NoMemory>
    requires ordered { AreOrdered rows.now }
    requires rising { Rising objects.now }
    ensures { IfOk result (λ near. AreNear objects.now rows.now near) }
{
    Ok(Rows {
        ends: rows_among(alloc, rows.ends.as_slice(), objects)?,
        wants: rows_among(alloc, rows.wants.as_slice(), objects)?,
        leaves: rows_among(alloc, rows.leaves.as_slice(), objects)?,
        starts: rows_among(alloc, rows.starts.as_slice(), objects)?,
        last: rows_among(alloc, rows.last.as_slice(), objects)?,
        needs: Vec::new(alloc),
    })
}

/// Takes room for other rows beside those that are there.
pub fn make_room(rows: &mut Rows, near: &Rows) -> Result<(), NoMemory>
    ensures same { AreSameRows rows.old rows.new }
    ensures room { OnOk result (FitsBeside rows.new near.now) }
{
    rows.ends.reserve(near.ends.len())?;
    rows.wants.reserve(near.wants.len())?;
    rows.leaves.reserve(near.leaves.len())?;
    rows.starts.reserve(near.starts.len())?;
    rows.last.reserve(near.last.len())?;
    rows.needs.reserve(near.needs.len())?;
    Ok(())
}

/// Puts others in place of the rows of some objects, in room that there is.
pub fn exchange_all(rows: &mut Rows, objects: &[u64], near: &Rows)
    requires ordered { AreOrdered rows.old }
    requires ordered_near { AreOrdered near.now }
    requires room { FitsBeside rows.old near.now }
    ensures { AreAllExchanged objects.now near.now rows.old rows.new }
{
    exchange(&mut rows.ends, objects, near.ends.as_slice());
    exchange(&mut rows.wants, objects, near.wants.as_slice());
    exchange(&mut rows.leaves, objects, near.leaves.as_slice());
    exchange(&mut rows.starts, objects, near.starts.as_slice());
    exchange(&mut rows.last, objects, near.last.as_slice());
    exchange(&mut rows.needs, objects, near.needs.as_slice());
}
