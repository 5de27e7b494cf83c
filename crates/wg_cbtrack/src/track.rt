//! The tracker of a command buffer.
ghost use Rattle.std.specs.Prelude.{◌≡◌, ◌+◌, ◌≤◌, [], ◌∷◌, ◌++◌, vec_len, vec_capacity, IfOk, IfErr, OnOk, OnErr};
ghost use Rattle.wg_rows.specs.Rows.{Apart};
ghost use Rattle.wg_rows.specs.Runs.{Cell, cell_sort};
ghost use Rattle.wg_rows.specs.Uses.{row_reads};
ghost use Rattle.wg_orders.specs.Steps.{StepPlace};
ghost use Rattle.wg_orders.specs.Trace.{needs};
ghost use Rattle.wg_cbtrack.specs.Group.{placed_all};
ghost use Rattle.wg_cbtrack.specs.Items.{noted};
ghost use Rattle.wg_cbtrack.specs.Leaves.{as_reads};
ghost use Rattle.wg_cbtrack.specs.Track.{IsTrack, Holds};
ghost use Rattle.wg_cbtrack.specs.Seen.{AreStarts, AreEnds};

use crate::draft::Track;
use crate::kept::{Kept, Rows};
use crate::near::{exchange_all, make_room};
use crate::noting::{After, step_after};
use crate::placed::{find_placed, note_placed};
use std::alloc::Global;
use std::marker::Model;
use wg_entry::NoMemory;
use wg_trace::parts::{Cells, PartRun};
use wg_trace::steps::Deed;
use wg_trace::usages::Usages;

/// What is found of the steps of a command buffer, outside any trace. It is seen as the list of what was
/// noted.
#[derive(Drop)]
pub struct CbTrack {
    alloc: Global,
    kept: Vec<Kept>,
    rows: Rows,
}

impl Model for CbTrack {
    ghost use Rattle.std.specs.Prelude.{List};
    ghost use Rattle.wg_trace.specs.declared.steps.Deed.{Deed};
    ghost use Rattle.wg_cbtrack.specs.Track.{Holds};
    ghost use Rattle.wg_cbtrack.specs.Items.{noted};

    ghost Value = { List Deed };

    ghost view = { λ t. noted t.kept.items };

    ghost invariant = { λ t. Holds (noted t.kept.items) t.kept.items t.rows };
}

/// A tracker with room for one more step.
#[derive(Drop)]
pub struct Ready {
    alloc: Global,
    kept: Vec<Kept>,
    rows: Rows,
    more: Vec<Kept>,
    objects: Vec<u64>,
    near: Rows,
}

impl Model for Ready {
    ghost use Rattle.std.specs.Prelude.{◌≤◌, ◌+◌, ◌++◌, vec_len, vec_capacity};
    ghost use Rattle.wg_cbtrack.specs.Track.{Holds, ReadyValue};
    ghost use Rattle.wg_cbtrack.specs.Near.{AreOrdered, FitsBeside};
    ghost use Rattle.wg_cbtrack.specs.Next.{HoldsAfter};
    ghost use Rattle.wg_cbtrack.specs.Items.{noted};

    ghost Value = { ReadyValue };

    ghost view = { λ r. record { before = noted r.kept.items; after = noted (r.kept.items ++ r.more.items) } };

    ghost invariant = { λ r. Holds (noted r.kept.items) r.kept.items r.rows × HoldsAfter (noted (r.kept.items ++ r.more.items)) (r.kept.items ++ r.more.items) r.objects.items r.near r.rows × AreOrdered r.near × FitsBeside r.rows r.near × (vec_len r.kept + vec_len r.more ≤ vec_capacity r.kept) };
}

/// Adds what is kept at the end, in room that there is.
fn append_reserved(to: &mut Vec<Kept>, mut from: Vec<Kept>)
    requires { vec_len to.old + vec_len from ≤ vec_capacity to.old }
    ensures { to.new.items ≡ to.old.items ++ from.items }
{
    let _ = to.append(&mut from);
}

/// Notes a step, whatever it changes.
fn note_any(
    alloc: Global,
    kept: &mut Vec<Kept>,
    rows: &mut Rows,
    deed: &Deed,
) -> Result<(), NoMemory>
    requires holds { Holds (noted kept.old.items) kept.old.items rows.old }
    ensures holds { Holds (noted kept.new.items) kept.new.items rows.new }
    ensures noted { OnOk result (noted kept.new.items ≡ noted kept.old.items ++ deed.now ∷ []) }
    ensures unchanged { OnErr result (kept.new.items ≡ kept.old.items) }
{
    let after = step_after(alloc, rows, deed)?;
    let After {
        kept: mut more,
        objects,
        near,
    } = after;
    make_room(rows, &near)?;
    kept.append(&mut more)?;
    exchange_all(rows, objects.as_slice(), &near);
    Ok(())
}

impl CbTrack {
    /// Nothing is noted. It takes no memory.
    pub fn new(alloc: Global) -> CbTrack
        ensures { result ≡ [] }
    {
        CbTrack {
            alloc,
            kept: Vec::new(alloc),
            rows: Rows {
                ends: Vec::new(alloc),
                wants: Vec::new(alloc),
                leaves: Vec::new(alloc),
                starts: Vec::new(alloc),
                last: Vec::new(alloc),
                needs: Vec::new(alloc),
            },
        }
    }

    /// What it keeps.
    pub(crate) fn lent(&self) -> Track<'_>
        ensures { IsTrack self.now result.kept.now result.ends.now result.wants.now result.leaves.now }
    {
        Track {
            kept: self.kept.as_slice(),
            ends: self.rows.ends.as_slice(),
            wants: self.rows.wants.as_slice(),
            leaves: self.rows.leaves.as_slice(),
        }
    }

    /// Each part that the steps use, with its set in the first of them.
    pub fn starts(&self) -> &[(PartRun, Usages)]
        ensures { AreStarts self.now result.now }
    {
        self.rows.starts.as_slice()
    }

    /// Each part that the steps use, with its set in the last of them.
    pub fn ends(&self) -> &[(PartRun, Usages)]
        ensures { AreEnds self.now result.now }
    {
        self.rows.last.as_slice()
    }

    /// The cells that a step reads and no earlier one writes.
    pub fn needs(&self) -> &[Cells]
        ensures printed { Apart cell_sort (as_reads result.now) }
        ensures cells { (place : StepPlace) (c : Cell) →
            row_reads c (as_reads result.now) ≡ needs (placed_all place self.now) c }
    {
        self.rows.needs.as_slice()
    }

    /// Notes a step.
    pub fn note(&mut self, deed: Deed) -> Result<(), NoMemory>
        ensures noted { OnOk result (self.new ≡ self.old ++ deed ∷ []) }
        ensures unchanged { OnErr result (self.new ≡ self.old) }
    {
        if let Some(found) = find_placed(self.alloc, &self.rows, &deed)? {
            return note_placed(&mut self.kept, &mut self.rows, deed, found);
        }
        note_any(self.alloc, &mut self.kept, &mut self.rows, &deed)
    }

    /// Takes the room that it takes to note a step, without noting it. Without memory the tracker comes
    /// back as it was.
    pub fn room(self, deed: &Deed) -> Result<Ready, CbTrack>
        ensures before { IfOk result (λ ready. ready.before ≡ self) }
        ensures after { IfOk result (λ ready. ready.after ≡ self ++ deed.now ∷ []) }
        ensures back { IfErr result (λ track. track ≡ self) }
    {
        let CbTrack {
            alloc,
            mut kept,
            mut rows,
        } = self;
        let Ok(after) = step_after(alloc, &rows, deed) else {
            return Err(CbTrack { alloc, kept, rows });
        };
        let After {
            kept: more,
            objects,
            near,
        } = after;
        if kept.reserve(more.len()).is_err() {
            return Err(CbTrack { alloc, kept, rows });
        }
        let Ok(()) = make_room(&mut rows, &near) else {
            return Err(CbTrack { alloc, kept, rows });
        };
        Ok(Ready {
            alloc,
            kept,
            rows,
            more,
            objects,
            near,
        })
    }
}

impl Ready {
    /// The tracker with the step noted. It takes no memory, and the room is used.
    pub fn note(self) -> CbTrack
        ensures { result ≡ self.after }
    {
        let Ready {
            alloc,
            mut kept,
            mut rows,
            more,
            objects,
            near,
        } = self;
        append_reserved(&mut kept, more);
        exchange_all(&mut rows, objects.as_slice(), &near);
        CbTrack { alloc, kept, rows }
    }

    /// The tracker without the step.
    pub fn leave(self) -> CbTrack
        ensures { result ≡ self.before }
    {
        let Ready {
            alloc,
            kept,
            rows,
            ..
        } = self;
        CbTrack { alloc, kept, rows }
    }
}
