//! What command buffers are to add to a trace.
ghost use Rattle.std.specs.Prelude.{◌≡◌, List, [], ◌∷◌, IfOk};
ghost use Rattle.wg_orders.specs.Trace.{Item, add_group};
ghost use Rattle.wg_cbtrack.specs.Stands.{tracker_of, IsSound};
ghost use Rattle.wg_cbtrack.specs.Adds.{now_of, IsHere, HasAdded};
ghost use Rattle.wg_cbtrack.specs.Group.{placed_all};

use crate::draft::{PlanDraft, add_alone, add_track, begin};
use crate::track::CbTrack;
use std::alloc::Global;
use std::marker::Model;
use wg_bars::LastUse;
use wg_entry::NoMemory;
use wg_fading::Fading;
use wg_init::{CellRow, CellState};
use wg_num::RunSet;
use wg_trace::items::Items;
use wg_trace::parts::PartRun;
use wg_trace::steps::{Item, Step, StepPlace};
use wg_trace::usages::Usages;

/// Adds what one command buffer of a tracker's steps adds, at a place.
fn add_to(
    last_rows: &Fading<Items<(PartRun, Usages)>>,
    set_rows: &Fading<Items<(CellRow, RunSet)>>,
    draft: PlanDraft,
    place: StepPlace,
    track: &CbTrack,
) -> Result<PlanDraft, NoMemory>
    ensures { IfOk result (λ d. (f : List Item → List Item) →
        HasAdded (tracker_of last_rows.now set_rows.now) draft f →
        HasAdded (tracker_of last_rows.now set_rows.now) d (λ trace. add_group (f trace) (placed_all place track.now))) }
{
    let lent = track.lent();
    if lent.kept.is_empty() {
        return Ok(draft);
    }
    let added = add_track(last_rows, set_rows, draft, place, lent)?;
    Ok(added)
}

/// The items that command buffers add at one place to a trace for which two states stand: their steps,
/// with barriers and clears, and notes of what they make of the rows of both states.
#[derive(Drop)]
pub struct Plan {
    place: StepPlace,
    draft: PlanDraft,
}

impl Model for Plan {
    ghost use Rattle.wg_cbtrack.specs.Plans.{PlanValue};

    ghost Value = { PlanValue };

    ghost view = { λ p. record { place = p.place; draft = p.draft } };
}

impl Plan {
    /// Has no items. It takes no memory.
    pub fn new(alloc: Global, place: StepPlace, last: &LastUse, cells: &CellState) -> Plan
        ensures place { result.place ≡ place }
        ensures items { result.draft.items.items ≡ [] }
        ensures added { HasAdded (tracker_of last.now cells.now) result.draft (λ trace. trace) }
    {
        Plan {
            place,
            draft: begin(alloc, last, cells),
        }
    }

    /// Adds what one command buffer of a tracker's steps adds after the trace and the items so
    /// far. It leaves the states as they are; without memory, or rows of an object that a step uses or
    /// accesses, there is no plan.
    pub fn add(self, track: &CbTrack, last: &LastUse, cells: &CellState) -> Result<Plan, NoMemory>
        ensures place { IfOk result (λ p. p.place ≡ self.place) }
        ensures added { IfOk result (λ p. (f : List Item → List Item) →
            HasAdded (tracker_of last.now cells.now) self.draft f →
            HasAdded (tracker_of last.now cells.now) p.draft (λ trace. add_group (f trace) (placed_all self.place track.now))) }
    {
        let Plan { place, draft } = self;
        let draft = add_to(last.rows(), cells.rows(), draft, place, track)?;
        Ok(Plan { place, draft })
    }

    /// Adds what one step does, as a command buffer of its own, after the trace and the items so
    /// far. It leaves the states as they are; without memory, or rows of an object that the step uses or
    /// accesses, there is no plan.
    pub fn add_alone(self, step: Step, last: &LastUse, cells: &CellState) -> Result<Plan, NoMemory>
        ensures place { IfOk result (λ p. p.place ≡ self.place) }
        ensures added { IfOk result (λ p. (f : List Item → List Item) →
            HasAdded (tracker_of last.now cells.now) self.draft f →
            HasAdded (tracker_of last.now cells.now) p.draft (λ trace. add_group (f trace) (step ∷ []))) }
    {
        let Plan { place, draft } = self;
        let draft = add_alone(last.rows(), cells.rows(), draft, step)?;
        Ok(Plan { place, draft })
    }

    /// The items, in order.
    pub fn items(&self) -> &[Item]
        ensures { result.now ≡ self.now.draft.items.items }
    {
        self.draft.items.as_slice()
    }

    /// Brings the states to the trace with the items, and hands these out. It takes no memory.
    pub fn apply(self, last: &mut LastUse, cells: &mut CellState) -> Vec<Item>
        requires here { IsHere (tracker_of last.old cells.old) self.draft }
        requires sound { IsSound (now_of (tracker_of last.old cells.old) self.draft) }
        ensures items { result.items ≡ self.draft.items.items }
        ensures now { tracker_of last.new cells.new ≡ now_of (tracker_of last.old cells.old) self.draft }
    {
        let Plan { draft, .. } = self;
        let PlanDraft {
            items,
            last: last_notes,
            cells: cell_notes,
        } = draft;
        last.place(last_notes);
        cells.place(cell_notes);
        items
    }
}
