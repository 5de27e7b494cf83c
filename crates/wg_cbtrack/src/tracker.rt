//! The last uses of parts and the set cells of a trace, and what is planned to be added to it.
ghost use Rattle.std.specs.Prelude.{◌≡◌, ◌<◌, ◌≤◌, ◌-◌, false, List, [], ◌∷◌, ◌++◌, IfOk, OnOk};
ghost use Rattle.wg_orders.specs.Steps.{Step};
ghost use Rattle.wg_orders.specs.Trace.{Item, steps_of};
ghost use Rattle.wg_fading.specs.Fading.{was_let_go};
ghost use Rattle.wg_rows.specs.Runs.{Byte};
ghost use Rattle.wg_orders.specs.Trace.{is_unset};
ghost use Rattle.wg_bars.specs.Kept.{gone_with};
ghost use Rattle.wg_cbtrack.specs.Adds.{now_of};
ghost use Rattle.wg_cbtrack.specs.Gaps.{FindsFirst};
ghost use Rattle.wg_cbtrack.specs.Group.{placed_all};
ghost use Rattle.wg_cbtrack.specs.Plans.{PlanValue};
ghost use Rattle.wg_cbtrack.specs.Ready.{IsPlanned, IsReady};
ghost use Rattle.wg_cbtrack.specs.Stands.{kept_last, kept_cells, Stands};

use crate::gaps::first_gap;
use crate::plan::Plan;
use crate::track::CbTrack;
use std::alloc::Global;
use std::marker::Model;
use wg_bars::LastUse;
use wg_entry::NoMemory;
use wg_init::{CellRow, CellState};
use wg_trace::steps::{Item, Step, StepPlace};

/// The last set with which each part was used, and the cells that are set. It stands for a trace
/// where it keeps exactly those of the trace. Each object has its rows, by number, until they are let go.
#[derive(Drop)]
pub struct Tracker {
    last: LastUse,
    cells: CellState,
}

impl Model for Tracker {
    ghost use Rattle.wg_cbtrack.specs.Stands.{TrackerValue, tracker_of};

    ghost Value = { TrackerValue };

    ghost view = { λ t. tracker_of t.last t.cells };
}

impl Tracker {
    /// Stands for the empty trace, and takes no memory.
    pub fn new(alloc: Global) -> Tracker
        ensures stands { Stands result [] }
        ensures empty { result ≡ record { last = []; cells = []; last_gone = []; cells_gone = []; spare = 0 } }
        ensures spare { result.spare ≡ 0 }
    {
        Tracker {
            last: LastUse::new(alloc),
            cells: CellState::new(alloc),
        }
    }

    /// Room for the rows of one object more.
    pub fn reserve(&mut self) -> Result<(), NoMemory>
        ensures last { self.new.last ≡ self.old.last }
        ensures cells { self.new.cells ≡ self.old.cells }
        ensures last_gone { self.new.last_gone ≡ self.old.last_gone }
        ensures cells_gone { self.new.cells_gone ≡ self.old.cells_gone }
        ensures stands { (steps : List Step) → Stands self.old steps → Stands self.new steps }
        ensures ready { (plan : PlanValue) → IsReady self.old plan → IsReady self.new plan }
        ensures spare { self.old.spare ≤ self.new.spare }
        ensures room { OnOk result (0 < self.new.spare) }
    {
        self.last.reserve()?;
        self.cells.reserve()?;
        Ok(())
    }

    /// Makes the rows of the next object, in room that there is. It takes no memory.
    pub fn push(&mut self)
        requires { 0 < self.old.spare }
        ensures last { self.new.last ≡ self.old.last ++ [] ∷ [] }
        ensures cells { self.new.cells ≡ self.old.cells ++ [] ∷ [] }
        ensures last_gone { self.new.last_gone ≡ self.old.last_gone }
        ensures cells_gone { self.new.cells_gone ≡ self.old.cells_gone }
        ensures stands { (steps : List Step) → Stands self.old steps → Stands self.new steps }
        ensures spare { self.new.spare ≡ self.old.spare - 1 }
    {
        self.last.push();
        self.cells.push();
    }

    /// Gives back the rows of an object, if it has some. A plan of what uses it later is refused.
    pub fn let_go(&mut self, object: u64)
        ensures last { self.new.last ≡ self.old.last }
        ensures cells { self.new.cells ≡ self.old.cells }
        ensures last_gone { self.new.last_gone ≡ gone_with (kept_last self.old) object }
        ensures cells_gone { self.new.cells_gone ≡ gone_with (kept_cells self.old) object }
        ensures stands { (steps : List Step) → Stands self.old steps → Stands self.new steps }
        ensures spare { self.new.spare ≡ self.old.spare }
    {
        self.last.let_go(object);
        self.cells.let_go(object);
    }

    /// The first bytes of a buffer's range, from `lo` up to but not including `hi`, that are unset in the trace, as many
    /// as stand together; none where all are set. The rows of the buffer were not let go. It takes no memory.
    pub fn first_unset(&self, buffer: u64, lo: u64, hi: u64) -> Option<(u64, u64)>
        requires { was_let_go self.now.cells_gone buffer ≡ false }
        ensures { (steps : List Step) → Stands self.now steps → FindsFirst (λ n. is_unset steps (Byte buffer n)) lo hi result }
    {
        match self.cells.set_runs(CellRow::Buffer(buffer)) {
            Some(runs) => first_gap(runs, lo, hi),
            None => first_gap(&[], lo, hi),
        }
    }

    /// A plan at a place that adds nothing yet. It takes no memory.
    pub fn plan(&self, alloc: Global, place: StepPlace) -> Plan
        ensures place { result.place ≡ place }
        ensures planned { IsPlanned self.now result [] }
    {
        Plan::new(alloc, place, &self.last, &self.cells)
    }

    /// Plans the steps of one command buffer at the place of the plan, after those that were planned. It
    /// leaves the tracker as it is; without memory there is no plan. Nor is there one without rows of an object
    /// that a step uses or accesses, as no step of a device does: it makes the rows of each object as it is
    /// made, and lets them go when nothing can use it again.
    pub fn add(&self, plan: Plan, track: &CbTrack) -> Result<Plan, NoMemory>
        ensures place { IfOk result (λ p. p.place ≡ plan.place) }
        ensures planned { IfOk result (λ p. (groups : List (List Step)) →
            IsPlanned self.now plan groups → IsPlanned self.now p (groups ++ placed_all plan.place track.now ∷ [])) }
    {
        let more = plan.add(track, &self.last, &self.cells)?;
        Ok(more)
    }

    /// Plans one step, as a command buffer of its own. Without memory, or rows of an object, there is no plan.
    pub fn add_step(&self, alloc: Global, plan: Plan, step: Step) -> Result<Plan, NoMemory>
        requires { step.place ≡ plan.place }
        ensures place { IfOk result (λ p. p.place ≡ plan.place) }
        ensures planned { IfOk result (λ p. (groups : List (List Step)) →
            IsPlanned self.now plan groups → IsPlanned self.now p (groups ++ (step ∷ []) ∷ [])) }
    {
        let _ = alloc;
        let more = plan.add_alone(step, &self.last, &self.cells)?;
        Ok(more)
    }

    /// Brings the tracker to the trace with what was planned for it, and hands out the items to add.
    /// It takes no memory.
    pub fn apply(&mut self, plan: Plan) -> Vec<Item>
        requires { IsReady self.old plan }
        ensures items { result.items ≡ plan.draft.items.items }
        ensures now { self.new ≡ now_of self.old plan.draft }
        ensures stands { (trace : List Item) →
            Stands self.old (steps_of trace) → Stands self.new (steps_of (trace ++ plan.draft.items.items)) }
        ensures spare { self.new.spare ≡ self.old.spare }
    {
        plan.apply(&mut self.last, &mut self.cells)
    }
}
