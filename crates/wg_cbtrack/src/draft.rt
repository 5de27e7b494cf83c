//! What is found so far of what command buffers add to a trace, over the rows of the states that stand
//! for it.
ghost use Rattle.std.specs.Prelude.{◌≡◌, [], ◌∷◌, List, IfOk};
ghost use Rattle.wg_orders.specs.Steps.{Step};
ghost use Rattle.wg_orders.specs.Trace.{Item, add_step, add_clear, to_clear, add_group};
ghost use Rattle.wg_trace.specs.declared.steps.Deed.{Deed};
ghost use Rattle.wg_cbtrack.specs.Cleared.{AreNeeded, uses_of};
ghost use Rattle.wg_cbtrack.specs.Stands.{tracker_of};
ghost use Rattle.wg_cbtrack.specs.Adds.{now_of, HasAdded};
ghost use Rattle.wg_cbtrack.specs.Group.{placed_all};
ghost use Rattle.wg_cbtrack.specs.Track.{IsTrack};

use crate::join::push_items;
use crate::kept::Kept;
use std::alloc::Global;
use wg_bars::LastUse;
use wg_bars::kept::Notes;
use wg_bars::last::{self, step_over};
use wg_entry::NoMemory;
use wg_fading::Fading;
use wg_init::unset::unset_rows;
use wg_init::{CellRow, CellState, noting};
use wg_num::RunSet;
use wg_rows::cell_runs::run_part;
use wg_rows::rows::printed;
use wg_trace::items::Items;
use wg_trace::parts::{AccessKind, Cells, PartRun};
use wg_trace::steps::{Item, Step, StepName, StepPlace};
use wg_trace::usages::Usages;

/// The items found so far, and the notes of their steps over the rows of the states.
#[derive(Drop)]
pub struct PlanDraft {
    pub items: Vec<Item>,
    pub last: Notes<(PartRun, Usages)>,
    pub cells: Notes<(CellRow, RunSet)>,
}

/// What a tracker keeps, as it is lent.
#[derive(Clone, Copy)]
pub struct Track<'a> {
    pub kept: &'a [Kept],
    pub ends: &'a [(PartRun, Usages)],
    pub wants: &'a [(Cells, AccessKind)],
    pub leaves: &'a [(Cells, AccessKind)],
}

/// The uses of a clear of rows, as they are printed.
pub fn uses_of(
    alloc: Global,
    rows: &[(Cells, AccessKind)],
) -> Result<Vec<(PartRun, Usages)>, NoMemory>
    ensures { IfOk result (λ v. v.items ≡ uses_of rows.now) }
{
    let mut uses = Vec::with_capacity(alloc, rows.len())?;
    for row in rows {
        uses.push((run_part(row.0), Usages::CLEAR))?;
    }
    printed(alloc, uses.as_slice())
}

/// Adds a step, with its barriers.
fn add_step(
    last_rows: &Fading<Items<(PartRun, Usages)>>,
    set_rows: &Fading<Items<(CellRow, RunSet)>>,
    draft: PlanDraft,
    step: Step,
) -> Result<PlanDraft, NoMemory>
    ensures { IfOk result (λ d. (f : List Item → List Item) →
        HasAdded (tracker_of last_rows.now set_rows.now) draft f → HasAdded (tracker_of last_rows.now set_rows.now) d (λ trace. add_step (f trace) step)) }
{
    let PlanDraft {
        mut items,
        last,
        cells,
    } = draft;
    let alloc = *items.allocator();
    let last = step_over(&mut items, last_rows, last, &step)?;
    let cells = noting::notes_of(alloc, set_rows, cells, step.accesses.as_slice())?;
    items.push(Item::Step(step))?;
    Ok(PlanDraft { items, last, cells })
}

/// Adds the clear of cells, if there are any.
fn add_clear(
    last_rows: &Fading<Items<(PartRun, Usages)>>,
    set_rows: &Fading<Items<(CellRow, RunSet)>>,
    draft: PlanDraft,
    place: StepPlace,
    rows: Vec<(Cells, AccessKind)>,
) -> Result<PlanDraft, NoMemory>
    ensures { IfOk result (λ d. (f : List Item → List Item) (steps : List Step) →
        AreNeeded (now_of (tracker_of last_rows.now set_rows.now) draft).cells steps rows.items → HasAdded (tracker_of last_rows.now set_rows.now) draft f →
        HasAdded (tracker_of last_rows.now set_rows.now) d (λ trace. add_clear (f trace) place (to_clear (f trace) steps))) }
{
    if rows.is_empty() {
        return Ok(draft);
    }
    let uses = uses_of(*rows.allocator(), rows.as_slice())?;
    let clear = Step {
        place,
        name: StepName::Clear,
        uses: Items::from_vec(uses),
        accesses: Items::from_vec(rows),
    };
    let draft = add_step(last_rows, set_rows, draft, clear)?;
    Ok(draft)
}

/// Adds what a tracker found of a command buffer: the clear of what it needs from before it, and the
/// items of what is kept, joined with the uses outside.
pub fn add_track(
    last_rows: &Fading<Items<(PartRun, Usages)>>,
    set_rows: &Fading<Items<(CellRow, RunSet)>>,
    draft: PlanDraft,
    place: StepPlace,
    track: Track<'_>,
) -> Result<PlanDraft, NoMemory>
    ensures { IfOk result (λ d. (f : List Item → List Item) (first : Deed) (deeds : List Deed) →
        IsTrack (first ∷ deeds) track.entry.kept.now track.entry.ends.now track.entry.wants.now track.entry.leaves.now →
        HasAdded (tracker_of last_rows.now set_rows.now) draft f →
        HasAdded (tracker_of last_rows.now set_rows.now) d (λ trace. add_group (f trace) (placed_all place (first ∷ deeds)))) }
{
    let alloc = *draft.items.allocator();
    let rows = unset_rows(alloc, set_rows, &draft.cells, track.wants)?;
    let cleared = add_clear(last_rows, set_rows, draft, place, rows)?;
    let PlanDraft {
        mut items,
        last,
        cells,
    } = cleared;
    push_items(&mut items, place, last_rows, &last, track.kept)?;
    let last = last::notes_of(alloc, last_rows, last, track.ends)?;
    let cells = noting::notes_of(alloc, set_rows, cells, track.leaves)?;
    Ok(PlanDraft { items, last, cells })
}

/// Adds one step, as what a command buffer of its own does: the clear of what it needs, and the step.
pub fn add_alone(
    last_rows: &Fading<Items<(PartRun, Usages)>>,
    set_rows: &Fading<Items<(CellRow, RunSet)>>,
    draft: PlanDraft,
    step: Step,
) -> Result<PlanDraft, NoMemory>
    ensures { IfOk result (λ d. (f : List Item → List Item) →
        HasAdded (tracker_of last_rows.now set_rows.now) draft f →
        HasAdded (tracker_of last_rows.now set_rows.now) d (λ trace. add_group (f trace) (step ∷ []))) }
{
    let alloc = *draft.items.allocator();
    let rows = unset_rows(alloc, set_rows, &draft.cells, step.accesses.as_slice())?;
    let cleared = add_clear(last_rows, set_rows, draft, step.place, rows)?;
    let added = add_step(last_rows, set_rows, cleared, step)?;
    Ok(added)
}

/// Nothing is found yet. It takes no memory.
pub fn begin(alloc: Global, last: &LastUse, cells: &CellState) -> PlanDraft
    ensures items { result.items.items ≡ [] }
    ensures added { HasAdded (tracker_of last.now cells.now) result (λ trace. trace) }
{
    // What they keep is in order.
    let _ = last.rows();
    let _ = cells.rows();
    PlanDraft {
        items: Vec::new(alloc),
        last: Notes::new(alloc),
        cells: Notes::new(alloc),
    }
}
