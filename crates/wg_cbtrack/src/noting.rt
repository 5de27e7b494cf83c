//! What one more noted step makes of a tracker.
ghost use Rattle.std.specs.Prelude.{◌≡◌, IfOk};
ghost use Rattle.wg_cbtrack.specs.Next.{IsKept, AreMore, IsStep, FollowsNear};
ghost use Rattle.wg_cbtrack.specs.Near.{AreOrdered};

use crate::cells::{CellsAfter, cells_after};
use crate::draft::uses_of;
use crate::join::{inner_changes, opens, used_after};
use crate::kept::{Kept, Rows};
use crate::near::near_rows;
use crate::owners::objects_of;
use crate::seen::{SeenUses, see};
use std::alloc::Global;
use wg_entry::NoMemory;
use wg_init::unset::cells_of;
use wg_rows::uses::sets;
use wg_trace::items::Items;
use wg_trace::parts::{AccessKind, Cells, PartRun};
use wg_trace::steps::{Deed, StepName};
use wg_trace::usages::Usages;

/// What is kept of a step, and the uses after it.
#[derive(Drop)]
struct One {
    pub kept: Kept,
    pub ends: Vec<(PartRun, Usages)>,
}

/// What is kept of a step and of the clear inside before it, and the uses after them.
#[derive(Drop)]
struct More {
    pub kept: Vec<Kept>,
    pub ends: Vec<(PartRun, Usages)>,
}

/// What is kept of a deed over rows of uses.
fn keep(
    alloc: Global,
    ends: Vec<(PartRun, Usages)>,
    deed: Deed,
    is_noted: bool,
) -> Result<One, NoMemory>
    ensures { IfOk result (λ one. IsKept ends.items deed is_noted one.kept one.ends.items) }
{
    let uses = sets(alloc, deed.uses.as_slice())?;
    let changes = inner_changes(alloc, ends.as_slice(), uses.as_slice())?;
    let first = opens(alloc, ends.as_slice(), uses.as_slice())?;
    let after = used_after(alloc, ends, uses.as_slice())?;
    Ok(One {
        kept: Kept {
            deed,
            changes: Items::from_vec(changes),
            first: Items::from_vec(first),
            is_noted,
        },
        ends: after,
    })
}

/// What is kept of a deed, and of the clear of rows of cells before it, if there are some.
fn keep_more(
    alloc: Global,
    ends: Vec<(PartRun, Usages)>,
    rows: Vec<(Cells, AccessKind)>,
    deed: Deed,
) -> Result<More, NoMemory>
    ensures { IfOk result (λ more. AreMore ends.items rows.items deed more.kept.items more.ends.items) }
{
    let mut kept = Vec::with_capacity(alloc, 2)?;
    if rows.is_empty() {
        let One { kept: step, ends } = keep(alloc, ends, deed, true)?;
        kept.push(step)?;
        return Ok(More { kept, ends });
    }
    let uses = uses_of(alloc, rows.as_slice())?;
    let clear = Deed {
        name: StepName::Clear,
        uses: Items::from_vec(uses),
        accesses: Items::from_vec(rows),
    };
    let One {
        kept: first,
        ends: mid,
    } = keep(alloc, ends, clear, false)?;
    let One {
        kept: step,
        ends: after,
    } = keep(alloc, mid, deed, true)?;
    kept.push(first)?;
    kept.push(step)?;
    Ok(More { kept, ends: after })
}

/// What more is kept for one more step, and the rows after it.
#[derive(Drop)]
struct Next {
    pub kept: Vec<Kept>,
    pub ends: Vec<(PartRun, Usages)>,
    pub wants: Vec<(Cells, AccessKind)>,
    pub leaves: Vec<(Cells, AccessKind)>,
}

/// An equal deed.
fn copy_of(alloc: Global, deed: &Deed) -> Result<Deed, NoMemory>
    ensures { IfOk result (λ other. other ≡ deed.now) }
{
    let uses = Vec::from_slice(alloc, deed.uses.as_slice())?;
    let accesses = Vec::from_slice(alloc, deed.accesses.as_slice())?;
    Ok(Deed {
        name: deed.name,
        uses: Items::from_vec(uses),
        accesses: Items::from_vec(accesses),
    })
}

/// What one more step makes of the rows of a tracker. It changes nothing.
fn find_next(
    alloc: Global,
    ends: &[(PartRun, Usages)],
    wants: &[(Cells, AccessKind)],
    leaves: &[(Cells, AccessKind)],
    deed: &Deed,
) -> Result<Next, NoMemory>
    ensures { IfOk result (λ next. IsStep ends.now wants.now leaves.now deed.now next.kept.items next.ends.items next.wants.items next.leaves.items) }
{
    let step = copy_of(alloc, deed)?;
    let cells = cells_after(alloc, wants, leaves, deed.accesses.as_slice())?;
    let before = Vec::from_slice(alloc, ends)?;
    let CellsAfter {
        clear,
        wants: wants_after,
        leaves: leaves_after,
    } = cells;
    let more = keep_more(alloc, before, clear, step)?;
    let More {
        kept,
        ends: ends_after,
    } = more;
    Ok(Next {
        kept,
        ends: ends_after,
        wants: wants_after,
        leaves: leaves_after,
    })
}

/// What more is kept for one more step, the objects that it uses or accesses, and their rows after it.
#[derive(Drop)]
pub struct After {
    pub kept: Vec<Kept>,
    pub objects: Vec<u64>,
    pub near: Rows,
}

/// What one more step makes of what a tracker holds. It changes nothing, and looks at the rows of the
/// objects that the step uses or accesses alone.
pub fn step_after(alloc: Global, rows: &Rows, deed: &Deed) -> Result<After, NoMemory>
    requires { AreOrdered rows.now }
    ensures { IfOk result (λ after. FollowsNear rows.now deed.now after.kept.items after.objects.items after.near) }
{
    let objects = objects_of(alloc, deed.uses.as_slice(), deed.accesses.as_slice())?;
    let near = near_rows(alloc, rows, objects.as_slice())?;
    let next = find_next(
        alloc,
        near.ends.as_slice(),
        near.wants.as_slice(),
        near.leaves.as_slice(),
        deed,
    )?;
    let seen = see(
        alloc,
        near.starts.as_slice(),
        near.last.as_slice(),
        deed.uses.as_slice(),
    )?;
    let Next {
        kept,
        ends,
        wants,
        leaves,
    } = next;
    let SeenUses { starts, ends: last } = seen;
    let needs = cells_of(alloc, wants.as_slice())?;
    Ok(After {
        kept,
        objects,
        near: Rows {
            ends,
            wants,
            leaves,
            starts,
            last,
            needs,
        },
    })
}
