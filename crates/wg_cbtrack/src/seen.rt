//! The uses of noted steps: of each part the set of its first and of its last step.
ghost use Rattle.std.specs.Prelude.{IfOk};
ghost use Rattle.wg_cbtrack.specs.Next.{IsSeen};

use crate::join::{opens, used_after};
use std::alloc::Global;
use wg_entry::NoMemory;
use wg_rows::rows::put_all;
use wg_rows::uses::sets;
use wg_trace::parts::PartRun;
use wg_trace::usages::Usages;

/// The first and the last sets of parts.
#[derive(Drop)]
pub struct SeenUses {
    pub starts: Vec<(PartRun, Usages)>,
    pub ends: Vec<(PartRun, Usages)>,
}

/// The first and the last sets after one more step with these uses.
pub fn see(
    alloc: Global,
    starts: &[(PartRun, Usages)],
    ends: &[(PartRun, Usages)],
    uses: &[(PartRun, Usages)],
) -> Result<SeenUses, NoMemory>
    ensures { IfOk result (λ seen. IsSeen starts.now ends.now uses.now seen.starts.items seen.ends.items) }
{
    let uses = sets(alloc, uses)?;
    let first = opens(alloc, starts, uses.as_slice())?;
    let before = Vec::from_slice(alloc, starts)?;
    let starts_after = put_all(alloc, before, first.as_slice())?;
    let held = Vec::from_slice(alloc, ends)?;
    let ends_after = used_after(alloc, held, uses.as_slice())?;
    Ok(SeenUses {
        starts: starts_after,
        ends: ends_after,
    })
}
