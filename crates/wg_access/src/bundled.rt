//! What is known of what a bundle touches, in printed form for each way of use, and what that is where the
//! bundle is executed.
ghost use Rattle.std.specs.Prelude.{◌≡◌, ◌++◌, map, IfOk, OnOk};
ghost use Rattle.std.specs.List.{filter};
ghost use Rattle.wg_model.specs.Bundles.{bundle_how, bundle_touch, is_used_so, no_cells, part_touched, cells_touched, touched_by, touched_so, bundle_touches};

use crate::touching::deed_of;
use bitflags::Flags;
use std::alloc::Global;
use wg_types::NoMemory;
use wg_types::bundles::{BundleTouch, BundleUse};
use wg_types::items::Items;
use wg_types::parts::{AccessKind, Cells, PartRun};
use wg_types::steps::{Deed, StepName, Touch, Touches};
use wg_types::usages::Usages;

/// How a bundle that uses cells so uses the parts that they lie in, and how it accesses them.
fn bundle_how(used: BundleUse) -> (Usages, AccessKind)
    ensures { result ≡ bundle_how used }
{
    match used {
        BundleUse::Input => (Usages::INPUT, AccessKind::Read),
        BundleUse::Constant => (Usages::CONSTANT, AccessKind::Read),
        BundleUse::StorageRead => (Usages::STORAGE_READ, AccessKind::Read),
        BundleUse::Storage => (Usages::STORAGE, AccessKind::Both),
    }
}

/// What a bundle touches, as the pass touches it that executes the bundle (WebGPU, "executeBundles").
pub fn bundle_touch(touch: BundleTouch) -> Touch
    ensures { result ≡ bundle_touch touch }
{
    (touch.cells, bundle_how(touch.used))
}

/// Whether cells are touched in this way.
fn is_used_so(used: BundleUse, touch: &Touch) -> bool
    ensures { result ≡ is_used_so used touch.now }
{
    let (_, (usages, kind)) = *touch;
    let (wanted, access) = bundle_how(used);
    usages.bits() == wanted.bits() && kind == access
}

/// What is touched in this way.
fn touches_so(alloc: Global, used: BundleUse, touches: &[Touch]) -> Result<Touches, NoMemory>
    ensures { IfOk result (λ found. found ≡ filter (is_used_so used) touches.now) }
{
    let mut found = Items::new(alloc);
    for touch in touches {
        if is_used_so(used, touch) {
            found.push(*touch)?;
        }
    }
    Ok(found)
}

/// A run of parts that has no cells.
fn no_cells(run: PartRun) -> Cells
    ensures { result ≡ no_cells run }
{
    match run {
        PartRun::Buffer { object } => Cells::Bytes {
            object,
            lo: 0,
            hi: 0,
        },
        PartRun::Queries { object } => Cells::Queries {
            object,
            lo: 0,
            hi: 0,
        },
        PartRun::Texture {
            object,
            aspect,
            mip,
            ..
        } => Cells::Layers {
            object,
            aspect,
            mip,
            lo: 0,
            hi: 0,
        },
    }
}

/// Adds the parts that are used in this way.
fn push_parts(
    found: &mut Items<BundleTouch>,
    used: BundleUse,
    uses: &[(PartRun, Usages)],
) -> Result<(), NoMemory>
    ensures { OnOk result (found.new ≡ found.old ++ map (part_touched used) uses.now) }
{
    for row in uses {
        found.push(BundleTouch {
            cells: no_cells(row.0),
            used,
        })?;
    }
    Ok(())
}

/// Adds the cells that are accessed in this way.
fn push_cells(
    found: &mut Items<BundleTouch>,
    used: BundleUse,
    accesses: &[(Cells, AccessKind)],
) -> Result<(), NoMemory>
    ensures { OnOk result (found.new ≡ found.old ++ map (cells_touched used) accesses.now) }
{
    for row in accesses {
        found.push(BundleTouch { cells: row.0, used })?;
    }
    Ok(())
}

/// Adds what is used and accessed in this way.
fn push_deed(found: &mut Items<BundleTouch>, used: BundleUse, deed: &Deed) -> Result<(), NoMemory>
    ensures { OnOk result (found.new ≡ found.old ++ touched_by used deed.now) }
{
    push_parts(found, used, deed.uses.as_slice())?;
    push_cells(found, used, deed.accesses.as_slice())
}

/// Adds what is touched in this way, in printed form.
fn push_touched(
    alloc: Global,
    found: &mut Items<BundleTouch>,
    used: BundleUse,
    touches: &[Touch],
) -> Result<(), NoMemory>
    ensures { OnOk result (found.new ≡ found.old ++ touched_so used touches.now) }
{
    let so = touches_so(alloc, used, touches)?;
    let deed = deed_of(alloc, StepName::RenderPass, so.as_slice())?;
    push_deed(found, used, &deed)
}

/// What is known of the touches of a bundle: those of each way of use, in printed form.
#[tactic(auto, unfolding(wg_model::specs::Bundles::bundle_touches))]
pub fn bundle_touches(alloc: Global, touches: &[Touch]) -> Result<Items<BundleTouch>, NoMemory>
    ensures { IfOk result (λ found. found ≡ bundle_touches touches.now) }
{
    let mut found = Items::new(alloc);
    push_touched(alloc, &mut found, BundleUse::Input, touches)?;
    push_touched(alloc, &mut found, BundleUse::Constant, touches)?;
    push_touched(alloc, &mut found, BundleUse::StorageRead, touches)?;
    push_touched(alloc, &mut found, BundleUse::Storage, touches)?;
    Ok(found)
}
