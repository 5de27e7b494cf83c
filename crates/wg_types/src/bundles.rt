//! What is known of render bundles.

use crate::handles::ObjRef;
use crate::items::Items;
use crate::parts::Cells;
use crate::render::TargetInfo;

/// How a bundle uses cells (WebGPU, "Resource Usages"): its draws read them, or its groups bind them as a
/// constant, as storage that is only read, or as storage.
#[derive(Clone, Copy, PartialEq, Eq)]
pub enum BundleUse {
    Input,
    Constant,
    StorageRead,
    Storage,
}

/// Cells that a bundle touches, and how it uses them.
#[derive(Clone, Copy, PartialEq, Eq)]
pub struct BundleTouch {
    pub cells: Cells,
    pub used: BundleUse,
}

/// What is known of a bundle (WebGPU, "GPURenderBundle"): to what it draws, the objects that its commands
/// name, as they come, what it touches, in printed form for each way of use, and how often it draws. A buffer
/// of which it reads no byte is touched by a run without cells.
#[derive(Clone, Drop)]
pub struct BundleInfo {
    pub targets: TargetInfo,
    pub named: Items<ObjRef>,
    pub touches: Items<BundleTouch>,
    pub draws: u64,
}
