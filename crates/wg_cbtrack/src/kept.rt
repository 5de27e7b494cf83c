//! What a tracker keeps of each step of a command buffer.
use wg_bars::barriers::Change;
use wg_trace::items::Items;
use wg_trace::parts::{AccessKind, Cells, PartRun};
use wg_trace::steps::Deed;
use wg_trace::usages::Usages;

/// A step without a place: what is done, its changes of parts that earlier steps of the command buffer
/// use, and its uses that are the first of their parts inside. A clear inside is kept likewise, and was
/// not noted.
#[derive(Drop)]
pub struct Kept {
    pub deed: Deed,
    pub changes: Items<(PartRun, Change)>,
    pub first: Items<(PartRun, Usages)>,
    pub is_noted: bool,
}

/// What is found of steps that were noted, beside what is kept of each: their last uses, those of clears
/// inside among them; what they want from before them, and what they leave; and of the noted steps alone
/// the first and the last uses, and the cells that are wanted.
#[derive(Drop)]
pub struct Rows {
    pub ends: Vec<(PartRun, Usages)>,
    pub wants: Vec<(Cells, AccessKind)>,
    pub leaves: Vec<(Cells, AccessKind)>,
    pub starts: Vec<(PartRun, Usages)>,
    pub last: Vec<(PartRun, Usages)>,
    pub needs: Vec<Cells>,
}
