//! What a command buffer adds to a trace, found while it is recorded, and joined with the states of a
//! trace.
#![tactic(auto)]

ghost use Rattle.wg_cbtrack.specs.Stands.{FreesKeep};

mod about;
mod alone;
mod cells;
mod covered;
mod draft;
mod found;
mod gaps;
mod join;
mod kept;
mod near;
mod noting;
mod owners;
mod placed;
pub mod plan;
mod reads;
mod seen;
pub mod track;
pub mod tracker;

pub use plan::Plan;
pub use track::{CbTrack, Ready};
pub use tracker::Tracker;
pub use wg_entry::NoMemory;

/// Two states that stand for a trace stand for it with the release of objects at its end.
pub fn releases()
    ensures { FreesKeep }
{}
