//! What is set in passes, and compute passes: the rules of their commands, and the steps of their
//! dispatches.
#![tactic(auto)]

mod brackets;
mod dispatches;
mod given;
mod indirect;
mod settings;
mod state;

pub use brackets::{check_end, check_group, depth_after};
pub use given::{GroupGiven, bound, check_given, group_given, pipeline_given, unsets};
pub use indirect::{check_indirect, indirect_touch};
pub use settings::Settings;
pub use state::ComputeState;
