//! The bind group layouts that a pipeline derives from what its shaders use, and whether it can (WebGPU,
//! "Default pipeline layout").
#![tactic(auto)]

mod checks;
mod entries;
mod merging;
mod order;

pub use checks::check_automatic;
pub use merging::{Merged, automatic_layouts, merge};
