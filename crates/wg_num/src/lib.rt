//! Sets of numbers, kept as runs.
#![tactic(auto)]

mod runs;
pub mod set;

pub use set::RunSet;
pub use wg_entry::NoMemory;
