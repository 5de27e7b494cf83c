//! The script that the generator makes, and that it counts alike in every order of turns.
#![tactic(auto)]

mod calls;
mod draws;
mod laws;

pub use calls::script;
pub use laws::counts_alike;
