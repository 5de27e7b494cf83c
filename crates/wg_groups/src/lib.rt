//! What is known of views, layouts, bind groups and pipelines that calls make, and the rules of bind groups and of samplers.
#![tactic(auto)]

mod check;
mod fits;
pub mod making;
mod samplers;

pub use check::check_group;
pub use samplers::check_sampler;
