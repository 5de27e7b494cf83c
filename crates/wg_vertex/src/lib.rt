//! Vertex buffers: the rules of their layouts, and whether what is set for them serves a draw.
#![tactic(auto)]

mod attributes;
mod checks;
mod draws;
mod locations;

pub use checks::check_layout;
pub use draws::fits;
