//! Canvas contexts: one current texture at a time, which a maker makes and destroys.
#![tactic(auto)]

mod canvas;
mod maker;

pub use canvas::{Canvas, Current, Setting, Stage};
pub use maker::Maker;
