//! Reads a printed trace.
#![tactic(auto)]

mod draft;
mod forms;
mod given;
mod line;
mod reading;
mod words;

pub use reading::{TraceFault, read};
