//! A device for one caller at a time, whose objects go by number: the form in which an engine owns the core,
//! behind a lock of its own.
#![tactic(auto)]

mod asked;
mod desk;
mod endings;
mod making;
mod seats;

pub use desk::{Desk, DeskError};
pub use seats::Seat;
