//! What becomes of the objects of a device, and when their memory is given back.
#![tactic(auto)]

mod life;
mod live;
mod rows;
mod waiting;

pub use life::Life;
pub use rows::{Made, Resource, Row};
