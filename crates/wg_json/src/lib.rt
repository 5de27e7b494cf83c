//! JSON values that borrow their texts from the bytes that they were read from.
#![tactic(auto)]

mod number;
mod order;
mod reading;
mod value;

pub use json::Scratch;
pub use reading::{Fault, read};
pub use value::Value;
