//! Whether the barriers of a trace are enough: the least reader that sees another write than the
//! printed one in some order that keeps them. `wg_checker` does so for a text.
#![tactic(auto)]

mod clashes;
mod digests;
mod ends;
mod events;
mod keys;
mod segments;
mod stories;

pub use clashes::{Clash, verdict};
pub use wg_entry::NoMemory;
