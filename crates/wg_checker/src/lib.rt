//! Checks a text: reads a trace from a source, has `wg_check` judge its barriers, and writes what is found
//! to a sink. `wg_check` sees no text, and reads and writes nothing.
#![tactic(auto)]

mod checking;
mod printing;

pub use checking::{Checked, check};
