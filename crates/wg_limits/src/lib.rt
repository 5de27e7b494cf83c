//! The limits of devices: what they are where nothing is asked for, and what comes of asking.
#![tactic(auto)]

mod asking;
mod names;
mod values;

pub use asking::{asked, can_ask, is_alignment, no_better};
pub use names::LimitName;
pub use values::{default_limits, limit_of};
