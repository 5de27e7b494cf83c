//! Plays a script on a device: the lanes of a phase at once, each with a pass of its own. What a lane
//! sees, makes and gives is `wg_play`, which has no device and no thread.
#![tactic(auto)]

mod call;
mod canvas;
mod lane;
mod meets;
mod phase;
mod seats;
mod whole;

pub use whole::play;
