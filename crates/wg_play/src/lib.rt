//! The play of a script over histories: what its lanes see of the objects, which command or event each
//! call is, and, in specs/, the history that lanes give which take turns. `wg_player` plays it on a device.
#![tactic(auto)]

mod calls;
mod laws;
mod objects;
mod seen;

pub use calls::{command_of, note_command, request_of};
pub use laws::{
    bound_calls, genuine_handles, lanes_through, late_calls, played_scripts, presented_textures,
};
pub use objects::{Object, Stand, object_of, reference_at, stand_at};
pub use seen::{LaneSight, count_made};
