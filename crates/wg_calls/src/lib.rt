//! The calls of a device over handles: which event each is, what is known of the object that it makes, and
//! the handle of that; and the encoders that calls end, with their recorders.
#![tactic(auto)]

mod asking;
mod encoders;
mod laws;
mod making;

pub use asking::event_asked;
pub use encoders::{bundle_recorder_for, ended_by, is_begun, recorder_for, recorder_of};
pub use laws::{groups_tell_owners, judged_by_device, made_infos, stays_genuine};
pub use making::{finish_event, finished_info, handle_of, info_asked};
