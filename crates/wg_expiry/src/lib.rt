//! The laws of what is destroyed: submits and writes that use it are refused, and it is released once it is
//! over. So it is of the textures of canvases that were presented. And the laws of lost devices, and of events that
//! have a fault: what they answer, and what they add to a trace.
#![tactic(auto)]

mod laws;

pub use laws::{destroyed_objects, faulty_events, lost_devices};
