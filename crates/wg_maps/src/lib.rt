//! How the buffers of a device are mapped (WebGPU, "Buffer Mapping").
#![tactic(auto)]

mod mapped;
mod maps;
mod waits;

pub use maps::Maps;
pub use wg_types::mappings::{MapDone, MapMode, MapState, Mapping, PendingMap, Unmapped};
