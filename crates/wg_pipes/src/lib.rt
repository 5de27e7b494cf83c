//! The rules of pipelines: of their interfaces, and of render pipelines those of vertex buffers, of what vertices make, of
//! color targets, of depth and stencil, and of samples; with what these ask of color formats and samples also of
//! bundles, and with laws of bytes per sample and of what changes the stencil.
#![tactic(auto)]

mod blending;
mod checks;
mod depth;
mod interface;
mod laws;
mod primitives;
mod targets;

pub use checks::{check_compute, check_render};
pub use depth::{writes_depth, writes_stencil};
pub use laws::{sample_bytes, stencil_changes};
pub use targets::{are_color, has_target, is_multisampled, samples_fit};
