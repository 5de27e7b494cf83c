//! Plain data: objects and what is known of them, bindings, commands and calls; that of traces is handed on.
#![tactic(auto)]

pub mod bindings;
pub mod bundles;
pub mod canvases;
pub mod commands;
pub mod fixed;
pub mod formats;
pub mod groups;
pub mod handles;
pub mod limits;
pub mod mappings;
pub mod refs;
pub mod render;
pub mod requests;
pub mod same;
pub mod samplers;
pub mod shared;
pub mod textures;
pub mod vertex;
pub mod wanted;
pub mod words;
pub mod writes;

pub use wg_entry::NoMemory;
pub use wg_trace::{items, parts, replies, steps, usages};
