//! A device's history, with what it says kept beside it in place of walks.
#![tactic(auto)]

mod book;
mod infos;
mod look;
mod mappings;
mod names;
mod notes;
mod queues;
mod recordings;
mod scopes;
mod settlements;
mod state;

pub use book::{Book, is_made_valid};
pub use look::{
    buffer_at, is_genuine, is_own_bundle_encoder, is_own_command_buffer, is_own_encoder,
    is_own_object, is_own_resource, is_own_wanted, own_buffer, own_texture, texture_at,
    texture_or_none_at,
};
pub use notes::op_of;
pub use recordings::Spent;
pub use state::State;
pub use wg_life::{Made, Resource};
