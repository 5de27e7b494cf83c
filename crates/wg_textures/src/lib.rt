//! The rules of textures and of their views.
#![tactic(auto)]

mod create;
mod defaults;
mod view;

pub use create::check_create;
pub use defaults::view_of;
pub use view::check_view;
