//! The text of a report, printed to a sink through a buffer that takes no memory.
#![tactic(auto)]

mod buffer;
mod entries;
mod items;
mod pieces;
mod printing;
mod usage_sets;
mod words;

pub use entries::{entry, put_entry};
pub use items::{item, put_cells, put_item};
pub use pieces::{Piece, line, put_all, put_line};
pub use printing::Out;
