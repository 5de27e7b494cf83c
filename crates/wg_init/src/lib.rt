//! The cells of memory that are set, kept in runs, and those that a step reads and that are unset.
#![tactic(auto)]

pub mod cell_row;
pub mod cells;
pub mod noting;
pub mod state;
pub mod unset;

pub use cell_row::CellRow;
pub use state::CellState;
pub use wg_entry::NoMemory;
