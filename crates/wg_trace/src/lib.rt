//! Plain data of traces: parts and cells of memory, usages, steps and items, and what a device answers.
#![tactic(auto)]

pub mod items;
pub mod parts;
pub mod replies;
pub mod steps;
pub mod usages;

pub use wg_entry::NoMemory;
