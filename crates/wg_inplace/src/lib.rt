//! Rows in printed form that are changed in place, in room that there is.
#![tactic(auto)]

pub mod place;
