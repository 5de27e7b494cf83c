//! What is left to be told.

/// How many items and settlements were not told, of each at most the greatest number.
#[repr(C)]
#[derive(Clone, Copy, PartialEq, Eq, Debug)]
pub struct ToldLeft {
    pub items: u64,
    pub settlements: u64,
}
