//! What exports return.

pub const OK: u32 = 0;

pub const NO_MEMORY: u32 = 1;

pub const NO_OBJECT: u32 = 2;

pub const CLOSED: u32 = 3;

pub const BAD_VALUE: u32 = 4;

pub const NO_PASS: u32 = 5;

pub const END: u32 = 6;

pub const IS_OPEN: u32 = 7;

pub const NO_ROOM: u32 = 8;

pub const LATE: u32 = 9;
