//! The device for callers in C: the exports that `include/wethlorn.h` declares, and what lies behind them.
#![tactic(auto)]

mod boundary;
mod calls;
mod commands;
mod devices;
mod drains;
mod drawing;
mod encoder;
mod encoders;
mod inner;
mod left;
mod lent;
mod parts;
mod queue;
mod ranges;
mod sealed;
mod statuses;
mod version;
mod waiting;
