//! A device that callers in any threads share. Each call is an event of its state, made under the device's
//! turn lock.
#![tactic(auto)]

mod device;
mod making;
mod queue;

pub use device::{Device, DevicePass, Ended};
