//! Tests of devices: threads that call one device, handles that no script has, and each call of a device by its
//! name. It stands on no crate above those, so that it is proved beside the player and the top call. It is a program
//! that does nothing: of a library the gate sums up all that it stands on, by each way down to that.
#![tactic(auto)]

#[cfg(test)]
mod calls;
#[cfg(test)]
mod devices;
#[cfg(test)]
mod events;
#[cfg(test)]
mod threads;

fn main() {}
