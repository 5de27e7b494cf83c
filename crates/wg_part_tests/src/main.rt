//! Tests of the parts that a device is made of, each by itself: callers of one lock, numbers that no script can say,
//! readers and writers that fail, and calls that the program makes in another form. It stands on no crate above
//! those, so that it is proved beside what stands upon them. It is a program that does nothing: of a library the
//! gate sums up all that it stands on, by each way down to that.
#![tactic(auto)]

#[cfg(test)]
mod bars;
#[cfg(test)]
mod cbtrack;
#[cfg(test)]
mod counter;
#[cfg(test)]
mod ends;
#[cfg(test)]
mod init;
#[cfg(test)]
mod maps;
#[cfg(test)]
mod print;
#[cfg(test)]
mod queries;
#[cfg(test)]
mod queue;
#[cfg(test)]
mod scopes;
#[cfg(test)]
mod turns;
#[cfg(test)]
mod vast;

fn main() {}
