//! Tests of the top call under a gate, which no program hands it. It is a program that does nothing: of a library the
//! gate sums up all that it stands on, by each way down to that, which takes minutes where the top call is below.
#![tactic(auto)]

#[cfg(test)]
mod gates;

fn main() {}
