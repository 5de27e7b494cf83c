//! The law of the generated script, as the contract of a function that does nothing.
ghost use Rattle.wg_gen.specs.Alike.{CountsAlike};

/// In whatever order the lanes of a generated script take turns, its history has the same number of
/// entries, operations and releases, and no fault.
pub fn counts_alike()
    ensures { CountsAlike }
{}
