//! The verdict on the traces that a device makes, and on the reports of scripts, which are accepted where traces are
//! checked. The laws are the contracts of functions that do nothing.
#![tactic(auto)]

ghost use Rattle.wg_accepted.specs.Agreeing.{NoneDiffers, SeenAsPrinted, VerdictIsNone};
ghost use Rattle.wg_accepted.specs.Accepted.{LimitsAreGranted, ReportsAreAccepted};

/// The report of a script that was read and of a history of its device whose replies are the right ones is read as the
/// trace of that history, and where a check of it writes a line that line says that the barriers are enough, if the
/// report has no more bytes than a text that is checked may have: the limits of the device are ones that a script can
/// have.
pub fn reports_are_accepted()
    ensures limits { LimitsAreGranted }
    ensures accepted { ReportsAreAccepted }
{}

/// The barriers of a device's trace are enough: in every order of the accesses to a cell that keeps
/// them each reader, and who looks after the last step, sees the write that it sees as printed; so no
/// writer differs, and what the verdict on the trace is can only be None.
pub fn traces_agree()
    ensures seen { SeenAsPrinted }
    ensures differs { NoneDiffers }
    ensures verdict { VerdictIsNone }
{}
