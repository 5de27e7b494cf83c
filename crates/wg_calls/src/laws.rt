//! The laws of calls, as the contracts of functions that do nothing.
ghost use Rattle.wg_calls.specs.Genuine.{StaysGenuine, GroupsTellOwners};
ghost use Rattle.wg_calls.specs.Infos.{InfoIsMade};
ghost use Rattle.wg_calls.specs.Judged.{OpensForDevice, JudgesByDevice};

/// Where the handles of what a call names know what the device knows, so much is known of what the call
/// makes as of what its event makes.
pub fn made_infos()
    ensures { InfoIsMade }
{}

/// A handle that is genuine in a history stays so as the history grows. So it does for whoever calls a
/// device: what a pass has seen after a call begins with what it had seen before.
pub fn stays_genuine()
    ensures { StaysGenuine }
{}

/// In a run, what a genuine handle of a valid bind group knows of the group's layout is exclusive to a
/// pipeline exactly where the group was made for a layout that getBindGroupLayout made of it, and the
/// pipeline derived its layouts itself (WebGPU, "getBindGroupLayout").
pub fn groups_tell_owners()
    ensures { GroupsTellOwners }
{}

/// The recorder of an encoder of a device, which is opened with the limits of the device, is of that device:
/// so what ends it is judged by the device's number and limits, as those of the genuine handles that its
/// commands name are.
pub fn judged_by_device()
    ensures opened { OpensForDevice }
    ensures judged { JudgesByDevice }
{}
