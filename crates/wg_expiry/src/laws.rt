//! The laws of what is destroyed and of lost devices, and of events that have a fault, as the contracts of functions
//! that do nothing.
ghost use Rattle.wg_expiry.specs.Lost.{FaultyReleases, LostReplies, LostWritesBack};
ghost use Rattle.wg_expiry.specs.Expiry.{DestroyExpires, StaysExpired, SubmitIsPlain, SubmitIsRefused, WriteIsPlain, WriteIsRefused, FreedOnceOver};

/// A destroy of a resource of the device that was not dropped destroys it, and it stays so. Then each submit
/// of command buffers that use it and each writeTexture of it answers Plain, and on a device that is not lost
/// has the fault of rule 193 or 210 where no earlier rule is unmet. One that was never dropped is released
/// at the first entry, from its first destroy on, after which every operation that uses it is complete.
pub fn destroyed_objects()
    ensures destroyed { DestroyExpires }
    ensures stays { StaysExpired }
    ensures submit { SubmitIsPlain }
    ensures submit_rule { SubmitIsRefused }
    ensures write { WriteIsPlain }
    ensures write_rule { WriteIsRefused }
    ensures freed { FreedOnceOver }
{}

/// On a lost device an event that makes an object makes an invalid one, no reply has a fault or an
/// operation, and the trace of a run grows by the host write of an unmap that meets its rules, with its
/// barriers, and by releases alone.
pub fn lost_devices()
    ensures replies { LostReplies }
    ensures trace { LostWritesBack }
{}

/// An event whose reply has a fault adds releases alone to the trace: no barrier and no step.
pub fn faulty_events()
    ensures { FaultyReleases }
{}
