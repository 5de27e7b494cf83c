//! How large the numbers in the traces of histories are, and those of what command buffers do, so that the report of a
//! run is read back. The laws are the contracts of functions that do nothing.
#![tactic(auto)]

ghost use Rattle.wg_small.specs.Ranged.{ReadsBackByCounts, ReadsBackByLength, RecordingsAreSmall, StepsAreSmall};
ghost use Rattle.wg_small.specs.Limits.{MappingsAreWithinLimits, ObjectsAreWithinLimits, RangesOfRecordings, ReadsBackByRecordings, RecordersGoByLimits};
ghost use Rattle.wg_small.specs.Small.{NumbersAreWithin, RangesOfSteps, ReadsBackByRanges};

/// The operations, entries and objects in the trace of a history whose replies are the right ones are numbered within its
/// length, so that its report is read back where the mip levels, layers, slices, queries and bytes of its steps are small
/// enough, as those of its barriers and clears are then.
pub fn numbers_are_small()
    ensures within { NumbersAreWithin }
    ensures ranges { RangesOfSteps }
    ensures read { ReadsBackByRanges }
{}

/// In a history whose replies are the right ones a valid buffer, texture or query set is within the limits of the device, and
/// what is mapped ends no later than the greatest buffer may.
pub fn objects_are_within_limits()
    ensures objects { ObjectsAreWithinLimits }
    ensures mappings { MappingsAreWithinLimits }
{}

/// Where no limit of the device is better than the best, queue writes and host accesses have small ranges. So all steps of such a
/// history have where its recordings do, and its report is then read as its trace.
pub fn ranges_are_small()
    ensures steps { RangesOfRecordings }
    ensures read { ReadsBackByRecordings }
{}

/// The numbers by which the commands of all recorders go alike, whatever limits these were made with, are the limits of every
/// device that has those which no script changes as they are by default.
pub fn recorders_go_by_limits()
    ensures { RecordersGoByLimits }
{}

/// In a history whose replies are the right ones what valid command buffers do lies in small ranges, and so do all
/// steps: within buffers, textures and query sets, which are within the limits of the device. So its report is read as
/// its trace, if there are numbers for its entries and its steps, as there are where the report has no more bytes than
/// the greatest number that the reader takes.
pub fn recordings_are_small()
    ensures recordings { RecordingsAreSmall }
    ensures steps { StepsAreSmall }
    ensures counts { ReadsBackByCounts }
    ensures length { ReadsBackByLength }
{}
