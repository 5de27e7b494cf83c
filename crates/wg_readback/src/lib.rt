//! What is printed of a trace is read as that trace. The laws are the contracts of functions that do nothing.
#![tactic(auto)]

ghost use Rattle.wg_readback.specs.Laws.{ReadIsPrintable, ReadsBack, ReportReadsBack, TraceIsShaped};

/// A trace that has what the reader asks, printed behind a text that has no line `trace`, is read as
/// that trace; and so is the trace of a report. Each trace that is read has what the reader asks.
pub fn reads_back()
    ensures read { ReadsBack }
    ensures report { ReportReadsBack }
    ensures only { ReadIsPrintable }
{}

/// The trace of works has the shape that is read back, if their steps have it.
pub fn shapes_traces()
    ensures shaped { TraceIsShaped }
{}
