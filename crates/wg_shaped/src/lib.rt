//! The traces of histories have the shape that is read back. The laws are the contracts of functions that do nothing.
#![tactic(auto)]

ghost use Rattle.wg_shaped.specs.Bundled.{BundlesAreKnown, BundlesTouchWhatTheyName, HistoryTouchesWhatItNames, TexturesHaveCells, TouchesAreKnown};
ghost use Rattle.wg_shaped.specs.Nulls.{BundlesDrawTheirDraws, ExecutedBundlesAdd, HistoryDrawsItsDraws, NullLayoutsAreBare, NullUnsetsGroup, NullUnsetsVertex, OnlyGivenAreReferred};
ghost use Rattle.wg_shaped.specs.Once.{HistoryIsOnce, RecordedAreOnce};
ghost use Rattle.wg_shaped.specs.Shaped.{HistoryIsShaped, HistoryReadsBack, StepsAreFilled};

/// No step of a recording gives a cell twice whose usage scopes are compatible, where what its handles
/// tell of views and bundles is fair; so none of a history does, if its replies are the right ones.
pub fn steps_are_once()
    ensures recorded { RecordedAreOnce }
    ensures history { HistoryIsOnce }
{}

/// No step of a history has an empty row or an empty set. If its replies are the right ones, its trace
/// has the shape that is read back, and what is printed of the history and its trace is read as that
/// trace, if its numbers are small enough.
pub fn traces_are_shaped()
    ensures filled { StepsAreFilled }
    ensures shaped { HistoryIsShaped }
    ensures read { HistoryReadsBack }
{}

/// A bundle is known by what its commands touch, where each of these may stand on a bundle encoder and
/// none has an unmet rule: each part has the same set of usages, and each cell is accessed in the same
/// ways; of a texture they use no part of which they access no cell. The resources that it is known to
/// touch are those that its commands name, where the bind groups that they set are whole too, as they are
/// in each valid bundle of a history whose replies are the right ones.
pub fn bundles_are_known()
    ensures touches { TouchesAreKnown }
    ensures bundles { BundlesAreKnown }
    ensures textures { TexturesHaveCells }
    ensures named { BundlesTouchWhatTheyName }
    ensures history { HistoryTouchesWhatItNames }
{}

/// Null as a bind group or as a vertex buffer unsets what is set at its index or in its slot, and nothing else. What was set
/// before stays among what the pass or the bundle touches.
pub fn nulls_unset()
    ensures groups { NullUnsetsGroup }
    ensures buffers { NullUnsetsVertex }
{}

/// A null layout of a pipeline layout is one of no entry, which is exclusive to no pipeline: any bind group may be set at its
/// index, or none, and nothing that is bound there is touched. The pipeline layout refers to no object for it.
pub fn null_layouts()
    ensures bare { NullLayoutsAreBare }
    ensures referred { OnlyGivenAreReferred }
{}

/// A bundle draws as often as it has commands that draw, as each valid one does of a history whose replies are the right ones,
/// and a pass that executes it draws as often more.
pub fn bundles_draw()
    ensures own { BundlesDrawTheirDraws }
    ensures history { HistoryDrawsItsDraws }
    ensures executed { ExecutedBundlesAdd }
{}
