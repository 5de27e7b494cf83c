//! The laws of the play, as the contracts of functions that do nothing.
ghost use Rattle.wg_play.specs.Found.{BoundIsFound, GatheredIsHeld};
ghost use Rattle.wg_play.specs.Kept.{StartsGenuine, TurnsGenuine, GathersGenuine};
ghost use Rattle.wg_play.specs.Late.{LateIsFinished};
ghost use Rattle.wg_play.specs.Played.{PlayInterleaves, PlayGoesThrough};
ghost use Rattle.wg_play.specs.Presented.{PresentsExpire};
ghost use Rattle.wg_play.specs.Through.{LanesGoThrough};

/// In each lane of a script whose names are bound, a recording call is late exactly where a call before it
/// in its lane finishes its encoder, or its pass has ended.
pub fn late_calls()
    ensures { LateIsFinished }
{}

/// In each lane of a script whose names are bound, each call finds what it uses, of a kind that will do. So
/// it does in every phase, since what a phase has made stands at its slots for the phases after it.
pub fn bound_calls()
    ensures found { BoundIsFound }
    ensures gathered { GatheredIsHeld }
{}

/// In a history each lane that gives its entries goes through its calls, each of which is kept or answered.
/// So the laws above speak of it.
pub fn lanes_through()
    ensures { LanesGoThrough }
{}

/// Every handle that a lane keeps is genuine in what has happened: so it is as a phase begins, if what was
/// gathered before is; it stays so at each turn; and what is gathered of the lanes is so again.
pub fn genuine_handles()
    ensures begins { StartsGenuine }
    ensures turns { TurnsGenuine }
    ensures gathers { GathersGenuine }
{}

/// Where an order of turns gives a history, its numbers are the callers of that, every reply is the one to
/// its event, and each phase's lanes give their entries. Where the script's names are bound, each of its
/// calls is played as what it is: kept, late or an event, with each name standing for what its call has
/// made; every handle that the lane sees is genuine in the history by then; and each encoder that is ended is
/// judged by the number and the limits of the device.
pub fn played_scripts()
    ensures interleaves { PlayInterleaves }
    ensures through { PlayGoesThrough }
{}

/// Where a script was played through, a texture that a canvas presented has expired: each later submit whose
/// command buffers use it and each later writeTexture of it answers Plain, on a device that is not lost with
/// the fault of rule 193 or 210 where no earlier rule is unmet. No drop names it, and a valid one is released
/// at the first entry, from its first destroy on, after which every operation that uses it is complete.
pub fn presented_textures()
    ensures { PresentsExpire }
{}
