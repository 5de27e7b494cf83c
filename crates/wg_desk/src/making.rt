//! What a call will make, prepared before the event is sent.
ghost use Rattle.std.specs.Prelude.{◌≡◌, IfOk, option_map, option_and_then};
ghost use Rattle.std.specs.Arc.{arc_value};
ghost use Rattle.wg_calls.specs.Calls.{handle_of};
ghost use Rattle.wg_calls.specs.Encoders.{recorder_of};
ghost use Rattle.wg_desk.specs.Seats.{seat_of};

use crate::seats::Seat;
use std::alloc::Global;
use std::sync::Arc;
use wg_calls::{handle_of, recorder_of};
use wg_encoder::Recorder;
use wg_entry::NoMemory;
use wg_types::handles::{Info, ObjRef};
use wg_types::limits::Limits;
use wg_types::replies::Answer;

/// What handles will share of an object, if something is known of one.
pub fn keep(alloc: Global, info: Option<Info>) -> Result<Option<Arc<Info>>, NoMemory>
    ensures { IfOk result (λ kept. option_map arc_value kept ≡ info) }
{
    match info {
        Some(info) => Ok(Some(Arc::new(alloc, info)?)),
        None => Ok(None),
    }
}

/// The recorder of the object that a device with these limits will make, of which so much is known, if that will
/// be an encoder.
pub fn recorder_coming(
    alloc: Global,
    reference: ObjRef,
    info: &Option<Info>,
    limits: &Limits,
) -> Result<Option<Recorder>, NoMemory>
    ensures { IfOk result (λ recorder. recorder ≡ option_and_then (λ known. recorder_of limits.now reference known) info.now) }
{
    match info {
        Some(info) => recorder_of(alloc, reference, info, limits),
        None => Ok(None),
    }
}

/// The seat of what an answer made, where so much of it was kept. It takes no memory.
pub fn seat_from(serial: u64, kept: Option<Arc<Info>>, answer: Answer) -> Option<Seat>
    ensures { result ≡ option_map seat_of (option_and_then (λ known. handle_of serial known answer) (option_map arc_value kept)) }
{
    let Some(info) = kept else {
        return None;
    };
    match handle_of(serial, info, answer) {
        Some(handle) => Some(Seat {
            handle: Some(handle),
        }),
        None => None,
    }
}
