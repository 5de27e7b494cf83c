//! What the calls of a lane have made, each at its place. An encoder is one of either kind, a command
//! encoder or a bundle encoder, which has no passes. A canvas is one of the lane's own, and each name of a
//! texture of one is an object more.
ghost use Rattle.std.specs.Prelude.{◌≡◌, true, option_to_list, vec_len, vec_capacity, IfOk, OnOk, OnErr};
ghost use Rattle.std.specs.Option.{option_map, option_map_or};
ghost use Rattle.wg_play.specs.declared.objects.Object.TheVariants.{Pass};
ghost use Rattle.wg_encoder.specs.Recorders.{noted};
ghost use Rattle.wg_play.specs.Objects.{handle_at, reference_at, recorder_in, changed, stand_at, is_late_by, is_late_on, recorded_by, recorded_on, passes_at, begun_by, object_of};

use std::alloc::Global;
use std::sync::Arc;
use wg_calls::{is_begun, recorder_of};
use wg_canvas::Canvas;
use wg_encoder::{Noted, Recorder};
use wg_entry::NoMemory;
use wg_types::commands::{Command, On};
use wg_types::handles::{Handle, Info, ObjRef};
use wg_types::limits::Limits;

/// What a call has made: an object as its caller holds it, with the recorder of an encoder; a pass, by the
/// place of its encoder and its number there; a canvas; or a name for the texture of one, if it has one.
/// Passes and canvases are no objects of a device.
#[derive(Drop)]
pub enum Object {
    Made {
        handle: Handle,
        recorder: Option<Recorder>,
    },
    Pass {
        encoder: u32,
        number: u32,
    },
    Canvas(Canvas),
    Shown(Option<Handle>),
}

/// Where a recording call stands: the place of its encoder, and whether on that itself or on a pass of it.
#[derive(Clone, Copy)]
pub struct Stand {
    pub encoder: u32,
    pub on: On,
}

/// Stands for an object that was not made.
const UNKNOWN: ObjRef = ObjRef {
    device: 0,
    number: 0,
};

/// A handle of the object of a place.
pub fn handle_at(alloc: Global, objects: &[Object], place: u32) -> Result<Handle, NoMemory>
    ensures { IfOk result (λ handle. handle ≡ handle_at objects.now place) }
{
    match objects.get(place as usize) {
        Some(Object::Made { handle, .. } | Object::Shown(Some(handle))) => handle.share(),
        Some(Object::Pass { .. } | Object::Canvas(_) | Object::Shown(None)) | None => {
            Ok(Handle::new(UNKNOWN, false, Arc::new(alloc, Info::CommandBuffer)?))
        }
    }
}

/// Which object a place stands for.
pub fn reference_at(objects: &[Object], place: u32) -> ObjRef
    ensures { result ≡ reference_at objects.now place }
{
    match objects.get(place as usize) {
        Some(Object::Made { handle, .. } | Object::Shown(Some(handle))) => handle.reference(),
        Some(Object::Pass { .. } | Object::Canvas(_) | Object::Shown(None)) | None => UNKNOWN,
    }
}

/// Where a recording call stands that names a place.
pub fn stand_at(objects: &[Object], place: u32) -> Stand
    ensures { result ≡ stand_at objects.now place }
{
    match objects.get(place as usize) {
        Some(Object::Pass { encoder, number }) => Stand {
            encoder: *encoder,
            on: On::Pass(*number),
        },
        Some(Object::Made { .. } | Object::Canvas(_) | Object::Shown(_)) | None => Stand {
            encoder: place,
            on: On::Encoder,
        },
    }
}

/// Records a command on a recorder. On a pass that it has not begun the command is late.
#[tactic(auto, using(wg_calls::proofs::Begun::begun_on))]
fn record_by(recorder: &mut Recorder, on: On, command: Command) -> Result<Noted, NoMemory>
    ensures noted { IfOk result (λ answer. answer ≡ noted (is_late_by on recorder.old)) }
    ensures after { OnOk result (recorder.new ≡ recorded_by on command recorder.old) }
    ensures unchanged { OnErr result (recorder.new ≡ recorder.old) }
{
    if !is_begun(on, recorder.passes()) {
        drop(command);
        return Ok(Noted::Late);
    }
    recorder.record(on, command)
}

/// Records a command on the recorder of an object. Where it has none the command is late.
fn record_in(object: &mut Object, on: On, command: Command) -> Result<Noted, NoMemory>
    ensures noted { IfOk result (λ answer. answer ≡ noted (option_map_or (is_late_by on) (recorder_in object.old) true)) }
    ensures after { OnOk result (object.new ≡ changed object.old (recorded_by on command)) }
    ensures unchanged { OnErr result (object.new ≡ object.old) }
{
    match object {
        Object::Made {
            recorder: Some(recorder),
            ..
        } => record_by(recorder, on, command),
        Object::Made { recorder: None, .. }
        | Object::Pass { .. }
        | Object::Canvas(_)
        | Object::Shown(_) => {
            drop(command);
            Ok(Noted::Late)
        }
    }
}

/// Records a command where it stands, which takes no room among the objects.
pub fn record_on(
    objects: &mut Vec<Object>,
    stand: Stand,
    command: Command,
) -> Result<Noted, NoMemory>
    ensures noted { IfOk result (λ answer. answer ≡ noted (is_late_on objects.old.items stand)) }
    ensures after { OnOk result (objects.new.items ≡ recorded_on objects.old.items stand command) }
    ensures unchanged { OnErr result (objects.new.items ≡ objects.old.items) }
    ensures len { vec_len objects.new ≡ vec_len objects.old }
    ensures room { vec_capacity objects.new ≡ vec_capacity objects.old }
{
    let index = stand.encoder as usize;
    if index >= objects.len() {
        drop(command);
        return Ok(Noted::Late);
    }
    record_in(&mut objects[index], stand.on, command)
}

/// How many passes were begun on the encoder of a place.
fn passes_at(objects: &[Object], place: u32) -> u32
    ensures { result ≡ passes_at objects.now place }
{
    match objects.get(place as usize) {
        Some(
            Object::Made {
                recorder: Some(recorder),
                ..
            },
        ) => recorder.passes(),
        Some(
            Object::Made { recorder: None, .. }
            | Object::Pass { .. }
            | Object::Canvas(_)
            | Object::Shown(_),
        )
        | None => 0,
    }
}

/// The number of the pass that a command begins on the encoder of a place, where it begins one that has a
/// slot. It is asked before the command is recorded, and the pass is made after that.
pub fn begun_by(
    objects: &[Object],
    encoder: u32,
    command: &Command,
    made: Option<u32>,
) -> Option<u32>
    ensures { option_to_list (option_map (λ number. Pass encoder number) result) ≡ begun_by objects.now encoder command.now made }
{
    match (made, command.kind_begun()) {
        (Some(_), Some(_)) => Some(passes_at(objects, encoder)),
        _ => None,
    }
}

/// An object that a device with these limits made.
pub fn object_of(alloc: Global, handle: Handle, limits: &Limits) -> Result<Object, NoMemory>
    ensures { IfOk result (λ object. object ≡ object_of limits.now handle) }
{
    let recorder = recorder_of(alloc, handle.reference(), handle.info(), limits)?;
    Ok(Object::Made { handle, recorder })
}
