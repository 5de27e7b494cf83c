//! One call of a lane.
ghost use Rattle.std.specs.Prelude.{◌≡◌, Some, None, IfOk, OnOk};
ghost use Rattle.wg_calls.specs.Calls.{event_asked, info_asked, taken_out};
ghost use Rattle.wg_device.specs.Fronts.{CanCall, HasCalled};
ghost use Rattle.wg_script.specs.declared.calls.CallOf.TheVariants.{Record, Ask};
ghost use Rattle.wg_play.specs.Lanes.{event_sent, info_sent, finish_by, finish_known, taken_by};
ghost use Rattle.wg_play.specs.Objects.{changed, recorder_in, recorder_at, taken_on};
ghost use Rattle.wg_play.specs.Sights.{SeesSame, sight_of};
ghost use Rattle.wg_player.specs.Moves.{HasAskedBy, HasPlayedBy};

use crate::canvas::play_canvas;
use std::sync::Wait;
use wg_calls::ended_by;
use wg_device::{Device, DevicePass};
use wg_encoder::{Noted, Recorder};
use wg_entry::NoMemory;
use wg_play::{LaneSight, Object, command_of, note_command, reference_at, request_of, stand_at};
use wg_script::BoundCall;
use wg_types::commands::CommandOf;
use wg_types::handles::Handle;
use wg_types::requests::RequestOf;

/// Plays a recording call: its encoder's recorder keeps the command, or it is late, and that is an event.
#[tactic(auto, using(crate::proofs::Calls::late_on, crate::proofs::Calls::kept_on))]
fn play_command(
    rt: &impl Wait,
    device: &Device,
    pass: &mut DevicePass,
    seen: &mut LaneSight<'_>,
    on: u32,
    command: &CommandOf<u32>,
    made: Option<u32>,
) -> Result<(), NoMemory>
    requires { CanCall device.now.lock pass.old }
    ensures called { HasCalled device.now.lock pass.old pass.new }
    ensures same { SeesSame seen.old seen.new }
    ensures played { OnOk result (HasPlayedBy device.now.lock seen.old seen.new (Record on command.now made) pass.old pass.new) }
{
    let alloc = *seen.own.allocator();
    let stand = stand_at(seen.own.as_slice(), seen.place(on));
    let command = command_of(alloc, seen, command)?;
    let encoder = reference_at(seen.own.as_slice(), stand.encoder);
    match note_command(seen, stand, command, made)? {
        Noted::Kept => Ok(()),
        Noted::Late => {
            device.late(rt, pass, encoder)?;
            Ok(())
        }
    }
}

/// Asks the device for what a call asks.
#[tactic(auto, using(crate::proofs::Calls::asked_as))]
fn ask(
    rt: &impl Wait,
    device: &Device,
    pass: &mut DevicePass,
    asked: &RequestOf<Handle>,
) -> Result<Option<Handle>, NoMemory>
    requires { CanCall device.now.lock pass.old }
    ensures called { HasCalled device.now.lock pass.old pass.new }
    ensures done { IfOk result (λ handle. HasAskedBy device.now.lock (event_asked asked.now) (info_asked asked.now) handle pass.old pass.new) }
{
    let (handle, _) = device.ask(rt, pass, asked)?;
    Ok(handle)
}

/// Ends the encoder of a recorder, be it a bundle encoder.
fn finish(
    rt: &impl Wait,
    device: &Device,
    pass: &mut DevicePass,
    recorder: &mut Recorder,
    asked: &RequestOf<Handle>,
) -> Result<Option<Handle>, NoMemory>
    requires { CanCall device.now.lock pass.old }
    ensures called { HasCalled device.now.lock pass.old pass.new }
    ensures done { IfOk result (λ handle. HasAskedBy device.now.lock
        (finish_by (Some recorder.old) (event_asked asked.now)) (finish_known (Some recorder.old) (info_asked asked.now)) handle pass.old pass.new) }
    ensures taken { OnOk result (recorder.new ≡ taken_out recorder.old) }
{
    if recorder.encoder().is_none() {
        recorder.take();
        return ask(rt, device, pass, asked);
    }
    let (handle, _) = device.finish(rt, pass, recorder)?;
    Ok(Some(handle))
}

/// Ends the encoder that an object is.
fn finish_in(
    rt: &impl Wait,
    device: &Device,
    pass: &mut DevicePass,
    object: &mut Object,
    asked: &RequestOf<Handle>,
) -> Result<Option<Handle>, NoMemory>
    requires { CanCall device.now.lock pass.old }
    ensures called { HasCalled device.now.lock pass.old pass.new }
    ensures done { IfOk result (λ handle. HasAskedBy device.now.lock
        (finish_by (recorder_in object.old) (event_asked asked.now)) (finish_known (recorder_in object.old) (info_asked asked.now)) handle pass.old pass.new) }
    ensures taken { OnOk result (object.new ≡ changed object.old taken_out) }
{
    match object {
        Object::Made {
            recorder: Some(recorder),
            ..
        } => finish(rt, device, pass, recorder, asked),
        Object::Made { recorder: None, .. }
        | Object::Pass { .. }
        | Object::Canvas(_)
        | Object::Shown(_) => ask(rt, device, pass, asked),
    }
}

/// Ends the encoder at a place among what the lane has made.
fn finish_on(
    rt: &impl Wait,
    device: &Device,
    pass: &mut DevicePass,
    own: &mut Vec<Object>,
    place: u32,
    asked: &RequestOf<Handle>,
) -> Result<Option<Handle>, NoMemory>
    requires { CanCall device.now.lock pass.old }
    ensures called { HasCalled device.now.lock pass.old pass.new }
    ensures done { IfOk result (λ handle. HasAskedBy device.now.lock
        (finish_by (recorder_at own.old.items place) (event_asked asked.now)) (finish_known (recorder_at own.old.items place) (info_asked asked.now)) handle pass.old pass.new) }
    ensures taken { OnOk result (own.new.items ≡ taken_on own.old.items place) }
{
    let index = place as usize;
    if index >= own.len() {
        return ask(rt, device, pass, asked);
    }
    finish_in(rt, device, pass, &mut own[index], asked)
}

/// Asks the device for what a call asks, or ends the encoder that the call ends. What that kept is taken.
fn send_request(
    rt: &impl Wait,
    device: &Device,
    pass: &mut DevicePass,
    seen: &mut LaneSight<'_>,
    request: &RequestOf<u32>,
) -> Result<Option<Handle>, NoMemory>
    requires { CanCall device.now.lock pass.old }
    ensures called { HasCalled device.now.lock pass.old pass.new }
    ensures same { SeesSame seen.old seen.new }
    ensures done { IfOk result (λ handle. HasAskedBy device.now.lock
        (event_sent (sight_of seen.old) request.now) (info_sent (sight_of seen.old) request.now) handle pass.old pass.new) }
    ensures taken { OnOk result (sight_of seen.new ≡ taken_by (sight_of seen.old) (Ask request.now None)) }
{
    let alloc = *seen.own.allocator();
    let asked = request_of(alloc, seen, request)?;
    match ended_by(request) {
        Some(encoder) => {
            let place = seen.place(encoder);
            finish_on(rt, device, pass, &mut seen.own, place, &asked)
        }
        None => ask(rt, device, pass, &asked),
    }
}

/// Plays a call of the device.
#[tactic(auto, using(crate::proofs::Calls::sent_made, crate::proofs::Calls::sent_plain))]
fn play_request(
    rt: &impl Wait,
    device: &Device,
    pass: &mut DevicePass,
    seen: &mut LaneSight<'_>,
    request: &RequestOf<u32>,
    made: Option<u32>,
) -> Result<(), NoMemory>
    requires { CanCall device.now.lock pass.old }
    ensures called { HasCalled device.now.lock pass.old pass.new }
    ensures same { SeesSame seen.old seen.new }
    ensures played { OnOk result (HasPlayedBy device.now.lock seen.old seen.new (Ask request.now made) pass.old pass.new) }
{
    let alloc = *seen.own.allocator();
    let handle = send_request(rt, device, pass, seen, request)?;
    match made {
        Some(_) => {
            seen.add_handle(alloc, handle, device.limits())?;
            Ok(())
        }
        None => Ok(()),
    }
}

/// Plays one call.
pub fn play_call(
    rt: &impl Wait,
    device: &Device,
    pass: &mut DevicePass,
    seen: &mut LaneSight<'_>,
    call: &BoundCall,
) -> Result<(), NoMemory>
    requires { CanCall device.now.lock pass.old }
    ensures called { HasCalled device.now.lock pass.old pass.new }
    ensures same { SeesSame seen.old seen.new }
    ensures played { OnOk result (HasPlayedBy device.now.lock seen.old seen.new call.now pass.old pass.new) }
{
    match call {
        BoundCall::Record { on, command, made } => {
            play_command(rt, device, pass, seen, *on, command, *made)
        }
        BoundCall::Ask { request, made } => play_request(rt, device, pass, seen, request, *made),
        BoundCall::Canvas { call, made } => play_canvas(rt, device, pass, seen, call, *made),
    }
}
