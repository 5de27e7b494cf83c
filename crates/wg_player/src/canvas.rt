//! A call of a canvas. What it asks is a call of the device, and where it asks nothing it is none.
ghost use Rattle.std.specs.Prelude.{◌≡◌, IfOk, OnOk, option_and_then};
ghost use Rattle.std.proofs.Common.{refl};
ghost use Rattle.wg_types.specs.declared.canvases.CanvasOf.TheVariants.{On};
ghost use Rattle.wg_canvas.specs.Canvases.{texture_of, act_asked, acted};
ghost use Rattle.wg_turn.specs.Passes.{own_of, number_of};
ghost use Rattle.wg_calls.specs.Calls.{event_asked};
ghost use Rattle.wg_device.specs.Fronts.{setup_of, CanCall, HasCalled};
ghost use Rattle.wg_script.specs.declared.calls.CallOf.TheVariants.{Canvas as OfCanvas};
ghost use Rattle.wg_play.specs.Canvases.{canvas_in, canvas_at, redrawn, canvas_asked, acted_at, shown_at};
ghost use Rattle.wg_play.specs.Sights.{SeesSame, sight_of, with_more};
ghost use Rattle.wg_player.specs.Drawing.{HasDrawnBy, not_called};
ghost use Rattle.wg_player.specs.Moves.{HasPlayedBy};

use std::sync::Wait;
use wg_canvas::{Canvas, Maker};
use wg_core::Event;
use wg_device::{Device, DevicePass};
use wg_entry::NoMemory;
use wg_play::{LaneSight, Object};
use wg_types::canvases::{CanvasCall, CanvasOf};
use wg_types::handles::Handle;
use wg_types::replies::Reply;
use wg_types::textures::TextureInfo;

/// A device with a caller's pass, which makes the textures of canvases and destroys them.
#[derive(Drop)]
struct Drawing<'a, T: Wait> {
    rt: &'a T,
    device: &'a Device,
    pass: &'a mut DevicePass,
}

impl<T: Wait> Maker for Drawing<'_, T> {
    type Event = Event;

    ghost event = { event_asked };

    ghost who = { λ m. number_of m.pass.now };

    ghost sent = { λ m. own_of m.pass.now };

    ghost device = { λ m. (setup_of m.device.now.lock).serial };

    ghost ready = { λ m. CanCall m.device.now.lock m.pass.now };

    ghost called = { λ old new. (new.device ≡ old.device) × (new.pass.ghost_name ≡ old.pass.ghost_name)
        × HasCalled old.device.now.lock old.pass.now new.pass.now };

    ghost idle = { λ m ready. (refl, refl, not_called m.device.now.lock m.pass.now ready) };

    #[tactic(auto, using(crate::proofs::Drawing::given))]
    fn create(&mut self, info: TextureInfo) -> Result<(Handle, Reply), NoMemory> {
        self.device.create_texture(self.rt, self.pass, info)
    }

    fn destroy(&mut self, texture: &Handle) -> Result<Reply, NoMemory> {
        self.device.destroy(self.rt, self.pass, texture)
    }
}

/// Calls a canvas.
#[tactic(auto, using(crate::proofs::Drawing::drawn_as))]
fn act(
    rt: &impl Wait,
    device: &Device,
    pass: &mut DevicePass,
    canvas: &mut Canvas,
    call: CanvasCall,
) -> Result<(), NoMemory>
    requires { CanCall device.now.lock pass.old }
    ensures called { HasCalled device.now.lock pass.old pass.new }
    ensures done { OnOk result (HasDrawnBy device.now.lock (act_asked canvas.old call) pass.old pass.new
        (λ given. canvas.new ≡ acted canvas.old call given)) }
{
    canvas.act(&mut Drawing { rt, device, pass }, call)?;
    Ok(())
}

/// Calls the canvas that an object is. What is none stays.
#[tactic(auto, using(crate::proofs::Drawing::drawn_in, crate::proofs::Drawing::undrawn))]
fn act_in(
    rt: &impl Wait,
    device: &Device,
    pass: &mut DevicePass,
    object: &mut Object,
    call: CanvasCall,
) -> Result<(), NoMemory>
    requires { CanCall device.now.lock pass.old }
    ensures called { HasCalled device.now.lock pass.old pass.new }
    ensures done { OnOk result (HasDrawnBy device.now.lock (option_and_then (λ canvas. act_asked canvas call) (canvas_in object.old)) pass.old pass.new
        (λ given. object.new ≡ redrawn object.old (λ canvas. acted canvas call given))) }
{
    match object {
        Object::Canvas(canvas) => act(rt, device, pass, canvas, call),
        Object::Made { .. } | Object::Pass { .. } | Object::Shown(_) => Ok(()),
    }
}

/// Calls the canvas at a place among what the lane has made.
#[tactic(auto, using(crate::proofs::Drawing::drawn_at, crate::proofs::Drawing::undrawn_past))]
fn act_on(
    rt: &impl Wait,
    device: &Device,
    pass: &mut DevicePass,
    own: &mut Vec<Object>,
    place: u32,
    call: CanvasCall,
) -> Result<(), NoMemory>
    requires { CanCall device.now.lock pass.old }
    ensures called { HasCalled device.now.lock pass.old pass.new }
    ensures done { OnOk result (HasDrawnBy device.now.lock (canvas_asked own.old.items place call) pass.old pass.new
        (λ given. own.new.items ≡ acted_at own.old.items place call given)) }
{
    let index = place as usize;
    if index >= own.len() {
        return Ok(());
    }
    act_in(rt, device, pass, &mut own[index], call)
}

/// The current texture of the canvas at a place among what the lane has made, if it has one.
fn texture_at(own: &[Object], place: u32) -> Result<Option<Handle>, NoMemory>
    ensures { IfOk result (λ texture. texture ≡ option_and_then texture_of (canvas_at own.now place)) }
{
    match own.get(place as usize) {
        Some(Object::Canvas(canvas)) => match canvas.texture() {
            Some(texture) => Ok(Some(texture.share()?)),
            None => Ok(None),
        },
        Some(Object::Made { .. } | Object::Pass { .. } | Object::Shown(_)) | None => Ok(None),
    }
}

/// Adds the texture that is current once the canvas at a place was called, where the call has a name for it.
fn show(
    seen: &mut LaneSight<'_>,
    place: u32,
    call: CanvasCall,
    made: Option<u32>,
) -> Result<(), NoMemory>
    ensures same { SeesSame seen.old seen.new }
    ensures shown { OnOk result (sight_of seen.new ≡ with_more (sight_of seen.old) (shown_at seen.old.own.items place call made)) }
{
    match (call, made) {
        (CanvasCall::Current, Some(_)) => {
            let texture = texture_at(seen.own.as_slice(), place)?;
            seen.add(Object::Shown(texture))
        }
        _ => Ok(()),
    }
}

/// Plays a call that asks something of a canvas.
#[tactic(auto, using(crate::proofs::Drawing::drawn_played))]
fn play_on(
    rt: &impl Wait,
    device: &Device,
    pass: &mut DevicePass,
    seen: &mut LaneSight<'_>,
    canvas: u32,
    call: CanvasCall,
    made: Option<u32>,
) -> Result<(), NoMemory>
    requires { CanCall device.now.lock pass.old }
    ensures called { HasCalled device.now.lock pass.old pass.new }
    ensures same { SeesSame seen.old seen.new }
    ensures played { OnOk result (HasPlayedBy device.now.lock seen.old seen.new (OfCanvas (On canvas call) made) pass.old pass.new) }
{
    let place = seen.place(canvas);
    act_on(rt, device, pass, &mut seen.own, place, call)?;
    show(seen, place, call, made)
}

/// Plays a call of a canvas.
#[tactic(auto, using(crate::proofs::Drawing::created_kept, crate::proofs::Drawing::unnamed_kept))]
pub fn play_canvas(
    rt: &impl Wait,
    device: &Device,
    pass: &mut DevicePass,
    seen: &mut LaneSight<'_>,
    call: &CanvasOf<u32>,
    made: Option<u32>,
) -> Result<(), NoMemory>
    requires { CanCall device.now.lock pass.old }
    ensures called { HasCalled device.now.lock pass.old pass.new }
    ensures same { SeesSame seen.old seen.new }
    ensures played { OnOk result (HasPlayedBy device.now.lock seen.old seen.new (OfCanvas call.now made) pass.old pass.new) }
{
    match call {
        CanvasOf::Create { width, height } => match made {
            Some(_) => seen.add(Object::Canvas(Canvas::new(*width, *height))),
            None => Ok(()),
        },
        CanvasOf::On { canvas, call } => play_on(rt, device, pass, seen, *canvas, *call, made),
    }
}
