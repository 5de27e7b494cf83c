//! Which event each call of a device is.
ghost use Rattle.std.specs.Prelude.{◌≡◌, [], Some, true, IfOk};
ghost use Rattle.std.specs.Option.{is_some};
ghost use Rattle.wg_types.specs.Requests.{kind_made};
ghost use Rattle.wg_model.specs.Walk.{no_limits, no_targets};
ghost use Rattle.wg_history.specs.Entries.{effects_of};
ghost use Rattle.wg_history.specs.declared.events.Form.TheVariants.{Queue};
ghost use Rattle.wg_calls.specs.Calls.{reference_of, texture_if_valid, view_asked, event_asked};

use std::alloc::Global;
use wg_encoder::{Recorder, Recording, no_limits, no_targets};
use wg_entry::NoMemory;
use wg_formats::{no_texture, size_or_rest, texture_of};
use wg_history::events::Event;
use wg_textures::view_of;
use wg_types::bindings::map_entries;
use wg_types::handles::{Handle, ObjRef};
use wg_types::refs::{self, Find};
use wg_types::requests::RequestOf;
use wg_types::shared::Shared;
use wg_types::textures::{TextureInfo, ViewAsked, ViewDesc};

/// The objects of handles.
#[derive(Drop)]
pub struct References;

impl Find<Handle, ObjRef> for References {
    ghost finds = { λ _. reference_of };

    fn find(&self, object: &Handle) -> Result<ObjRef, NoMemory> {
        Ok(object.reference())
    }
}

/// What is known of a texture, if it is valid; of an invalid one nothing is.
fn known_texture(texture: &Handle) -> TextureInfo
    ensures { result ≡ texture_if_valid texture.now }
{
    if texture.valid() {
        texture_of(texture)
    } else {
        no_texture()
    }
}

/// What is asked of a view of a texture, with the parts that are left out.
pub fn view_asked(texture: &Handle, asked: ViewAsked) -> ViewDesc
    ensures { result ≡ view_asked texture.now asked }
{
    let known = known_texture(texture);
    view_of(&known, asked)
}

/// What a bundle encoder without a recorder hands over: no commands, which draw to nothing.
pub fn empty_bundle(alloc: Global, device: u64) -> Result<Recording, NoMemory>
    ensures { IfOk result (λ recording. recording ≡ record { maker = record { device = device; limits = no_limits }; targets = Some no_targets; commands = [] }) }
{
    let targets = Shared::new(alloc, no_targets(alloc))?;
    Ok(Recorder::bundle(alloc, device, targets, &no_limits()).take())
}

/// The event that a call is that makes an object.
fn making_asked(alloc: Global, request: &RequestOf<Handle>) -> Result<Event, NoMemory>
    requires { is_some (kind_made request.now) ≡ true }
    ensures { IfOk result (λ event. event ≡ event_asked request.now) }
{
    match request {
        RequestOf::CreateBuffer { info } => Ok(Event::CreateBuffer { info: *info }),
        RequestOf::CreateTexture { info } => Ok(Event::CreateTexture { info: *info }),
        RequestOf::CreateView { texture, asked } => Ok(Event::CreateView {
            texture: texture.reference(),
            desc: view_asked(texture, *asked),
        }),
        RequestOf::CreateSampler { desc } => Ok(Event::CreateSampler { desc: *desc }),
        RequestOf::CreateBindGroupLayout { entries } => Ok(Event::CreateBindGroupLayout {
            entries: entries.share()?,
        }),
        RequestOf::CreatePipelineLayout { layouts } => Ok(Event::CreatePipelineLayout {
            layouts: refs::map_maybes(alloc, &References, layouts.as_slice())?,
        }),
        RequestOf::CreateBindGroup { layout, entries } => Ok(Event::CreateBindGroup {
            layout: layout.reference(),
            entries: map_entries(alloc, &References, entries.as_slice())?,
        }),
        RequestOf::CreateComputePipeline { layout, iface } => Ok(Event::CreateComputePipeline {
            layout: refs::map_maybe(&References, layout)?,
            iface: iface.share()?,
        }),
        RequestOf::CreateRenderPipeline { layout, desc } => Ok(Event::CreateRenderPipeline {
            layout: refs::map_maybe(&References, layout)?,
            desc: desc.share()?,
        }),
        RequestOf::GetBindGroupLayout { pipeline, index } => Ok(Event::GetBindGroupLayout {
            pipeline: pipeline.reference(),
            index: *index,
        }),
        RequestOf::CreateQuerySet { info } => Ok(Event::CreateQuerySet { info: *info }),
        RequestOf::CreateEncoder => Ok(Event::CreateEncoder),
        RequestOf::CreateBundleEncoder { targets } => Ok(Event::CreateBundleEncoder {
            targets: targets.share()?,
        }),
        RequestOf::Finish { encoder } => {
            let encoder = encoder.reference();
            Ok(Event::Finish {
                encoder,
                recording: Recorder::new(alloc, encoder.device, &no_limits()).take(),
            })
        }
        RequestOf::FinishBundle { encoder } => {
            let encoder = encoder.reference();
            Ok(Event::FinishBundle {
                encoder,
                recording: empty_bundle(alloc, encoder.device)?,
            })
        }
        _ => unreachable!(),
    }
}

/// The event that a call of the queue is.
fn queue_asked(alloc: Global, request: &RequestOf<Handle>) -> Result<Event, NoMemory>
    requires { (effects_of (event_asked request.now)).form ≡ Queue }
    ensures { IfOk result (λ event. event ≡ event_asked request.now) }
{
    match request {
        RequestOf::Submit { buffers } => Ok(Event::Submit {
            buffers: refs::map_items(alloc, &References, buffers.as_slice())?,
        }),
        RequestOf::WriteBuffer {
            buffer,
            offset,
            size,
        } => Ok(Event::WriteBuffer {
            buffer: buffer.reference(),
            offset: *offset,
            size: *size,
        }),
        RequestOf::WriteTexture {
            texture,
            spot,
            layout,
            size,
            data_size,
        } => Ok(Event::WriteTexture {
            texture: texture.reference(),
            spot: *spot,
            layout: *layout,
            size: *size,
            data_size: *data_size,
        }),
        _ => unreachable!(),
    }
}

/// The event that a call of the device is. A finish and a finishBundle have no commands here: those of a
/// recorder are for who holds it to hand over.
pub fn event_asked(alloc: Global, request: &RequestOf<Handle>) -> Result<Event, NoMemory>
    ensures { IfOk result (λ event. event ≡ event_asked request.now) }
{
    match request {
        RequestOf::CreateBuffer { .. }
        | RequestOf::CreateTexture { .. }
        | RequestOf::CreateView { .. }
        | RequestOf::CreateSampler { .. }
        | RequestOf::CreateBindGroupLayout { .. }
        | RequestOf::CreatePipelineLayout { .. }
        | RequestOf::CreateBindGroup { .. }
        | RequestOf::CreateComputePipeline { .. }
        | RequestOf::CreateRenderPipeline { .. }
        | RequestOf::GetBindGroupLayout { .. }
        | RequestOf::CreateQuerySet { .. }
        | RequestOf::CreateEncoder
        | RequestOf::CreateBundleEncoder { .. }
        | RequestOf::Finish { .. }
        | RequestOf::FinishBundle { .. } => making_asked(alloc, request),
        RequestOf::Submit { .. } | RequestOf::WriteBuffer { .. } | RequestOf::WriteTexture { .. } =>
            queue_asked(alloc, request),
        RequestOf::Destroy { object } => Ok(Event::Destroy {
            object: object.reference(),
        }),
        RequestOf::Drop { object } => Ok(Event::Drop {
            object: object.reference(),
        }),
        RequestOf::Complete { op } => Ok(Event::Complete { op: *op }),
        RequestOf::PushErrorScope { filter } => Ok(Event::PushErrorScope { filter: *filter }),
        RequestOf::PopErrorScope => Ok(Event::PopErrorScope),
        RequestOf::Lose => Ok(Event::Lose),
        RequestOf::WorkDone => Ok(Event::WorkDone),
        RequestOf::MapAsync {
            buffer,
            mode,
            offset,
            size,
        } => Ok(Event::MapAsync {
            buffer: buffer.reference(),
            mode: *mode,
            offset: *offset,
            size: size_or_rest(buffer, *offset, *size),
        }),
        RequestOf::Unmap { buffer } => Ok(Event::Unmap {
            buffer: buffer.reference(),
        }),
    }
}
