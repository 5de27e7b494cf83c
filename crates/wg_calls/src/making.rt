//! What calls of a device make.
ghost use Rattle.std.specs.Prelude.{◌≡◌, IfOk, Some};
ghost use Rattle.std.specs.Arc.{arc_value};
ghost use Rattle.wg_calls.specs.Calls.{known_by, info_asked, finish_event, finished_info, handle_of};

use crate::asking::{References, empty_bundle, view_asked};
use std::alloc::Global;
use std::sync::Arc;
use wg_encoder::Recording;
use wg_entry::NoMemory;
use wg_groups::making::{
    Known, compute_made, group_layout_got, group_layout_made, group_made, pipeline_layout_made,
    render_made, view_made,
};
use wg_history::events::Event;
use wg_types::handles::{Handle, Info, ObjRef};
use wg_types::replies::Answer;
use wg_types::requests::RequestOf;
use wg_types::shared::Shared;

/// What handles know of their objects.
#[derive(Drop)]
struct Infos;

impl Known<Handle> for Infos {
    ghost knows = { λ _. known_by };

    fn info<'a>(&'a self, object: &'a Handle) -> Option<&'a Info> {
        Some(object.info())
    }
}

/// What is known of the object that a call of the device makes, if it makes one, by what the handles of
/// those that it names know. It takes memory for the lists of what a pipeline layout or a bind group is
/// made of, for the layouts that a pipeline derives, and for what is known of a bind group layout or a
/// bundle.
pub fn info_asked(alloc: Global, request: &RequestOf<Handle>) -> Result<Option<Info>, NoMemory>
    ensures { IfOk result (λ info. info ≡ info_asked request.now) }
{
    match request {
        RequestOf::CreateBuffer { info } => Ok(Some(Info::Buffer(*info))),
        RequestOf::CreateTexture { info } => Ok(Some(Info::Texture(*info))),
        RequestOf::CreateView { texture, asked } => {
            let desc = view_asked(texture, *asked);
            let info = view_made(&References, &Infos, texture, &desc)?;
            Ok(Some(Info::View(info)))
        }
        RequestOf::CreateSampler { desc } => Ok(Some(Info::Sampler(desc.kind()))),
        RequestOf::CreateBindGroupLayout { entries } => {
            let info = group_layout_made(entries.share()?);
            Ok(Some(Info::GroupLayout(Shared::new(alloc, info)?)))
        }
        RequestOf::CreatePipelineLayout { layouts } => {
            let info = pipeline_layout_made(alloc, &References, &Infos, layouts.as_slice())?;
            Ok(Some(Info::PipelineLayout(Shared::new(alloc, info)?)))
        }
        RequestOf::CreateBindGroup { layout, entries } => {
            let entries = entries.as_slice();
            let info = group_made(alloc, &References, &Infos, layout, entries)?;
            Ok(Some(Info::Group(info)))
        }
        RequestOf::CreateComputePipeline { layout, iface } => {
            let info = compute_made(alloc, &References, &Infos, layout, iface)?;
            Ok(Some(Info::Compute(info)))
        }
        RequestOf::CreateRenderPipeline { layout, desc } => {
            let info = render_made(alloc, &References, &Infos, layout, desc)?;
            Ok(Some(Info::Render(info)))
        }
        RequestOf::GetBindGroupLayout { pipeline, index } => {
            let info = group_layout_got(alloc, &References, &Infos, pipeline, *index)?;
            Ok(Some(Info::GroupLayout(Shared::new(alloc, info)?)))
        }
        RequestOf::CreateQuerySet { info } => Ok(Some(Info::Queries(*info))),
        RequestOf::CreateEncoder => Ok(Some(Info::Encoder)),
        RequestOf::CreateBundleEncoder { targets } => Ok(Some(Info::BundleEncoder(
            targets.share()?,
        ))),
        RequestOf::Finish { .. } => Ok(Some(Info::CommandBuffer)),
        RequestOf::FinishBundle { encoder } => {
            let recording = empty_bundle(alloc, encoder.reference().device)?;
            let info = recording.bundle_info(alloc)?;
            Ok(Some(Info::Bundle(Shared::new(alloc, info)?)))
        }
        RequestOf::Submit { .. }
        | RequestOf::WriteBuffer { .. }
        | RequestOf::WriteTexture { .. }
        | RequestOf::Destroy { .. }
        | RequestOf::Drop { .. }
        | RequestOf::Complete { .. }
        | RequestOf::PushErrorScope { .. }
        | RequestOf::PopErrorScope
        | RequestOf::Lose
        | RequestOf::WorkDone
        | RequestOf::MapAsync { .. }
        | RequestOf::Unmap { .. } => Ok(None),
    }
}

/// The handle of what an answer made, if it made something, of which so much is known. It takes no memory.
pub fn handle_of(serial: u64, info: Arc<Info>, answer: Answer) -> Option<Handle>
    ensures { result ≡ handle_of serial (arc_value info) answer }
{
    match answer {
        Answer::Made { number, valid } => {
            let reference = ObjRef {
                device: serial,
                number,
            };
            Some(Handle::new(reference, valid, info))
        }
        Answer::Queued(_) | Answer::Promised | Answer::Plain | Answer::BadCompletion => None,
    }
}

/// The event that ends an encoder with what its recorder hands over, be it a bundle encoder. It takes no
/// memory.
pub fn finish_event(encoder: ObjRef, recording: Recording) -> Event
    ensures { result ≡ finish_event recording.targets encoder recording }
{
    if recording.targets().is_none() {
        return Event::Finish { encoder, recording };
    }
    Event::FinishBundle { encoder, recording }
}

/// What is known of the object that this event makes.
pub fn finished_info(alloc: Global, recording: &Recording) -> Result<Info, NoMemory>
    ensures { IfOk result (λ info. info ≡ finished_info recording.now.targets recording.now) }
{
    if recording.targets().is_none() {
        return Ok(Info::CommandBuffer);
    }
    let info = recording.bundle_info(alloc)?;
    Ok(Info::Bundle(Shared::new(alloc, info)?))
}
