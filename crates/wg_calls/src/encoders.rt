//! Encoders of either kind, command encoders and bundle encoders: which of them a call ends, the recorder of a
//! new one, and the passes that were begun on it.
ghost use Rattle.std.specs.Prelude.{◌≡◌, IfOk};
ghost use Rattle.wg_calls.specs.Calls.{opened_for, opened_with};
ghost use Rattle.wg_calls.specs.Encoders.{ended_by, recorder_of, is_begun};

use std::alloc::Global;
use wg_encoder::{Recorder, command_limits};
use wg_entry::NoMemory;
use wg_types::commands::On;
use wg_types::handles::{Info, ObjRef};
use wg_types::limits::Limits;
use wg_types::render::TargetInfo;
use wg_types::requests::RequestOf;
use wg_types::shared::Shared;

/// The encoder that a call of the device ends, if it ends one.
pub fn ended_by<R: Copy>(request: &RequestOf<R>) -> Option<R>
    ensures { result ≡ ended_by request.now }
{
    match request {
        RequestOf::Finish { encoder } | RequestOf::FinishBundle { encoder } => Some(*encoder),
        _ => None,
    }
}

/// A recorder that is open for an encoder of a device with these limits. Whether this is valid is for its finish
/// to tell. It takes no memory.
pub fn recorder_for(alloc: Global, encoder: ObjRef, limits: &Limits) -> Recorder
    ensures { result ≡ opened_for limits.now encoder }
{
    let mut recorder = Recorder::new(alloc, encoder.device, &command_limits(limits));
    recorder.open(encoder, true);
    recorder
}

/// A recorder that is open for a bundle encoder of a device with these limits, which draws to these targets. It
/// takes no memory.
pub fn bundle_recorder_for(
    alloc: Global,
    encoder: ObjRef,
    targets: Shared<TargetInfo>,
    limits: &Limits,
) -> Recorder
    ensures { result ≡ opened_with limits.now targets encoder }
{
    let mut recorder = Recorder::bundle(alloc, encoder.device, targets, &command_limits(limits));
    recorder.open(encoder, true);
    recorder
}

/// The recorder of a new object of a device with these limits, of which this is known, if it is an encoder.
pub fn recorder_of(
    alloc: Global,
    object: ObjRef,
    info: &Info,
    limits: &Limits,
) -> Result<Option<Recorder>, NoMemory>
    ensures { IfOk result (λ recorder. recorder ≡ recorder_of limits.now object info.now) }
{
    match info {
        Info::Encoder => Ok(Some(recorder_for(alloc, object, limits))),
        Info::BundleEncoder(targets) => {
            let targets = targets.share()?;
            Ok(Some(bundle_recorder_for(alloc, object, targets, limits)))
        }
        Info::Buffer(_)
        | Info::Texture(_)
        | Info::View(_)
        | Info::Sampler(_)
        | Info::GroupLayout(_)
        | Info::PipelineLayout(_)
        | Info::Group(_)
        | Info::Compute(_)
        | Info::Render(_)
        | Info::Queries(_)
        | Info::CommandBuffer
        | Info::Bundle(_) => Ok(None),
    }
}

/// Whether what a command stands on was begun, where so many passes were.
pub fn is_begun(on: On, passes: u32) -> bool
    ensures { result ≡ is_begun on passes }
{
    match on {
        On::Encoder => true,
        On::Pass(number) => number < passes,
    }
}
