//! What commands do, as deeds, and the steps of queue writes and host accesses, with uses and accesses as
//! they are printed; what bundles touch; usage scopes.
#![tactic(auto)]

mod bundled;
mod deeds;
mod scopes;
mod touches;
mod touching;

ghost use Rattle.std.specs.Prelude.{◌≡◌, Some, IfOk, IfSome};
ghost use Rattle.wg_model.specs.Touches.{touching};
ghost use Rattle.wg_model.specs.Recorded.{write_step, host_usage, host_kind, host_name, host_touches, host_step};
ghost use Rattle.wg_model.specs.StepLaws.{IsOwnStep};
ghost use Rattle.wg_access.specs.Ranges.{IsInRange};

pub use bundled::{bundle_touch, bundle_touches};
pub use deeds::encoder_deed;
pub use scopes::{scope_clash, scope_of};
use std::alloc::Global;
use touches::{copied_to, range_touches};
pub use touching::deed_of;
use wg_formats::has_no_texel;
use wg_types::NoMemory;
use wg_types::mappings::{MapMode, Mapping};
use wg_types::parts::{AccessKind, Cells};
use wg_types::steps::{Deed, Step, StepName, StepPlace, Touch};
use wg_types::usages::Usages;
use wg_types::writes::QueueWrite;

/// The step that touches these, of which there is one.
fn one_step(
    alloc: Global,
    place: StepPlace,
    name: StepName,
    touches: &[Touch],
) -> Result<Option<Step>, NoMemory>
    ensures { IfOk result (λ step. step ≡ Some (touching place name touches.now)) }
{
    let Deed {
        name,
        uses,
        accesses,
    } = deed_of(alloc, name, touches)?;
    Ok(Some(Step {
        place,
        name,
        uses,
        accesses,
    }))
}

/// The step of a queue write, if it makes one.
fn queued_step(
    alloc: Global,
    write: &QueueWrite,
    place: StepPlace,
) -> Result<Option<Step>, NoMemory>
    requires { IsInRange write.now }
    ensures { IfOk result (λ step. step ≡ write_step place write.now) }
{
    match *write {
        QueueWrite::Buffer {
            buffer,
            offset,
            size,
        } => {
            if size == 0 {
                return Ok(None);
            }
            let end = offset + size;
            let touches = range_touches(buffer.number, offset, end);
            return one_step(alloc, place, StepName::WriteBuffer, &touches);
        }
        QueueWrite::Texture {
            texture,
            info,
            spot,
            size,
            ..
        } => {
            if has_no_texel(size) {
                return Ok(None);
            }
            let touches = copied_to(alloc, texture.number, &info, &spot, size)?;
            return one_step(alloc, place, StepName::WriteTexture, touches.as_slice());
        }
    }
}

/// The step of a queue write at this place, or none where its size is 0. Layers that end past every
/// number, which no write has that meets its rules, are answered as want of memory.
pub fn write_step(
    alloc: Global,
    write: &QueueWrite,
    place: StepPlace,
) -> Result<Option<Step>, NoMemory>
    requires { IsInRange write.now }
    ensures step { IfOk result (λ step. step ≡ write_step place write.now) }
    ensures declared { IfOk result (λ step. IfSome step (λ s. IsOwnStep s)) }
{
    let step = queued_step(alloc, write, place)?;
    Ok(step)
}

/// How the host uses the bytes of a mapping.
fn host_usage(mode: MapMode) -> Usages
    ensures { result ≡ host_usage mode }
{
    match mode {
        MapMode::Read => Usages::HOST_READ,
        MapMode::Write => Usages::HOST_WRITE,
    }
}

/// How the host accesses the bytes of a mapping. One for writing shows what the buffer had, and gives
/// it back whole.
fn host_kind(mode: MapMode) -> AccessKind
    ensures { result ≡ host_kind mode }
{
    match mode {
        MapMode::Read => AccessKind::Read,
        MapMode::Write => AccessKind::Both,
    }
}

/// What the host's access to the bytes of a mapping is called.
fn host_name(mode: MapMode) -> StepName
    ensures { result ≡ host_name mode }
{
    match mode {
        MapMode::Read => StepName::HostRead,
        MapMode::Write => StepName::HostWrite,
    }
}

/// What the host's access to the bytes of a mapping touches.
fn host_touches(buffer: u64, mapping: &Mapping) -> [Touch; 1]
    ensures { result ≡ host_touches buffer mapping.now }
{
    let cells = Cells::Bytes {
        object: buffer,
        lo: mapping.lo,
        hi: mapping.hi,
    };
    [(cells, (host_usage(mapping.mode), host_kind(mapping.mode)))]
}

/// The step of the host's access to the bytes of a mapping, if there are any.
fn accessed_step(
    alloc: Global,
    buffer: u64,
    mapping: &Mapping,
    place: StepPlace,
) -> Result<Option<Step>, NoMemory>
    ensures { IfOk result (λ step. step ≡ host_step place buffer mapping.now) }
{
    if mapping.lo == mapping.hi {
        return Ok(None);
    }
    let touches = host_touches(buffer, mapping);
    one_step(alloc, place, host_name(mapping.mode), &touches)
}

/// The step of the host's access to the bytes of a mapping at this place, or none where it has no bytes
/// (WebGPU, "Buffer Mapping").
#[tactic(auto, using(wg_model::proofs::StepLaws::host_is_declared))]
pub fn host_step(
    alloc: Global,
    buffer: u64,
    mapping: &Mapping,
    place: StepPlace,
) -> Result<Option<Step>, NoMemory>
    ensures step { IfOk result (λ step. step ≡ host_step place buffer mapping.now) }
    ensures declared { IfOk result (λ step. IfSome step (λ s. IsOwnStep s)) }
{
    let step = accessed_step(alloc, buffer, mapping, place)?;
    Ok(step)
}
