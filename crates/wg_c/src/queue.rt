//! The exports of the queue, of maps, of errors, and of what becomes of objects.
ghost use Rattle.std.specs.Prelude.{Some};
ghost use Rattle.wg_types.specs.declared.requests.RequestOf.TheVariants as request;
ghost use Rattle.wg_told.specs.Asked as asked;
ghost use Rattle.wg_told.specs.Tables.{wide_of};
ghost use Rattle.wg_c.specs.Exports.{Asks};

use crate::boundary::{ask, ask_made};
use crate::sealed::Device;
use std::alloc::Global;
use wg_told::flats::FlatTextureWrite;
use wg_told::{ToldReply, requests, wide_of};
use wg_types::requests::RequestOf;

/// Submits command buffers.
#[unsafe(no_mangle)]
pub extern "C" fn wethlorn_submit(
    alloc: Global,
    device: &mut Device,
    buffers: &[u64],
    out: &mut ToldReply,
) -> u32
    ensures { Asks (Some (request.Submit buffers.now)) device.old.inside device.new.inside out.old out.new result }
{
    ask_made(device, alloc, requests::submit(alloc, buffers), out)
}

/// Writes to a buffer.
#[unsafe(no_mangle)]
pub extern "C" fn wethlorn_write_buffer(
    alloc: Global,
    device: &mut Device,
    buffer: u64,
    offset: u64,
    size: u64,
    out: &mut ToldReply,
) -> u32
    ensures { Asks (Some (request.WriteBuffer buffer offset size)) device.old.inside device.new.inside out.old out.new result }
{
    ask(
        device,
        alloc,
        Ok(Some(RequestOf::WriteBuffer {
            buffer,
            offset,
            size,
        })),
        out,
    )
}

/// Writes to a texture.
#[unsafe(no_mangle)]
pub extern "C" fn wethlorn_write_texture(
    alloc: Global,
    device: &mut Device,
    write: &FlatTextureWrite,
    out: &mut ToldReply,
) -> u32
    ensures { Asks (asked.write_texture write.now) device.old.inside device.new.inside out.old out.new result }
{
    ask(device, alloc, Ok(requests::write_texture(write)), out)
}

/// Asks for a mapping.
#[unsafe(no_mangle)]
pub extern "C" fn wethlorn_map_async(
    alloc: Global,
    device: &mut Device,
    buffer: u64,
    mode: u32,
    offset: u64,
    size: u64,
    out: &mut ToldReply,
) -> u32
    ensures { Asks (Some (request.MapAsync buffer mode offset (wide_of size))) device.old.inside device.new.inside out.old out.new result }
{
    ask(
        device,
        alloc,
        Ok(Some(RequestOf::MapAsync {
            buffer,
            mode,
            offset,
            size: wide_of(size),
        })),
        out,
    )
}

/// Ends a mapping.
#[unsafe(no_mangle)]
pub extern "C" fn wethlorn_unmap(
    alloc: Global,
    device: &mut Device,
    buffer: u64,
    out: &mut ToldReply,
) -> u32
    ensures { Asks (Some (request.Unmap buffer)) device.old.inside device.new.inside out.old out.new result }
{
    ask(device, alloc, Ok(Some(RequestOf::Unmap { buffer })), out)
}

/// Destroys an object.
#[unsafe(no_mangle)]
pub extern "C" fn wethlorn_destroy(
    alloc: Global,
    device: &mut Device,
    object: u64,
    out: &mut ToldReply,
) -> u32
    ensures { Asks (Some (request.Destroy object)) device.old.inside device.new.inside out.old out.new result }
{
    ask(device, alloc, Ok(Some(RequestOf::Destroy { object })), out)
}

/// Lets go of an object.
#[unsafe(no_mangle)]
pub extern "C" fn wethlorn_drop(
    alloc: Global,
    device: &mut Device,
    object: u64,
    out: &mut ToldReply,
) -> u32
    ensures { Asks (Some (request.Drop object)) device.old.inside device.new.inside out.old out.new result }
{
    ask(device, alloc, Ok(Some(RequestOf::Drop { object })), out)
}

/// Says that operations are complete.
#[unsafe(no_mangle)]
pub extern "C" fn wethlorn_complete(
    alloc: Global,
    device: &mut Device,
    op: u64,
    out: &mut ToldReply,
) -> u32
    ensures { Asks (Some (request.Complete op)) device.old.inside device.new.inside out.old out.new result }
{
    ask(device, alloc, Ok(Some(RequestOf::Complete { op })), out)
}

/// Asks when the work is done.
#[unsafe(no_mangle)]
pub extern "C" fn wethlorn_work_done(alloc: Global, device: &mut Device, out: &mut ToldReply) -> u32
    ensures { Asks (Some request.WorkDone) device.old.inside device.new.inside out.old out.new result }
{
    ask(device, alloc, Ok(Some(RequestOf::WorkDone)), out)
}

/// Opens an error scope.
#[unsafe(no_mangle)]
pub extern "C" fn wethlorn_push_error_scope(
    alloc: Global,
    device: &mut Device,
    filter: u32,
    out: &mut ToldReply,
) -> u32
    ensures { Asks (asked.push_error_scope filter) device.old.inside device.new.inside out.old out.new result }
{
    ask(device, alloc, Ok(requests::push_error_scope(filter)), out)
}

/// Closes an error scope.
#[unsafe(no_mangle)]
pub extern "C" fn wethlorn_pop_error_scope(
    alloc: Global,
    device: &mut Device,
    out: &mut ToldReply,
) -> u32
    ensures { Asks (Some request.PopErrorScope) device.old.inside device.new.inside out.old out.new result }
{
    ask(device, alloc, Ok(Some(RequestOf::PopErrorScope)), out)
}

/// Says that the device is lost.
#[unsafe(no_mangle)]
pub extern "C" fn wethlorn_lose(alloc: Global, device: &mut Device, out: &mut ToldReply) -> u32
    ensures { Asks (Some request.Lose) device.old.inside device.new.inside out.old out.new result }
{
    ask(device, alloc, Ok(Some(RequestOf::Lose)), out)
}
