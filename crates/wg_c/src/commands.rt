//! The exports that record commands on encoders, and that begin and end passes.
ghost use Rattle.std.specs.Prelude.{Some};
ghost use Rattle.wg_types.specs.declared.commands.CommandOf.TheVariants as command;
ghost use Rattle.wg_told.specs.Asked as asked;
ghost use Rattle.wg_told.specs.Tables.{wide_of};
ghost use Rattle.wg_types.specs.declared.commands.On.TheVariants as on;
ghost use Rattle.wg_told.specs.Flats.{on_of};
ghost use Rattle.wg_c.specs.Exports.{Begins, Records};

use crate::boundary::{begin, record};
use crate::encoder::Encoder;
use crate::lent::Lent;
use std::alloc::Global;
use wg_told::flats::{FlatBufferCopy, FlatColor, FlatDepth, FlatTexelCopy, FlatTextureCopy};
use wg_told::{commands, wide_of};
use wg_types::commands::CommandOf;

/// Begins a compute pass.
#[unsafe(no_mangle)]
pub extern "C" fn wethlorn_begin_compute_pass(
    alloc: Global,
    device: &Lent,
    encoder: &mut Encoder,
    out: &mut u32,
) -> u32
    ensures { Begins (Some command.BeginComputePass) device.now.inside encoder.old.inside encoder.new.inside out.old out.new result }
{
    begin(
        device,
        encoder,
        alloc,
        Ok(Some(CommandOf::BeginComputePass)),
        out,
    )
}

/// Begins a render pass.
#[unsafe(no_mangle)]
pub extern "C" fn wethlorn_begin_render_pass(
    alloc: Global,
    device: &Lent,
    encoder: &mut Encoder,
    colors: &[FlatColor],
    depth: &FlatDepth,
    queries: u64,
    max_draws: u64,
    out: &mut u32,
) -> u32
    ensures { Begins (asked.begin_render_pass colors.now depth.now queries max_draws) device.now.inside encoder.old.inside encoder.new.inside out.old out.new result }
{
    begin(
        device,
        encoder,
        alloc,
        commands::begin_render_pass(alloc, colors, depth, queries, max_draws),
        out,
    )
}

/// Ends a pass.
#[unsafe(no_mangle)]
pub extern "C" fn wethlorn_end(
    alloc: Global,
    device: &Lent,
    encoder: &mut Encoder,
    pass: u32,
) -> u32
    ensures { Records (Some command.End) (on_of pass) device.now.inside encoder.old.inside encoder.new.inside result }
{
    record(device, encoder, alloc, pass, Ok(Some(CommandOf::End)))
}

/// Opens a debug group.
#[unsafe(no_mangle)]
pub extern "C" fn wethlorn_push_debug_group(
    alloc: Global,
    device: &Lent,
    encoder: &mut Encoder,
    pass: u32,
) -> u32
    ensures { Records (Some command.PushDebugGroup) (on_of pass) device.now.inside encoder.old.inside encoder.new.inside result }
{
    record(
        device,
        encoder,
        alloc,
        pass,
        Ok(Some(CommandOf::PushDebugGroup)),
    )
}

/// Closes a debug group.
#[unsafe(no_mangle)]
pub extern "C" fn wethlorn_pop_debug_group(
    alloc: Global,
    device: &Lent,
    encoder: &mut Encoder,
    pass: u32,
) -> u32
    ensures { Records (Some command.PopDebugGroup) (on_of pass) device.now.inside encoder.old.inside encoder.new.inside result }
{
    record(
        device,
        encoder,
        alloc,
        pass,
        Ok(Some(CommandOf::PopDebugGroup)),
    )
}

/// Marks a place.
#[unsafe(no_mangle)]
pub extern "C" fn wethlorn_insert_debug_marker(
    alloc: Global,
    device: &Lent,
    encoder: &mut Encoder,
    pass: u32,
) -> u32
    ensures { Records (Some command.InsertDebugMarker) (on_of pass) device.now.inside encoder.old.inside encoder.new.inside result }
{
    record(
        device,
        encoder,
        alloc,
        pass,
        Ok(Some(CommandOf::InsertDebugMarker)),
    )
}

/// Records a copy of bytes.
#[unsafe(no_mangle)]
pub extern "C" fn wethlorn_copy_buffer_to_buffer(
    alloc: Global,
    device: &Lent,
    encoder: &mut Encoder,
    copy: &FlatBufferCopy,
) -> u32
    ensures { Records (Some (asked.copy_buffer_to_buffer copy.now)) on.Encoder device.now.inside encoder.old.inside encoder.new.inside result }
{
    record(
        device,
        encoder,
        alloc,
        u32::MAX,
        Ok(Some(commands::copy_buffer_to_buffer(copy))),
    )
}

/// Records a copy from a buffer to a texture.
#[unsafe(no_mangle)]
pub extern "C" fn wethlorn_copy_buffer_to_texture(
    alloc: Global,
    device: &Lent,
    encoder: &mut Encoder,
    copy: &FlatTexelCopy,
) -> u32
    ensures { Records (asked.copy_buffer_to_texture copy.now) on.Encoder device.now.inside encoder.old.inside encoder.new.inside result }
{
    record(
        device,
        encoder,
        alloc,
        u32::MAX,
        Ok(commands::copy_buffer_to_texture(copy)),
    )
}

/// Records a copy from a texture to a buffer.
#[unsafe(no_mangle)]
pub extern "C" fn wethlorn_copy_texture_to_buffer(
    alloc: Global,
    device: &Lent,
    encoder: &mut Encoder,
    copy: &FlatTexelCopy,
) -> u32
    ensures { Records (asked.copy_texture_to_buffer copy.now) on.Encoder device.now.inside encoder.old.inside encoder.new.inside result }
{
    record(
        device,
        encoder,
        alloc,
        u32::MAX,
        Ok(commands::copy_texture_to_buffer(copy)),
    )
}

/// Records a copy between textures.
#[unsafe(no_mangle)]
pub extern "C" fn wethlorn_copy_texture_to_texture(
    alloc: Global,
    device: &Lent,
    encoder: &mut Encoder,
    copy: &FlatTextureCopy,
) -> u32
    ensures { Records (Some (asked.copy_texture_to_texture copy.now)) on.Encoder device.now.inside encoder.old.inside encoder.new.inside result }
{
    record(
        device,
        encoder,
        alloc,
        u32::MAX,
        Ok(Some(commands::copy_texture_to_texture(copy))),
    )
}

/// Records that bytes are set to zero.
#[unsafe(no_mangle)]
pub extern "C" fn wethlorn_clear_buffer(
    alloc: Global,
    device: &Lent,
    encoder: &mut Encoder,
    buffer: u64,
    offset: u64,
    size: u64,
) -> u32
    ensures { Records (Some (command.ClearBuffer buffer offset (wide_of size))) on.Encoder device.now.inside encoder.old.inside encoder.new.inside result }
{
    record(
        device,
        encoder,
        alloc,
        u32::MAX,
        Ok(Some(CommandOf::ClearBuffer {
            buffer,
            offset,
            size: wide_of(size),
        })),
    )
}

/// Records that results of queries are written to a buffer.
#[unsafe(no_mangle)]
pub extern "C" fn wethlorn_resolve_query_set(
    alloc: Global,
    device: &Lent,
    encoder: &mut Encoder,
    queries: u64,
    first: u32,
    count: u32,
    buffer: u64,
    offset: u64,
) -> u32
    ensures { Records (Some (command.ResolveQuerySet queries first count buffer offset)) on.Encoder device.now.inside encoder.old.inside encoder.new.inside result }
{
    record(
        device,
        encoder,
        alloc,
        u32::MAX,
        Ok(Some(CommandOf::ResolveQuerySet {
            queries,
            first,
            count,
            buffer,
            offset,
        })),
    )
}
