//! The exports that record what passes and bundles set and run.
ghost use Rattle.std.specs.Prelude.{Some};
ghost use Rattle.wg_types.specs.declared.commands.CommandOf.TheVariants as command;
ghost use Rattle.wg_told.specs.Asked as asked;
ghost use Rattle.wg_told.specs.Tables.{wide_of};
ghost use Rattle.wg_told.specs.Flats.{on_of};
ghost use Rattle.wg_c.specs.Exports.{Records};

use crate::boundary::{record, record_made};
use crate::encoder::Encoder;
use crate::lent::Lent;
use std::alloc::Global;
use wg_told::flats::FlatViewport;
use wg_told::{commands, wide_of};
use wg_types::commands::CommandOf;

/// Sets a pipeline.
#[unsafe(no_mangle)]
pub extern "C" fn wethlorn_set_pipeline(
    alloc: Global,
    device: &Lent,
    encoder: &mut Encoder,
    pass: u32,
    pipeline: u64,
) -> u32
    ensures { Records (Some (command.SetPipeline pipeline)) (on_of pass) device.now.inside encoder.old.inside encoder.new.inside result }
{
    record(
        device,
        encoder,
        alloc,
        pass,
        Ok(Some(CommandOf::SetPipeline { pipeline })),
    )
}

/// Sets a bind group, or unsets the one that is set.
#[unsafe(no_mangle)]
pub extern "C" fn wethlorn_set_bind_group(
    alloc: Global,
    device: &Lent,
    encoder: &mut Encoder,
    pass: u32,
    index: u32,
    group: u64,
    offsets: &[u32],
) -> u32
    ensures { Records (Some (command.SetBindGroup index (wide_of group) offsets.now)) (on_of pass) device.now.inside encoder.old.inside encoder.new.inside result }
{
    record_made(
        device,
        encoder,
        alloc,
        pass,
        commands::set_bind_group(alloc, index, group, offsets),
    )
}

/// Records a dispatch.
#[unsafe(no_mangle)]
pub extern "C" fn wethlorn_dispatch(
    alloc: Global,
    device: &Lent,
    encoder: &mut Encoder,
    pass: u32,
    x: u32,
    y: u32,
    z: u32,
) -> u32
    ensures { Records (Some (command.Dispatch x y z)) (on_of pass) device.now.inside encoder.old.inside encoder.new.inside result }
{
    record(
        device,
        encoder,
        alloc,
        pass,
        Ok(Some(CommandOf::Dispatch { x, y, z })),
    )
}

/// Records a dispatch whose counts stand in a buffer.
#[unsafe(no_mangle)]
pub extern "C" fn wethlorn_dispatch_indirect(
    alloc: Global,
    device: &Lent,
    encoder: &mut Encoder,
    pass: u32,
    buffer: u64,
    offset: u64,
) -> u32
    ensures { Records (Some (command.DispatchIndirect buffer offset)) (on_of pass) device.now.inside encoder.old.inside encoder.new.inside result }
{
    record(
        device,
        encoder,
        alloc,
        pass,
        Ok(Some(CommandOf::DispatchIndirect { buffer, offset })),
    )
}

/// Sets a vertex buffer, or unsets the one that is set.
#[unsafe(no_mangle)]
pub extern "C" fn wethlorn_set_vertex_buffer(
    alloc: Global,
    device: &Lent,
    encoder: &mut Encoder,
    pass: u32,
    slot: u32,
    buffer: u64,
    offset: u64,
    size: u64,
) -> u32
    ensures { Records (Some (command.SetVertexBuffer slot (wide_of buffer) offset (wide_of size))) (on_of pass) device.now.inside encoder.old.inside encoder.new.inside result }
{
    record(
        device,
        encoder,
        alloc,
        pass,
        Ok(Some(CommandOf::SetVertexBuffer {
            slot,
            buffer: wide_of(buffer),
            offset,
            size: wide_of(size),
        })),
    )
}

/// Sets the index buffer.
#[unsafe(no_mangle)]
pub extern "C" fn wethlorn_set_index_buffer(
    alloc: Global,
    device: &Lent,
    encoder: &mut Encoder,
    pass: u32,
    buffer: u64,
    format: u32,
    offset: u64,
    size: u64,
) -> u32
    ensures { Records (asked.set_index_buffer buffer format offset size) (on_of pass) device.now.inside encoder.old.inside encoder.new.inside result }
{
    record(
        device,
        encoder,
        alloc,
        pass,
        Ok(commands::set_index_buffer(buffer, format, offset, size)),
    )
}

/// Records a draw.
#[unsafe(no_mangle)]
pub extern "C" fn wethlorn_draw(
    alloc: Global,
    device: &Lent,
    encoder: &mut Encoder,
    pass: u32,
    vertices: u32,
    instances: u32,
    first_vertex: u32,
    first_instance: u32,
) -> u32
    ensures { Records (Some (command.Draw vertices instances first_vertex first_instance)) (on_of pass) device.now.inside encoder.old.inside encoder.new.inside result }
{
    record(
        device,
        encoder,
        alloc,
        pass,
        Ok(Some(CommandOf::Draw {
            vertices,
            instances,
            first_vertex,
            first_instance,
        })),
    )
}

/// Records a draw by the index buffer.
#[unsafe(no_mangle)]
pub extern "C" fn wethlorn_draw_indexed(
    alloc: Global,
    device: &Lent,
    encoder: &mut Encoder,
    pass: u32,
    indices: u32,
    instances: u32,
    first_index: u32,
    first_instance: u32,
) -> u32
    ensures { Records (Some (command.DrawIndexed indices instances first_index first_instance)) (on_of pass) device.now.inside encoder.old.inside encoder.new.inside result }
{
    record(
        device,
        encoder,
        alloc,
        pass,
        Ok(Some(CommandOf::DrawIndexed {
            indices,
            instances,
            first_index,
            first_instance,
        })),
    )
}

/// Records a draw whose numbers stand in a buffer.
#[unsafe(no_mangle)]
pub extern "C" fn wethlorn_draw_indirect(
    alloc: Global,
    device: &Lent,
    encoder: &mut Encoder,
    pass: u32,
    buffer: u64,
    offset: u64,
) -> u32
    ensures { Records (Some (command.DrawIndirect buffer offset)) (on_of pass) device.now.inside encoder.old.inside encoder.new.inside result }
{
    record(
        device,
        encoder,
        alloc,
        pass,
        Ok(Some(CommandOf::DrawIndirect { buffer, offset })),
    )
}

/// Records an indexed draw whose numbers stand in a buffer.
#[unsafe(no_mangle)]
pub extern "C" fn wethlorn_draw_indexed_indirect(
    alloc: Global,
    device: &Lent,
    encoder: &mut Encoder,
    pass: u32,
    buffer: u64,
    offset: u64,
) -> u32
    ensures { Records (Some (command.DrawIndexedIndirect buffer offset)) (on_of pass) device.now.inside encoder.old.inside encoder.new.inside result }
{
    record(
        device,
        encoder,
        alloc,
        pass,
        Ok(Some(CommandOf::DrawIndexedIndirect { buffer, offset })),
    )
}

/// Sets the viewport.
#[unsafe(no_mangle)]
pub extern "C" fn wethlorn_set_viewport(
    alloc: Global,
    device: &Lent,
    encoder: &mut Encoder,
    pass: u32,
    viewport: &FlatViewport,
) -> u32
    ensures { Records (asked.set_viewport viewport.now) (on_of pass) device.now.inside encoder.old.inside encoder.new.inside result }
{
    record(
        device,
        encoder,
        alloc,
        pass,
        Ok(commands::set_viewport(viewport)),
    )
}

/// Sets the scissor rectangle.
#[unsafe(no_mangle)]
pub extern "C" fn wethlorn_set_scissor_rect(
    alloc: Global,
    device: &Lent,
    encoder: &mut Encoder,
    pass: u32,
    x: u32,
    y: u32,
    width: u32,
    height: u32,
) -> u32
    ensures { Records (Some (command.SetScissorRect x y width height)) (on_of pass) device.now.inside encoder.old.inside encoder.new.inside result }
{
    record(
        device,
        encoder,
        alloc,
        pass,
        Ok(Some(CommandOf::SetScissorRect {
            x,
            y,
            width,
            height,
        })),
    )
}

/// Sets the blend constant, which is no matter of this call.
#[unsafe(no_mangle)]
pub extern "C" fn wethlorn_set_blend_constant(
    alloc: Global,
    device: &Lent,
    encoder: &mut Encoder,
    pass: u32,
) -> u32
    ensures { Records (Some command.SetBlendConstant) (on_of pass) device.now.inside encoder.old.inside encoder.new.inside result }
{
    record(
        device,
        encoder,
        alloc,
        pass,
        Ok(Some(CommandOf::SetBlendConstant)),
    )
}

/// Sets the stencil reference, which is no matter of this call.
#[unsafe(no_mangle)]
pub extern "C" fn wethlorn_set_stencil_reference(
    alloc: Global,
    device: &Lent,
    encoder: &mut Encoder,
    pass: u32,
) -> u32
    ensures { Records (Some command.SetStencilReference) (on_of pass) device.now.inside encoder.old.inside encoder.new.inside result }
{
    record(
        device,
        encoder,
        alloc,
        pass,
        Ok(Some(CommandOf::SetStencilReference)),
    )
}

/// Begins an occlusion query.
#[unsafe(no_mangle)]
pub extern "C" fn wethlorn_begin_occlusion_query(
    alloc: Global,
    device: &Lent,
    encoder: &mut Encoder,
    pass: u32,
    index: u32,
) -> u32
    ensures { Records (Some (command.BeginOcclusionQuery index)) (on_of pass) device.now.inside encoder.old.inside encoder.new.inside result }
{
    record(
        device,
        encoder,
        alloc,
        pass,
        Ok(Some(CommandOf::BeginOcclusionQuery { index })),
    )
}

/// Ends an occlusion query.
#[unsafe(no_mangle)]
pub extern "C" fn wethlorn_end_occlusion_query(
    alloc: Global,
    device: &Lent,
    encoder: &mut Encoder,
    pass: u32,
) -> u32
    ensures { Records (Some command.EndOcclusionQuery) (on_of pass) device.now.inside encoder.old.inside encoder.new.inside result }
{
    record(
        device,
        encoder,
        alloc,
        pass,
        Ok(Some(CommandOf::EndOcclusionQuery)),
    )
}

/// Executes bundles.
#[unsafe(no_mangle)]
pub extern "C" fn wethlorn_execute_bundles(
    alloc: Global,
    device: &Lent,
    encoder: &mut Encoder,
    pass: u32,
    bundles: &[u64],
) -> u32
    ensures { Records (Some (command.ExecuteBundles bundles.now)) (on_of pass) device.now.inside encoder.old.inside encoder.new.inside result }
{
    record_made(
        device,
        encoder,
        alloc,
        pass,
        commands::execute_bundles(alloc, bundles),
    )
}
