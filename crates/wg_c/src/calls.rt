//! The exports that make objects.
ghost use Rattle.std.specs.Prelude.{Some, map};
ghost use Rattle.wg_types.specs.declared.requests.RequestOf.TheVariants as request;
ghost use Rattle.wg_told.specs.Asked as asked;
ghost use Rattle.wg_told.specs.Tables.{wide_of};
ghost use Rattle.wg_c.specs.Exports.{Asks};

use crate::boundary::{ask, ask_made};
use crate::sealed::Device;
use std::alloc::Global;
use wg_told::flats::{
    FlatAttribute, FlatBuffer, FlatGroupEntry, FlatIfaceEntry, FlatLayoutEntry, FlatRender,
    FlatSampler, FlatTarget, FlatTexture, FlatVertexBuffer, FlatView,
};
use wg_told::{ToldReply, requests};
use wg_types::handles::QueriesInfo;
use wg_types::requests::RequestOf;

/// Makes a buffer.
#[unsafe(no_mangle)]
pub extern "C" fn wethlorn_create_buffer(
    alloc: Global,
    device: &mut Device,
    desc: &FlatBuffer,
    out: &mut ToldReply,
) -> u32
    ensures { Asks (asked.create_buffer desc.now) device.old.inside device.new.inside out.old out.new result }
{
    ask(device, alloc, Ok(requests::create_buffer(desc)), out)
}

/// Makes a texture.
#[unsafe(no_mangle)]
pub extern "C" fn wethlorn_create_texture(
    alloc: Global,
    device: &mut Device,
    desc: &FlatTexture,
    out: &mut ToldReply,
) -> u32
    ensures { Asks (asked.create_texture desc.now) device.old.inside device.new.inside out.old out.new result }
{
    ask(device, alloc, Ok(requests::create_texture(desc)), out)
}

/// Makes a view.
#[unsafe(no_mangle)]
pub extern "C" fn wethlorn_create_view(
    alloc: Global,
    device: &mut Device,
    texture: u64,
    desc: &FlatView,
    out: &mut ToldReply,
) -> u32
    ensures { Asks (asked.create_view texture desc.now) device.old.inside device.new.inside out.old out.new result }
{
    ask(device, alloc, Ok(requests::create_view(texture, desc)), out)
}

/// Makes a sampler of a kind.
#[unsafe(no_mangle)]
pub extern "C" fn wethlorn_create_sampler(
    alloc: Global,
    device: &mut Device,
    kind: u32,
    out: &mut ToldReply,
) -> u32
    ensures { Asks (asked.create_sampler kind) device.old.inside device.new.inside out.old out.new result }
{
    ask(device, alloc, Ok(requests::create_sampler(kind)), out)
}

/// Makes a sampler by what describes it.
#[unsafe(no_mangle)]
pub extern "C" fn wethlorn_create_described_sampler(
    alloc: Global,
    device: &mut Device,
    desc: &FlatSampler,
    out: &mut ToldReply,
) -> u32
    ensures { Asks (asked.create_described_sampler desc.now) device.old.inside device.new.inside out.old out.new result }
{
    ask(
        device,
        alloc,
        Ok(requests::create_described_sampler(desc)),
        out,
    )
}

/// Makes a bind group layout.
#[unsafe(no_mangle)]
pub extern "C" fn wethlorn_create_bind_group_layout(
    alloc: Global,
    device: &mut Device,
    entries: &[FlatLayoutEntry],
    out: &mut ToldReply,
) -> u32
    ensures { Asks (asked.create_bind_group_layout entries.now) device.old.inside device.new.inside out.old out.new result }
{
    ask(
        device,
        alloc,
        requests::create_bind_group_layout(alloc, entries),
        out,
    )
}

/// Makes a pipeline layout, of layouts of which each may be left out.
#[unsafe(no_mangle)]
pub extern "C" fn wethlorn_create_pipeline_layout(
    alloc: Global,
    device: &mut Device,
    layouts: &[u64],
    out: &mut ToldReply,
) -> u32
    ensures { Asks (Some (request.CreatePipelineLayout (map wide_of layouts.now))) device.old.inside device.new.inside out.old out.new result }
{
    ask_made(
        device,
        alloc,
        requests::create_pipeline_layout(alloc, layouts),
        out,
    )
}

/// Makes a bind group.
#[unsafe(no_mangle)]
pub extern "C" fn wethlorn_create_bind_group(
    alloc: Global,
    device: &mut Device,
    layout: u64,
    entries: &[FlatGroupEntry],
    out: &mut ToldReply,
) -> u32
    ensures { Asks (asked.create_bind_group layout entries.now) device.old.inside device.new.inside out.old out.new result }
{
    ask(
        device,
        alloc,
        requests::create_bind_group(alloc, layout, entries),
        out,
    )
}

/// Makes a compute pipeline.
#[unsafe(no_mangle)]
pub extern "C" fn wethlorn_create_compute_pipeline(
    alloc: Global,
    device: &mut Device,
    layout: u64,
    iface: &[FlatIfaceEntry],
    out: &mut ToldReply,
) -> u32
    ensures { Asks (asked.create_compute_pipeline layout iface.now) device.old.inside device.new.inside out.old out.new result }
{
    ask(
        device,
        alloc,
        requests::create_compute_pipeline(alloc, layout, iface),
        out,
    )
}

/// Makes a render pipeline.
#[unsafe(no_mangle)]
pub extern "C" fn wethlorn_create_render_pipeline(
    alloc: Global,
    device: &mut Device,
    desc: &FlatRender,
    iface: &[FlatIfaceEntry],
    buffers: &[FlatVertexBuffer],
    attributes: &[FlatAttribute],
    targets: &[FlatTarget],
    out: &mut ToldReply,
) -> u32
    ensures { Asks (asked.create_render_pipeline desc.now iface.now buffers.now attributes.now targets.now) device.old.inside device.new.inside out.old out.new result }
{
    ask(
        device,
        alloc,
        requests::create_render_pipeline(alloc, desc, iface, buffers, attributes, targets),
        out,
    )
}

/// Gets the bind group layout of a pipeline.
#[unsafe(no_mangle)]
pub extern "C" fn wethlorn_get_bind_group_layout(
    alloc: Global,
    device: &mut Device,
    pipeline: u64,
    index: u32,
    out: &mut ToldReply,
) -> u32
    ensures { Asks (Some (request.GetBindGroupLayout pipeline index)) device.old.inside device.new.inside out.old out.new result }
{
    ask(
        device,
        alloc,
        Ok(Some(RequestOf::GetBindGroupLayout { pipeline, index })),
        out,
    )
}

/// Makes a query set.
#[unsafe(no_mangle)]
pub extern "C" fn wethlorn_create_query_set(
    alloc: Global,
    device: &mut Device,
    count: u32,
    out: &mut ToldReply,
) -> u32
    ensures { Asks (Some (request.CreateQuerySet (record { count = count }))) device.old.inside device.new.inside out.old out.new result }
{
    ask(
        device,
        alloc,
        Ok(Some(RequestOf::CreateQuerySet {
            info: QueriesInfo { count },
        })),
        out,
    )
}
