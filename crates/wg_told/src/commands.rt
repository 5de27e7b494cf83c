//! Which commands the arguments of the header stand for, over the numbers of objects. Each answers none where
//! a value is out of its range, so that the arguments stand for no command.
ghost use Rattle.std.specs.Prelude.{◌≡◌, IfOk};
ghost use Rattle.wg_types.specs.declared.commands.CommandOf.TheVariants as command;
ghost use Rattle.wg_told.specs.Asked as asked;
ghost use Rattle.wg_told.specs.Tables.{wide_of};

use crate::flats::{
    FlatBufferCopy, FlatColor, FlatDepth, FlatTexelCopy, FlatTextureCopy, FlatViewport,
};
use crate::meaning::{
    Colors, depth_target_of, every, extent_of, layout_of, origin_of, spot_of, viewport_of,
};
use crate::requests::objects;
use crate::tables::{INDEX_FORMATS, nth, wide_of};
use std::alloc::Global;
use wg_types::NoMemory;
use wg_types::commands::CommandOf;
use wg_types::items::Items;
use wg_types::render::RenderBeginOf;
use wg_types::shared::Shared;

pub fn begin_render_pass(
    alloc: Global,
    colors: &[FlatColor],
    depth: &FlatDepth,
    queries: u64,
    max_draws: u64,
) -> Result<Option<CommandOf<u64>>, NoMemory>
    ensures { IfOk result (λ made. made ≡ asked.begin_render_pass colors.now depth.now queries max_draws) }
{
    let Some(depth) = depth_target_of(depth) else {
        return Ok(None);
    };
    let Some(colors) = every(alloc, &Colors, colors)? else {
        return Ok(None);
    };
    let begin = RenderBeginOf {
        colors,
        depth,
        queries: wide_of(queries),
        max_draws: wide_of(max_draws),
    };
    Ok(Some(CommandOf::BeginRenderPass { begin }))
}

pub fn copy_buffer_to_buffer(copy: &FlatBufferCopy) -> CommandOf<u64>
    ensures { result ≡ asked.copy_buffer_to_buffer copy.now }
{
    CommandOf::CopyBufferToBuffer {
        source: copy.source,
        source_offset: copy.source_offset,
        target: copy.target,
        target_offset: copy.target_offset,
        size: copy.size,
    }
}

pub fn copy_buffer_to_texture(copy: &FlatTexelCopy) -> Option<CommandOf<u64>>
    ensures { result ≡ asked.copy_buffer_to_texture copy.now }
{
    let layout = layout_of(&copy.layout)?;
    let spot = spot_of(&copy.spot)?;
    Some(CommandOf::CopyBufferToTexture {
        buffer: copy.buffer,
        layout,
        texture: copy.spot.texture,
        spot,
        size: extent_of(copy.size),
    })
}

pub fn copy_texture_to_buffer(copy: &FlatTexelCopy) -> Option<CommandOf<u64>>
    ensures { result ≡ asked.copy_texture_to_buffer copy.now }
{
    let layout = layout_of(&copy.layout)?;
    let spot = spot_of(&copy.spot)?;
    Some(CommandOf::CopyTextureToBuffer {
        buffer: copy.buffer,
        layout,
        texture: copy.spot.texture,
        spot,
        size: extent_of(copy.size),
    })
}

pub fn copy_texture_to_texture(copy: &FlatTextureCopy) -> CommandOf<u64>
    ensures { result ≡ asked.copy_texture_to_texture copy.now }
{
    CommandOf::CopyTextureToTexture {
        source: copy.source,
        source_mip: copy.source_mip,
        source_origin: origin_of(copy.source_origin),
        target: copy.target,
        target_mip: copy.target_mip,
        target_origin: origin_of(copy.target_origin),
        size: extent_of(copy.size),
    }
}

pub fn set_bind_group(
    alloc: Global,
    index: u32,
    group: u64,
    offsets: &[u32],
) -> Result<CommandOf<u64>, NoMemory>
    ensures { IfOk result (λ made. made ≡ command.SetBindGroup index (wide_of group) offsets.now) }
{
    let offsets = Shared::new(alloc, Items::from_vec(offsets.to_vec(alloc)?))?;
    Ok(CommandOf::SetBindGroup {
        index,
        group: wide_of(group),
        offsets,
    })
}

pub fn set_index_buffer(buffer: u64, format: u32, offset: u64, size: u64) -> Option<CommandOf<u64>>
    ensures { result ≡ asked.set_index_buffer buffer format offset size }
{
    let format = nth(&INDEX_FORMATS, format)?;
    Some(CommandOf::SetIndexBuffer {
        buffer,
        format,
        offset,
        size: wide_of(size),
    })
}

pub fn set_viewport(viewport: &FlatViewport) -> Option<CommandOf<u64>>
    ensures { result ≡ asked.set_viewport viewport.now }
{
    let viewport = viewport_of(viewport)?;
    Some(CommandOf::SetViewport { viewport })
}

pub fn execute_bundles(alloc: Global, bundles: &[u64]) -> Result<CommandOf<u64>, NoMemory>
    ensures { IfOk result (λ made. made ≡ command.ExecuteBundles bundles.now) }
{
    Ok(CommandOf::ExecuteBundles {
        bundles: objects(alloc, bundles)?,
    })
}
