//! What the commands on an encoder do, a step each. A copy, a clear or a resolve of nothing makes none.
ghost use Rattle.std.specs.Prelude.{◌≡◌, Some, IfOk};
ghost use Rattle.std.specs.Option.{option_map};
ghost use Rattle.wg_types.specs.declared.commands.CommandOf.TheVariants.{CopyBufferToBuffer, CopyBufferToTexture, CopyTextureToBuffer, CopyTextureToTexture, ClearBuffer, ResolveQuerySet};
ghost use Rattle.wg_model.specs.Touches.{deed_of, encoder_does};

use crate::touches::{
    buffer_to_buffer_touches, buffer_to_texture_touches, end_of, range_touches,
    resolve_set_touches, texture_to_buffer_touches, texture_to_texture_touches,
};
use crate::touching::deed_of;
use std::alloc::Global;
use wg_formats::{has_no_texel, size_or_rest, texture_of, whole_spot};
use wg_types::NoMemory;
use wg_types::commands::Command;
use wg_types::handles::Handle;
use wg_types::steps::{Deed, StepName, Touch};
use wg_types::textures::{DataLayout, TextureSpot};

/// What is done by a step of this name that touches these, of which there is one.
fn one_deed(alloc: Global, name: StepName, touches: &[Touch]) -> Result<Option<Deed>, NoMemory>
    ensures { IfOk result (λ deed. deed ≡ Some (deed_of (name, touches.now))) }
{
    let deed = deed_of(alloc, name, touches)?;
    Ok(Some(deed))
}

/// What a copy of bytes does.
#[tactic(auto, unfolding(wg_model::specs::Touches::encoder_does))]
fn buffer_to_buffer(
    alloc: Global,
    source: &Handle,
    source_offset: u64,
    target: &Handle,
    target_offset: u64,
    size: u64,
) -> Result<Option<Deed>, NoMemory>
    ensures { IfOk result (λ deed. deed ≡ option_map deed_of (encoder_does (CopyBufferToBuffer source.now source_offset target.now target_offset size))) }
{
    if size == 0 {
        return Ok(None);
    }
    let from = (source.reference().number, source_offset);
    let to = (target.reference().number, target_offset);
    let touches = buffer_to_buffer_touches(from, to, size)?;
    one_deed(alloc, StepName::CopyBufferToBuffer, &touches)
}

/// What a copy from a buffer to a texture does.
#[tactic(auto, unfolding(wg_model::specs::Touches::encoder_does))]
fn buffer_to_texture(
    alloc: Global,
    buffer: &Handle,
    layout: &DataLayout,
    texture: &Handle,
    spot: &TextureSpot,
    size: [u32; 3],
) -> Result<Option<Deed>, NoMemory>
    ensures { IfOk result (λ deed. deed ≡ option_map deed_of (encoder_does (CopyBufferToTexture buffer.now layout.now texture.now spot.now size))) }
{
    if has_no_texel(size) {
        return Ok(None);
    }
    let from = buffer.reference().number;
    let to = texture.reference().number;
    let info = texture_of(texture);
    let touches = buffer_to_texture_touches(alloc, from, layout, to, &info, spot, size)?;
    one_deed(alloc, StepName::CopyBufferToTexture, touches.as_slice())
}

/// What a copy from a texture to a buffer does.
#[tactic(auto, unfolding(wg_model::specs::Touches::encoder_does))]
fn texture_to_buffer(
    alloc: Global,
    buffer: &Handle,
    layout: &DataLayout,
    texture: &Handle,
    spot: &TextureSpot,
    size: [u32; 3],
) -> Result<Option<Deed>, NoMemory>
    ensures { IfOk result (λ deed. deed ≡ option_map deed_of (encoder_does (CopyTextureToBuffer buffer.now layout.now texture.now spot.now size))) }
{
    if has_no_texel(size) {
        return Ok(None);
    }
    let from = texture.reference().number;
    let to = buffer.reference().number;
    let info = texture_of(texture);
    let touches = texture_to_buffer_touches(alloc, to, layout, from, &info, spot, size)?;
    one_deed(alloc, StepName::CopyTextureToBuffer, touches.as_slice())
}

/// What a copy from a mip level and origin of a texture to those of another does.
#[tactic(auto, unfolding(wg_model::specs::Touches::encoder_does))]
fn texture_to_texture(
    alloc: Global,
    source: &Handle,
    from: (u32, [u32; 3]),
    target: &Handle,
    to: (u32, [u32; 3]),
    size: [u32; 3],
) -> Result<Option<Deed>, NoMemory>
    ensures { IfOk result (λ deed. deed ≡ option_map deed_of (encoder_does (CopyTextureToTexture source.now from.0 from.1 target.now to.0 to.1 size))) }
{
    if has_no_texel(size) {
        return Ok(None);
    }
    let touches = texture_to_texture_touches(
        alloc,
        source.reference().number,
        &texture_of(source),
        &whole_spot(from.0, from.1),
        target.reference().number,
        &texture_of(target),
        &whole_spot(to.0, to.1),
        size,
    )?;
    one_deed(alloc, StepName::CopyTextureToTexture, touches.as_slice())
}

/// What a clear of a range does. Without a size it goes up to the buffer's end.
#[tactic(auto, unfolding(wg_model::specs::Touches::encoder_does))]
fn clear_buffer(
    alloc: Global,
    buffer: &Handle,
    offset: u64,
    size: Option<u64>,
) -> Result<Option<Deed>, NoMemory>
    ensures { IfOk result (λ deed. deed ≡ option_map deed_of (encoder_does (ClearBuffer buffer.now offset size))) }
{
    let size = size_or_rest(buffer, offset, size);
    if size == 0 {
        return Ok(None);
    }
    let end = end_of(offset, size)?;
    let touches = range_touches(buffer.reference().number, offset, end);
    one_deed(alloc, StepName::ClearBuffer, &touches)
}

/// What a resolve of queries does.
#[tactic(auto, unfolding(wg_model::specs::Touches::encoder_does))]
fn resolve_query_set(
    alloc: Global,
    queries: &Handle,
    first: u32,
    count: u32,
    buffer: &Handle,
    offset: u64,
) -> Result<Option<Deed>, NoMemory>
    ensures { IfOk result (λ deed. deed ≡ option_map deed_of (encoder_does (ResolveQuerySet queries.now first count buffer.now offset))) }
{
    if count == 0 {
        return Ok(None);
    }
    let from = (queries.reference().number, first);
    let to = (buffer.reference().number, offset);
    let touches = resolve_set_touches(from, count, to)?;
    one_deed(alloc, StepName::ResolveQuerySet, &touches)
}

/// What a command on an encoder does, if it makes a step. A range of bytes, layers or queries that ends
/// past every number, which no command has that meets its rules, is answered as want of memory.
#[tactic(auto, unfolding(wg_model::specs::Touches::encoder_does))]
pub fn encoder_deed(alloc: Global, command: &Command) -> Result<Option<Deed>, NoMemory>
    ensures { IfOk result (λ deed. deed ≡ option_map deed_of (encoder_does command.now)) }
{
    match command {
        Command::CopyBufferToBuffer {
            source,
            source_offset,
            target,
            target_offset,
            size,
        } => {
            return buffer_to_buffer(alloc, source, *source_offset, target, *target_offset, *size);
        }
        Command::CopyBufferToTexture {
            buffer,
            layout,
            texture,
            spot,
            size,
        } => return buffer_to_texture(alloc, buffer, layout, texture, spot, *size),
        Command::CopyTextureToBuffer {
            buffer,
            layout,
            texture,
            spot,
            size,
        } => return texture_to_buffer(alloc, buffer, layout, texture, spot, *size),
        Command::CopyTextureToTexture {
            source,
            source_mip,
            source_origin,
            target,
            target_mip,
            target_origin,
            size,
        } => {
            let from = (*source_mip, *source_origin);
            let to = (*target_mip, *target_origin);
            return texture_to_texture(alloc, source, from, target, to, *size);
        }
        Command::ClearBuffer {
            buffer,
            offset,
            size,
        } => return clear_buffer(alloc, buffer, *offset, *size),
        Command::ResolveQuerySet {
            queries,
            first,
            count,
            buffer,
            offset,
        } => return resolve_query_set(alloc, queries, *first, *count, buffer, *offset),
        _ => return Ok(None),
    }
}
