//! Reads the calls on textures: a function for each, with its keys.
ghost use Rattle.std.specs.Prelude.{◌≡◌};
ghost use Rattle.wg_json.specs.View.{view};
ghost use Rattle.wg_script.specs.Giving.{Gives};
ghost use Rattle.wg_script.specs.TextureCalls.{view_asked_keys, layout_keys, spot_keys, create_texture_of, create_view_of, write_texture_of, texel_copy_of, copy_buffer_to_texture_of, copy_texture_to_buffer_of, copy_texture_to_texture_of};

use crate::calling::{asking, making, recording};
use crate::calls::Call;
use crate::labels::made_in;
use crate::lists::{triple_at, triple_or_zero};
use crate::name::Name;
use crate::texture_words::{ASPECTS, FORMATS, TEXTURE_DIMS, VIEW_DIMS};
use crate::values::{
    MOST_WHOLE, Refusal, check_keys, name_at, reading, short_at, short_if, short_or, whole_at,
    whole_or,
};
use crate::words::{word_at, word_if, word_or};
use std::alloc::Global;
use wg_json::Value;
use wg_types::commands::CommandOf;
use wg_types::requests::RequestOf;
use wg_types::textures::{AspectWord, DataLayout, TextureDim, TextureInfo, TextureSpot, ViewAsked};

/// Reads `createTexture`.
#[tactic(auto, unfolding(crate::specs::TextureCalls::create_texture_of))]
pub fn create_texture(alloc: Global, call: &Value<'_>) -> Result<Call, Refusal>
    ensures { Gives result (create_texture_of (view call.now)) }
{
    reading!(call:
        need size = triple_at("size");
        need usage = short_at("usage");
        need format = word_at("format", &FORMATS);
        may dim = word_or("dim", &TEXTURE_DIMS, TextureDim::Two);
        may mips = short_or("mips", 1);
        may samples = short_or("samples", 1);
        make made = made_in(alloc);
        => making(RequestOf::CreateTexture { info: TextureInfo { size, usage, format, dim, mips, samples } }, made))
}

/// What of a texture a view takes.
fn view_asked_in(call: &Value<'_>) -> Result<ViewAsked, u8>
    ensures { result ≡ view_asked_keys.read (view call.now) }
{
    Ok(ViewAsked {
        dim: word_if(call, "dim", &VIEW_DIMS)?,
        aspect: word_or(call, "aspect", &ASPECTS, AspectWord::All)?,
        base_mip: short_or(call, "baseMip", 0)?,
        mips: short_if(call, "mips")?,
        base_layer: short_or(call, "baseLayer", 0)?,
        layers: short_if(call, "layers")?,
    })
}

/// Reads `createView`.
#[tactic(auto, unfolding(crate::specs::TextureCalls::create_view_of))]
pub fn create_view(alloc: Global, call: &Value<'_>) -> Result<Call, Refusal>
    ensures { Gives result (create_view_of (view call.now)) }
{
    reading!(call:
        need texture = name_at(alloc, "texture");
        part asked = view_asked_in("dim", "aspect", "baseMip", "mips", "baseLayer", "layers");
        make made = made_in(alloc);
        => making(RequestOf::CreateView { texture, asked }, made))
}

/// How texels lie in bytes.
fn layout_in(call: &Value<'_>) -> Result<DataLayout, u8>
    ensures { result ≡ layout_keys.read (view call.now) }
{
    Ok(DataLayout {
        offset: whole_or(call, "offset", MOST_WHOLE, 0)?,
        bytes_per_row: short_if(call, "bytesPerRow")?,
        rows_per_image: short_if(call, "rowsPerImage")?,
    })
}

/// Where in a texture a copy begins.
fn spot_in(call: &Value<'_>) -> Result<TextureSpot, u8>
    ensures { result ≡ spot_keys.read (view call.now) }
{
    Ok(TextureSpot {
        mip: short_or(call, "mip", 0)?,
        origin: triple_or_zero(call, "origin")?,
        aspect: word_or(call, "aspect", &ASPECTS, AspectWord::All)?,
    })
}

/// Reads `writeTexture`.
#[tactic(auto, unfolding(crate::specs::TextureCalls::write_texture_of))]
pub fn write_texture(alloc: Global, call: &Value<'_>) -> Result<Call, Refusal>
    ensures { Gives result (write_texture_of (view call.now)) }
{
    reading!(call:
        need texture = name_at(alloc, "texture");
        part spot = spot_in("mip", "origin", "aspect");
        need size = triple_at("size");
        part layout = layout_in("offset", "bytesPerRow", "rowsPerImage");
        need data_size = whole_at("dataSize", MOST_WHOLE);
        => asking(RequestOf::WriteTexture { texture, spot, layout, size, data_size }))
}

/// A copy between a buffer and a texture, and what it stands on.
#[derive(Drop)]
struct TexelCopy {
    on: Name,
    buffer: Name,
    layout: DataLayout,
    texture: Name,
    spot: TextureSpot,
    size: [u32; 3],
}

#[tactic(auto, unfolding(crate::specs::TextureCalls::texel_copy_of))]
fn texel_copy(alloc: Global, call: &Value<'_>) -> Result<TexelCopy, Refusal>
    ensures { Gives result (texel_copy_of (view call.now)) }
{
    reading!(call:
        need on = name_at(alloc, "on");
        need buffer = name_at(alloc, "buffer");
        part layout = layout_in("offset", "bytesPerRow", "rowsPerImage");
        need texture = name_at(alloc, "texture");
        part spot = spot_in("mip", "origin", "aspect");
        need size = triple_at("size");
        => TexelCopy { on, buffer, layout, texture, spot, size })
}

/// Reads `copyBufferToTexture`.
#[tactic(auto, unfolding(crate::specs::TextureCalls::copy_buffer_to_texture_of))]
pub fn copy_buffer_to_texture(alloc: Global, call: &Value<'_>) -> Result<Call, Refusal>
    ensures { Gives result (copy_buffer_to_texture_of (view call.now)) }
{
    let TexelCopy {
        on,
        buffer,
        layout,
        texture,
        spot,
        size,
    } = texel_copy(alloc, call)?;
    let command = CommandOf::CopyBufferToTexture {
        buffer,
        layout,
        texture,
        spot,
        size,
    };
    Ok(recording(on, command))
}

/// Reads `copyTextureToBuffer`.
#[tactic(auto, unfolding(crate::specs::TextureCalls::copy_texture_to_buffer_of))]
pub fn copy_texture_to_buffer(alloc: Global, call: &Value<'_>) -> Result<Call, Refusal>
    ensures { Gives result (copy_texture_to_buffer_of (view call.now)) }
{
    let TexelCopy {
        on,
        buffer,
        layout,
        texture,
        spot,
        size,
    } = texel_copy(alloc, call)?;
    let command = CommandOf::CopyTextureToBuffer {
        buffer,
        layout,
        texture,
        spot,
        size,
    };
    Ok(recording(on, command))
}

/// Reads `copyTextureToTexture`.
#[tactic(auto, unfolding(crate::specs::TextureCalls::copy_texture_to_texture_of))]
pub fn copy_texture_to_texture(alloc: Global, call: &Value<'_>) -> Result<Call, Refusal>
    ensures { Gives result (copy_texture_to_texture_of (view call.now)) }
{
    reading!(call:
        need on = name_at(alloc, "on");
        need source = name_at(alloc, "source");
        may source_mip = short_or("sourceMip", 0);
        may source_origin = triple_or_zero("sourceOrigin");
        need target = name_at(alloc, "target");
        may target_mip = short_or("targetMip", 0);
        may target_origin = triple_or_zero("targetOrigin");
        need size = triple_at("size");
        => recording(on, CommandOf::CopyTextureToTexture { source, source_mip, source_origin, target, target_mip, target_origin, size }))
}
