//! Extents of mip levels, layers, and the places of copies.
ghost use Rattle.std.specs.Prelude.{◌≡◌, ◌+◌, nat_le};
ghost use Rattle.wg_model.specs.Textures.{shrunk, extent, layer_count};
ghost use Rattle.wg_model.specs.Subresources.{first_layer, end_layer, has_no_texel};
ghost use Rattle.wg_model.specs.TexelCopies.{lies_in, spans, spot_fits, covers_all};

use crate::aspects::is_color;
use wg_types::textures::{TextureDim, TextureInfo, TextureSpot};

/// One extent at a mip level. Past level 31 each is 1.
#[tactic(auto, using(crate::proofs::Halving::far_halved))]
fn shrunk(mip: u32, x: u32) -> u32
    ensures { result ≡ shrunk mip x }
{
    if mip >= 32 {
        return 1;
    }
    let halved = x >> mip;
    if halved == 0 {
        return 1;
    }
    halved
}

/// The width, height, and depth or array layers of a mip level, which need not be one that the texture
/// has (WebGPU, "logical miplevel-specific texture extent").
#[tactic(auto, unfolding(wg_model::specs::Textures::extent))]
pub fn extent(info: &TextureInfo, mip: u32) -> [u32; 3]
    ensures { result ≡ extent info.now mip }
{
    let size = info.size;
    match info.dim {
        TextureDim::One => return [shrunk(mip, size[0]), size[1], size[2]],
        TextureDim::Two => return [shrunk(mip, size[0]), shrunk(mip, size[1]), size[2]],
        TextureDim::Three => {
            return [
                shrunk(mip, size[0]),
                shrunk(mip, size[1]),
                shrunk(mip, size[2]),
            ];
        }
    }
}

/// The count of array layers: 1D and 3D textures have one.
pub fn layer_count(info: &TextureInfo) -> u32
    ensures { result ≡ layer_count info.now }
{
    match info.dim {
        TextureDim::Two => info.size[2],
        _ => 1,
    }
}

/// The first layer of a copy at an origin.
pub fn first_layer(dim: TextureDim, origin: [u32; 3]) -> u32
    ensures { result ≡ first_layer dim origin }
{
    match dim {
        TextureDim::Two => origin[2],
        _ => 0,
    }
}

/// The layer past the last of a copy of a size, whatever its width and height.
pub fn end_layer(dim: TextureDim, origin: [u32; 3], size: [u32; 3]) -> u64
    ensures { result ≡ end_layer dim origin size }
{
    match dim {
        TextureDim::Two => u64::from(origin[2]) + u64::from(size[2]),
        _ => 1,
    }
}

/// Whether a copy of this size has no texel.
pub fn has_no_texel(size: [u32; 3]) -> bool
    ensures { result ≡ has_no_texel size }
{
    size[0] == 0 || size[1] == 0 || size[2] == 0
}

/// Whether a range in one direction ends in an extent.
fn ends_in(extent: u32, origin: u32, size: u32) -> bool
    ensures { result ≡ nat_le (origin + size) extent }
{
    u64::from(origin) + u64::from(size) <= u64::from(extent)
}

/// Whether a range of texels lies in a mip level of this extent.
fn lies_in(whole: [u32; 3], origin: [u32; 3], size: [u32; 3]) -> bool
    ensures { result ≡ lies_in whole origin size }
{
    ends_in(whole[0], origin[0], size[0])
        && ends_in(whole[1], origin[1], size[1])
        && ends_in(whole[2], origin[2], size[2])
}

/// Whether a size has the width and the height of a mip level of this extent.
fn spans(whole: [u32; 3], size: [u32; 3]) -> bool
    ensures { result ≡ spans whole size }
{
    size[0] == whole[0] && size[1] == whole[1]
}

/// Whether a copy's place is in the texture (WebGPU, "validating texture copy range"): also whether it
/// has all of the level's width and height where a part of it is not copied.
#[tactic(auto, unfolding(wg_model::specs::TexelCopies::spot_fits))]
pub fn spot_fits(info: &TextureInfo, spot: &TextureSpot, size: [u32; 3]) -> bool
    ensures { result ≡ spot_fits info.now spot.now size }
{
    if spot.mip >= info.mips {
        return false;
    }
    let whole = extent(info, spot.mip);
    if !lies_in(whole, spot.origin, size) {
        return false;
    }
    if is_color(info.format) && info.samples == 1 {
        return true;
    }
    spans(whole, size)
}

/// Whether a copy at a place covers all texels of each cell that it is to, a layer or a slice of the mip level.
#[tactic(auto, unfolding(wg_model::specs::TexelCopies::covers_all))]
pub fn covers_all(info: &TextureInfo, spot: &TextureSpot, size: [u32; 3]) -> bool
    ensures { result ≡ covers_all info.now spot.now size }
{
    spans(extent(info, spot.mip), size)
}
