//! The rules of new textures.
ghost use Rattle.std.specs.Prelude.{◌≡◌, ◌-◌, ◌^◌, max, nat_le};
ghost use Rattle.wg_model.specs.Rules.{first_unmet};
ghost use Rattle.wg_model.specs.Textures.{within_limits, mips_fit, is_multisampling, has_storage, is_1d, is_2d, create_texture_rules};

use wg_formats::is_color;
use wg_rules::{
    DEPTH_STENCIL_TEXTURE_IS_2D, FORMAT_ALLOWS_STORAGE_BINDING, MIP_LEVELS_FIT_TEXTURE,
    RENDER_ATTACHMENT_IS_NOT_1D, TEXTURE_MAY_BE_MULTISAMPLED, TEXTURE_SAMPLES_ARE_ONE_OR_FOUR,
    TEXTURE_SIZE_IS_NOT_ZERO, TEXTURE_SIZE_IS_WITHIN_LIMITS, TEXTURE_USAGE_IS_KNOWN,
};
use wg_types::formats::StorageAccesses;
use wg_types::limits::Limits;
use wg_types::textures::{TextureDim, TextureInfo};

/// Whether the dimension is 1D.
fn is_1d(dim: TextureDim) -> bool
    ensures { result ≡ is_1d dim }
{
    match dim {
        TextureDim::One => true,
        _ => false,
    }
}

/// Whether the dimension is 2D.
fn is_2d(dim: TextureDim) -> bool
    ensures { result ≡ is_2d dim }
{
    match dim {
        TextureDim::Two => true,
        _ => false,
    }
}

/// Whether a size is within the limits of a dimension.
fn within_limits(limits: &Limits, dim: TextureDim, size: [u32; 3]) -> bool
    ensures { result ≡ within_limits limits.now dim size }
{
    match dim {
        TextureDim::One => {
            return size[0] <= limits.max_texture_dimension_1d && size[1] == 1 && size[2] == 1;
        }
        TextureDim::Two => {
            return size[0] <= limits.max_texture_dimension_2d
                && size[1] <= limits.max_texture_dimension_2d
                && size[2] <= limits.max_texture_array_layers;
        }
        TextureDim::Three => {
            return size[0] <= limits.max_texture_dimension_3d
                && size[1] <= limits.max_texture_dimension_3d
                && size[2] <= limits.max_texture_dimension_3d;
        }
    }
}

/// The greater of two extents.
fn greater(a: u32, b: u32) -> u32
    ensures { result ≡ max a b }
{
    if a < b {
        return b;
    }
    a
}

/// Whether there are so many levels from an extent down to 1.
#[tactic(auto, using(crate::proofs::Levels::too_many))]
fn levels_fit(mips: u32, extent: u32) -> bool
    ensures { result ≡ nat_le (2 ^ (mips - 1)) extent }
{
    if mips == 0 {
        return extent >= 1;
    }
    if mips > 32 {
        return false;
    }
    extent >= 1 << (mips - 1)
}

/// Whether a texture of a size has at least one mip level and no more than it has down to extent 1.
fn mips_fit(dim: TextureDim, size: [u32; 3], mips: u32) -> bool
    ensures { result ≡ mips_fit dim size mips }
{
    match dim {
        TextureDim::One => return mips == 1,
        TextureDim::Two => return mips >= 1 && levels_fit(mips, greater(size[0], size[1])),
        TextureDim::Three => {
            return mips >= 1 && levels_fit(mips, greater(greater(size[0], size[1]), size[2]));
        }
    }
}

/// Whether a texture is what one with four samples has to be.
fn is_multisampling(info: &TextureInfo) -> bool
    ensures { result ≡ is_multisampling info.now }
{
    if !is_2d(info.dim) || info.mips != 1 || info.size[2] != 1 {
        return false;
    }
    if info.usage & 16 == 0 || info.usage & 8 != 0 {
        return false;
    }
    info.format.row().multisampled
}

/// Whether there is some access as storage.
fn has_storage(storage: StorageAccesses) -> bool
    ensures { result ≡ has_storage storage }
{
    storage.read_only || storage.write_only || storage.read_write
}

/// The number of the first unmet rule of createTexture (WebGPU, "Texture Creation"); none where the
/// texture may be made.
pub fn check_create(info: &TextureInfo, limits: &Limits) -> Option<u16>
    ensures { result ≡ first_unmet (create_texture_rules limits.now info.now) }
{
    let size = info.size;
    if info.usage == 0 || info.usage > 31 {
        return Some(TEXTURE_USAGE_IS_KNOWN);
    }
    if size[0] == 0 || size[1] == 0 || size[2] == 0 {
        return Some(TEXTURE_SIZE_IS_NOT_ZERO);
    }
    if !within_limits(limits, info.dim, size) {
        return Some(TEXTURE_SIZE_IS_WITHIN_LIMITS);
    }
    if !mips_fit(info.dim, size, info.mips) {
        return Some(MIP_LEVELS_FIT_TEXTURE);
    }
    if info.samples != 1 && info.samples != 4 {
        return Some(TEXTURE_SAMPLES_ARE_ONE_OR_FOUR);
    }
    if info.samples == 4 && !is_multisampling(info) {
        return Some(TEXTURE_MAY_BE_MULTISAMPLED);
    }
    if !is_2d(info.dim) && !is_color(info.format) {
        return Some(DEPTH_STENCIL_TEXTURE_IS_2D);
    }
    if info.usage & 16 != 0 && is_1d(info.dim) {
        return Some(RENDER_ATTACHMENT_IS_NOT_1D);
    }
    if info.usage & 8 != 0 && !has_storage(info.format.row().storage) {
        return Some(FORMAT_ALLOWS_STORAGE_BINDING);
    }
    None
}
