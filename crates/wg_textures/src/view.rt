//! The rules of new views.
ghost use Rattle.std.specs.Prelude.{◌≡◌, ◌+◌, ◌&&◌, nat_le};
ghost use Rattle.wg_model.specs.Rules.{first_unmet};
ghost use Rattle.wg_model.specs.Textures.{dim_fits, layers_fit, is_cube, is_2d_view, create_view_rules};

use wg_formats::{has_named, layer_count};
use wg_rules::{
    CUBE_VIEW_TEXTURE_IS_SQUARE, FORMAT_HAS_VIEW_ASPECT, MULTISAMPLED_VIEW_IS_2D,
    VIEW_DIMENSION_FITS_TEXTURE, VIEW_LAYERS_ARE_IN_TEXTURE, VIEW_LAYERS_FIT_DIMENSION,
    VIEW_MIP_LEVELS_ARE_IN_TEXTURE,
};
use wg_types::textures::{TextureDim, TextureInfo, ViewDesc, ViewDim};

/// Whether a range is not empty and ends within a count.
fn range_fits(base: u32, count: u32, most: u32) -> bool
    ensures { result ≡ nat_le 1 count && nat_le (base + count) most }
{
    count >= 1 && u64::from(base) + u64::from(count) <= u64::from(most)
}

/// Whether a texture of a dimension may have a view of a dimension.
fn dim_fits(view: ViewDim, dim: TextureDim) -> bool
    ensures { result ≡ dim_fits view dim }
{
    match (view, dim) {
        (ViewDim::One, TextureDim::One) => true,
        (ViewDim::One, _) => false,
        (ViewDim::Three, TextureDim::Three) => true,
        (ViewDim::Three, _) => false,
        (_, TextureDim::Two) => true,
        (_, _) => false,
    }
}

/// Whether a view of a dimension may have so many layers.
fn layers_fit(view: ViewDim, layers: u32) -> bool
    ensures { result ≡ layers_fit view layers }
{
    match view {
        ViewDim::TwoArray => true,
        ViewDim::Cube => layers == 6,
        ViewDim::CubeArray => layers % 6 == 0,
        _ => layers == 1,
    }
}

/// Whether a view is of cubes.
fn is_cube(view: ViewDim) -> bool
    ensures { result ≡ is_cube view }
{
    match view {
        ViewDim::Cube | ViewDim::CubeArray => true,
        _ => false,
    }
}

/// Whether a view is 2D, and no array.
fn is_2d_view(view: ViewDim) -> bool
    ensures { result ≡ is_2d_view view }
{
    match view {
        ViewDim::Two => true,
        _ => false,
    }
}

/// The number of the first unmet rule of createView (WebGPU, "Texture View Creation"); none where the
/// texture may have the view.
pub fn check_view(texture: &TextureInfo, view: &ViewDesc) -> Option<u16>
    ensures { result ≡ first_unmet (create_view_rules texture.now view.now) }
{
    if !has_named(view.aspect, texture.format) {
        return Some(FORMAT_HAS_VIEW_ASPECT);
    }
    if !range_fits(view.base_mip, view.mips, texture.mips) {
        return Some(VIEW_MIP_LEVELS_ARE_IN_TEXTURE);
    }
    if !range_fits(view.base_layer, view.layers, layer_count(texture)) {
        return Some(VIEW_LAYERS_ARE_IN_TEXTURE);
    }
    if !dim_fits(view.dim, texture.dim) {
        return Some(VIEW_DIMENSION_FITS_TEXTURE);
    }
    if !layers_fit(view.dim, view.layers) {
        return Some(VIEW_LAYERS_FIT_DIMENSION);
    }
    if is_cube(view.dim) && texture.size[0] != texture.size[1] {
        return Some(CUBE_VIEW_TEXTURE_IS_SQUARE);
    }
    if texture.samples != 1 && !is_2d_view(view.dim) {
        return Some(MULTISAMPLED_VIEW_IS_2D);
    }
    None
}
