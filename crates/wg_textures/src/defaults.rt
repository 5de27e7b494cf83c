//! What a view is of which parts are left out.
ghost use Rattle.std.specs.Prelude.{◌≡◌, ◌-◌};
ghost use Rattle.wg_model.specs.Textures.{layer_count};
ghost use Rattle.wg_model.specs.Views.{dim_by, layers_by, completed_view};

use wg_formats::layer_count;
use wg_types::textures::{TextureDim, TextureInfo, ViewAsked, ViewDesc, ViewDim};

/// The dimension that a view has by its texture.
fn dim_by(dim: TextureDim, layers: u32) -> ViewDim
    ensures { result ≡ dim_by dim layers }
{
    match dim {
        TextureDim::One => ViewDim::One,
        TextureDim::Two => {
            if layers > 1 {
                ViewDim::TwoArray
            } else {
                ViewDim::Two
            }
        }
        TextureDim::Three => ViewDim::Three,
    }
}

/// How many layers a view has by its dimension.
fn layers_by(dim: ViewDim, remaining: u32) -> u32
    ensures { result ≡ layers_by dim remaining }
{
    match dim {
        ViewDim::Cube => 6,
        ViewDim::TwoArray => remaining,
        ViewDim::CubeArray => remaining,
        _ => 1,
    }
}

/// The description of a view of which parts may be left out (WebGPU, "resolving
/// GPUTextureViewDescriptor defaults").
pub fn view_of(info: &TextureInfo, asked: ViewAsked) -> ViewDesc
    ensures { result ≡ completed_view info.now asked.dim asked.aspect asked.base_mip asked.mips asked.base_layer asked.layers }
{
    let all = layer_count(info);
    let dim = asked.dim.unwrap_or(dim_by(info.dim, all));
    ViewDesc {
        dim,
        aspect: asked.aspect,
        base_mip: asked.base_mip,
        mips: asked
            .mips
            .unwrap_or(info.mips.saturating_sub(asked.base_mip)),
        base_layer: asked.base_layer,
        layers: asked
            .layers
            .unwrap_or(layers_by(dim, all.saturating_sub(asked.base_layer))),
    }
}
