//! What handles know of their objects, what is known of a view, and where copies of whole textures begin.
ghost use Rattle.std.specs.Prelude.{◌≡◌, option_copied};
ghost use Rattle.wg_model.specs.TexelCopies.{whole_spot};
ghost use Rattle.wg_model.specs.Commands.{buffer_of, no_buffer, texture_of, no_texture, queries_of, no_queries, rest_of, size_or_rest};
ghost use Rattle.wg_model.specs.Bundles.{known_bundle};
ghost use Rattle.wg_model.specs.Equality.{same_reference};
ghost use Rattle.wg_model.specs.Making.{no_view};
ghost use Rattle.wg_model.specs.Views.{view_info};

use wg_types::bundles::BundleInfo;
use wg_types::formats::Format;
use wg_types::handles::{BufferInfo, Handle, Info, ObjRef, QueriesInfo};
use wg_types::textures::{
    AspectWord, TextureDim, TextureInfo, TextureSpot, ViewDesc, ViewDim, ViewInfo,
};

/// Stands for what is known of a buffer where an object is none.
pub fn no_buffer() -> BufferInfo
    ensures { result ≡ no_buffer }
{
    BufferInfo {
        size: 0,
        usage: 0,
        mapped: false,
    }
}

/// What a handle of a buffer knows of it; nothing has usage or bytes where it is of another kind.
pub fn buffer_of(buffer: &Handle) -> BufferInfo
    ensures { result ≡ buffer_of buffer.now }
{
    match buffer.info() {
        Info::Buffer(info) => *info,
        _ => no_buffer(),
    }
}

/// Stands for what is known of a texture where an object is none.
pub fn no_texture() -> TextureInfo
    ensures { result ≡ no_texture }
{
    TextureInfo {
        size: [0, 0, 0],
        usage: 0,
        format: Format::R8Unorm,
        dim: TextureDim::Two,
        mips: 0,
        samples: 0,
    }
}

/// What a handle of a texture knows of it; nothing has usage or texels where it is of another kind.
pub fn texture_of(texture: &Handle) -> TextureInfo
    ensures { result ≡ texture_of texture.now }
{
    match texture.info() {
        Info::Texture(info) => *info,
        _ => no_texture(),
    }
}

/// Stands for what is known of a query set where an object is none.
fn no_queries() -> QueriesInfo
    ensures { result ≡ no_queries }
{
    QueriesInfo { count: 0 }
}

/// What a handle of a query set knows of it (WebGPU, "Queries"); there are no queries where it is of
/// another kind.
pub fn queries_of(queries: &Handle) -> QueriesInfo
    ensures { result ≡ queries_of queries.now }
{
    match queries.info() {
        Info::Queries(info) => *info,
        _ => no_queries(),
    }
}

/// What a handle knows of a bundle (WebGPU, "GPURenderBundle"), which of an invalid one is nothing.
pub fn known_bundle(handle: &Handle) -> Option<&BundleInfo>
    ensures { option_copied result ≡ known_bundle handle.now }
{
    if !handle.valid() {
        return None;
    }
    match handle.info() {
        Info::Bundle(bundle) => Some(bundle.get()),
        _ => None,
    }
}

/// Stands for what is known of a view where an object is none.
pub fn no_view() -> ViewInfo
    ensures { result ≡ no_view }
{
    ViewInfo {
        texture: ObjRef {
            device: 0,
            number: 0,
        },
        texture_info: no_texture(),
        dim: ViewDim::Two,
        aspect: AspectWord::All,
        base_mip: 0,
        mips: 0,
        base_layer: 0,
        layers: 0,
    }
}

/// What is known of a view of a texture.
pub fn view_info(info: TextureInfo, texture: ObjRef, desc: &ViewDesc) -> ViewInfo
    ensures { result ≡ view_info info texture desc.now }
{
    ViewInfo {
        texture,
        texture_info: info,
        dim: desc.dim,
        aspect: desc.aspect,
        base_mip: desc.base_mip,
        mips: desc.mips,
        base_layer: desc.base_layer,
        layers: desc.layers,
    }
}

/// Whether two references are of one object.
pub fn same_reference(a: ObjRef, b: ObjRef) -> bool
    ensures { result ≡ same_reference a b }
{
    a.device == b.device && a.number == b.number
}

/// What remains of a buffer from an offset on, which of an invalid one is nothing.
fn rest_of(buffer: &Handle, offset: u64) -> u64
    ensures { result ≡ rest_of buffer.now offset }
{
    if !buffer.valid() {
        return 0;
    }
    buffer_of(buffer).size.saturating_sub(offset)
}

/// A size, or what remains of a buffer where none is given.
pub fn size_or_rest(buffer: &Handle, offset: u64, size: Option<u64>) -> u64
    ensures { result ≡ size_or_rest buffer.now offset size }
{
    size.unwrap_or(rest_of(buffer, offset))
}

/// Where a copy from texture to texture begins, which takes all aspects.
pub fn whole_spot(mip: u32, origin: [u32; 3]) -> TextureSpot
    ensures { result ≡ whole_spot mip origin }
{
    TextureSpot {
        mip,
        origin,
        aspect: AspectWord::All,
    }
}
