//! The layout of texels in bytes.
ghost use Rattle.std.specs.Prelude.{◌≡◌, ◌^◌, ◌<◌, IfSome};
ghost use Rattle.wg_model.specs.TexelCopies.{rows_fit, images_fit, needed, required, bytes_fit};

use wg_types::textures::DataLayout;

/// Whether the bytes of a row are right for a copy of a size.
fn rows_fit(row: Option<u32>, bytes: u32, size: [u32; 3]) -> bool
    ensures { result ≡ rows_fit row bytes size }
{
    match row {
        Some(row) => return u64::from(size[0]) * u64::from(bytes) <= u64::from(row),
        None => return size[1] <= 1 && size[2] <= 1,
    }
}

/// Whether the rows of an image are right for a copy of a size.
fn images_fit(rows: Option<u32>, size: [u32; 3]) -> bool
    ensures { result ≡ images_fit rows size }
{
    match rows {
        Some(rows) => return size[1] <= rows,
        None => return size[2] <= 1,
    }
}

/// The bytes from the first texel to the last.
fn needed(row: u32, rows: u32, bytes: u32, size: [u32; 3]) -> u128
    ensures bytes { result ≡ needed row rows bytes size }
    ensures small { result < 2 ^ 98 }
{
    if size[2] == 0 {
        return 0;
    }
    let row = u128::from(row);
    let images = row * u128::from(rows) * u128::from(size[2] - 1);
    if size[1] == 0 {
        return images;
    }
    let texels = u128::from(size[0]) * u128::from(bytes);
    images + (row * u128::from(size[1] - 1) + texels)
}

/// The bytes that a copy of a size takes from the layout's offset on, with so many bytes for a texel;
/// none where the layout is not right for it (WebGPU, "validating linear texture data").
#[tactic(auto, unfolding(wg_model::specs::TexelCopies::required))]
pub fn required(layout: &DataLayout, bytes: u32, size: [u32; 3]) -> Option<u128>
    ensures value { result ≡ required layout.now bytes size }
    ensures small { IfSome result (λ needed. needed < 2 ^ 98) }
{
    if rows_fit(layout.bytes_per_row, bytes, size) && images_fit(layout.rows_per_image, size) {
        let row = layout.bytes_per_row.unwrap_or(0);
        let rows = layout.rows_per_image.unwrap_or(0);
        return Some(needed(row, rows, bytes, size));
    }
    None
}

/// Whether the layout is right for a copy of a size, and the bytes that it takes fit behind the
/// layout's offset in `most` bytes.
pub fn bytes_fit(layout: &DataLayout, bytes: u32, size: [u32; 3], most: u64) -> bool
    ensures { result ≡ bytes_fit layout.now bytes size most }
{
    match required(layout, bytes, size) {
        Some(count) => return u128::from(layout.offset) + count <= u128::from(most),
        None => return false,
    }
}
