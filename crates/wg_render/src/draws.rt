//! What draws go by: the vertex and index buffers that are set.
ghost use Rattle.std.specs.Prelude.{◌≡◌, ◌+◌, ◌%◌, ◌==◌, None, nat_le, is_some, slice_index_or};
ghost use Rattle.wg_types.specs.Vertex.{index_bytes};
ghost use Rattle.wg_model.specs.Rules.{first_unmet};
ghost use Rattle.wg_model.specs.Equality.{same_index_format};
ghost use Rattle.wg_model.specs.Render.{vertex_rules, no_vertex_rules, given_vertex_rules, index_rules, are_set, indices_fit, strip_fits};

use wg_formats::{buffer_of, size_or_rest};
use wg_rules::{
    INDEX_BUFFER_HAS_INDEX, INDEX_OFFSET_IS_ALIGNED, INDEX_RANGE_FITS_BUFFER,
    VERTEX_BUFFER_HAS_VERTEX, VERTEX_OFFSET_IS_ALIGNED, VERTEX_RANGE_FITS_BUFFER,
    VERTEX_SLOT_IS_WITHIN_LIMIT,
};
use wg_types::handles::Handle;
use wg_types::vertex::{IndexFormat, VertexBuffer};

/// How many vertex buffers may be set.
pub const MOST_SLOTS: u32 = 8;

/// The usage bit that an index buffer needs.
const INDEX: u32 = 16;

/// The usage bit that a vertex buffer needs.
const VERTEX: u32 = 32;

/// Whether a range fits so many bytes.
fn range_fits(offset: u64, size: u64, bytes: u64) -> bool
    ensures { result ≡ nat_le (offset + size) bytes }
{
    u128::from(offset) + u128::from(size) <= u128::from(bytes)
}

/// The first unmet rule of setVertexBuffer (WebGPU, "setVertexBuffer").
fn check_vertex(slot: u32, buffer: &Handle, offset: u64, size: u64) -> Option<u16>
    ensures { result ≡ first_unmet (vertex_rules slot buffer.now offset size) }
{
    let info = buffer_of(buffer);
    if info.usage & VERTEX == 0 {
        return Some(VERTEX_BUFFER_HAS_VERTEX);
    }
    if slot >= MOST_SLOTS {
        return Some(VERTEX_SLOT_IS_WITHIN_LIMIT);
    }
    if offset % 4 != 0 {
        return Some(VERTEX_OFFSET_IS_ALIGNED);
    }
    if !range_fits(offset, size, info.size) {
        return Some(VERTEX_RANGE_FITS_BUFFER);
    }
    None
}

/// The first unmet rule of setVertexBuffer with null (WebGPU, "setVertexBuffer").
fn check_no_vertex(slot: u32, offset: u64, size: Option<u64>) -> Option<u16>
    ensures { result ≡ first_unmet (no_vertex_rules slot offset size) }
{
    if slot >= MOST_SLOTS {
        return Some(VERTEX_SLOT_IS_WITHIN_LIMIT);
    }
    if offset % 4 != 0 {
        return Some(VERTEX_OFFSET_IS_ALIGNED);
    }
    if offset != 0 || size.unwrap_or(0) != 0 {
        return Some(VERTEX_RANGE_FITS_BUFFER);
    }
    None
}

/// The first unmet rule of what is set as a vertex buffer, or of null (WebGPU, "setVertexBuffer").
pub fn check_given_vertex(
    slot: u32,
    buffer: &Option<Handle>,
    offset: u64,
    size: Option<u64>,
) -> Option<u16>
    ensures { result ≡ first_unmet (given_vertex_rules slot buffer.now offset size) }
{
    match buffer {
        Some(buffer) => check_vertex(slot, buffer, offset, size_or_rest(buffer, offset, size)),
        None => check_no_vertex(slot, offset, size),
    }
}

/// Whether an offset is a multiple of the bytes of an index.
fn is_aligned(format: IndexFormat, offset: u64) -> bool
    ensures { result ≡ (offset % index_bytes format == 0) }
{
    match format {
        IndexFormat::Uint16 => offset % 2 == 0,
        IndexFormat::Uint32 => offset % 4 == 0,
    }
}

/// The first unmet rule of setIndexBuffer (WebGPU, "setIndexBuffer").
pub fn check_index(buffer: &Handle, format: IndexFormat, offset: u64, size: u64) -> Option<u16>
    ensures { result ≡ first_unmet (index_rules buffer.now format offset size) }
{
    let info = buffer_of(buffer);
    if info.usage & INDEX == 0 {
        return Some(INDEX_BUFFER_HAS_INDEX);
    }
    if !is_aligned(format, offset) {
        return Some(INDEX_OFFSET_IS_ALIGNED);
    }
    if !range_fits(offset, size, info.size) {
        return Some(INDEX_RANGE_FITS_BUFFER);
    }
    None
}

/// Whether a range is set in a slot.
fn is_set(ranges: &[Option<u64>], slot: usize) -> bool
    ensures { result ≡ is_some (slice_index_or ranges.now slot None) }
{
    slot < ranges.len() && ranges[slot].is_some()
}

/// Whether a range is set for each of these vertex buffers that is not left out, by slot.
pub fn are_set(buffers: &[Option<VertexBuffer>], ranges: &[Option<u64>]) -> bool
    ensures { result ≡ are_set buffers.now ranges.now 0 }
{
    for (slot, buffer) in buffers.iter().enumerate() {
        let Some(_) = buffer else { continue };
        if !is_set(ranges, slot) {
            return false;
        }
    }
    true
}

/// Whether so many indexes, from the first on, fit the range of the index buffer.
pub fn indices_fit(first: u32, indices: u32, index: Option<(IndexFormat, u64)>) -> bool
    ensures { result ≡ indices_fit first indices index }
{
    match index {
        Some((format, size)) => (u64::from(first) + u64::from(indices)) * format.bytes() <= size,
        None => false,
    }
}

/// Whether two formats of indexes are the same.
fn same_index_format(a: IndexFormat, b: IndexFormat) -> bool
    ensures { result ≡ same_index_format a b }
{
    match (a, b) {
        (IndexFormat::Uint16, IndexFormat::Uint16) => true,
        (IndexFormat::Uint32, IndexFormat::Uint32) => true,
        (IndexFormat::Uint16, IndexFormat::Uint32) => false,
        (IndexFormat::Uint32, IndexFormat::Uint16) => false,
    }
}

/// Whether the index buffer that is set has the format that a pipeline gives for the indexes of strips, where
/// it makes strips; where that format is not told, none has it (WebGPU, "drawIndexed()").
pub fn strip_fits(strip: Option<Option<IndexFormat>>, index: Option<(IndexFormat, u64)>) -> bool
    ensures { result ≡ strip_fits strip index }
{
    let Some(wanted) = strip else { return true };
    match (wanted, index) {
        (Some(wanted), Some((format, _))) => same_index_format(format, wanted),
        (Some(_), None) | (None, _) => false,
    }
}
