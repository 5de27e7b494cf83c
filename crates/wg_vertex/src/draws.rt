//! Whether what is set for vertex buffers serves a draw.
ghost use Rattle.std.specs.Prelude.{◌≡◌, None, slice_index_or, unwrap_or};
ghost use Rattle.wg_model.specs.Vertex.{counted_by_step, bytes_serve, draw_fits};

use crate::attributes::last_end;
use wg_types::vertex::{VertexBuffer, VertexStep};

/// Over how many vertices or instances a draw goes in a buffer, if that is told.
fn count_by(step: VertexStep, vertices: Option<u64>, instances: u64) -> Option<u64>
    ensures { result ≡ counted_by_step step vertices instances }
{
    match step {
        VertexStep::Vertex => vertices,
        VertexStep::Instance => Some(instances),
    }
}

/// Whether so many bytes do for so many vertices or instances.
fn bytes_serve(buffer: &VertexBuffer, bytes: u64, count: Option<u64>) -> bool
    ensures { result ≡ bytes_serve buffer.now bytes count }
{
    let Some(count) = count else {
        return true;
    };
    if count == 0 {
        return true;
    }
    let before = u128::from(count - 1) * u128::from(buffer.stride);
    let last = u128::from(last_end(buffer.attributes.as_slice()));
    before + last <= u128::from(bytes)
}

/// The bytes that are set for a slot.
fn bytes_at(ranges: &[Option<u64>], slot: usize) -> u64
    ensures { result ≡ unwrap_or (slice_index_or ranges.now slot None) 0 }
{
    match ranges.get(slot) {
        Some(Some(bytes)) => *bytes,
        _ => 0,
    }
}

/// Whether the ranges that are set, in bytes by slot, serve a draw: each vertex buffer of the pipeline
/// has what lies up to and with the last vertex or instance, of which there are so many counted from the
/// first of the buffer (WebGPU, "valid to draw"). One that is left out asks for nothing. The vertices of an
/// indexed draw are not told.
#[tactic(auto, unfolding(wg_model::specs::Vertex::draw_fits))]
pub fn fits(
    buffers: &[Option<VertexBuffer>],
    ranges: &[Option<u64>],
    vertices: Option<u64>,
    instances: u64,
) -> bool
    ensures { result ≡ draw_fits buffers.now ranges.now vertices instances }
{
    for (slot, buffer) in buffers.iter().enumerate() {
        let Some(given) = buffer else { continue };
        let count = count_by(given.step, vertices, instances);
        if !bytes_serve(given, bytes_at(ranges, slot), count) {
            return false;
        }
    }
    true
}
