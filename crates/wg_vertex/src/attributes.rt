//! Where the attributes of vertex buffers lie.
ghost use Rattle.std.specs.Prelude.{◌≡◌, ◌<◌, min};
ghost use Rattle.wg_types.specs.Vertex.{vertex_bytes};
ghost use Rattle.wg_model.specs.Vertex.{attributes_of, attribute_end, attribute_room, attribute_fits, attributes_fit, last_end};

use wg_types::limits::Limits;
use wg_types::vertex::{VertexAttribute, VertexBuffer, VertexFormat};

/// The attributes of a vertex buffer; none where it is left out.
pub fn attributes_of(buffer: &Option<VertexBuffer>) -> &[VertexAttribute]
    ensures { result.now ≡ attributes_of buffer.now }
{
    match buffer {
        Some(given) => given.attributes.as_slice(),
        None => &[],
    }
}

/// Where an attribute ends.
fn end(attribute: &VertexAttribute) -> u64
    ensures { result ≡ attribute_end attribute.now }
{
    u64::from(attribute.offset) + u64::from(attribute.format.bytes())
}

/// Of what the offset of an attribute has to be a multiple.
#[tactic(auto, using(crate::proofs::Bytes::takes_bytes))]
fn alignment(format: VertexFormat) -> u32
    ensures lesser { result ≡ min 4 (vertex_bytes format) }
    ensures positive { 0 < result }
{
    format.bytes().min(4)
}

/// Where the attributes of a buffer may end.
fn room(limits: &Limits, buffer: &VertexBuffer) -> u32
    ensures { result ≡ attribute_room limits.now buffer.now }
{
    if buffer.stride == 0 {
        limits.max_vertex_buffer_array_stride
    } else {
        buffer.stride
    }
}

/// Whether an attribute ends within so many bytes, and is aligned.
fn attribute_fits(room: u32, attribute: &VertexAttribute) -> bool
    ensures { result ≡ attribute_fits room attribute.now }
{
    end(attribute) <= u64::from(room) && attribute.offset % alignment(attribute.format) == 0
}

/// Whether all attributes of a buffer fit it.
pub fn attributes_fit(limits: &Limits, buffer: &VertexBuffer) -> bool
    ensures { result ≡ attributes_fit limits.now buffer.now }
{
    let room = room(limits, buffer);
    buffer
        .attributes
        .as_slice()
        .iter()
        .all(|attribute| attribute_fits(room, attribute))
}

/// Where the last attribute ends; 0 where there is none.
pub fn last_end(attributes: &[VertexAttribute]) -> u64
    ensures { result ≡ last_end attributes.now }
{
    let mut last = 0;
    for attribute in attributes {
        last = last.max(end(attribute));
    }
    last
}
