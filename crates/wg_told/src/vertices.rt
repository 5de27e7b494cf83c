//! Vertex buffers, of which each attribute has the index of its own.
ghost use Rattle.std.specs.Prelude.{◌≡◌, IfOk, nat_lt, length};
ghost use Rattle.std.specs.List.{list_all};
ghost use Rattle.wg_told.specs.Flats.{attributes_at, slot_of, vertex_buffer_of, vertex_buffers_from, vertex_buffers_of};

use crate::flats::{FlatAttribute, FlatVertexBuffer};
use crate::meaning::attribute_of;
use crate::tables::{VERTEX_STEPS, maybe_nth};
use std::alloc::Global;
use wg_types::NoMemory;
use wg_types::items::Items;
use wg_types::vertex::{VertexAttribute, VertexBuffer, VertexStep};

#[tactic(auto, using(crate::proofs::Lists::joined_next))]
fn attributes_at(
    alloc: Global,
    attributes: &[FlatAttribute],
    index: usize,
) -> Result<Option<Items<VertexAttribute>>, NoMemory>
    ensures { IfOk result (λ meant. meant ≡ attributes_at attributes.now index) }
{
    let mut found = Items::new(alloc);
    for attribute in attributes {
        if attribute.buffer as usize == index {
            match attribute_of(attribute) {
                Some(one) => found.push(one)?,
                None => return Ok(None),
            }
        }
    }
    Ok(Some(found))
}

fn slot_of(
    flat: &FlatVertexBuffer,
    own: Items<VertexAttribute>,
    step: Option<VertexStep>,
) -> Option<Option<VertexBuffer>>
    ensures { result ≡ slot_of flat.now own step }
{
    match step {
        Some(step) => Some(Some(VertexBuffer {
            stride: flat.stride,
            step,
            attributes: own,
        })),
        None if own.as_slice().is_empty() => Some(None),
        None => None,
    }
}

fn vertex_buffer_of(
    alloc: Global,
    attributes: &[FlatAttribute],
    index: usize,
    flat: &FlatVertexBuffer,
) -> Result<Option<Option<VertexBuffer>>, NoMemory>
    ensures { IfOk result (λ meant. meant ≡ vertex_buffer_of attributes.now index flat.now) }
{
    let Some(step) = maybe_nth(&VERTEX_STEPS, flat.step) else {
        return Ok(None);
    };
    let Some(own) = attributes_at(alloc, attributes, index)? else {
        return Ok(None);
    };
    Ok(slot_of(flat, own, step))
}

#[tactic(auto, using(crate::proofs::Lists::joined_next))]
fn vertex_buffers_from(
    alloc: Global,
    buffers: &[FlatVertexBuffer],
    attributes: &[FlatAttribute],
) -> Result<Option<Items<Option<VertexBuffer>>>, NoMemory>
    ensures { IfOk result (λ meant. meant ≡ vertex_buffers_from attributes.now 0 buffers.now) }
{
    let mut found = Items::new(alloc);
    for (index, buffer) in buffers.iter().enumerate() {
        match vertex_buffer_of(alloc, attributes, index, buffer)? {
            Some(one) => found.push(one)?,
            None => return Ok(None),
        }
    }
    Ok(Some(found))
}

fn are_owned(buffers: &[FlatVertexBuffer], attributes: &[FlatAttribute]) -> bool
    ensures { result ≡ list_all (λ a. nat_lt a.buffer (length buffers.now)) attributes.now }
{
    let count = buffers.len();
    attributes
        .iter()
        .all(|attribute| (attribute.buffer as usize) < count)
}

/// The vertex buffers of a pipeline by slot, of which some may be left out, if each has values in range and
/// each attribute is one of a buffer that there is.
pub fn vertex_buffers_of(
    alloc: Global,
    buffers: &[FlatVertexBuffer],
    attributes: &[FlatAttribute],
) -> Result<Option<Items<Option<VertexBuffer>>>, NoMemory>
    ensures { IfOk result (λ meant. meant ≡ vertex_buffers_of buffers.now attributes.now) }
{
    if are_owned(buffers, attributes) {
        return vertex_buffers_from(alloc, buffers, attributes);
    }
    Ok(None)
}
