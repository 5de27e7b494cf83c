//! The locations of the attributes of all vertex buffers.
ghost use Rattle.std.specs.Prelude.{◌≡◌, ◌==◌, nat_lt, nat_le, length};
ghost use Rattle.std.specs.List.{list_all, list_any};
ghost use Rattle.wg_types.specs.declared.vertex.VertexAttribute.{VertexAttribute};
ghost use Rattle.wg_model.specs.Vertex.{all_attributes, locations_are_distinct};
ghost use Rattle.wg_vertex.specs.Apart.{apart_from};

use crate::attributes::attributes_of;
use wg_types::vertex::{VertexAttribute, VertexBuffer};

/// Whether the buffers have no more than `most` attributes.
pub fn are_few(buffers: &[Option<VertexBuffer>], most: u32) -> bool
    ensures { result ≡ nat_le (length (all_attributes buffers.now)) most }
{
    let mut left = u64::from(most);
    for buffer in buffers {
        let found = attributes_of(buffer).len() as u64;
        if found > left {
            return false;
        }
        left -= found;
    }
    true
}

fn are_all_below(attributes: &[VertexAttribute], most: u32) -> bool
    ensures { result ≡ list_all (λ (attribute : VertexAttribute). nat_lt attribute.location most) attributes.now }
{
    attributes.iter().all(|attribute| attribute.location < most)
}

/// Whether each location in the buffers is below `most`.
#[tactic(auto, using(crate::proofs::Joined::all_joined))]
pub fn are_below(buffers: &[Option<VertexBuffer>], most: u32) -> bool
    ensures { result ≡ list_all (λ (attribute : VertexAttribute). nat_lt attribute.location most) (all_attributes buffers.now) }
{
    for buffer in buffers {
        if !are_all_below(attributes_of(buffer), most) {
            return false;
        }
    }
    true
}

/// Whether an attribute has a location.
fn has(attributes: &[VertexAttribute], location: u32) -> bool
    ensures { result ≡ list_any (λ (other : VertexAttribute). other.location == location) attributes.now }
{
    attributes.iter().any(|other| other.location == location)
}

/// Whether an attribute of the buffers has a location.
#[tactic(auto, using(crate::proofs::Joined::any_joined))]
fn buffers_have(buffers: &[Option<VertexBuffer>], location: u32) -> bool
    ensures { result ≡ list_any (λ (other : VertexAttribute). other.location == location) (all_attributes buffers.now) }
{
    for buffer in buffers {
        if has(attributes_of(buffer), location) {
            return true;
        }
    }
    false
}

/// Whether each attribute has a location that neither one behind it nor one of the further buffers has.
fn are_apart_from(attributes: &[VertexAttribute], further: &[Option<VertexBuffer>]) -> bool
    ensures { result ≡ apart_from attributes.now (all_attributes further.now) }
{
    for (i, attribute) in attributes.iter().enumerate() {
        if has(&attributes[i + 1..], attribute.location) {
            return false;
        }
        if buffers_have(further, attribute.location) {
            return false;
        }
    }
    true
}

/// Whether no two attributes in the buffers have one location.
pub fn are_apart(buffers: &[Option<VertexBuffer>]) -> bool
    ensures { result ≡ locations_are_distinct (all_attributes buffers.now) }
{
    for (i, buffer) in buffers.iter().enumerate() {
        if !are_apart_from(attributes_of(buffer), &buffers[i + 1..]) {
            return false;
        }
    }
    true
}
