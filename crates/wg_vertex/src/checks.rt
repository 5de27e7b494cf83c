//! The rules in their order.
ghost use Rattle.std.specs.Prelude.{◌≡◌};
ghost use Rattle.wg_model.specs.Rules.{first_unmet};
ghost use Rattle.wg_model.specs.Vertex.{each_buffer, stride_fits, attributes_fit, layout_rules};

use crate::attributes::attributes_fit;
use crate::locations::{are_apart, are_below, are_few};
use wg_rules::{VERTEX_ATTRIBUTES_FIT, VERTEX_BUFFERS_ARE_WITHIN_LIMITS};
use wg_types::limits::Limits;
use wg_types::render::RenderDesc;
use wg_types::vertex::VertexBuffer;

/// Whether a stride is a multiple of 4 within the limit.
fn stride_fits(limits: &Limits, buffer: &VertexBuffer) -> bool
    ensures { result ≡ stride_fits limits.now buffer.now }
{
    buffer.stride % 4 == 0 && buffer.stride <= limits.max_vertex_buffer_array_stride
}

/// Whether the strides of all buffers that are not left out fit.
fn strides_fit(limits: &Limits, buffers: &[Option<VertexBuffer>]) -> bool
    ensures { result ≡ each_buffer (stride_fits limits.now) buffers.now }
{
    buffers.iter().all(|buffer| buffer
        .as_ref()
        .is_none_or(|given| stride_fits(limits, given)))
}

/// Whether the attributes of each buffer that is not left out fit it.
fn all_fit(limits: &Limits, buffers: &[Option<VertexBuffer>]) -> bool
    ensures { result ≡ each_buffer (attributes_fit limits.now) buffers.now }
{
    buffers.iter().all(|buffer| buffer
        .as_ref()
        .is_none_or(|given| attributes_fit(limits, given)))
}

/// The number of the first unmet rule of the vertex buffers of a render pipeline on a device of these
/// limits (WebGPU, "Vertex State"); none where they serve.
#[tactic(auto, unfolding(wg_model::specs::Vertex::layout_rules))]
pub fn check_layout(desc: &RenderDesc, limits: &Limits) -> Option<u16>
    ensures { result ≡ first_unmet (layout_rules limits.now desc.now.buffers) }
{
    let buffers = desc.buffers.as_slice();
    if buffers.len() as u64 > u64::from(limits.max_vertex_buffers) {
        return Some(VERTEX_BUFFERS_ARE_WITHIN_LIMITS);
    }
    if !are_few(buffers, limits.max_vertex_attributes) {
        return Some(VERTEX_BUFFERS_ARE_WITHIN_LIMITS);
    }
    if !strides_fit(limits, buffers) {
        return Some(VERTEX_BUFFERS_ARE_WITHIN_LIMITS);
    }
    if !are_below(buffers, limits.max_vertex_attributes) {
        return Some(VERTEX_ATTRIBUTES_FIT);
    }
    if !are_apart(buffers) {
        return Some(VERTEX_ATTRIBUTES_FIT);
    }
    if !all_fit(limits, buffers) {
        return Some(VERTEX_ATTRIBUTES_FIT);
    }
    None
}
