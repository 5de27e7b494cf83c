//! What comes of asking for limits.
ghost use Rattle.std.specs.Prelude.{◌≡◌, ◌^◌, ◌<◌, [], is_some, IsTrue, IfSome};
ghost use Rattle.std.specs.List.{find, list_all};
ghost use Rattle.wg_limits.specs.Names.{same_limit};
ghost use Rattle.wg_limits.specs.Limits.{default_limits, best_limits, limit_of, is_alignment, no_better, can_ask, limit_for, bound_for, limits_for, limits_asked, is_asked, IsBetween, HaveFixed};
ghost use Rattle.wg_limits.specs.declared.names.LimitName.{LimitName};
ghost use Rattle.wg_limits.specs.declared.names.LimitName.TheVariants.{MaxColorAttachmentBytesPerSample};

use crate::names::LimitName;
use crate::values::{best_limits, default_limits, limit_of};
use wg_types::limits::Limits;

/// Whether a limit is an alignment: of those the smaller value is the better one, of any other limit the
/// greater.
pub fn is_alignment(name: LimitName) -> bool
    ensures { result ≡ is_alignment name }
{
    name == LimitName::MinUniformBufferOffsetAlignment
        || name == LimitName::MinStorageBufferOffsetAlignment
}

/// Whether a value of a limit is no better than another.
pub fn no_better(name: LimitName, value: u64, other: u64) -> bool
    ensures { result ≡ no_better name value other }
{
    if is_alignment(name) {
        other <= value
    } else {
        value <= other
    }
}

/// Whether one can ask for a value of a limit: it is no better than the best, and an alignment is a power of two
/// below 2^32.
pub fn can_ask(name: LimitName, value: u64) -> bool
    ensures { result ≡ can_ask (name, value) }
{
    let best = limit_of(name, &best_limits());
    if is_alignment(name) {
        value >= best && value.is_power_of_two() && value < 1 << 32
    } else {
        value <= best
    }
}

fn can_all(values: &[(LimitName, u64)]) -> bool
    ensures { result ≡ list_all can_ask values.now }
{
    values.iter().all(|&(name, value)| can_ask(name, value))
}

fn value_of(name: LimitName, values: &[(LimitName, u64)]) -> Option<(LimitName, u64)>
    ensures { result ≡ find (λ value. same_limit value.0 name) values.now }
{
    values.iter().copied().find(|value| value.0 == name)
}

fn limit_for(name: LimitName, values: &[(LimitName, u64)]) -> u64
    ensures { result ≡ limit_for name values.now }
{
    let default = limit_of(name, &default_limits());
    match value_of(name, values) {
        Some((_, value)) if is_alignment(name) => default.min(value),
        Some((_, value)) => default.max(value),
        None => default,
    }
}

#[tactic(auto, using(crate::proofs::Between::count_fits))]
fn count_for(name: LimitName, values: &[(LimitName, u64)]) -> u32
    requires offered { IsTrue (list_all can_ask values.now) }
    requires small { limit_of name best_limits < 2 ^ 32 }
    ensures { result ≡ limit_for name values.now }
{
    limit_for(name, values) as u32
}

fn bound_for(name: LimitName, values: &[(LimitName, u64)]) -> Option<u32>
    requires offered { IsTrue (list_all can_ask values.now) }
    requires small { limit_of name best_limits < 2 ^ 32 }
    ensures { result ≡ bound_for name values.now }
{
    match value_of(name, values) {
        Some(_) => Some(count_for(name, values)),
        None => None,
    }
}

fn limits_for(values: &[(LimitName, u64)]) -> Limits
    requires { IsTrue (list_all can_ask values.now) }
    ensures { result ≡ limits_for values.now }
{
    Limits {
        max_texture_dimension_1d: count_for(LimitName::MaxTextureDimension1d, values),
        max_texture_dimension_2d: count_for(LimitName::MaxTextureDimension2d, values),
        max_texture_dimension_3d: count_for(LimitName::MaxTextureDimension3d, values),
        max_texture_array_layers: count_for(LimitName::MaxTextureArrayLayers, values),
        max_bind_groups: count_for(LimitName::MaxBindGroups, values),
        max_bindings_per_bind_group: count_for(LimitName::MaxBindingsPerBindGroup, values),
        max_dynamic_uniform_buffers_per_pipeline_layout: count_for(
            LimitName::MaxDynamicUniformBuffersPerPipelineLayout,
            values,
        ),
        max_dynamic_storage_buffers_per_pipeline_layout: count_for(
            LimitName::MaxDynamicStorageBuffersPerPipelineLayout,
            values,
        ),
        max_sampled_textures_per_shader_stage: count_for(
            LimitName::MaxSampledTexturesPerShaderStage,
            values,
        ),
        max_samplers_per_shader_stage: count_for(LimitName::MaxSamplersPerShaderStage, values),
        max_storage_buffers_per_shader_stage: count_for(
            LimitName::MaxStorageBuffersPerShaderStage,
            values,
        ),
        max_storage_textures_per_shader_stage: count_for(
            LimitName::MaxStorageTexturesPerShaderStage,
            values,
        ),
        max_uniform_buffers_per_shader_stage: count_for(
            LimitName::MaxUniformBuffersPerShaderStage,
            values,
        ),
        max_uniform_buffer_binding_size: limit_for(LimitName::MaxUniformBufferBindingSize, values),
        max_storage_buffer_binding_size: limit_for(LimitName::MaxStorageBufferBindingSize, values),
        min_uniform_buffer_offset_alignment: count_for(
            LimitName::MinUniformBufferOffsetAlignment,
            values,
        ),
        min_storage_buffer_offset_alignment: count_for(
            LimitName::MinStorageBufferOffsetAlignment,
            values,
        ),
        max_vertex_buffers: count_for(LimitName::MaxVertexBuffers, values),
        max_vertex_attributes: count_for(LimitName::MaxVertexAttributes, values),
        max_vertex_buffer_array_stride: count_for(LimitName::MaxVertexBufferArrayStride, values),
        max_buffer_size: limit_for(LimitName::MaxBufferSize, values),
        max_color_attachments: count_for(LimitName::MaxColorAttachments, values),
        max_color_attachment_bytes_per_sample: bound_for(
            LimitName::MaxColorAttachmentBytesPerSample,
            values,
        ),
        max_compute_workgroups_per_dimension: count_for(
            LimitName::MaxComputeWorkgroupsPerDimension,
            values,
        ),
        max_queries_per_set: default_limits().max_queries_per_set,
    }
}

/// The limits of a device of which these values are asked (WebGPU, "requestDevice"): of each limit what is
/// asked, or the default where that is better or nothing is asked. None where a value is better than a device
/// can have, or an alignment is no power of two below 2^32. Where a name stands twice, its first value is the
/// one that counts, and each is looked at.
#[tactic(auto, using(crate::proofs::Between::all_between, crate::proofs::Between::all_fixed, crate::proofs::Between::bound_asked))]
pub fn asked(values: &[(LimitName, u64)]) -> Option<Limits>
    ensures granted { result ≡ limits_asked values.now }
    // Nothing is worse than the default or better than the best.
    ensures between { IfSome result (λ limits. (name : LimitName) → IsBetween name (limit_of name limits)) }
    // What recorders take as constants is so on every device.
    ensures fixed { IfSome result HaveFixed }
    // The bytes of a sample are bounded exactly where that is asked for.
    ensures bounded { IfSome result (λ limits. is_some limits.max_color_attachment_bytes_per_sample ≡ is_asked MaxColorAttachmentBytesPerSample values.now) }
    ensures nothing { values.now ≡ [] → result ≡ Some default_limits }
{
    if can_all(values) {
        Some(limits_for(values))
    } else {
        None
    }
}
