//! The values of limits.
ghost use Rattle.std.specs.Prelude.{◌≡◌};
ghost use Rattle.wg_limits.specs.Limits.{default_limits, best_limits, limit_of};

use crate::names::LimitName;
use wg_types::limits::Limits;

/// The limits of a device that is opened without asking for any (WebGPU, "Limits"). The bytes of a sample of all
/// color attachments are not bounded by it.
pub fn default_limits() -> Limits
    ensures { result ≡ default_limits }
{
    Limits {
        max_texture_dimension_1d: 8192,
        max_texture_dimension_2d: 8192,
        max_texture_dimension_3d: 2048,
        max_texture_array_layers: 256,
        max_bind_groups: 4,
        max_bindings_per_bind_group: 1000,
        max_dynamic_uniform_buffers_per_pipeline_layout: 8,
        max_dynamic_storage_buffers_per_pipeline_layout: 4,
        max_sampled_textures_per_shader_stage: 16,
        max_samplers_per_shader_stage: 16,
        max_storage_buffers_per_shader_stage: 8,
        max_storage_textures_per_shader_stage: 4,
        max_uniform_buffers_per_shader_stage: 12,
        max_uniform_buffer_binding_size: 65536,
        max_storage_buffer_binding_size: 134217728,
        min_uniform_buffer_offset_alignment: 256,
        min_storage_buffer_offset_alignment: 256,
        max_vertex_buffers: 8,
        max_vertex_attributes: 16,
        max_vertex_buffer_array_stride: 2048,
        max_buffer_size: 268435456,
        max_color_attachments: 8,
        max_color_attachment_bytes_per_sample: None,
        max_compute_workgroups_per_dimension: 65535,
        max_queries_per_set: 4096,
    }
}

/// The best limits that one can ask for.
pub fn best_limits() -> Limits
    ensures { result ≡ best_limits }
{
    Limits {
        max_texture_dimension_1d: 16384,
        max_texture_dimension_2d: 16384,
        max_texture_dimension_3d: 4096,
        max_texture_array_layers: 2048,
        max_bindings_per_bind_group: 4000,
        max_dynamic_uniform_buffers_per_pipeline_layout: 16,
        max_dynamic_storage_buffers_per_pipeline_layout: 8,
        max_sampled_textures_per_shader_stage: 64,
        max_samplers_per_shader_stage: 32,
        max_storage_buffers_per_shader_stage: 32,
        max_storage_textures_per_shader_stage: 16,
        max_uniform_buffers_per_shader_stage: 24,
        max_uniform_buffer_binding_size: 1048576,
        max_storage_buffer_binding_size: 4294967296,
        max_vertex_attributes: 32,
        max_vertex_buffer_array_stride: 8192,
        max_buffer_size: 4294967296,
        max_color_attachment_bytes_per_sample: Some(128),
        ..default_limits()
    }
}

/// A limit by its name. A device without a bound of the bytes of a sample tells the default of WebGPU.
pub fn limit_of(name: LimitName, limits: &Limits) -> u64
    ensures { result ≡ limit_of name limits.now }
{
    match name {
        LimitName::MaxTextureDimension1d => u64::from(limits.max_texture_dimension_1d),
        LimitName::MaxTextureDimension2d => u64::from(limits.max_texture_dimension_2d),
        LimitName::MaxTextureDimension3d => u64::from(limits.max_texture_dimension_3d),
        LimitName::MaxTextureArrayLayers => u64::from(limits.max_texture_array_layers),
        LimitName::MaxBindGroups => u64::from(limits.max_bind_groups),
        LimitName::MaxBindingsPerBindGroup => u64::from(limits.max_bindings_per_bind_group),
        LimitName::MaxDynamicUniformBuffersPerPipelineLayout => u64::from(
            limits.max_dynamic_uniform_buffers_per_pipeline_layout,
        ),
        LimitName::MaxDynamicStorageBuffersPerPipelineLayout => u64::from(
            limits.max_dynamic_storage_buffers_per_pipeline_layout,
        ),
        LimitName::MaxSampledTexturesPerShaderStage => u64::from(
            limits.max_sampled_textures_per_shader_stage,
        ),
        LimitName::MaxSamplersPerShaderStage => u64::from(limits.max_samplers_per_shader_stage),
        LimitName::MaxStorageBuffersPerShaderStage => u64::from(
            limits.max_storage_buffers_per_shader_stage,
        ),
        LimitName::MaxStorageTexturesPerShaderStage => u64::from(
            limits.max_storage_textures_per_shader_stage,
        ),
        LimitName::MaxUniformBuffersPerShaderStage => u64::from(
            limits.max_uniform_buffers_per_shader_stage,
        ),
        LimitName::MaxUniformBufferBindingSize => limits.max_uniform_buffer_binding_size,
        LimitName::MaxStorageBufferBindingSize => limits.max_storage_buffer_binding_size,
        LimitName::MinUniformBufferOffsetAlignment => u64::from(
            limits.min_uniform_buffer_offset_alignment,
        ),
        LimitName::MinStorageBufferOffsetAlignment => u64::from(
            limits.min_storage_buffer_offset_alignment,
        ),
        LimitName::MaxVertexBuffers => u64::from(limits.max_vertex_buffers),
        LimitName::MaxVertexAttributes => u64::from(limits.max_vertex_attributes),
        LimitName::MaxVertexBufferArrayStride => u64::from(limits.max_vertex_buffer_array_stride),
        LimitName::MaxBufferSize => limits.max_buffer_size,
        LimitName::MaxColorAttachments => u64::from(limits.max_color_attachments),
        LimitName::MaxComputeWorkgroupsPerDimension => u64::from(
            limits.max_compute_workgroups_per_dimension,
        ),
        LimitName::MaxColorAttachmentBytesPerSample => u64::from(
            limits.max_color_attachment_bytes_per_sample.unwrap_or(32),
        ),
    }
}
