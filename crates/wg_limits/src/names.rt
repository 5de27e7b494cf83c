//! The names of limits, as one asks for them.
ghost use Rattle.std.specs.Prelude.{◌≡◌, Some};
ghost use Rattle.wg_limits.specs.Names.{limit_names, limit_text, limit_named};
ghost use Rattle.wg_limits.specs.declared.names.LimitName.{LimitName};

/// A limit that one can ask for (WebGPU, "Limits").
#[derive(Clone, Copy, PartialEq, Eq)]
pub enum LimitName {
    MaxTextureDimension1d,
    MaxTextureDimension2d,
    MaxTextureDimension3d,
    MaxTextureArrayLayers,
    MaxBindGroups,
    MaxBindingsPerBindGroup,
    MaxDynamicUniformBuffersPerPipelineLayout,
    MaxDynamicStorageBuffersPerPipelineLayout,
    MaxSampledTexturesPerShaderStage,
    MaxSamplersPerShaderStage,
    MaxStorageBuffersPerShaderStage,
    MaxStorageTexturesPerShaderStage,
    MaxUniformBuffersPerShaderStage,
    MaxUniformBufferBindingSize,
    MaxStorageBufferBindingSize,
    MinUniformBufferOffsetAlignment,
    MinStorageBufferOffsetAlignment,
    MaxVertexBuffers,
    MaxVertexAttributes,
    MaxVertexBufferArrayStride,
    MaxBufferSize,
    MaxColorAttachments,
    MaxComputeWorkgroupsPerDimension,
    MaxColorAttachmentBytesPerSample,
}

/// All of them.
const NAMES: [LimitName; 24] = [
    LimitName::MaxTextureDimension1d,
    LimitName::MaxTextureDimension2d,
    LimitName::MaxTextureDimension3d,
    LimitName::MaxTextureArrayLayers,
    LimitName::MaxBindGroups,
    LimitName::MaxBindingsPerBindGroup,
    LimitName::MaxDynamicUniformBuffersPerPipelineLayout,
    LimitName::MaxDynamicStorageBuffersPerPipelineLayout,
    LimitName::MaxSampledTexturesPerShaderStage,
    LimitName::MaxSamplersPerShaderStage,
    LimitName::MaxStorageBuffersPerShaderStage,
    LimitName::MaxStorageTexturesPerShaderStage,
    LimitName::MaxUniformBuffersPerShaderStage,
    LimitName::MaxUniformBufferBindingSize,
    LimitName::MaxStorageBufferBindingSize,
    LimitName::MinUniformBufferOffsetAlignment,
    LimitName::MinStorageBufferOffsetAlignment,
    LimitName::MaxVertexBuffers,
    LimitName::MaxVertexAttributes,
    LimitName::MaxVertexBufferArrayStride,
    LimitName::MaxBufferSize,
    LimitName::MaxColorAttachments,
    LimitName::MaxComputeWorkgroupsPerDimension,
    LimitName::MaxColorAttachmentBytesPerSample,
];

impl LimitName {
    /// All of them, in the order in which callers in C number them.
    pub fn all() -> &'static [LimitName]
        ensures { result.now ≡ limit_names }
    {
        &NAMES
    }

    /// How the name is spelled.
    pub fn as_str(self) -> &'static str
        ensures { result.now ≡ limit_text self }
    {
        match self {
            LimitName::MaxTextureDimension1d => "maxTextureDimension1D",
            LimitName::MaxTextureDimension2d => "maxTextureDimension2D",
            LimitName::MaxTextureDimension3d => "maxTextureDimension3D",
            LimitName::MaxTextureArrayLayers => "maxTextureArrayLayers",
            LimitName::MaxBindGroups => "maxBindGroups",
            LimitName::MaxBindingsPerBindGroup => "maxBindingsPerBindGroup",
            LimitName::MaxDynamicUniformBuffersPerPipelineLayout =>
                "maxDynamicUniformBuffersPerPipelineLayout",
            LimitName::MaxDynamicStorageBuffersPerPipelineLayout =>
                "maxDynamicStorageBuffersPerPipelineLayout",
            LimitName::MaxSampledTexturesPerShaderStage => "maxSampledTexturesPerShaderStage",
            LimitName::MaxSamplersPerShaderStage => "maxSamplersPerShaderStage",
            LimitName::MaxStorageBuffersPerShaderStage => "maxStorageBuffersPerShaderStage",
            LimitName::MaxStorageTexturesPerShaderStage => "maxStorageTexturesPerShaderStage",
            LimitName::MaxUniformBuffersPerShaderStage => "maxUniformBuffersPerShaderStage",
            LimitName::MaxUniformBufferBindingSize => "maxUniformBufferBindingSize",
            LimitName::MaxStorageBufferBindingSize => "maxStorageBufferBindingSize",
            LimitName::MinUniformBufferOffsetAlignment => "minUniformBufferOffsetAlignment",
            LimitName::MinStorageBufferOffsetAlignment => "minStorageBufferOffsetAlignment",
            LimitName::MaxVertexBuffers => "maxVertexBuffers",
            LimitName::MaxVertexAttributes => "maxVertexAttributes",
            LimitName::MaxVertexBufferArrayStride => "maxVertexBufferArrayStride",
            LimitName::MaxBufferSize => "maxBufferSize",
            LimitName::MaxColorAttachments => "maxColorAttachments",
            LimitName::MaxComputeWorkgroupsPerDimension => "maxComputeWorkgroupsPerDimension",
            LimitName::MaxColorAttachmentBytesPerSample => "maxColorAttachmentBytesPerSample",
        }
    }

    /// The limit that a text names. The text of each name names just that limit.
    #[tactic(auto, using(crate::proofs::NameLemmas::text_names), unfolding(crate::specs::Names::limit_named))]
    pub fn of_text(text: &str) -> Option<LimitName>
        ensures found { result ≡ limit_named text.now }
        ensures each { (name : LimitName) → limit_named (limit_text name) ≡ Some name }
    {
        NAMES.iter().copied().find(|name| name.as_str() == text)
    }
}
