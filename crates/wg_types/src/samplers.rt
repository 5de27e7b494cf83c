//! What samplers are asked for with.
ghost use Rattle.std.specs.Prelude.{◌≡◌};
ghost use Rattle.wg_types.specs.Samplers.{is_linear, sampler_kind};

use crate::bindings::SamplerKind;

/// How a value is compared with another (WebGPU, "GPUCompareFunction").
#[derive(Clone, Copy, PartialEq, Eq)]
pub enum Compare {
    Never,
    Less,
    Equal,
    LessEqual,
    Greater,
    NotEqual,
    GreaterEqual,
    Always,
}

/// How texels or mip levels that lie beside one another are sampled (WebGPU, "GPUFilterMode" and
/// "GPUMipmapFilterMode").
#[derive(Clone, Copy, PartialEq, Eq)]
pub enum FilterMode {
    Nearest,
    Linear,
}

impl FilterMode {
    /// Whether what lies beside one another is mixed.
    pub fn is_linear(self) -> bool
        ensures { result ≡ is_linear self }
    {
        match self {
            FilterMode::Nearest => false,
            FilterMode::Linear => true,
        }
    }
}

/// A sampler as it is described (WebGPU, "GPUSamplerDescriptor"). The levels of detail, `lod_min` and
/// `lod_max`, stand for themselves over 65536. How it addresses what lies outside of a texture is not told:
/// no rule goes by that.
#[derive(Clone, Copy, PartialEq, Eq)]
pub struct SamplerFields {
    pub mag_filter: FilterMode,
    pub min_filter: FilterMode,
    pub mipmap_filter: FilterMode,
    pub compare: Option<Compare>,
    pub lod_min: u64,
    pub lod_max: u64,
    pub max_anisotropy: u32,
}

/// What a sampler is asked for with: its kind alone, or what describes it, of which the kind is derived.
#[derive(Clone, Copy, PartialEq, Eq)]
pub enum SamplerDesc {
    Kind(SamplerKind),
    Full(SamplerFields),
}

impl SamplerDesc {
    /// The kind of the sampler (WebGPU, "GPUSampler", "[[isComparison]]" and "[[isFiltering]]"): one that
    /// compares; or else one that filters, if one of its filters is linear; or else one that does not.
    pub fn kind(&self) -> SamplerKind
        ensures { result ≡ sampler_kind self.now }
    {
        match self {
            SamplerDesc::Kind(kind) => *kind,
            SamplerDesc::Full(fields) if fields.compare.is_some() => SamplerKind::Comparison,
            SamplerDesc::Full(fields)
                if fields.mag_filter.is_linear()
                    || fields.min_filter.is_linear()
                    || fields.mipmap_filter.is_linear() => SamplerKind::Filtering,
            SamplerDesc::Full(_) => SamplerKind::NonFiltering,
        }
    }
}
