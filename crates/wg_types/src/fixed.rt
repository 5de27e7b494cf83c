//! Fixed function of render pipelines: what becomes of colors, of depth and stencil, and of primitives.
ghost use Rattle.std.specs.Prelude.{◌≡◌};
ghost use Rattle.wg_types.specs.Fixed.{is_strip, strip_of};

use crate::formats::Format;
use crate::samplers::Compare;
use crate::vertex::IndexFormat;

/// What is made of the two values that are blended (WebGPU, "GPUBlendOperation").
#[derive(Clone, Copy, PartialEq, Eq)]
pub enum BlendOperation {
    Add,
    Subtract,
    ReverseSubtract,
    Min,
    Max,
}

/// By what a value is multiplied before it is blended (WebGPU, "GPUBlendFactor").
#[derive(Clone, Copy, PartialEq, Eq)]
pub enum BlendFactor {
    Zero,
    One,
    Src,
    OneMinusSrc,
    SrcAlpha,
    OneMinusSrcAlpha,
    Dst,
    OneMinusDst,
    DstAlpha,
    OneMinusDstAlpha,
    SrcAlphaSaturated,
    Constant,
    OneMinusConstant,
}

/// How the colors of a target are blended, or its alphas (WebGPU, "GPUBlendComponent").
#[derive(Clone, Copy, PartialEq, Eq)]
pub struct BlendComponent {
    pub operation: BlendOperation,
    pub src_factor: BlendFactor,
    pub dst_factor: BlendFactor,
}

/// How a target is blended (WebGPU, "GPUBlendState").
#[derive(Clone, Copy, PartialEq, Eq)]
pub struct BlendState {
    pub color: BlendComponent,
    pub alpha: BlendComponent,
}

/// A color target of a render pipeline (WebGPU, "GPUColorTargetState"). The bits of `write_mask` are those of
/// WebGPU's "GPUColorWrite": red 1, green 2, blue 4, alpha 8.
#[derive(Clone, Copy, PartialEq, Eq)]
pub struct Target {
    pub format: Format,
    pub blend: Option<BlendState>,
    pub write_mask: u32,
}

/// What becomes of a value of the stencil (WebGPU, "GPUStencilOperation").
#[derive(Clone, Copy, PartialEq, Eq)]
pub enum StencilOperation {
    Keep,
    Zero,
    Replace,
    Invert,
    IncrementClamp,
    DecrementClamp,
    IncrementWrap,
    DecrementWrap,
}

/// What a render pipeline does with the stencil where it draws fronts, or backs (WebGPU,
/// "GPUStencilFaceState").
#[derive(Clone, Copy, PartialEq, Eq)]
pub struct StencilFace {
    pub compare: Compare,
    pub fail_op: StencilOperation,
    pub depth_fail_op: StencilOperation,
    pub pass_op: StencilOperation,
}

/// What a render pipeline does with the stencil. With `Written` that is told by whether it writes it alone,
/// and is nothing that a rule of formats goes by but that; with `Faces` by what it does with both sorts of
/// faces, and with the bits of a value that it writes. The bits that it reads are not told: no rule goes by
/// them.
#[derive(Clone, Copy, PartialEq, Eq)]
pub enum StencilState {
    Written(bool),
    Faces {
        front: StencilFace,
        back: StencilFace,
        write_mask: u32,
    },
}

/// What a render pipeline does with depth and stencil (WebGPU, "GPUDepthStencilState"). `depth_write` and
/// `depth_compare` are none where they are left out, which they may be where the format has no depth. `bias`
/// is whether there is a bias of depth.
#[derive(Clone, Copy, PartialEq, Eq)]
pub struct DepthState {
    pub format: Format,
    pub depth_write: Option<bool>,
    pub depth_compare: Option<Compare>,
    pub stencil: StencilState,
    pub bias: bool,
}

/// What vertices make (WebGPU, "GPUPrimitiveTopology").
#[derive(Clone, Copy, PartialEq, Eq)]
pub enum Topology {
    PointList,
    LineList,
    LineStrip,
    TriangleList,
    TriangleStrip,
}

impl Topology {
    /// Whether vertices go on with what those before them made.
    pub fn is_strip(self) -> bool
        ensures { result ≡ is_strip self }
    {
        match self {
            Topology::LineStrip | Topology::TriangleStrip => true,
            Topology::PointList | Topology::LineList | Topology::TriangleList => false,
        }
    }
}

/// Which faces are not drawn (WebGPU, "GPUCullMode").
#[derive(Clone, Copy, PartialEq, Eq)]
pub enum CullMode {
    None,
    Front,
    Back,
}

/// What vertices make, and what is drawn of it (WebGPU, "GPUPrimitiveState"). Which faces are fronts is not
/// told: no rule goes by that.
#[derive(Clone, Copy, PartialEq, Eq)]
pub struct PrimitiveState {
    pub topology: Topology,
    pub strip_index_format: Option<IndexFormat>,
    pub cull_mode: CullMode,
}

impl PrimitiveState {
    /// Of what format the indexes of strips are, if that is told, where strips are made.
    pub fn strip(&self) -> Option<Option<IndexFormat>>
        ensures { result ≡ strip_of self.now }
    {
        if self.topology.is_strip() {
            Some(self.strip_index_format)
        } else {
            None
        }
    }
}
