//! The words of the fixed function of render pipelines: of how targets are blended (WebGPU, "GPUBlendOperation"
//! and "GPUBlendFactor"), of depth and stencil (WebGPU, "GPUStencilOperation"), and of what vertices make
//! (WebGPU, "GPUPrimitiveTopology", "GPUFrontFace" and "GPUCullMode").

use wg_types::fixed::{BlendFactor, BlendOperation, CullMode, StencilOperation, Topology};
use wg_types::samplers::Compare;

pub const BLEND_OPERATIONS: [(&str, BlendOperation); 5] = [
    ("add", BlendOperation::Add),
    ("subtract", BlendOperation::Subtract),
    ("reverse-subtract", BlendOperation::ReverseSubtract),
    ("min", BlendOperation::Min),
    ("max", BlendOperation::Max),
];

pub const BLEND_FACTORS: [(&str, BlendFactor); 13] = [
    ("zero", BlendFactor::Zero),
    ("one", BlendFactor::One),
    ("src", BlendFactor::Src),
    ("one-minus-src", BlendFactor::OneMinusSrc),
    ("src-alpha", BlendFactor::SrcAlpha),
    ("one-minus-src-alpha", BlendFactor::OneMinusSrcAlpha),
    ("dst", BlendFactor::Dst),
    ("one-minus-dst", BlendFactor::OneMinusDst),
    ("dst-alpha", BlendFactor::DstAlpha),
    ("one-minus-dst-alpha", BlendFactor::OneMinusDstAlpha),
    ("src-alpha-saturated", BlendFactor::SrcAlphaSaturated),
    ("constant", BlendFactor::Constant),
    ("one-minus-constant", BlendFactor::OneMinusConstant),
];

/// The comparisons of depth, and `none` where it is left out how depth is compared.
pub const DEPTH_COMPARES: [(&str, Option<Compare>); 9] = [
    ("never", Some(Compare::Never)),
    ("less", Some(Compare::Less)),
    ("equal", Some(Compare::Equal)),
    ("less-equal", Some(Compare::LessEqual)),
    ("greater", Some(Compare::Greater)),
    ("not-equal", Some(Compare::NotEqual)),
    ("greater-equal", Some(Compare::GreaterEqual)),
    ("always", Some(Compare::Always)),
    ("none", None),
];

pub const STENCIL_OPERATIONS: [(&str, StencilOperation); 8] = [
    ("keep", StencilOperation::Keep),
    ("zero", StencilOperation::Zero),
    ("replace", StencilOperation::Replace),
    ("invert", StencilOperation::Invert),
    ("increment-clamp", StencilOperation::IncrementClamp),
    ("decrement-clamp", StencilOperation::DecrementClamp),
    ("increment-wrap", StencilOperation::IncrementWrap),
    ("decrement-wrap", StencilOperation::DecrementWrap),
];

pub const TOPOLOGIES: [(&str, Topology); 5] = [
    ("point-list", Topology::PointList),
    ("line-list", Topology::LineList),
    ("line-strip", Topology::LineStrip),
    ("triangle-list", Topology::TriangleList),
    ("triangle-strip", Topology::TriangleStrip),
];

/// No rule goes by these: they stand for nothing.
pub const FRONT_FACES: [(&str, ()); 2] = [("ccw", ()), ("cw", ())];

pub const CULL_MODES: [(&str, CullMode); 3] = [
    ("none", CullMode::None),
    ("front", CullMode::Front),
    ("back", CullMode::Back),
];
