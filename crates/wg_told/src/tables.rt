//! Which value each number of the header stands for.
ghost use Rattle.std.specs.Prelude.{◌≡◌};
ghost use Rattle.wg_told.specs.Tables.{nth, nth_or, maybe_nth, flag_of, maybe_flag_of, wide_of, narrow_of};

use wg_types::bindings::{BufferBinding, SamplerKind, Stage, StorageAccess};
use wg_types::fixed::{BlendFactor, BlendOperation, CullMode, StencilOperation, Topology};
use wg_types::formats::{Format, SampleType};
use wg_types::render::{LoadOp, StoreOp};
use wg_types::replies::Filter;
use wg_types::samplers::{Compare, FilterMode};
use wg_types::textures::{AspectWord, TextureDim, ViewDim};
use wg_types::vertex::{IndexFormat, VertexFormat, VertexStep};

/// Stands for a number or an object that is left out.
pub const LEFT_OUT: u64 = u64::MAX;

pub const FORMATS: [Format; 14] = [
    Format::R8Unorm,
    Format::Rg8Unorm,
    Format::Rgba8Unorm,
    Format::Rgba8UnormSrgb,
    Format::Bgra8Unorm,
    Format::R32Uint,
    Format::R32Float,
    Format::Rgba16Float,
    Format::Rgba32Float,
    Format::Depth16Unorm,
    Format::Depth24Plus,
    Format::Depth24PlusStencil8,
    Format::Depth32Float,
    Format::Stencil8,
];

pub const SAMPLE_TYPES: [SampleType; 5] = [
    SampleType::Float,
    SampleType::UnfilterableFloat,
    SampleType::Depth,
    SampleType::Sint,
    SampleType::Uint,
];

pub const TEXTURE_DIMS: [TextureDim; 3] = [TextureDim::One, TextureDim::Two, TextureDim::Three];

pub const VIEW_DIMS: [ViewDim; 6] = [
    ViewDim::One,
    ViewDim::Two,
    ViewDim::TwoArray,
    ViewDim::Cube,
    ViewDim::CubeArray,
    ViewDim::Three,
];

pub const ASPECTS: [AspectWord; 3] = [
    AspectWord::All,
    AspectWord::DepthOnly,
    AspectWord::StencilOnly,
];

pub const BUFFER_BINDINGS: [BufferBinding; 3] = [
    BufferBinding::Uniform,
    BufferBinding::Storage,
    BufferBinding::ReadOnlyStorage,
];

pub const SAMPLER_KINDS: [SamplerKind; 3] = [
    SamplerKind::Filtering,
    SamplerKind::NonFiltering,
    SamplerKind::Comparison,
];

pub const FILTER_MODES: [FilterMode; 2] = [FilterMode::Nearest, FilterMode::Linear];

pub const COMPARES: [Compare; 8] = [
    Compare::Never,
    Compare::Less,
    Compare::Equal,
    Compare::LessEqual,
    Compare::Greater,
    Compare::NotEqual,
    Compare::GreaterEqual,
    Compare::Always,
];

pub const STORAGE_ACCESSES: [StorageAccess; 3] = [
    StorageAccess::ReadOnly,
    StorageAccess::WriteOnly,
    StorageAccess::ReadWrite,
];

pub const RENDER_STAGES: [Stage; 2] = [Stage::Vertex, Stage::Fragment];

pub const VERTEX_STEPS: [VertexStep; 2] = [VertexStep::Vertex, VertexStep::Instance];

pub const VERTEX_FORMATS: [VertexFormat; 12] = [
    VertexFormat::Uint8x2,
    VertexFormat::Uint8x4,
    VertexFormat::Unorm8x4,
    VertexFormat::Uint16x2,
    VertexFormat::Float16x2,
    VertexFormat::Float32,
    VertexFormat::Uint32,
    VertexFormat::Sint32,
    VertexFormat::Float16x4,
    VertexFormat::Float32x2,
    VertexFormat::Float32x3,
    VertexFormat::Float32x4,
];

pub const INDEX_FORMATS: [IndexFormat; 2] = [IndexFormat::Uint16, IndexFormat::Uint32];

pub const TOPOLOGIES: [Topology; 5] = [
    Topology::PointList,
    Topology::LineList,
    Topology::LineStrip,
    Topology::TriangleList,
    Topology::TriangleStrip,
];

pub const CULL_MODES: [CullMode; 3] = [CullMode::None, CullMode::Front, CullMode::Back];

pub const BLEND_OPERATIONS: [BlendOperation; 5] = [
    BlendOperation::Add,
    BlendOperation::Subtract,
    BlendOperation::ReverseSubtract,
    BlendOperation::Min,
    BlendOperation::Max,
];

pub const BLEND_FACTORS: [BlendFactor; 13] = [
    BlendFactor::Zero,
    BlendFactor::One,
    BlendFactor::Src,
    BlendFactor::OneMinusSrc,
    BlendFactor::SrcAlpha,
    BlendFactor::OneMinusSrcAlpha,
    BlendFactor::Dst,
    BlendFactor::OneMinusDst,
    BlendFactor::DstAlpha,
    BlendFactor::OneMinusDstAlpha,
    BlendFactor::SrcAlphaSaturated,
    BlendFactor::Constant,
    BlendFactor::OneMinusConstant,
];

pub const STENCIL_OPERATIONS: [StencilOperation; 8] = [
    StencilOperation::Keep,
    StencilOperation::Zero,
    StencilOperation::Replace,
    StencilOperation::Invert,
    StencilOperation::IncrementClamp,
    StencilOperation::DecrementClamp,
    StencilOperation::IncrementWrap,
    StencilOperation::DecrementWrap,
];

pub const LOAD_OPS: [LoadOp; 2] = [LoadOp::Load, LoadOp::Clear];

pub const STORE_OPS: [StoreOp; 2] = [StoreOp::Store, StoreOp::Discard];

pub const FILTERS: [Filter; 3] = [Filter::Validation, Filter::OutOfMemory, Filter::Internal];

const FLAGS: [bool; 2] = [false, true];

const MAYBE_FLAGS: [Option<bool>; 3] = [Some(false), Some(true), None];

/// The value of a number, if it has one.
pub fn nth<T: Copy>(table: &[T], number: u32) -> Option<T>
    ensures { result ≡ nth table.now number }
{
    if number == 0 {
        return None;
    }
    table.get((number - 1) as usize).copied()
}

/// The same where 0 stands for the value that is usual.
pub fn nth_or<T: Copy>(table: &[T], usual: T, number: u32) -> Option<T>
    ensures { result ≡ nth_or table.now usual number }
{
    if number == 0 {
        return Some(usual);
    }
    table.get((number - 1) as usize).copied()
}

/// The same of a value that may be left out.
pub fn maybe_nth<T: Copy>(table: &[T], number: u32) -> Option<Option<T>>
    ensures { result ≡ maybe_nth table.now number }
{
    if number == 0 {
        return Some(None);
    }
    match table.get((number - 1) as usize) {
        Some(value) => Some(Some(*value)),
        None => None,
    }
}

/// A flag, if it is one.
pub fn flag_of(number: u32) -> Option<bool>
    ensures { result ≡ flag_of number }
{
    FLAGS.get(number as usize).copied()
}

/// A flag that may be left out, if it is one.
pub fn maybe_flag_of(number: u32) -> Option<Option<bool>>
    ensures { result ≡ maybe_flag_of number }
{
    MAYBE_FLAGS.get(number as usize).copied()
}

/// A number or an object that may be left out.
pub fn wide_of(number: u64) -> Option<u64>
    ensures { result ≡ wide_of number }
{
    if number == LEFT_OUT {
        return None;
    }
    Some(number)
}

/// A number of 32 bits that may be left out, if it is one.
pub fn narrow_of(number: u64) -> Option<Option<u32>>
    ensures { result ≡ narrow_of number }
{
    if number == LEFT_OUT {
        return Some(None);
    }
    if number < 1 << 32 {
        return Some(Some(number as u32));
    }
    None
}
