//! The layouts of vertex and index buffers.
ghost use Rattle.std.specs.Prelude.{◌≡◌};
ghost use Rattle.wg_types.specs.Vertex.{vertex_bytes, index_bytes};

use crate::items::Items;

/// The formats of vertex attributes (WebGPU, "GPUVertexFormat").
#[derive(Clone, Copy, PartialEq, Eq)]
pub enum VertexFormat {
    Uint8x2,
    Uint8x4,
    Unorm8x4,
    Uint16x2,
    Float16x2,
    Float32,
    Uint32,
    Sint32,
    Float16x4,
    Float32x2,
    Float32x3,
    Float32x4,
}

impl VertexFormat {
    /// The bytes that an attribute of the format takes.
    pub fn bytes(self) -> u32
        ensures { result ≡ vertex_bytes self }
    {
        match self {
            VertexFormat::Uint8x2 => 2,
            VertexFormat::Uint8x4
            | VertexFormat::Unorm8x4
            | VertexFormat::Uint16x2
            | VertexFormat::Float16x2
            | VertexFormat::Float32
            | VertexFormat::Uint32
            | VertexFormat::Sint32 => 4,
            VertexFormat::Float16x4 | VertexFormat::Float32x2 => 8,
            VertexFormat::Float32x3 => 12,
            VertexFormat::Float32x4 => 16,
        }
    }
}

/// Whether a vertex buffer goes on with each vertex or with each instance (WebGPU, "GPUVertexStepMode").
#[derive(Clone, Copy, PartialEq, Eq)]
pub enum VertexStep {
    Vertex,
    Instance,
}

/// An attribute of a vertex buffer (WebGPU, "GPUVertexAttribute"): its offset in bytes from where its
/// vertex or instance begins, and the location in the shader.
#[derive(Clone, Copy, PartialEq, Eq)]
pub struct VertexAttribute {
    pub format: VertexFormat,
    pub offset: u32,
    pub location: u32,
}

/// The layout of a vertex buffer (WebGPU, "GPUVertexBufferLayout"): `stride` bytes from one vertex or
/// instance to the next.
#[derive(Clone, Drop)]
pub struct VertexBuffer {
    pub stride: u32,
    pub step: VertexStep,
    pub attributes: Items<VertexAttribute>,
}

/// The formats of indexes (WebGPU, "GPUIndexFormat").
#[derive(Clone, Copy, PartialEq, Eq)]
pub enum IndexFormat {
    Uint16,
    Uint32,
}

impl IndexFormat {
    /// The bytes that an index takes.
    pub fn bytes(self) -> u64
        ensures { result ≡ index_bytes self }
    {
        match self {
            IndexFormat::Uint16 => 2,
            IndexFormat::Uint32 => 4,
        }
    }
}
