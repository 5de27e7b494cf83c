//! The words of vertex and index buffers (WebGPU, "GPUVertexFormat", "GPUVertexStepMode" and
//! "GPUIndexFormat"), and of what becomes of attachments (WebGPU, "GPULoadOp" and "GPUStoreOp").

use wg_types::render::{LoadOp, StoreOp};
use wg_types::vertex::{IndexFormat, VertexFormat, VertexStep};

pub const VERTEX_FORMATS: [(&str, VertexFormat); 12] = [
    ("uint8x2", VertexFormat::Uint8x2),
    ("uint8x4", VertexFormat::Uint8x4),
    ("unorm8x4", VertexFormat::Unorm8x4),
    ("uint16x2", VertexFormat::Uint16x2),
    ("float16x2", VertexFormat::Float16x2),
    ("float32", VertexFormat::Float32),
    ("uint32", VertexFormat::Uint32),
    ("sint32", VertexFormat::Sint32),
    ("float16x4", VertexFormat::Float16x4),
    ("float32x2", VertexFormat::Float32x2),
    ("float32x3", VertexFormat::Float32x3),
    ("float32x4", VertexFormat::Float32x4),
];

pub const STEPS: [(&str, VertexStep); 2] = [
    ("vertex", VertexStep::Vertex),
    ("instance", VertexStep::Instance),
];

pub const INDEX_FORMATS: [(&str, IndexFormat); 2] = [
    ("uint16", IndexFormat::Uint16),
    ("uint32", IndexFormat::Uint32),
];

pub const LOADS: [(&str, LoadOp); 2] = [("load", LoadOp::Load), ("clear", LoadOp::Clear)];

pub const STORES: [(&str, StoreOp); 2] = [("store", StoreOp::Store), ("discard", StoreOp::Discard)];
