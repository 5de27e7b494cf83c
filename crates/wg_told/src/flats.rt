//! What a caller in C asks with: flat structs of numbers, as the header has them.

#[repr(C)]
#[derive(Clone, Copy)]
pub struct FlatLimit {
    pub name: u32,
    pub value: u64,
}

#[repr(C)]
#[derive(Clone, Copy)]
pub struct FlatExtent {
    pub width: u32,
    pub height: u32,
    pub depth: u32,
}

#[repr(C)]
#[derive(Clone, Copy)]
pub struct FlatOrigin {
    pub x: u32,
    pub y: u32,
    pub z: u32,
}

#[repr(C)]
#[derive(Clone, Copy)]
pub struct FlatBuffer {
    pub size: u64,
    pub usage: u32,
    pub mapped: u32,
}

#[repr(C)]
#[derive(Clone, Copy)]
pub struct FlatTexture {
    pub size: FlatExtent,
    pub usage: u32,
    pub format: u32,
    pub dim: u32,
    pub mips: u32,
    pub samples: u32,
}

#[repr(C)]
#[derive(Clone, Copy)]
pub struct FlatView {
    pub mips: u64,
    pub layers: u64,
    pub dim: u32,
    pub aspect: u32,
    pub base_mip: u32,
    pub base_layer: u32,
}

/// A sampler by what describes it. Its levels of detail stand for themselves over 65536.
#[repr(C)]
#[derive(Clone, Copy)]
pub struct FlatSampler {
    pub lod_min: u64,
    pub lod_max: u64,
    pub mag_filter: u32,
    pub min_filter: u32,
    pub mipmap_filter: u32,
    pub compare: u32,
    pub max_anisotropy: u32,
}

#[repr(C)]
#[derive(Clone, Copy)]
pub struct FlatBinding {
    pub min_size: u64,
    pub kind: u32,
    pub dynamic: u32,
    pub sampler: u32,
    pub sample: u32,
    pub dim: u32,
    pub multi: u32,
    pub access: u32,
    pub format: u32,
}

#[repr(C)]
#[derive(Clone, Copy)]
pub struct FlatLayoutEntry {
    pub binding: u32,
    pub visibility: u32,
    pub holds: FlatBinding,
}

#[repr(C)]
#[derive(Clone, Copy)]
pub struct FlatIfaceEntry {
    pub group: u32,
    pub binding: u32,
    pub stage: u32,
    pub holds: FlatBinding,
}

#[repr(C)]
#[derive(Clone, Copy)]
pub struct FlatGroupEntry {
    pub object: u64,
    pub offset: u64,
    pub size: u64,
    pub binding: u32,
    pub bound: u32,
}

#[repr(C)]
#[derive(Clone, Copy)]
pub struct FlatVertexBuffer {
    pub stride: u32,
    pub step: u32,
}

/// An attribute of the vertex buffer that has the index `buffer` in its list.
#[repr(C)]
#[derive(Clone, Copy)]
pub struct FlatAttribute {
    pub buffer: u32,
    pub format: u32,
    pub offset: u32,
    pub location: u32,
}

#[repr(C)]
#[derive(Clone, Copy)]
pub struct FlatBlend {
    pub operation: u32,
    pub src_factor: u32,
    pub dst_factor: u32,
}

/// A color target of a render pipeline, whose `color` and `alpha` count where it `blends`.
#[repr(C)]
#[derive(Clone, Copy)]
pub struct FlatTarget {
    pub format: u32,
    pub write_mask: u32,
    pub blends: u32,
    pub color: FlatBlend,
    pub alpha: FlatBlend,
}

#[repr(C)]
#[derive(Clone, Copy)]
pub struct FlatFace {
    pub compare: u32,
    pub fail_op: u32,
    pub depth_fail_op: u32,
    pub pass_op: u32,
}

/// Where `stencil_write` is set, that tells of the stencil alone; else its mask and its faces do.
#[repr(C)]
#[derive(Clone, Copy)]
pub struct FlatRender {
    pub layout: u64,
    pub samples: u32,
    pub depth_format: u32,
    pub depth_write: u32,
    pub stencil_write: u32,
    pub depth_compare: u32,
    pub biased: u32,
    pub stencil_write_mask: u32,
    pub stencil_front: FlatFace,
    pub stencil_back: FlatFace,
    pub topology: u32,
    pub strip_index_format: u32,
    pub cull_mode: u32,
    pub alpha_to_coverage: u32,
}

#[repr(C)]
#[derive(Clone, Copy)]
pub struct FlatBundle {
    pub samples: u32,
    pub depth_format: u32,
    pub depth_read_only: u32,
    pub stencil_read_only: u32,
}

#[repr(C)]
#[derive(Clone, Copy)]
pub struct FlatColor {
    pub view: u64,
    pub depth_slice: u64,
    pub resolve: u64,
    pub load: u32,
    pub store: u32,
}

#[repr(C)]
#[derive(Clone, Copy)]
pub struct FlatDepth {
    pub view: u64,
    pub depth_load: u32,
    pub depth_store: u32,
    pub depth_read_only: u32,
    pub stencil_load: u32,
    pub stencil_store: u32,
    pub stencil_read_only: u32,
    pub depth_clear: u64,
}

/// A viewport, each number of which stands for itself over 65536.
#[repr(C)]
#[derive(Clone, Copy)]
pub struct FlatViewport {
    pub x: u64,
    pub y: u64,
    pub width: u64,
    pub height: u64,
    pub min_depth: u64,
    pub max_depth: u64,
    pub left: u32,
    pub above: u32,
}

#[repr(C)]
#[derive(Clone, Copy)]
pub struct FlatTexelLayout {
    pub offset: u64,
    pub bytes_per_row: u64,
    pub rows_per_image: u64,
}

#[repr(C)]
#[derive(Clone, Copy)]
pub struct FlatSpot {
    pub texture: u64,
    pub origin: FlatOrigin,
    pub mip: u32,
    pub aspect: u32,
}

#[repr(C)]
#[derive(Clone, Copy)]
pub struct FlatBufferCopy {
    pub source: u64,
    pub source_offset: u64,
    pub target: u64,
    pub target_offset: u64,
    pub size: u64,
}

/// A copy between a buffer and a texture, in either direction.
#[repr(C)]
#[derive(Clone, Copy)]
pub struct FlatTexelCopy {
    pub buffer: u64,
    pub layout: FlatTexelLayout,
    pub spot: FlatSpot,
    pub size: FlatExtent,
}

#[repr(C)]
#[derive(Clone, Copy)]
pub struct FlatTextureCopy {
    pub source: u64,
    pub target: u64,
    pub source_origin: FlatOrigin,
    pub target_origin: FlatOrigin,
    pub source_mip: u32,
    pub target_mip: u32,
    pub size: FlatExtent,
}

#[repr(C)]
#[derive(Clone, Copy)]
pub struct FlatTextureWrite {
    pub layout: FlatTexelLayout,
    pub spot: FlatSpot,
    pub size: FlatExtent,
    pub data_size: u64,
}
