//! Writes of the queue.

use crate::handles::ObjRef;
use crate::textures::{DataLayout, TextureInfo, TextureSpot};

/// A write of the queue: `size` bytes at `offset` of a buffer, or texels of a texture, of which the
/// info is carried along (WebGPU, "writeBuffer" and "writeTexture").
#[derive(Clone, Copy, PartialEq, Eq)]
pub enum QueueWrite {
    Buffer {
        buffer: ObjRef,
        offset: u64,
        size: u64,
    },
    Texture {
        texture: ObjRef,
        info: TextureInfo,
        spot: TextureSpot,
        layout: DataLayout,
        size: [u32; 3],
    },
}
