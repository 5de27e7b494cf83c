//! What is said of the mappings of buffers.

/// What a mapping is for (WebGPU, "GPUMapMode").
#[derive(Clone, Copy, PartialEq, Eq)]
pub enum MapMode {
    Read,
    Write,
}

/// How a buffer stands (WebGPU, "GPUBufferMapState").
#[derive(Clone, Copy, PartialEq, Eq)]
pub enum MapState {
    Unmapped,
    Pending,
    Mapped,
}

/// What a buffer was before it was unmapped: nothing but that, pending with this promise, mapped for
/// reading, or mapped for writing in the bytes from the first number to below the second.
#[derive(Clone, Copy, PartialEq, Eq)]
pub enum Unmapped {
    Nothing,
    Aborted(u64),
    Read,
    Written(u64, u64),
}

/// A map that is settled: its buffer, the number of its promise, and the bytes from `lo` to below `hi`.
#[derive(Clone, Copy, PartialEq, Eq)]
pub struct MapDone {
    pub buffer: u64,
    pub promise: u64,
    pub mode: MapMode,
    pub lo: u64,
    pub hi: u64,
}

/// How a buffer is mapped: the bytes from `lo` to below `hi`.
#[derive(Clone, Copy, PartialEq, Eq)]
pub struct Mapping {
    pub mode: MapMode,
    pub lo: u64,
    pub hi: u64,
}

/// A map that waits until the operations up to `last` are complete.
#[derive(Clone, Copy, PartialEq, Eq)]
pub struct PendingMap {
    pub promise: u64,
    pub buffer: u64,
    pub last: u64,
    pub mapping: Mapping,
}
