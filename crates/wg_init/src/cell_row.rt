use wg_trace::parts::Aspect;

/// A row of cells: the bytes of a buffer, the queries of a query set, the layers of a mip level and
/// aspect of a texture, or the slices of a mip level of a 3D texture.
#[derive(Clone, Copy, PartialEq, Eq)]
pub enum CellRow {
    Buffer(u64),
    Queries(u64),
    Layers {
        object: u64,
        aspect: Aspect,
        mip: u32,
    },
    Slices {
        object: u64,
        mip: u32,
    },
}
