//! The words of samplers: of how they filter, compare, and address what lies outside of a texture (WebGPU,
//! "GPUFilterMode", "GPUCompareFunction" and "GPUAddressMode").

use wg_types::samplers::{Compare, FilterMode};

pub const FILTERS: [(&str, FilterMode); 2] = [
    ("nearest", FilterMode::Nearest),
    ("linear", FilterMode::Linear),
];

pub const COMPARES: [(&str, Compare); 8] = [
    ("never", Compare::Never),
    ("less", Compare::Less),
    ("equal", Compare::Equal),
    ("less-equal", Compare::LessEqual),
    ("greater", Compare::Greater),
    ("not-equal", Compare::NotEqual),
    ("greater-equal", Compare::GreaterEqual),
    ("always", Compare::Always),
];

/// No rule goes by these: they stand for nothing.
pub const ADDRESS_MODES: [(&str, ()); 3] = [
    ("clamp-to-edge", ()),
    ("repeat", ()),
    ("mirror-repeat", ()),
];
