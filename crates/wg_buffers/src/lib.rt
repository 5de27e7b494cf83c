//! The rules of buffers.
#![tactic(auto)]

ghost use Rattle.std.specs.Prelude.{◌≡◌};
ghost use Rattle.wg_model.specs.Buffers.{create_buffer_rules, map_rules};
ghost use Rattle.wg_model.specs.Rules.{first_unmet};

use wg_rules::{
    BUFFER_SIZE_IS_WITHIN_LIMIT, BUFFER_USAGE_IS_KNOWN, MAP_MODE_FITS_USAGE, MAP_MODE_IS_KNOWN,
    MAP_OFFSET_IS_ALIGNED, MAP_RANGE_FITS_BUFFER, MAP_READ_GOES_WITH_COPY_DST, MAP_SIZE_IS_ALIGNED,
    MAP_WRITE_GOES_WITH_COPY_SRC, MAPPED_BUFFER_SIZE_IS_ALIGNED,
};
use wg_types::handles::BufferInfo;
use wg_types::limits::Limits;

/// The first unmet rule of createBuffer on a device of these limits (WebGPU, "Buffer Creation"), of
/// those that what the buffer is made with tells.
pub fn check_create(info: &BufferInfo, limits: &Limits) -> Option<u16>
    ensures { result ≡ first_unmet (create_buffer_rules limits.now info.now) }
{
    if info.usage == 0 || info.usage > 1023 {
        return Some(BUFFER_USAGE_IS_KNOWN);
    }
    if info.usage & 1 != 0 && info.usage & (1 | 8) != info.usage {
        return Some(MAP_READ_GOES_WITH_COPY_DST);
    }
    if info.usage & 2 != 0 && info.usage & (2 | 4) != info.usage {
        return Some(MAP_WRITE_GOES_WITH_COPY_SRC);
    }
    if info.size > limits.max_buffer_size {
        return Some(BUFFER_SIZE_IS_WITHIN_LIMIT);
    }
    if info.mapped && info.size % 4 != 0 {
        return Some(MAPPED_BUFFER_SIZE_IS_ALIGNED);
    }
    None
}

/// The first unmet rule of mapAsync (WebGPU, "mapAsync"), of those that the call and what is known of the
/// buffer tell.
pub fn check_map(info: &BufferInfo, mode: u32, offset: u64, size: u64) -> Option<u16>
    ensures { result ≡ first_unmet (map_rules info.now mode offset size) }
{
    if offset % 8 != 0 {
        return Some(MAP_OFFSET_IS_ALIGNED);
    }
    if size % 4 != 0 {
        return Some(MAP_SIZE_IS_ALIGNED);
    }
    if u128::from(offset) + u128::from(size) > u128::from(info.size) {
        return Some(MAP_RANGE_FITS_BUFFER);
    }
    if mode != 1 && mode != 2 {
        return Some(MAP_MODE_IS_KNOWN);
    }
    if mode == 1 && info.usage & 1 == 0 || mode == 2 && info.usage & 2 == 0 {
        return Some(MAP_MODE_FITS_USAGE);
    }
    None
}
