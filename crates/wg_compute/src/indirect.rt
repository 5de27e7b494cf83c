//! The buffers of indirect dispatches and draws.
ghost use Rattle.std.specs.Prelude.{◌≡◌, IfOk};
ghost use Rattle.wg_model.specs.Rules.{first_unmet};
ghost use Rattle.wg_model.specs.Settings.{indirect_rules, indirect_touch};

use wg_formats::buffer_of;
use wg_rules::{
    INDIRECT_ARGUMENTS_FIT_BUFFER, INDIRECT_BUFFER_HAS_INDIRECT, INDIRECT_OFFSET_IS_ALIGNED,
};
use wg_types::NoMemory;
use wg_types::handles::Handle;
use wg_types::parts::{AccessKind, Cells};
use wg_types::steps::Touch;
use wg_types::usages::Usages;

/// The usage bit that an indirect buffer needs.
const INDIRECT: u32 = 256;

/// The first unmet rule of the buffer of an indirect call, of which so many bytes are read (WebGPU,
/// "dispatchWorkgroupsIndirect" and "drawIndirect").
pub fn check_indirect(buffer: &Handle, offset: u64, bytes: u64) -> Option<u16>
    ensures { result ≡ first_unmet (indirect_rules buffer.now offset bytes) }
{
    let info = buffer_of(buffer);
    if info.usage & INDIRECT == 0 {
        return Some(INDIRECT_BUFFER_HAS_INDIRECT);
    }
    if offset % 4 != 0 {
        return Some(INDIRECT_OFFSET_IS_ALIGNED);
    }
    if u128::from(offset) + u128::from(bytes) > u128::from(info.size) {
        return Some(INDIRECT_ARGUMENTS_FIT_BUFFER);
    }
    None
}

/// What an indirect call reads. A range that ends past every number is in no buffer, and is answered as
/// want of memory.
pub fn indirect_touch(buffer: &Handle, offset: u64, bytes: u64) -> Result<Touch, NoMemory>
    ensures { IfOk result (λ touch. touch ≡ indirect_touch buffer.now offset bytes) }
{
    match offset.checked_add(bytes) {
        Some(hi) => {
            let cells = Cells::Bytes {
                object: buffer.reference().number,
                lo: offset,
                hi,
            };
            return Ok((cells, (Usages::INPUT, AccessKind::Read)));
        }
        None => return Err(NoMemory),
    }
}
