//! The export that tells which bytes of a buffer are unset.
ghost use Rattle.wg_c.specs.Ranges.{UnsetRange};

use crate::boundary::{give, take};
use crate::sealed::Device;
use crate::statuses::{CLOSED, END, NO_OBJECT, OK};
use std::alloc::Global;

/// Bytes of a buffer, from the first up to but not including the second.
#[repr(C)]
#[derive(Clone, Copy, PartialEq, Eq, Debug)]
pub struct ToldRange {
    pub from: u64,
    pub to: u64,
}

/// Tells the first bytes of a buffer's range that are unset, as many as stand together.
#[unsafe(no_mangle)]
pub extern "C" fn wethlorn_unset_range(
    alloc: Global,
    device: &mut Device,
    buffer: u64,
    from: u64,
    to: u64,
    out: &mut ToldRange,
) -> u32
    ensures { UnsetRange buffer from to device.old.inside device.new.inside out.old out.new result }
{
    let Some(inner) = take(device, alloc) else {
        return CLOSED;
    };
    let found = inner.first_unset(buffer, from, to);
    give(device, inner);
    match found {
        Ok(Some((from, to))) => {
            *out = ToldRange { from, to };
            OK
        }
        Ok(None) => END,
        Err(_) => NO_OBJECT,
    }
}
