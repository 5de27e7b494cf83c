//! The exports that open and close devices, and that tell the limits of one.
ghost use Rattle.wg_told.specs.Limits.{bad_limit, limits_of};
ghost use Rattle.wg_c.specs.Exports.{Opens, GetsLimit, Closes};

use crate::boundary::{give, take};
use crate::inner::Inner;
use crate::left::ToldLeft;
use crate::sealed::Device;
use crate::statuses::{BAD_VALUE, CLOSED, IS_OPEN, NO_MEMORY, OK};
use std::alloc::Global;
use wg_told::flats::FlatLimit;
use wg_told::{ToldBadLimit, bad_limit, limits_of};

/// Opens a device over an adapter that supports the values of `best`.
#[unsafe(no_mangle)]
pub extern "C" fn wethlorn_open(
    alloc: Global,
    budget: u64,
    serial: u64,
    best: &[FlatLimit],
    limits: &[FlatLimit],
    device: &mut Device,
    out: &mut ToldBadLimit,
) -> u32
    ensures { Opens (bad_limit best.now limits.now) (limits_of limits.now) budget serial device.old.inside device.new.inside out.old out.new result }
{
    if let Some(inner) = take(device, alloc) {
        give(device, inner);
        return IS_OPEN;
    }
    if let Some(bad) = bad_limit(best, limits) {
        *out = bad;
        return BAD_VALUE;
    }
    let Ok(limits) = limits_of(alloc, limits) else {
        return NO_MEMORY;
    };
    match Box::new(alloc, Inner::open(alloc, budget, serial, &limits)) {
        Ok(inner) => {
            give(device, inner);
            OK
        }
        Err(_) => NO_MEMORY,
    }
}

/// Tells a limit that a device has, by its number.
#[unsafe(no_mangle)]
pub extern "C" fn wethlorn_get_limit(
    alloc: Global,
    device: &mut Device,
    name: u32,
    out: &mut u64,
) -> u32
    ensures { GetsLimit name device.old.inside device.new.inside out.old out.new result }
{
    let Some(inner) = take(device, alloc) else {
        return CLOSED;
    };
    let found = inner.limit(name);
    give(device, inner);
    match found {
        Some(value) => {
            *out = value;
            OK
        }
        None => BAD_VALUE,
    }
}

/// Closes a device, and tells how much of it was not told.
#[unsafe(no_mangle)]
pub extern "C" fn wethlorn_close(alloc: Global, device: &mut Device, out: &mut ToldLeft) -> u32
    ensures { Closes device.old.inside device.new.inside out.old out.new result }
{
    let Some(mut inner) = take(device, alloc) else {
        return CLOSED;
    };
    *out = inner.left();
    OK
}
