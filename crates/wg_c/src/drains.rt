//! The exports that tell what waits to be told.
ghost use Rattle.wg_c.specs.Exports.{NextItem, NextItems, ItemUse, ItemAccess, NextSettlement};

use crate::boundary::{give, take};
use crate::inner::Drained;
use crate::sealed::Device;
use crate::statuses::{CLOSED, END, NO_ROOM, OK};
use std::alloc::Global;
use wg_told::{ToldAccess, ToldCounts, ToldItem, ToldSettlement, ToldUse};

/// Tells the next item of the trace. What earlier calls have given back is dropped first.
#[unsafe(no_mangle)]
pub extern "C" fn wethlorn_next_item(alloc: Global, device: &mut Device, out: &mut ToldItem) -> u32
    ensures { NextItem device.old.inside device.new.inside out.old out.new result }
{
    let Some(mut inner) = take(device, alloc) else {
        return CLOSED;
    };
    inner.drop_spent();
    let next = inner.next_item();
    give(device, inner);
    match next {
        Some(told) => {
            *out = told;
            OK
        }
        None => END,
    }
}

/// Tells as many of the next items of the trace as there is room for, with their uses and accesses. What earlier
/// calls have given back is dropped first.
#[unsafe(no_mangle)]
pub extern "C" fn wethlorn_next_items(
    alloc: Global,
    device: &mut Device,
    items: &mut [ToldItem],
    uses: &mut [ToldUse],
    accesses: &mut [ToldAccess],
    out: &mut ToldCounts,
) -> u32
    ensures { NextItems device.old.inside device.new.inside
        (record { items = items.old; uses = uses.old; accesses = accesses.old })
        (record { items = items.new; uses = uses.new; accesses = accesses.new }) out.old out.new result }
{
    let Some(mut inner) = take(device, alloc) else {
        return CLOSED;
    };
    inner.drop_spent();
    let drained = inner.next_items(items, uses, accesses);
    give(device, inner);
    match drained {
        Drained::Told(counts) => {
            *out = counts;
            OK
        }
        Drained::Wants(counts) => {
            *out = counts;
            NO_ROOM
        }
        Drained::Ended => END,
    }
}

/// Tells a use of the item that was told last.
#[unsafe(no_mangle)]
pub extern "C" fn wethlorn_item_use(
    alloc: Global,
    device: &mut Device,
    at: usize,
    out: &mut ToldUse,
) -> u32
    ensures { ItemUse at device.old.inside device.new.inside out.old out.new result }
{
    let Some(inner) = take(device, alloc) else {
        return CLOSED;
    };
    let found = inner.use_at(at);
    give(device, inner);
    match found {
        Some(told) => {
            *out = told;
            OK
        }
        None => END,
    }
}

/// Tells an access of the item that was told last.
#[unsafe(no_mangle)]
pub extern "C" fn wethlorn_item_access(
    alloc: Global,
    device: &mut Device,
    at: usize,
    out: &mut ToldAccess,
) -> u32
    ensures { ItemAccess at device.old.inside device.new.inside out.old out.new result }
{
    let Some(inner) = take(device, alloc) else {
        return CLOSED;
    };
    let found = inner.access_at(at);
    give(device, inner);
    match found {
        Some(told) => {
            *out = told;
            OK
        }
        None => END,
    }
}

/// Tells the next promise that was settled.
#[unsafe(no_mangle)]
pub extern "C" fn wethlorn_next_settlement(
    alloc: Global,
    device: &mut Device,
    out: &mut ToldSettlement,
) -> u32
    ensures { NextSettlement device.old.inside device.new.inside out.old out.new result }
{
    let Some(mut inner) = take(device, alloc) else {
        return CLOSED;
    };
    let next = inner.next_settlement();
    give(device, inner);
    match next {
        Some(told) => {
            *out = told;
            OK
        }
        None => END,
    }
}
