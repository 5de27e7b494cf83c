//! Many items at once, with their uses and accesses: as many whole ones as there is room for.
ghost use Rattle.std.specs.Prelude.{◌≡◌, ◌≤◌, [], ◌∷◌, true, length, map, take};
ghost use Rattle.wg_told.specs.Items.{use_told, access_told, uses_of, accesses_of};
ghost use Rattle.wg_told.specs.Drains.{items_told, uses_told, accesses_told, counts_told, fits, room_behind, fitting, over, room_in};

use crate::items::{ToldAccess, ToldItem, ToldUse, access_told, item_told, use_told};
use wg_types::parts::{AccessKind, Cells, PartRun};
use wg_types::steps::Item;
use wg_types::usages::Usages;

/// How many items, with how many uses and accesses.
#[repr(C)]
#[derive(Clone, Copy, PartialEq, Eq, Debug)]
pub struct ToldCounts {
    pub items: u64,
    pub uses: u64,
    pub accesses: u64,
}

/// Room for so many items, uses and accesses.
#[derive(Clone, Copy)]
pub struct Room {
    pub items: usize,
    pub uses: usize,
    pub accesses: usize,
}

/// The uses of an item: a barrier and a release have none.
fn uses_of(item: &Item) -> &[(PartRun, Usages)]
    ensures { result.now ≡ uses_of item.now }
{
    match item {
        Item::Step(step) => step.uses.as_slice(),
        _ => &[],
    }
}

/// The accesses of an item: a barrier and a release have none.
fn accesses_of(item: &Item) -> &[(Cells, AccessKind)]
    ensures { result.now ≡ accesses_of item.now }
{
    match item {
        Item::Step(step) => step.accesses.as_slice(),
        _ => &[],
    }
}

/// Whether there is room for an item.
#[tactic(auto, using(crate::proofs::Drained::no_item_fits, crate::proofs::Drained::no_uses_fit, crate::proofs::Drained::both_fit))]
fn fits(room: Room, item: &Item) -> bool
    ensures { result ≡ fits room item.now }
{
    if room.items < 1 {
        return false;
    }
    if room.uses < uses_of(item).len() {
        return false;
    }
    accesses_of(item).len() <= room.accesses
}

/// The room that is left behind an item.
#[tactic(auto, using(crate::proofs::Drained::fits_apart))]
fn room_behind(room: Room, item: &Item) -> Room
    requires { fits room item.now ≡ true }
    ensures { result ≡ room_behind room item.now }
{
    Room {
        items: room.items - 1,
        uses: room.uses - uses_of(item).len(),
        accesses: room.accesses - accesses_of(item).len(),
    }
}

/// How many of the first items there is room for.
#[tactic(auto, using(crate::proofs::Drained::fitting_step, crate::proofs::Drained::fitting_stop))]
fn fitting(mut room: Room, items: &[Item]) -> usize
    ensures within { result ≤ length items.now }
    ensures first { take result items.now ≡ fitting room items.now }
{
    for (index, item) in items.iter().enumerate() {
        if !fits(room, item) {
            return index;
        }
        room = room_behind(room, item);
    }
    items.len()
}

/// Tells the items of a list.
fn put_items(items: &[Item], out: &mut [ToldItem])
    requires { length items.now ≤ length out.old }
    ensures { out.new ≡ over (items_told items.now) out.old }
{
    for (index, item) in items.iter().enumerate() {
        out[index] = item_told(item);
    }
}

/// Tells the uses of an item.
fn put_own_uses(uses: &[(PartRun, Usages)], out: &mut [ToldUse])
    requires { length uses.now ≤ length out.old }
    ensures { out.new ≡ over (map use_told uses.now) out.old }
{
    for (index, used) in uses.iter().enumerate() {
        out[index] = use_told(used.0, used.1);
    }
}

/// Tells the uses of the items of a list. How many there are.
fn put_uses(items: &[Item], out: &mut [ToldUse]) -> usize
    requires { length (uses_told items.now) ≤ length out.old }
    ensures told { out.new ≡ over (uses_told items.now) out.old }
    ensures count { result ≡ length (uses_told items.now) }
{
    let mut count = 0;
    for item in items {
        let uses = uses_of(item);
        put_own_uses(uses, &mut out[count..]);
        count += uses.len();
    }
    count
}

/// Tells the accesses of an item.
fn put_own_accesses(accesses: &[(Cells, AccessKind)], out: &mut [ToldAccess])
    requires { length accesses.now ≤ length out.old }
    ensures { out.new ≡ over (map access_told accesses.now) out.old }
{
    for (index, access) in accesses.iter().enumerate() {
        out[index] = access_told(access.0, access.1);
    }
}

/// Tells the accesses of the items of a list. How many there are.
fn put_accesses(items: &[Item], out: &mut [ToldAccess]) -> usize
    requires { length (accesses_told items.now) ≤ length out.old }
    ensures told { out.new ≡ over (accesses_told items.now) out.old }
    ensures count { result ≡ length (accesses_told items.now) }
{
    let mut count = 0;
    for item in items {
        let accesses = accesses_of(item);
        put_own_accesses(accesses, &mut out[count..]);
        count += accesses.len();
    }
    count
}

/// Tells as many of the first items as there is room for, with their uses and accesses, item after item. How many
/// these are.
#[tactic(auto, using(crate::proofs::Drained::fitting_items, crate::proofs::Drained::fitting_uses, crate::proofs::Drained::fitting_accesses, crate::proofs::Drained::fitting_length))]
pub fn tell_items(
    items: &[Item],
    out: &mut [ToldItem],
    uses: &mut [ToldUse],
    accesses: &mut [ToldAccess],
) -> ToldCounts
    ensures counts { result ≡ counts_told (fitting (room_in out.old uses.old accesses.old) items.now) }
    ensures items { out.new ≡ over (items_told (fitting (room_in out.old uses.old accesses.old) items.now)) out.old }
    ensures uses { uses.new ≡ over (uses_told (fitting (room_in out.old uses.old accesses.old) items.now)) uses.old }
    ensures accesses { accesses.new ≡ over (accesses_told (fitting (room_in out.old uses.old accesses.old) items.now)) accesses.old }
    ensures within { result.items ≤ length items.now }
{
    let room = Room {
        items: out.len(),
        uses: uses.len(),
        accesses: accesses.len(),
    };
    let first = &items[..fitting(room, items)];
    put_items(first, out);
    ToldCounts {
        items: first.len() as u64,
        uses: put_uses(first, uses) as u64,
        accesses: put_accesses(first, accesses) as u64,
    }
}

/// What an item takes of room.
pub fn item_counts(item: &Item) -> ToldCounts
    ensures { result ≡ counts_told (item.now ∷ []) }
{
    ToldCounts {
        items: 1,
        uses: uses_of(item).len() as u64,
        accesses: accesses_of(item).len() as u64,
    }
}
