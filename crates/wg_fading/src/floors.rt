//! Where the numbers of a floor stand, which has pages, in memory that is there as long as one of them is kept.
ghost use Rattle.std.specs.Prelude.{◌≡◌, ℕ, ◌/◌, ◌<◌, ◌≤◌, false, true, length, slice_index_or, OnOk, is_some};
ghost use Rattle.wg_fading.specs.Places.{in_floor, has_in_floor, floor_place, floor_has};

use super::pages;
use super::pages::{GONE, PAGE, Page};
use std::alloc::Global;
use wg_entry::NoMemory;

/// So many pages are of a floor.
pub const PAGES: usize = 32;

/// Where each of a run of numbers stands, by the page. A page that was given back is none.
#[derive(Drop)]
pub struct Floor {
    pub pages: Vec<Option<Box<Page>>>,
}

/// Where one stands that has a slot in its floor.
pub fn find(floor: &Option<Box<Floor>>, slot: usize) -> u32
    requires { floor_has floor.now slot ≡ true }
    ensures { result ≡ floor_place floor.now slot }
{
    let Some(floor) = floor else {
        unreachable!();
    };
    find_in(floor, slot)
}

/// Where one stands that has a slot in a floor that there is.
fn find_in(floor: &Floor, slot: usize) -> u32
    requires { has_in_floor floor.now slot ≡ true }
    ensures { result ≡ in_floor floor.now slot }
{
    pages::find(&floor.pages[slot / PAGE], slot % PAGE)
}

/// Where any one stands.
pub fn look(floor: &Option<Box<Floor>>, slot: usize) -> u32
    ensures { result ≡ floor_place floor.now slot }
{
    let Some(floor) = floor else {
        return GONE;
    };
    look_in(floor, slot)
}

/// Where any one of a floor that there is stands.
fn look_in(floor: &Floor, slot: usize) -> u32
    ensures { result ≡ in_floor floor.now slot }
{
    let page = slot / PAGE;
    if page >= floor.pages.len() {
        return GONE;
    }
    pages::look(&floor.pages[page], slot % PAGE)
}

/// Puts one in its place.
pub fn put(floor: &mut Option<Box<Floor>>, slot: usize, place: u32)
    requires { floor_has floor.old slot ≡ true }
    ensures put { floor_place floor.new slot ≡ place }
    ensures others { (j : ℕ) → (j ≡ slot → ⊥) → floor_place floor.new j ≡ floor_place floor.old j }
    ensures has { (j : ℕ) → floor_has floor.new j ≡ floor_has floor.old j }
{
    let Some(floor) = floor else {
        unreachable!();
    };
    put_in(floor, slot, place);
}

/// Puts one in its place of a floor that there is.
fn put_in(floor: &mut Floor, slot: usize, place: u32)
    requires { has_in_floor floor.old slot ≡ true }
    ensures put { in_floor floor.new slot ≡ place }
    ensures others { (j : ℕ) → (j ≡ slot → ⊥) → in_floor floor.new j ≡ in_floor floor.old j }
    ensures has { (j : ℕ) → has_in_floor floor.new j ≡ has_in_floor floor.old j }
{
    pages::put(&mut floor.pages[slot / PAGE], slot % PAGE, place);
}

/// Makes the slots of a page, with that and its floor.
pub fn fill(floor: &mut Option<Box<Floor>>, alloc: Global, page: usize) -> Result<(), NoMemory>
    ensures each { (j : ℕ) → floor_place floor.new j ≡ floor_place floor.old j }
    ensures kept { (j : ℕ) → floor_has floor.old j ≡ true → floor_has floor.new j ≡ true }
    ensures whole { OnOk result ((j : ℕ) → j / 128 ≡ page → floor_has floor.new j ≡ true) }
{
    make(floor, alloc)?;
    let Some(floor) = floor else {
        unreachable!();
    };
    reach(floor, page)?;
    fill_in(floor, alloc, page)?;
    Ok(())
}

/// Makes a floor where there is none.
fn make(floor: &mut Option<Box<Floor>>, alloc: Global) -> Result<(), NoMemory>
    ensures each { (j : ℕ) → floor_place floor.new j ≡ floor_place floor.old j }
    ensures has { (j : ℕ) → floor_has floor.new j ≡ floor_has floor.old j }
    ensures some { OnOk result (is_some floor.new ≡ true) }
{
    if floor.is_some() {
        return Ok(());
    }
    let fresh = Floor {
        pages: Vec::with_capacity(alloc, PAGES)?,
    };
    *floor = Some(Box::new(alloc, fresh)?);
    Ok(())
}

/// Adds pages that are none up to one.
fn reach(floor: &mut Floor, page: usize) -> Result<(), NoMemory>
    ensures each { (j : ℕ) → in_floor floor.new j ≡ in_floor floor.old j }
    ensures has { (j : ℕ) → has_in_floor floor.new j ≡ has_in_floor floor.old j }
    ensures to { OnOk result (page < length floor.new.pages.items) }
{
    while floor.pages.len() <= page {
        floor.pages.reserve(1)?;
        floor.pages.push_reserved(None);
    }
    Ok(())
}

/// Makes the slots of a page, with that, in a floor that reaches to it.
fn fill_in(floor: &mut Floor, alloc: Global, page: usize) -> Result<(), NoMemory>
    requires { page < length floor.old.pages.items }
    ensures each { (j : ℕ) → in_floor floor.new j ≡ in_floor floor.old j }
    ensures kept { (j : ℕ) → has_in_floor floor.old j ≡ true → has_in_floor floor.new j ≡ true }
    ensures whole { OnOk result ((j : ℕ) → j / 128 ≡ page → has_in_floor floor.new j ≡ true) }
{
    pages::fill(&mut floor.pages[page], alloc)?;
    Ok(())
}

/// Notes that one of a floor was let go. Gives its page back if that is past and nothing of it is kept, and the
/// floor if it is past and nothing of it is kept. The slots from the next on stay.
pub fn lose(floor: &mut Option<Box<Floor>>, slot: usize, next: usize)
    requires { floor_has floor.old slot ≡ true }
    ensures each { (j : ℕ) → floor_place floor.new j ≡ floor_place floor.old j }
    ensures has { (j : ℕ) → next ≤ j → j < 4096 → floor_has floor.new j ≡ floor_has floor.old j }
{
    if is_over(floor, slot, next) && next >= PAGES * PAGE {
        *floor = None;
    }
}

/// Notes that one of a floor was let go. Whether nothing of it is kept.
#[tactic(auto, using(crate::proofs::Reading::at_free))]
fn is_over(floor: &mut Option<Box<Floor>>, slot: usize, next: usize) -> bool
    requires { floor_has floor.old slot ≡ true }
    ensures each { (j : ℕ) → floor_place floor.new j ≡ floor_place floor.old j }
    ensures has { (j : ℕ) → next ≤ j → floor_has floor.new j ≡ floor_has floor.old j }
    ensures over { result ≡ true → (j : ℕ) → floor_place floor.new j ≡ 4294967295 }
{
    let Some(floor) = floor else {
        unreachable!();
    };
    lose_in(floor, slot, next) && is_free(floor)
}

/// Whether a floor has no pages.
fn is_free(floor: &Floor) -> bool
    ensures { result ≡ true → (i : ℕ) → slice_index_or floor.now.pages.items i None ≡ None }
{
    floor.pages.iter().all(|page| page.is_none())
}

/// Notes that one of a page was let go, and gives the page back if it is past and nothing of it is kept. Whether
/// there is no page then.
fn lose_in(floor: &mut Floor, slot: usize, next: usize) -> bool
    requires { has_in_floor floor.old slot ≡ true }
    ensures each { (j : ℕ) → in_floor floor.new j ≡ in_floor floor.old j }
    ensures has { (j : ℕ) → next ≤ j → has_in_floor floor.new j ≡ has_in_floor floor.old j }
{
    let is_past = is_page_past(slot, next);
    pages::lose(&mut floor.pages[slot / PAGE], is_past)
}

/// Whether the page of a slot is past.
fn is_page_past(slot: usize, next: usize) -> bool
    ensures { next / 128 ≤ slot / 128 → result ≡ false }
{
    slot / PAGE < next / PAGE
}
