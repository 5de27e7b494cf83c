//! Where the numbers of a page stand, in memory that is there as long as one of them is kept.
ghost use Rattle.std.specs.Prelude.{◌≡◌, ℕ, ◌<◌, false, true, OnOk, is_some};
ghost use Rattle.wg_fading.specs.Places.{in_page, has_in_page, page_place, page_has};

use std::alloc::Global;
use wg_entry::NoMemory;

/// So many numbers have a page.
pub const PAGE: usize = 128;

/// The place of what is not kept.
pub const GONE: u32 = 4294967295;

/// Where each of a run of numbers stands.
#[derive(Drop)]
pub struct Page {
    pub places: Vec<u32>,
    /// How many of them were let go.
    pub lost: u32,
}

/// Where one stands that has a slot in its page.
pub fn find(page: &Option<Box<Page>>, slot: usize) -> u32
    requires { page_has page.now slot ≡ true }
    ensures { result ≡ page_place page.now slot }
{
    let Some(page) = page else {
        unreachable!();
    };
    page.places[slot]
}

/// Where any one stands.
pub fn look(page: &Option<Box<Page>>, slot: usize) -> u32
    ensures { result ≡ page_place page.now slot }
{
    let Some(page) = page else {
        return GONE;
    };
    if slot >= page.places.len() {
        return GONE;
    }
    page.places[slot]
}

/// Puts one in its place.
pub fn put(page: &mut Option<Box<Page>>, slot: usize, place: u32)
    requires { page_has page.old slot ≡ true }
    ensures put { page_place page.new slot ≡ place }
    ensures others { (j : ℕ) → (j ≡ slot → ⊥) → page_place page.new j ≡ page_place page.old j }
    ensures has { (j : ℕ) → page_has page.new j ≡ page_has page.old j }
{
    let Some(page) = page else {
        unreachable!();
    };
    put_in(page, slot, place);
}

/// Puts one in its place of a page that there is.
fn put_in(page: &mut Page, slot: usize, place: u32)
    requires { has_in_page page.old slot ≡ true }
    ensures put { in_page page.new slot ≡ place }
    ensures others { (j : ℕ) → (j ≡ slot → ⊥) → in_page page.new j ≡ in_page page.old j }
    ensures has { (j : ℕ) → has_in_page page.new j ≡ has_in_page page.old j }
{
    page.places[slot] = place;
}

/// Makes a page that has slots for all its numbers.
pub fn fill(page: &mut Option<Box<Page>>, alloc: Global) -> Result<(), NoMemory>
    ensures each { (j : ℕ) → page_place page.new j ≡ page_place page.old j }
    ensures kept { (j : ℕ) → page_has page.old j ≡ true → page_has page.new j ≡ true }
    ensures whole { OnOk result ((j : ℕ) → j < 128 → page_has page.new j ≡ true) }
{
    make(page, alloc)?;
    let Some(page) = page else {
        unreachable!();
    };
    fill_in(page)
}

/// Makes a page where there is none.
fn make(page: &mut Option<Box<Page>>, alloc: Global) -> Result<(), NoMemory>
    ensures each { (j : ℕ) → page_place page.new j ≡ page_place page.old j }
    ensures has { (j : ℕ) → page_has page.new j ≡ page_has page.old j }
    ensures some { OnOk result (is_some page.new ≡ true) }
{
    if page.is_some() {
        return Ok(());
    }
    let fresh = Page {
        places: Vec::new(alloc),
        lost: 0,
    };
    *page = Some(Box::new(alloc, fresh)?);
    Ok(())
}

/// Gives a page its slots, if it has fewer.
fn fill_in(page: &mut Page) -> Result<(), NoMemory>
    ensures each { (j : ℕ) → in_page page.new j ≡ in_page page.old j }
    ensures kept { (j : ℕ) → has_in_page page.old j ≡ true → has_in_page page.new j ≡ true }
    ensures whole { OnOk result ((j : ℕ) → j < 128 → has_in_page page.new j ≡ true) }
{
    if page.places.len() < PAGE {
        page.places.resize(PAGE, GONE)?;
    }
    Ok(())
}

/// Notes that one of a page was let go, and gives the page back if it is past and nothing of it is kept. Whether
/// there is no page then.
pub fn lose(page: &mut Option<Box<Page>>, is_past: bool) -> bool
    ensures each { (j : ℕ) → page_place page.new j ≡ page_place page.old j }
    ensures has { is_past ≡ false → (j : ℕ) → page_has page.new j ≡ page_has page.old j }
{
    if is_over(page) && is_past {
        *page = None;
    }
    page.is_none()
}

/// Notes that one of a page was let go. Whether nothing of it is kept.
fn is_over(page: &mut Option<Box<Page>>) -> bool
    ensures each { (j : ℕ) → page_place page.new j ≡ page_place page.old j }
    ensures has { (j : ℕ) → page_has page.new j ≡ page_has page.old j }
    ensures over { result ≡ true → (j : ℕ) → page_place page.new j ≡ 4294967295 }
{
    let Some(page) = page else {
        return true;
    };
    note_lost(page)
}

/// Notes that one of a page that there is was let go. Whether nothing of it is kept.
fn note_lost(page: &mut Page) -> bool
    ensures each { (j : ℕ) → in_page page.new j ≡ in_page page.old j }
    ensures has { (j : ℕ) → has_in_page page.new j ≡ has_in_page page.old j }
    ensures over { result ≡ true → (j : ℕ) → in_page page.new j ≡ 4294967295 }
{
    page.lost = page.lost.saturating_add(1);
    page.lost as usize >= PAGE && page.places.iter().all(|place| *place == GONE)
}
