//! Where what is kept stands, by number, in floors of pages that are given back once nothing of them is kept.
ghost use Rattle.std.specs.Prelude.{◌≡◌, ℕ, ◌+◌, ◌-◌, ◌*◌, ◌/◌, ◌<◌, ◌≤◌, ◌==◌, [], if◌then◌else◌, true, length, slice_index_or, OnOk, Option};
ghost use Rattle.std.specs.Global.{Global};
ghost use Rattle.std.specs.declared.boxed.Box.{Box};
ghost use Rattle.wg_fading.specs.declared.floors.Floor.{Floor};
ghost use Rattle.wg_fading.specs.Places.{place_at, HasSlot, HasSlots, Reaches};

use super::floors;
use super::floors::{Floor, PAGES};
use super::pages::{GONE, PAGE};
use std::alloc::Global;
use std::collections::VecDeque;
use wg_entry::NoMemory;

/// So many numbers have a floor.
const FLOOR: u64 = 4096;

/// Where each number stands, by the floor. A floor that was given back is none; such floors in front are cut off.
#[derive(Drop)]
pub struct Places {
    /// How many floors were cut off.
    pub first: u64,
    pub floors: VecDeque<Option<Box<Floor>>>,
}

impl Places {
    /// No numbers.
    pub fn new(alloc: Global) -> Places
        ensures first { result.first ≡ 0 }
        ensures floors { result.floors.items ≡ [] }
    {
        Places {
            first: 0,
            floors: VecDeque::new(alloc),
        }
    }

    /// Where a number stands that has a slot.
    pub fn find(&self, number: u64) -> u32
        requires { HasSlot self.now number }
        ensures { result ≡ place_at self.now number }
    {
        let floor = (number / FLOOR - self.first) as usize;
        floors::find(&self.floors[floor], (number % FLOOR) as usize)
    }

    /// Where any number stands.
    pub fn look(&self, number: u64) -> u32
        ensures { result ≡ place_at self.now number }
    {
        let floor = number / FLOOR;
        if floor < self.first {
            return GONE;
        }
        let floor = (floor - self.first) as usize;
        if floor >= self.floors.len() {
            return GONE;
        }
        floors::look(&self.floors[floor], (number % FLOOR) as usize)
    }

    /// Puts a number in its place.
    pub fn put(&mut self, number: u64, place: u32)
        requires { HasSlot self.old number }
        ensures each { (m : ℕ) → place_at self.new m ≡ (if m == number then place else place_at self.old m) }
        ensures slots { (m : ℕ) → HasSlot self.old m → HasSlot self.new m }
        ensures first { self.new.first ≡ self.old.first }
        ensures len { length self.new.floors.items ≡ length self.old.floors.items }
    {
        let floor = (number / FLOOR - self.first) as usize;
        floors::put(&mut self.floors[floor], (number % FLOOR) as usize, place);
    }

    /// Takes room for a run of numbers, from the next one on.
    pub fn reserve(&mut self, alloc: Global, next: u64, to: u64) -> Result<(), NoMemory>
        requires { Reaches self.old next }
        ensures each { (m : ℕ) → place_at self.new m ≡ place_at self.old m }
        ensures reach { Reaches self.new next }
        ensures kept { (n : ℕ) → HasSlot self.old n → HasSlot self.new n }
        ensures slots { OnOk result (HasSlots self.new next to) }
    {
        let end = to.div_ceil(PAGE as u64);
        let mut page = next / PAGE as u64;
        while page < end {
            self.fill(alloc, page)?;
            page += 1;
        }
        Ok(())
    }

    /// Makes the slots of a page that is of one of the floors or of the next floor.
    fn fill(&mut self, alloc: Global, page: u64) -> Result<(), NoMemory>
        requires { Reaches self.old (page * 128) }
        ensures each { (m : ℕ) → place_at self.new m ≡ place_at self.old m }
        ensures first { self.new.first ≡ self.old.first }
        ensures len { length self.old.floors.items ≤ length self.new.floors.items }
        ensures kept { (n : ℕ) → HasSlot self.old n → HasSlot self.new n }
        ensures slots { OnOk result ((n : ℕ) → n / 128 ≡ page → HasSlot self.new n) }
        ensures reach { OnOk result (Reaches self.new (page * 128 + 128)) }
    {
        let floor = (page / PAGES as u64 - self.first) as usize;
        if floor == self.floors.len() {
            self.add_floor()?;
        }
        self.fill_in(floor, alloc, page)?;
        Ok(())
    }

    /// Adds a floor that is none yet.
    fn add_floor(&mut self) -> Result<(), NoMemory>
        ensures each { (m : ℕ) → place_at self.new m ≡ place_at self.old m }
        ensures first { self.new.first ≡ self.old.first }
        ensures len { length self.old.floors.items ≤ length self.new.floors.items }
        ensures kept { (n : ℕ) → HasSlot self.old n → HasSlot self.new n }
        ensures more { OnOk result (length self.new.floors.items ≡ length self.old.floors.items + 1) }
    {
        self.floors.reserve(1)?;
        self.floors.push_back_reserved(None);
        Ok(())
    }

    /// Makes the slots of a page in its floor.
    fn fill_in(&mut self, floor: usize, alloc: Global, page: u64) -> Result<(), NoMemory>
        requires past { self.old.first ≤ page / 32 }
        requires is { floor ≡ page / 32 - self.old.first }
        requires inside { floor < length self.old.floors.items }
        ensures each { (m : ℕ) → place_at self.new m ≡ place_at self.old m }
        ensures first { self.new.first ≡ self.old.first }
        ensures len { length self.new.floors.items ≡ length self.old.floors.items }
        ensures kept { (n : ℕ) → HasSlot self.old n → HasSlot self.new n }
        ensures slots { OnOk result ((n : ℕ) → n / 128 ≡ page → HasSlot self.new n) }
    {
        let page = (page % PAGES as u64) as usize;
        floors::fill(&mut self.floors[floor], alloc, page)?;
        Ok(())
    }

    /// Lets a number go. The slots from the next number on stay.
    pub fn lose(&mut self, number: u64, next: u64)
        requires { HasSlot self.old number }
        ensures each { (m : ℕ) → place_at self.new m ≡ (if m == number then 4294967295 else place_at self.old m) }
        ensures slots { (n : ℕ) → next ≤ n → HasSlot self.old n → HasSlot self.new n }
        ensures reach { Reaches self.old next → Reaches self.new next }
    {
        self.put(number, GONE);
        self.lose_in(number, next);
        self.cut(next);
    }

    /// Notes that a number was let go, and gives back its page and its floor if they are past and nothing of
    /// them is kept.
    fn lose_in(&mut self, number: u64, next: u64)
        requires { HasSlot self.old number }
        ensures each { (m : ℕ) → place_at self.new m ≡ place_at self.old m }
        ensures slots { (n : ℕ) → next ≤ n → HasSlot self.old n → HasSlot self.new n }
        ensures first { self.new.first ≡ self.old.first }
        ensures len { length self.new.floors.items ≡ length self.old.floors.items }
    {
        let slot = number % FLOOR;
        let floor = (number / FLOOR - self.first) as usize;
        let next = next.saturating_sub(number - slot) as usize;
        floors::lose(&mut self.floors[floor], slot as usize, next);
    }

    /// Cuts off the floor in front, if it was given back and is not that of the next number.
    fn cut(&mut self, next: u64)
        ensures each { (m : ℕ) → place_at self.new m ≡ place_at self.old m }
        ensures slots { (n : ℕ) → next ≤ n → HasSlot self.old n → HasSlot self.new n }
        ensures reach { Reaches self.old next → Reaches self.new next }
    {
        if self.first < next / FLOOR && self.is_free() {
            let _ = self.floors.pop_front();
            self.first += 1;
        }
    }

    /// Whether the floor in front was given back.
    fn is_free(&self) -> bool
        ensures some { result ≡ true → 0 < length self.now.floors.items }
        ensures none { result ≡ true → (d : Option (Box Floor Global)) → slice_index_or self.now.floors.items 0 d ≡ None }
    {
        matches!(self.floors.front(), Some(None))
    }
}
