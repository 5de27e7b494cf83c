//! What is kept of each object, by its number.
ghost use Rattle.std.specs.Prelude.{◌≡◌, ◌<◌, ◌++◌, [], length, OnOk, option_copied, option_to_list};
ghost use Rattle.std.specs.Option.{option_map_or};
ghost use Rattle.wg_desk.specs.Seats.{vacant, handle_at, emptied_at};

use std::alloc::Global;
use std::marker::Model;
use wg_entry::NoMemory;
use wg_fading::Fading;
use wg_types::handles::Handle;

/// What is kept of an object: its handle, until it is dropped.
#[derive(Drop)]
pub struct Seat {
    pub(crate) handle: Option<Handle>,
}

/// A seat in which nothing is kept.
fn vacant() -> Seat
    ensures { result ≡ vacant }
{
    Seat { handle: None }
}

/// What is kept of objects, by their numbers. A seat in which nothing is kept takes no memory. Contracts see all
/// seats, and for how many more there is room.
#[derive(Drop)]
pub struct Seats {
    list: Fading<Seat>,
}

impl Model for Seats {
    ghost use Rattle.wg_desk.specs.Seats.{SeatsValue, AreVacant};

    ghost Value = { SeatsValue };

    ghost view = { λ s. record { items = s.list.items; spare = s.list.spare } };

    ghost invariant = { λ s. AreVacant s.list.gone s.list.items };
}

impl Seats {
    /// No seats. It takes no memory.
    pub fn new(alloc: Global) -> Seats
        ensures { result.items ≡ [] }
    {
        Seats {
            list: Fading::new(alloc),
        }
    }

    /// How many seats there are.
    pub fn len(&self) -> u64
        ensures { result ≡ length self.now.items }
    {
        self.list.len()
    }

    /// Takes room for one seat more.
    pub fn reserve(&mut self) -> Result<(), NoMemory>
        ensures items { self.new.items ≡ self.old.items }
        ensures room { OnOk result (0 < self.new.spare) }
    {
        self.list.reserve(1)
    }

    /// The handle at a number.
    pub fn handle_at(&self, number: u64) -> Option<&Handle>
        ensures { option_copied result ≡ handle_at self.now.items number }
    {
        match self.list.find(number) {
            Some(seat) => match &seat.handle {
                Some(handle) => Some(handle),
                None => None,
            },
            None => None,
        }
    }

    /// Empties the seat of a number.
    fn empty_at(&mut self, number: u64)
        ensures { self.new.items ≡ emptied_at self.old.items number }
    {
        if !self.list.is_kept(number) {
            return;
        }
        let _ = self.list.replace(number, vacant());
        let _ = self.list.let_go(number);
    }

    /// Empties the seat of a number, if there is one.
    pub fn empty(&mut self, number: Option<u64>)
        ensures { self.new.items ≡ option_map_or (emptied_at self.old.items) number self.old.items }
    {
        match number {
            Some(number) => self.empty_at(number),
            None => {}
        }
    }

    /// Adds a seat, if there is one. There is room.
    pub fn add(&mut self, seat: Option<Seat>)
        requires { 0 < self.old.spare }
        ensures { self.new.items ≡ self.old.items ++ option_to_list seat }
    {
        match seat {
            Some(seat) => {
                let _ = self.list.push(seat);
            }
            None => {}
        }
    }
}
