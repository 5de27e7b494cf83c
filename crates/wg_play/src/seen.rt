//! What a lane of a script sees of the objects, by their slots.
ghost use Rattle.std.specs.Prelude.{◌≡◌, Some, None, IfOk, OnOk, OnErr, [], ◌∷◌};
ghost use Rattle.std.specs.Option.{is_some};
ghost use Rattle.wg_names.specs.Uses.{made_of};
ghost use Rattle.wg_play.specs.Lanes.{count_made, with_handle};
ghost use Rattle.wg_play.specs.Sights.{SeesSame, sight_of, place_in, handle_in_sight, with_more};

use crate::objects::{Object, handle_at, object_of};
use std::alloc::Global;
use wg_entry::NoMemory;
use wg_script::BoundCall;
use wg_types::handles::Handle;
use wg_types::limits::Limits;

/// What a lane sees: what earlier phases made, by their slots, which are those from 0 on; and what it has
/// made itself, whose slots are those from `first` on.
#[derive(Drop)]
pub struct LaneSight<'a> {
    pub others: &'a [Object],
    pub first: u32,
    pub own: Vec<Object>,
}

impl LaneSight<'_> {
    /// The place of a slot among what the lane has made.
    pub fn place(&self, slot: u32) -> u32
        ensures { result ≡ place_in (sight_of self.now) slot }
    {
        slot.saturating_sub(self.first)
    }

    /// A handle of what a slot stands for.
    pub fn handle(&self, alloc: Global, slot: u32) -> Result<Handle, NoMemory>
        ensures { IfOk result (λ handle. handle ≡ handle_in_sight (sight_of self.now) slot) }
    {
        if slot < self.first {
            handle_at(alloc, self.others, slot)
        } else {
            handle_at(alloc, self.own.as_slice(), self.place(slot))
        }
    }

    /// Adds what was made, which has the next slot.
    pub fn add(&mut self, object: Object) -> Result<(), NoMemory>
        ensures same { SeesSame self.old self.new }
        ensures added { OnOk result (sight_of self.new ≡ with_more (sight_of self.old) (object ∷ [])) }
        ensures unchanged { OnErr result (sight_of self.new ≡ sight_of self.old) }
    {
        self.own.push(object)?;
        Ok(())
    }

    /// Adds the object of a handle, if there is one, which a device with these limits made.
    pub fn add_handle(
        &mut self,
        alloc: Global,
        handle: Option<Handle>,
        limits: &Limits,
    ) -> Result<(), NoMemory>
        ensures same { SeesSame self.old self.new }
        ensures added { OnOk result (sight_of self.new ≡ with_handle limits.now (sight_of self.old) handle) }
        ensures unchanged { OnErr result (sight_of self.new ≡ sight_of self.old) }
    {
        match handle {
            Some(handle) => {
                let object = object_of(alloc, handle, limits)?;
                self.add(object)
            }
            None => Ok(()),
        }
    }
}

/// Whether a call makes something that has a slot.
fn makes(call: &BoundCall) -> bool
    ensures { result ≡ is_some (made_of call.now) }
{
    match call {
        BoundCall::Record { command, made, .. } => made.is_some() && command.kind_begun().is_some(),
        BoundCall::Ask { request, made } => made.is_some() && request.kind_made().is_some(),
        BoundCall::Canvas { call, made } => made.is_some() && call.kind_made().is_some(),
    }
}

/// How many calls of a lane make something that has a slot. 2^32 of them count as want of memory.
pub fn count_made(calls: &[BoundCall]) -> Result<u32, NoMemory>
    ensures { IfOk result (λ count. count ≡ count_made calls.now) }
{
    let mut count: u32 = 0;
    for call in calls {
        if makes(call) {
            count = match count.checked_add(1) {
                Some(more) => more,
                None => return Err(NoMemory),
            };
        }
    }
    Ok(count)
}
