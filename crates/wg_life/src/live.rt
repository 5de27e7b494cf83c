//! The resources that are not released.
ghost use Rattle.std.specs.Prelude.{◌≡◌, ℕ, ◌+◌, ◌-◌, ◌<◌, ◌^◌, ◌∷◌, [], ◌++◌, ◌==◌, true, false, length, slice_index, IfSome, OnOk};
ghost use Rattle.wg_fading.specs.Fading.{was_let_go};
ghost use Rattle.slab.specs.Slab.{slab_len};
ghost use Rattle.wg_life.specs.Lives.{new_row, row_at, is_live, live_bytes, with_release, Notes};
ghost use Rattle.wg_life.specs.Living.{HasPlacesFor, IsKept, IsLess};

use crate::rows::{Resource, Row, mark_released, row_in};
use slab::Slab;
use std::alloc::Global;
use wg_fading::Fading;
use wg_types::NoMemory;

/// The resources that are not released: their numbers under keys, and how many bytes they take.
#[derive(Drop)]
pub struct Live {
    slab: Slab<u64>,
    /// The key of each object; of one that is no such resource, any.
    keys: Fading<usize>,
    bytes: u64,
}

impl Live {
    /// No resources.
    #[tactic(auto, using(crate::proofs::Kept::kept_nothing))]
    pub fn new(alloc: Global) -> Live
        ensures kept { IsKept [] result }
        ensures places { HasPlacesFor result 0 }
        ensures gone { result.keys.gone ≡ [] }
    {
        Live {
            slab: Slab::new(alloc),
            keys: Fading::new(alloc),
            bytes: 0,
        }
    }

    /// Makes room for one object more.
    pub fn reserve(&mut self) -> Result<(), NoMemory>
        ensures slab { self.new.slab ≡ record self.old.slab { capacity = self.new.slab.capacity } }
        ensures keys { self.new.keys.items ≡ self.old.keys.items }
        ensures gone { self.new.keys.gone ≡ self.old.keys.gone }
        ensures bytes { self.new.bytes ≡ self.old.bytes }
        ensures places { (more : ℕ) → HasPlacesFor self.old more → HasPlacesFor self.new more }
        ensures place { OnOk result (HasPlacesFor self.new 1) }
    {
        self.slab.reserve(1)?;
        self.keys.reserve(1)?;
        Ok(())
    }

    /// How many resources there are.
    pub fn count(&self) -> u64
        ensures { result ≡ slab_len self.now.slab }
    {
        self.slab.len() as u64
    }

    /// How many bytes they take.
    pub fn bytes(&self) -> u64
        ensures { result ≡ self.now.bytes }
    {
        self.bytes
    }
}

/// Adds the row of a new object, and keeps its memory.
#[tactic(auto, using(crate::proofs::Kept::kept_none, crate::proofs::Kept::kept_some))]
pub fn add_row(rows: &mut Fading<Row>, live: &mut Live, resource: Option<Resource>)
    requires kept { IsKept rows.old.items live.old }
    requires place { 0 < rows.old.spare }
    requires places { HasPlacesFor live.old 1 }
    requires fits { IfSome resource (λ resource. live_bytes rows.old.items + resource.bytes < 2 ^ 64) }
    ensures rows { rows.new.items ≡ rows.old.items ++ new_row resource ∷ [] }
    ensures kept { IsKept rows.new.items live.new }
    ensures gone { rows.new.gone ≡ rows.old.gone }
    ensures keys_gone { live.new.keys.gone ≡ live.old.keys.gone }
    ensures spare { rows.new.spare ≡ rows.old.spare - 1 }
    ensures places { (more : ℕ) → HasPlacesFor live.old (more + 1) → HasPlacesFor live.new more }
{
    let number = rows.push(Row {
        resource,
        destroyed: false,
        last: 0,
        released: false,
    });
    match resource {
        Some(resource) => {
            live.bytes += resource.bytes;
            let key = live.slab.insert_reserved(number);
            let _ = live.keys.push(key);
        }
        None => {
            let _ = live.keys.push(0);
        }
    }
}

/// The key of an object.
fn key_in(keys: &Fading<usize>, number: u64) -> usize
    requires inside { number < length keys.now.items }
    requires here { was_let_go keys.now.gone number ≡ false }
    ensures { result ≡ slice_index keys.now.items number }
{
    *keys.get(number)
}

/// Releases a resource that is not released.
#[tactic(auto, using(crate::proofs::Kept::kept_released))]
pub fn release_row(rows: &mut Fading<Row>, live: &mut Live, number: u64)
    requires here { was_let_go rows.old.gone number ≡ false }
    requires key_here { was_let_go live.old.keys.gone number ≡ false }
    requires kept { IsKept rows.old.items live.old }
    requires live { is_live (row_at rows.old.items number) ≡ true }
    ensures notes { Notes (λ n. with_release (number == n)) rows.old.items rows.new.items }
    ensures kept { IsKept rows.new.items live.new }
    ensures less { IsLess live.old live.new }
    ensures gone { rows.new.gone ≡ rows.old.gone }
    ensures keys_gone { live.new.keys.gone ≡ live.old.keys.gone }
    ensures spare { rows.new.spare ≡ rows.old.spare }
{
    let row = row_in(rows, number);
    mark_released(rows, number);
    if let Some(resource) = row.resource {
        let key = key_in(&live.keys, number);
        let _ = live.slab.remove(key);
        live.bytes -= resource.bytes;
    }
}

/// Lets go of the key of an object.
pub fn let_key_go(live: &mut Live, number: u64)
    requires inside { number < length live.old.keys.items }
    requires here { was_let_go live.old.keys.gone number ≡ false }
    ensures slab { live.new.slab ≡ live.old.slab }
    ensures bytes { live.new.bytes ≡ live.old.bytes }
    ensures keys { live.new.keys.items ≡ live.old.keys.items }
    ensures gone { live.new.keys.gone ≡ live.old.keys.gone ++ number ∷ [] }
    ensures places { (more : ℕ) → HasPlacesFor live.old more → HasPlacesFor live.new more }
{
    let _ = live.keys.let_go(number);
}
