//! How the buffers of a device are mapped.
ghost use Rattle.std.specs.Prelude.{◌≡◌, ℕ, ◌+◌, ◌<◌, ◌≤◌, ◌==◌, [], if◌then◌else◌, IsOk, OnOk, OnErr, IfOk, Option, true, option_to_list, map};
ghost use Rattle.std.specs.FinMap as table;
ghost use Rattle.std.specs.List.Sorted.{IsNonDecreasing, IsNonDecreasingBy};
ghost use Rattle.wg_types.specs.declared.mappings.MapDone.{MapDone};
ghost use Rattle.wg_maps.specs.Mappings.{MapsValue, has_pending, is_latest, maps_of, is_buffer_due, state_of, left_of, without, with_map, map_done, due_maps, settled_up_to, IsApart, promises};

use crate::mapped::MappedBuffers;
use crate::waits::Waits;
use std::alloc::Global;
use std::marker::Model;
use wg_types::NoMemory;
use wg_types::mappings::{MapDone, MapMode, MapState, Mapping, PendingMap, Unmapped};

/// How the buffers of a device are mapped. Contracts see the maps that are pending, in the order of their
/// promises, and the buffers that are mapped.
#[derive(Drop)]
pub struct Maps {
    alloc: Global,
    waits: Waits,
    mapped: MappedBuffers,
    spare: usize,
}

impl Model for Maps {
    ghost use Rattle.std.specs.Prelude.{◌+◌, ◌≤◌, length};
    ghost use Rattle.wg_types.specs.contracts.mappings.PendingMap as pending_map;
    ghost use Rattle.wg_types.specs.contracts.mappings.Mapping as mapping;
    ghost use Rattle.wg_maps.specs.Mappings.{MapsValue, maps_code, IsApart};

    ghost Value = { MapsValue };

    ghost coded = { maps_code pending_map.the_row.coded mapping.the_row.coded };

    ghost view = { λ m. record { pending = m.waits.pending; mapped = m.mapped.buffers; spare = m.spare } };

    ghost invariant = { λ m. record {
      apart : IsApart m.waits.pending m.mapped.buffers;
      waits_fit : m.spare ≤ m.waits.spare;
      mapped_fit : length m.waits.pending + m.spare ≤ m.mapped.spare;
    } };
}

/// A map as it is settled.
fn done(wait: &PendingMap) -> MapDone
    ensures { result ≡ map_done wait.now }
{
    MapDone {
        buffer: wait.buffer,
        promise: wait.promise,
        mode: wait.mapping.mode,
        lo: wait.mapping.lo,
        hi: wait.mapping.hi,
    }
}

/// Maps as they are settled.
fn list_done(alloc: Global, maps: &[PendingMap]) -> Result<Vec<MapDone>, NoMemory>
    ensures { IfOk result (λ list. list.items ≡ map map_done maps.now) }
{
    let list = maps
        .iter()
        .map(|wait| done(wait))
        .collect::<Vec<MapDone>>(alloc)?;
    Ok(list)
}

impl Maps {
    /// Every buffer is unmapped.
    pub fn new(alloc: Global) -> Maps
        ensures value { result ≡ record { pending = []; mapped = table.empty; spare = 0 } }
        ensures apart { IsApart result.pending result.mapped }
    {
        Maps {
            alloc,
            waits: Waits::new(alloc),
            mapped: MappedBuffers::new(alloc),
            spare: 0,
        }
    }

    /// Makes room for so many maps.
    pub fn reserve(&mut self, n: u64) -> Result<(), NoMemory>
        ensures kept { self.new ≡ record self.old { spare = self.new.spare } }
        ensures apart { IsApart self.new.pending self.new.mapped }
        ensures unchanged { OnErr result (self.new ≡ self.old) }
        ensures spare { self.old.spare ≤ self.new.spare }
        ensures room { OnOk result (n ≤ self.new.spare) }
        ensures succeeds { n ≤ self.old.spare → IsOk result }
    {
        let n = n as usize;
        if n <= self.spare {
            return Ok(());
        }
        self.waits.reserve(n)?;
        let Some(more) = self.waits.at_most().checked_add(n) else {
            return Err(NoMemory);
        };
        self.mapped.reserve(more)?;
        self.spare = n;
        Ok(())
    }

    /// Makes an unmapped buffer pending (WebGPU, "mapAsync"): the bytes from `lo` to below `hi` are mapped
    /// once the operations up to `last` are complete. Its promise comes after those of all that are pending.
    #[tactic(auto, using(crate::proofs::StateLemmas::state_pending, crate::proofs::StateLemmas::apart_pending))]
    pub fn map(
        &mut self,
        buffer: u64,
        promise: u64,
        mode: MapMode,
        lo: u64,
        hi: u64,
        last: u64,
    ) -> Result<(), NoMemory>
        requires unmapped { state_of self.old buffer ≡ MapState.Unmapped }
        requires latest { is_latest self.old.pending promise ≡ true }
        ensures pending { OnOk result (self.new.pending ≡ with_map self.old.pending
            (record { promise = promise; buffer = buffer; last = last; mapping = record { mode = mode; lo = lo; hi = hi } })) }
        ensures states { OnOk result ((n : ℕ) → state_of self.new n ≡ (if buffer == n then MapState.Pending else state_of self.old n)) }
        ensures kept { self.new ≡ record self.old { pending = self.new.pending; spare = self.new.spare } }
        ensures apart { IsApart self.new.pending self.new.mapped }
        ensures unchanged { OnErr result (self.new ≡ self.old) }
        ensures succeeds { 0 < self.old.spare → IsOk result }
        ensures room { OnOk result (self.old.spare ≤ self.new.spare + 1) }
    {
        self.reserve(1)?;
        self.waits.add(PendingMap {
            promise,
            buffer,
            last,
            mapping: Mapping { mode, lo, hi },
        });
        self.spare -= 1;
        Ok(())
    }

    /// Makes a buffer mapped in this way at once, however it stood.
    #[tactic(auto, using(crate::proofs::StateLemmas::state_mapped, crate::proofs::StateLemmas::apart_mapped))]
    pub fn start(&mut self, buffer: u64, mapping: Mapping) -> Result<(), NoMemory>
        ensures pending { OnOk result (self.new.pending ≡ without self.old.pending buffer) }
        ensures mapped { OnOk result (self.new.mapped ≡ table.insert self.old.mapped buffer mapping) }
        ensures states { OnOk result ((n : ℕ) → state_of self.new n ≡ (if buffer == n then MapState.Mapped else state_of self.old n)) }
        ensures apart { IsApart self.new.pending self.new.mapped }
        ensures unchanged { OnErr result (self.new ≡ self.old) }
        ensures succeeds { 0 < self.old.spare → IsOk result }
        ensures room { OnOk result (self.old.spare ≤ self.new.spare + 1) }
    {
        self.reserve(1)?;
        self.waits.remove(buffer);
        self.mapped.insert(buffer, mapping);
        self.spare -= 1;
        Ok(())
    }

    /// Makes a buffer mapped for writing, whole, as one that is mapped at its creation is (WebGPU,
    /// "createBuffer").
    pub fn start_mapped(&mut self, buffer: u64, size: u64) -> Result<(), NoMemory>
        ensures pending { OnOk result (self.new.pending ≡ without self.old.pending buffer) }
        ensures mapped { OnOk result (self.new.mapped ≡ table.insert self.old.mapped buffer (record { mode = MapMode.Write; lo = 0; hi = size })) }
        ensures states { OnOk result ((n : ℕ) → state_of self.new n ≡ (if buffer == n then MapState.Mapped else state_of self.old n)) }
        ensures apart { IsApart self.new.pending self.new.mapped }
        ensures unchanged { OnErr result (self.new ≡ self.old) }
        ensures succeeds { 0 < self.old.spare → IsOk result }
        ensures room { OnOk result (self.old.spare ≤ self.new.spare + 1) }
    {
        let mapping = Mapping {
            mode: MapMode::Write,
            lo: 0,
            hi: size,
        };
        self.start(buffer, mapping)
    }

    /// What `unmap` would answer.
    pub fn look(&self, buffer: u64) -> Unmapped
        ensures { result ≡ left_of self.now buffer }
    {
        if let Some(promise) = self.waits.promise(buffer) {
            return Unmapped::Aborted(promise);
        }
        let Some(mapping) = self.mapped.get(buffer) else {
            return Unmapped::Nothing;
        };
        match mapping.mode {
            MapMode::Read => Unmapped::Read,
            MapMode::Write => Unmapped::Written(mapping.lo, mapping.hi),
        }
    }

    /// Makes a buffer unmapped, and answers what it was (WebGPU, "unmap").
    #[tactic(auto, using(crate::proofs::StateLemmas::state_unmapped, crate::proofs::StateLemmas::apart_unmapped))]
    pub fn unmap(&mut self, buffer: u64) -> Unmapped
        ensures answer { result ≡ left_of self.old buffer }
        ensures after { self.new ≡ record self.old { pending = without self.old.pending buffer; mapped = table.remove self.old.mapped buffer } }
        ensures states { (n : ℕ) → state_of self.new n ≡ (if buffer == n then MapState.Unmapped else state_of self.old n) }
        ensures apart { IsApart self.new.pending self.new.mapped }
    {
        let answer = self.look(buffer);
        self.waits.remove(buffer);
        self.mapped.remove(buffer);
        answer
    }

    /// How a buffer stands; none is both pending and mapped.
    pub fn state(&self, buffer: u64) -> MapState
        ensures value { result ≡ state_of self.now buffer }
        ensures apart { IsApart self.now.pending self.now.mapped }
    {
        if self.waits.promise(buffer).is_some() {
            return MapState::Pending;
        }
        if self.mapped.get(buffer).is_some() {
            return MapState::Mapped;
        }
        MapState::Unmapped
    }

    /// How a buffer is mapped, if it is.
    pub fn mapping(&self, buffer: u64) -> Option<Mapping>
        ensures { result ≡ table.get self.now.mapped buffer }
    {
        self.mapped.get(buffer)
    }

    /// The promise of the pending map of a buffer, if there is one.
    pub fn promise(&self, buffer: u64) -> Option<u64>
        ensures { promises (maps_of self.now.pending buffer) ≡ option_to_list result }
    {
        self.waits.promise(buffer)
    }

    /// The maps that are pending, in the order of their promises.
    pub fn waits(&self) -> Result<Vec<PendingMap>, NoMemory>
        ensures { IfOk result (λ list. list.items ≡ self.now.pending) }
    {
        self.waits.all(self.alloc)
    }

    /// The maps that are due once the operations up to this one are complete, in the order of their
    /// promises.
    pub fn due_waits(&self, completed: u64) -> Result<Vec<PendingMap>, NoMemory>
        ensures { IfOk result (λ list. list.items ≡ due_maps completed self.now.pending) }
    {
        self.waits.due(self.alloc, completed)
    }

    /// The maps that are due, as they are settled.
    #[tactic(auto, using(crate::proofs::PendingLemmas::done_in_order))]
    pub fn due(&self, completed: u64) -> Result<Vec<MapDone>, NoMemory>
        ensures due { IfOk result (λ list. list.items ≡ map map_done (due_maps completed self.now.pending)) }
        ensures in_order { IfOk result (λ list. IsNonDecreasingBy (λ (done : MapDone). done.promise) list.items) }
    {
        let waits = self.waits.due(self.alloc, completed)?;
        list_done(self.alloc, waits.as_slice())
    }

    /// Maps the buffers of the maps that are due once the operations up to this one are complete.
    #[tactic(auto, using(crate::proofs::StateLemmas::state_settled, crate::proofs::StateLemmas::apart_settled))]
    pub fn settle(&mut self, completed: u64)
        ensures after { self.new ≡ settled_up_to completed self.old }
        ensures states { (n : ℕ) → state_of self.new n ≡ (if is_buffer_due completed n self.old.pending then MapState.Mapped else state_of self.old n) }
        ensures apart { IsApart self.new.pending self.new.mapped }
    {
        self.waits.settle(completed, &mut self.mapped);
    }

    /// The promises of all maps that are pending, in their order.
    pub fn pending(&self) -> Result<Vec<u64>, NoMemory>
        ensures promises { IfOk result (λ list. list.items ≡ promises self.now.pending) }
        ensures in_order { IfOk result (λ list. IsNonDecreasing list.items) }
    {
        let waits = self.waits.all(self.alloc)?;
        let list = waits
            .iter()
            .map(|wait| wait.promise)
            .collect::<Vec<u64>>(self.alloc)?;
        Ok(list)
    }

    /// Makes the pending buffers unmapped, and no other.
    #[tactic(auto, using(crate::proofs::StateLemmas::state_aborted))]
    pub fn abort_all(&mut self)
        ensures after { self.new ≡ record self.old { pending = [] } }
        ensures states { (n : ℕ) → state_of self.new n ≡ (if has_pending self.old.pending n then MapState.Unmapped else state_of self.old n) }
        ensures apart { IsApart self.new.pending self.new.mapped }
    {
        self.waits.clear();
    }
}
