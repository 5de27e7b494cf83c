//! The maps that are pending.
ghost use Rattle.std.specs.Prelude.{◌≡◌, ℕ, ◌+◌, ◌<◌, ◌≤◌, ◌++◌, [], true, IsOk, OnOk, IfOk, IfSome, IfNone, None, filter, take, length, option_to_list};
ghost use Rattle.std.specs.HashMap.{spare};
ghost use Rattle.std.specs.VecDeque.{deque_len, deque_capacity};
ghost use Rattle.std.specs.List.Sorted.{IsNonDecreasingBy};
ghost use Rattle.wg_types.specs.declared.mappings.PendingMap.{PendingMap};
ghost use Rattle.wg_maps.specs.Mappings.{pending_of, maps_of, without, with_map, still_pending, with_due, is_latest, is_due, due_maps, still_pending_of, promises};
ghost use Rattle.wg_maps.specs.Waits.{WaitsValue, IsKept, IsListed, IsWithin, IsTidied, IsInserted, IsSettling, Settles, IsUnlike, AreUnlike, promise_of, is_waiting, arranged, waiting, starts_later};

use crate::mapped::MappedBuffers;
use std::alloc::Global;
use std::collections::{HashMap, VecDeque};
use std::marker::Model;
use wg_types::NoMemory;
use wg_types::mappings::PendingMap;

/// The maps that are pending. They are listed in the order of the operations that they wait for, and a
/// map that is listed waits as long as its buffer has its promise: one that is taken out stays listed
/// until it is due, or until more than half of what is listed waits no longer. No promise is listed
/// twice, and none that is listed is above `newest`. Contracts see the maps that wait, in the order of
/// their promises.
#[derive(Drop)]
pub struct Waits {
    listed: VecDeque<PendingMap>,
    promises: HashMap<u64, u64>,
    newest: u64,
}

impl Model for Waits {
    ghost use Rattle.std.specs.Prelude.{◌-◌, min};
    ghost use Rattle.std.specs.HashMap.{spare};
    ghost use Rattle.std.specs.VecDeque.{deque_len, deque_capacity};
    ghost use Rattle.wg_maps.specs.Waits.{WaitsValue, IsKept, IsListed, IsWithin, waiting};

    ghost Value = { WaitsValue };

    ghost view = { λ w. record {
      pending = waiting w.promises.entries w.listed.items;
      spare = min (deque_capacity w.listed - deque_len w.listed) (spare w.promises);
    } };

    ghost invariant = { λ w. record {
      kept : IsKept (waiting w.promises.entries w.listed.items) w.promises.entries;
      listed : IsListed w.listed.items;
      within : IsWithin w.newest w.listed.items;
    } };
}

/// Whether a map that is listed waits.
fn is_waiting(promises: &HashMap<u64, u64>, wait: &PendingMap) -> bool
    ensures { result ≡ is_waiting promises.now.entries wait.now }
{
    match promises.get(&wait.buffer) {
        Some(promise) => *promise == wait.promise,
        None => false,
    }
}

/// Takes out what waits no longer.
fn tidy(listed: &mut VecDeque<PendingMap>, promises: &HashMap<u64, u64>)
    ensures items { listed.new.items ≡ filter (is_waiting promises.now.entries) listed.old.items }
    ensures len { deque_len listed.new ≤ deque_len listed.old }
    ensures capacity { deque_capacity listed.new ≡ deque_capacity listed.old }
{
    listed.retain(|wait| is_waiting(promises, wait));
}

/// Takes out what waits no longer, where that is more than half of what is listed.
#[tactic(auto, using(crate::proofs::ListedLemmas::tidied, crate::proofs::ListedLemmas::tidied_none))]
fn tidy_at_half(listed: &mut VecDeque<PendingMap>, promises: &HashMap<u64, u64>)
    requires { IsListed listed.old.items }
    ensures tidied { IsTidied promises.now.entries listed.old.items listed.new.items }
    ensures len { deque_len listed.new ≤ deque_len listed.old }
    ensures capacity { deque_capacity listed.new ≡ deque_capacity listed.old }
{
    if listed.len() / 2 > promises.len() {
        tidy(listed, promises);
    }
}

/// Sees that nothing of this promise is listed, which else might wait again. Where promises ascend, that
/// takes no look at the list.
#[tactic(auto, using(crate::proofs::ListedLemmas::tidied, crate::proofs::ListedLemmas::tidied_none, crate::proofs::ListedLemmas::unlike_tidied))]
fn part(listed: &mut VecDeque<PendingMap>, promises: &HashMap<u64, u64>, newest: u64, promise: u64)
    requires listed { IsListed listed.old.items }
    requires within { IsWithin newest listed.old.items }
    requires latest { is_latest (waiting promises.now.entries listed.old.items) promise ≡ true }
    ensures unlike { IsUnlike promise listed.new.items }
    ensures tidied { IsTidied promises.now.entries listed.old.items listed.new.items }
    ensures len { deque_len listed.new ≤ deque_len listed.old }
    ensures capacity { deque_capacity listed.new ≡ deque_capacity listed.old }
{
    if promise <= newest {
        tidy(listed, promises);
    }
}

/// Lists a map, behind those that wait for the same operation.
fn list(listed: &mut VecDeque<PendingMap>, wait: PendingMap)
    requires in_order { IsNonDecreasingBy (λ (other : PendingMap). other.last) listed.old.items }
    requires room { deque_len listed.old < deque_capacity listed.old }
    ensures inserted { IsInserted wait listed.old.items listed.new.items }
    ensures len { deque_len listed.new ≡ deque_len listed.old + 1 }
    ensures capacity { deque_capacity listed.old ≤ deque_capacity listed.new }
{
    let place = listed.partition_point(|other| other.last <= wait.last);
    let _ = listed.insert(place, wait);
}

/// How many of what is listed are due, which are the first ones.
fn count_due(listed: &VecDeque<PendingMap>, completed: u64) -> usize
    requires { IsNonDecreasingBy (λ (wait : PendingMap). wait.last) listed.now.items }
    ensures due { take result listed.now.items ≡ filter (is_due completed) listed.now.items }
    ensures within { result ≤ deque_len listed.now }
{
    listed.partition_point(|wait| wait.last <= completed)
}

/// Those that wait of the first so many that are listed.
fn still_waiting(
    alloc: Global,
    listed: &VecDeque<PendingMap>,
    promises: &HashMap<u64, u64>,
    count: usize,
) -> Result<Vec<PendingMap>, NoMemory>
    requires { count ≤ deque_len listed.now }
    ensures { IfOk result (λ list. list.items ≡ filter (is_waiting promises.now.entries) (take count listed.now.items)) }
{
    let list = listed
        .range(..count)
        .filter(|wait| is_waiting(promises, wait))
        .copied()
        .collect::<Vec<PendingMap>>(alloc)?;
    Ok(list)
}

/// Puts maps into the order of their promises.
fn arrange(mut list: Vec<PendingMap>) -> Result<Vec<PendingMap>, NoMemory>
    requires { AreUnlike list.items }
    ensures arranged { IfOk result (λ new. new.items ≡ arranged list.items) }
    ensures in_order { IfOk result (λ new. IsNonDecreasingBy (λ (wait : PendingMap). wait.promise) new.items) }
{
    list.sort_by_key(|wait| wait.promise)?;
    Ok(list)
}

/// Takes out the first that is listed, if that is due.
fn next_due(listed: &mut VecDeque<PendingMap>, completed: u64) -> Option<PendingMap>
    ensures items { listed.old.items ≡ option_to_list result ++ listed.new.items }
    ensures due { IfSome result (λ wait. is_due completed wait ≡ true) }
    ensures later { IfNone result (starts_later completed listed.new.items ≡ true) }
    ensures len { deque_len listed.new ≤ deque_len listed.old }
    ensures capacity { deque_capacity listed.new ≡ deque_capacity listed.old }
{
    let Some(first) = listed.front() else {
        return None;
    };
    if first.last > completed {
        return None;
    }
    listed.pop_front()
}

/// Settles a map that was listed and is due: where it waits, its buffer is mapped.
fn settle_one(promises: &mut HashMap<u64, u64>, mapped: &mut MappedBuffers, wait: &PendingMap)
    requires { is_waiting promises.old.entries wait.now ≡ true → 0 < mapped.old.spare }
    ensures settling { Settles wait.now promises.old.entries mapped.old promises.new.entries mapped.new }
    ensures spare { spare promises.old ≤ spare promises.new }
{
    if is_waiting(promises, wait) {
        let _ = promises.remove(&wait.buffer);
        mapped.insert(wait.buffer, wait.mapping);
    }
}

/// Settles all that are due.
#[tactic(auto, using(crate::proofs::ListedLemmas::settling_none))]
fn settle_due(
    listed: &mut VecDeque<PendingMap>,
    promises: &mut HashMap<u64, u64>,
    mapped: &mut MappedBuffers,
    completed: u64,
)
    requires kept { IsKept (waiting promises.old.entries listed.old.items) promises.old.entries }
    requires listed { IsListed listed.old.items }
    requires room { length (waiting promises.old.entries listed.old.items) ≤ mapped.old.spare }
    ensures settling { IsSettling completed (waiting promises.old.entries listed.old.items) mapped.old promises.new.entries listed.new.items mapped.new }
    ensures later { starts_later completed listed.new.items ≡ true }
    ensures within { (newest : ℕ) → IsWithin newest listed.old.items → IsWithin newest listed.new.items }
    ensures len { deque_len listed.new ≤ deque_len listed.old }
    ensures capacity { deque_capacity listed.new ≡ deque_capacity listed.old }
    ensures spare { spare promises.old ≤ spare promises.new }
{
    while let Some(wait) = next_due(listed, completed) {
        settle_one(promises, mapped, &wait);
    }
}

impl Waits {
    /// No map.
    pub fn new(alloc: Global) -> Waits
        ensures { result.pending ≡ [] }
    {
        Waits {
            listed: VecDeque::new(alloc),
            promises: HashMap::new(alloc),
            newest: 0,
        }
    }

    /// Makes room for so many maps.
    #[tactic(auto, using(crate::proofs::ListedLemmas::waiting_same, crate::proofs::ListedLemmas::kept_same))]
    pub fn reserve(&mut self, n: usize) -> Result<(), NoMemory>
        ensures pending { self.new.pending ≡ self.old.pending }
        ensures spare { self.old.spare ≤ self.new.spare }
        ensures room { OnOk result (n ≤ self.new.spare) }
        ensures succeeds { n ≤ self.old.spare → IsOk result }
    {
        tidy_at_half(&mut self.listed, &self.promises);
        self.listed.reserve(n)?;
        self.promises.reserve(n)?;
        Ok(())
    }

    /// As many as there are maps, or more.
    #[tactic(auto, using(crate::proofs::ListedLemmas::length_waiting))]
    pub fn at_most(&self) -> usize
        ensures { length self.now.pending ≤ result }
    {
        self.listed.len()
    }

    /// The promise of the map of a buffer.
    #[tactic(auto, using(crate::proofs::ListedLemmas::only_one))]
    pub fn promise(&self, buffer: u64) -> Option<u64>
        ensures value { result ≡ promise_of self.now.pending buffer }
        ensures only { promises (maps_of self.now.pending buffer) ≡ option_to_list result }
    {
        self.promises.get(&buffer).copied()
    }

    /// The maps that are due, in the order of their promises.
    pub fn due(&self, alloc: Global, completed: u64) -> Result<Vec<PendingMap>, NoMemory>
        ensures due { IfOk result (λ list. list.items ≡ due_maps completed self.now.pending) }
        ensures in_order { IfOk result (λ list. IsNonDecreasingBy (λ (wait : PendingMap). wait.promise) list.items) }
    {
        let count = count_due(&self.listed, completed);
        let waits = still_waiting(alloc, &self.listed, &self.promises, count)?;
        arrange(waits)
    }

    /// All maps, in the order of their promises.
    pub fn all(&self, alloc: Global) -> Result<Vec<PendingMap>, NoMemory>
        ensures all { IfOk result (λ list. list.items ≡ self.now.pending) }
        ensures in_order { IfOk result (λ list. IsNonDecreasingBy (λ (wait : PendingMap). wait.promise) list.items) }
    {
        let count = self.listed.len();
        let waits = still_waiting(alloc, &self.listed, &self.promises, count)?;
        arrange(waits)
    }

    /// Adds a map of a buffer that has none, of a later promise than all others, in room that there is.
    pub fn add(&mut self, wait: PendingMap)
        requires none { pending_of self.old.pending wait.buffer ≡ None }
        requires latest { is_latest self.old.pending wait.promise ≡ true }
        requires room { 0 < self.old.spare }
        ensures pending { self.new.pending ≡ with_map self.old.pending wait }
        ensures len { length self.new.pending ≡ length self.old.pending + 1 }
        ensures spare { self.old.spare ≤ self.new.spare + 1 }
    {
        part(&mut self.listed, &self.promises, self.newest, wait.promise);
        self.newest = self.newest.max(wait.promise);
        list(&mut self.listed, wait);
        let _ = self.promises.insert(wait.buffer, wait.promise);
    }

    /// Takes out the map of a buffer, if it has one.
    #[tactic(auto, using(crate::proofs::ListedLemmas::waiting_without, crate::proofs::ListedLemmas::kept_taken, crate::proofs::ListedLemmas::length_without))]
    pub fn remove(&mut self, buffer: u64)
        ensures pending { self.new.pending ≡ without self.old.pending buffer }
        ensures len { length self.new.pending ≤ length self.old.pending }
        ensures spare { self.old.spare ≤ self.new.spare }
    {
        let _ = self.promises.remove(&buffer);
    }

    /// Takes out the maps that are due, and maps their buffers.
    #[tactic(auto, using(crate::proofs::ListedLemmas::settled_pending, crate::proofs::ListedLemmas::settled_mapped))]
    pub fn settle(&mut self, completed: u64, mapped: &mut MappedBuffers)
        requires room { length self.old.pending ≤ mapped.old.spare }
        ensures pending { self.new.pending ≡ still_pending completed self.old.pending }
        ensures found { (buffer : ℕ) → pending_of self.new.pending buffer ≡ still_pending_of completed self.old.pending buffer }
        ensures mapped { mapped.new.buffers ≡ with_due completed self.old.pending mapped.old.buffers }
        ensures mapped_room { mapped.old.spare + length self.new.pending ≤ mapped.new.spare + length self.old.pending }
        ensures spare { self.old.spare ≤ self.new.spare }
    {
        settle_due(&mut self.listed, &mut self.promises, mapped, completed);
    }

    /// Takes out all maps.
    pub fn clear(&mut self)
        ensures pending { self.new.pending ≡ [] }
        ensures spare { self.old.spare ≤ self.new.spare }
    {
        self.listed.clear();
        self.promises.clear();
    }
}
