//! The buffers that are mapped.
ghost use Rattle.std.specs.Prelude.{◌≡◌, ◌+◌, ◌<◌, ◌≤◌, IsOk, OnOk};
ghost use Rattle.std.specs.FinMap as table;
ghost use Rattle.wg_maps.specs.Mappings.{MappedValue};

use std::alloc::Global;
use std::collections::HashMap;
use std::marker::Model;
use wg_types::NoMemory;
use wg_types::mappings::Mapping;

/// The buffers that are mapped. Contracts see how each is, by its number.
#[derive(Drop)]
pub struct MappedBuffers {
    by_number: HashMap<u64, Mapping>,
}

impl Model for MappedBuffers {
    ghost use Rattle.std.specs.HashMap.{spare};
    ghost use Rattle.std.specs.FinMap.{from_entries};
    ghost use Rattle.wg_types.specs.contracts.mappings.Mapping as mapping;
    ghost use Rattle.wg_maps.specs.Mappings.{MappedValue, mapped_code};

    ghost Value = { MappedValue };

    ghost coded = { mapped_code mapping.the_row.coded };

    ghost view = { λ m. record { buffers = from_entries m.by_number.entries; spare = spare m.by_number } };
}

impl MappedBuffers {
    /// No buffer.
    pub fn new(alloc: Global) -> MappedBuffers
        ensures { result.buffers ≡ table.empty }
    {
        MappedBuffers {
            by_number: HashMap::new(alloc),
        }
    }

    /// Makes room for so many buffers.
    #[tactic(auto, using(crate::proofs::TableLemmas::same_kept))]
    pub fn reserve(&mut self, n: usize) -> Result<(), NoMemory>
        ensures buffers { self.new.buffers ≡ self.old.buffers }
        ensures spare { self.old.spare ≤ self.new.spare }
        ensures room { OnOk result (n ≤ self.new.spare) }
        ensures succeeds { n ≤ self.old.spare → IsOk result }
    {
        self.by_number.reserve(n)?;
        Ok(())
    }

    /// How a buffer is mapped.
    #[tactic(auto, using(crate::proofs::TableLemmas::get_is))]
    pub fn get(&self, buffer: u64) -> Option<Mapping>
        ensures { result ≡ table.get self.now.buffers buffer }
    {
        self.by_number.get(&buffer).copied()
    }

    /// Maps a buffer, in room that there is.
    #[tactic(auto, using(crate::proofs::TableLemmas::inserted))]
    pub fn insert(&mut self, buffer: u64, mapping: Mapping)
        requires { 0 < self.old.spare }
        ensures buffers { self.new.buffers ≡ table.insert self.old.buffers buffer mapping }
        ensures spare { self.old.spare ≤ self.new.spare + 1 }
    {
        let _ = self.by_number.insert(buffer, mapping);
    }

    /// Takes out a buffer, if it is mapped.
    #[tactic(auto, using(crate::proofs::TableLemmas::removed))]
    pub fn remove(&mut self, buffer: u64)
        ensures buffers { self.new.buffers ≡ table.remove self.old.buffers buffer }
        ensures spare { self.old.spare ≤ self.new.spare }
    {
        let _ = self.by_number.remove(&buffer);
    }
}
