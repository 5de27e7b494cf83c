//! The cells that are set.
ghost use Rattle.std.specs.Prelude.{◌≡◌, ◌<◌, ◌≤◌, ◌-◌, false, List, [], ◌∷◌, ◌++◌, IfOk, IfSome, MatchOption, OnOk, OnErr, map};
ghost use Rattle.wg_fading.specs.Fading.{is_kept};
ghost use Rattle.wg_orders.specs.Steps.{Step};
ghost use Rattle.wg_orders.specs.Trace.{Item, steps_of};
ghost use Rattle.wg_num.specs.Runs.{AreApart};
ghost use Rattle.wg_bars.specs.Kept.{rows_in, with_notes, gone_with, AreHere};
ghost use Rattle.wg_init.specs.Rows.{row_line, row_object, runs_in, KeepsSet, RunsApart};
ghost use Rattle.wg_init.specs.Effects.{IsNoted};
ghost use Rattle.wg_init.specs.Unset.{written, cleared};

use crate::cell_row::CellRow;
use crate::cells::row_object;
use crate::noting::{end_of, note_in, push_copies};
use crate::unset::{cells_of, runs_in, unset_rows};
use std::alloc::Global;
use std::marker::Model;
use wg_bars::kept::{Notes, begin_to, place, rows_in};
use wg_entry::NoMemory;
use wg_fading::Fading;
use wg_num::RunSet;
use wg_trace::items::Items;
use wg_trace::parts::Cells;
use wg_trace::steps::Step;

/// The cells that are set, in runs by object and row. It stands for a trace where it keeps exactly
/// the cells that are not unset in the trace. Rows of objects that nothing uses again can be let go;
/// contracts see them as they were last. It keeps its allocator.
#[derive(Drop)]
pub struct CellState {
    kept: Fading<Items<(CellRow, RunSet)>>,
}

impl Model for CellState {
    ghost use Rattle.std.specs.Prelude.{List};
    ghost use Rattle.wg_fading.specs.Fading.{FadingValue};
    ghost use Rattle.wg_bars.specs.Kept.{AreMade};
    ghost use Rattle.wg_init.specs.Rows.{SetRow, RunsApart};

    ghost Value = { FadingValue (List SetRow) };

    ghost view = { λ s. s.kept };

    ghost invariant = { λ s. record {
      apart : RunsApart s.kept.items;
      made : AreMade s.kept;
    } };
}

impl CellState {
    /// Stands for the empty trace, and takes no memory.
    pub fn new(alloc: Global) -> CellState
        ensures empty { result ≡ record { items = []; gone = []; spare = 0 } }
        ensures keeps { KeepsSet result.items [] }
    {
        CellState {
            kept: Fading::new(alloc),
        }
    }

    /// The set cells of a row, as sorted runs that do not touch, of an object that has rows which were not
    /// let go.
    pub fn set_runs(&self, row: CellRow) -> Option<&[(u64, u64)]>
        ensures runs { MatchOption result (is_kept self.now (row_object row) ≡ false) (λ runs. runs.now ≡ runs_in (rows_in self.now.items (row_object row)) (row_line row)) }
        ensures apart { IfSome result (λ runs. AreApart 0 runs.now) }
    {
        let Some(rows) = rows_in(&self.kept, row_object(row)) else {
            return None;
        };
        Some(runs_in(rows, row))
    }

    /// The cells that a step reads and that are unset, as they are printed: those that the clear
    /// before the step writes. An object that has no rows yet has none; one whose rows were let go is refused
    /// as want of memory.
    pub fn unset(&self, step: &Step) -> Result<Vec<Cells>, NoMemory>
        ensures { IfOk result (λ v. (trace : List Item) →
            KeepsSet self.now.items (steps_of trace) → map written v.items ≡ cleared trace step.now) }
    {
        let alloc = self.kept.allocator();
        let accesses = step.accesses.as_slice();
        let begun = begin_to(alloc, &self.kept, end_of(accesses))?;
        let found = unset_rows(alloc, &self.kept, &begun, accesses)?;
        let cells = cells_of(alloc, found.as_slice())?;
        Ok(cells)
    }

    /// Adds a step.
    pub fn note(&mut self, step: &Step) -> Result<(), NoMemory>
        ensures noted { OnOk result (IsNoted self.old.items step.now self.new.items) }
        ensures keeps { OnOk result ((steps : List Step) →
            KeepsSet self.old.items steps → KeepsSet self.new.items (steps ++ step.now ∷ [])) }
        ensures gone { self.new.gone ≡ self.old.gone }
        ensures unchanged { OnErr result (self.new.items ≡ self.old.items) }
    {
        note_in(&mut self.kept, step.accesses.as_slice())?;
        Ok(())
    }

    /// The rows of all objects, by number.
    pub fn rows(&self) -> &Fading<Items<(CellRow, RunSet)>>
        ensures rows { result.now ≡ self.now }
        ensures apart { RunsApart self.now.items }
    {
        &self.kept
    }

    /// Room for the rows of one object more.
    pub fn reserve(&mut self) -> Result<(), NoMemory>
        ensures items { self.new.items ≡ self.old.items }
        ensures gone { self.new.gone ≡ self.old.gone }
        ensures spare { self.old.spare ≤ self.new.spare }
        ensures room { OnOk result (0 < self.new.spare) }
    {
        self.kept.reserve(1)
    }

    /// Makes the rows of the next object, in room that there is. It takes no memory.
    pub fn push(&mut self)
        requires { 0 < self.old.spare }
        ensures items { self.new.items ≡ self.old.items ++ [] ∷ [] }
        ensures gone { self.new.gone ≡ self.old.gone }
        ensures spare { self.new.spare ≡ self.old.spare - 1 }
    {
        let alloc = self.kept.allocator();
        let _ = self.kept.push(Items::new(alloc));
    }

    /// Gives back the rows of an object, if it has some.
    pub fn let_go(&mut self, object: u64)
        ensures items { self.new.items ≡ self.old.items }
        ensures gone { self.new.gone ≡ gone_with self.old object }
        ensures spare { self.new.spare ≡ self.old.spare }
    {
        if self.kept.is_kept(object) {
            let _ = self.kept.let_go(object);
        }
    }

    /// Puts notes in place of rows that were not let go. It takes no memory.
    pub fn place(&mut self, fresh: Notes<(CellRow, RunSet)>)
        requires here { AreHere self.old fresh }
        requires apart { RunsApart (with_notes self.old.items fresh) }
        ensures items { self.new.items ≡ with_notes self.old.items fresh }
        ensures gone { self.new.gone ≡ self.old.gone }
        ensures spare { self.new.spare ≡ self.old.spare }
    {
        place(&mut self.kept, fresh);
    }

    /// An equal state, where no rows were let go.
    pub fn copy(&self) -> Result<CellState, NoMemory>
        ensures items { IfOk result (λ other. other.items ≡ self.now.items) }
        ensures gone { IfOk result (λ other. other.gone ≡ []) }
    {
        let alloc = self.kept.allocator();
        let mut kept = Fading::new(alloc);
        let mut object = 0;
        while object < self.kept.len() {
            let Some(rows) = self.kept.find(object) else {
                return Err(NoMemory);
            };
            let mut held = Vec::new(alloc);
            push_copies(&mut held, rows.as_slice())?;
            kept.reserve(1)?;
            let _ = kept.push(Items::from_vec(held));
            object += 1;
        }
        Ok(CellState { kept })
    }
}
