//! Items, put together from lines.
ghost use Rattle.std.specs.Prelude.{◌≡◌, [], ◌∷◌, ◌++◌, List, false, OnOk, IfOk};
ghost use Rattle.wg_readtrace.specs.Given.{Knows};
ghost use Rattle.wg_readtrace.specs.Reading.{gives_again};
ghost use Rattle.wg_readtrace.specs.Drafts.{items_with, rows_of, rows_after, LineIsFull};
ghost use Rattle.wg_readtrace.specs.declared.line.Line.{Line as ReadLine};

use crate::given::Given;
use crate::line::Line;
use std::alloc::Global;
use std::mem;
use wg_trace::NoMemory;
use wg_trace::items::Items;
use wg_trace::steps::{Accesses, Item, Step, StepName, StepPlace, Uses};

/// The items that are whole, and the step whose lines are being read, with its cells.
#[derive(Drop)]
pub struct TraceDraft {
    alloc: Global,
    items: Items<Item>,
    begun: Option<(StepPlace, StepName)>,
    uses: Uses,
    pub accesses: Accesses,
    pub given: Given,
}

impl TraceDraft {
    pub fn new(alloc: Global) -> TraceDraft
        ensures items { (lines : List ReadLine) → items_with result lines ≡ Rattle.wg_readtrace.specs.Reading.items_of lines }
        ensures rows { rows_of result.accesses ≡ [] }
        ensures given { Knows result.given [] }
    {
        TraceDraft {
            alloc,
            items: Items::new(alloc),
            begun: None,
            uses: Items::new(alloc),
            accesses: Items::new(alloc),
            given: Given::new(alloc),
        }
    }

    /// Puts the open step among the items.
    fn close(&mut self) -> Result<(), NoMemory>
        ensures items { OnOk result ((lines : List ReadLine) → items_with self.new lines ≡ items_with self.old [] ++ Rattle.wg_readtrace.specs.Reading.items_of lines) }
        ensures none { OnOk result (self.new.begun ≡ Rattle.std.specs.Prelude.None) }
        ensures uses { OnOk result (self.new.uses ≡ []) }
        ensures accesses { OnOk result (self.new.accesses ≡ []) }
        ensures given { OnOk result (Knows self.new.given []) }
    {
        let uses = mem::replace(&mut self.uses, Items::new(self.alloc));
        let accesses = mem::replace(&mut self.accesses, Items::new(self.alloc));
        self.given.clear();
        if let Some((place, name)) = self.begun {
            self.begun = None;
            self.items.push(Item::Step(Step {
                place,
                name,
                uses,
                accesses,
            }))?;
        }
        Ok(())
    }

    /// Adds a line.
    pub fn note(&mut self, line: Line) -> Result<(), NoMemory>
        requires full { LineIsFull line }
        requires given { Knows self.old.given (rows_of self.old.accesses) }
        requires once { gives_again (rows_of self.old.accesses) line ≡ false }
        ensures items { OnOk result ((lines : List ReadLine) → items_with self.new lines ≡ items_with self.old (line ∷ lines)) }
        ensures rows { OnOk result (rows_of self.new.accesses ≡ rows_after (rows_of self.old.accesses) line) }
        ensures given { OnOk result (Knows self.new.given (rows_of self.new.accesses)) }
    {
        match line {
            Line::Bar { part, from, to } => {
                self.close()?;
                self.items.push(Item::Bar { part, from, to })?;
            }
            Line::Step { place, name, .. } => {
                self.close()?;
                self.begun = Some((place, name));
            }
            Line::Use { part, set } => self.uses.push((part, set))?,
            Line::Acc { kind, cells } => {
                self.given.add(cells)?;
                self.accesses.push((cells, kind))?;
            }
            Line::Free { object, sort } => {
                self.close()?;
                self.items.push(Item::Free { object, sort })?;
            }
            Line::End => self.close()?,
        }
        Ok(())
    }

    /// The items.
    pub fn finish(self) -> Result<Items<Item>, NoMemory>
        ensures { IfOk result (λ items. items ≡ items_with self []) }
    {
        let mut draft = self;
        draft.close()?;
        let TraceDraft { items, .. } = draft;
        Ok(items)
    }
}
