//! Rows of runs in the form in which they are printed: in order, with neighbours of equal value joined;
//! and the runs of parts and of cells, with the values that rows have of them. The laws are the
//! contracts of functions that do nothing.
#![tactic(auto)]

pub mod accesses;
mod cell_cuts;
pub mod cell_runs;
pub mod part_runs;
pub mod rows;
pub mod uses;

ghost use Rattle.wg_rows.specs.Laws.{CellsLie, KeepsPrinted, PrintsRows};
ghost use Rattle.wg_rows.specs.Runs.{cell_sort, part_sort};
ghost use Rattle.wg_rows.specs.Sets.{SetsAre, SetsJoin, SetsTell};
ghost use Rattle.wg_rows.specs.Uses.{
  AccessesPrinted,
  BarsPrinted,
  UsesPrinted,
  same_change,
  same_kind,
  same_set,
};

pub use wg_entry::NoMemory;

/// Rows in printed form that have the same values at the same places are the printed rows.
pub fn printed_form()
    ensures accesses { AccessesPrinted }
    ensures uses { UsesPrinted }
    ensures bars { BarsPrinted }
{}

/// Rows as they are printed have what the rows have, and nothing else; they are in printed form where
/// rows at one place have one value.
pub fn prints_rows()
    ensures accesses { PrintsRows cell_sort same_kind }
    ensures uses { PrintsRows part_sort same_set }
    ensures bars { PrintsRows part_sort same_change }
{}

/// Rows that are in printed form are printed as they are.
pub fn keeps_printed()
    ensures accesses { KeepsPrinted cell_sort same_kind }
    ensures uses { KeepsPrinted part_sort same_set }
    ensures bars { KeepsPrinted part_sort same_change }
{}

/// The sets of uses are one row for parts that are used alike, by the union of their uses, and are told
/// by the unions alone. Uses added to the sets of others, or put together with them, have the same sets.
pub fn sets_of_uses()
    ensures are { SetsAre }
    ensures tell { SetsTell }
    ensures join { SetsJoin }
{}

/// The cells of a run lie in the parts that the run lies in.
pub fn cells_lie()
    ensures { CellsLie }
{}
