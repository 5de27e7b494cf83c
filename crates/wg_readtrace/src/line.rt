//! Lines.

use wg_trace::parts::{AccessKind, Cells, PartRun};
use wg_trace::steps::{Sort, StepName, StepPlace};
use wg_trace::usages::Usages;

/// What a line of a trace says.
#[derive(Clone, Copy)]
pub enum Line {
    Bar {
        part: PartRun,
        from: Option<Usages>,
        to: Usages,
    },
    Step {
        number: u64,
        place: StepPlace,
        name: StepName,
    },
    Use {
        part: PartRun,
        set: Usages,
    },
    Acc {
        kind: AccessKind,
        cells: Cells,
    },
    Free {
        object: u64,
        sort: Sort,
    },
    End,
}
