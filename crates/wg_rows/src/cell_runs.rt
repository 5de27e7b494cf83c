//! Runs of cells, and kinds of access.
ghost use Rattle.std.specs.Prelude.{◌≡◌, true, min, max};
ghost use Rattle.wg_rows.specs.Rows.{list_eq, list_before};
ghost use Rattle.wg_rows.specs.Runs.{cell_line, cell_lo, cell_hi, cell_widen, cell_sort, run_part};
ghost use Rattle.wg_rows.specs.Uses.{kind_reads, kind_writes, kind_unsets, same_kind};

use crate::part_runs::aspect_number;
use crate::rows::{Run, Value};
use wg_trace::parts::{AccessKind, Aspect, Cells, PartRun};

/// Where a run begins in its line.
pub fn cell_lo(run: Cells) -> u64
    ensures { result ≡ cell_lo run }
{
    match run {
        Cells::Bytes { lo, .. } => lo,
        Cells::Layers { lo, .. } => lo as u64,
        Cells::Slices { lo, .. } => lo as u64,
        Cells::Queries { lo, .. } => lo as u64,
    }
}

/// Where a run ends in its line.
pub fn cell_hi(run: Cells) -> u64
    ensures { result ≡ cell_hi run }
{
    match run {
        Cells::Bytes { hi, .. } => hi,
        Cells::Layers { hi, .. } => hi as u64,
        Cells::Slices { hi, .. } => hi as u64,
        Cells::Queries { hi, .. } => hi as u64,
    }
}

/// A run of the same line with other ends, which are kept at most at the end of the run.
pub fn cells_to(run: Cells, from: u64, to: u64) -> Cells
    ensures { result ≡ cell_widen run (min from (cell_hi run)) (min to (cell_hi run)) }
{
    match run {
        Cells::Bytes { object, hi, .. } => Cells::Bytes {
            object,
            lo: from.min(hi),
            hi: to.min(hi),
        },
        Cells::Queries { object, hi, .. } => Cells::Queries {
            object,
            lo: from.min(hi as u64) as u32,
            hi: to.min(hi as u64) as u32,
        },
        Cells::Layers {
            object,
            aspect,
            mip,
            hi,
            ..
        } => Cells::Layers {
            object,
            aspect,
            mip,
            lo: from.min(hi as u64) as u32,
            hi: to.min(hi as u64) as u32,
        },
        Cells::Slices {
            object,
            mip,
            hi,
            ..
        } => Cells::Slices {
            object,
            mip,
            lo: from.min(hi as u64) as u32,
            hi: to.min(hi as u64) as u32,
        },
    }
}

/// The parts that a run of cells lies in.
pub fn run_part(run: Cells) -> PartRun
    ensures { result ≡ run_part run }
{
    match run {
        Cells::Bytes { object, .. } => PartRun::Buffer { object },
        Cells::Queries { object, .. } => PartRun::Queries { object },
        Cells::Layers {
            object,
            aspect,
            mip,
            lo,
            hi,
        } => PartRun::Texture {
            object,
            aspect,
            mip,
            lo,
            hi,
        },
        Cells::Slices { object, mip, .. } => PartRun::Texture {
            object,
            aspect: Aspect::Color,
            mip,
            lo: 0,
            hi: 1,
        },
    }
}

fn same_line(run: Cells, other: Cells) -> bool
    ensures { result ≡ list_eq (cell_line run) (cell_line other) }
{
    match (run, other) {
        (Cells::Bytes { object, .. }, Cells::Bytes { object: other, .. }) => object == other,
        (Cells::Queries { object, .. }, Cells::Queries { object: other, .. }) => object == other,
        (
            Cells::Layers {
                object,
                aspect,
                mip,
                ..
            },
            Cells::Layers {
                object: other,
                aspect: other_aspect,
                mip: other_mip,
                ..
            },
        ) => object == other
            && aspect_number(aspect) == aspect_number(other_aspect)
            && mip == other_mip,
        (
            Cells::Slices { object, mip, .. },
            Cells::Slices {
                object: other,
                mip: other_mip,
                ..
            },
        ) => object == other && mip == other_mip,
        _ => false,
    }
}

fn line_before(run: Cells, other: Cells) -> bool
    ensures { result ≡ list_before (cell_line run) (cell_line other) }
{
    match (run, other) {
        (Cells::Bytes { object, .. }, Cells::Bytes { object: other, .. }) => object < other,
        (Cells::Bytes { object, .. }, Cells::Queries { object: other, .. }) => object <= other,
        (Cells::Bytes { object, .. }, Cells::Layers { object: other, .. }) => object <= other,
        (Cells::Bytes { object, .. }, Cells::Slices { object: other, .. }) => object <= other,
        (Cells::Queries { object, .. }, Cells::Bytes { object: other, .. }) => object < other,
        (Cells::Queries { object, .. }, Cells::Queries { object: other, .. }) => object < other,
        (Cells::Queries { object, .. }, Cells::Layers { object: other, .. }) => object <= other,
        (Cells::Queries { object, .. }, Cells::Slices { object: other, .. }) => object <= other,
        (Cells::Layers { object, .. }, Cells::Bytes { object: other, .. }) => object < other,
        (Cells::Layers { object, .. }, Cells::Queries { object: other, .. }) => object < other,
        (
            Cells::Layers {
                object,
                aspect,
                mip,
                ..
            },
            Cells::Layers {
                object: other,
                aspect: other_aspect,
                mip: other_mip,
                ..
            },
        ) => {
            let place = aspect_number(aspect);
            let other_place = aspect_number(other_aspect);
            object < other
                || object == other
                    && (place < other_place || place == other_place && mip < other_mip)
        }
        (Cells::Layers { object, .. }, Cells::Slices { object: other, .. }) => object <= other,
        (Cells::Slices { object, .. }, Cells::Bytes { object: other, .. }) => object < other,
        (Cells::Slices { object, .. }, Cells::Queries { object: other, .. }) => object < other,
        (Cells::Slices { object, .. }, Cells::Layers { object: other, .. }) => object < other,
        (
            Cells::Slices { object, mip, .. },
            Cells::Slices {
                object: other,
                mip: other_mip,
                ..
            },
        ) => object < other || object == other && mip < other_mip,
    }
}

/// A run of the same line with the least and the greatest end of both.
fn both(run: Cells, other: Cells) -> Cells
    requires { list_eq (cell_line run) (cell_line other) ≡ true }
    ensures { result ≡ cell_widen run
        (min (cell_lo run) (cell_lo other)) (max (cell_hi run) (cell_hi other)) }
{
    match (run, other) {
        (
            Cells::Bytes { object, lo, hi },
            Cells::Bytes {
                lo: other_lo,
                hi: other_hi,
                ..
            },
        ) => Cells::Bytes {
            object,
            lo: lo.min(other_lo),
            hi: hi.max(other_hi),
        },
        (
            Cells::Layers {
                object,
                aspect,
                mip,
                lo,
                hi,
            },
            Cells::Layers {
                lo: other_lo,
                hi: other_hi,
                ..
            },
        ) => Cells::Layers {
            object,
            aspect,
            mip,
            lo: lo.min(other_lo),
            hi: hi.max(other_hi),
        },
        (
            Cells::Slices {
                object,
                mip,
                lo,
                hi,
            },
            Cells::Slices {
                lo: other_lo,
                hi: other_hi,
                ..
            },
        ) => Cells::Slices {
            object,
            mip,
            lo: lo.min(other_lo),
            hi: hi.max(other_hi),
        },
        (
            Cells::Queries { object, lo, hi },
            Cells::Queries {
                lo: other_lo,
                hi: other_hi,
                ..
            },
        ) => Cells::Queries {
            object,
            lo: lo.min(other_lo),
            hi: hi.max(other_hi),
        },
        _ => run,
    }
}

impl Run for Cells {
    ghost sort = { cell_sort };

    fn is_before(&self, other: &Cells) -> bool {
        line_before(*self, *other) || same_line(*self, *other) && cell_lo(*self) < cell_lo(*other)
    }

    fn is_full(&self) -> bool {
        cell_lo(*self) < cell_hi(*self)
    }

    fn ends_before(&self, other: &Cells) -> bool {
        self.is_full()
            && other.is_full()
            && (line_before(*self, *other)
                || same_line(*self, *other) && cell_hi(*self) <= cell_lo(*other))
    }

    fn same_line(&self, other: &Cells) -> bool {
        same_line(*self, *other)
    }

    fn meets(&self, other: &Cells) -> bool {
        same_line(*self, *other)
            && cell_lo(*self) <= cell_hi(*other)
            && cell_lo(*other) <= cell_hi(*self)
    }

    fn both(&self, other: &Cells) -> Cells {
        both(*self, *other)
    }
}

impl Value for AccessKind {
    ghost same = { same_kind };

    fn is_same(&self, other: &AccessKind) -> bool {
        match (*self, *other) {
            (AccessKind::Read, AccessKind::Read) => true,
            (AccessKind::Write, AccessKind::Write) => true,
            (AccessKind::Both, AccessKind::Both) => true,
            (AccessKind::Drop, AccessKind::Drop) => true,
            (AccessKind::ReadDrop, AccessKind::ReadDrop) => true,
            _ => false,
        }
    }
}

/// Whether an access reads.
pub fn reads(kind: AccessKind) -> bool
    ensures { result ≡ kind_reads kind }
{
    matches!(
        kind,
        AccessKind::Read | AccessKind::Both | AccessKind::ReadDrop
    )
}

/// Whether an access writes.
pub fn writes(kind: AccessKind) -> bool
    ensures { result ≡ kind_writes kind }
{
    !matches!(kind, AccessKind::Read)
}

/// Whether an access leaves its cells unset.
pub fn unsets(kind: AccessKind) -> bool
    ensures { result ≡ kind_unsets kind }
{
    matches!(kind, AccessKind::Drop | AccessKind::ReadDrop)
}
