//! Runs of parts, sets of usages, and what a barrier goes from and to.
ghost use Rattle.std.specs.Prelude.{◌≡◌};
ghost use Rattle.wg_rows.specs.Rows.{list_eq, list_before};
ghost use Rattle.wg_rows.specs.Runs.{
  aspect_number,
  part_line,
  part_lo,
  part_hi,
  part_widen,
  part_sort,
  run_object,
};
ghost use Rattle.wg_rows.specs.Uses.{same_set, same_change};

use crate::rows::{Clip, Run, Value};
use bitflags::Flags;
use wg_trace::parts::{Aspect, PartRun};
use wg_trace::usages::Usages;

/// The place of an aspect in printed order.
pub fn aspect_number(aspect: Aspect) -> u8
    ensures { result ≡ aspect_number aspect }
{
    match aspect {
        Aspect::Color => 0,
        Aspect::Depth => 1,
        Aspect::Stencil => 2,
    }
}

/// The object of a run.
pub fn run_object(run: PartRun) -> u64
    ensures { result ≡ run_object run }
{
    match run {
        PartRun::Buffer { object } => object,
        PartRun::Queries { object } => object,
        PartRun::Texture { object, .. } => object,
    }
}

/// Where a run begins in its line.
pub fn part_lo(run: PartRun) -> u32
    ensures { result ≡ part_lo run }
{
    match run {
        PartRun::Texture { lo, .. } => lo,
        _ => 0,
    }
}

/// Where a run ends in its line.
pub fn part_hi(run: PartRun) -> u32
    ensures { result ≡ part_hi run }
{
    match run {
        PartRun::Texture { hi, .. } => hi,
        _ => 1,
    }
}

/// A run of the same line with other ends.
fn part_widen(run: PartRun, from: u32, to: u32) -> PartRun
    ensures { result ≡ part_widen run from to }
{
    match run {
        PartRun::Texture {
            object,
            aspect,
            mip,
            ..
        } => PartRun::Texture {
            object,
            aspect,
            mip,
            lo: from,
            hi: to,
        },
        _ => run,
    }
}

pub(crate) fn same_line(run: PartRun, other: PartRun) -> bool
    ensures { result ≡ list_eq (part_line run) (part_line other) }
{
    match (run, other) {
        (PartRun::Buffer { object }, PartRun::Buffer { object: other }) => object == other,
        (PartRun::Queries { object }, PartRun::Queries { object: other }) => object == other,
        (
            PartRun::Texture {
                object,
                aspect,
                mip,
                ..
            },
            PartRun::Texture {
                object: other,
                aspect: other_aspect,
                mip: other_mip,
                ..
            },
        ) => object == other
            && aspect_number(aspect) == aspect_number(other_aspect)
            && mip == other_mip,
        _ => false,
    }
}

pub(crate) fn line_before(run: PartRun, other: PartRun) -> bool
    ensures { result ≡ list_before (part_line run) (part_line other) }
{
    match (run, other) {
        (PartRun::Buffer { object }, PartRun::Buffer { object: other }) => object < other,
        (PartRun::Buffer { object }, PartRun::Queries { object: other }) => object <= other,
        (PartRun::Buffer { object }, PartRun::Texture { object: other, .. }) => object <= other,
        (PartRun::Queries { object }, PartRun::Buffer { object: other }) => object < other,
        (PartRun::Queries { object }, PartRun::Queries { object: other }) => object < other,
        (PartRun::Queries { object }, PartRun::Texture { object: other, .. }) => object <= other,
        (PartRun::Texture { object, .. }, PartRun::Buffer { object: other }) => object < other,
        (PartRun::Texture { object, .. }, PartRun::Queries { object: other }) => object < other,
        (
            PartRun::Texture {
                object,
                aspect,
                mip,
                ..
            },
            PartRun::Texture {
                object: other,
                aspect: other_aspect,
                mip: other_mip,
                ..
            },
        ) => {
            let place = aspect_number(aspect);
            let other_place = aspect_number(other_aspect);
            object < other
                || object == other
                    && (place < other_place || place == other_place && mip < other_mip)
        }
    }
}

impl Run for PartRun {
    ghost sort = { part_sort };

    fn is_before(&self, other: &PartRun) -> bool {
        line_before(*self, *other) || same_line(*self, *other) && part_lo(*self) < part_lo(*other)
    }

    fn is_full(&self) -> bool {
        part_lo(*self) < part_hi(*self)
    }

    fn ends_before(&self, other: &PartRun) -> bool {
        self.is_full()
            && other.is_full()
            && (line_before(*self, *other)
                || same_line(*self, *other) && part_hi(*self) <= part_lo(*other))
    }

    fn same_line(&self, other: &PartRun) -> bool {
        same_line(*self, *other)
    }

    fn meets(&self, other: &PartRun) -> bool {
        same_line(*self, *other)
            && part_lo(*self) <= part_hi(*other)
            && part_lo(*other) <= part_hi(*self)
    }

    fn both(&self, other: &PartRun) -> PartRun {
        part_widen(
            *self,
            part_lo(*self).min(part_lo(*other)),
            part_hi(*self).max(part_hi(*other)),
        )
    }
}

impl Clip for PartRun {
    fn left(&self, other: &PartRun) -> Option<PartRun> {
        if part_lo(*self) < part_lo(*other) {
            return Some(part_widen(*self, part_lo(*self), part_hi(*self).min(part_lo(*other))));
        }
        None
    }

    fn right(&self, other: &PartRun) -> Option<PartRun> {
        if part_hi(*other) < part_hi(*self) {
            return Some(part_widen(*self, part_lo(*self).max(part_hi(*other)), part_hi(*self)));
        }
        None
    }

    fn inner(&self, other: &PartRun) -> Option<PartRun> {
        let lo = part_lo(*self).max(part_lo(*other));
        let hi = part_hi(*self).min(part_hi(*other));
        if same_line(*other, *self) && lo < hi {
            return Some(part_widen(*self, lo, hi));
        }
        None
    }
}

impl Value for Usages {
    ghost same = { same_set };

    fn is_same(&self, other: &Usages) -> bool {
        self.bits() == other.bits()
    }
}

impl Value for (Option<Usages>, Usages) {
    ghost same = { same_change };

    fn is_same(&self, other: &(Option<Usages>, Usages)) -> bool {
        match (self.0, other.0) {
            (None, None) => self.1.bits() == other.1.bits(),
            (Some(from), Some(other_from)) => {
                from.bits() == other_from.bits() && self.1.bits() == other.1.bits()
            }
            _ => false,
        }
    }
}
