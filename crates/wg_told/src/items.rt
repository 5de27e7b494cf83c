//! Items of a trace, as they are told.
ghost use Rattle.std.specs.Prelude.{◌≡◌};
ghost use Rattle.wg_told.specs.Items.{aspect_number, part_told, cells_told, sort_number, name_number, kind_number, from_told, fresh_told, host_told, place_told, blank_item, bar_told, step_told, free_told, item_told, use_told, access_told};

use bitflags::Flags;
use wg_types::parts::{AccessKind, Aspect, Cells, PartRun};
use wg_types::steps::{Item, Sort, Step, StepName, StepPlace};
use wg_types::usages::Usages;

/// Parts or cells of memory. What its sort does not need is 0.
#[repr(C)]
#[derive(Clone, Copy, PartialEq, Eq, Debug)]
pub struct ToldRange {
    pub object: u64,
    pub lo: u64,
    pub hi: u64,
    pub sort: u32,
    pub aspect: u32,
    pub mip: u32,
}

/// An item of a trace: a barrier, a step or a release. What it does not need is 0.
#[repr(C)]
#[derive(Clone, Copy, PartialEq, Eq, Debug)]
pub struct ToldItem {
    pub what: u32,
    pub name: u32,
    pub part: ToldRange,
    pub from: u32,
    pub to: u32,
    pub fresh: u32,
    pub host: u32,
    pub place: u64,
    pub uses: u64,
    pub accesses: u64,
}

/// How a step uses a part.
#[repr(C)]
#[derive(Clone, Copy, PartialEq, Eq, Debug)]
pub struct ToldUse {
    pub part: ToldRange,
    pub usages: u32,
}

/// How a step accesses cells.
#[repr(C)]
#[derive(Clone, Copy, PartialEq, Eq, Debug)]
pub struct ToldAccess {
    pub cells: ToldRange,
    pub kind: u32,
}

const BLANK_RANGE: ToldRange = ToldRange {
    object: 0,
    lo: 0,
    hi: 0,
    sort: 0,
    aspect: 0,
    mip: 0,
};

fn aspect_number(aspect: Aspect) -> u32
    ensures { result ≡ aspect_number aspect }
{
    match aspect {
        Aspect::Color => 1,
        Aspect::Depth => 2,
        Aspect::Stencil => 3,
    }
}

fn part_told(part: PartRun) -> ToldRange
    ensures { result ≡ part_told part }
{
    match part {
        PartRun::Buffer { object } => ToldRange {
            object,
            sort: 1,
            ..BLANK_RANGE
        },
        PartRun::Queries { object } => ToldRange {
            object,
            sort: 2,
            ..BLANK_RANGE
        },
        PartRun::Texture {
            object,
            aspect,
            mip,
            lo,
            hi,
        } => ToldRange {
            object,
            lo: u64::from(lo),
            hi: u64::from(hi),
            sort: 3,
            aspect: aspect_number(aspect),
            mip,
        },
    }
}

fn cells_told(cells: Cells) -> ToldRange
    ensures { result ≡ cells_told cells }
{
    match cells {
        Cells::Bytes { object, lo, hi } => ToldRange {
            object,
            lo,
            hi,
            sort: 1,
            ..BLANK_RANGE
        },
        Cells::Queries { object, lo, hi } => ToldRange {
            object,
            lo: u64::from(lo),
            hi: u64::from(hi),
            sort: 2,
            ..BLANK_RANGE
        },
        Cells::Layers {
            object,
            aspect,
            mip,
            lo,
            hi,
        } => ToldRange {
            object,
            lo: u64::from(lo),
            hi: u64::from(hi),
            sort: 3,
            aspect: aspect_number(aspect),
            mip,
        },
        Cells::Slices {
            object,
            mip,
            lo,
            hi,
        } => ToldRange {
            object,
            lo: u64::from(lo),
            hi: u64::from(hi),
            sort: 4,
            aspect: 1,
            mip,
        },
    }
}

fn sort_number(sort: Sort) -> u32
    ensures { result ≡ sort_number sort }
{
    match sort {
        Sort::Buffer => 1,
        Sort::Queries => 2,
        Sort::Texture => 3,
    }
}

fn name_number(name: StepName) -> u32
    ensures { result ≡ name_number name }
{
    match name {
        StepName::Clear => 1,
        StepName::WriteBuffer => 2,
        StepName::WriteTexture => 3,
        StepName::CopyBufferToBuffer => 4,
        StepName::CopyBufferToTexture => 5,
        StepName::CopyTextureToBuffer => 6,
        StepName::CopyTextureToTexture => 7,
        StepName::ClearBuffer => 8,
        StepName::ResolveQuerySet => 9,
        StepName::Dispatch => 10,
        StepName::RenderPass => 11,
        StepName::HostRead => 12,
        StepName::HostWrite => 13,
    }
}

fn kind_number(kind: AccessKind) -> u32
    ensures { result ≡ kind_number kind }
{
    match kind {
        AccessKind::Read => 1,
        AccessKind::Write => 2,
        AccessKind::Both => 3,
        AccessKind::Drop => 4,
        AccessKind::ReadDrop => 5,
    }
}

fn bits_of(set: Usages) -> u32
    ensures { result ≡ set.0 }
{
    u32::from(set.bits())
}

fn from_told(from: Option<Usages>) -> u32
    ensures { result ≡ from_told from }
{
    match from {
        Some(set) => bits_of(set),
        None => 0,
    }
}

fn fresh_told(from: Option<Usages>) -> u32
    ensures { result ≡ fresh_told from }
{
    match from {
        Some(_) => 0,
        None => 1,
    }
}

fn host_told(place: StepPlace) -> u32
    ensures { result ≡ host_told place }
{
    match place {
        StepPlace::Op(_) => 0,
        StepPlace::Host(_) => 1,
    }
}

fn place_told(place: StepPlace) -> u64
    ensures { result ≡ place_told place }
{
    match place {
        StepPlace::Op(number) => number,
        StepPlace::Host(entry) => entry,
    }
}

fn blank_item() -> ToldItem
    ensures { result ≡ blank_item }
{
    ToldItem {
        what: 0,
        name: 0,
        part: BLANK_RANGE,
        from: 0,
        to: 0,
        fresh: 0,
        host: 0,
        place: 0,
        uses: 0,
        accesses: 0,
    }
}

fn bar_told(part: PartRun, from: Option<Usages>, to: Usages) -> ToldItem
    ensures { result ≡ bar_told part from to }
{
    ToldItem {
        what: 1,
        part: part_told(part),
        from: from_told(from),
        to: bits_of(to),
        fresh: fresh_told(from),
        ..blank_item()
    }
}

fn step_told(step: &Step) -> ToldItem
    ensures { result ≡ step_told step.now }
{
    ToldItem {
        what: 2,
        name: name_number(step.name),
        host: host_told(step.place),
        place: place_told(step.place),
        uses: step.uses.as_slice().len() as u64,
        accesses: step.accesses.as_slice().len() as u64,
        ..blank_item()
    }
}

fn free_told(object: u64, sort: Sort) -> ToldItem
    ensures { result ≡ free_told object sort }
{
    ToldItem {
        what: 3,
        part: ToldRange {
            object,
            sort: sort_number(sort),
            ..BLANK_RANGE
        },
        ..blank_item()
    }
}

/// An item. Of a step its uses and accesses are told by themselves.
pub fn item_told(item: &Item) -> ToldItem
    ensures { result ≡ item_told item.now }
{
    match item {
        Item::Bar { part, from, to } => bar_told(*part, *from, *to),
        Item::Step(step) => step_told(step),
        Item::Free { object, sort } => free_told(*object, *sort),
    }
}

/// A use of a step.
pub fn use_told(part: PartRun, set: Usages) -> ToldUse
    ensures { result ≡ use_told (part, set) }
{
    ToldUse {
        part: part_told(part),
        usages: bits_of(set),
    }
}

/// An access of a step.
pub fn access_told(cells: Cells, kind: AccessKind) -> ToldAccess
    ensures { result ≡ access_told (cells, kind) }
{
    ToldAccess {
        cells: cells_told(cells),
        kind: kind_number(kind),
    }
}
