//! Last uses, noted step by step, with the barriers before each.
use std::alloc::Global;
use wg_bars::LastUse;
use wg_types::NoMemory;
use wg_types::items::Items;
use wg_types::parts::{Aspect, PartRun};
use wg_types::steps::{Item, Step, StepName, StepPlace};
use wg_types::usages::Usages;

const TEXTURE: u64 = 3;

const ATTACHED: Usages = Usages::ATTACHMENT;

const SAMPLED: Usages = Usages::CONSTANT;

fn layers(lo: u32, hi: u32) -> PartRun {
    PartRun::Texture {
        object: TEXTURE,
        aspect: Aspect::Color,
        mip: 0,
        lo,
        hi,
    }
}

/// A step that uses a part.
fn step(alloc: Global, part: PartRun, to: Usages) -> Result<Step, NoMemory> {
    let mut uses = Items::new(alloc);
    uses.push((part, to))?;
    Ok(Step {
        place: StepPlace::Op(1),
        name: StepName::RenderPass,
        uses,
        accesses: Items::new(alloc),
    })
}

type Bar = (PartRun, Option<Usages>, Usages);

/// Whether an item is this barrier.
fn is_bar(item: &Item, bar: Bar) -> bool {
    match item {
        Item::Bar { part, from, to } => (*part, *from, *to) == bar,
        _ => false,
    }
}

/// Whether items are these barriers, of which there are at most two.
fn are(items: &[Item], bars: &[Bar]) -> bool {
    match (items, bars) {
        ([], []) => true,
        ([item], [bar]) => is_bar(item, *bar),
        ([item, other], [bar, next]) => is_bar(item, *bar) && is_bar(other, *next),
        _ => false,
    }
}

/// Whether these are the barriers of a step that uses a part, and then the step noted.
fn barred(
    state: &mut LastUse,
    alloc: Global,
    (part, to): (PartRun, Usages),
    bars: &[Bar],
) -> Result<bool, NoMemory> {
    let step = step(alloc, part, to)?;
    let items = state.before(&step)?;
    state.note(&step)?;
    Ok(are(&items, bars))
}

/// Whether a state has these rows of an object.
fn is_row(state: &LastUse, object: u64, rows: &[(PartRun, Usages)]) -> bool {
    match state.rows_of(object) {
        Some(found) => found == rows,
        None => rows.is_empty(),
    }
}

/// The barriers of three steps, and the rows after them.
fn of_three(alloc: Global, state: &mut LastUse) -> [Result<bool, NoMemory>; 3] {
    let wanted = [
        (layers(0, 1), Some(ATTACHED), SAMPLED),
        (layers(1, 3), None, SAMPLED),
    ];
    [
        barred(
            state,
            alloc,
            (layers(0, 1), ATTACHED),
            &[(layers(0, 1), None, ATTACHED)],
        ),
        barred(state, alloc, (layers(0, 3), SAMPLED), &wanted),
        barred(state, alloc, (layers(0, 3), SAMPLED), &[]),
    ]
}

/// Whether a copy has these rows of the texture.
fn copy_has(state: &LastUse, rows: &[(PartRun, Usages)]) -> Result<bool, NoMemory> {
    let other = state.copy()?;
    Ok(is_row(&other, TEXTURE, rows))
}

type Told = (
    [Result<bool, NoMemory>; 3],
    [bool; 3],
    Result<bool, NoMemory>,
);

/// The barriers of three steps, and the rows after them of what is used and of what is not, and those of a copy.
fn of_state(alloc: Global) -> Told {
    let mut state = LastUse::new(alloc);
    let barred = of_three(alloc, &mut state);
    let rows = [(layers(0, 3), SAMPLED)];
    let noted = [
        is_row(&state, TEXTURE, &rows),
        is_row(&state, TEXTURE + 1, &[]),
        is_row(&state, 0, &[]),
    ];
    (barred, noted, copy_has(&state, &rows))
}

#[test]
fn barriers_go_from_the_last_set(rt: HostRuntime) {
    assert!(rt; of_state(rt.alloc()) == ([Ok(true); 3], [true; 3], Ok(true)));
}
