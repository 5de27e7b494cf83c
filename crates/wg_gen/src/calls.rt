//! The calls of the generated script.
ghost use Rattle.std.specs.Prelude.{◌≡◌, ◌+◌, ◌*◌, ◌^◌, ◌≤◌, ◌<◌, ◌++◌, ◌∷◌, [], IfOk, map};
ghost use Rattle.wg_names.specs.Bound.{IsBound};
ghost use Rattle.wg_gen.specs.Alike.{MayGenerate};
ghost use Rattle.wg_gen.specs.Generator.{eight, creation, iteration, iterations, lane_of, lanes_from, ending, generated};

use crate::draws::{Draws, Spot};
use std::alloc::Global;
use wg_limits::default_limits;
use wg_script::{BoundLane, BoundPhase, CallOf, NoMemory, Script};
use wg_types::commands::CommandOf;
use wg_types::handles::BufferInfo;
use wg_types::items::Items;
use wg_types::requests::RequestOf;

/// How many bytes of memory the buffers of a device may have.
const BUDGET: u64 = 1_000_000;

/// The slots of the buffers.
const BUFFERS: [u32; 8] = [0, 1, 2, 3, 4, 5, 6, 7];

/// The slot after those of the buffers.
const FIRST: u32 = 8;

/// A list of one item.
fn one<T: Drop>(alloc: Global, item: T) -> Result<Items<T>, NoMemory>
    ensures { IfOk result (λ items. items ≡ item ∷ []) }
{
    let mut items = Items::new(alloc);
    items.push(item)?;
    Ok(items)
}

/// The calls that create the buffers.
fn creations(alloc: Global) -> Result<BoundLane, NoMemory>
    ensures { IfOk result (λ calls. calls ≡ map creation eight) }
{
    let info = BufferInfo {
        size: 4096,
        usage: 12,
        mapped: false,
    };
    let mut calls = Items::new(alloc);
    for slot in &BUFFERS {
        calls.push(CallOf::Ask {
            request: RequestOf::CreateBuffer { info },
            made: Some(*slot),
        })?;
    }
    Ok(calls)
}

/// The calls at the end: of so many iterations all operations are complete, and the buffers are destroyed.
fn ending(alloc: Global, iterations: u32) -> Result<BoundLane, NoMemory>
    requires { 2 * iterations < 2 ^ 64 }
    ensures { IfOk result (λ calls. calls ≡ ending iterations) }
{
    let op = 2 * u64::from(iterations);
    let mut calls = one(
        alloc,
        CallOf::Ask {
            request: RequestOf::Complete { op },
            made: None,
        },
    )?;
    for slot in &BUFFERS {
        calls.push(CallOf::Ask {
            request: RequestOf::Destroy { object: *slot },
            made: None,
        })?;
    }
    Ok(calls)
}

/// Adds the calls of an iteration, whose encoder has this slot.
fn push_iteration(
    alloc: Global,
    calls: &mut BoundLane,
    slot: u32,
    spot: Spot,
) -> Result<(), NoMemory>
    requires { slot + 1 < 2 ^ 32 }
    ensures { IfOk result (λ _. calls.new ≡ calls.old ++ iteration slot (record { source = spot.source; target = spot.target; offset = spot.offset })) }
{
    let Spot {
        source,
        target,
        offset,
    } = spot;
    calls.push(CallOf::Ask {
        request: RequestOf::WriteBuffer {
            buffer: source,
            offset,
            size: 64,
        },
        made: None,
    })?;
    calls.push(CallOf::Ask {
        request: RequestOf::CreateEncoder,
        made: Some(slot),
    })?;
    calls.push(CallOf::Record {
        on: slot,
        command: CommandOf::CopyBufferToBuffer {
            source,
            source_offset: offset,
            target,
            target_offset: offset,
            size: 128,
        },
        made: None,
    })?;
    calls.push(CallOf::Ask {
        request: RequestOf::Finish { encoder: slot },
        made: Some(slot + 1),
    })?;
    calls.push(CallOf::Ask {
        request: RequestOf::Submit {
            buffers: one(alloc, slot + 1)?,
        },
        made: None,
    })?;
    Ok(())
}

/// The calls of a lane.
fn lane_calls(alloc: Global, count: u32, lane: u32) -> Result<BoundLane, NoMemory>
    requires { (lane * count + count ≤ 8000) × (lane < 64) }
    ensures { IfOk result (λ calls. calls ≡ lane_of count lane) }
{
    let mut draws = Draws {
        state: u64::from(lane) + 1,
    };
    let mut calls = Items::new(alloc);
    for made in 0..count {
        let slot = FIRST + 2 * (lane * count + made);
        let spot = draws.spot();
        push_iteration(alloc, &mut calls, slot, spot)?;
    }
    Ok(calls)
}

/// The lanes that run at once.
fn lanes(alloc: Global, count: u32, lanes: u32) -> Result<BoundPhase, NoMemory>
    requires { (count * lanes ≤ 8000) × (lanes ≤ 64) }
    ensures { IfOk result (λ phase. phase ≡ lanes_from count 0 lanes) }
{
    let mut phase = Items::new(alloc);
    for lane in 0..lanes {
        phase.push(lane_calls(alloc, count, lane)?)?;
    }
    Ok(phase)
}

/// The script of `count` iterations in each of so many lanes: eight buffers are created, the lanes write,
/// copy, finish and submit at once, and then all is complete and the buffers are destroyed. Its slots are
/// those that names would have in reading order.
pub fn script(alloc: Global, count: u32, lanes: u32) -> Result<Script, NoMemory>
    requires { MayGenerate count lanes }
    ensures made { IfOk result (λ script. script ≡ generated count lanes) }
    ensures bound { IfOk result (λ script. IsBound script.phases) }
{
    let mut phases = Items::new(alloc);
    phases.push(one(alloc, creations(alloc)?)?)?;
    phases.push(self::lanes(alloc, count, lanes)?)?;
    phases.push(one(alloc, ending(alloc, count * lanes)?)?)?;
    Ok(Script {
        budget: BUDGET,
        limits: default_limits(),
        phases,
    })
}
