//! The bodies of a phase's lanes, and what becomes of them.
ghost use Rattle.std.specs.Prelude.{◌≡◌, All, true, map, flat_map, reverse, length, ℕ, Some, slice_get, IfOk};
ghost use Rattle.wg_turn.specs.Passes.{IsPassOf};
ghost use Rattle.wg_player.specs.declared.lane.LaneRun.{LaneRun};
ghost use Rattle.wg_player.specs.Seats.{calls_of, first_of, BodiesAreSeated, HasRun};

use crate::lane::LaneRun;
use std::alloc::Global;
use std::sync::Wait;
use std::thread::Threads;
use wg_device::{Device, DevicePass};
use wg_entry::NoMemory;
use wg_lanes::{Gate, run_all};
use wg_play::{LaneSight, Object, count_made};
use wg_script::{BoundCall, BoundLane};

/// The calls of a lane, or none where the phase has fewer lanes.
fn calls_at(lanes: &[BoundLane], lane: usize) -> &[BoundCall]
    ensures { result.now ≡ calls_of lanes.now lane }
{
    match lanes {
        [] => &[],
        [first, rest @ ..] => {
            if lane == 0 {
                first.as_slice()
            } else {
                calls_at(rest, lane - 1)
            }
        }
    }
}

/// The first slot of a lane, where the first of these lanes has that of `first`. A slot at 2^32 counts as
/// want of memory.
fn first_at(first: u32, lanes: &[BoundLane], lane: usize) -> Result<u32, NoMemory>
    ensures { IfOk result (λ slot. slot ≡ first_of first lanes.now lane) }
{
    match lanes {
        [] => Ok(first),
        [calls, rest @ ..] => {
            if lane == 0 {
                return Ok(first);
            }
            let Some(next) = first.checked_add(count_made(calls.as_slice())?) else {
                return Err(NoMemory);
            };
            first_at(next, rest, lane - 1)
        }
    }
}

/// The bodies of a phase's lanes, the last lane's first. Each sees what earlier phases made.
pub fn seat<'a, G: Gate>(
    alloc: Global,
    gate: &'a G,
    phase: u32,
    device: &'a Device,
    lanes: &'a [BoundLane],
    objects: &'a [Object],
    mut passes: Vec<DevicePass>,
) -> Result<Vec<LaneRun<'a, G>>, NoMemory>
    requires of { All (λ p. IsPassOf device.now.lock p) passes.items }
    ensures seated { IfOk result (λ bodies. BodiesAreSeated device.now lanes.now objects.now passes.items (reverse bodies.items)) }
{
    let Ok(count) = u32::try_from(objects.len()) else {
        return Err(NoMemory);
    };
    let mut bodies = Vec::with_capacity(alloc, passes.len())?;
    while let Some(pass) = passes.pop() {
        let lane = pass.number() as usize;
        let seen = LaneSight {
            others: objects,
            first: first_at(count, lanes, lane)?,
            own: Vec::new(alloc),
        };
        bodies.push_reserved(LaneRun {
            gate,
            phase,
            device,
            pass,
            calls: calls_at(lanes, lane),
            seen,
            through: false,
        });
    }
    Ok(bodies)
}

/// The passes, and what bodies have made, where all are through.
pub fn unseat<'a, G: Gate>(
    alloc: Global,
    mut bodies: Vec<LaneRun<'a, G>>,
) -> Result<(Vec<DevicePass>, Vec<Object>), NoMemory>
    ensures passes { IfOk result (λ t. t.0.items ≡ map (λ b. b.pass) (reverse bodies.entry.items)) }
    ensures made { IfOk result (λ t. t.1.items ≡ flat_map (λ b. b.seen.own.items) (reverse bodies.entry.items)) }
    ensures through { IfOk result (λ _. All (λ b. b.through ≡ true) (reverse bodies.entry.items)) }
{
    let mut passes = Vec::with_capacity(alloc, bodies.len())?;
    let mut made = Vec::new(alloc);
    while let Some(body) = bodies.pop() {
        let LaneRun {
            pass,
            seen,
            through,
            ..
        } = body;
        if !through {
            return Err(NoMemory);
        }
        let LaneSight { mut own, .. } = seen;
        passes.push_reserved(pass);
        made.append(&mut own)?;
    }
    Ok((passes, made))
}

/// Runs all bodies at once.
pub fn run_bodies<'a, T: Wait + Threads + Sync, G: Gate + Sync>(
    rt: &T,
    bodies: &mut Vec<LaneRun<'a, G>>,
)
    ensures count { length bodies.new.items ≡ length bodies.old.items }
    ensures each { (i : ℕ) (b : LaneRun G) → slice_get bodies.old.items i ≡ Some b
        → (c : LaneRun G) × (slice_get bodies.new.items i ≡ Some c) × HasRun b c }
{
    run_all(rt, bodies.as_mut_slice());
}
