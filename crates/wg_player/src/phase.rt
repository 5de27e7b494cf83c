//! A phase, whose lanes run at once, and the phases one after another.
ghost use Rattle.std.specs.Prelude.{◌≡◌, ◌≤◌, All, [], List, length, vec_len, IfOk};
ghost use Rattle.wg_history.specs.Entries.{Entry};
ghost use Rattle.wg_turn.specs.Passes.{callers_of, opened_with};
ghost use Rattle.wg_device.specs.Fronts.{setup_of};
ghost use Rattle.wg_play.specs.declared.objects.Object.{Object as ObjectOf};
ghost use Rattle.wg_play.specs.Play.{PlaysTo};
ghost use Rattle.wg_player.specs.Moves.{AllPassesAt, ArePassesOf, AreSoundIn, HaveAllMet};
ghost use Rattle.wg_player.specs.Seats.{HasRunPhase};

use crate::meets::meet_all;
use crate::seats::{run_bodies, seat, unseat};
use std::alloc::Global;
use std::sync::Wait;
use std::thread::Threads;
use wg_device::{Device, DevicePass};
use wg_entry::NoMemory;
use wg_lanes::Gate;
use wg_play::Object;
use wg_script::{BoundLane, BoundPhase};

/// All passes meet.
fn meet_passes(device: &Device, passes: &mut Vec<DevicePass>)
    requires passes { ArePassesOf device.now.lock passes.old.items × AreSoundIn device.now.lock passes.old.items }
    ensures met { HaveAllMet device.now.lock passes.old.items passes.new.items }
{
    meet_all(device, passes.as_mut_slice());
}

/// Plays a phase: its lanes run at once, and then all passes meet.
#[tactic(auto, using(crate::proofs::Adding::passes_of))]
fn play_phase<T: Wait + Threads + Sync, G: Gate + Sync>(
    rt: &T,
    alloc: Global,
    gate: &G,
    phase: u32,
    device: &Device,
    lanes: &[BoundLane],
    passes: Vec<DevicePass>,
    objects: &mut Vec<Object>,
) -> Result<Vec<DevicePass>, NoMemory>
    requires at { (front : List Entry) × AllPassesAt device.now.lock 0 passes.items front }
    ensures ran { IfOk result (λ qs. HasRunPhase device.now.lock lanes.now objects.old.items objects.new.items passes.items qs.items) }
{
    let mut bodies = seat(
        alloc,
        gate,
        phase,
        device,
        lanes,
        objects.as_slice(),
        passes,
    )?;
    run_bodies(rt, &mut bodies);
    let (mut passes, mut made) = unseat(alloc, bodies)?;
    objects.append(&mut made)?;
    meet_passes(device, &mut passes);
    Ok(passes)
}

/// Plays the phases, one after another. 2^32 of them count as want of memory.
pub fn play_phases<T: Wait + Threads + Sync, G: Gate + Sync>(
    rt: &T,
    alloc: Global,
    gate: &G,
    device: &Device,
    phases: &[BoundPhase],
    mut passes: Vec<DevicePass>,
) -> Result<Vec<DevicePass>, NoMemory>
    requires fresh { (opened_with device.now.lock).history ≡ [] }
    requires at { AllPassesAt device.now.lock 0 passes.items [] }
    requires all { vec_len passes ≡ callers_of device.now.lock }
    requires few { All (λ lanes. length lanes ≤ callers_of device.now.lock) phases.now }
    ensures played { IfOk result (λ qs. (front : List Entry) × (objects : List ObjectOf) × (vec_len qs ≡ callers_of device.now.lock)
        × AllPassesAt device.now.lock 0 qs.items front × PlaysTo (setup_of device.now.lock) phases.now [] front objects) }
{
    let mut objects = Vec::new(alloc);
    for (index, lanes) in phases.iter().enumerate() {
        let Ok(phase) = u32::try_from(index) else {
            return Err(NoMemory);
        };
        passes = play_phase(
            rt,
            alloc,
            gate,
            phase,
            device,
            lanes.as_slice(),
            passes,
            &mut objects,
        )?;
    }
    Ok(passes)
}
