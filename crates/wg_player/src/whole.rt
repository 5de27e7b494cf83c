//! A script played on a device of its own.
ghost use Rattle.std.specs.Prelude.{◌≡◌, ◌<◌, ◌≤◌, All, length, IfOk};
ghost use Rattle.wg_turn.specs.Closings.{entries_of, passes_of, state_of};
ghost use Rattle.wg_play.specs.Play.{most_lanes, callers_for, script_setup};
ghost use Rattle.wg_player.specs.Whole.{IsPlayedOut};

use crate::phase::play_phases;
use std::alloc::Global;
use std::sync::Wait;
use std::thread::Threads;
use wg_device::{Device, Ended};
use wg_entry::NoMemory;
use wg_lanes::Gate;
use wg_script::{BoundPhase, Script};

/// The serial of the device on which a script is played.
const SERIAL: u64 = 1;

/// The most lanes that a phase has, and at least one.
#[tactic(auto, using(crate::proofs::PlayedOut::most_more))]
fn lanes_of(phases: &[BoundPhase]) -> usize
    ensures { result ≡ most_lanes 1 phases.now }
{
    let mut most = 1;
    for lanes in phases {
        let count = lanes.as_slice().len();
        if most < count {
            most = count;
        }
    }
    most
}

/// As many callers as a script needs.
fn callers_for(phases: &[BoundPhase]) -> Result<u32, NoMemory>
    ensures count { IfOk result (λ n. n ≡ callers_for phases.now) }
    ensures range { IfOk result (λ n. (0 < n) × (n ≤ 65536)) }
    ensures all { IfOk result (λ n. All (λ lanes. length lanes ≤ n) phases.now) }
{
    let most = lanes_of(phases);
    if most > 65536 {
        return Err(NoMemory);
    }
    Ok(most as u32)
}

/// Plays a script on a device of its own with as many callers as its largest phase has lanes, and closes
/// it. The history of the closed device is what the script gives where its lanes take turns in some legal
/// order, which the history itself names.
pub fn play<T: Wait + Threads + Sync, G: Gate + Sync>(
    rt: &T,
    alloc: Global,
    gate: &G,
    script: &Script,
) -> Result<Ended, NoMemory>
    ensures setup { IfOk result (λ ended. (state_of ended).setup ≡ script_setup script.now) }
    ensures callers { IfOk result (λ ended. passes_of ended ≡ callers_for script.now.phases) }
    ensures played { IfOk result (λ ended. IsPlayedOut (script_setup script.now) script.now.phases (passes_of ended) (state_of ended) (entries_of ended)) }
{
    let phases = script.phases.as_slice();
    let callers = callers_for(phases)?;
    let (device, passes) = Device::open(alloc, script.budget, SERIAL, &script.limits, callers)?;
    let passes = play_phases(rt, alloc, gate, &device, phases, passes)?;
    Ok(device.close(passes))
}
