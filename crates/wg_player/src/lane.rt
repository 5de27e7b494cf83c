//! A lane of a phase.
ghost use Rattle.std.specs.Prelude.{◌≡◌, true, OnOk};
ghost use Rattle.std.proofs.Props.{props};
ghost use Rattle.wg_turn.specs.Passes.{IsPassOf};
ghost use Rattle.wg_play.specs.Sights.{SeesSame, sight_of};
ghost use Rattle.wg_player.specs.Moves.{MovesThrough};

use crate::call::play_call;
use std::sync::Wait;
use wg_device::{Device, DevicePass};
use wg_entry::NoMemory;
use wg_lanes::{Gate, LaneBody};
use wg_play::LaneSight;
use wg_script::BoundCall;

/// A lane with its pass, its calls, and what it sees; and whether it is through.
#[derive(Drop)]
pub struct LaneRun<'a, G: Gate> {
    pub gate: &'a G,
    pub phase: u32,
    pub device: &'a Device,
    pub pass: DevicePass,
    pub calls: &'a [BoundCall],
    pub seen: LaneSight<'a>,
    pub through: bool,
    pub ghost of: { IsPassOf device.now.lock pass } by { Prim.hlevel props },
}

/// Plays a lane's calls, each between two calls of the gate. 2^40 calls of a pass, or 2^32 of a lane, count
/// as want of memory.
#[tactic(auto, using(crate::proofs::Going::moves_none, crate::proofs::Going::moves_at))]
fn play_lane<G: Gate>(
    rt: &impl Wait,
    gate: &G,
    phase: u32,
    device: &Device,
    pass: &mut DevicePass,
    seen: &mut LaneSight<'_>,
    calls: &[BoundCall],
) -> Result<(), NoMemory>
    requires { IsPassOf device.now.lock pass.old }
    ensures pass { IsPassOf device.now.lock pass.new }
    ensures same { SeesSame seen.old seen.new }
    ensures moves { OnOk result (MovesThrough device.now.lock calls.now (sight_of seen.old) (sight_of seen.new) pass.old pass.new) }
{
    let lane = pass.number();
    for (index, call) in calls.iter().enumerate() {
        if pass.calls() >= 1 << 40 {
            return Err(NoMemory);
        }
        let Ok(number) = u32::try_from(index) else {
            return Err(NoMemory);
        };
        gate.before(phase, lane, number);
        play_call(rt, device, pass, seen, call)?;
        gate.after(phase, lane, number);
    }
    Ok(())
}

impl<'a, G: Gate> LaneBody for LaneRun<'a, G> {
    ghost ran = { λ b c. (c.device ≡ b.device) × (c.calls ≡ b.calls) × SeesSame b.seen c.seen
        × (c.through ≡ true → MovesThrough b.device.now.lock b.calls.now (sight_of b.seen) (sight_of c.seen) b.pass c.pass) };

    fn run<T: Wait + Sync>(&mut self, rt: &T) {
        let played = play_lane(
            rt,
            self.gate,
            self.phase,
            self.device,
            &mut self.pass,
            &mut self.seen,
            self.calls,
        );
        self.through = played.is_ok();
    }
}
