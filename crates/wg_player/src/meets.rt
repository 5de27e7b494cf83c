//! How all passes meet between two phases.
ghost use Rattle.wg_turn.specs.Passes.{IsPassOf};
ghost use Rattle.wg_player.specs.Moves.{MeetsEach, ArePassesOf, AreSoundIn, HaveAllMet};

use wg_device::{Device, DevicePass};

/// One pass meets each of the others in turn.
fn meet_each(device: &Device, hub: &mut DevicePass, passes: &mut [DevicePass])
    requires hub { IsPassOf device.now.lock hub.old }
    requires passes { ArePassesOf device.now.lock passes.old }
    ensures told { MeetsEach device.now.lock hub.old passes.old hub.new passes.new }
{
    if let Some((first, rest)) = passes.split_first_mut() {
        device.meet(hub, first);
        meet_each(device, hub, rest);
    }
}

/// All passes meet: afterwards each has seen what any had seen.
#[tactic(auto, using(crate::proofs::Meeting::told_twice, crate::proofs::Meeting::passes_after, crate::proofs::Meeting::hub_same))]
pub fn meet_all(device: &Device, passes: &mut [DevicePass])
    requires passes { ArePassesOf device.now.lock passes.old × AreSoundIn device.now.lock passes.old }
    ensures met { HaveAllMet device.now.lock passes.old passes.new }
{
    if let Some((hub, rest)) = passes.split_first_mut() {
        // The hub hears what each has seen.
        meet_each(device, hub, rest);
        meet_each(device, hub, rest); // And all hear it from the hub.
    }
}
