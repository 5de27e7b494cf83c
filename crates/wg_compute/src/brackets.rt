//! Debug groups, and the end of a pass.
ghost use Rattle.std.specs.Prelude.{◌≡◌, IfOk};
ghost use Rattle.wg_model.specs.Rules.{first_unmet};
ghost use Rattle.wg_model.specs.Commands.{debug_rules};
ghost use Rattle.wg_model.specs.Settings.{depth_after, end_rules};

use wg_rules::{DEBUG_GROUP_IS_OPEN, EVERY_DEBUG_GROUP_OF_PASS_IS_CLOSED};
use wg_types::NoMemory;
use wg_types::commands::{Bracket, Command};

/// How many debug groups are open after a command. More than fit a number are answered as want of
/// memory.
pub fn depth_after(depth: u64, command: &Command) -> Result<u64, NoMemory>
    ensures { IfOk result (λ after. after ≡ depth_after depth command.now) }
{
    match command.bracket() {
        Bracket::PushGroup => {
            if depth == u64::MAX {
                return Err(NoMemory);
            }
            return Ok(depth + 1);
        }
        Bracket::PopGroup => return Ok(depth.saturating_sub(1)),
        Bracket::BeginComputePass
        | Bracket::BeginRenderPass
        | Bracket::EndPass
        | Bracket::Neither => return Ok(depth),
    }
}

/// The rule of popDebugGroup, 285, where so many groups are open (WebGPU, "Debug Markers").
pub fn check_group(depth: u64, command: &Command) -> Option<u16>
    ensures { result ≡ first_unmet (debug_rules depth command.now) }
{
    match command.bracket() {
        Bracket::PopGroup => {
            if depth == 0 {
                return Some(DEBUG_GROUP_IS_OPEN);
            }
            return None;
        }
        Bracket::BeginComputePass
        | Bracket::BeginRenderPass
        | Bracket::EndPass
        | Bracket::PushGroup
        | Bracket::Neither => return None,
    }
}

/// The rule of the end of a pass, 310, where so many groups of the pass are open (WebGPU, "end").
pub fn check_end(depth: u64, command: &Command) -> Option<u16>
    ensures { result ≡ first_unmet (end_rules depth command.now) }
{
    match command.bracket() {
        Bracket::EndPass => {
            if depth != 0 {
                return Some(EVERY_DEBUG_GROUP_OF_PASS_IS_CLOSED);
            }
            return None;
        }
        Bracket::BeginComputePass
        | Bracket::BeginRenderPass
        | Bracket::PushGroup
        | Bracket::PopGroup
        | Bracket::Neither => return None,
    }
}
