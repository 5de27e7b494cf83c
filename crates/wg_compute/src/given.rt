//! What a command sets in any pass: the pipeline, or a bind group; and whether it unsets all.
ghost use Rattle.std.specs.Prelude.{◌≡◌, option_copied, IfOk};
ghost use Rattle.wg_model.specs.Rules.{first_unmet};
ghost use Rattle.wg_model.specs.Settings.{pipeline_given, unsets, group_given, given_rules};

use std::marker::Model;
use wg_layouts::{check_set, check_unset, known_group};
use wg_types::NoMemory;
use wg_types::commands::{BoundGroup, Command};
use wg_types::handles::Handle;
use wg_types::items::Items;
use wg_types::shared::Shared;

/// A bind group that a command sets, with its index and its dynamic offsets; none unsets what is set there.
#[derive(Drop)]
pub struct GroupGiven<'a> {
    pub index: u32,
    pub group: Option<&'a Handle>,
    pub offsets: &'a Shared<Items<u32>>,
}

impl<'a> Model for GroupGiven<'a> {
    ghost use Rattle.std.specs.Prelude.{ℕ, Option, option_map, option_copied};
    ghost use Rattle.wg_model.specs.Settings.{bound_with};
    ghost use Rattle.wg_types.specs.declared.commands.BoundGroup.{BoundGroup};

    ghost Value = { ℕ × Option BoundGroup };

    ghost view = { λ g. (g.index, option_map (bound_with g.offsets.now) (option_copied g.group)) };
}

/// The pipeline that a command sets, if it sets one.
pub fn pipeline_given(command: &Command) -> Option<&Handle>
    ensures { option_copied result ≡ pipeline_given command.now }
{
    match command {
        Command::SetPipeline { pipeline } => Some(pipeline),
        _ => None,
    }
}

/// Whether a command unsets all that is set, which bundles that are executed do (WebGPU, "executeBundles").
pub fn unsets(command: &Command) -> bool
    ensures { result ≡ unsets command.now }
{
    match command {
        Command::ExecuteBundles { .. } => true,
        _ => false,
    }
}

/// The bind group that a command sets or unsets, if it does.
pub fn group_given(command: &Command) -> Option<GroupGiven>
    ensures { result ≡ group_given command.now }
{
    match command {
        Command::SetBindGroup {
            index,
            group,
            offsets,
        } => Some(GroupGiven {
            index: *index,
            group: group.as_ref(),
            offsets,
        }),
        _ => None,
    }
}

/// The bind group as it stands where it is set, or none.
pub fn bound(given: &GroupGiven) -> Result<Option<BoundGroup>, NoMemory>
    ensures { IfOk result (λ bound. bound ≡ given.now.1) }
{
    match given.group {
        Some(group) => Ok(Some(BoundGroup {
            group: group.share()?,
            offsets: given.offsets.share()?,
        })),
        None => Ok(None),
    }
}

/// The first unmet rule of the bind group that a command sets, or of null, if it sets one (WebGPU,
/// "setBindGroup").
pub fn check_given(command: &Command) -> Option<u16>
    ensures { result ≡ first_unmet (given_rules command.now) }
{
    match command {
        Command::SetBindGroup {
            index,
            group,
            offsets,
        } => {
            let offsets = offsets.get().as_slice();
            match group {
                Some(group) => check_set(*index, known_group(group), offsets),
                None => check_unset(*index, offsets),
            }
        }
        _ => None,
    }
}
