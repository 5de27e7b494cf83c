//! To what a bundle encoder draws, and the limits by which commands are judged.
ghost use Rattle.std.specs.Prelude.{◌≡◌, Some, None, option_copied};
ghost use Rattle.wg_model.specs.Walk.{command_limits, no_limits, no_targets};
ghost use Rattle.wg_encoder.specs.Recorders.{targets_left};

use std::alloc::Global;
use std::marker::Model;
use wg_types::items::Items;
use wg_types::limits::{CommandLimits, Limits};
use wg_types::render::TargetInfo;
use wg_types::shared::Shared;

/// Targets as they were given, or those that are left after the first recording.
#[derive(Drop)]
enum Held {
    Given(Shared<TargetInfo>),
    Left(TargetInfo),
}

/// To what a recorder draws, where it is that of a bundle encoder.
#[derive(Drop)]
pub struct RecorderTargets {
    held: Option<Held>,
}

impl Model for RecorderTargets {
    ghost use Rattle.std.specs.Prelude.{Option, option_map};
    ghost use Rattle.wg_types.specs.declared.render.TargetInfo.{TargetInfo};
    ghost use Rattle.wg_encoder.specs.Held.{targets_in};

    ghost Value = { Option TargetInfo };

    ghost view = { λ t. option_map targets_in t.held };
}

/// Targets that are none, which takes no memory.
pub fn no_targets(alloc: Global) -> TargetInfo
    ensures { result ≡ no_targets }
{
    TargetInfo {
        colors: Items::new(alloc),
        depth: None,
        samples: 1,
        depth_read_only: false,
        stencil_read_only: false,
    }
}

/// Those of the limits of a device by which commands are judged.
pub fn command_limits(limits: &Limits) -> CommandLimits
    ensures { result ≡ command_limits limits.now }
{
    CommandLimits {
        max_texture_dimension_2d: limits.max_texture_dimension_2d,
        max_color_attachment_bytes_per_sample: limits.max_color_attachment_bytes_per_sample,
    }
}

/// The limits of no device, of a recording that no recorder made.
pub fn no_limits() -> CommandLimits
    ensures { result ≡ no_limits }
{
    CommandLimits {
        max_texture_dimension_2d: 0,
        max_color_attachment_bytes_per_sample: None,
    }
}

impl RecorderTargets {
    /// Those of an encoder, which draws to none.
    pub fn none() -> RecorderTargets
        ensures { result ≡ None }
    {
        RecorderTargets { held: None }
    }

    /// Those of a bundle encoder.
    pub fn of(targets: Shared<TargetInfo>) -> RecorderTargets
        ensures { result ≡ Some targets }
    {
        RecorderTargets {
            held: Some(Held::Given(targets)),
        }
    }

    /// The targets, if there are some.
    pub fn get(&self) -> Option<&TargetInfo>
        ensures { option_copied result ≡ self.now }
    {
        match &self.held {
            None => None,
            Some(Held::Given(targets)) => Some(targets.get()),
            Some(Held::Left(targets)) => Some(targets),
        }
    }

    /// Those that are left after a recording, which takes no memory.
    pub fn left(&self, alloc: Global) -> RecorderTargets
        ensures { result ≡ targets_left self.now }
    {
        let held = match &self.held {
            None => None,
            Some(_) => Some(Held::Left(no_targets(alloc))),
        };
        RecorderTargets { held }
    }
}
