//! What is set in any pass.
ghost use Rattle.std.specs.Prelude.{◌≡◌, None, true, option_copied, IfOk, OnOk, OnErr};
ghost use Rattle.std.specs.Option.{option_or};
ghost use Rattle.wg_model.specs.Rules.{first_unmet};
ghost use Rattle.wg_model.specs.Settings.{layouts_set, owner_set, ready_rules};
ghost use Rattle.wg_compute.specs.After.{slots_after, emptied, settings_after};

use crate::brackets::depth_after;
use crate::given::{GroupGiven, bound, group_given, pipeline_given, unsets};
use std::marker::Model;
use wg_layouts::{check_bound, layouts_in, owner_of};
use wg_rules::PIPELINE_IS_SET;
use wg_types::NoMemory;
use wg_types::commands::{BoundGroup, Command};
use wg_types::groups::GroupLayoutInfo;
use wg_types::handles::Handle;
use wg_types::shared::Shared;

/// What is set in any pass: the pipeline, the bind group at each index, and how many debug groups are
/// open (WebGPU, "Programmable Passes" and "Debug Markers").
#[derive(Drop)]
pub struct Settings {
    pipeline: Option<Handle>,
    groups: [Option<BoundGroup>; 4],
    depth: u64,
}

impl Model for Settings {
    ghost use Rattle.std.specs.Prelude.{◌≡◌, length};
    ghost use Rattle.wg_model.specs.Settings.{Settings};

    ghost Value = { Settings };

    ghost view = { λ s. record { pipeline = s.pipeline; groups = s.groups; depth = s.depth } };

    ghost invariant = { λ s. length s.groups ≡ 4 };
}

impl Settings {
    ghost use Rattle.wg_model.specs.Settings.{settings};
    ghost use Rattle.std.specs.Prelude.{[]};

    /// Nothing is set.
    pub fn new() -> Settings
        ensures { result ≡ settings [] }
    {
        Settings {
            pipeline: None,
            groups: [None, None, None, None],
            depth: 0,
        }
    }

    /// How many debug groups are open.
    pub fn depth(&self) -> u64
        ensures { result ≡ self.now.depth }
    {
        self.depth
    }

    /// The pipeline that is set, if one is.
    pub fn pipeline(&self) -> Option<&Handle>
        ensures { option_copied result ≡ self.now.pipeline }
    {
        self.pipeline.as_ref()
    }

    /// The groups that are set, by index.
    pub fn groups(&self) -> &[Option<BoundGroup>]
        ensures { result.now ≡ self.now.groups }
    {
        &self.groups
    }

    /// The layouts of the groups of the pipeline that is set.
    pub fn layouts(&self) -> &[Shared<GroupLayoutInfo>]
        ensures { result.now ≡ layouts_set self.now }
    {
        match &self.pipeline {
            Some(pipeline) => layouts_in(pipeline.info()),
            None => &[],
        }
    }

    /// The pipeline to which these count as exclusive, by its number, where the one that is set derived
    /// them itself.
    pub fn owner(&self) -> Option<u64>
        ensures { result ≡ owner_set self.now }
    {
        match &self.pipeline {
            Some(pipeline) => owner_of(pipeline),
            None => None,
        }
    }

    /// The first unmet rule of what dispatches or draws: a pipeline is set, and so are its groups.
    pub fn ready_rule(&self) -> Option<u16>
        ensures { result ≡ first_unmet (ready_rules self.now) }
    {
        if self.pipeline.is_none() {
            return Some(PIPELINE_IS_SET);
        }
        check_bound(self.layouts(), &self.groups, self.owner())
    }

    fn set_pipeline(&mut self, given: Option<Handle>)
        ensures { self.new ≡ record self.old { pipeline = option_or given self.old.pipeline } }
    {
        if let Some(pipeline) = given {
            self.pipeline = Some(pipeline);
        }
    }

    /// Sets a group at its index, or unsets what is there. There is no index past the last, so nothing is set
    /// there.
    #[tactic(auto, using(crate::proofs::Slots::slots_unset))]
    fn set_group(&mut self, given: Option<GroupGiven>) -> Result<(), NoMemory>
        ensures ok { OnOk result (self.new ≡ record self.old { groups = slots_after given.entry 0 self.old.groups }) }
        ensures err { OnErr result (self.new ≡ self.old) }
    {
        let Some(given) = given else { return Ok(()) };
        let group = bound(&given)?;
        put(&mut self.groups, given.index, group);
        Ok(())
    }

    /// Unsets the pipeline and the groups.
    #[tactic(auto, using(crate::proofs::Slots::four_emptied))]
    fn unset(&mut self)
        ensures { self.new ≡ record self.old { pipeline = None; groups = emptied true self.old.groups } }
    {
        self.pipeline = None;
        self.groups = [None, None, None, None];
    }

    /// Takes what a command sets or unsets in any pass.
    #[tactic(auto, using(crate::proofs::Slots::none_emptied, crate::proofs::Slots::emptied_after))]
    pub fn take(&mut self, command: &Command) -> Result<(), NoMemory>
        ensures set { OnOk result (self.new ≡ settings_after self.old command.now) }
        ensures unchanged { OnErr result (self.new ≡ self.old) }
    {
        let depth = depth_after(self.depth, command)?;
        if unsets(command) {
            self.unset();
            self.depth = depth;
            return Ok(());
        }
        let pipeline = shared(pipeline_given(command))?;
        self.set_group(group_given(command))?;
        self.set_pipeline(pipeline);
        self.depth = depth;
        Ok(())
    }
}

/// Puts a group, or none, into the slot with its index, if there is one.
#[tactic(auto, using(crate::proofs::Slots::slot_set, crate::proofs::Slots::slots_past))]
fn put(groups: &mut [Option<BoundGroup>], index: u32, group: Option<BoundGroup>)
    ensures { groups.new ≡ slots_after (Some (index, group)) 0 groups.old }
{
    if (index as usize) < groups.len() {
        groups[index as usize] = group;
    }
}

/// The same handle once more, if there is one.
fn shared(handle: Option<&Handle>) -> Result<Option<Handle>, NoMemory>
    ensures { IfOk result (λ shared. shared ≡ option_copied handle.entry) }
{
    match handle {
        Some(handle) => {
            let shared = handle.share()?;
            return Ok(Some(shared));
        }
        None => return Ok(None),
    }
}
