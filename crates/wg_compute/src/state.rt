//! Compute passes: the rules of their commands, and what these do.
ghost use Rattle.std.specs.Prelude.{◌≡◌, ◌∷◌, ◌++◌, [], true, is_some, IfOk, OnOk, OnErr};
ghost use Rattle.std.specs.Option.{option_map, option_or};
ghost use Rattle.wg_model.specs.Rules.{first_unmet};
ghost use Rattle.wg_model.specs.Settings.{ready_rules, indirect_touch};
ghost use Rattle.wg_model.specs.Compute.{dispatch_rules, compute_rules, dispatch_touches, compute_does};
ghost use Rattle.wg_compute.specs.After.{settings_after, dispatching};

use crate::brackets::{check_end, check_group};
use crate::dispatches::check_counts;
use crate::given::check_given;
use crate::indirect::{check_indirect, indirect_touch};
use crate::settings::Settings;
use std::alloc::Global;
use std::marker::Model;
use wg_layouts::bound_touches;
use wg_types::NoMemory;
use wg_types::commands::Command;
use wg_types::handles::Handle;
use wg_types::steps::Touches;

/// How many bytes an indirect dispatch reads.
const INDIRECT_BYTES: u64 = 12;

/// What is set in a compute pass: what is set in any pass.
#[derive(Drop)]
pub struct ComputeState {
    set: Settings,
}

impl Model for ComputeState {
    ghost use Rattle.wg_model.specs.Settings.{Settings};

    ghost Value = { Settings };

    ghost view = { λ s. s.set };
}

impl ComputeState {
    ghost use Rattle.wg_model.specs.Settings.{settings};
    ghost use Rattle.std.specs.Prelude.{[]};

    /// Nothing is set.
    pub fn new() -> ComputeState
        ensures { result ≡ settings [] }
    {
        ComputeState {
            set: Settings::new(),
        }
    }

    /// The first unmet rule of a dispatch, of which this is the rule of what it is given.
    fn ready_rule(&self, own: Option<u16>) -> Option<u16>
        ensures { result ≡ option_or (first_unmet (ready_rules self.now)) own }
    {
        if let Some(rule) = self.set.ready_rule() {
            return Some(rule);
        }
        own
    }

    /// The first unmet rule of what dispatches.
    #[tactic(auto, using(wg_model::proofs::Unmet::first_unmet_joined))]
    fn dispatch_rule(&self, command: &Command) -> Option<u16>
        ensures { result ≡ first_unmet (dispatch_rules self.now command.now) }
    {
        match command {
            Command::Dispatch { x, y, z } => return self.ready_rule(check_counts(*x, *y, *z)),
            Command::DispatchIndirect { buffer, offset } => {
                return self.ready_rule(check_indirect(buffer, *offset, INDIRECT_BYTES));
            }
            _ => return None,
        }
    }

    /// The number of the first unmet rule of a command, but for those on the objects that it names
    /// (WebGPU, "Compute Passes"); none where the command may be taken.
    #[tactic(auto, using(crate::proofs::Rules::rules_parted))]
    pub fn rule(&self, command: &Command) -> Option<u16>
        ensures { result ≡ first_unmet (compute_rules self.now command.now) }
    {
        if let Some(rule) = check_group(self.set.depth(), command) {
            return Some(rule);
        }
        if let Some(rule) = check_end(self.set.depth(), command) {
            return Some(rule);
        }
        if let Some(rule) = check_given(command) {
            return Some(rule);
        }
        self.dispatch_rule(command)
    }

    /// What a dispatch touches, without its indirect buffer.
    fn touches(&self, alloc: Global) -> Result<Touches, NoMemory>
        ensures { IfOk result (λ touches. touches ≡ dispatch_touches self.now) }
    {
        bound_touches(alloc, self.set.layouts(), self.set.groups())
    }

    /// What an indirect dispatch touches.
    fn indirect_touches(
        &self,
        alloc: Global,
        buffer: &Handle,
        offset: u64,
    ) -> Result<Touches, NoMemory>
        ensures { IfOk result (λ touches. touches ≡ dispatch_touches self.now ++ indirect_touch buffer.now offset 12 ∷ []) }
    {
        let mut touches = self.touches(alloc)?;
        touches.push(indirect_touch(buffer, offset, INDIRECT_BYTES)?)?;
        Ok(touches)
    }

    /// What a dispatch touches that no rule of which is unmet; a dispatch sets nothing. Ranges that end past
    /// every number, which such commands don't have, are answered as want of memory.
    #[tactic(auto, unfolding(wg_model::specs::Compute::compute_does), using(crate::proofs::Slots::slots_unset, crate::proofs::Slots::none_emptied))]
    pub fn dispatched(&self, alloc: Global, command: &Command) -> Result<Option<Touches>, NoMemory>
        ensures does { IfOk result (λ touches. compute_does self.now command.now ≡ option_map dispatching touches) }
        ensures sets { IfOk result (λ touches. is_some touches ≡ true → settings_after self.now command.now ≡ self.now) }
    {
        match command {
            Command::Dispatch { .. } => Ok(Some(self.touches(alloc)?)),
            Command::DispatchIndirect { buffer, offset } => {
                Ok(Some(self.indirect_touches(alloc, buffer, *offset)?))
            }
            _ => Ok(None),
        }
    }

    /// Takes what a command sets no rule of which is unmet.
    pub fn take(&mut self, command: &Command) -> Result<(), NoMemory>
        ensures set { OnOk result (self.new ≡ settings_after self.old command.now) }
        ensures unchanged { OnErr result (self.new ≡ self.old) }
    {
        self.set.take(command)
    }
}
