//! The state of a bundle encoder, in place of a look over its commands.
ghost use Rattle.std.specs.Prelude.{◌≡◌, ◌∷◌, [], List, IfOk, OnOk, OnErr};
ghost use Rattle.wg_types.specs.Commands.{Command};
ghost use Rattle.wg_types.specs.declared.render.TargetInfo.{TargetInfo};
ghost use Rattle.wg_types.specs.declared.limits.Maker.{Maker};
ghost use Rattle.wg_model.specs.Scopes.{first_clash};
ghost use Rattle.wg_model.specs.Settings.{debug_depth};
ghost use Rattle.wg_model.specs.Walk.{bundle_verdict, bundle_scopes, recorded_touches, recorded_draws};
ghost use Rattle.wg_encoder.specs.Walked.{drawn_rule, IsBundleOf};

use crate::named::check_named_on;
use std::alloc::Global;
use wg_access::{bundle_touches, scope_of};
use wg_compute::depth_after;
use wg_render::RenderState;
use wg_types::NoMemory;
use wg_types::bundles::BundleTouch;
use wg_types::commands::Command;
use wg_types::items::Items;
use wg_types::limits::Maker;
use wg_types::parts::Part;
use wg_types::render::TargetInfo;
use wg_types::wanted::Kind;

/// The state of a bundle encoder: its first unmet rule, with how many of its debug groups are open, or what
/// is set in it.
#[derive(Drop)]
pub enum BundleState {
    Refused { rule: u16, depth: u64 },
    Drawing(RenderState),
}

/// The first unmet rule of a command of a bundle encoder.
fn check_drawn(set: &RenderState, maker: &Maker, command: &Command) -> Option<u16>
    ensures { result ≡ drawn_rule maker.now set.now command.now }
{
    if let Some(rule) = check_named_on(maker.device, Kind::BundleEncoder, command) {
        return Some(rule);
    }
    set.rule(&maker.limits, command)
}

impl BundleState {
    /// Nothing is set.
    pub fn new(alloc: Global, targets: &TargetInfo) -> Result<BundleState, NoMemory>
        ensures { (maker : Maker) → IfOk result (λ state. IsBundleOf maker targets.now [] state) }
    {
        let set = RenderState::bundle(alloc, targets)?;
        Ok(BundleState::Drawing(set))
    }

    /// The rule that invalidated the encoder first.
    pub fn verdict(&self) -> Option<u16>
        ensures { (maker : Maker) (targets : TargetInfo) (earlier : List Command) → IsBundleOf maker targets earlier self.now → result ≡ bundle_verdict maker targets earlier }
    {
        match self {
            BundleState::Refused { rule, .. } => return Some(*rule),
            BundleState::Drawing(_) => return None,
        }
    }

    /// How many debug groups are open.
    pub fn depth(&self) -> u64
        ensures { (maker : Maker) (targets : TargetInfo) (earlier : List Command) → IsBundleOf maker targets earlier self.now → result ≡ debug_depth earlier }
    {
        match self {
            BundleState::Refused { depth, .. } => return *depth,
            BundleState::Drawing(set) => return set.depth(),
        }
    }

    /// Takes a command.
    #[tactic(auto, using(crate::proofs::BundleLemmas::drawn_taken))]
    pub fn take(&mut self, alloc: Global, maker: &Maker, command: &Command) -> Result<(), NoMemory>
        ensures ok { (targets : TargetInfo) (earlier : List Command) → IsBundleOf maker.now targets earlier self.old → OnOk result (IsBundleOf maker.now targets (command.now ∷ earlier) self.new) }
        ensures err { OnErr result (self.new ≡ self.old) }
    {
        let after = depth_after(self.depth(), command)?;
        match self {
            BundleState::Refused { depth, .. } => {
                *depth = after;
                return Ok(());
            }
            BundleState::Drawing(set) => {
                if let Some(rule) = check_drawn(set, maker, command) {
                    *self = BundleState::Refused { rule, depth: after };
                    return Ok(());
                }
                return set.take(alloc, command);
            }
        }
    }

    /// The least clashing part of the one usage scope, of all that is set, where no rule was unmet (WebGPU,
    /// "Usage Scope Validation").
    pub fn clash(&self, alloc: Global) -> Result<Option<Part>, NoMemory>
        ensures { (maker : Maker) (targets : TargetInfo) (earlier : List Command) → IsBundleOf maker targets earlier self.now → IfOk result (λ found. found ≡ first_clash (bundle_scopes maker targets earlier)) }
    {
        match self {
            BundleState::Refused { .. } => return Ok(None),
            BundleState::Drawing(set) => return scope_of(alloc, set.touches()),
        }
    }

    /// How often is drawn, where no rule was unmet.
    pub fn draws(&self) -> u64
        ensures { (maker : Maker) (targets : TargetInfo) (earlier : List Command) → IsBundleOf maker targets earlier self.now → result ≡ recorded_draws maker targets earlier }
    {
        match self {
            BundleState::Refused { .. } => return 0,
            BundleState::Drawing(set) => return set.draws(),
        }
    }

    /// What is touched, where no rule was unmet.
    pub fn touched(&self, alloc: Global) -> Result<Items<BundleTouch>, NoMemory>
        ensures { (maker : Maker) (targets : TargetInfo) (earlier : List Command) → IsBundleOf maker targets earlier self.now → IfOk result (λ touches. touches ≡ recorded_touches maker targets earlier) }
    {
        match self {
            BundleState::Refused { .. } => return Ok(Items::new(alloc)),
            BundleState::Drawing(set) => return bundle_touches(alloc, set.touches()),
        }
    }
}
