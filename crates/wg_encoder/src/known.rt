//! What is known of kept commands.
ghost use Rattle.std.specs.Prelude.{◌≡◌, ◌∷◌, [], List, Option, Some, reverse, MatchOption, IfOk, OnOk, OnErr};
ghost use Rattle.wg_types.specs.Commands.{Command};
ghost use Rattle.wg_types.specs.declared.commands.On.{On};
ghost use Rattle.wg_types.specs.declared.render.TargetInfo.{TargetInfo};
ghost use Rattle.wg_types.specs.declared.limits.Maker.{Maker};
ghost use Rattle.wg_model.specs.Scopes.{first_clash};
ghost use Rattle.wg_model.specs.Walk.{Kept, Verdict, ScopesOf, DeedsOf, open_depth, encoder_scopes, encoder_deeds, recorded_touches, recorded_draws, bundled};
ghost use Rattle.wg_encoder.specs.Recorders.{has_open_pass};
ghost use Rattle.wg_encoder.specs.Walked.{IsWalkOf, IsKnownOf};

use crate::bundle::BundleState;
use crate::targets::RecorderTargets;
use crate::walk::{Walk, note};
use std::alloc::Global;
use wg_cbtrack::CbTrack;
use wg_types::NoMemory;
use wg_types::bundles::BundleTouch;
use wg_types::commands::{Command, On};
use wg_types::items::Items;
use wg_types::limits::Maker;
use wg_types::parts::Part;

/// What is known of the kept commands of an encoder, or of a bundle encoder.
#[derive(Drop)]
pub enum RecorderState {
    Encoder(Walk),
    Bundle(Box<BundleState>),
}

/// The least clashing part of the first usage scope of an encoder that has one, where there is neither a
/// verdict nor an open pass (WebGPU, "Usage Scope Validation").
fn clash(walk: &Walk) -> Option<Part>
    ensures { (maker : Maker) (kept : Kept) → IsWalkOf maker kept walk.now → result ≡ first_clash (encoder_scopes maker kept) }
{
    if walk.verdict.is_some() {
        return None;
    }
    if walk.opened.is_some() {
        return None;
    }
    walk.done.clash
}

/// The tracker of what the commands of an encoder do, where there is neither a verdict nor an open pass.
/// Else they do nothing.
#[tactic(auto, using(crate::proofs::WalkLemmas::deeds_are))]
fn track(walk: &Walk) -> Option<&CbTrack>
    ensures { (maker : Maker) (kept : Kept) → IsWalkOf maker kept walk.now → MatchOption result (encoder_deeds maker kept ≡ []) (λ track. track.now ≡ encoder_deeds maker kept) }
{
    if walk.verdict.is_some() {
        return None;
    }
    if walk.opened.is_some() {
        return None;
    }
    Some(&walk.done.deeds)
}

impl RecorderState {
    /// Nothing is kept.
    pub fn new(alloc: Global, targets: &RecorderTargets) -> Result<RecorderState, NoMemory>
        ensures { (maker : Maker) → IfOk result (λ known. IsKnownOf maker targets.now [] known) }
    {
        let Some(targets) = targets.get() else {
            return Ok(RecorderState::Encoder(Walk::new(alloc)));
        };
        let state = BundleState::new(alloc, targets)?;
        Ok(RecorderState::Bundle(Box::new(alloc, state)?))
    }

    /// Notes a command.
    pub fn note(
        &mut self,
        alloc: Global,
        maker: &Maker,
        targets: &RecorderTargets,
        kept: &[(On, Command)],
        on: On,
        command: &Command,
    ) -> Result<(), NoMemory>
        requires { IsKnownOf maker.now targets.now (reverse kept.now) self.old }
        ensures ok { OnOk result (IsKnownOf maker.now targets.now ((on, command.now) ∷ reverse kept.now) self.new) }
        ensures err { OnErr result (self.new ≡ self.old) }
    {
        match self {
            RecorderState::Encoder(walk) => return note(walk, alloc, maker, kept, on, command),
            RecorderState::Bundle(state) => return state.take(alloc, maker, command),
        }
    }

    /// The rule that invalidated the encoder first.
    pub fn verdict(&self) -> Option<u16>
        ensures { (maker : Maker) (targets : Option TargetInfo) (commands : List (On × Command)) → IsKnownOf maker targets (reverse commands) self.now → result ≡ Verdict maker targets commands }
    {
        match self {
            RecorderState::Encoder(walk) => return walk.verdict,
            RecorderState::Bundle(state) => return state.verdict(),
        }
    }

    /// The least clashing part of the first usage scope that has one.
    pub fn clash(&self, alloc: Global) -> Result<Option<Part>, NoMemory>
        ensures { (maker : Maker) (targets : Option TargetInfo) (commands : List (On × Command)) → IsKnownOf maker targets (reverse commands) self.now → IfOk result (λ found. found ≡ first_clash (ScopesOf maker targets commands)) }
    {
        match self {
            RecorderState::Encoder(walk) => return Ok(clash(walk)),
            RecorderState::Bundle(state) => return state.clash(alloc),
        }
    }

    /// The tracker of what the commands do, or none where they do nothing. Those of a bundle encoder do
    /// nothing.
    pub fn track(&self) -> Option<&CbTrack>
        ensures { (maker : Maker) (targets : Option TargetInfo) (commands : List (On × Command)) → IsKnownOf maker targets (reverse commands) self.now → MatchOption result (DeedsOf maker targets commands ≡ []) (λ track. track.now ≡ DeedsOf maker targets commands) }
    {
        match self {
            RecorderState::Encoder(walk) => return track(walk),
            RecorderState::Bundle(_) => return None,
        }
    }

    /// Whether a pass is open. On a bundle encoder there are none.
    pub fn open_pass(&self) -> bool
        ensures { (maker : Maker) (targets : Option TargetInfo) (commands : List (On × Command)) → IsKnownOf maker targets (reverse commands) self.now → result ≡ has_open_pass targets commands }
    {
        match self {
            RecorderState::Encoder(walk) => return walk.opened.is_some(),
            RecorderState::Bundle(_) => return false,
        }
    }

    /// How many debug groups of the encoder are open.
    pub fn depth(&self) -> u64
        ensures { (maker : Maker) (targets : Option TargetInfo) (commands : List (On × Command)) → IsKnownOf maker targets (reverse commands) self.now → result ≡ open_depth targets commands }
    {
        match self {
            RecorderState::Encoder(walk) => return walk.depth,
            RecorderState::Bundle(state) => return state.depth(),
        }
    }

    /// How often the commands of a bundle encoder draw that draws to these targets.
    pub fn draws(&self) -> u64
        ensures { (maker : Maker) (targets : TargetInfo) (commands : List (On × Command)) → IsKnownOf maker (Some targets) (reverse commands) self.now → result ≡ recorded_draws maker targets (bundled commands) }
    {
        match self {
            RecorderState::Encoder(_) => return 0,
            RecorderState::Bundle(state) => return state.draws(),
        }
    }

    /// What is touched by the commands of a bundle encoder that draws to these targets.
    pub fn touched(&self, alloc: Global) -> Result<Items<BundleTouch>, NoMemory>
        ensures { (maker : Maker) (targets : TargetInfo) (commands : List (On × Command)) → IsKnownOf maker (Some targets) (reverse commands) self.now → IfOk result (λ touches. touches ≡ recorded_touches maker targets (bundled commands)) }
    {
        match self {
            RecorderState::Encoder(_) => return Ok(Items::new(alloc)),
            RecorderState::Bundle(state) => return state.touched(alloc),
        }
    }
}
