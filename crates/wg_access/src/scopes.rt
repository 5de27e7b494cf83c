//! The usage scopes of what is touched.
ghost use Rattle.std.specs.Prelude.{◌≡◌, map, IfOk};
ghost use Rattle.std.specs.List.{filter};
ghost use Rattle.wg_trace.specs.declared.steps.StepName.{StepName};
ghost use Rattle.wg_model.specs.Scopes.{clash};
ghost use Rattle.wg_model.specs.Touches.{use_of, in_scope, scope_in, deed_of};

use crate::touching::{all_in_scope, touches_in_scope, uses_of};
use std::alloc::Global;
use wg_scopes::clash_in;
use wg_types::NoMemory;
use wg_types::parts::Part;
use wg_types::steps::{Deed, Touch};

/// The least clashing part of the usage scope of what touches these (WebGPU, "Usage Scope Validation").
#[tactic(auto, unfolding(wg_model::specs::Scopes::clash))]
pub fn scope_of(alloc: Global, touches: &[Touch]) -> Result<Option<Part>, NoMemory>
    ensures { IfOk result (λ found. found ≡ clash (map use_of (filter in_scope touches.now))) }
{
    let scoped = touches_in_scope(alloc, touches)?;
    let uses = uses_of(alloc, scoped.as_slice())?;
    Ok(clash_in(uses.as_slice()))
}

/// The least clashing part of the usage scope of a step that does this and touches these. Where nothing of a
/// query set is touched, the scope has the step's own uses.
#[tactic(auto, unfolding(wg_model::specs::Scopes::clash), using(crate::proofs::Adding::all_clash))]
pub fn scope_clash(alloc: Global, deed: &Deed, touches: &[Touch]) -> Result<Option<Part>, NoMemory>
    ensures { (name : StepName) → deed.now ≡ deed_of (name, touches.now) → IfOk result (λ found. found ≡ clash (scope_in (name, touches.now))) }
{
    if all_in_scope(touches) {
        return Ok(clash_in(deed.uses.as_slice()));
    }
    scope_of(alloc, touches)
}
