//! Reads the calls on render bundles: a function for each, with its keys.
ghost use Rattle.wg_json.specs.View.{view};
ghost use Rattle.wg_script.specs.Giving.{Gives};
ghost use Rattle.wg_script.specs.BundleCalls.{create_bundle_encoder_of, finish_bundle_of, execute_bundles_of};

use crate::calling::{making, recording};
use crate::calls::Call;
use crate::labels::made_in;
use crate::lists::list_at;
use crate::texture_words::FORMATS;
use crate::values::{Refusal, check_keys, flag_or, name_at, reading, short_or};
use crate::words::word_if;
use std::alloc::Global;
use wg_json::Value;
use wg_types::commands::CommandOf;
use wg_types::render::TargetInfo;
use wg_types::requests::RequestOf;
use wg_types::shared::Shared;

/// Reads `createBundleEncoder`.
#[tactic(auto, unfolding(crate::specs::BundleCalls::create_bundle_encoder_of))]
pub fn create_bundle_encoder(alloc: Global, call: &Value<'_>) -> Result<Call, Refusal>
    ensures { Gives result (create_bundle_encoder_of (view call.now)) }
{
    reading!(call:
        need colors = list_at(alloc, "colors");
        may depth = word_if("depth", &FORMATS);
        may samples = short_or("samples", 1);
        may depth_read_only = flag_or("depthReadOnly", false);
        may stencil_read_only = flag_or("stencilReadOnly", false);
        make made = made_in(alloc);
        => making(RequestOf::CreateBundleEncoder {
            targets: Shared::new(alloc, TargetInfo {
                colors,
                depth,
                samples,
                depth_read_only,
                stencil_read_only,
            })?,
        }, made))
}

/// Reads `finishBundle`.
#[tactic(auto, unfolding(crate::specs::BundleCalls::finish_bundle_of))]
pub fn finish_bundle(alloc: Global, call: &Value<'_>) -> Result<Call, Refusal>
    ensures { Gives result (finish_bundle_of (view call.now)) }
{
    reading!(call:
        need on = name_at(alloc, "on");
        make made = made_in(alloc);
        => making(RequestOf::FinishBundle { encoder: on }, made))
}

/// Reads `executeBundles`.
#[tactic(auto, unfolding(crate::specs::BundleCalls::execute_bundles_of))]
pub fn execute_bundles(alloc: Global, call: &Value<'_>) -> Result<Call, Refusal>
    ensures { Gives result (execute_bundles_of (view call.now)) }
{
    reading!(call:
        need on = name_at(alloc, "on");
        need bundles = list_at(alloc, "bundles");
        => recording(on, CommandOf::ExecuteBundles { bundles }))
}
