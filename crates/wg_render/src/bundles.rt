//! Bundles that are executed: the rules of executeBundles, and what it touches.
ghost use Rattle.std.specs.Prelude.{◌≡◌, ◌++◌, true, map, IfOk, OnOk};
ghost use Rattle.std.specs.Option.{option_map_or};
ghost use Rattle.wg_model.specs.Rules.{first_unmet};
ghost use Rattle.wg_model.specs.Bundles.{known_bundle, bundle_touch, known_touches, executed_touches};
ghost use Rattle.wg_model.specs.Render.{bundle_fits, bundle_spares, all_bundles, execute_rules, known_draws, executed_draws};

use crate::pipelines::{same_target, same_targets};
use wg_access::bundle_touch;
use wg_formats::known_bundle;
use wg_rules::{BUNDLE_TARGETS_ARE_OF_PASS, BUNDLES_SPARE_READ_ONLY};
use wg_types::NoMemory;
use wg_types::bundles::{BundleInfo, BundleTouch};
use wg_types::handles::Handle;
use wg_types::render::TargetInfo;
use wg_types::steps::Touches;

/// Whether a bundle draws to targets like those of a pass.
fn bundle_fits(targets: &TargetInfo, bundle: &BundleInfo) -> bool
    ensures { result ≡ bundle_fits targets.now bundle.now }
{
    same_targets(bundle.targets.colors.as_slice(), targets.colors.as_slice())
        && same_target(bundle.targets.depth, targets.depth)
        && bundle.targets.samples == targets.samples
}

/// Whether a bundle only reads what a pass only reads.
fn bundle_spares(targets: &TargetInfo, bundle: &BundleInfo) -> bool
    ensures { result ≡ bundle_spares targets.now bundle.now }
{
    (!targets.depth_read_only || bundle.targets.depth_read_only)
        && (!targets.stencil_read_only || bundle.targets.stencil_read_only)
}

/// Whether what a handle knows draws to targets like those of a pass, if it is a bundle.
fn fits(targets: &TargetInfo, bundle: &Handle) -> bool
    ensures { result ≡ option_map_or (bundle_fits targets.now) (known_bundle bundle.now) true }
{
    match known_bundle(bundle) {
        Some(known) => bundle_fits(targets, known),
        None => true,
    }
}

/// Whether it only reads what a pass only reads, if it is a bundle.
fn spares(targets: &TargetInfo, bundle: &Handle) -> bool
    ensures { result ≡ option_map_or (bundle_spares targets.now) (known_bundle bundle.now) true }
{
    match known_bundle(bundle) {
        Some(known) => bundle_spares(targets, known),
        None => true,
    }
}

fn all_fit(targets: &TargetInfo, bundles: &[Handle]) -> bool
    ensures { result ≡ all_bundles (bundle_fits targets.now) bundles.now }
{
    for bundle in bundles {
        if !fits(targets, bundle) {
            return false;
        }
    }
    true
}

fn all_spare(targets: &TargetInfo, bundles: &[Handle]) -> bool
    ensures { result ≡ all_bundles (bundle_spares targets.now) bundles.now }
{
    for bundle in bundles {
        if !spares(targets, bundle) {
            return false;
        }
    }
    true
}

/// The first unmet rule of executeBundles in a pass (WebGPU, "executeBundles").
pub fn check_bundles(targets: &TargetInfo, bundles: &[Handle]) -> Option<u16>
    ensures { result ≡ first_unmet (execute_rules targets.now bundles.now) }
{
    if !all_fit(targets, bundles) {
        return Some(BUNDLE_TARGETS_ARE_OF_PASS);
    }
    if !all_spare(targets, bundles) {
        return Some(BUNDLES_SPARE_READ_ONLY);
    }
    None
}

/// Adds what a bundle touches.
fn push_within(touches: &mut Touches, within: &[BundleTouch]) -> Result<(), NoMemory>
    ensures { OnOk result (touches.new ≡ touches.old ++ map bundle_touch within.now) }
{
    for touch in within {
        touches.push(bundle_touch(*touch))?;
    }
    Ok(())
}

fn push_bundle(touches: &mut Touches, bundle: &Handle) -> Result<(), NoMemory>
    ensures { OnOk result (touches.new ≡ touches.old ++ known_touches (known_bundle bundle.now)) }
{
    match known_bundle(bundle) {
        Some(known) => return push_within(touches, known.touches.as_slice()),
        None => return Ok(()),
    }
}

/// Adds what bundles touch that are executed (WebGPU, "executeBundles" and "Resource Usages").
pub fn push_bundles(touches: &mut Touches, bundles: &[Handle]) -> Result<(), NoMemory>
    ensures { OnOk result (touches.new ≡ touches.old ++ executed_touches bundles.now) }
{
    for bundle in bundles {
        push_bundle(touches, bundle)?;
    }
    Ok(())
}

/// How often a bundle draws, if it is one.
fn bundle_draws(bundle: &Handle) -> u64
    ensures { result ≡ known_draws (known_bundle bundle.now) }
{
    match known_bundle(bundle) {
        Some(known) => known.draws,
        None => 0,
    }
}

/// How often bundles draw that are executed. More than fit a number are answered as want of memory.
pub fn executed_draws(bundles: &[Handle]) -> Result<u64, NoMemory>
    ensures { IfOk result (λ draws. draws ≡ executed_draws bundles.now) }
{
    let mut draws: u64 = 0;
    for bundle in bundles {
        match draws.checked_add(bundle_draws(bundle)) {
            Some(more) => draws = more,
            None => return Err(NoMemory),
        }
    }
    Ok(draws)
}
