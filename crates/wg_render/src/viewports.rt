//! The viewport and the scissor rectangle, and how often a pass draws.
ghost use Rattle.std.specs.Prelude.{◌≡◌, ◌+◌, IfOk};
ghost use Rattle.wg_model.specs.Rules.{first_unmet};
ghost use Rattle.wg_model.specs.Render.{fixed, side_fits, viewport_rules, scissor_rules, command_draws, draws_rules};

use crate::bundles::executed_draws;
use wg_rules::{
    DRAWS_ARE_WITHIN_MAXIMUM, SCISSOR_FITS_ATTACHMENTS, VIEWPORT_DEPTHS_ARE_IN_ORDER,
    VIEWPORT_IS_WITHIN_BOUNDS, VIEWPORT_SIZE_IS_WITHIN_LIMIT,
};
use wg_types::NoMemory;
use wg_types::commands::{Bracket, Command};
use wg_types::limits::CommandLimits;
use wg_types::render::Viewport;

/// One, as the numbers of viewports stand.
const ONE: u64 = 65536;

/// A limit as the numbers of viewports stand.
fn fixed(limit: u32) -> u64
    ensures { result ≡ fixed limit }
{
    u64::from(limit) * ONE
}

/// Whether one side of a viewport begins and ends where the limit allows it: `before` tells that it begins
/// before the edge of what is attached.
fn side_fits(limit: u32, before: bool, at: u64, size: u64) -> bool
    ensures { result ≡ side_fits limit before at size }
{
    let most = 2 * u128::from(limit) * u128::from(ONE);
    if before {
        u128::from(at) <= most && u128::from(size) + u128::from(ONE) <= most + u128::from(at)
    } else {
        u128::from(at) + u128::from(size) + u128::from(ONE) <= most
    }
}

/// The first unmet rule of setViewport (WebGPU, "setViewport()").
pub fn check_viewport(limits: &CommandLimits, viewport: &Viewport) -> Option<u16>
    ensures { result ≡ first_unmet (viewport_rules limits.now viewport.now) }
{
    let limit = limits.max_texture_dimension_2d;
    if viewport.width > fixed(limit) || viewport.height > fixed(limit) {
        return Some(VIEWPORT_SIZE_IS_WITHIN_LIMIT);
    }
    if !side_fits(limit, viewport.left, viewport.x, viewport.width)
        || !side_fits(limit, viewport.above, viewport.y, viewport.height)
    {
        return Some(VIEWPORT_IS_WITHIN_BOUNDS);
    }
    if viewport.min_depth > viewport.max_depth || viewport.max_depth > ONE {
        return Some(VIEWPORT_DEPTHS_ARE_IN_ORDER);
    }
    None
}

/// The first unmet rule of setScissorRect (WebGPU, "setScissorRect()"), in a pass whose attachments are so
/// wide and high.
pub fn check_scissor(extent: (u32, u32), x: u32, y: u32, width: u32, height: u32) -> Option<u16>
    ensures { result ≡ first_unmet (scissor_rules extent x y width height) }
{
    let right = u64::from(x) + u64::from(width);
    let bottom = u64::from(y) + u64::from(height);
    if right > u64::from(extent.0) || bottom > u64::from(extent.1) {
        return Some(SCISSOR_FITS_ATTACHMENTS);
    }
    None
}

/// How often a command draws. More than fit a number are answered as want of memory.
fn command_draws(command: &Command) -> Result<u64, NoMemory>
    ensures { IfOk result (λ draws. draws ≡ command_draws command.now) }
{
    match command {
        Command::Draw { .. }
        | Command::DrawIndexed { .. }
        | Command::DrawIndirect { .. }
        | Command::DrawIndexedIndirect { .. } => Ok(1),
        Command::ExecuteBundles { bundles } => executed_draws(bundles.as_slice()),
        _ => Ok(0),
    }
}

/// How often a pass draws after one more command. More than fit a number are answered as want of memory.
pub fn draws_after(draws: u64, command: &Command) -> Result<u64, NoMemory>
    ensures { IfOk result (λ after. after ≡ draws + command_draws command.now) }
{
    match draws.checked_add(command_draws(command)?) {
        Some(after) => Ok(after),
        None => Err(NoMemory),
    }
}

/// The rule of the end of a render pass, 404, where it draws so often and may draw so often (WebGPU, "end").
pub fn check_draws(most: Option<u64>, draws: u64, command: &Command) -> Option<u16>
    ensures { result ≡ first_unmet (draws_rules most draws command.now) }
{
    match command.bracket() {
        Bracket::EndPass => match most {
            Some(most) if draws > most => Some(DRAWS_ARE_WITHIN_MAXIMUM),
            _ => None,
        },
        Bracket::BeginComputePass
        | Bracket::BeginRenderPass
        | Bracket::PushGroup
        | Bracket::PopGroup
        | Bracket::Neither => None,
    }
}
