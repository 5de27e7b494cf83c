//! The limits that callers in C ask for, and those that an adapter supports.
ghost use Rattle.std.specs.Prelude.{◌≡◌, IfNone, IfOk};
ghost use Rattle.std.specs.List.{find};
ghost use Rattle.wg_limits.specs.Names.{same_limit};
ghost use Rattle.wg_told.specs.Limits.{limit_at, named_by, all_named, passes, can_support, is_supported, is_offered, failing, bad_limit, limits_of, CanAll, LimitsFit};

use crate::flats::FlatLimit;
use crate::tables::nth;
use std::alloc::Global;
use wg_limits::{LimitName, asked, can_ask, default_limits, is_alignment, limit_of, no_better};
use wg_types::NoMemory;
use wg_types::items::Items;
use wg_types::limits::Limits;

/// The first value with which a device cannot be opened: the list in which it stands, 1 of what the adapter supports
/// or 2 of what is asked, and its place there, from 0 on.
#[repr(C)]
#[derive(Clone, Copy, PartialEq, Eq, Debug)]
pub struct ToldBadLimit {
    pub list: u32,
    pub place: u64,
}

const IN_BEST: u32 = 1;

const IN_LIMITS: u32 = 2;

/// The limit that has a number, if there is one.
pub fn limit_at(limits: &Limits, number: u32) -> Option<u64>
    ensures { result ≡ limit_at limits.now number }
{
    let name = nth(LimitName::all(), number)?;
    Some(limit_of(name, limits))
}

fn named_by(limit: &FlatLimit) -> Option<(LimitName, u64)>
    ensures { result ≡ named_by limit.now }
{
    let name = nth(LimitName::all(), limit.name)?;
    Some((name, limit.value))
}

/// Whether this may be the best that an adapter supports.
fn can_support(limit: &FlatLimit) -> bool
    ensures { result ≡ passes can_support limit.now }
{
    let Some((name, value)) = named_by(limit) else {
        return false;
    };
    no_better(name, limit_of(name, &default_limits()), value)
        && (!is_alignment(name) || (value.is_power_of_two() && value < 1 << 32))
}

/// The place of the first value that is the best of no adapter.
fn first_unsupported(best: &[FlatLimit]) -> Option<u64>
    ensures { result ≡ failing can_support best.now }
{
    for (place, limit) in best.iter().enumerate() {
        if !can_support(limit) {
            return Some(place as u64);
        }
    }
    None
}

/// What an adapter says first of a limit.
fn said_of(best: &[FlatLimit], name: LimitName) -> Option<(LimitName, u64)>
    ensures { result ≡ find (λ said. same_limit said.0 name) (all_named best.now) }
{
    for limit in best {
        if let Some(said) = named_by(limit) {
            if said.0 == name {
                return Some(said);
            }
        }
    }
    None
}

fn is_supported(best: &[FlatLimit], name: LimitName, value: u64) -> bool
    ensures { result ≡ is_supported (all_named best.now) (name, value) }
{
    match said_of(best, name) {
        Some((_, most)) => no_better(name, value, most),
        None => true,
    }
}

fn is_offered(best: &[FlatLimit], limit: &FlatLimit) -> bool
    ensures { result ≡ passes (is_offered (all_named best.now)) limit.now }
{
    match named_by(limit) {
        Some((name, value)) => can_ask(name, value) && is_supported(best, name, value),
        None => false,
    }
}

/// The place of the first value that one cannot ask of an adapter.
fn first_unoffered(best: &[FlatLimit], limits: &[FlatLimit]) -> Option<u64>
    ensures { result ≡ failing (is_offered (all_named best.now)) limits.now }
{
    for (place, limit) in limits.iter().enumerate() {
        if !is_offered(best, limit) {
            return Some(place as u64);
        }
    }
    None
}

/// The first value with which a device cannot be opened, if there is one: of what the adapter supports, and then of
/// what is asked (WebGPU, "requestDevice").
#[tactic(auto, using(crate::proofs::LimitLemmas::all_can))]
pub fn bad_limit(best: &[FlatLimit], limits: &[FlatLimit]) -> Option<ToldBadLimit>
    ensures first { result ≡ bad_limit best.now limits.now }
    ensures none { IfNone result (CanAll limits.now) }
{
    if let Some(place) = first_unsupported(best) {
        return Some(ToldBadLimit {
            list: IN_BEST,
            place,
        });
    }
    match first_unoffered(best, limits) {
        Some(place) => Some(ToldBadLimit {
            list: IN_LIMITS,
            place,
        }),
        None => None,
    }
}

/// The limits and the values that a list names.
#[tactic(auto, using(crate::proofs::LimitLemmas::found_next))]
fn all_named(alloc: Global, limits: &[FlatLimit]) -> Result<Items<(LimitName, u64)>, NoMemory>
    ensures { IfOk result (λ named. named ≡ all_named limits.now) }
{
    let mut found = Items::new(alloc);
    for limit in limits {
        if let Some(one) = named_by(limit) {
            found.push(one)?;
        }
    }
    Ok(found)
}

/// The limits of a device for all that is asked.
pub fn limits_of(alloc: Global, limits: &[FlatLimit]) -> Result<Limits, NoMemory>
    requires { CanAll limits.now }
    ensures { IfOk result (λ meant. meant ≡ limits_of limits.now) }
{
    let named = all_named(alloc, limits)?;
    Ok(asked(named.as_slice()).unwrap())
}

/// A device has no limit that is worse than the default, better than the best, or better than what its adapter supports.
pub fn limits_fit()
    ensures { LimitsFit }
{}
