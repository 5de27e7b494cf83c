//! Reads which limits a script asks for.
ghost use Rattle.std.specs.Prelude.{◌≡◌};
ghost use Rattle.serde_json.specs.Find.{get};
ghost use Rattle.wg_json.specs.View.{view, members_view};
ghost use Rattle.wg_script.specs.Giving.{Gives};
ghost use Rattle.wg_script.specs.Limits.{value_asked, values_asked, limits_in, limits_at};

use crate::values::{MOST_WHOLE, Refusal, whole};
use std::alloc::Global;
use wg_json::Value;
use wg_limits::{LimitName, asked, default_limits};
use wg_types::items::Items;
use wg_types::limits::Limits;

/// The limit that a key names, with its value.
#[tactic(auto, unfolding(crate::specs::Limits::value_asked))]
fn value_asked(key: &str, value: &Value<'_>) -> Result<(LimitName, u64), u8>
    ensures { result ≡ value_asked key.now (view value.now) }
{
    let name = LimitName::of_text(key).ok_or(14)?;
    match whole(value, MOST_WHOLE) {
        Ok(value) => Ok((name, value)),
        Err(_) => Err(14),
    }
}

fn values_asked(
    alloc: Global,
    members: &[(&str, Value<'_>)],
) -> Result<Items<(LimitName, u64)>, Refusal>
    ensures { Gives result (values_asked (members_view members.now)) }
{
    let mut values = Items::new(alloc);
    for member in members {
        let asked = value_asked(member.0, &member.1)?;
        values.push(asked)?;
    }
    Ok(values)
}

/// The limits of a device of which a script asks for these.
fn limits_in(alloc: Global, value: &Value<'_>) -> Result<Limits, Refusal>
    ensures { Gives result (limits_in (view value.now)) }
{
    match value.as_object() {
        Some(members) => {
            let values = values_asked(alloc, members.as_slice())?;
            Ok(asked(values.as_slice()).ok_or(14)?)
        }
        None => Err(Refusal::Rule(14)),
    }
}

/// Script rule 14: the limits that a script asks for, or the defaults where the key is left out (WebGPU,
/// "requestDevice"). Refuses what is no object from names of limits to whole numbers, and what no device can have.
pub fn limits_at(alloc: Global, object: &Value<'_>, key: &str) -> Result<Limits, Refusal>
    ensures { Gives result (limits_at (get key.now (view object.now))) }
{
    match object.get(key) {
        Some(value) => limits_in(alloc, value),
        None => Ok(default_limits()),
    }
}
