//! Puts members where the order of their keys wants them, and moves them to a map and back.
ghost use Rattle.std.specs.Prelude.{◌≡◌, IfOk, OnOk};
ghost use Rattle.serde_json.specs.Data.{put};
ghost use Rattle.wg_json.specs.View.{view, members_view};
ghost use Rattle.wg_json.specs.Places.{place_from, KeysAscend};

use crate::value::Value;
use std::alloc::{AllocFailed, Global};
use std::cmp::Ordering;
use std::collections::BTreeMap;

/// Where a key stands among members in the order of their keys, or before which of them it would.
fn place_of(members: &[(&str, Value<'_>)], key: &str) -> Result<usize, usize>
    ensures { result ≡ place_from 0 key.now members.now }
{
    let mut place = 0;
    for member in members {
        match key.cmp(member.0) {
            Ordering::Less => return Err(place),
            Ordering::Equal => return Ok(place),
            Ordering::Greater => place += 1,
        }
    }
    Err(place)
}

/// Puts a value at a key among members in the order of their keys, in place of an older one.
pub fn put<'a>(
    members: &mut Vec<(&'a str, Value<'a>)>,
    key: &'a str,
    value: Value<'a>,
) -> Result<(), AllocFailed<(&'a str, Value<'a>)>>
    ensures { OnOk result
        (members_view members.new.items ≡ put key.now (view value.entry) (members_view members.old.items)) }
{
    match place_of(members.as_slice(), key) {
        Ok(place) => {
            members[place] = (key, value);
            Ok(())
        }
        Err(place) => members.insert(place, (key, value)),
    }
}

/// The members of a list, which is in the order of their keys, in a map.
pub fn to_map<'a>(
    alloc: Global,
    mut members: Vec<(&'a str, Value<'a>)>,
) -> Result<BTreeMap<&'a str, Value<'a>>, AllocFailed<(&'a str, Value<'a>)>>
    requires { KeysAscend (members_view members.items) }
    ensures { IfOk result (λ map. map.entries ≡ members.entry.items) }
{
    let mut map = BTreeMap::new(alloc);
    while let Some((key, value)) = members.pop() {
        drop(map.insert(key, value)?);
    }
    Ok(map)
}

/// The members of a map, in a list.
pub fn to_list<'a>(
    alloc: Global,
    map: BTreeMap<&'a str, Value<'a>>,
) -> Result<Vec<(&'a str, Value<'a>)>, AllocFailed<(&'a str, Value<'a>)>>
    ensures { IfOk result (λ members. members.items ≡ map.entry.entries) }
{
    let mut members = Vec::new(alloc);
    for member in map {
        members.push(member)?;
    }
    Ok(members)
}
