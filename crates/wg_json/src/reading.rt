//! From bytes to a value, in one pass over the tokens of the text.
ghost use Rattle.std.specs.Prelude.{◌≡◌, ℕ, ◌<◌, ◌≤◌, length, Some, None, Err, IfOk, OnOk, IsUtf8};
ghost use Rattle.json.specs.Json.{value, items, members};
ghost use Rattle.serde_json.specs.Data.{no_members};
ghost use Rattle.serde_json.specs.Read.{of_json, of_items, of_members, converted, read as read_text};
ghost use Rattle.wg_json.specs.View.{view, items_view, members_view};
ghost use Rattle.wg_json.specs.Places.{KeysAscend};

use crate::number::number_of;
use crate::order::{put, to_list, to_map};
use crate::value::Value;
use json::{Invalid, Reader, Scratch, Token};
use std::alloc::{AllocFailed, Global};

/// How deep lists and objects may nest.
const MAX_DEPTH: usize = 127;

/// How many members of an object a list has while it is read, before a map takes them over.
const MOST_LISTED: usize = 64;

/// Why there is no value: the bytes are none, or there was no memory.
#[derive(Clone, Copy, Drop)]
pub enum Fault {
    Refused,
    NoMemory,
}

impl From<Invalid> for Fault {
    ghost use Rattle.wg_json.specs.declared.reading.Fault.TheVariants.{Refused};

    ghost from_gives = { λ _ fault. fault ≡ Refused };

    fn from(_error: Invalid) -> Fault {
        Fault::Refused
    }
}

impl<T: Drop> From<AllocFailed<T>> for Fault {
    ghost use Rattle.wg_json.specs.declared.reading.Fault.TheVariants.{NoMemory};

    ghost from_gives = { λ _ fault. fault ≡ NoMemory };

    fn from(_error: AllocFailed<T>) -> Fault {
        Fault::NoMemory
    }
}

#[cycle(read)]
fn read_value<'a>(alloc: Global, reader: &mut Reader<'a>, depth: usize) -> Result<Value<'a>, Fault>
    ensures ok { IfOk result
        (λ v. converted of_json (value depth reader.old) ≡ Some (view v, reader.new)) }
    ensures shorter { OnOk result (length reader.new < length reader.old) }
    ensures err { result ≡ Err Fault.Refused → converted of_json (value depth reader.old) ≡ None }
{
    let token = reader.next().ok_or(Fault::Refused)?;
    match token {
        Token::String(text) => Ok(Value::String(text)),
        Token::Number(text) => match number_of(text) {
            Some(number) => Ok(Value::Number(number)),
            None => Err(Fault::Refused),
        },
        Token::Bool(flag) => Ok(Value::Bool(flag)),
        Token::Null => Ok(Value::Null),
        Token::EndObject | Token::EndArray | Token::Key(_) | Token::Bad => Err(Fault::Refused),
        Token::BeginArray => {
            if depth == 0 {
                return Err(Fault::Refused);
            }
            Ok(Value::Array(read_items(alloc, reader, depth - 1)?))
        }
        Token::BeginObject => {
            if depth == 0 {
                return Err(Fault::Refused);
            }
            Ok(Value::Object(read_members(alloc, reader, depth - 1)?))
        }
    }
}

#[cycle(read)]
#[inline(never)]
fn read_items<'a>(
    alloc: Global,
    reader: &mut Reader<'a>,
    depth: usize,
) -> Result<Vec<Value<'a>>, Fault>
    ensures ok { IfOk result
        (λ v. converted of_items (items (value depth) (length reader.old) reader.old)
        ≡ Some (items_view v.items, reader.new)) }
    ensures shorter { OnOk result (length reader.new < length reader.old) }
    ensures err { result ≡ Err Fault.Refused
        → converted of_items (items (value depth) (length reader.old) reader.old) ≡ None }
{
    let mut found = Vec::new(alloc);
    'items: while !reader.take_end_array() {
        let item = read_value(alloc, reader, depth)?;
        found.push(item)?;
    }
    Ok(found)
}

#[cycle(read)]
#[inline(never)]
fn read_members<'a>(
    alloc: Global,
    reader: &mut Reader<'a>,
    depth: usize,
) -> Result<Vec<(&'a str, Value<'a>)>, Fault>
    ensures ok { IfOk result
        (λ m. converted (λ ms. of_members ms no_members)
        (members (value depth) (length reader.old) reader.old)
        ≡ Some (members_view m.items, reader.new)) }
    ensures shorter { OnOk result (length reader.new < length reader.old) }
    ensures err { result ≡ Err Fault.Refused
        → converted (λ ms. of_members ms no_members)
        (members (value depth) (length reader.old) reader.old) ≡ None }
{
    let mut found = Vec::new(alloc);
    'members: while let Some(key) = reader.next_key()? {
        let member = read_value(alloc, reader, depth)?;
        put(&mut found, key, member)?;
        if found.len() == MOST_LISTED {
            let all = read_more(alloc, reader, depth, found)?;
            return Ok(all);
        }
    }
    Ok(found)
}

/// Reads the other members of an object of which these were read.
#[cycle(read)]
#[inline(never)]
fn read_more<'a>(
    alloc: Global,
    reader: &mut Reader<'a>,
    depth: usize,
    first: Vec<(&'a str, Value<'a>)>,
) -> Result<Vec<(&'a str, Value<'a>)>, Fault>
    requires { KeysAscend (members_view first.items) }
    ensures ok { IfOk result
        (λ m. (n : ℕ) → length reader.old ≤ n
        → converted (λ ms. of_members ms (members_view first.entry.items)) (members (value depth) n reader.old)
        ≡ Some (members_view m.items, reader.new)) }
    ensures shorter { OnOk result (length reader.new < length reader.old) }
    ensures err { result ≡ Err Fault.Refused → (n : ℕ) → length reader.old ≤ n
        → converted (λ ms. of_members ms (members_view first.entry.items)) (members (value depth) n reader.old) ≡ None }
{
    let mut found = to_map(alloc, first)?;
    'more: while let Some(key) = reader.next_key()? {
        let member = read_value(alloc, reader, depth)?;
        drop(found.insert(key, member)?);
    }
    let listed = to_list(alloc, found)?;
    Ok(listed)
}

/// Reads a text.
fn read_text<'a>(alloc: Global, text: &'a str, scratch: &'a mut Scratch) -> Result<Value<'a>, Fault>
    ensures ok { IfOk result (λ v. read_text text.now ≡ Some (view v)) }
    ensures err { result ≡ Err Fault.Refused → read_text text.now ≡ None }
{
    let Ok(mut reader) = Reader::new(text, scratch) else {
        return Err(Fault::NoMemory);
    };
    let value = read_value(alloc, &mut reader, MAX_DEPTH)?;
    if reader.next().is_some() {
        return Err(Fault::Refused);
    }
    Ok(value)
}

/// Reads the value that bytes are, as `serde_json` reads them. Its texts lie in the bytes, and those with
/// escapes in `scratch`.
pub fn read<'a>(
    alloc: Global,
    bytes: &'a [u8],
    scratch: &'a mut Scratch,
) -> Result<Value<'a>, Fault>
    ensures ok { IfOk result (λ v. IsUtf8 bytes.now × (read_text bytes.now ≡ Some (view v))) }
    ensures err { result ≡ Err Fault.Refused → IsUtf8 bytes.now → read_text bytes.now ≡ None }
{
    match simdutf8::basic::from_utf8(bytes) {
        Ok(text) => read_text(alloc, text, scratch),
        Err(_) => Err(Fault::Refused),
    }
}
