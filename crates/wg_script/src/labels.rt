//! Reads what a call says of what it makes: its name, and beside that a label.
ghost use Rattle.std.specs.Prelude.{◌≡◌};
ghost use Rattle.std.specs.List.{list_all};
ghost use Rattle.serde_json.specs.Find.{get, as_str};
ghost use Rattle.wg_json.specs.View.{view};
ghost use Rattle.wg_script.specs.Giving.{Gives};
ghost use Rattle.wg_script.specs.Labels.{is_label_byte, is_label, label_of, label_if, made_keys};

use crate::name::Name;
use crate::values::{Refusal, name_at};
use std::alloc::Global;
use wg_json::Value;

/// How many bytes a label may have.
const MOST_BYTES: usize = 256;

fn is_label_byte(byte: u8) -> bool
    ensures { result ≡ is_label_byte byte }
{
    byte >= 32 && byte != 127
}

fn all_label_bytes(bytes: &[u8]) -> bool
    ensures { result ≡ list_all is_label_byte bytes.now }
{
    bytes.iter().all(|byte| is_label_byte(*byte))
}

/// Whether a text may be a label: at most 256 bytes, none of them below 32 and none 127.
fn is_label(text: &str) -> bool
    ensures { result ≡ is_label text.now }
{
    let bytes = text.as_bytes();
    bytes.len() <= MOST_BYTES && all_label_bytes(bytes)
}

/// Script rule 8: refuses what is no label. Nothing of a label is kept.
fn label(value: &Value<'_>) -> Result<(), u8>
    ensures { result ≡ label_of (as_str (view value.now)) }
{
    match value.as_str() {
        Some(text) if is_label(text) => Ok(()),
        _ => Err(8),
    }
}

/// A label, if the key is there.
pub fn label_if(object: &Value<'_>, key: &str) -> Result<(), u8>
    ensures { result ≡ label_if (get key.now (view object.now)) }
{
    match object.get(key) {
        Some(value) => label(value),
        None => Ok(()),
    }
}

/// The name of what a call makes, which may have a label beside it.
pub fn made_in(alloc: Global, call: &Value<'_>) -> Result<Name, Refusal>
    ensures { Gives result (made_keys.read (view call.now)) }
{
    label_if(call, "label")?;
    let name = name_at(alloc, call, "as")?;
    Ok(name)
}
