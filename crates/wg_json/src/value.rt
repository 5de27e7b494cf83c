ghost use Rattle.std.specs.Prelude.{◌≡◌, is_some, option_map, option_and_then};
ghost use Rattle.serde_json.specs.Find.{as_null, as_bool, as_number, as_str, as_array, as_object, as_u64, get, get_member};
ghost use Rattle.wg_json.specs.View.{view, items_view, members_view};

use serde_json::Number;

/// A JSON value. Its texts lie in what it was read from, or where those with escapes were written without
/// them. The members of an object stand in the order of their keys, each key once.
#[derive(Drop)]
pub enum Value<'a> {
    Null,
    Bool(bool),
    Number(Number),
    String(&'a str),
    Array(Vec<Value<'a>>),
    Object(Vec<(&'a str, Value<'a>)>),
}

/// What stands at a key among members.
fn find<'v, 'a>(members: &'v [(&'a str, Value<'a>)], key: &str) -> Option<&'v Value<'a>>
    ensures { option_map (λ v. view v.now) result ≡ get_member key.now (members_view members.now) }
{
    for member in members {
        if key == member.0 {
            return Some(&member.1);
        }
    }
    None
}

impl<'a> Value<'a> {
    /// What stands at a key, where this is an object that has it.
    pub fn get(&self, key: &str) -> Option<&Value<'a>>
        ensures { option_map (λ v. view v.now) result ≡ get key.now (view self.now) }
    {
        if let Value::Object(members) = self {
            find(members.as_slice(), key)
        } else {
            None
        }
    }

    /// The members, where this is an object.
    pub fn as_object(&self) -> Option<&Vec<(&'a str, Value<'a>)>>
        ensures { option_map (λ m. members_view m.now.items) result ≡ as_object (view self.now) }
    {
        if let Value::Object(members) = self {
            Some(members)
        } else {
            None
        }
    }

    /// The items, where this is a list.
    pub fn as_array(&self) -> Option<&Vec<Value<'a>>>
        ensures { option_map (λ v. items_view v.now.items) result ≡ as_array (view self.now) }
    {
        if let Value::Array(items) = self {
            Some(items)
        } else {
            None
        }
    }

    /// The text, where this is one.
    pub fn as_str(&self) -> Option<&'a str>
        ensures { option_map (λ s. s.now) result ≡ as_str (view self.now) }
    {
        if let Value::String(text) = self {
            Some(*text)
        } else {
            None
        }
    }

    /// The number, where this is a whole one below 2^64 that is written in digits alone.
    pub fn as_u64(&self) -> Option<u64>
        ensures { result ≡ option_and_then as_u64 (as_number (view self.now)) }
    {
        if let Value::Number(number) = self {
            number.as_u64()
        } else {
            None
        }
    }

    /// True or false, where this is one of them.
    pub fn as_bool(&self) -> Option<bool>
        ensures { result ≡ as_bool (view self.now) }
    {
        if let Value::Bool(flag) = self {
            Some(*flag)
        } else {
            None
        }
    }

    /// Whether this is null.
    pub fn is_null(&self) -> bool
        ensures { result ≡ is_some (as_null (view self.now)) }
    {
        if let Value::Null = self { true } else { false }
    }
}
