// Values of JSON.
ghost use Rattle.std.specs.Prelude.{◌≡◌, option_map, option_and_then};
ghost use Rattle.serde_json.specs.Find.{get, get_member, as_str, as_bool, as_array, as_object, as_number, as_u64};
ghost use Rattle.smithy_json.specs.views.JsonView.{view, items_view, members_view};

use serde_json::Number;

/// A value of JSON (RFC 8259), which borrows its texts. Of a text that was read the members of an object stand in byte order
/// of their names, each name once.
#[derive(Drop)]
pub enum JsonValue<'t> {
    Null,
    Bool(bool),
    Number(Number),
    String(&'t str),
    Array(Vec<JsonValue<'t>>),
    Object(Vec<(&'t str, JsonValue<'t>)>),
}

impl<'t> JsonValue<'t> {
    /// The text, if it is one.
    pub fn as_str(&self) -> Option<&'t str>
        ensures { option_map (λ t. t.now) result ≡ as_str (view self.now) }
    {
        match self {
            JsonValue::String(text) => Some(*text),
            _ => None,
        }
    }

    /// The truth, if it is one.
    pub fn as_bool(&self) -> Option<bool>
        ensures { result ≡ as_bool (view self.now) }
    {
        match self {
            JsonValue::Bool(truth) => Some(*truth),
            _ => None,
        }
    }

    /// The number, if it is one from 0 on of 64 bits.
    pub fn as_u64(&self) -> Option<u64>
        ensures { result ≡ option_and_then as_u64 (as_number (view self.now)) }
    {
        match self {
            JsonValue::Number(number) => number.as_u64(),
            _ => None,
        }
    }

    /// The items, if it is an array.
    pub fn as_array(&self) -> Option<&[JsonValue<'t>]>
        ensures { option_map (λ items. items_view items.now) result ≡ as_array (view self.now) }
    {
        match self {
            JsonValue::Array(items) => Some(items.as_slice()),
            _ => None,
        }
    }

    /// The members, if it is an object.
    pub fn as_object(&self) -> Option<&[(&'t str, JsonValue<'t>)]>
        ensures { option_map (λ members. members_view members.now) result ≡ as_object (view self.now) }
    {
        match self {
            JsonValue::Object(members) => Some(members.as_slice()),
            _ => None,
        }
    }

    /// The value under a name, if it is an object that has it. It looks at one name after another.
    pub fn get(&self, name: &str) -> Option<&JsonValue<'t>>
        ensures { option_map (λ v. view v.now) result ≡ get name.now (view self.now) }
    {
        value_named(self.as_object()?, name)
    }
}

/// The value under a name among the members of an object. It looks at one name after another, and takes no memory.
pub fn value_named<'v, 't>(
    members: &'v [(&'t str, JsonValue<'t>)],
    name: &str,
) -> Option<&'v JsonValue<'t>>
    ensures { option_map (λ v. view v.now) result ≡ get_member name.now (members_view members.now) }
{
    for member in members {
        if name == member.0 {
            return Some(&member.1);
        }
    }
    None
}
