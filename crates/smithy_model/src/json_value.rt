// JSON values, read where they stand.
ghost use Rattle.std.specs.Prelude.{◌≡◌, map, option_map};
ghost use Rattle.smithy_json.specs.views.JsonView.{view, entries};
ghost use Rattle.smithy_model.specs.Json.{items_in, members_in, text_at};

use smithy_json::JsonValue;

/// The items of an array.
#[inline(always)]
pub fn items_of<'v, 't>(value: &'v JsonValue<'t>) -> Option<&'v [JsonValue<'t>]>
    ensures { option_map (λ items. map view items.now) result ≡ items_in (view value.now) }
{
    value.as_array()
}

/// The members of an object, in byte order of their names.
#[inline(always)]
pub fn members_of<'v, 't>(value: &'v JsonValue<'t>) -> Option<&'v [(&'t str, JsonValue<'t>)]>
    ensures { option_map (λ members. entries members.now) result ≡ members_in (view value.now) }
{
    value.as_object()
}

/// The text under a key of an object.
pub fn text_of<'t>(value: &JsonValue<'t>, key: &str) -> Option<&'t str>
    ensures { option_map (λ t. t.now) result ≡ text_at key.now (view value.now) }
{
    value.get(key)?.as_str()
}
