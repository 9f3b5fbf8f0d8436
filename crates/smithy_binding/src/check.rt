// Schemas that a request can be placed by (Smithy, HTTP protocol bindings).
ghost use Rattle.std.specs.Prelude.{◌≡◌, IfOk, false};
ghost use Rattle.smithy_binding.specs.Words.{option_map_or, is_structure_or_union, members_of, schema_of};
ghost use Rattle.smithy_binding.specs.Checked.{checked_input, agrees, has_sound_http};
ghost use Rattle.smithy_binding.specs.views.Checking.{shown, are_sound, is_sound_input, has_true_flag_for, has_true_hint_for};

use crate::clear_template::is_clear_among;
use crate::direction::Direction;
use crate::member_check::is_structure_or_union;
use crate::members::{
    Counted, are_sound_members, count, has_sound_payload, has_unbound_member, named_members,
    payload_kind,
};
use crate::name_check::have_sound_names;
use crate::place::uri_template;
use smithy_ids::{PayloadHint, ShapeType};
use smithy_schema::SchemaRef;
use smithy_types::{OutOfMemory, is_token};
use std::alloc::{AllocError, Global};

fn is_struct_payload(kind: Option<ShapeType>) -> bool
    ensures { result ≡ option_map_or is_structure_or_union kind false }
{
    match kind {
        Some(kind) => is_structure_or_union(kind),
        None => false,
    }
}

// The hint says nothing, or whether there is a structure payload.
fn agrees(hint: PayloadHint, has_struct_payload: bool) -> bool
    ensures { result ≡ agrees hint has_struct_payload }
{
    match hint {
        PayloadHint::Unknown => true,
        PayloadHint::StructPayload => has_struct_payload,
        PayloadHint::NoStructPayload => !has_struct_payload,
    }
}

/// Whether the flag of no body members says what holds.
pub fn has_true_flag(schema: SchemaRef<'_>, members: &[SchemaRef<'_>]) -> bool
    ensures { result ≡ has_true_flag_for (schema_of schema.entry) (shown members.now) }
{
    schema.has_body_members() || !has_unbound_member(members, Direction::Request)
}

/// Whether the payload hint says what holds.
pub fn has_true_hint(schema: SchemaRef<'_>, members: &[SchemaRef<'_>]) -> bool
    ensures { result ≡ has_true_hint_for (schema_of schema.entry) (shown members.now) }
{
    let payload = payload_kind(members, Direction::Request);
    agrees(schema.payload_hint(), is_struct_payload(payload))
}

// What needs no memory.
fn are_sound(schema: SchemaRef<'_>, members: &[SchemaRef<'_>]) -> bool
    ensures { result ≡ are_sound (schema_of schema.entry) (shown members.now) }
{
    are_sound_members(members, Direction::Request)
        && has_sound_payload(members, Direction::Request)
        && count(members, Counted::Prefix) <= 1
        && count(members, Counted::QueryMap) <= 1
        && has_true_flag(schema, members)
        && has_true_hint(schema, members)
}

// With `@http` the method is a token, and the template is clear and begins with `/`.
fn is_sound_http<'t>(
    alloc: Global,
    schema: SchemaRef<'t>,
    members: &[SchemaRef<'t>],
) -> Result<bool, AllocError>
    requires { shown members.now ≡ members_of (schema_of schema) }
    ensures { IfOk result (λ b. b ≡ has_sound_http (schema_of schema.entry)) }
{
    let Some(http) = schema.http() else {
        return Ok(true);
    };
    if !is_token(http.method()) {
        return Ok(false);
    }
    let is_clear = is_clear_among(alloc, uri_template(schema, ""), members)?;
    if !is_clear {
        return Ok(false);
    }
    Ok(http.uri().as_bytes().starts_with(b"/"))
}

// What is asked of a structure whose members are defined and have distinct names.
fn are_checked<'t>(
    alloc: Global,
    schema: SchemaRef<'t>,
    members: &[SchemaRef<'t>],
) -> Result<bool, AllocError>
    requires { shown members.now ≡ members_of (schema_of schema) }
    ensures { IfOk result (λ b. b ≡ is_sound_input (schema_of schema.entry)) }
{
    if !are_sound(schema, members) {
        return Ok(false);
    }
    let sound = have_sound_names(alloc, members)?;
    if !sound {
        return Ok(false);
    }
    is_sound_http(alloc, schema, members)
}

/// Whether a request can be placed by the schema: a structure whose cited nodes are defined, with distinct names,
/// members of kinds that their bindings take, at most one payload and nothing unbound beside it, at most one map of
/// each sort, distinct header and query names, a flag and a hint that say what holds, and a clear template (Smithy,
/// HTTP protocol bindings). Linear in the number of members, but for the names, which are sorted. Takes memory.
pub fn checked_input(alloc: Global, schema: SchemaRef<'_>) -> Result<bool, OutOfMemory>
    ensures { IfOk result (λ b. b ≡ checked_input (schema_of schema.entry)) }
{
    match named_members(alloc, schema)? {
        Some(members) => Ok(are_checked(alloc, schema, members.as_slice())?),
        None => Ok(false),
    }
}
