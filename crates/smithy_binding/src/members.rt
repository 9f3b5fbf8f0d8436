// The members of a schema, as both checks ask of them (Smithy, HTTP protocol bindings).
ghost use Rattle.std.specs.Prelude.{◌≡◌, IfOk};
ghost use Rattle.smithy_binding.specs.Words.{list_all, same_kind, schema_of};
ghost use Rattle.smithy_ids.specs.declared.shape_type.ShapeType.TheVariants as kind;
ghost use Rattle.smithy_binding.specs.Checked.{is_sound_payload, has_defined_members, has_named_members};
ghost use Rattle.smithy_binding.specs.views.Checking.{shown, ListsIf, counted_test, count_of, is_sound_in, payload_in, has_unbound_in, has_sound_payload_in};

use crate::direction::Direction;
use crate::member_check::{is_bound_in, is_payload, is_payload_kind, is_sound_member};
use crate::name_check::have_distinct_names;
use smithy_ids::ShapeType;
use smithy_schema::SchemaRef;
use std::alloc::{AllocError, Global};

/// A trait whose members are counted.
#[derive(Clone, Copy)]
pub enum Counted {
    Payload,
    Prefix,
    QueryMap,
    Label,
    ResponseCode,
}

fn has_trait(member: SchemaRef<'_>, which: Counted) -> bool
    ensures { result ≡ counted_test which (schema_of member.entry).node.traits }
{
    match which {
        Counted::Payload => member.http_payload().is_some(),
        Counted::Prefix => member.http_prefix_headers().is_some(),
        Counted::QueryMap => member.http_query_params().is_some(),
        Counted::Label => member.http_label().is_some(),
        Counted::ResponseCode => member.http_response_code().is_some(),
    }
}

/// How many members have the trait.
pub fn count(members: &[SchemaRef<'_>], which: Counted) -> usize
    ensures { result ≡ count_of which (shown members.now) }
{
    let mut count = 0;
    for member in members {
        if has_trait(*member, which) {
            count += 1;
        }
    }
    count
}

/// Whether each member is one that a checked schema may have.
pub fn are_sound_members(members: &[SchemaRef<'_>], way: Direction) -> bool
    ensures { result ≡ list_all (is_sound_in way) (shown members.now) }
{
    members.iter().all(|member| is_sound_member(*member, way))
}

/// The kind of the payload member, if there is one.
pub fn payload_kind(members: &[SchemaRef<'_>], way: Direction) -> Option<ShapeType>
    ensures { result ≡ payload_in way (shown members.now) }
{
    for member in members {
        if is_payload(*member, way) {
            return Some(member.shape_type());
        }
    }
    None
}

/// Whether some member stands in the body.
pub fn has_unbound_member(members: &[SchemaRef<'_>], way: Direction) -> bool
    ensures { result ≡ has_unbound_in way (shown members.now) }
{
    members.iter().any(|member| !is_bound_in(*member, way))
}

// A payload, if there is one, has a payload's kind and no unbound member beside it.
fn is_sound_payload(kind: Option<ShapeType>, is_beside_unbound: bool) -> bool
    ensures { result ≡ is_sound_payload kind is_beside_unbound }
{
    match kind {
        Some(kind) => is_payload_kind(kind) && !is_beside_unbound,
        None => true,
    }
}

/// Whether there is at most one payload, of a payload's kind, with no unbound member beside it (httpPayload).
pub fn has_sound_payload(members: &[SchemaRef<'_>], way: Direction) -> bool
    ensures { result ≡ has_sound_payload_in way (shown members.now) }
{
    count(members, Counted::Payload) <= 1
        && is_sound_payload(payload_kind(members, way), has_unbound_member(members, way))
}

/// Whether it is a structure.
pub fn is_structure(schema: SchemaRef<'_>) -> bool
    ensures { result ≡ same_kind (schema_of schema.entry).node.kind kind.Structure }
{
    matches!(schema.shape_type(), ShapeType::Structure)
}

/// The members, if each of their places has a node. Takes memory.
pub fn defined_members<'t>(
    alloc: Global,
    schema: SchemaRef<'t>,
) -> Result<Option<Vec<SchemaRef<'t>>>, AllocError>
    ensures { IfOk result
        (ListsIf (has_defined_members (schema_of schema.entry)) (schema_of schema.entry)) }
{
    let mut members = Vec::with_capacity(alloc, schema.members().len())?;
    for position in 0..schema.members().len() {
        let Some(member) = schema.member_schema_by_index(position) else {
            return Ok(None);
        };
        members.push(member)?;
    }
    Ok(Some(members))
}

/// The members of a structure, in order; None where it is no structure, one of their places has no node, or two of
/// them have one name. Takes memory.
pub fn named_members<'t>(
    alloc: Global,
    schema: SchemaRef<'t>,
) -> Result<Option<Vec<SchemaRef<'t>>>, AllocError>
    ensures { IfOk result
        (ListsIf (has_named_members (schema_of schema.entry)) (schema_of schema.entry)) }
{
    if !is_structure(schema) {
        return Ok(None);
    }
    let Some(members) = defined_members(alloc, schema)? else {
        return Ok(None);
    };
    let distinct = have_distinct_names(alloc, members.as_slice())?;
    if !distinct {
        return Ok(None);
    }
    Ok(Some(members))
}
