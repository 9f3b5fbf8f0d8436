// Where a member stands in a message (Smithy, HTTP protocol bindings).
ghost use Rattle.std.specs.Prelude.{◌≡◌, length, option_map, IfSome};
ghost use Rattle.smithy_binding.specs.Words.{name_of, is_bound, schema_of, binding_of, binding_shown, element_of, member_at};
ghost use Rattle.smithy_binding.specs.declared.direction.Direction.TheVariants as direction;
ghost use Rattle.smithy_binding.specs.Bindings.{kind_or_none};
ghost use Rattle.smithy_binding.specs.Directions.{directed_schema};
ghost use Rattle.smithy_binding.specs.Faults.{is_placed_at};
ghost use Rattle.smithy_binding.specs.views.Directed.{directed_of, with_direction};
ghost use Rattle.smithy_binding.specs.views.NamesAtHand.{IsMemberAt};

use crate::direction::{DirectedSchema, Direction};
use smithy_ids::ShapeType;
use smithy_schema::{Binding, SchemaRef};

// Where a member of a response stands: the code of its status stands in the first line, as a label of a request does.
#[inline(never)]
fn response_binding<'t>(member: SchemaRef<'t>) -> Binding<'t>
    ensures { binding_shown result
        ≡ binding_of (directed_schema direction.Response (schema_of member.entry)) }
{
    if let Some(header) = member.http_header() {
        return Binding::Header(header.value());
    }
    if let Some(prefix) = member.http_prefix_headers() {
        return Binding::Prefix(prefix.value());
    }
    if member.http_response_code().is_some() {
        return Binding::Label;
    }
    if member.http_payload().is_some() {
        return Binding::Payload;
    }
    Binding::Body
}

/// Where the member stands.
#[inline(always)]
pub fn binding_of<'t>(member: DirectedSchema<'t>) -> Binding<'t>
    ensures { binding_shown result ≡ binding_of (directed_of member.entry) }
{
    match member.way {
        Direction::Request => member.schema.request_binding(),
        Direction::Response => response_binding(member.schema),
    }
}

/// Whether the member stands outside the body.
pub fn is_bound(member: DirectedSchema<'_>) -> bool
    ensures { result ≡ is_bound (directed_of member.entry) }
{
    !matches!(binding_of(member), Binding::Body)
}

/// Whether a member with this binding stands in the first line, the target or the headers.
pub fn is_placed(binding: Binding<'_>) -> bool
    ensures { result ≡ is_placed_at (binding_shown binding.entry) }
{
    !matches!(binding, Binding::Payload | Binding::Body)
}

/// How many members the schema has, holes among them.
pub fn member_count(schema: SchemaRef<'_>) -> usize
    ensures { result ≡ length (schema_of schema.entry).node.members }
{
    schema.members().len()
}

// The member with the direction.
#[inline(always)]
fn directed<'t>(member: Option<SchemaRef<'t>>, way: Direction) -> Option<DirectedSchema<'t>>
    ensures { result ≡ option_map (with_direction way) member.entry }
{
    match member {
        Some(schema) => Some(DirectedSchema { schema, way }),
        None => None,
    }
}

/// The member at a position.
#[inline(always)]
pub fn member_at<'t>(schema: DirectedSchema<'t>, position: usize) -> Option<DirectedSchema<'t>>
    ensures node { option_map directed_of result ≡ member_at (directed_of schema.entry) position }
    ensures member { IfSome result (IsMemberAt schema.entry position) }
{
    directed(schema.schema.member_schema_by_index(position), schema.way)
}

/// The kind of a node, and where there is none the kind that no value has.
pub fn kind_of(node: Option<SchemaRef<'_>>) -> ShapeType
    ensures { result ≡ kind_or_none (option_map schema_of node.entry) }
{
    match node {
        Some(node) => node.shape_type(),
        None => ShapeType::Member,
    }
}

/// The kind of the elements of a member, and where it has none the kind that no value has.
pub fn element_kind(member: DirectedSchema<'_>) -> ShapeType
    ensures { result ≡ kind_or_none (element_of (directed_of member.entry)) }
{
    kind_of(member.schema.element())
}

/// The member's name in messages, empty where it has none.
pub fn name_of<'t>(member: SchemaRef<'t>) -> &'t str
    ensures { result.now ≡ name_of (schema_of member.entry) }
{
    member.member_name().unwrap_or("")
}
