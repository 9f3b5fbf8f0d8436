// The names of fields in JSON (Smithy, jsonName trait).
ghost use Rattle.std.specs.Prelude.{◌≡◌, true, option_map};
ghost use Rattle.std.specs.Borrow.{Bor};
ghost use Rattle.smithy_wire.specs.Words.{name_of, schema_of};
ghost use Rattle.smithy_wire.specs.WireNames.{json_name, is_elsewhere, is_field, if_field, field_named, field_in_json, names_stand};
ghost use Rattle.smithy_wire.specs.views.FieldNames.{MayTell, Tells};
ghost use Rattle.smithy_wire.specs.views.MemberSteps.{field_by_index, json_field_at};
ghost use Rattle.smithy_wire.specs.declared.node_names.NodeNames.{NodeNames as Told};

use crate::node_names::NodeNames;
use crate::side::Side;
use smithy_schema::{Binding, SchemaRef};

/// The name of a member, empty where it has none.
pub(crate) fn name_of<'t>(member: SchemaRef<'t>) -> &'t str
    ensures { result.now ≡ name_of (schema_of member.entry) }
{
    match member.member_name() {
        Some(name) => name,
        None => "",
    }
}

/// The name of a member in JSON (Smithy, jsonName trait): the trait's value, else the member's name. Takes no memory.
pub fn json_name<'t>(member: SchemaRef<'t>) -> &'t str
    ensures { result.now ≡ json_name (schema_of member.entry) }
{
    match member.json_name() {
        Some(name) => name.value(),
        None => name_of(member),
    }
}

// Whether the member stands elsewhere in the message, at whose top it is.
fn is_elsewhere(side: Option<Side>, member: SchemaRef<'_>) -> bool
    ensures { result ≡ is_elsewhere side (schema_of member.entry) }
{
    match side {
        None => false,
        Some(Side::Request) => !matches!(member.request_binding(), Binding::Body),
        Some(Side::Response) => member.has_http_response_binding(),
    }
}

// Whether the member stands in its structure's object.
fn is_field(side: Option<Side>, member: SchemaRef<'_>) -> bool
    ensures { result ≡ is_field side (schema_of member.entry) }
{
    member.member_name().is_some() && !is_elsewhere(side, member)
}

// The member, where it is a field.
fn if_field<'t>(side: Option<Side>, member: SchemaRef<'t>) -> Option<SchemaRef<'t>>
    ensures { option_map schema_of result ≡ if_field side (schema_of member.entry) }
{
    if is_field(side, member) {
        Some(member)
    } else {
        None
    }
}

/// The field of a structure that has this name. Takes no memory.
pub(crate) fn field_named<'t>(
    side: Option<Side>,
    schema: SchemaRef<'t>,
    name: &str,
) -> Option<SchemaRef<'t>>
    ensures { option_map schema_of result ≡ field_named side (schema_of schema.entry) name.now }
{
    if_field(side, schema.member_schema(name)?)
}

/// The field that the member at a position is, where it is one. Takes no memory.
pub(crate) fn field_by_index<'t>(
    side: Option<Side>,
    schema: SchemaRef<'t>,
    position: usize,
) -> Option<SchemaRef<'t>>
    ensures { option_map schema_of result ≡ field_by_index side (schema_of schema.entry) position }
{
    if_field(side, schema.member_schema_by_index(position)?)
}

// The member at a position, where it is a field that has this name in JSON.
fn field_at<'t>(
    side: Option<Side>,
    schema: SchemaRef<'t>,
    position: usize,
    name: &str,
) -> Option<SchemaRef<'t>>
    ensures { option_map schema_of result ≡ json_field_at side name.now (schema_of schema.entry) position }
{
    let member = schema.member_schema_by_index(position)?;
    if is_field(side, member) && json_name(member) == name {
        Some(member)
    } else {
        None
    }
}

// The first field that has this name in JSON. It looks at one member after another.
fn field_in_json<'t>(side: Option<Side>, schema: SchemaRef<'t>, name: &str) -> Option<SchemaRef<'t>>
    ensures { option_map schema_of result ≡ field_in_json side (schema_of schema.entry) name.now }
{
    for position in 0..schema.members().len() {
        if let Some(member) = field_at(side, schema, position, name) {
            return Some(member);
        }
    }
    None
}

// The field that has this name in JSON, where names stand: it is looked for at this position first.
fn field_found<'t>(
    side: Option<Side>,
    schema: SchemaRef<'t>,
    position: usize,
    name: &str,
) -> Option<SchemaRef<'t>>
    requires { names_stand side (schema_of schema) ≡ true }
    ensures { option_map schema_of result ≡ field_in_json side (schema_of schema.entry) name.now }
{
    match field_at(side, schema, position, name) {
        Some(member) => Some(member),
        None => field_in_json(side, schema, name),
    }
}

// The field that has this name in JSON, where names stand, found by what is told of the names of its structure.
fn told_field<'t>(
    names: &NodeNames,
    side: Option<Side>,
    schema: SchemaRef<'t>,
    name: &str,
) -> Option<SchemaRef<'t>>
    requires stand { names_stand side (schema_of schema) ≡ true }
    requires told { Tells (schema_of schema) names.now }
    ensures { option_map schema_of result ≡ field_in_json side (schema_of schema.entry) name.now }
{
    match names {
        NodeNames::Own => field_in_json(side, schema, name),
        NodeNames::Few => field_in_json(side, schema, name),
        NodeNames::Mapped(positions) => match positions.get(name) {
            Some(position) => field_found(side, schema, *position, name),
            None => None,
        },
    }
}

/// The field that has this name in JSON, where names stand, found by what is told of the names of its structure, or else one
/// member after another. Takes no memory.
pub(crate) fn json_field<'t>(
    told: Option<&NodeNames>,
    side: Option<Side>,
    schema: SchemaRef<'t>,
    name: &str,
) -> Option<SchemaRef<'t>>
    requires stand { names_stand side (schema_of schema) ≡ true }
    requires told { MayTell (schema_of schema) (option_map (λ (t : Bor Told). t.now) told) }
    ensures { option_map schema_of result ≡ field_in_json side (schema_of schema.entry) name.now }
{
    match told {
        Some(names) => told_field(names, side, schema, name),
        None => field_in_json(side, schema, name),
    }
}
