// Whether the names of fields stand.
ghost use Rattle.std.specs.Prelude.{◌≡◌, ◌&&◌, option_map, IfOk, IfSome, OnOk, Some, None};
ghost use Rattle.std.specs.Str.{is_utf8};
ghost use Rattle.smithy_schema.specs.References.{schema_of};
ghost use Rattle.smithy_wire.specs.Words.{at_place, list_all, members_of};
ghost use Rattle.smithy_wire.specs.WireNames.{are_found, field_names, is_found, names_of, names_stand, parts_stand, stands, structure_stands, table_stands, value_stands, whole_stands};
ghost use Rattle.smithy_wire.specs.views.ShownNames.{texts_shown, Adds, is_found_at, may_stand, member_stands, names_at, place_stands};

use crate::columns::fill_all;
use crate::forms::shape;
use crate::names::{field_by_index, field_named, json_name, name_of};
use crate::side::Side;
use smithy_schema::{Provider, SchemaExtension, SchemaIndex, SchemaRef, Schemas};
use smithy_strings::are_distinct;
use smithy_types::OutOfMemory;
use std::alloc::Global;

fn is_utf8(_text: &str) -> bool
    ensures { result ≡ is_utf8 _text.now }
{
    true
}

// Whether each is UTF-8, as texts are.
fn are_utf8(names: &[&str]) -> bool
    ensures { result ≡ list_all is_utf8 (texts_shown names.now) }
{
    for name in names {
        if !is_utf8(*name) {
            return false;
        }
    }
    true
}

// Adds the names of a member.
fn push_names<'t>(names: &mut Vec<&'t str>, member: SchemaRef<'t>) -> Result<(), OutOfMemory>
    ensures { OnOk result (Adds (names_of (schema_of member.entry)) names.old.items names.new.items) }
{
    let name = name_of(member);
    let in_json = json_name(member);
    names.push(name)?;
    if in_json != name {
        names.push(in_json)?;
    }
    Ok(())
}

// Adds the names of the field at a position, where there is one.
fn push_names_at<'t>(
    names: &mut Vec<&'t str>,
    side: Option<Side>,
    node: SchemaRef<'t>,
    position: usize,
) -> Result<(), OutOfMemory>
    ensures { OnOk result
        (Adds (names_at side (schema_of node.entry) position) names.old.items names.new.items) }
{
    match field_by_index(side, node, position) {
        Some(field) => push_names(names, field),
        None => Ok(()),
    }
}

// The names of the fields, each field's behind those before it.
fn field_names<'t>(
    alloc: Global,
    side: Option<Side>,
    schema: SchemaRef<'t>,
) -> Result<Vec<&'t str>, OutOfMemory>
    ensures { IfOk result (λ v. texts_shown v.items ≡ field_names side (schema_of schema.entry)) }
{
    let mut names = Vec::with_capacity(alloc, schema.members().len())?;
    for position in 0..schema.members().len() {
        push_names_at(&mut names, side, schema, position)?;
    }
    Ok(names)
}

// Whether a field is found by its own name.
fn is_found(side: Option<Side>, schema: SchemaRef<'_>, field: SchemaRef<'_>) -> bool
    ensures { result ≡ is_found side (schema_of schema.entry) (schema_of field.entry) }
{
    match field_named(side, schema, name_of(field)) {
        Some(_) => true,
        None => false,
    }
}

// Whether the field at a position is, where there is one.
fn is_found_at(side: Option<Side>, schema: SchemaRef<'_>, position: usize) -> bool
    ensures { result ≡ is_found_at side (schema_of schema.entry) position }
{
    match field_by_index(side, schema, position) {
        Some(field) => is_found(side, schema, field),
        None => true,
    }
}

// Whether each field is.
fn are_found(side: Option<Side>, schema: SchemaRef<'_>) -> bool
    ensures { result ≡ are_found side (schema_of schema.entry) }
{
    for position in 0..schema.members().len() {
        if !is_found_at(side, schema, position) {
            return false;
        }
    }
    true
}

// Whether the names of the fields of one structure stand.
fn fields_stand(
    alloc: Global,
    side: Option<Side>,
    schema: SchemaRef<'_>,
) -> Result<bool, OutOfMemory>
    ensures { IfOk result (λ b. b ≡ names_stand side (schema_of schema.entry)) }
{
    let names = field_names(alloc, side, schema)?;
    Ok(
        are_distinct(alloc, names.as_slice())?
            && are_utf8(names.as_slice())
            && are_found(side, schema),
    )
}

// Tells of a node whether the names of its members stand.
#[derive(Clone, Copy, Drop)]
struct StandingOfNodes {
    alloc: Global,
}

impl Provider<bool> for StandingOfNodes {
    ghost use Rattle.std.specs.Prelude.{◌≡◌, ⊤, None};
    ghost use Rattle.smithy_wire.specs.WireNames.{names_stand};

    ghost takes = { λ _ schema. ⊤ };

    ghost gives = { λ _ schema stand. stand ≡ names_stand None schema };

    fn provide(&self, node: SchemaRef<'_>) -> Result<bool, OutOfMemory> {
        fields_stand(self.alloc, None, node)
    }
}

type Standing<'t> = SchemaExtension<'t, bool, StandingOfNodes>;

// That of each node of a table, so that it is found out once of what many nodes cite.
fn standing_of<'t>(alloc: Global, table: &'t Schemas) -> Result<Standing<'t>, OutOfMemory>
    ensures { IfOk result (λ known. known.table ≡ table.now) }
{
    let mut known = SchemaExtension::new(alloc, table, StandingOfNodes { alloc })?;
    fill_all(&mut known, table.len())?;
    Ok(known)
}

// Whether the names of the members of the node at a place stand, where it is known.
fn known_at(known: &Standing<'_>, node: SchemaRef<'_>, place: SchemaIndex) -> Option<bool>
    requires table { known.now.table ≡ (schema_of node).table }
    requires node { at_place (schema_of node).table place.0 ≡ Some (schema_of node) }
    ensures { IfSome result (λ b. b ≡ names_stand None (schema_of node.entry)) }
{
    match known.peek(place) {
        Some(stand) => Some(*stand),
        None => None,
    }
}

// That of a node, which may be of no table.
fn known_of(known: &Standing<'_>, node: SchemaRef<'_>) -> Option<bool>
    requires { known.now.table ≡ (schema_of node).table }
    ensures { IfSome result (λ b. b ≡ names_stand None (schema_of node.entry)) }
{
    match node.index() {
        Some(place) => known_at(known, node, place),
        None => None,
    }
}

// Whether they stand of the shape of a node, so that values can be of it.
fn value_stands(
    alloc: Global,
    known: &Standing<'_>,
    node: SchemaRef<'_>,
) -> Result<bool, OutOfMemory>
    requires { known.now.table ≡ (schema_of node).table }
    ensures { IfOk result (λ b. b ≡ value_stands (schema_of node.entry)) }
{
    let shape = shape(node);
    match known_of(known, shape) {
        Some(stand) => Ok(stand),
        None => fields_stand(alloc, None, shape),
    }
}

// The same of an element or a value, where there is one.
fn may_stand(
    alloc: Global,
    known: &Standing<'_>,
    part: Option<SchemaRef<'_>>,
) -> Result<bool, OutOfMemory>
    requires { IfSome part (λ n. known.now.table ≡ (schema_of n).table) }
    ensures { IfOk result (λ b. b ≡ may_stand (option_map schema_of part.entry)) }
{
    match part {
        Some(node) => value_stands(alloc, known, node),
        None => Ok(true),
    }
}

// And of the member at a position.
fn member_stands(
    alloc: Global,
    known: &Standing<'_>,
    schema: SchemaRef<'_>,
    position: usize,
) -> Result<bool, OutOfMemory>
    requires { known.now.table ≡ (schema_of schema).table }
    ensures { IfOk result (λ b. b ≡ member_stands (schema_of schema.entry) position) }
{
    match schema.member_schema_by_index(position) {
        Some(member) => value_stands(alloc, known, member),
        None => Ok(true),
    }
}

// And of each member.
fn members_stand(
    alloc: Global,
    known: &Standing<'_>,
    schema: SchemaRef<'_>,
) -> Result<bool, OutOfMemory>
    requires { known.now.table ≡ (schema_of schema).table }
    ensures { IfOk result (λ b. b ≡ list_all value_stands (members_of (schema_of schema.entry))) }
{
    for position in 0..schema.members().len() {
        if !member_stands(alloc, known, schema, position)? {
            return Ok(false);
        }
    }
    Ok(true)
}

// And of all that a node cites.
fn parts_stand(
    alloc: Global,
    known: &Standing<'_>,
    schema: SchemaRef<'_>,
) -> Result<bool, OutOfMemory>
    requires { known.now.table ≡ (schema_of schema).table }
    ensures { IfOk result (λ b. b ≡ parts_stand (schema_of schema.entry)) }
{
    let element = schema.element();
    let value = schema.value();
    Ok(
        members_stand(alloc, known, schema)?
            && may_stand(alloc, known, element)?
            && may_stand(alloc, known, value)?,
    )
}

// And of all that the node at a place cites, where there is one.
fn place_stands(
    alloc: Global,
    known: &Standing<'_>,
    table: &Schemas,
    place: usize,
) -> Result<bool, OutOfMemory>
    requires { known.now.table ≡ table.now }
    ensures { IfOk result (λ b. b ≡ place_stands table.now place) }
{
    match table.get(SchemaIndex(place)) {
        Some(node) => parts_stand(alloc, known, node),
        None => Ok(true),
    }
}

// And of all that the nodes of a table cite.
fn table_stands(alloc: Global, known: &Standing<'_>, table: &Schemas) -> Result<bool, OutOfMemory>
    requires { known.now.table ≡ table.now }
    ensures { IfOk result (λ b. b ≡ table_stands table.now) }
{
    for place in 0..table.len() {
        if !place_stands(alloc, known, table, place)? {
            return Ok(false);
        }
    }
    Ok(true)
}

// Whether names stand where values can be below a structure of a table.
fn below_stands(alloc: Global, table: &Schemas, schema: SchemaRef<'_>) -> Result<bool, OutOfMemory>
    requires { table.now ≡ (schema_of schema).table }
    ensures { IfOk result (λ b. b ≡ (parts_stand (schema_of schema.entry) && table_stands table.now)) }
{
    let known = standing_of(alloc, table)?;
    Ok(parts_stand(alloc, &known, schema)? && table_stands(alloc, &known, table)?)
}

// Whether names stand in a structure, at the top of a side or elsewhere, and below it.
fn structure_stands(
    alloc: Global,
    side: Option<Side>,
    schema: SchemaRef<'_>,
) -> Result<bool, OutOfMemory>
    ensures { IfOk result (λ b. b ≡ structure_stands side (schema_of schema.entry)) }
{
    if !fields_stand(alloc, side, schema)? {
        return Ok(false);
    }
    match schema.table() {
        Some(table) => below_stands(alloc, table, schema),
        None => Ok(true),
    }
}

/// Whether names stand in a message by the schema of an input or an output (Smithy, jsonName trait): the JSON names of its fields
/// differ, and none is the name of another field. At the top the fields are the members that have no binding of the side; in the
/// shape of each member, element and value of the table they are all members. In time linear in the table and its names, up to
/// the logarithm of the number of names in a structure. Takes memory for the names of one structure, and a flag for each node.
pub fn names_stand(alloc: Global, schema: SchemaRef<'_>, side: Side) -> Result<bool, OutOfMemory>
    ensures { IfOk result (λ b. b ≡ stands side (schema_of schema.entry)) }
{
    structure_stands(alloc, Some(side), shape(schema))
}

/// The same of a value that is read and written whole, whatever bindings its members have.
pub fn whole_names_stand(alloc: Global, schema: SchemaRef<'_>) -> Result<bool, OutOfMemory>
    ensures { IfOk result (λ b. b ≡ whole_stands (schema_of schema.entry)) }
{
    structure_stands(alloc, None, shape(schema))
}
