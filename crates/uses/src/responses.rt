// Responses: read into a structure, and a member of it taken.
ghost use Rattle.std.specs.Prelude.{◌≡◌};
ghost use Rattle.smithy_schema.specs.Nodes.{Table};
ghost use Rattle.smithy_serde.specs.StoredValues.{HasNode, label_at, value_in, writes_in};
ghost use Rattle.smithy_serde.specs.StructValues.{members_of};
ghost use Rattle.uses.specs.Members.{has_name, lent, text_of, text_of_named};
ghost use Rattle.uses.specs.Outputs.{GivesOutput};

use smithy_document::JsonCodec;
use smithy_http::{NonUtf8HeaderHandling, Response};
use smithy_response::response_value;
use smithy_schema::{SchemaIndex, Schemas};
use smithy_serde::{Codec, SerdeError, SerializableStruct, ShapeValue, StructValue, WriteList};
use std::alloc::Global;

/// The output of a response by REST with bodies of JSON, read by the node at a place: exactly what status,
/// headers and body have for its members, or the first refusal. Condition: the node is defined. Takes memory.
pub fn output_of<'t>(
    alloc: Global,
    response: &Response,
    table: &'t Schemas,
    output: SchemaIndex,
) -> Result<StructValue<'t>, SerdeError>
    requires { HasNode table.now output.0 }
    ensures { GivesOutput table.now output.0 response.now result }
{
    let Ok(body) = JsonCodec.create_deserializer(alloc, response.body_bytes()) else {
        return Err(SerdeError::OutOfMemory);
    };
    let policy = NonUtf8HeaderHandling::Reject;
    response_value(alloc, body, response, table, output, false, policy)
}

// Whether the node at a place is a member of this name.
fn is_named(table: &Schemas, node: SchemaIndex, name: &str) -> bool
    ensures { result ≡ has_name name.now (label_at table.now node.0) }
{
    let Some(schema) = table.get(node) else {
        return false;
    };
    match schema.member_name() {
        Some(found) => found == name,
        None => false,
    }
}

// The text that a value is.
#[tactic(auto, unfolding(smithy_serde::specs::StoredValues::value_in))]
fn text_in(value: &ShapeValue) -> Option<&str>
    ensures { (t : Table) → lent result ≡ text_of (value_in t value.now) }
{
    match value {
        ShapeValue::String(text) => Some(text.as_str()),
        _ => None,
    }
}

// The text of the first write to a member of this name, where it is one.
fn text_among<'v>(table: &Schemas, writes: &'v WriteList, name: &str) -> Option<&'v str>
    ensures { lent result ≡ text_of_named name.now (writes_in table.now writes.now) }
{
    for (node, value) in writes.iter() {
        if is_named(table, node, name) {
            return text_in(value);
        }
    }
    None
}

/// The text that a structure has for the member of this name, where the first write to it is one. Takes no
/// memory.
pub fn text_named<'v>(value: &'v StructValue<'_>, name: &str) -> Option<&'v str>
    ensures { lent result ≡ text_of_named name.now (members_of value.now) }
{
    match value.stored_writes() {
        Some((table, writes)) => text_among(table, writes, name),
        None => None,
    }
}
