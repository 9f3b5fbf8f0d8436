// What an output has in a response (Smithy, HTTP protocol bindings).
ghost use Rattle.std.specs.Prelude.{◌≡◌, IsTrue};
ghost use Rattle.smithy_binding.specs.Words.{is_header_value, label_at, label_of, list_of, schema_of, writes_in, AreDefined, HasNode, IsReady};
ghost use Rattle.smithy_binding.specs.CheckedOutput.{checked_output};
ghost use Rattle.smithy_binding.specs.ResponseCodes.{written_code};
ghost use Rattle.smithy_binding.specs.views.Directed.{directed_of};
ghost use Rattle.smithy_binding.specs.views.PlacedOutputs.{IsCode, IsStatusOf, PlacesOutput};
ghost use Rattle.smithy_binding.specs.views.Resolving.{is_code_label};

use crate::binding::binding_of;
use crate::code::status_value;
use crate::direction::{DirectedSchema, Direction};
use crate::header_names::Lowered;
use crate::message::{MessagePlan, place_message};
use crate::resolve::resolve;
use smithy_http::Headers;
use smithy_schema::{Binding, SchemaIndex, SchemaRef, Schemas};
use smithy_serde::{FinishSerializer, OmitFlags, SerdeError, ShapeValue, WriteList};
use smithy_types::Blob;
use std::alloc::Global;

/// What an output has in a response.
#[derive(Drop)]
pub struct PlacedOutput {
    /// The status, where the response code is written.
    pub code: Option<u16>,
    pub headers: Headers,
    pub body: Blob,
}

// Whether the written node is for the response code.
fn is_for_code(schema: DirectedSchema<'_>, written: SchemaRef<'_>) -> bool
    ensures { result
        ≡ is_code_label (directed_of schema.entry) (label_of (schema_of written.entry)) }
{
    match resolve(schema, written) {
        Some((_position, member)) => matches!(binding_of(member), Binding::Label),
        None => false,
    }
}

// Whether a write of this node is one of the response code.
fn is_code(schema: DirectedSchema<'_>, table: &Schemas, node: SchemaIndex) -> bool
    requires { HasNode table.now node.0 }
    ensures { result ≡ is_code_label (directed_of schema.entry) (label_at table.now node.0) }
{
    let Some(written) = table.get(node) else {
        unreachable!()
    };
    is_for_code(schema, written)
}

// The value of the first write of the response code.
fn code_value<'w>(
    schema: DirectedSchema<'_>,
    table: &Schemas,
    writes: &'w WriteList,
) -> Option<&'w ShapeValue>
    requires { AreDefined table.now writes.now }
    ensures { IsCode schema.entry table.now writes.now result }
{
    for (node, value) in writes.iter() {
        if is_code(schema, table, node) {
            return Some(value);
        }
    }
    None
}

// The status that the value is.
fn code_if(value: Option<&ShapeValue>) -> Option<u16>
    ensures { IsStatusOf value.entry result }
{
    match value {
        Some(value) => status_value(value),
        None => None,
    }
}

// The status that the response code's first write is.
fn written_code(schema: DirectedSchema<'_>, table: &Schemas, writes: &WriteList) -> Option<u16>
    requires { AreDefined table.now writes.now }
    ensures { result
        ≡ written_code (directed_of schema.entry) (list_of (writes_in table.now writes.now)) }
{
    code_if(code_value(schema, table, writes))
}

/// What the writes, whose nodes are those of the table, have in a response by a checked output schema; `serializer`
/// writes the body. Its refusals are those of `HttpBindingProtocol::place_output`. Takes memory.
pub fn place_stored_output<S: FinishSerializer + Drop>(
    alloc: Global,
    serializer: S,
    table: &Schemas,
    writes: &WriteList,
    schema: SchemaRef<'_>,
    content_type: &str,
) -> Result<PlacedOutput, SerdeError>
    requires checked { IsTrue (checked_output (schema_of schema)) }
    requires defined { AreDefined table.now writes.now }
    requires content_type { IsTrue (is_header_value content_type.now) }
    requires ready { IsReady (S.seen serializer) }
    ensures { PlacesOutput
        (S.seen serializer).text content_type.now schema.entry table.now writes.now result }
{
    let out = DirectedSchema {
        schema,
        way: Direction::Response,
    };
    let plan = MessagePlan {
        schema: out,
        content_type,
        omit: OmitFlags::KEEP_ALL,
    };
    let message = place_message(alloc, &mut Lowered, serializer, table, writes, plan)?;
    Ok(PlacedOutput {
        code: written_code(out, table, writes),
        headers: message.headers,
        body: message.body,
    })
}
