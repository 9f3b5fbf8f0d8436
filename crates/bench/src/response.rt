// Responses, read and written by a schema again and again.
ghost use Rattle.smithy_serde.specs.StoredValues.{HasNode};

use crate::counted::check_count;
use crate::failed::Failed;
use crate::sample::{Order, Sizes, headers_of, insert_structure, object_text};
use smithy_binding::{HttpBindingProtocol, checked_output};
use smithy_document::{JsonCodec, json_is_lawful};
use smithy_http::{NonUtf8HeaderHandling, Response};
use smithy_response::response_value;
use smithy_schema::{SchemaIndex, Schemas};
use smithy_serde::{Codec, StructValue};
use smithy_serve::write_response;
use smithy_types::Blob;
use std::alloc::Global;

const SIZES: Sizes = Sizes {
    headers: 8,
    fields: 100,
};

fn sample_response(alloc: Global) -> Result<Response, Failed> {
    let text = object_text(alloc, SIZES.fields, Order::InTurn)?;
    let body = Blob::new(alloc, text.as_bytes())?;
    let headers = headers_of(alloc, SIZES.headers)?;
    Ok(Response::new(200, headers, Some(body)))
}

// The value of a response's output.
fn value_of<'t>(
    alloc: Global,
    table: &'t Schemas,
    node: SchemaIndex,
    response: &Response,
) -> Result<StructValue<'t>, Failed>
    requires { HasNode table.now node.0 }
{
    let Some(text) = response.body() else {
        return Err(Failed);
    };
    let body = JsonCodec.create_deserializer(alloc, text.as_slice())?;
    let policy = NonUtf8HeaderHandling::Reject;
    let value = response_value(alloc, body, response, table, node, false, policy)?;
    check_count(&value, SIZES)?;
    Ok(value)
}

/// Reads a response of 8 headers and a JSON object of 100 String fields as the value of its output, so many times.
pub fn read_responses(alloc: Global, times: u32) -> Result<(), Failed> {
    let mut table = Schemas::new(alloc);
    let node = insert_structure(alloc, &mut table, SIZES)?;
    if table.get(node).is_none() {
        return Err(Failed);
    }
    let response = sample_response(alloc)?;
    for _ in 0..times {
        value_of(alloc, &table, node, &response)?;
    }
    Ok(())
}

/// Writes the response of that output, so many times, and drops each.
pub fn write_responses(alloc: Global, times: u32) -> Result<(), Failed> {
    let mut table = Schemas::new(alloc);
    let node = insert_structure(alloc, &mut table, SIZES)?;
    let Some(schema) = table.get(node) else {
        return Err(Failed);
    };
    if !checked_output(alloc, schema)? {
        return Err(Failed);
    }
    let output = value_of(alloc, &table, node, &sample_response(alloc)?)?;
    let protocol = HttpBindingProtocol::rest_json(JsonCodec);
    json_is_lawful(protocol.codec());
    for _ in 0..times {
        write_response(alloc, &protocol, &output, schema, 200)?;
    }
    Ok(())
}
