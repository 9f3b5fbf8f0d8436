// Requests that are read back, again and again.
ghost use Rattle.smithy_serde.specs.StoredValues.{HasNode};

use crate::failed::Failed;
use smithy_binding::{HttpBindingProtocol, checked_input};
use smithy_document::{JsonCodec, json_is_lawful};
use smithy_http::Request;
use smithy_recovery::recover_request;
use smithy_schema::{SchemaIndex, Schemas};
use smithy_serde::OmitFlags;
use std::alloc::Global;

/// Reads a request back so many times, by the schema at a place of the table, and drops each input. Fails where the schema is no
/// checked one, and where no input has the request.
pub fn read_back(
    alloc: Global,
    table: &Schemas,
    node: SchemaIndex,
    request: &Request,
    times: u32,
) -> Result<(), Failed>
    requires { HasNode table.now node.0 }
{
    let Some(schema) = table.get(node) else {
        unreachable!()
    };
    if !checked_input(alloc, schema)? {
        return Err(Failed);
    }
    let protocol = HttpBindingProtocol::rest_json(JsonCodec);
    json_is_lawful(protocol.codec());
    let keep = OmitFlags::KEEP_ALL;
    for _ in 0..times {
        recover_request(alloc, &protocol, request, table, node, "", keep)?;
    }
    Ok(())
}
