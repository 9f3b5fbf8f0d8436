// The way back: the input of a request.
ghost use Rattle.std.specs.Prelude.{IfOk};
ghost use Rattle.smithy_serde.specs.StoredValues.{HasNode};
ghost use Rattle.uses.specs.WayBack.{HasRequest, LacksInput};

use smithy_binding::{HttpBindingProtocol, checked_input};
use smithy_document::{JsonCodec, json_is_lawful};
use smithy_http::Request;
use smithy_recovery::{RecoverError, recover_request};
use smithy_schema::{SchemaIndex, Schemas};
use smithy_serde::{OmitFlags, StructValue};
use std::alloc::Global;

/// The input of a request by REST with bodies of JSON, by the node at a place: exactly the typed input in normal form that
/// has this request. `NotPlaced` where there is none, or where no request can be placed by the node. Condition: the node is
/// defined. Takes memory.
pub fn input_of<'t>(
    alloc: Global,
    request: &Request,
    table: &'t Schemas,
    place: SchemaIndex,
    endpoint: &str,
    omit: OmitFlags,
) -> Result<StructValue<'t>, RecoverError>
    requires { HasNode table.now place.0 }
    ensures input { IfOk result (HasRequest endpoint.now omit request.now) }
    ensures none { LacksInput table.now place.0 endpoint.now omit request.now result }
{
    let Some(schema) = table.get(place) else {
        unreachable!()
    };
    if !checked_input(alloc, schema)? {
        return Err(RecoverError::NotPlaced);
    }
    let protocol = HttpBindingProtocol::rest_json(JsonCodec);
    json_is_lawful(protocol.codec());
    recover_request(alloc, &protocol, request, table, place, endpoint, omit)
}
