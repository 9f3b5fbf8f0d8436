// The gateway: a request by REST as a remote procedure call, and back.
ghost use Rattle.std.specs.Prelude.{◌≡◌, IfErr, IfOk};
ghost use Rattle.smithy_schema.specs.References.{schema_of};
ghost use Rattle.smithy_serde.specs.StoredValues.{HasNode};
ghost use Rattle.smithy_binding.specs.Checked.{checked_input as checked};
ghost use Rattle.smithy_recovery.specs.declared.error.RecoverError.TheVariants as recover_error;
ghost use Rattle.uses.specs.Gateway.{IsCallOf, IsRequestOf, LacksCall, LacksInput};

use smithy_binding::{HttpBindingProtocol, HttpRpcProtocol, checked_input};
use smithy_document::{JsonCodec, json_is_lawful};
use smithy_gateway::{GatewayError, to_rest, to_rpc};
use smithy_http::Request;
use smithy_schema::{SchemaIndex, SchemaRef, Schemas};
use smithy_serde::OmitFlags;
use std::alloc::Global;

// Whether a request can be placed by the schema.
fn is_checked(alloc: Global, schema: SchemaRef<'_>) -> Result<bool, GatewayError>
    ensures value { IfOk result (λ b. b ≡ checked (schema_of schema.entry)) }
    ensures memory { IfErr result (λ e. e ≡ recover_error.OutOfMemory) }
{
    match checked_input(alloc, schema) {
        Ok(is_checked) => Ok(is_checked),
        Err(_) => Err(GatewayError::OutOfMemory),
    }
}

/// The call of the input that a request by REST has, with bodies of JSON, by the node at a place: a `POST` to `/` whose body is the
/// typed input in normal form that has this request. `NotPlaced` where there is none, or where no request can be placed by the
/// node. Condition: the node is defined. Takes memory.
pub fn call_of(
    alloc: Global,
    request: &Request,
    table: &Schemas,
    place: SchemaIndex,
    endpoint: &str,
    omit: OmitFlags,
) -> Result<Request, GatewayError>
    requires { HasNode table.now place.0 }
    ensures call { IsCallOf table.now place endpoint.now omit request.now result }
    ensures none { LacksInput table.now place endpoint.now omit request.now result }
{
    let Some(schema) = table.get(place) else {
        unreachable!()
    };
    if !is_checked(alloc, schema)? {
        return Err(GatewayError::NotPlaced);
    }
    let rest = HttpBindingProtocol::rest_json(JsonCodec);
    let rpc = HttpRpcProtocol::aws_json(JsonCodec);
    json_is_lawful(rest.codec());
    json_is_lawful(rpc.codec());
    to_rpc(
        alloc, &rest, &rpc, request, table, place, endpoint, omit, "", omit,
    )
}

/// The request by REST of the input that a call posts, with bodies of JSON, by the node at a place. `NotPlaced` where it posts no
/// typed input in normal form, nested at most 100 deep, or where no request can be placed by the node. Condition: the node is
/// defined. Takes memory.
pub fn request_of_call(
    alloc: Global,
    call: &Request,
    table: &Schemas,
    place: SchemaIndex,
    endpoint: &str,
    omit: OmitFlags,
) -> Result<Request, GatewayError>
    requires { HasNode table.now place.0 }
    ensures request { IsRequestOf table.now place endpoint.now omit call.now result }
    ensures none { LacksCall table.now place endpoint.now omit call.now result }
{
    let Some(schema) = table.get(place) else {
        unreachable!()
    };
    if !is_checked(alloc, schema)? {
        return Err(GatewayError::NotPlaced);
    }
    let rest = HttpBindingProtocol::rest_json(JsonCodec);
    let rpc = HttpRpcProtocol::aws_json(JsonCodec);
    json_is_lawful(rest.codec());
    json_is_lawful(rpc.codec());
    to_rest(alloc, &rest, &rpc, call, table, place, endpoint, omit)
}
