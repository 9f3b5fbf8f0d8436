// From RPC to REST.
ghost use Rattle.smithy_gateway.specs.Words.{HasNode, IsCheckedAt};
ghost use Rattle.smithy_gateway.specs.Answers.{IsRest, NoCall};

use crate::GatewayError;
use crate::calls::call_input;
use crate::sending::placed;
use crate::setting::Setting;
use smithy_binding::{HttpBindingProtocol, HttpRpcProtocol};
use smithy_http::Request;
use smithy_schema::{SchemaIndex, Schemas};
use smithy_serde::{Codec, OmitFlags};
use std::alloc::Global;

/// The request of the input that a request posts, placed by `rest` with the default headers that `omit` leaves (Smithy, HTTP
/// protocol bindings). The input is the one typed input in normal form of whose document the body is the text in the codec
/// of `rpc`. Its document is nested at most 100 deep, as far as a codec reads back. The target and the headers of the
/// request are not looked at.
///
/// `NotPlaced` exactly where the method is not `POST` or there is no such input. So a body in another layout, a field that
/// no member of the schema has, or a value that its member has in another form, as an empty list of a query member, is of no
/// input. `OutOfMemory` where memory was wanted and not there. Takes memory: for what is read of the body, for a request
/// that is placed and recovered, for the text of the input, and for the new request. Conditions: the schema stands in the
/// table, `checked_input` holds of it, and both codecs are lawful.
pub fn to_rest<C: Codec, D: Codec>(
    alloc: Global,
    rest: &HttpBindingProtocol<C>,
    rpc: &HttpRpcProtocol<D>,
    request: &Request,
    table: &Schemas,
    schema: SchemaIndex,
    endpoint: &str,
    omit: OmitFlags,
) -> Result<Request, GatewayError>
    requires node { HasNode table.now schema.0 }
    requires checked { IsCheckedAt table.now schema.0 }
    requires lawful { C.lawful rest.now.codec }
    requires lawful_rpc { D.lawful rpc.now.codec }
    ensures ok { IsRest C.text D.text rest.now rpc.now table.now schema endpoint.now omit request.now result }
    ensures none { NoCall C.text D.text rest.now rpc.now table.now schema endpoint.now omit request.now result }
{
    let Some(node) = table.get(schema) else {
        unreachable!()
    };
    let at = Setting {
        table,
        place: schema,
        node,
        endpoint,
        omit,
    };
    let input = call_input(alloc, rest, rpc, at, request)?;
    placed(alloc, rest, at, &input)
}
