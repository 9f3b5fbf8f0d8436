// From REST to RPC.
ghost use Rattle.std.specs.Prelude.{◌≡◌, IsTrue, IfOk};
ghost use Rattle.smithy_gateway.specs.Words.{is_legal_target, HasNode, endpoint_or_slash, IsCheckedAt};
ghost use Rattle.smithy_gateway.specs.Answers.{IsRpc, call_headers, NoInput};

use crate::GatewayError;
use crate::sending::posted;
use smithy_binding::{HttpBindingProtocol, HttpRpcProtocol};
use smithy_http::Request;
use smithy_recovery::recover_request;
use smithy_schema::{SchemaIndex, Schemas};
use smithy_serde::{Codec, OmitFlags};
use std::alloc::Global;

/// The request that posts the input of a request whole. The input is the one typed input that is its own normal form and
/// whose request, placed by `rest` with the default headers that `omit` leaves, has the facts of this one
/// (`recover_request`). The body is the text of its document in the codec of `rpc`; the method is `POST`, the target
/// `rpc_endpoint`, or `/` where that is empty, and the headers are the defaults that `rpc_omit` leaves.
///
/// `NotPlaced` exactly where no typed input has a request with these facts. `OutOfMemory` where memory was wanted and not
/// there. Takes memory: what `recover_request` takes, and the new request. Conditions: the schema stands in the table,
/// `checked_input` holds of it, both codecs are lawful, and `rpc_endpoint` is empty or a legal target (RFC 7230, section
/// 5.3).
pub fn to_rpc<C: Codec, D: Codec>(
    alloc: Global,
    rest: &HttpBindingProtocol<C>,
    rpc: &HttpRpcProtocol<D>,
    request: &Request,
    table: &Schemas,
    schema: SchemaIndex,
    endpoint: &str,
    omit: OmitFlags,
    rpc_endpoint: &str,
    rpc_omit: OmitFlags,
) -> Result<Request, GatewayError>
    requires node { HasNode table.now schema.0 }
    requires checked { IsCheckedAt table.now schema.0 }
    requires lawful { C.lawful rest.now.codec }
    requires lawful_rpc { D.lawful rpc.now.codec }
    requires endpoint { IsTrue (is_legal_target (endpoint_or_slash rpc_endpoint.now)) }
    ensures ok { IsRpc C.text D.text rest.now rpc.now table.now schema endpoint.now omit request.now result }
    ensures target { IfOk result (λ q. q.target ≡ endpoint_or_slash rpc_endpoint.now) }
    ensures headers { IfOk result (λ q. q.headers ≡ call_headers rpc.now rpc_omit q.body) }
    ensures none { NoInput C.text rest.now table.now schema endpoint.now omit request.now result }
{
    let Some(node) = table.get(schema) else {
        unreachable!()
    };
    let input = recover_request(alloc, rest, request, table, schema, endpoint, omit)?;
    posted(alloc, rpc, node, &input, rpc_endpoint, rpc_omit)
}
