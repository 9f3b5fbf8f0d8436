// The request of an input, by either protocol.
ghost use Rattle.std.specs.Prelude.{IsTrue, Result};
ghost use Rattle.smithy_binding.specs.Faults.{Fault};
ghost use Rattle.smithy_binding.specs.Refusing.{Answers};
ghost use Rattle.smithy_gateway.specs.Words.{result_ok, Request as Sent, schema_of, checked_input, Finds};
ghost use Rattle.smithy_gateway.specs.views.Sending.{Places, Posts};

use crate::setting::Setting;
use smithy_binding::{HttpBindingProtocol, HttpRpcProtocol};
use smithy_http::Request;
use smithy_recovery::RecoverError;
use smithy_schema::SchemaRef;
use smithy_serde::{Codec, OmitFlags, SerdeError, StructValue};
use std::alloc::Global;

// A request that a protocol made. `NotPlaced` where it made none.
fn found(outcome: Result<Request, SerdeError>) -> Result<Request, RecoverError>
    ensures { (is : Result Sent Fault) → Answers outcome is → Finds (λ x. x) result (result_ok is) }
{
    match outcome {
        Ok(request) => Ok(request),
        Err(error) => Err(RecoverError::from(error)),
    }
}

/// The request of an input, placed by what is set. `NotPlaced` where it has none. Takes memory.
pub fn placed<C: Codec>(
    alloc: Global,
    rest: &HttpBindingProtocol<C>,
    at: Setting<'_, '_>,
    input: &StructValue<'_>,
) -> Result<Request, RecoverError>
    requires checked { IsTrue (checked_input (schema_of at.node)) }
    requires lawful { C.lawful rest.now.codec }
    ensures { Places C.text rest.now at.entry input.now result }
{
    found(rest.serialize_request(alloc, input, at.node, at.endpoint, at.omit))
}

/// The request that posts an input whole. `NotPlaced` where it has none. Takes memory.
pub fn posted<D: Codec>(
    alloc: Global,
    rpc: &HttpRpcProtocol<D>,
    schema: SchemaRef<'_>,
    input: &StructValue<'_>,
    endpoint: &str,
    omit: OmitFlags,
) -> Result<Request, RecoverError>
    requires { D.lawful rpc.now.codec }
    ensures { Posts D.text rpc.now input.now endpoint.now omit result }
{
    found(rpc.serialize_request(alloc, input, schema, endpoint, omit))
}
