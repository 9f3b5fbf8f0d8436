// The requests of inputs by the core's protocols, with bodies of a codec.
ghost use Rattle.std.specs.Prelude.{IsTrue};
ghost use Rattle.smithy_schema.specs.References.{schema_of};
ghost use Rattle.smithy_binding.specs.Checked.{checked_input};
ghost use Rattle.smithy_aws.specs.views.ReadyInputs.{ready_writes};
ghost use Rattle.smithy_aws.specs.views.Sent.{IsPlaced, IsPosted};

use crate::aws_json::AwsJsonVersion;
use crate::ready::ReadyInput;
use smithy_binding::{HttpBindingProtocol, HttpRpcProtocol};
use smithy_http::Request;
use smithy_schema::SchemaRef;
use smithy_serde::{Codec, OmitFlags, SerdeError, StructValue};
use std::alloc::Global;

/// The request of an input that is ready, placed by the binding traits of its schema, with a body of JSON by a codec; or its first
/// fault. Takes memory. Conditions: a request can be placed by the schema, and the codec is lawful.
pub(crate) fn placed_by<C: Codec + Drop>(
    alloc: Global,
    codec: C,
    schema: SchemaRef<'_>,
    input: &ReadyInput<'_>,
    endpoint: &str,
    omit: OmitFlags,
) -> Result<Request, SerdeError>
    requires checked { IsTrue (checked_input (schema_of schema)) }
    requires lawful { C.lawful codec }
    ensures { IsPlaced (C.text codec) schema.entry (ready_writes input.now) endpoint.now omit result }
{
    let protocol = HttpBindingProtocol::rest_json(codec);
    protocol.serialize_request(alloc, input, schema, endpoint, omit)
}

/// The request of an input that is posted whole, with a body of a version's content type by a codec; or its first fault. Takes
/// memory. Condition: the codec is lawful.
pub(crate) fn posted_by<C: Codec + Drop>(
    alloc: Global,
    codec: C,
    version: AwsJsonVersion,
    schema: SchemaRef<'_>,
    input: &StructValue<'_>,
    endpoint: &str,
    omit: OmitFlags,
) -> Result<Request, SerdeError>
    requires { C.lawful codec }
    ensures { IsPosted (C.text codec) version input.now endpoint.now omit result }
{
    let protocol = HttpRpcProtocol::new(version.protocol_id(), codec, version.content_type());
    protocol.serialize_request(alloc, input, schema, endpoint, omit)
}
