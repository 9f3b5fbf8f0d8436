// Requests: by REST, by remote procedure calls, of a job in JSON, and with a codec of one's own.
ghost use Rattle.std.specs.Prelude.{◌≡◌, false, IsErr};
ghost use Rattle.smithy_json.specs.JsonView.{view};
ghost use Rattle.smithy_schema.specs.References.{schema_of};
ghost use Rattle.smithy_serde.specs.StructValues.{members_of};
ghost use Rattle.smithy_binding.specs.Checked.{checked_input as checked};
ghost use Rattle.smithy_binding.specs.Refusing.{Says};
ghost use Rattle.smithy_job.specs.Jobs.{job};
ghost use Rattle.smithy_job.specs.Tables.{ReadsAs};
ghost use Rattle.uses.specs.AwsBodies.{unplaced};
ghost use Rattle.uses.specs.Answering.{RestAnswers, RpcAnswers, AnswersJob};

use crate::lenient_json::{LenientJson, lenient_is_lawful};
use smithy_binding::{HttpBindingProtocol, HttpRpcProtocol, checked_input};
use smithy_document::{JsonCodec, json_is_lawful};
use smithy_http::Request;
use smithy_job::{Job, read_job};
use smithy_json::JsonValue;
use smithy_model::JobError;
use smithy_schema::SchemaRef;
use smithy_serde::{OmitFlags, SerdeError, StructValue};
use std::alloc::Global;

// The refusal of a schema that no request can be placed by.
pub(crate) fn unplaced(alloc: Global) -> SerdeError
    ensures { Says result unplaced }
{
    SerdeError::invalid_input(alloc, "no request can be placed by the schema")
}

/// The request of an input by REST with bodies of JSON: exactly what the binding traits of its schema call for, or
/// the first fault. It is refused where no request can be placed by the schema. Takes memory.
pub fn rest_request(
    alloc: Global,
    input: &StructValue<'_>,
    schema: SchemaRef<'_>,
    endpoint: &str,
    omit: OmitFlags,
) -> Result<Request, SerdeError>
    ensures answer { RestAnswers (schema_of schema.entry) (members_of input.now) endpoint.now omit result }
    ensures refused { checked (schema_of schema.entry) ≡ false → IsErr result }
{
    if !checked_input(alloc, schema)? {
        return Err(unplaced(alloc));
    }
    let protocol = HttpBindingProtocol::rest_json(JsonCodec);
    json_is_lawful(protocol.codec());
    protocol.serialize_request(alloc, input, schema, endpoint, omit)
}

/// The same with a codec of one's own for the bodies, here one that writes what JSON writes. Takes memory.
pub fn lenient_request(
    alloc: Global,
    input: &StructValue<'_>,
    schema: SchemaRef<'_>,
    endpoint: &str,
    omit: OmitFlags,
) -> Result<Request, SerdeError>
    ensures answer { RestAnswers (schema_of schema.entry) (members_of input.now) endpoint.now omit result }
    ensures refused { checked (schema_of schema.entry) ≡ false → IsErr result }
{
    if !checked_input(alloc, schema)? {
        return Err(unplaced(alloc));
    }
    let protocol = HttpBindingProtocol::rest_json(LenientJson);
    lenient_is_lawful(protocol.codec());
    protocol.serialize_request(alloc, input, schema, endpoint, omit)
}

/// The call with an input: a `POST` of its whole document to the endpoint, whatever its schema says of HTTP. Takes
/// memory.
pub fn rpc_request(
    alloc: Global,
    input: &StructValue<'_>,
    schema: SchemaRef<'_>,
    endpoint: &str,
    omit: OmitFlags,
) -> Result<Request, SerdeError>
    ensures { RpcAnswers (members_of input.now) endpoint.now omit result }
{
    let protocol = HttpRpcProtocol::aws_json(JsonCodec);
    json_is_lawful(protocol.codec());
    protocol.serialize_request(alloc, input, schema, endpoint, omit)
}

/// The request of a job in JSON: a model, the name of one of its operations, and an input. The outer refusal says
/// that it is no job, the inner one that its input can't be sent. Takes memory.
pub fn job_request(
    alloc: Global,
    value: &JsonValue<'_>,
) -> Result<Result<Request, SerdeError>, JobError>
    ensures { ReadsAs AnswersJob (job (view value.now)) result }
{
    let Job {
        table,
        index,
        further,
        writes,
        endpoint,
        omit,
    } = read_job(alloc, value)?;
    let Some(schema) = table.get(index) else {
        unreachable!()
    };
    let nodes = further.as_ref().unwrap_or(&table);
    let input = StructValue::with_writes(nodes, index, writes);
    Ok(rest_request(alloc, &input, schema, endpoint, omit))
}
