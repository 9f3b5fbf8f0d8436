// The jobs whose inputs are sent.
ghost use Rattle.std.specs.Prelude.{◌≡◌, codes, IsTrue};
ghost use Rattle.smithy_json.specs.JsonView.{view};
ghost use Rattle.smithy_schema.specs.References.{schema_of};
ghost use Rattle.smithy_serde.specs.StructValues.{members_of};
ghost use Rattle.smithy_binding.specs.Checked.{checked_input as checked};
ghost use Rattle.smithy_bind.specs.Outcome.{json_bodies, sent_by, sent_job};
ghost use Rattle.smithy_bind.specs.views.AnswerView.{Gives, Sends, IsPlaced, IsPosted};

use crate::told::{Answer, told};
use smithy_binding::{HttpBindingProtocol, HttpRpcProtocol, LowerHeaderNames, checked_input};
use smithy_http::Request;
use smithy_job::{Job, Sending, read_job};
use smithy_json::JsonValue;
use smithy_model::JobError;
use smithy_schema::{SchemaExtension, SchemaRef};
use smithy_serde::{Codec, OmitFlags, SerdeError, StructValue};
use smithy_types::Text;
use std::alloc::Global;

/// The names of headers in lower case, beside a table.
pub type HeaderColumn<'t> = SchemaExtension<'t, Option<Text>, LowerHeaderNames>;

/// What is to be told of the job that a JSON value is. Takes memory. No job where it is none, or where its input can't be sent by
/// its schema. Condition: the codec, which writes the body, is lawful.
#[tactic(auto, unfolding(crate::specs::Outcome::sent_job))]
pub fn job_told<C: Codec + Drop>(
    alloc: Global,
    sending: Sending,
    codec: C,
    value: &JsonValue<'_>,
) -> Result<Answer, JobError>
    requires { C.lawful codec }
    ensures { Gives (sent_job (sent_by sending (json_bodies (C.text codec))) (view value.now)) result }
{
    let Job {
        table,
        index,
        further,
        writes,
        endpoint,
        omit,
    } = read_job(alloc, value)?;
    let Some(schema) = table.get(index) else {
        unreachable!()
    };
    let nodes = further.as_ref().unwrap_or(&table);
    let input = StructValue::with_writes(nodes, index, writes);
    input_told(alloc, sending, codec, schema, &input, endpoint, omit)
}

// What is to be told of an input, by its schema.
#[tactic(auto, unfolding(crate::specs::Outcome::answered, crate::specs::Outcome::called))]
fn input_told<C: Codec + Drop>(
    alloc: Global,
    sending: Sending,
    codec: C,
    schema: SchemaRef<'_>,
    input: &StructValue<'_>,
    endpoint: &str,
    omit: OmitFlags,
) -> Result<Answer, JobError>
    requires { C.lawful codec }
    ensures { Sends sending (C.text codec) schema.entry (members_of input.now) endpoint.now omit result }
{
    match sending {
        Sending::Rest => {
            if !checked_input(alloc, schema)? {
                return Err(JobError::NoJob);
            }
            told(alloc, placed(alloc, codec, schema, input, endpoint, omit))
        }
        Sending::Rpc => told(alloc, posted(alloc, codec, schema, input, endpoint, omit)),
    }
}

/// The request of an input by its schema, with a body of JSON by a codec (AWS restJson1), or its first fault. Takes memory.
/// Conditions: a request can be placed by the schema, and the codec is lawful.
pub fn placed<C: Codec + Drop>(
    alloc: Global,
    codec: C,
    schema: SchemaRef<'_>,
    input: &StructValue<'_>,
    endpoint: &str,
    omit: OmitFlags,
) -> Result<Request, SerdeError>
    requires checked { IsTrue (checked (schema_of schema)) }
    requires lawful { C.lawful codec }
    ensures { IsPlaced (C.text codec) schema.entry input.now endpoint.now omit result }
{
    let protocol = HttpBindingProtocol::rest_json(codec);
    placed_by(alloc, &protocol, schema, input, endpoint, omit)
}

/// The same by a protocol of bodies of JSON, whose codec is lawful.
pub fn placed_by<C: Codec>(
    alloc: Global,
    protocol: &HttpBindingProtocol<C>,
    schema: SchemaRef<'_>,
    input: &StructValue<'_>,
    endpoint: &str,
    omit: OmitFlags,
) -> Result<Request, SerdeError>
    requires checked { IsTrue (checked (schema_of schema)) }
    requires lawful { C.lawful protocol.now.codec }
    requires json { protocol.now.content_type ≡ codes "application/json" }
    ensures { IsPlaced (C.text protocol.now.codec) schema.entry input.now endpoint.now omit result }
{
    protocol.serialize_request(alloc, input, schema, endpoint, omit)
}

/// The same for one of many inputs, with a column of the header names in lower case, which is beside the schema's table.
pub fn placed_among<C: Codec>(
    alloc: Global,
    protocol: &HttpBindingProtocol<C>,
    names: &mut HeaderColumn<'_>,
    schema: SchemaRef<'_>,
    input: &StructValue<'_>,
    endpoint: &str,
    omit: OmitFlags,
) -> Result<Request, SerdeError>
    requires checked { IsTrue (checked (schema_of schema)) }
    requires lawful { C.lawful protocol.now.codec }
    requires json { protocol.now.content_type ≡ codes "application/json" }
    requires beside { names.old.table ≡ (schema_of schema).table }
    ensures placed { IsPlaced (C.text protocol.now.codec) schema.entry input.now endpoint.now omit result }
    ensures beside { names.new.table ≡ (schema_of schema.entry).table }
{
    protocol.serialize_request_cached(alloc, input, schema, endpoint, omit, names)
}

// The request of an input that is posted whole, as a body of JSON by a codec, or its first fault.
#[tactic(auto, using(crate::proofs::WriteLemmas::writes_listed))]
fn posted<C: Codec + Drop>(
    alloc: Global,
    codec: C,
    schema: SchemaRef<'_>,
    input: &StructValue<'_>,
    endpoint: &str,
    omit: OmitFlags,
) -> Result<Request, SerdeError>
    requires { C.lawful codec }
    ensures { IsPosted (C.text codec) (members_of input.now) endpoint.now omit result }
{
    let protocol = HttpRpcProtocol::aws_json(codec);
    protocol.serialize_request(alloc, input, schema, endpoint, omit)
}
