// The command `aws request`: the request of an input by a protocol of AWS.
ghost use Rattle.smithy_json.specs.JsonView.{view};
ghost use Rattle.smithy_serde.specs.StructValues.{members_of};
ghost use Rattle.smithy_job.specs.AwsCallView.{call_seen};
ghost use Rattle.smithy_bind.specs.AwsRequesting.{aws_sent};
ghost use Rattle.smithy_bind.specs.Outcome.{aws_requested, decimal_job_sent, json_bodies, sent_by_aws};
ghost use Rattle.smithy_bind.specs.views.AnswerView.{Gives};
ghost use Rattle.smithy_bind.specs.views.AwsView.{SendsByAws, SendsCall, SendsRestJson1};

use crate::sending::job_told;
use crate::told::{Answer, told};
use smithy_aws::{AwsJson, AwsJsonVersion, RestJson1Input};
use smithy_job::{AwsCall, AwsJsonCall, Job, Sending, aws_call_of, read_job_with_floats};
use smithy_json::JsonValue;
use smithy_model::{Floats, JobError};
use smithy_schema::SchemaRef;
use smithy_serde::{Codec, OmitFlags, StructValue};
use std::alloc::Global;

/// What is to be told of the job that a JSON value is, by the protocol of AWS that it names; where it names none, what `request`
/// answers, with bodies of the codec. Takes memory. No job where it is none, or where no request can be made by its schema.
/// Condition: the codec is lawful.
#[tactic(auto, unfolding(crate::specs::Outcome::aws_requested))]
pub fn aws_requested<C: Codec + Drop>(
    alloc: Global,
    codec: C,
    value: &JsonValue<'_>,
) -> Result<Answer, JobError>
    requires { C.lawful codec }
    ensures { Gives (aws_requested (json_bodies (C.text codec)) (view value.now)) result }
{
    match value.get("protocol") {
        Some(protocol) => named_told(alloc, protocol, value),
        None => job_told(alloc, Sending::Rest, codec, value),
    }
}

// What is to be told of a job by the protocol that a value names.
fn named_told(
    alloc: Global,
    protocol: &JsonValue<'_>,
    value: &JsonValue<'_>,
) -> Result<Answer, JobError>
    ensures { Gives (sent_by_aws (view protocol.now) (view value.now)) result }
{
    match aws_call_of(protocol, value) {
        Some(call) => call_told(alloc, call, value),
        None => Err(JobError::NoJob),
    }
}

// What is to be told of a job whose input is sent so, and whose floats are decimals.
#[tactic(auto, unfolding(crate::specs::Outcome::decimal_job_sent))]
fn call_told(alloc: Global, call: AwsCall<'_>, value: &JsonValue<'_>) -> Result<Answer, JobError>
    ensures { Gives (decimal_job_sent (aws_sent (call_seen call.entry)) (view value.now)) result }
{
    let Job {
        table,
        index,
        further,
        writes,
        endpoint,
        omit,
    } = read_job_with_floats(alloc, value, Floats::Decimals)?;
    let Some(schema) = table.get(index) else {
        unreachable!()
    };
    let nodes = further.as_ref().unwrap_or(&table);
    let input = StructValue::with_writes(nodes, index, writes);
    input_told(alloc, call, schema, input, endpoint, omit)
}

// What is to be told of an input, by its schema.
fn input_told(
    alloc: Global,
    call: AwsCall<'_>,
    schema: SchemaRef<'_>,
    input: StructValue<'_>,
    endpoint: &str,
    omit: OmitFlags,
) -> Result<Answer, JobError>
    ensures { SendsByAws call.entry schema.entry (members_of input.entry) endpoint.now omit result }
{
    match call {
        AwsCall::RestJson1 => rest_json1_told(alloc, schema, input, endpoint, omit),
        AwsCall::AwsJson10(call) => {
            aws_json_told(
                alloc,
                AwsJsonVersion::V1_0,
                call,
                schema,
                input,
                endpoint,
                omit,
            )
        }
        AwsCall::AwsJson11(call) => {
            aws_json_told(
                alloc,
                AwsJsonVersion::V1_1,
                call,
                schema,
                input,
                endpoint,
                omit,
            )
        }
    }
}

// What is to be told of an input that is sent by restJson1. No job where no request is made by its schema.
#[tactic(auto, unfolding(crate::specs::AwsRequesting::rest_json1_sent))]
fn rest_json1_told(
    alloc: Global,
    schema: SchemaRef<'_>,
    input: StructValue<'_>,
    endpoint: &str,
    omit: OmitFlags,
) -> Result<Answer, JobError>
    ensures { SendsRestJson1 schema.entry (members_of input.entry) endpoint.now omit result }
{
    let Some(by) = RestJson1Input::new(alloc, schema)? else {
        return Err(JobError::NoJob);
    };
    told(alloc, by.request(alloc, input, endpoint, omit))
}

// What is to be told of an input that is sent by a call of AWS JSON.
#[tactic(auto, unfolding(crate::specs::AwsRequesting::aws_json_sent))]
fn aws_json_told(
    alloc: Global,
    version: AwsJsonVersion,
    call: AwsJsonCall<'_>,
    schema: SchemaRef<'_>,
    input: StructValue<'_>,
    endpoint: &str,
    omit: OmitFlags,
) -> Result<Answer, JobError>
    ensures { SendsCall version call.entry schema.entry (members_of input.entry) endpoint.now omit result }
{
    let by = AwsJson {
        version,
        service: call.service,
        is_query_compatible: call.is_query_compatible,
    };
    told(
        alloc,
        by.request(alloc, schema, call.operation, input, endpoint, omit),
    )
}
