// A client of Amazon DynamoDB's `GetItem` by AWS JSON 1.0, with its schemas read from the service's model in JSON.
ghost use Rattle.std.specs.Prelude.{◌≡◌, codes};
ghost use Rattle.smithy_ids.specs.ShapeIdParts.{parts_of};
ghost use Rattle.smithy_json.specs.JsonView.{view};
ghost use Rattle.smithy_job.specs.Jobs.{job};
ghost use Rattle.smithy_job.specs.Tables.{ReadsAs};
ghost use Rattle.uses.specs.GetItem.{AnswersGetItem, AnswersInput};

use smithy_aws::{AwsJson, AwsJsonVersion};
use smithy_http::Request;
use smithy_ids::ShapeId;
use smithy_job::{Job, read_job};
use smithy_json::JsonValue;
use smithy_model::JobError;
use smithy_schema::SchemaRef;
use smithy_serde::{OmitFlags, SerdeError, StructValue};
use std::alloc::Global;

// The service.
fn service() -> ShapeId<'static>
    ensures { (parts_of result).shape_name ≡ codes "DynamoDB_20120810" }
{
    ShapeId::from_parts(
        "com.amazonaws.dynamodb#DynamoDB_20120810",
        "com.amazonaws.dynamodb",
        "DynamoDB_20120810",
    )
}

// The operation.
fn operation() -> ShapeId<'static>
    ensures { (parts_of result).shape_name ≡ codes "GetItem" }
{
    ShapeId::from_parts(
        "com.amazonaws.dynamodb#GetItem",
        "com.amazonaws.dynamodb",
        "GetItem",
    )
}

/// The request of an input: the `POST` of its JSON with the operation's name in `x-amz-target`, or the first fault. Takes memory.
pub fn get_item_request(
    alloc: Global,
    schema: SchemaRef<'_>,
    input: StructValue<'_>,
    endpoint: &str,
    omit: OmitFlags,
) -> Result<Request, SerdeError>
    ensures { AnswersInput schema.entry input.entry endpoint.now omit result }
{
    let call = AwsJson {
        version: AwsJsonVersion::V1_0,
        service: service(),
        is_query_compatible: false,
    };
    call.request(alloc, schema, operation(), input, endpoint, omit)
}

/// The request of a job in JSON, whose model has the operation's input. The outer refusal says that it is no job, the inner one that
/// its input can't be sent. Takes memory.
pub fn get_item_of_job(
    alloc: Global,
    value: &JsonValue<'_>,
) -> Result<Result<Request, SerdeError>, JobError>
    ensures { ReadsAs AnswersGetItem (job (view value.now)) result }
{
    let Job {
        table,
        index,
        further,
        writes,
        endpoint,
        omit,
    } = read_job(alloc, value)?;
    let Some(schema) = table.get(index) else {
        unreachable!()
    };
    let nodes = further.as_ref().unwrap_or(&table);
    let input = StructValue::with_writes(nodes, index, writes);
    Ok(get_item_request(alloc, schema, input, endpoint, omit))
}
