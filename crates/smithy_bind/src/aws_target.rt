// What a response is read by where a protocol of AWS is named, and what is read of it.
ghost use Rattle.std.specs.Prelude.{◌≡◌, IfOk};
ghost use Rattle.smithy_serde.specs.StoredValues.{HasNode};
ghost use Rattle.smithy_aws.specs.ResponseShapes.{shape_of};
ghost use Rattle.smithy_bind.specs.AwsResponding.{floored_if};
ghost use Rattle.smithy_bind.specs.views.AwsView.{IsByFor, IsTargetFor, MakesValueText, NamesReply, ReadsAwsJson, ReadsByAws, ReadsRestJson1, RepliesByAws};
ghost use Rattle.smithy_bind.specs.views.ReplyView.{IsExpectable, IsSound};

use crate::coded::error_of_code;
use crate::json_value::document_text;
use crate::reply::Reply;
use crate::target::{By, Target};
use smithy_aws::{RestJson1Shape, aws_json_value_with};
use smithy_job::{AwsProtocol, AwsReading, Expected, ExpectedIn, Message};
use smithy_model::JobError;
use smithy_registry::sanitize_error_code;
use smithy_schema::{SchemaIndex, Schemas};
use smithy_serde::{SerdeError, StructValue};
use smithy_types::{Blob, OutOfMemory};
use std::alloc::Global;

/// What a response is read by that is expected so. Takes memory. Condition: some job expects that.
pub fn aws_target<'t>(alloc: Global, expected: ExpectedIn<'t>) -> Result<Target<'t>, OutOfMemory>
    requires { IsExpectable expected.table expected.expected }
    ensures { IfOk result (IsTargetFor expected.entry) }
{
    let ExpectedIn { table, expected } = expected;
    let by = by_expected(alloc, &table, &expected)?;
    Ok(Target { table, by })
}

fn by_expected<'t>(
    alloc: Global,
    table: &Schemas,
    expected: &Expected<'t>,
) -> Result<By<'t>, OutOfMemory>
    requires { IsExpectable table.now expected.now }
    ensures { IfOk result (IsByFor table.now expected.now) }
{
    match expected {
        Expected::Output(place) => Ok(By::Schema {
            place: *place,
            is_error: false,
            is_coded: false,
        }),
        Expected::Error(place) => Ok(By::Schema {
            place: *place,
            is_error: true,
            is_coded: false,
        }),
        Expected::Coded(error) => match error_of_code(alloc, table, error)? {
            Some(place) => Ok(By::Schema {
                place,
                is_error: true,
                is_coded: true,
            }),
            None => Ok(By::Unknown(error.code)),
        },
    }
}

/// What is read of a response by it, or the first refusal. Takes memory. No job where no response can be read by its schema.
/// Condition: it is what some response is read by.
pub fn aws_reply<'r>(
    alloc: Global,
    target: &'r Target<'_>,
    reading: AwsReading,
    message: &Message,
) -> Result<Result<Reply<'r>, SerdeError>, JobError>
    requires { IsSound target.now }
    ensures { RepliesByAws reading target.now message.now result }
{
    match target.by {
        By::Schema {
            place,
            is_error,
            is_coded,
        } => {
            let text = text_at(alloc, reading, &target.table, place, is_error, message)?;
            Ok(named(text, target.name_at(place, is_coded)))
        }
        By::Unknown(code) => {
            Ok(Err(SerdeError::unknown_member(alloc, sanitize_error_code(code))))
        }
    }
}

// A text that was made is read of an error with this name, where there is one.
fn named<'r>(
    text: Result<Blob, SerdeError>,
    error: Option<&'r str>,
) -> Result<Reply<'r>, SerdeError>
    ensures { NamesReply text error.entry result }
{
    match text {
        Ok(text) => Ok(Reply { error, text }),
        Err(refusal) => Err(refusal),
    }
}

// The JSON text of what is read of a response by the node at an index.
fn text_at(
    alloc: Global,
    reading: AwsReading,
    table: &Schemas,
    place: SchemaIndex,
    is_error: bool,
    message: &Message,
) -> Result<Result<Blob, SerdeError>, JobError>
    requires { HasNode table.now place.0 }
    ensures { ReadsByAws reading table.now place.0 is_error message.now result }
{
    let floors_times = reading.floors_times;
    match reading.protocol {
        AwsProtocol::RestJson1 => {
            rest_json1_text(alloc, floors_times, table, place, is_error, message)
        }
        AwsProtocol::AwsJson10 => Ok(aws_json_text(alloc, floors_times, table, place, message)),
        AwsProtocol::AwsJson11 => Ok(aws_json_text(alloc, floors_times, table, place, message)),
    }
}

// The same by AWS JSON, whatever the node.
fn aws_json_text(
    alloc: Global,
    floors_times: bool,
    table: &Schemas,
    place: SchemaIndex,
    message: &Message,
) -> Result<Blob, SerdeError>
    requires { HasNode table.now place.0 }
    ensures { ReadsAwsJson floors_times table.now place.0 message.now result }
{
    let response = &message.response;
    let value = aws_json_value_with(alloc, response, table, place, floors_times);
    value_text(alloc, table, place, value)
}

// The same by restJson1. No job where no response can be read by the node.
fn rest_json1_text(
    alloc: Global,
    floors_times: bool,
    table: &Schemas,
    place: SchemaIndex,
    is_error: bool,
    message: &Message,
) -> Result<Result<Blob, SerdeError>, JobError>
    requires { HasNode table.now place.0 }
    ensures { ReadsRestJson1 floors_times table.now place.0 is_error message.now result }
{
    let Some(shape) = RestJson1Shape::new(alloc, table, place, is_error)? else {
        return Err(JobError::NoJob);
    };
    let shape = floored_if(floors_times, shape);
    let value = shape.value(alloc, &message.response, message.policy);
    Ok(value_text(alloc, table, place, value))
}

// The shape, which drops fractions of seconds where that is asked.
fn floored_if<'t>(floors_times: bool, shape: RestJson1Shape<'t>) -> RestJson1Shape<'t>
    ensures { shape_of result ≡ floored_if floors_times (shape_of shape.entry) }
{
    if floors_times {
        shape.with_floored_times()
    } else {
        shape
    }
}

// The JSON text of a value that was read by the node at an index.
#[tactic(auto, using(crate::proofs::ReplyLemmas::value_refused, crate::proofs::ReplyLemmas::value_text))]
fn value_text(
    alloc: Global,
    table: &Schemas,
    place: SchemaIndex,
    value: Result<StructValue<'_>, SerdeError>,
) -> Result<Blob, SerdeError>
    requires { HasNode table.now place.0 }
    ensures { MakesValueText value.entry result }
{
    let Some(schema) = table.get(place) else {
        unreachable!()
    };
    document_text(alloc, schema, &value?)
}
