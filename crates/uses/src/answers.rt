// What a response of AWS's JSON protocols is of an operation: its output, or one of its errors, found by the code in the message.
ghost use Rattle.std.specs.Prelude.{Some};
ghost use Rattle.smithy_serde.specs.ReadCalls.{Gives};
ghost use Rattle.smithy_serde.specs.Refusals.{IsRefusal};
ghost use Rattle.smithy_serde.specs.ValueReading.{structure_of};
ghost use Rattle.uses.specs.AwsAnswers.{answered_view, body_answer, body_value, rest_answer, rest_value, unread};

use smithy_aws::{RestJson1Shape, aws_json_value_with, response_error};
use smithy_http::{NonUtf8HeaderHandling, Response};
use smithy_model::ModelTable;
use smithy_registry::ComposedRegistry;
use smithy_schema::{SchemaIndex, Schemas};
use smithy_serde::{SerdeError, StructValue, ValueReader};
use std::alloc::Global;

/// What an operation answered.
#[derive(Drop)]
pub enum Answered<'t> {
    Output(StructValue<'t>),
    /// An error, with the place of its shape.
    Error(SchemaIndex, StructValue<'t>),
}

// The refusal of a shape that no response is read by.
fn unread(alloc: Global) -> SerdeError
    ensures { IsRefusal unread result }
{
    SerdeError::invalid_input(alloc, "no response is read by the shape")
}

// What a response has by the shape at a place.
fn rest_value<'t>(
    alloc: Global,
    response: &Response,
    table: &'t Schemas,
    place: SchemaIndex,
    is_error: bool,
) -> Result<StructValue<'t>, SerdeError>
    ensures { Gives structure_of (Some (rest_value table.now place.0 is_error response.now)) result }
{
    let Some(_node) = table.get(place) else {
        return Err(unread(alloc));
    };
    match RestJson1Shape::new(alloc, table, place, is_error)? {
        Some(shape) => {
            let shape = shape.with_floored_times();
            shape.value(alloc, response, NonUtf8HeaderHandling::Reject)
        }
        None => Err(unread(alloc)),
    }
}

/// What a response of restJson1 is of the operation whose output stands at a place: the output, or the error that it names, with
/// its value; or the first refusal. Fractions of seconds are dropped. The errors have places of the same table. Takes memory.
pub fn rest_answer<'t>(
    alloc: Global,
    response: &Response,
    table: &'t Schemas,
    output: SchemaIndex,
    errors: ComposedRegistry<'_, ValueReader<'t>>,
) -> Result<Answered<'t>, SerdeError>
    ensures { Gives answered_view (Some (rest_answer table.now output.0 errors.entry response.now)) result }
{
    match response_error(alloc, response, errors)? {
        None => {
            let value = rest_value(alloc, response, table, output, false)?;
            Ok(Answered::Output(value))
        }
        Some(error) => {
            let value = rest_value(alloc, response, table, error, true)?;
            Ok(Answered::Error(error, value))
        }
    }
}

// What a body has by the shape at a place.
fn body_value<'t>(
    alloc: Global,
    response: &Response,
    table: &'t Schemas,
    place: SchemaIndex,
) -> Result<StructValue<'t>, SerdeError>
    ensures { Gives structure_of (Some (body_value table.now place.0 response.now)) result }
{
    let Some(_node) = table.get(place) else {
        return Err(unread(alloc));
    };
    aws_json_value_with(alloc, response, table, place, true)
}

/// The same of AWS JSON 1.0 or 1.1, with the output as it is read from a model. The errors have places of a table of their own.
pub fn body_answer<'t>(
    alloc: Global,
    response: &Response,
    output: &'t ModelTable,
    table: &'t Schemas,
    errors: ComposedRegistry<'_, ValueReader<'t>>,
) -> Result<Answered<'t>, SerdeError>
    ensures { Gives answered_view (Some (body_answer output.now table.now errors.entry response.now)) result }
{
    match response_error(alloc, response, errors)? {
        None => {
            let value = body_value(alloc, response, &output.table, output.index)?;
            Ok(Answered::Output(value))
        }
        Some(error) => {
            let value = body_value(alloc, response, table, error)?;
            Ok(Answered::Error(error, value))
        }
    }
}
