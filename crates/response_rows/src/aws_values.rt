// The values of responses of AWS's JSON protocols.
use crate::asked::{Asked, asked_of};
use crate::json::json_of;
use crate::told::told;
use serde_json::Value;
use smithy_aws::{RestJson1Shape, aws_json_value, aws_json_value_with};
use smithy_serde::{SerdeError, StructValue};
use smithy_types::Text;
use std::alloc::Global;
use test_rows::Failed;

/// The value of a response as JSON; `None` where restJson1 reads no response by the shape.
pub fn answer(alloc: Global, call: &str, given: &Value) -> Result<Option<Text>, Failed> {
    match call {
        "RestJson1Shape::value" => {
            let asked = asked_of(alloc, given)?;
            Ok(Some(rest_json1_told(alloc, &asked, floors_of(given))?))
        }
        "aws_json_value" => {
            let asked = asked_of(alloc, given)?;
            Ok(Some(aws_json_told(alloc, &asked, floors_of(given))?))
        }
        _ => Ok(None),
    }
}

// Whether fractions of seconds are dropped, where the row says it.
fn floors_of(given: &Value) -> Option<bool> {
    given.get("floors").and_then(Value::as_bool)
}

fn rest_json1_told(alloc: Global, asked: &Asked, floors: Option<bool>) -> Result<Text, Failed> {
    let Some(_node) = asked.table.get(asked.place) else {
        return Err(Failed);
    };
    let Some(shape) = RestJson1Shape::new(alloc, &asked.table, asked.place, asked.is_error)? else {
        return Ok(Text::from_str(alloc, "None")?);
    };
    let shape = match floors {
        Some(true) => shape.with_floored_times(),
        _ => shape,
    };
    value_told(alloc, shape.value(alloc, &asked.response, asked.policy))
}

fn aws_json_told(alloc: Global, asked: &Asked, floors: Option<bool>) -> Result<Text, Failed> {
    let Some(_node) = asked.table.get(asked.place) else {
        return Err(Failed);
    };
    let (response, table, place) = (&asked.response, &asked.table, asked.place);
    match floors {
        Some(floors) => value_told(
            alloc,
            aws_json_value_with(alloc, response, table, place, floors),
        ),
        None => value_told(alloc, aws_json_value(alloc, response, table, place)),
    }
}

fn value_told(alloc: Global, value: Result<StructValue<'_>, SerdeError>) -> Result<Text, Failed> {
    match value {
        Ok(value) => told(alloc, json_of(alloc, &value)),
        Err(refusal) => told(alloc, Err(refusal)),
    }
}
