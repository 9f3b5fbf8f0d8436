// Whole responses.
use crate::asked::{asked_of, body_bytes};
use crate::json::json_of;
use crate::noting::Noting;
use crate::readers::body_reader;
use crate::told::told;
use crate::walking::noted_whole;
use serde_json::Value;
use smithy_response::{read_members, response_value};
use smithy_serde::SerdeError;
use smithy_types::Text;
use std::alloc::Global;
use test_rows::Failed;

/// The value of a response as JSON, with or without its null members; or what calls answer on its members.
pub fn answer(alloc: Global, call: &str, given: &Value) -> Result<Option<Text>, Failed> {
    match call {
        "response_value" => Ok(Some(told(alloc, value_of(alloc, given, false)?)?)),
        "StructValue::present" => Ok(Some(told(alloc, value_of(alloc, given, true)?)?)),
        "read_members" => Ok(Some(members_of(alloc, given)?)),
        _ => Ok(None),
    }
}

fn value_of(
    alloc: Global,
    given: &Value,
    is_present: bool,
) -> Result<Result<Text, SerdeError>, Failed> {
    let asked = asked_of(alloc, given)?;
    let bytes = body_bytes(given, &asked.response);
    let body = body_reader(alloc, bytes)?;
    let Some(_schema) = asked.table.get(asked.place) else {
        return Err(Failed);
    };
    let value = response_value(
        alloc,
        body,
        &asked.response,
        &asked.table,
        asked.place,
        asked.is_error,
        asked.policy,
    );
    match value {
        Ok(value) if is_present => Ok(json_of(alloc, &value.present(alloc)?)),
        Ok(value) => Ok(json_of(alloc, &value)),
        Err(refusal) => Ok(Err(refusal)),
    }
}

fn members_of(alloc: Global, given: &Value) -> Result<Text, Failed> {
    let asked = asked_of(alloc, given)?;
    let schema = asked.table.get(asked.place).ok_or(Failed)?;
    let bytes = body_bytes(given, &asked.response);
    let body = body_reader(alloc, bytes)?;
    let calls = given.get("calls").unwrap_or(given);
    let mut noting = Noting::new(alloc, &asked.table, calls)?;
    let end = read_members(
        alloc,
        body,
        &asked.response,
        schema,
        asked.is_error,
        asked.policy,
        &mut noting,
    );
    noted_whole(alloc, noting, end)
}
