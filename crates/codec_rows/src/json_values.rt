// Values of JSON, and the documents that they are.
use crate::given::input_of;
use crate::json_text::document_text;
use crate::told::{answered, optional};
use serde_json::Value;
use smithy_json::{
    JsonError, JsonValue, Scratch, are_ascending, document_of, json_end, read_document, read_json,
    value_named, whole_number,
};
use smithy_types::{Document, Number, Text};
use std::alloc::Global;
use test_rows::{Failed, items_of, text_of};

/// What a call answers for the JSON under `text`, or the names under `names`.
pub fn answer(alloc: Global, call: &str, given: &Value) -> Result<Option<Text>, Failed> {
    let text = match call {
        "read_document" => {
            let input = input_of(alloc, given)?;
            document_told(alloc, read_document(alloc, input.as_slice()))?
        }
        "document_of" => of_value(alloc, call, given)?,
        "read_json" => of_value(alloc, call, given)?,
        "json_end" => end_told(alloc, given)?,
        "value_named" => of_value(alloc, call, given)?,
        "JsonValue::get" => of_value(alloc, call, given)?,
        "JsonValue::as_array" => of_value(alloc, call, given)?,
        "are_ascending" => ascending(alloc, given)?,
        _ => return Ok(None),
    };
    Ok(Some(text))
}

fn document_told(alloc: Global, read: Result<Document, JsonError>) -> Result<Text, Failed> {
    match read {
        Ok(document) => answered(alloc, document_text(alloc, &document)),
        Err(error) => error_told(alloc, error),
    }
}

fn error_told(alloc: Global, error: JsonError) -> Result<Text, Failed> {
    Ok(match error {
        JsonError::Unreadable => Text::from_str(alloc, "Err Unreadable")?,
        JsonError::OutOfMemory => Text::from_str(alloc, "Err OutOfMemory")?,
    })
}

// How many of the bytes are the front of a JSON text, and whether they are one.
fn end_told(alloc: Global, given: &Value) -> Result<Text, Failed> {
    let input = input_of(alloc, given)?;
    let bytes = input.as_slice();
    let Ok(end) = json_end(alloc, bytes) else {
        return Err(Failed);
    };
    let mut scratch = Scratch::new(alloc);
    let read = match read_json(alloc, bytes, &mut scratch) {
        Ok(_) => "read",
        Err(_) => "unread",
    };
    let length = bytes.len();
    Ok(Text::from_string(format!(in alloc; "{end} of {length}, {read}")?))
}

fn of_value(alloc: Global, call: &str, given: &Value) -> Result<Text, Failed> {
    let input = input_of(alloc, given)?;
    let mut scratch = Scratch::new(alloc);
    let value = match read_json(alloc, input.as_slice(), &mut scratch) {
        Ok(value) => value,
        Err(error) => return error_told(alloc, error),
    };
    match call {
        "document_of" => document_told(alloc, document_of(alloc, &value)),
        "read_json" => value_told(alloc, &value),
        "JsonValue::as_array" => found_told(alloc, value.as_array().and_then(|all| all.first())),
        "value_named" => {
            let members = value.as_object().ok_or(Failed)?;
            found_told(alloc, value_named(members, text_of(given, "name")?))
        }
        _ => found_told(alloc, value.get(text_of(given, "name")?)),
    }
}

fn found_told(alloc: Global, found: Option<&JsonValue<'_>>) -> Result<Text, Failed> {
    match found {
        Some(value) => value_told(alloc, value),
        None => optional(alloc, None),
    }
}

fn value_told(alloc: Global, value: &JsonValue<'_>) -> Result<Text, Failed> {
    let mut text = Text::from_str(alloc, "")?;
    push_value(alloc, value, &mut text)?;
    Ok(text)
}

// A value as JSON without escapes, a float as `float`.
#[cycle(json)]
fn push_value(alloc: Global, value: &JsonValue<'_>, text: &mut Text) -> Result<(), Failed> {
    match value {
        JsonValue::Null => {
            text.push_str("null")?;
            Ok(())
        }
        JsonValue::Bool(_) => push_truth(value, text),
        JsonValue::Number(_) => push_number(alloc, value, text),
        JsonValue::String(_) => push_text(value, text),
        JsonValue::Array(items) => push_items(alloc, items, text),
        JsonValue::Object(members) => push_members(alloc, members, text),
    }
}

#[cycle(json)]
fn push_items(alloc: Global, items: &Vec<JsonValue<'_>>, text: &mut Text) -> Result<(), Failed> {
    text.push_str("[")?;
    for item in items {
        push_value(alloc, item, text)?;
        text.push_str(",")?;
    }
    text.push_str("]")?;
    Ok(())
}

#[cycle(json)]
fn push_members(
    alloc: Global,
    members: &Vec<(&str, JsonValue<'_>)>,
    text: &mut Text,
) -> Result<(), Failed> {
    text.push_str("{")?;
    for member in members {
        text.push_str(member.0)?;
        text.push_str(":")?;
        push_value(alloc, &member.1, text)?;
        text.push_str(",")?;
    }
    text.push_str("}")?;
    Ok(())
}

fn push_number(alloc: Global, value: &JsonValue<'_>, text: &mut Text) -> Result<(), Failed> {
    let JsonValue::Number(number) = value else {
        return Err(Failed);
    };
    let told = match (whole_number(number), value.as_u64()) {
        (Some(Number::PosInt(whole)), Some(same)) if whole == same => {
            format!(in alloc; "{whole}")?
        }
        (Some(Number::NegInt(whole)), None) => format!(in alloc; "{whole}")?,
        (None, None) => String::from_str(alloc, "float")?,
        _ => return Err(Failed),
    };
    text.push_str(told.as_str())?;
    Ok(())
}

fn push_truth(value: &JsonValue<'_>, text: &mut Text) -> Result<(), Failed> {
    match value.as_bool() {
        Some(true) => text.push_str("true")?,
        Some(false) => text.push_str("false")?,
        None => return Err(Failed),
    }
    Ok(())
}

fn push_text(value: &JsonValue<'_>, text: &mut Text) -> Result<(), Failed> {
    text.push_str("\"")?;
    text.push_str(value.as_str().ok_or(Failed)?)?;
    text.push_str("\"")?;
    Ok(())
}

// Whether names stand in order, each once.
fn ascending(alloc: Global, given: &Value) -> Result<Text, Failed> {
    let mut members = Vec::new(alloc);
    for name in items_of(given, "names")? {
        let name = name.as_str().ok_or(Failed)?;
        if members.push((name, JsonValue::Null)).is_err() {
            return Err(Failed);
        }
    }
    let is_ascending = are_ascending(members.as_slice());
    Ok(Text::from_string(format!(in alloc; "{is_ascending}")?))
}
