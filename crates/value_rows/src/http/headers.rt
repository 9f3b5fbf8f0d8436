// Header fields.
use crate::steps::{step_text, step_value};
use crate::telling::Told;
use serde_json::Value;
use smithy_http::{Headers, HttpError};
use smithy_types::Text;
use std::alloc::Global;
use std::borrow::CowStr;
use test_rows::{Failed, item_bytes, item_text, items_of};

/// What the steps on no headers answer, and the pairs behind them.
pub fn headers(alloc: Global, given: &Value) -> Result<Text, Failed> {
    let mut told = Told::new(alloc)?;
    let mut headers = Headers::new(alloc);
    for step in items_of(given, "steps")? {
        take_step(&mut told, &mut headers, step)?;
    }
    tell_pairs(&mut told, &headers)?;
    Ok(told.into_text())
}

/// Tells each pair.
pub fn tell_pairs(told: &mut Told, headers: &Headers) -> Result<(), Failed> {
    for (name, value) in headers.iter_bytes() {
        let field = format!(in told.alloc(); "{name}:")?;
        told.tell_bytes(field.as_str(), value)?;
    }
    Ok(())
}

/// Takes a step on headers, and tells what it answers, unless it is that all went well.
pub fn take_step(told: &mut Told, headers: &mut Headers, step: &Value) -> Result<(), Failed> {
    let name = step_text(step, 1)?;
    match step_text(step, 0)? {
        "get" => told.tell_option(headers.get(name)),
        "get_all" => tell_texts(told, headers, name),
        "get_all_bytes" => tell_values(told, headers, name),
        "copy_without" => copy_without(told.alloc(), headers, name),
        "remove" => {
            headers.remove(name);
            Ok(())
        }
        call => {
            let outcome = put(told.alloc(), headers, call, name, step_value(step, 2)?)?;
            tell_refusal(told, outcome)
        }
    }
}

fn tell_texts(told: &mut Told, headers: &Headers, name: &str) -> Result<(), Failed> {
    told.tell(name)?;
    for text in headers.get_all(name) {
        told.tell_text("text", text)?;
    }
    Ok(())
}

fn tell_values(told: &mut Told, headers: &Headers, name: &str) -> Result<(), Failed> {
    told.tell(name)?;
    for value in headers.get_all_bytes(name) {
        told.tell_bytes("value", value)?;
    }
    Ok(())
}

// A copy takes the place of the headers, which lose a name before they go.
fn copy_without(alloc: Global, headers: &mut Headers, name: &str) -> Result<(), Failed> {
    let copy = headers.copy(alloc)?;
    headers.remove(name);
    *headers = copy;
    Ok(())
}

/// Tells a refusal, and nothing where there is none.
pub fn tell_refusal(told: &mut Told, outcome: Result<(), HttpError>) -> Result<(), Failed> {
    match outcome {
        Ok(()) => Ok(()),
        Err(error) => told.tell_text("Err", format!(in told.alloc(); "{error:?}")?.as_str()),
    }
}

// Puts a value by one of the calls that do.
fn put(
    alloc: Global,
    headers: &mut Headers,
    call: &str,
    name: &str,
    value: &Value,
) -> Result<Result<(), HttpError>, Failed> {
    match call {
        "append" => Ok(headers.append(name, item_bytes(alloc, value)?.as_slice())),
        "try_insert" => Ok(headers.try_insert(name, item_text(alloc, value)?.as_str())),
        "insert_text" => {
            let text = item_text(alloc, value)?;
            Ok(headers.insert_text(name, CowStr::Borrowed(text.as_str())))
        }
        "insert_owned" => {
            let text = item_text(alloc, value)?.into_string();
            Ok(headers.insert_text(name, CowStr::Owned(text)))
        }
        "insert_lower" => insert_lower(
            alloc,
            headers,
            name,
            item_text(alloc, value)?.into_string(),
        ),
        "insert_each" => Ok(insert_each(headers, name, item_text(alloc, value)?.as_str())),
        _ => Err(Failed),
    }
}

// Puts the value under the name in lower case.
fn insert_lower(
    alloc: Global,
    headers: &mut Headers,
    name: &str,
    text: String,
) -> Result<Result<(), HttpError>, Failed> {
    let lower = Text::from_string(name.to_ascii_lowercase(alloc)?);
    Ok(headers.insert_lower(lower, CowStr::Owned(text)))
}

// Puts the value under each of these names, which stand between spaces.
fn insert_each(headers: &mut Headers, names: &str, value: &str) -> Result<(), HttpError> {
    for name in names.split(' ') {
        headers.try_insert(name, value)?;
    }
    Ok(())
}
