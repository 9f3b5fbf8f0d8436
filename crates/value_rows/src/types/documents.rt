// Documents: lists and members of values that hold no others, and members of lists.
use crate::steps::{step_count, step_text, step_value};
use crate::telling::Told;
use serde_json::Value;
use smithy_types::{Document, Documents, Members, Number, Text};
use std::alloc::Global;
use test_rows::{Failed, item_text, items_of};

/// What a list of documents answers: how many it has, each by its place, and all.
pub fn documents(alloc: Global, given: &Value) -> Result<Text, Failed> {
    let mut told = Told::new(alloc)?;
    let list = list_of(alloc, items_of(given, "items")?.as_slice())?;
    tell_list(&mut told, &list)?;
    told.tell_flag("last", list.get(list.len().saturating_sub(1)).is_some())?;
    told.tell_flag("one more", list.get(list.len()).is_some())?;
    Ok(told.into_text())
}

/// What the steps on no members answer, and the members behind them, as a copy of them has them.
pub fn members(alloc: Global, given: &Value) -> Result<Text, Failed> {
    let mut told = Told::new(alloc)?;
    let mut members = Members::new(alloc);
    for step in items_of(given, "steps")? {
        take_step(&mut told, &mut members, step)?;
    }
    let object = Document::Object(members);
    told.tell_flag("canonical", object.is_canonical())?;
    let copy = object.copy(alloc)?;
    tell_flat(&mut told, &copy)?;
    for (key, value) in copy.as_object().ok_or(Failed)?.iter() {
        told.tell(key)?;
        tell_document(&mut told, value)?;
    }
    Ok(told.into_text())
}

fn take_step(told: &mut Told, members: &mut Members, step: &Value) -> Result<(), Failed> {
    match step_text(step, 0)? {
        "insert" => insert(told.alloc(), members, step),
        "insert_negative" => insert_negative(told.alloc(), members, step),
        "len" => told.tell_count("len", members.len()),
        "key_at" => told.tell_option(members.key_at(step_count(step, 1)?)),
        "get" => tell_found(told, members.get(step_text(step, 1)?)),
        "value_at" => tell_found(told, members.value_at(step_count(step, 1)?)),
        _ => Err(Failed),
    }
}

fn insert(alloc: Global, members: &mut Members, step: &Value) -> Result<(), Failed> {
    let key = Text::from_str(alloc, step_text(step, 1)?)?;
    members.insert(key, document_of(alloc, step_value(step, 2)?)?)?;
    Ok(())
}

// A number that is marked as negative, whatever its sign.
fn insert_negative(alloc: Global, members: &mut Members, step: &Value) -> Result<(), Failed> {
    let key = Text::from_str(alloc, step_text(step, 1)?)?;
    let value = step_value(step, 2)?.as_i64().ok_or(Failed)?;
    members.insert(key, Document::Number(Number::NegInt(value)))?;
    Ok(())
}

// A list, or a value that holds no other.
fn document_of(alloc: Global, value: &Value) -> Result<Document, Failed> {
    match value.as_array() {
        Some(items) => Ok(Document::Array(list_of(alloc, items.as_slice())?)),
        None => flat_of(alloc, value),
    }
}

fn list_of(alloc: Global, values: &[Value]) -> Result<Documents, Failed> {
    let mut items = Documents::new(alloc);
    for value in values {
        items.push(flat_of(alloc, value)?)?;
    }
    Ok(items)
}

fn flat_of(alloc: Global, value: &Value) -> Result<Document, Failed> {
    if value.is_null() {
        return Ok(Document::Null);
    }
    if let Some(truth) = value.as_bool() {
        return Ok(Document::Bool(truth));
    }
    if let Some(number) = value.as_u64() {
        return Ok(Document::Number(Number::PosInt(number)));
    }
    if let Some(number) = value.as_i64() {
        return Ok(Document::Number(Number::from_i64(number)));
    }
    Ok(Document::String(item_text(alloc, value)?))
}

fn tell_found(told: &mut Told, found: Option<&Document>) -> Result<(), Failed> {
    match found {
        Some(document) => tell_document(told, document),
        None => told.tell("None"),
    }
}

fn tell_document(told: &mut Told, document: &Document) -> Result<(), Failed> {
    match document.as_array() {
        Some(items) => tell_list(told, items),
        None => tell_flat(told, document),
    }
}

fn tell_list(told: &mut Told, items: &Documents) -> Result<(), Failed> {
    told.tell_count("array of", items.len())?;
    for item in items.as_slice() {
        tell_flat(told, item)?;
    }
    Ok(())
}

fn tell_flat(told: &mut Told, document: &Document) -> Result<(), Failed> {
    if let Some(truth) = document.as_bool() {
        return told.tell_flag("true", truth);
    }
    if let Some(number) = document.as_number() {
        let text = format!(in told.alloc(); "{number:?}")?;
        return told.tell(text.as_str());
    }
    match document.as_string() {
        Some(text) => told.tell_text("String", text),
        None => told.tell_flag("null", document.as_object().is_none()),
    }
}
