// The first wrong places of values that are no jobs.
use crate::given_job::{job_bytes, job_kind};
use crate::told::no_job;
use serde_json::Value;
use smithy_job::wrong_in_job;
use smithy_json::{JsonValue, Scratch, read_json};
use smithy_model::{
    Asked, ModelShapes, Wrong, asked_at, asked_here, found_at, in_item, in_key, is_object,
    may_have, may_have_http, pointer_of, shapes_of, text_of, unless_at, unless_here, unless_named,
    within, wrong_in_errors, wrong_in_shapes, wrong_model, wrong_name,
};
use smithy_types::Text;
use std::alloc::Global;
use test_rows::{
    Failed, count_of, flag_of, items_of as given_items, text_of as given_text, told_bytes,
};

/// The answer of one of these calls; none of another.
pub fn answer(alloc: Global, call: &str, given: &Value) -> Result<Option<Text>, Failed> {
    match call {
        "wrong_in_job" => Ok(Some(of_job(alloc, given)?)),
        "wrong_in_shapes" => Ok(Some(of_model(alloc, given)?)),
        "pointer_of" => Ok(Some(of_steps(alloc, given)?)),
        _ => Ok(None),
    }
}

// The pointer, `: `, and what is asked there.
fn place_text(alloc: Global, wrong: &Wrong) -> Result<Text, Failed> {
    let mut text = told_bytes(alloc, pointer_of(alloc, wrong)?.as_slice())?;
    text.push_str(": ")?;
    text.push_str(wrong.asked.as_str())?;
    Ok(text)
}

fn found_text(alloc: Global, found: &Option<Wrong>) -> Result<Text, Failed> {
    match found {
        Some(wrong) => place_text(alloc, wrong),
        None => Ok(Text::from_str(alloc, "none")?),
    }
}

fn of_job(alloc: Global, given: &Value) -> Result<Text, Failed> {
    let kind = job_kind(given, "command")?;
    let bytes = job_bytes(alloc, given)?;
    let mut scratch = Scratch::new(alloc);
    let value = match read_json(alloc, bytes.as_slice(), &mut scratch) {
        Ok(value) => value,
        Err(refusal) => return no_job(alloc, refusal.into()),
    };
    place_text(alloc, &wrong_in_job(alloc, kind, &value)?)
}

// What is asked of an operation: its input, its output, or the error of another word.
fn asked_by(word: &str) -> Asked<'_> {
    match word {
        "input" => Asked::Input,
        "output" => Asked::Output,
        _ => Asked::Error(word),
    }
}

fn of_model(alloc: Global, given: &Value) -> Result<Text, Failed> {
    let bytes = job_bytes(alloc, given)?;
    let mut scratch = Scratch::new(alloc);
    let model = match read_json(alloc, bytes.as_slice(), &mut scratch) {
        Ok(model) => model,
        Err(refusal) => return no_job(alloc, refusal.into()),
    };
    found_text(alloc, &in_model(alloc, given, &model)?)
}

// Whether what the shapes of a model have at a name is an object.
fn of_object(alloc: Global, model: &JsonValue<'_>, name: &str) -> Result<Option<Wrong>, Failed> {
    let shapes = ModelShapes::of(model.get("shapes").ok_or(Failed)?).ok_or(Failed)?;
    match shapes.get(name) {
        Some(shape) => Ok(unless_here(alloc, is_object(shape), "an object")?),
        None => Ok(Some(asked_here(alloc, "a shape")?)),
    }
}

// What is found by all errors of an operation, and by the one that a model names as its service's.
fn in_errors<'t>(
    alloc: Global,
    shapes: &ModelShapes<'_, 't>,
    name: &str,
    model: &JsonValue<'t>,
) -> Result<Option<Wrong>, Failed> {
    let service = text_of(model, "service").ok_or(Failed)?;
    Ok(wrong_in_errors(alloc, shapes, name, &[service])?)
}

// What is found in a model: by a name that has to be there, by all errors, or by what is asked.
fn in_model(alloc: Global, given: &Value, model: &JsonValue<'_>) -> Result<Option<Wrong>, Failed> {
    let Some(shapes) = shapes_of(model) else {
        return Ok(wrong_model(alloc, model)?);
    };
    let name = given_text(given, "operation")?;
    if flag_of(given, "object") {
        return of_object(alloc, model, name);
    }
    if found_at(&shapes, name).is_none() {
        return Ok(wrong_name(alloc, &shapes, name)?);
    }
    let asked = asked_by(given_text(given, "asked")?);
    if !may_have(alloc, &shapes, name, asked)? {
        return Ok(Some(asked_here(alloc, "not had")?));
    }
    if flag_of(given, "http") && !may_have_http(alloc, &shapes, name)? {
        return Ok(Some(asked_here(alloc, "without http")?));
    }
    if flag_of(given, "errors") {
        return in_errors(alloc, &shapes, name, model);
    }
    Ok(wrong_in_shapes(alloc, &shapes, name, asked)?)
}

// What is asked at the end of the steps.
fn at_end(alloc: Global, given: &Value) -> Result<Option<Wrong>, Failed> {
    let words = given_text(given, "words")?;
    match given_text(given, "by")? {
        "here" => Ok(Some(asked_here(alloc, words)?)),
        "at" => Ok(Some(asked_at(alloc, given_text(given, "key")?, words)?)),
        "unless here" => Ok(unless_here(alloc, flag_of(given, "fits"), words)?),
        "unless at" => Ok(unless_at(
            alloc,
            flag_of(given, "fits"),
            given_text(given, "key")?,
            words,
        )?),
        "unless named" => Ok(unless_named(
            alloc,
            flag_of(given, "fits"),
            given_text(given, "name")?,
            words,
        )?),
        _ => Err(Failed),
    }
}

// A place under these steps, innermost first: a text is a key, a number a position.
fn under_steps(alloc: Global, given: &Value) -> Result<Option<Wrong>, Failed> {
    let mut found = at_end(alloc, given)?;
    for step in given_items(given, "steps")? {
        found = match step.as_str() {
            Some(key) => in_key(alloc, key, found)?,
            None => in_item(step.as_u64().ok_or(Failed)? as usize, found)?,
        };
    }
    Ok(found)
}

// The pointer of the steps, as far as they lead into the value under `job`.
fn of_steps(alloc: Global, given: &Value) -> Result<Text, Failed> {
    let Some(wrong) = under_steps(alloc, given)? else {
        return Ok(Text::from_str(alloc, "none")?);
    };
    if !flag_of(given, "within") {
        return place_text(alloc, &wrong);
    }
    let bytes = job_bytes(alloc, given)?;
    let mut scratch = Scratch::new(alloc);
    let value = match read_json(alloc, bytes.as_slice(), &mut scratch) {
        Ok(value) => value,
        Err(refusal) => return no_job(alloc, refusal.into()),
    };
    let place = within(alloc, &value, wrong)?;
    place_text(alloc, &place)
}
