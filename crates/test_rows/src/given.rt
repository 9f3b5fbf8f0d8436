// Arguments of a call, read from a row.
use crate::failed::Failed;
use base64::engine::general_purpose::STANDARD;
use serde_json::Value;
use smithy_types::{Blob, Text};
use std::alloc::Global;

/// The text under a key.
pub fn text_of<'a>(given: &'a Value, key: &str) -> Result<&'a str, Failed> {
    given.get(key).and_then(Value::as_str).ok_or(Failed)
}

/// The whole number under a key.
pub fn number_of(given: &Value, key: &str) -> Result<i64, Failed> {
    given.get(key).and_then(Value::as_i64).ok_or(Failed)
}

/// The number of things under a key.
pub fn count_of(given: &Value, key: &str) -> Result<usize, Failed> {
    let count = given.get(key).and_then(Value::as_u64).ok_or(Failed)?;
    usize::try_from(count).map_err(|_| Failed)
}

/// Whether a key has `true`; a key that is missing has not.
pub fn flag_of(given: &Value, key: &str) -> bool {
    given.get(key).and_then(Value::as_bool).unwrap_or(false)
}

/// The items of the array under a key.
pub fn items_of<'a>(given: &'a Value, key: &str) -> Result<&'a Vec<Value>, Failed> {
    given.get(key).and_then(Value::as_array).ok_or(Failed)
}

/// The text under a key, as [`item_text`] reads it.
pub fn long_text_of(alloc: Global, given: &Value, key: &str) -> Result<Text, Failed> {
    item_text(alloc, given.get(key).ok_or(Failed)?)
}

/// The text that a value tells: a text as it is, or `{"text":T,"times":N}`, which is T, N times. It takes memory.
pub fn item_text(alloc: Global, value: &Value) -> Result<Text, Failed> {
    if let Some(text) = value.as_str() {
        return Ok(Text::from_str(alloc, text)?);
    }
    let part = text_of(value, "text")?;
    let mut text = Text::from_str(alloc, "")?;
    for _ in 0..count_of(value, "times")? {
        text.push_str(part)?;
    }
    Ok(text)
}

/// The bytes under a key, as [`item_bytes`] reads them.
pub fn bytes_of(alloc: Global, given: &Value, key: &str) -> Result<Blob, Failed> {
    item_bytes(alloc, given.get(key).ok_or(Failed)?)
}

/// The bytes that a value tells: those of `{"base64":T}`, or of a text as [`item_text`] reads it. It takes memory.
pub fn item_bytes(alloc: Global, value: &Value) -> Result<Blob, Failed> {
    match value.get("base64").and_then(Value::as_str) {
        Some(text) => Ok(Blob::from_vec(STANDARD.decode(alloc, text.as_bytes())?)),
        None => Ok(Blob::new(alloc, item_text(alloc, value)?.as_str().as_bytes())?),
    }
}
