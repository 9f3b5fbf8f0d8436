// A row: what a run is asked.
use crate::failed::Failed;
use base64::engine::general_purpose::STANDARD;
use serde_json::Value;
use smithy_types::{Blob, Words};
use std::alloc::Global;

/// The words of a run, and the bytes that it reads.
#[derive(Drop)]
pub struct Row {
    pub words: Words,
    pub job: Blob,
}

impl Row {
    /// The row of a line, which is a JSON object: `words` is an array of texts, and `job` a text, or `{"base64": ..}` of the
    /// bytes. Other keys are passed over; `case` says what a row is about. It takes memory.
    pub fn read(alloc: Global, line: &str) -> Result<Row, Failed> {
        let line = Value::from_str(alloc, line)?;
        let words = words_of(alloc, line.get("words").ok_or(Failed)?)?;
        let job = job_of(alloc, line.get("job").ok_or(Failed)?)?;
        Ok(Row { words, job })
    }
}

fn words_of(alloc: Global, value: &Value) -> Result<Words, Failed> {
    let mut words = Words::new(alloc);
    for word in value.as_array().ok_or(Failed)? {
        words.push(word.as_str().ok_or(Failed)?)?;
    }
    Ok(words)
}

fn job_of(alloc: Global, value: &Value) -> Result<Blob, Failed> {
    match value.as_str() {
        Some(text) => Ok(Blob::new(alloc, text.as_bytes())?),
        None => {
            let text = value.get("base64").and_then(Value::as_str).ok_or(Failed)?;
            let bytes = STANDARD.decode(alloc, text.as_bytes())?;
            Ok(Blob::new(alloc, bytes.as_slice())?)
        }
    }
}
