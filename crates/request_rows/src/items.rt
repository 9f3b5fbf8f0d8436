// The items of a job of many responses: what each is, by what stands under its keys.
use crate::given_job::job_bytes;
use crate::jobs::push_expected;
use crate::told::no_job;
use serde_json::Value;
use smithy_job::{Keys, read_expected, read_message, read_received_by, responses_of};
use smithy_json::{JsonValue, Scratch, read_json};
use smithy_types::Text;
use std::alloc::Global;
use test_rows::Failed;

/// The answer of this call; none of another.
pub fn answer(alloc: Global, call: &str, given: &Value) -> Result<Option<Text>, Failed> {
    match call {
        "responses_of" => Ok(Some(responses(alloc, given)?)),
        _ => Ok(None),
    }
}

fn responses(alloc: Global, given: &Value) -> Result<Text, Failed> {
    let bytes = job_bytes(alloc, given)?;
    let mut scratch = Scratch::new(alloc);
    let value = match read_json(alloc, bytes.as_slice(), &mut scratch) {
        Ok(value) => value,
        Err(refusal) => return no_job(alloc, refusal.into()),
    };
    match responses_of(&value) {
        Some(items) => items_text(alloc, &value, items),
        None => Ok(Text::from_str(alloc, "None")?),
    }
}

// A line for each item, and whether it asks for the same as the one before it, the first as the job itself.
fn items_text<'v, 't>(
    alloc: Global,
    job: &'v JsonValue<'t>,
    items: &'v [JsonValue<'t>],
) -> Result<Text, Failed> {
    let mut before = Keys::of(job);
    let mut text = Text::from_str(alloc, "")?;
    for item in items {
        let keys = Keys::among(job, item);
        text.push_str(if keys.ask_alike(&before) {
            "alike:"
        } else {
            "other:"
        })?;
        push_item(alloc, &mut text, &keys)?;
        before = keys;
    }
    Ok(text)
}

// The status, what the response is read as, and whether there is a job of it.
fn push_item(alloc: Global, text: &mut Text, keys: &Keys<'_, '_>) -> Result<(), Failed> {
    match read_message(alloc, keys) {
        Ok(message) => {
            let status = message.response.status();
            text.push_str(format!(in alloc; " {status} ")?.as_str())?;
        }
        Err(_) => text.push_str(" no response ")?,
    }
    match read_expected(alloc, keys) {
        Ok(read) => push_expected(text, &read.table, &read.expected)?,
        Err(_) => text.push_str("nothing")?,
    }
    let word = match read_received_by(alloc, keys) {
        Ok(_) => "; a job\n",
        Err(_) => "; none\n",
    };
    Ok(text.push_str(word)?)
}
