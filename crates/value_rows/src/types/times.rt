// Points in time against the public formats.
use crate::telling::Told;
use serde_json::Value;
use smithy_types::{DateTime, Format, Text, laws};
use std::alloc::Global;
use test_rows::{Failed, number_of, text_of};

/// What a call of a point in time answers, `None` where it is another's.
pub fn answer(alloc: Global, call: &str, given: &Value) -> Result<Option<Text>, Failed> {
    match call {
        "DateTime::fmt" => written(alloc, given).map(Some),
        "DateTime::parse" => read(alloc, given).map(Some),
        _ => Ok(None),
    }
}

/// The format under the key `format`.
pub fn format_of(given: &Value) -> Result<Format, Failed> {
    match text_of(given, "format")? {
        "epoch-seconds" => Ok(Format::EpochSeconds),
        "date-time" => Ok(Format::DateTime),
        "http-date" => Ok(Format::HttpDate),
        _ => Err(Failed),
    }
}

// The text of a point in time, and what that is read as.
fn written(alloc: Global, given: &Value) -> Result<Text, Failed> {
    let time = DateTime::from_secs(number_of(given, "seconds")?);
    let mut told = Told::new(alloc)?;
    match time.fmt(alloc, format_of(given)?) {
        Ok(text) => {
            laws::timestamps_are_read_back();
            let again = DateTime::parse(alloc, text.as_str(), format_of(given)?);
            told.tell_text("Ok", text.as_str())?;
            told.tell_flag("read back", again == Ok(time))?;
        }
        Err(error) => told.tell_text("Err", format!(in alloc; "{error:?}")?.as_str())?,
    }
    Ok(told.into_text())
}

fn read(alloc: Global, given: &Value) -> Result<Text, Failed> {
    let mut told = Told::new(alloc)?;
    match DateTime::parse(alloc, text_of(given, "text")?, format_of(given)?) {
        Ok(time) => told.tell_text("Ok", format!(in alloc; "{}", time.secs())?.as_str())?,
        Err(error) => told.tell_text("Err", format!(in alloc; "{error:?}")?.as_str())?,
    }
    Ok(told.into_text())
}
