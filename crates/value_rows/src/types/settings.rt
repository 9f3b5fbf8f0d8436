// What documents are read as without settings.
use crate::telling::Told;
use serde_json::Value;
use smithy_types::{
    DateTime, DiscriminatedDocument, Document, DocumentError, DocumentSettings, NoSettings, Number,
    Text,
};
use std::alloc::Global;
use test_rows::{Failed, text_of, told_bytes};

/// What a call of a document's settings answers, `None` where it is another's.
pub fn answer(alloc: Global, call: &str, given: &Value) -> Result<Option<Text>, Failed> {
    match call {
        "coerce_string_to_blob" => blob(alloc, given).map(Some),
        "coerce_number_to_timestamp" => number_time(alloc, given).map(Some),
        "coerce_string_to_timestamp" => {
            let time = NoSettings.coerce_string_to_timestamp(alloc, text_of(given, "text")?);
            told_time(alloc, time).map(Some)
        }
        "DiscriminatedDocument" => discriminated(alloc, given).map(Some),
        _ => Ok(None),
    }
}

fn blob(alloc: Global, given: &Value) -> Result<Text, Failed> {
    match NoSettings.coerce_string_to_blob(alloc, text_of(given, "text")?) {
        Ok(blob) => told_bytes(alloc, blob.as_slice()),
        Err(error) => refused(alloc, error),
    }
}

fn number_time(alloc: Global, given: &Value) -> Result<Text, Failed> {
    let value = given.get("number").ok_or(Failed)?;
    let number = match value.as_u64() {
        Some(number) => Number::PosInt(number),
        None => Number::from_i64(value.as_i64().ok_or(Failed)?),
    };
    told_time(alloc, NoSettings.coerce_number_to_timestamp(alloc, number))
}

fn told_time(alloc: Global, time: Result<DateTime, DocumentError>) -> Result<Text, Failed> {
    match time {
        Ok(time) => Ok(Text::from_string(format!(in alloc; "Ok {}", time.secs())?)),
        Err(error) => refused(alloc, error),
    }
}

fn refused(alloc: Global, error: DocumentError) -> Result<Text, Failed> {
    let mut told = Told::new(alloc)?;
    match error {
        DocumentError::Custom { message } => told.tell_text("Custom", message.as_str())?,
        _ => told.tell("another refusal")?,
    }
    Ok(told.into_text())
}

// A truth value with a discriminator and no settings.
fn discriminated(alloc: Global, given: &Value) -> Result<Text, Failed> {
    let mut told = Told::new(alloc)?;
    let document = DiscriminatedDocument::new(Document::Bool(true), NoSettings);
    told.tell_option(document.discriminator())?;
    let name = Text::from_str(alloc, text_of(given, "discriminator")?)?;
    let document = document.with_discriminator(name);
    told.tell_option(document.discriminator())?;
    told.tell_flag("document", document.document().as_bool() == Some(true))?;
    told.tell_flag("settings", *document.settings() == NoSettings)?;
    Ok(told.into_text())
}
