// Texts and bytes that grow at their end.
use crate::telling::Told;
use serde_json::Value;
use smithy_types::{Blob, Text};
use std::alloc::Global;
use test_rows::{Failed, bytes_of, long_text_of};

/// A text made in each way of `front`, with `back` added.
pub fn text(alloc: Global, given: &Value) -> Result<Text, Failed> {
    let mut told = Told::new(alloc)?;
    let front = long_text_of(alloc, given, "front")?;
    let copy = Text::from_str(alloc, front.as_str())?;
    told.tell_text("from_str", copy.as_str())?;
    let mut grown = Text::from_string(front.into_string());
    grown.push_str(long_text_of(alloc, given, "back")?.as_str())?;
    told.tell_text("push_str", grown.as_str())?;
    told.tell_text("into_string", grown.into_string().as_str())?;
    Ok(told.into_text())
}

/// The bytes, copied and taken over.
pub fn blob(alloc: Global, given: &Value) -> Result<Text, Failed> {
    let mut told = Told::new(alloc)?;
    let bytes = bytes_of(alloc, given, "bytes")?;
    let taken = Blob::from_vec(Vec::from_slice(alloc, bytes.as_slice())?);
    told.tell_bytes("new", bytes.as_slice())?;
    told.tell_bytes("from_vec", taken.as_slice())?;
    Ok(told.into_text())
}
