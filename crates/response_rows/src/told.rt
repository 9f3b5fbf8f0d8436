// Answers as texts.
use smithy_serde::SerdeError;
use smithy_types::{Document, OutOfMemory, Text};
use std::alloc::Global;
use test_rows::{Failed, told_bytes};

/// The answer's text; of a refusal `Err`, its variant and its text.
pub fn told(alloc: Global, answer: Result<Text, SerdeError>) -> Result<Text, Failed> {
    match answer {
        Ok(text) => Ok(text),
        Err(refusal) => Ok(told_refusal(alloc, &refusal)?),
    }
}

/// `Err`, the variant of a refusal and its text.
pub fn told_refusal(alloc: Global, refusal: &SerdeError) -> Result<Text, OutOfMemory> {
    let name = refusal.variant_name();
    Ok(Text::from_string(format!(in alloc; "Err {name}: {refusal}")?))
}

// How many bytes of a text are told.
const ROOM: usize = 500;

/// A text between quotes; how many bytes it has, where they are many.
pub fn told_text(alloc: Global, text: &str) -> Result<Text, OutOfMemory> {
    let len = text.len();
    if len > ROOM {
        return counted(alloc, len, "bytes");
    }
    Ok(Text::from_string(format!(in alloc; "\"{text}\"")?))
}

// How many bytes of a list or a value are told.
const WHOLE: usize = 2000;

/// A text as it stands; how many bytes it has, where they are many.
pub fn shortened(alloc: Global, text: Text) -> Result<Text, OutOfMemory> {
    let len = text.as_str().len();
    if len > WHOLE {
        return counted(alloc, len, "bytes");
    }
    Ok(text)
}

/// Bytes, as `told_bytes` tells them.
pub fn told_blob(alloc: Global, bytes: &[u8]) -> Result<Text, OutOfMemory> {
    match told_bytes(alloc, bytes) {
        Ok(text) => told_text(alloc, text.as_str()),
        Err(Failed) => Err(OutOfMemory),
    }
}

/// What a document is.
pub fn told_document(alloc: Global, document: &Document) -> Result<Text, OutOfMemory> {
    match document {
        Document::Null => Text::from_str(alloc, "null"),
        Document::Bool(value) => Ok(Text::from_string(format!(in alloc; "{value}")?)),
        Document::Number(_) => Text::from_str(alloc, "number"),
        Document::String(text) => told_text(alloc, text.as_str()),
        Document::Array(items) => counted(alloc, items.len(), "items"),
        Document::Object(members) => counted(alloc, members.len(), "members"),
    }
}

/// So many of these.
pub fn counted(alloc: Global, count: usize, what: &str) -> Result<Text, OutOfMemory> {
    Ok(Text::from_string(format!(in alloc; "{count} {what}")?))
}
