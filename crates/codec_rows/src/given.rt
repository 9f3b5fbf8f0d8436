// What rows give: texts in pieces, and documents.
ghost use Rattle.std.specs.Prelude.{IfOk, IsTrue};
ghost use Rattle.smithy_types.specs.DocumentView.{view};
ghost use Rattle.smithy_types.specs.Documents.{is_canonical};

use serde_json::Value;
use smithy_json::read_document;
use smithy_types::{Blob, Document, Text};
use std::alloc::Global;
use test_rows::{Failed, bytes_of, count_of, text_of};

// Adds a text, or `{"text":T,"times":N}`, which is T, N times.
fn push_piece(text: &mut Text, piece: &Value) -> Result<(), Failed> {
    if let Some(part) = piece.as_str() {
        text.push_str(part)?;
        return Ok(());
    }
    let part = text_of(piece, "text")?;
    for _ in 0..count_of(piece, "times")? {
        text.push_str(part)?;
    }
    Ok(())
}

/// The bytes under `text`: those of a text, of `{"base64":T}`, or of the pieces of an array.
pub fn input_of(alloc: Global, given: &Value) -> Result<Blob, Failed> {
    let Some(pieces) = given.get("text").and_then(Value::as_array) else {
        return bytes_of(alloc, given, "text");
    };
    let mut text = Text::from_str(alloc, "")?;
    for piece in pieces {
        push_piece(&mut text, piece)?;
    }
    Ok(Blob::new(alloc, text.as_str().as_bytes())?)
}

/// The document of the JSON under `text`.
pub fn canonical_document_of(alloc: Global, given: &Value) -> Result<Document, Failed>
    ensures { IfOk result (λ d. IsTrue (is_canonical (view d))) }
{
    canonical_document(alloc, input_of(alloc, given)?.as_slice())
}

/// The document of a JSON text.
pub fn canonical_document(alloc: Global, text: &[u8]) -> Result<Document, Failed>
    ensures { IfOk result (λ d. IsTrue (is_canonical (view d))) }
{
    let Ok(document) = read_document(alloc, text) else {
        return Err(Failed);
    };
    if document.is_canonical() {
        Ok(document)
    } else {
        Err(Failed)
    }
}
