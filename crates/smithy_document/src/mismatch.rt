// The refusals of reads over documents.
ghost use Rattle.std.specs.Prelude.{◌≡◌};
ghost use Rattle.smithy_document.specs.Words.{Document as Doc, view, mismatch, IsRefusal, document_word, word_of_document};

use smithy_ids::ShapeType;
use smithy_serde::{SerdeError, kind_word};
use smithy_types::{Document, Text};
use std::alloc::Global;

/// What the read of a kind asks for where a document is at hand.
pub(crate) fn document_word(kind: ShapeType) -> &'static str
    ensures { result.now ≡ document_word kind }
{
    match kind {
        ShapeType::Structure => "struct (map)",
        _ => kind_word(kind),
    }
}

// What a document is.
fn word_of_document(document: &Document) -> &'static str
    ensures { result.now ≡ word_of_document (view document.now) }
{
    match document {
        Document::Null => "null",
        Document::Bool(_) => "boolean",
        Document::Number(_) => "number",
        Document::String(_) => "string",
        Document::Array(_) => "list",
        Document::Object(_) => "map",
    }
}

/// The refusal of a document that is of another kind than the one that is asked for.
pub(crate) fn mismatch(alloc: Global, kind: ShapeType, document: &Document) -> SerdeError
    ensures { IsRefusal (mismatch kind (view document.now)) result }
{
    mismatch_of(alloc, kind, word_of_document(document))
}

/// The same, of a document that is called so.
pub(crate) fn mismatch_of(alloc: Global, kind: ShapeType, found: &str) -> SerdeError
    ensures { (d : Doc) → word_of_document d ≡ found.now → IsRefusal (mismatch kind d) result }
{
    let expected = document_word(kind);
    match format!(in alloc; "expected {expected} document, got {found}") {
        Ok(message) => SerdeError::TypeMismatch {
            message: Text::from_string(message),
        },
        Err(_) => SerdeError::OutOfMemory,
    }
}
