// The refusals of the string codec's reader.
ghost use Rattle.std.specs.Prelude.{◌≡◌};
ghost use Rattle.smithy_serde.specs.HeldReads.{string_refusal};
ghost use Rattle.smithy_serde.specs.ReadCalls.{type_of};
ghost use Rattle.smithy_serde.specs.Refusals.{IsRefusal};
ghost use Rattle.smithy_serde.specs.Requests.{plain_word as plain_word_of};
ghost use Rattle.smithy_serde.specs.StringReads.{text_refusal};
ghost use Rattle.smithy_strings.specs.ReadingRefusals as refusal;

use smithy_http::{HttpError, ListFault};
use smithy_serde::{Group, ScalarKind, SerdeError};
use std::alloc::Global;

// What the read of a kind asks for.
fn plain_word(kind: ScalarKind) -> &'static str
    ensures { result.now ≡ plain_word_of (type_of kind) }
{
    match kind {
        ScalarKind::Boolean => "boolean",
        ScalarKind::Byte => "byte",
        ScalarKind::Short => "short",
        ScalarKind::Integer => "integer",
        ScalarKind::Long => "long",
        ScalarKind::BigInteger => "big integer",
        ScalarKind::BigDecimal => "big decimal",
        ScalarKind::String => "string",
        ScalarKind::Blob => "blob",
        ScalarKind::Timestamp => "timestamp",
        ScalarKind::Document => "document",
    }
}

// The refusal of a read where no text is left.
pub(crate) fn no_value(alloc: Global, kind: ScalarKind) -> SerdeError
    ensures { IsRefusal (refusal.no_value (type_of kind)) result }
{
    let word = plain_word(kind);
    match format!(in alloc; "expected {word} value") {
        Ok(message) => SerdeError::invalid_input(alloc, message.as_str()),
        Err(_) => SerdeError::OutOfMemory,
    }
}

// The refusal of a text that is none of the kind.
pub(crate) fn not_of_kind(alloc: Global, kind: ScalarKind, text: &str) -> SerdeError
    ensures { IsRefusal (text_refusal (type_of kind) text.now) result }
{
    match kind {
        ScalarKind::Blob => SerdeError::invalid_input(alloc, "invalid base64"),
        _ => no_text_of(alloc, plain_word(kind), text),
    }
}

fn no_text_of(alloc: Global, word: &str, text: &str) -> SerdeError
    ensures { IsRefusal (refusal.no_text_of word.now text.now) result }
{
    match format!(in alloc; "invalid {word}: {text}") {
        Ok(message) => SerdeError::invalid_input(alloc, message.as_str()),
        Err(_) => SerdeError::OutOfMemory,
    }
}

// The refusal of a document, which no text is read as.
pub(crate) fn no_document(alloc: Global) -> SerdeError
    ensures { IsRefusal refusal.no_document result }
{
    SerdeError::unsupported(alloc, "documents cannot be deserialized from strings")
}

// The refusal of a text that spells no list.
pub(crate) fn no_list(alloc: Global, fault: ListFault) -> SerdeError
    ensures { IsRefusal (refusal.no_list fault) result }
{
    let error = HttpError::List(fault);
    match format!(in alloc; "invalid list: {error}") {
        Ok(message) => SerdeError::invalid_input(alloc, message.as_str()),
        Err(_) => SerdeError::OutOfMemory,
    }
}

// The refusal of a container that no text is opened as.
pub(crate) fn no_container(alloc: Global, group: Group) -> SerdeError
    ensures { IsRefusal (string_refusal (refusal.shape_of group)) result }
{
    match group {
        Group::List => {
            SerdeError::unsupported(alloc, "nested lists cannot be deserialized from strings")
        }
        Group::Map => SerdeError::unsupported(alloc, "maps cannot be deserialized from strings"),
        Group::Structure => {
            SerdeError::unsupported(alloc, "structures cannot be deserialized from strings")
        }
    }
}

// The refusal of an input that is not UTF-8.
pub(crate) fn not_utf8(alloc: Global) -> SerdeError
    ensures { IsRefusal refusal.not_utf8 result }
{
    SerdeError::invalid_input(alloc, "input is not UTF-8")
}
