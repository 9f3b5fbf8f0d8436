// The document that a value of JSON is, and that a text of JSON is.
ghost use Rattle.std.specs.Prelude.{◌≡◌, option_map};
ghost use Rattle.smithy_types.specs.Documents.{members_of};
ghost use Rattle.serde_json.specs.View.{number_view as json_number_view};
ghost use Rattle.smithy_json.specs.views.JsonView.{view, items_view, members_view};
ghost use Rattle.smithy_types.specs.DocumentView.{number_view, view as document_view, items_view as documents_view, members_view as fields_view};
ghost use Rattle.smithy_json.specs.FromData.{number_of_data, of_data, items_of_data, pairs_of_data};
ghost use Rattle.smithy_json.specs.FromText.{document_of_text};
ghost use Rattle.smithy_json.specs.Reads.{Reads};

use crate::error::JsonError;
use crate::reading::read_json;
use crate::value::JsonValue;
use json::Scratch;
use serde_json::Number as JsonNumber;
use smithy_types::{Document, Documents, Members, Number, Text};
use std::alloc::Global;

/// The number of a document that a number of JSON is, None where it is a float.
pub fn whole_number(number: &JsonNumber) -> Option<Number>
    ensures { option_map number_view result ≡ number_of_data (json_number_view number.now) }
{
    match number.as_u64() {
        Some(value) => Some(Number::PosInt(value)),
        None => Some(Number::from_i64(number.as_i64()?)),
    }
}

/// The document that a value of JSON is. Takes memory.
///
/// Unreadable where there is a float in it.
#[cycle(document)]
pub fn document_of(alloc: Global, value: &JsonValue<'_>) -> Result<Document, JsonError>
    ensures { Reads document_view (of_data (view value.now)) result }
{
    match value {
        JsonValue::Null => Ok(Document::Null),
        JsonValue::Bool(truth) => Ok(Document::Bool(*truth)),
        JsonValue::Number(number) => match whole_number(number) {
            Some(number) => Ok(Document::Number(number)),
            None => Err(JsonError::Unreadable),
        },
        JsonValue::String(text) => Ok(Document::String(Text::from_str(alloc, *text)?)),
        JsonValue::Array(items) => Ok(Document::Array(documents_of(alloc, items)?)),
        JsonValue::Object(members) => Ok(Document::Object(fields_of(alloc, members)?)),
    }
}

#[cycle(document)]
fn documents_of(alloc: Global, items: &Vec<JsonValue<'_>>) -> Result<Documents, JsonError>
    ensures { Reads documents_view (items_of_data (items_view items.now.items)) result }
{
    let mut found = Documents::new(alloc);
    for item in items {
        found.push(document_of(alloc, item)?)?;
    }
    Ok(found)
}

#[cycle(document)]
fn fields_of(alloc: Global, members: &Vec<(&str, JsonValue<'_>)>) -> Result<Members, JsonError>
    ensures { Reads fields_view
        (option_map members_of (pairs_of_data (members_view members.now.items))) result }
{
    let mut found = Members::new(alloc);
    for member in members {
        let document = document_of(alloc, &member.1)?;
        let name = Text::from_str(alloc, member.0)?;
        found.insert(name, document)?;
    }
    Ok(found)
}

/// The document of a JSON text (RFC 8259). Takes memory.
///
/// Unreadable where it is no JSON in UTF-8, nests deeper than 127, or has a float in it.
pub fn read_document(alloc: Global, text: &[u8]) -> Result<Document, JsonError>
    ensures { Reads document_view (document_of_text text.now) result }
{
    let mut scratch = Scratch::new(alloc);
    let value = read_json(alloc, text, &mut scratch)?;
    document_of(alloc, &value)
}
