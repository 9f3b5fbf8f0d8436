// Calls of `smithy_types`.
mod documents;
mod grammar;
mod lists;
mod maps;
mod numbers;
mod settings;
mod texts;
mod times;

use serde_json::Value;
use smithy_types::Text;
use std::alloc::Global;
use test_rows::Failed;
pub use times::format_of;

/// What a call of `smithy_types` answers, `None` where it is another's.
pub fn answer(alloc: Global, call: &str, given: &Value) -> Result<Option<Text>, Failed> {
    if let Some(text) = grammar::answer(alloc, call, given)? {
        return Ok(Some(text));
    }
    if let Some(text) = times::answer(alloc, call, given)? {
        return Ok(Some(text));
    }
    if let Some(text) = numbers::answer(alloc, call, given)? {
        return Ok(Some(text));
    }
    if let Some(text) = settings::answer(alloc, call, given)? {
        return Ok(Some(text));
    }
    held(alloc, call, given)
}

// What holds texts, numbers or documents.
fn held(alloc: Global, call: &str, given: &Value) -> Result<Option<Text>, Failed> {
    match call {
        "Text" => texts::text(alloc, given).map(Some),
        "Blob" => texts::blob(alloc, given).map(Some),
        "Words" => lists::words(alloc, given).map(Some),
        "Longs" => lists::longs(alloc, given).map(Some),
        "Blobs" => lists::blobs(alloc, given).map(Some),
        "TextMap" => maps::text_map(alloc, given).map(Some),
        "Documents" => documents::documents(alloc, given).map(Some),
        "Members" => documents::members(alloc, given).map(Some),
        _ => Ok(None),
    }
}
