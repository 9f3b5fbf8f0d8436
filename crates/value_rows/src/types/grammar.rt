// The byte grammars of header names, header values and request targets.
use crate::telling::told_flag;
use serde_json::Value;
use smithy_types::{
    MAX_TARGET_LEN, Text, before_query, behind_scheme, is_header_value, is_token, legal_target,
};
use std::alloc::Global;
use test_rows::{Failed, bytes_of, long_text_of, told_bytes};

/// What a call of a grammar answers, `None` where it is another's.
pub fn answer(alloc: Global, call: &str, given: &Value) -> Result<Option<Text>, Failed> {
    match call {
        "is_header_value" => header_value(alloc, given).map(Some),
        "is_token" | "legal_target" | "before_query" | "behind_scheme" => {
            of_text(alloc, call, long_text_of(alloc, given, "text")?.as_str())
        }
        "MAX_TARGET_LEN" => { Ok(Some(Text::from_string(format!(in alloc; "{MAX_TARGET_LEN}")?))) }
        _ => Ok(None),
    }
}

fn header_value(alloc: Global, given: &Value) -> Result<Text, Failed> {
    let bytes = bytes_of(alloc, given, "bytes")?;
    told_flag(alloc, is_header_value(bytes.as_slice()))
}

fn of_text(alloc: Global, call: &str, text: &str) -> Result<Option<Text>, Failed> {
    match call {
        "is_token" => told_flag(alloc, is_token(text)).map(Some),
        "legal_target" => told_flag(alloc, legal_target(text)).map(Some),
        "before_query" => Ok(Some(Text::from_str(alloc, before_query(text))?)),
        "behind_scheme" => told_bytes(alloc, behind_scheme(text.as_bytes())).map(Some),
        _ => Ok(None),
    }
}
