// Texts at bindings: escapes, header lists, and what texts spell.
use crate::given::input_of;
use crate::kinds::kind_of;
use crate::told::optional;
use crate::value_text::push_scalar;
use serde_json::Value;
use smithy_http::{push_header_item, push_quoted_text};
use smithy_serde::{ReadScalar, ScalarKind, ShapeValue};
use smithy_strings::{
    are_distinct, decoded, percent_decode, percent_encode, push_escaped, push_listed,
    scalar_of_text,
};
use smithy_types::{Blob, Text};
use std::alloc::Global;
use test_rows::{Failed, items_of, text_of};

/// What a call makes of the text under `text`, or of the items under `items`.
pub fn answer(alloc: Global, call: &str, given: &Value) -> Result<Option<Text>, Failed> {
    let text = match call {
        "percent_encode" => encoded(alloc, given)?,
        "percent_decode" => taken_back(alloc, given, call)?,
        "decoded" => taken_back(alloc, given, call)?,
        "push_escaped" => pushed(alloc, given, call)?,
        "push_header_item" => pushed(alloc, given, call)?,
        "push_quoted_text" => pushed(alloc, given, call)?,
        "push_listed" => listed(alloc, given)?,
        "scalar_of_text" => spelled(alloc, given)?,
        "are_distinct" => distinct(alloc, given)?,
        _ => return Ok(None),
    };
    Ok(Some(text))
}

fn as_text(bytes: &Blob) -> Result<&str, Failed> {
    str::from_utf8(bytes.as_slice()).map_err(|_| Failed)
}

fn encoded(alloc: Global, given: &Value) -> Result<Text, Failed> {
    Ok(percent_encode(alloc, as_text(&input_of(alloc, given)?)?)?)
}

fn taken_back(alloc: Global, given: &Value, call: &str) -> Result<Text, Failed> {
    let input = input_of(alloc, given)?;
    let text = match call {
        "percent_decode" => percent_decode(alloc, as_text(&input)?)?,
        _ => decoded(alloc, as_text(&input)?)?,
    };
    match text {
        Some(text) => optional(alloc, Some(text.as_str())),
        None => optional(alloc, None),
    }
}

// What `x=` is behind the call.
fn pushed(alloc: Global, given: &Value, call: &str) -> Result<Text, Failed> {
    let input = input_of(alloc, given)?;
    let mut list = String::from_str(alloc, "x=")?;
    match call {
        "push_escaped" => push_escaped(&mut list, as_text(&input)?)?,
        "push_header_item" => push_header_item(&mut list, as_text(&input)?)?,
        _ => push_quoted_text(&mut list, as_text(&input)?)?,
    }
    Ok(Text::from_string(list))
}

// Whether the texts under `texts` are.
fn distinct(alloc: Global, given: &Value) -> Result<Text, Failed> {
    let mut texts = Vec::new(alloc);
    for item in items_of(given, "texts")? {
        if texts.push(item.as_str().ok_or(Failed)?).is_err() {
            return Err(Failed);
        }
    }
    let answer = are_distinct(alloc, texts.as_slice())?;
    Ok(Text::from_string(format!(in alloc; "{answer}")?))
}

// The list of pairs of a kind and a text.
fn listed(alloc: Global, given: &Value) -> Result<Text, Failed> {
    let mut list = String::new(alloc);
    let mut is_first = true;
    for item in items_of(given, "items")? {
        let kind = item.get(0).and_then(Value::as_str).ok_or(Failed)?;
        let text = item.get(1).and_then(Value::as_str).ok_or(Failed)?;
        push_listed(&mut list, is_first, kind_of(kind).ok_or(Failed)?, text)?;
        is_first = false;
    }
    Ok(Text::from_string(list))
}

fn scalar_kind(word: &str) -> Option<ScalarKind> {
    Some(match word {
        "boolean" => ScalarKind::Boolean,
        "byte" => ScalarKind::Byte,
        "short" => ScalarKind::Short,
        "integer" => ScalarKind::Integer,
        "long" => ScalarKind::Long,
        "bigInteger" => ScalarKind::BigInteger,
        "bigDecimal" => ScalarKind::BigDecimal,
        "string" => ScalarKind::String,
        "blob" => ScalarKind::Blob,
        "timestamp" => ScalarKind::Timestamp,
        "document" => ScalarKind::Document,
        _ => return None,
    })
}

fn value_of(scalar: ReadScalar) -> ShapeValue {
    match scalar {
        ReadScalar::Boolean(value) => ShapeValue::Boolean(value),
        ReadScalar::Byte(value) => ShapeValue::Byte(value),
        ReadScalar::Short(value) => ShapeValue::Short(value),
        ReadScalar::Integer(value) => ShapeValue::Integer(value),
        ReadScalar::Long(value) => ShapeValue::Long(value),
        ReadScalar::BigInteger(value) => ShapeValue::BigInteger(value),
        ReadScalar::BigDecimal(value) => ShapeValue::BigDecimal(value),
        ReadScalar::String(value) => ShapeValue::String(value),
        ReadScalar::Blob(value) => ShapeValue::Blob(value),
        ReadScalar::Timestamp(value) => ShapeValue::Timestamp(value),
        ReadScalar::Document(value) => ShapeValue::Document(value),
    }
}

fn spelled(alloc: Global, given: &Value) -> Result<Text, Failed> {
    let kind = scalar_kind(text_of(given, "kind")?).ok_or(Failed)?;
    let input = input_of(alloc, given)?;
    let Some(scalar) = scalar_of_text(alloc, kind, as_text(&input)?)? else {
        return optional(alloc, None);
    };
    let mut text = Text::from_str(alloc, "")?;
    push_scalar(alloc, &value_of(scalar), &mut text)?;
    optional(alloc, Some(text.as_str()))
}
