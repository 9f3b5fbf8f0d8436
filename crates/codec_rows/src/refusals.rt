// Refusals, and plain answers of what tells and reads.
use crate::kinds::KINDS;
use crate::told::{push_part, refusal};
use serde_json::Value;
use smithy_serde::{
    FirstRefusal, HeaderOmitSettings, KeepsDefaultHeaders, OmitFlags, SerdeError,
    capped_container_size, kind_word,
};
use smithy_types::{DocumentError, Text};
use std::alloc::Global;
use test_rows::{Failed, count_of, flag_of, text_of};

/// What a call answers.
pub fn answer(alloc: Global, call: &str, given: &Value) -> Result<Option<Text>, Failed> {
    let text = match call {
        "SerdeError::copy" => copy_told(alloc, &made(alloc, given)?)?,
        "SerdeError::from" => refusal(alloc, &SerdeError::from(document_error(alloc, given)?))?,
        "FirstRefusal::keep" => kept_told(alloc, made(alloc, given)?)?,
        "FirstRefusal::refused" => refused_told(alloc, made(alloc, given)?)?,
        "capped_container_size" => capped(alloc, given)?,
        "kind_word" => words(alloc)?,
        "OmitFlags::of" => flags_told(alloc, &flags_in(given))?,
        "KeepsDefaultHeaders" => flags_told(alloc, &Plain)?,
        _ => return Ok(None),
    };
    Ok(Some(text))
}

// The refusal with the name under `name`, and the text under `text`.
fn made(alloc: Global, given: &Value) -> Result<SerdeError, Failed> {
    let text = text_of(given, "text")?;
    Ok(match text_of(given, "name")? {
        "type_mismatch" => SerdeError::type_mismatch(alloc, text),
        "missing_member" => SerdeError::missing_member(alloc, text),
        "unknown_member" => SerdeError::unknown_member(alloc, text),
        "invalid_input" => SerdeError::invalid_input(alloc, text),
        "unsupported" => SerdeError::unsupported(alloc, text),
        "write_failed" => SerdeError::write_failed(alloc, text),
        "blob_decode_failed" => SerdeError::blob_decode_failed(alloc, text),
        "timestamp_parse_failed" => SerdeError::timestamp_parse_failed(alloc, text),
        "custom" => SerdeError::custom(alloc, text),
        "OutOfMemory" => SerdeError::OutOfMemory,
        name => return made_of_number(alloc, name, text, text_of(given, "value")?),
    })
}

fn made_of_number(
    alloc: Global,
    name: &str,
    target: &str,
    value: &str,
) -> Result<SerdeError, Failed> {
    match name {
        "numeric_coercion_overflow" => {
            Ok(SerdeError::numeric_coercion_overflow(alloc, target, value))
        }
        "numeric_coercion_lossy" => Ok(SerdeError::numeric_coercion_lossy(alloc, target, value)),
        _ => Err(Failed),
    }
}

fn document_error(alloc: Global, given: &Value) -> Result<DocumentError, Failed> {
    let message = Text::from_str(alloc, text_of(given, "text")?)?;
    Ok(match text_of(given, "name")? {
        "TypeMismatch" => DocumentError::TypeMismatch { message },
        "InvalidInput" => DocumentError::InvalidInput { message },
        "UnsupportedOperation" => DocumentError::UnsupportedOperation { message },
        "Custom" => DocumentError::Custom { message },
        "NumericCoercionOverflow" => DocumentError::NumericCoercionOverflow {
            target: message,
            value: Text::from_str(alloc, text_of(given, "value")?)?,
        },
        _ => DocumentError::OutOfMemory,
    })
}

// A refusal, and its copy.
fn copy_told(alloc: Global, error: &SerdeError) -> Result<Text, Failed> {
    let mut text = refusal(alloc, error)?;
    push_part(&mut text, refusal(alloc, &error.copy(alloc)?)?.as_str())?;
    Ok(text)
}

fn push_outcome(
    alloc: Global,
    text: &mut Text,
    outcome: Result<i32, SerdeError>,
) -> Result<(), Failed> {
    match outcome {
        Ok(number) => push_part(text, format!(in alloc; "Ok {number}")?.as_str()),
        Err(error) => push_part(text, refusal(alloc, &error)?.as_str()),
    }
}

fn again(first: &FirstRefusal) -> Result<i32, SerdeError> {
    first.again()?;
    Ok(0)
}

fn push_outcomes(
    alloc: Global,
    text: &mut Text,
    one: Result<i32, SerdeError>,
    other: Result<i32, SerdeError>,
) -> Result<(), Failed> {
    push_outcome(alloc, text, one)?;
    push_outcome(alloc, text, other)
}

// A value, handed on.
fn kept_value(alloc: Global) -> Result<i32, SerdeError> {
    let mut first = FirstRefusal::new(alloc);
    first.keep(Ok(5))
}

fn push_kept(alloc: Global, text: &mut Text, kept: Option<SerdeError>) -> Result<(), Failed> {
    match kept {
        Some(kept) => push_part(text, refusal(alloc, &kept)?.as_str()),
        None => push_part(text, "None"),
    }
}

// What is answered before a refusal, of a value, at the refusal, behind it, and what is kept.
fn kept_told(alloc: Global, error: SerdeError) -> Result<Text, Failed> {
    let mut text = Text::from_str(alloc, "")?;
    let mut first = FirstRefusal::new(alloc);
    push_outcomes(alloc, &mut text, again(&first), kept_value(alloc))?;
    let refused = first.keep(Err(error));
    push_outcomes(alloc, &mut text, refused, again(&first))?;
    push_kept(alloc, &mut text, first.into_kept())?;
    Ok(text)
}

// Whether one is kept before a refusal, what is answered at it and behind it, and whether one is kept then.
fn refused_told(alloc: Global, error: SerdeError) -> Result<Text, Failed> {
    let mut text = Text::from_str(alloc, "")?;
    let mut first = FirstRefusal::new(alloc);
    push_flag(&mut text, first.is_kept())?;
    let refused = first.refused(error);
    push_outcomes(alloc, &mut text, refused, again(&first))?;
    push_flag(&mut text, first.is_kept())?;
    Ok(text)
}

fn push_flag(text: &mut Text, flag: bool) -> Result<(), Failed> {
    push_part(text, if flag { "true" } else { "false" })
}

fn capped(alloc: Global, given: &Value) -> Result<Text, Failed> {
    let size = capped_container_size(count_of(given, "size")?);
    Ok(Text::from_string(format!(in alloc; "{size}")?))
}

// The words of all kinds.
fn words(alloc: Global) -> Result<Text, Failed> {
    let mut text = Text::from_str(alloc, "")?;
    for kind in KINDS {
        push_part(&mut text, kind_word(kind))?;
    }
    Ok(text)
}

// Settings without calls of their own.
#[derive(Drop)]
struct Plain;

impl KeepsDefaultHeaders for Plain {}

fn flags_in(given: &Value) -> OmitFlags {
    OmitFlags {
        content_type: flag_of(given, "content_type"),
        content_length: flag_of(given, "content_length"),
    }
}

// What is left out, and whether that is nothing.
fn flags_told(alloc: Global, settings: &dyn HeaderOmitSettings) -> Result<Text, Failed> {
    let flags = OmitFlags::of(settings);
    let omits = OmitFlags {
        content_type: settings.should_omit_default_content_type(),
        content_length: settings.should_omit_default_content_length(),
    };
    if omits != flags {
        return Err(Failed);
    }
    let is_default = flags == OmitFlags::default() && flags == OmitFlags::KEEP_ALL;
    let (content_type, length) = (flags.content_type, flags.content_length);
    Ok(Text::from_string(format!(in alloc; "{content_type} {length} {is_default}")?))
}
