// What header lists spell, and how texts are written into one.
use crate::telling::Told;
use crate::types::format_of;
use serde_json::Value;
use smithy_http::{
    Headers, HttpError, dates, laws, list_texts, one_text, push_header_item, push_quoted_text,
    quote_header_value, tokens,
};
use smithy_types::{Text, Words};
use std::alloc::Global;
use test_rows::{Failed, item_bytes, items_of, long_text_of, text_of};

/// What a call of header lists answers, `None` where it is another's.
pub fn answer(alloc: Global, call: &str, given: &Value) -> Result<Option<Text>, Failed> {
    match call {
        "tokens" => read_tokens(alloc, given).map(Some),
        "list_texts" => read_list(alloc, given).map(Some),
        "dates" => read_dates(alloc, given).map(Some),
        "one_text" => read_one(alloc, given).map(Some),
        "quote_header_value" => quoted(alloc, given).map(Some),
        "push_header_item" | "push_quoted_text" => pushed(alloc, call, given).map(Some),
        _ => Ok(None),
    }
}

// Headers with these values, each under the name `A`.
fn headers_of(alloc: Global, given: &Value) -> Result<Headers, Failed> {
    let mut headers = Headers::new(alloc);
    for value in items_of(given, "values")? {
        let bytes = item_bytes(alloc, value)?;
        headers.append("A", bytes.as_slice()).ok().ok_or(Failed)?;
    }
    Ok(headers)
}

fn refused(alloc: Global, error: HttpError) -> Result<Text, Failed> {
    Ok(Text::from_string(format!(in alloc; "Err {error:?}")?))
}

fn told_words(alloc: Global, words: &Words) -> Result<Text, Failed> {
    let mut told = Told::new(alloc)?;
    told.tell_count("len", words.len())?;
    for word in words.as_slice() {
        told.tell_text("item", word.as_str())?;
    }
    Ok(told.into_text())
}

fn read_tokens(alloc: Global, given: &Value) -> Result<Text, Failed> {
    laws::tokens_are_spelled();
    match tokens(alloc, &headers_of(alloc, given)?, text_of(given, "name")?) {
        Ok(words) => told_words(alloc, &words),
        Err(error) => refused(alloc, error),
    }
}

fn read_list(alloc: Global, given: &Value) -> Result<Text, Failed> {
    laws::bytes_spell_one_list();
    laws::what_is_read_is_spelled();
    match list_texts(alloc, long_text_of(alloc, given, "text")?.as_str()) {
        Ok(words) => told_words(alloc, &words),
        Err(error) => refused(alloc, error),
    }
}

fn read_dates(alloc: Global, given: &Value) -> Result<Text, Failed> {
    let headers = headers_of(alloc, given)?;
    match dates(alloc, &headers, "a", format_of(given)?) {
        Ok(seconds) => {
            let mut told = Told::new(alloc)?;
            told.tell_count("len", seconds.len())?;
            for second in seconds.as_slice() {
                told.tell(format!(in alloc; "{second}")?.as_str())?;
            }
            Ok(told.into_text())
        }
        Err(error) => refused(alloc, error),
    }
}

fn read_one(alloc: Global, given: &Value) -> Result<Text, Failed> {
    match one_text(alloc, &headers_of(alloc, given)?, text_of(given, "name")?) {
        Ok(text) => {
            let mut told = Told::new(alloc)?;
            told.tell_option(text.as_ref().map(Text::as_str))?;
            Ok(told.into_text())
        }
        Err(error) => refused(alloc, error),
    }
}

fn quoted(alloc: Global, given: &Value) -> Result<Text, Failed> {
    let text = long_text_of(alloc, given, "text")?;
    let mut told = Told::new(alloc)?;
    told.tell_text("Ok", quote_header_value(alloc, text.as_str())?.as_str())?;
    Ok(told.into_text())
}

// A list with a text added as an item of it, or in quotes in any case.
fn pushed(alloc: Global, call: &str, given: &Value) -> Result<Text, Failed> {
    let mut list = String::from_str(alloc, text_of(given, "list")?)?;
    match call {
        "push_header_item" => push_header_item(&mut list, text_of(given, "text")?)?,
        _ => push_quoted_text(&mut list, text_of(given, "text")?)?,
    }
    Ok(Text::from_string(list))
}
