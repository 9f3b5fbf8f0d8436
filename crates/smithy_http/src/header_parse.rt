// What is read from the values of a header (RFC 7230, sections 3.2.2 and 7).
ghost use Rattle.std.specs.Prelude.{◌≡◌, Ok, Err, IfOk, IfErr, OnOk, MatchResult, option_map};
ghost use Rattle.std.specs.Str.{trim};
ghost use Rattle.smithy_http.specs.DateLists.{value_dates, dates_of};
ghost use Rattle.smithy_http.specs.Facts.{values_of_name};
ghost use Rattle.smithy_http.specs.HeaderValues.{IsRefusal, IsListRefusal, SpellInOrder, value_text, value_texts, tokens_of, one_text_of, refusal_of_second};
ghost use Rattle.smithy_http.specs.views.ItemReading.{AreItemsRead};
ghost use Rattle.smithy_http.specs.ListTexts.{list_texts};

use crate::date_list::push_date_list;
use crate::error::{HttpError, ListFault};
use crate::headers::Headers;
use crate::list_items::push_items;
use crate::pairs::lower_name;
use crate::values::{GetAllBytes, text_in};
use smithy_types::{Format, Longs, Text, Words};
use std::alloc::Global;

/// The texts of a header: those that its values spell, in order (RFC 7230, section 7, with `quoted-string` of
/// section 3.2.6). A value is a list of items between commas. White space round an item is left out. An item
/// that begins with `"` runs to the next `"`, and in it a `\` and a character are that character. A comma at the
/// very end begins no item, and a value without bytes has none. Names are compared without ASCII case.
///
/// The first value that cannot be read decides: `NotUtf8` where it is not UTF-8, `List(Unended)` where a quote of
/// it has no end, `List(Trailing)` where another byte than a comma follows a closing quote. Takes memory;
/// `OutOfMemory` where it is not there.
pub fn tokens(alloc: Global, headers: &Headers, name: &str) -> Result<Words, HttpError>
    ensures spelled { IfOk result (λ words. SpellInOrder (values_of_name name.now headers.now) words) }
    ensures value { IfOk result (λ words. tokens_of (values_of_name name.now headers.now) ≡ Ok words) }
    ensures err { IfErr result (λ e. IsRefusal e (tokens_of (values_of_name name.now headers.now))) }
{
    let lower = lower_name(alloc, name)?;
    let mut words = Words::new(alloc);
    push_texts(alloc, &mut words, headers.get_all_bytes(lower.as_str()))?;
    Ok(words)
}

/// The texts that a list spells, in order: one value, read as `tokens` reads each of a header (RFC 7230, section 7).
///
/// `List(Unended)` where a quote has no end, `List(Trailing)` where another byte than a comma follows a closing quote,
/// whichever stands first. Takes memory; `OutOfMemory` where it is not there.
pub fn list_texts(alloc: Global, text: &str) -> Result<Words, HttpError>
    ensures ok { IfOk result (λ words. list_texts text.now ≡ Ok words) }
    ensures err { IfErr result (λ e. IsListRefusal e (list_texts text.now)) }
{
    let mut words = Words::new(alloc);
    push_items(alloc, &mut words, text)?;
    Ok(words)
}

/// The seconds since 1970 of the dates of a header, in order. A value is a list of dates between commas: each
/// comma ends a date, or every second one where the format is `HttpDate`, whose dates have a comma themselves
/// (RFC 7231, section 7.1.1.1). White space round a date is left out, and a value without bytes has none. Names
/// are compared without ASCII case.
///
/// The first value that cannot be read decides: `NotUtf8` where it is not UTF-8, `List(Item)` where a date of it
/// is not of the format. Takes memory; `OutOfMemory` where it is not there.
pub fn dates(
    alloc: Global,
    headers: &Headers,
    name: &str,
    format: Format,
) -> Result<Longs, HttpError>
    ensures value { IfOk result (λ seconds.
        dates_of format (values_of_name name.now headers.now) ≡ Ok seconds) }
    ensures err { IfErr result (λ e. IsRefusal e (dates_of format (values_of_name name.now headers.now))) }
{
    let lower = lower_name(alloc, name)?;
    let mut seconds = Longs::new(alloc);
    push_dates(
        alloc,
        &mut seconds,
        headers.get_all_bytes(lower.as_str()),
        format,
    )?;
    Ok(seconds)
}

/// The one value of a header without its outer white space; none where the header has no value. Names are
/// compared without ASCII case.
///
/// `NotUtf8` where the first value is not UTF-8, or the first is and a second is not; `List(TooMany)` where both
/// are. Takes memory; `OutOfMemory` where it is not there.
pub fn one_text(alloc: Global, headers: &Headers, name: &str) -> Result<Option<Text>, HttpError>
    ensures value { IfOk result (λ text. one_text_of (values_of_name name.now headers.now) ≡ Ok text) }
    ensures err { IfErr result (λ e. IsRefusal e (one_text_of (values_of_name name.now headers.now))) }
{
    let lower = lower_name(alloc, name)?;
    match only_text(headers.get_all_bytes(lower.as_str()))? {
        Some(text) => Ok(Some(Text::from_str(alloc, text.trim())?)),
        None => Ok(None),
    }
}

// A value as a text.
fn text_of(value: &[u8]) -> Result<&str, HttpError>
    ensures { MatchResult result (λ t. value_text value.now ≡ Ok t.now) (λ e. value_text value.now ≡ Err e) }
{
    match text_in(value) {
        Some(text) => Ok(text),
        None => Err(HttpError::NotUtf8),
    }
}

// Adds the texts of a value.
fn push_value(alloc: Global, words: &mut Words, value: &[u8]) -> Result<(), HttpError>
    ensures ok { OnOk result (AreItemsRead (value_texts value.now) words.old words.new) }
    ensures err { IfErr result (λ e. IsRefusal e (value_texts value.now)) }
{
    let text = text_of(value)?;
    push_items(alloc, words, text)
}

// Adds the texts of values.
fn push_texts(alloc: Global, words: &mut Words, values: GetAllBytes<'_>) -> Result<(), HttpError>
    ensures ok { OnOk result (AreItemsRead (tokens_of values.entry) words.old words.new) }
    ensures err { IfErr result (λ e. IsRefusal e (tokens_of values.entry)) }
{
    for value in values {
        push_value(alloc, words, value)?;
    }
    Ok(())
}

// Adds the dates of a value.
fn push_value_dates(
    alloc: Global,
    seconds: &mut Longs,
    value: &[u8],
    format: Format,
) -> Result<(), HttpError>
    ensures ok { OnOk result (AreItemsRead (value_dates format value.now) seconds.old seconds.new) }
    ensures err { IfErr result (λ e. IsRefusal e (value_dates format value.now)) }
{
    let text = text_of(value)?;
    push_date_list(alloc, seconds, text, format)
}

// Adds the dates of values.
fn push_dates(
    alloc: Global,
    seconds: &mut Longs,
    values: GetAllBytes<'_>,
    format: Format,
) -> Result<(), HttpError>
    ensures ok { OnOk result (AreItemsRead (dates_of format values.entry) seconds.old seconds.new) }
    ensures err { IfErr result (λ e. IsRefusal e (dates_of format values.entry)) }
{
    for value in values {
        push_value_dates(alloc, seconds, value, format)?;
    }
    Ok(())
}

// The one text of values.
fn only_text<'h>(mut values: GetAllBytes<'h>) -> Result<Option<&'h str>, HttpError>
    ensures ok { IfOk result (λ text. one_text_of values.entry ≡ Ok (option_map (λ t. trim t.now) text)) }
    ensures err { IfErr result (λ e. one_text_of values.entry ≡ Err e) }
{
    let Some(first) = values.next() else {
        return Ok(None);
    };
    let text = text_of(first)?;
    match values.next() {
        Some(second) => Err(refusal_of_second(second)),
        None => Ok(Some(text)),
    }
}

// The refusal of a second value.
fn refusal_of_second(second: &[u8]) -> HttpError
    ensures { result ≡ refusal_of_second second.now }
{
    match text_in(second) {
        Some(_) => HttpError::List(ListFault::TooMany),
        None => HttpError::NotUtf8,
    }
}
