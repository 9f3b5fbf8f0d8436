// The items of a header list, read where they stand (RFC 7230, section 7).
ghost use Rattle.std.specs.Prelude.{◌≡◌, ◌≢◌, [], false, Some, Ok, string_bytes, MatchOption, MatchResult, IfOk, IfErr, OnOk};
ghost use Rattle.smithy_http.specs.HeaderValues.{IsListRefusal, IsTrailing};
ghost use Rattle.smithy_http.specs.ListTexts.{behind_blanks, behind_comma, quoted_text, quoted_item, bare_item, first_item, list_texts};
ghost use Rattle.smithy_http.specs.Refusals.{IsRefusedFor};
ghost use Rattle.smithy_http.specs.views.ItemReading.{IsItemRead, AreItemsRead, IsBehindBlank, IsCharRead, IsUnended};

use crate::error::{HttpError, ListFault};
use smithy_types::{OutOfMemory, Words};
use std::alloc::Global;

// What stands behind a blank at the front.
fn behind_blank(text: &str) -> Option<&str>
    ensures { MatchOption result (behind_blanks text.now ≡ text.now) (λ rest. IsBehindBlank text.now rest.now) }
{
    match text.strip_prefix(' ') {
        Some(rest) => Some(rest),
        None => text.strip_prefix('\t'),
    }
}

// What stands behind the blanks at the front.
fn behind_blanks(text: &str) -> &str
    ensures { result.now ≡ behind_blanks text.now }
{
    let mut rest = text;
    while let Some(behind) = behind_blank(rest) {
        rest = behind;
    }
    rest
}

// Adds a character from between quotes, or leaves a `\` out. Gives whether the next one is paired with that `\`.
fn push_char(text: &mut String, paired: bool, c: char) -> Result<bool, OutOfMemory>
    requires { paired ≡ false → c ≢ 34 }
    ensures { IfOk result (IsCharRead c (string_bytes text.old) paired (string_bytes text.new)) }
{
    if !paired && c == '\\' {
        return Ok(true);
    }
    text.push(c)?;
    Ok(false)
}

// Reads the text from behind an opening quote, and gives what stands behind the closing one.
fn read_quoted<'t>(text: &mut String, inner: &'t str) -> Result<&'t str, HttpError>
    requires { string_bytes text.old ≡ [] }
    ensures ok { IfOk result (λ rest. quoted_text false inner.now ≡ Some (string_bytes text.new, rest.now)) }
    ensures err { IfErr result (IsRefusedFor (HttpError.List ListFault.Unended) (IsUnended inner.now)) }
{
    let mut chars = inner.chars();
    let mut paired = false;
    while let Some(c) = chars.next() {
        if !paired && c == '"' {
            return Ok(chars.as_str());
        }
        paired = push_char(text, paired, c)?;
    }
    Err(HttpError::List(ListFault::Unended))
}

// What stands behind the comma after a quoted text, or nothing at the end.
fn behind_comma(text: &str) -> Result<&str, HttpError>
    ensures { MatchResult result (λ r. behind_comma text.now ≡ Ok r.now) (IsTrailing (behind_comma text.now)) }
{
    if text.is_empty() {
        return Ok(text);
    }
    match text.strip_prefix(',') {
        Some(rest) => Ok(rest),
        None => Err(HttpError::List(ListFault::Trailing)),
    }
}

// Adds the text from behind an opening quote, and gives what stands behind its item.
fn push_quoted<'t>(alloc: Global, words: &mut Words, inner: &'t str) -> Result<&'t str, HttpError>
    ensures ok { IfOk result (λ rest. IsItemRead (quoted_item inner.now) words.old words.new rest.now) }
    ensures err { IfErr result (λ e. IsListRefusal e (quoted_item inner.now)) }
{
    let mut text = String::new(alloc);
    let behind = read_quoted(&mut text, inner)?;
    let rest = behind_comma(behind_blanks(behind))?;
    words.push(text.as_str())?;
    Ok(rest)
}

// The text of an item that is not quoted, and what stands behind its comma.
fn bare_item(item: &str) -> (&str, &str)
    ensures text { result.0.now ≡ (bare_item item.now).0 }
    ensures rest { result.1.now ≡ (bare_item item.now).1 }
{
    match item.split_once(',') {
        Some((text, rest)) => (text.trim(), rest),
        None => (item.trim(), ""),
    }
}

// Adds the text of an item that is not quoted, and gives what stands behind it.
fn push_bare<'t>(words: &mut Words, item: &'t str) -> Result<&'t str, OutOfMemory>
    ensures { IfOk result (λ rest. IsItemRead (Ok (bare_item item.now)) words.old words.new rest.now) }
{
    let (text, rest) = bare_item(item);
    words.push(text)?;
    Ok(rest)
}

// Adds the text of the first item, and gives what stands behind it and its comma.
fn push_item<'t>(alloc: Global, words: &mut Words, text: &'t str) -> Result<&'t str, HttpError>
    ensures ok { IfOk result (λ rest. IsItemRead (first_item text.now) words.old words.new rest.now) }
    ensures err { IfErr result (λ e. IsListRefusal e (first_item text.now)) }
{
    let item = behind_blanks(text);
    match item.strip_prefix('"') {
        Some(inner) => push_quoted(alloc, words, inner),
        None => Ok(push_bare(words, item)?),
    }
}

// Adds the texts of a list.
pub(crate) fn push_items(alloc: Global, words: &mut Words, text: &str) -> Result<(), HttpError>
    ensures ok { OnOk result (AreItemsRead (list_texts text.now) words.old words.new) }
    ensures err { IfErr result (λ e. IsListRefusal e (list_texts text.now)) }
{
    let mut rest = text;
    while !rest.is_empty() {
        rest = push_item(alloc, words, rest)?;
    }
    Ok(())
}
