// Texts as items of a header list (RFC 7230, section 7, with `quoted-string` of section 3.2.6).
ghost use Rattle.std.specs.Prelude.{◌≡◌, ◌++◌, List, ℕ, IfOk, OnOk, OnErr, flat_map, encode_utf8, string_bytes};
ghost use Rattle.std.specs.List.{list_any};
ghost use Rattle.std.specs.Str.{chars};
ghost use Rattle.smithy_http.specs.Quoting.{begins_with_white_space, ends_with_white_space, is_delimiter, needs_quotes, mark_before, paired, quoted, list_item};

use smithy_types::{OutOfMemory, Text};
use std::alloc::Global;

/// The text as an item of a header list: in double quotes where its first or last character is white space or it
/// has a `"`, `,`, `(` or `)`, with a `\` before each `"` and `\` then (RFC 7230, section 3.2.6). Takes memory.
pub fn quote_header_value(alloc: Global, text: &str) -> Result<Text, OutOfMemory>
    ensures { IfOk result (λ item. item ≡ list_item text.now) }
{
    let mut item = String::new(alloc);
    push_header_item(&mut item, text)?;
    Ok(Text::from_string(item))
}

/// Adds the text as an item of a header list, as `quote_header_value` gives it. Where memory is wanted and not
/// there, a first part of the item may have been added.
pub fn push_header_item(list: &mut String, text: &str) -> Result<(), OutOfMemory>
    ensures ok { OnOk result (string_bytes list.new ≡ string_bytes list.old ++ list_item text.now) }
    ensures err { OnErr result ((part : List ℕ) × (string_bytes list.new ≡ string_bytes list.old ++ part)) }
{
    if needs_quotes(text) {
        return push_quoted_text(list, text);
    }
    list.push_str(text)?;
    Ok(())
}

/// Adds the text in double quotes, with a `\` before each `"` and `\` (`quoted-string` of RFC 7230, section 3.2.6).
/// Where memory is wanted and not there, a first part may have been added.
pub fn push_quoted_text(list: &mut String, text: &str) -> Result<(), OutOfMemory>
    ensures ok { OnOk result (string_bytes list.new ≡ string_bytes list.old ++ quoted text.now) }
    ensures err { OnErr result ((part : List ℕ) × (string_bytes list.new ≡ string_bytes list.old ++ part)) }
{
    list.push('"')?;
    push_paired(list, text)?;
    list.push('"')?;
    Ok(())
}

// Adds the text with a `\` before each `"` and `\`.
fn push_paired(list: &mut String, text: &str) -> Result<(), OutOfMemory>
    ensures ok { OnOk result (string_bytes list.new ≡ string_bytes list.old ++ flat_map paired text.now) }
    ensures err { OnErr result ((part : List ℕ) × (string_bytes list.new ≡ string_bytes list.old ++ part)) }
{
    for c in text.chars() {
        push_paired_char(list, c)?;
    }
    Ok(())
}

// Adds a character, with a `\` before a `"` or `\`.
fn push_paired_char(list: &mut String, c: char) -> Result<(), OutOfMemory>
    ensures ok { OnOk result
        (string_bytes list.new ≡ string_bytes list.old ++ flat_map paired (encode_utf8 c)) }
    ensures err { OnErr result ((part : List ℕ) × (string_bytes list.new ≡ string_bytes list.old ++ part)) }
{
    list.push_str(mark_before(c))?;
    list.push(c)?;
    Ok(())
}

// What stands before a character between quotes.
fn mark_before(c: char) -> &'static str
    ensures { result.now ≡ mark_before c }
{
    match c {
        '"' | '\\' => "\\",
        _ => "",
    }
}

// Whether the text has to stand in quotes.
fn needs_quotes(text: &str) -> bool
    ensures { result ≡ needs_quotes text.now }
{
    begins_with_white_space(text) || ends_with_white_space(text) || has_delimiter(text.as_bytes())
}

fn begins_with_white_space(text: &str) -> bool
    ensures { result ≡ begins_with_white_space (chars text.now) }
{
    match text.chars().next() {
        Some(c) => c.is_whitespace(),
        None => false,
    }
}

fn ends_with_white_space(text: &str) -> bool
    ensures { result ≡ ends_with_white_space (chars text.now) }
{
    match text.chars().next_back() {
        Some(c) => c.is_whitespace(),
        None => false,
    }
}

// Whether some byte is `"`, `,`, `(` or `)`.
fn has_delimiter(bytes: &[u8]) -> bool
    ensures { result ≡ list_any is_delimiter bytes.now }
{
    for b in bytes {
        if is_delimiter(*b) {
            return true;
        }
    }
    false
}

fn is_delimiter(b: u8) -> bool
    ensures { result ≡ is_delimiter b }
{
    matches!(b, b'"' | b',' | b'(' | b')')
}
