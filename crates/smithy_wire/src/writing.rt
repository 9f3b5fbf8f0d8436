// The text of a document, by a node.
ghost use Rattle.std.specs.Prelude.{◌≡◌, ◌≢◌, ◌∷◌, ◌++◌, [], codes, true, IfOk, option_map};
ghost use Rattle.json.specs.Print.{IsPrintable};
ghost use Rattle.json.specs.Reads.{token_of};
ghost use Rattle.json.specs.Token as token;
ghost use Rattle.json.specs.Tree.{json_tokens};
ghost use Rattle.smithy_document.specs.views.Printing.{Prints};
ghost use Rattle.smithy_types.specs.DocumentView.{view, number_view, items_view, members_view};
ghost use Rattle.smithy_types.specs.declared.date_time.Format.TheVariants.{EpochSeconds};
ghost use Rattle.smithy_wire.specs.Words.{integer_of_number, number_text};
ghost use Rattle.smithy_wire.specs.ExactNumbers.{is_number};
ghost use Rattle.smithy_wire.specs.Wire.{wire_time};
ghost use Rattle.smithy_wire.specs.WireText.{wire_text};
ghost use Rattle.smithy_wire.specs.views.FormView.{form_view};
ghost use Rattle.smithy_wire.specs.views.WireOf.{form_in, names_in};
ghost use Rattle.smithy_wire.specs.views.WireWrites.{time_in, Writes, WritesItems, WritesMembers, WritesNumber, WritesString};

use crate::exact_numbers::{is_integer, is_number, number_text};
use crate::forms::Form;
use crate::wire_json::WireJson;
use json::{Token, Writer};
use smithy_types::{
    Blob, DateTime, Document, Documents, Format, Members, Number, OutOfMemory, Text, TypesError,
};
use std::alloc::Global;

// For so many bytes of text there is room at first.
const FIRST_BYTES: usize = 128;

#[inline(always)]
fn write_token(writer: &mut Writer, token: Token<'_>) -> Result<(), OutOfMemory>
    requires { IsPrintable (token_of token) }
    ensures { Prints (token_of token.entry ∷ []) writer.old writer.new result }
{
    writer.token(token)
}

fn write_decimal(writer: &mut Writer, number: Number) -> Result<(), OutOfMemory>
    ensures { Prints (token.number (number_text (number_view number)) ∷ []) writer.old writer.new result }
{
    match number {
        Number::PosInt(value) => writer.u64(value),
        Number::NegInt(value) => writer.i64(value),
    }
}

// A number's decimal as a text.
fn write_quoted(alloc: Global, writer: &mut Writer, number: Number) -> Result<(), OutOfMemory>
    ensures { Prints (token.string (number_text (number_view number)) ∷ []) writer.old writer.new result }
{
    let text = number_text(alloc, number)?;
    write_token(writer, Token::String(text.as_str()))
}

/// The text of seconds in a calendar's format, where the year is 1 to 9999.
pub(crate) fn seconds_text(
    alloc: Global,
    format: Format,
    seconds: i64,
) -> Result<Option<Text>, OutOfMemory>
    requires { format ≢ EpochSeconds }
    ensures { IfOk result (λ o. o ≡ time_in format seconds) }
{
    match DateTime::from_secs(seconds).fmt(alloc, format) {
        Ok(text) => Ok(Some(text)),
        Err(TypesError::DateRange) => Ok(None),
        Err(_) => Err(OutOfMemory),
    }
}

// The same of a number.
fn time_text(alloc: Global, format: Format, number: Number) -> Result<Option<Text>, OutOfMemory>
    requires { format ≢ EpochSeconds }
    ensures { IfOk result (λ o. o ≡ time_in format (integer_of_number (number_view number))) }
{
    match number {
        Number::PosInt(value) => match i64::try_from(value) {
            Ok(seconds) => seconds_text(alloc, format, seconds),
            Err(_) => Ok(None),
        },
        Number::NegInt(value) => seconds_text(alloc, format, value),
    }
}

// Seconds as a text of the format; as a number where the year is not 1 to 9999.
fn write_time(
    alloc: Global,
    writer: &mut Writer,
    format: Format,
    number: Number,
) -> Result<(), OutOfMemory>
    requires { format ≢ EpochSeconds }
    ensures { Prints (json_tokens (wire_time format (number_view number))) writer.old writer.new result }
{
    match time_text(alloc, format, number)? {
        Some(text) => write_token(writer, Token::String(text.as_str())),
        None => write_decimal(writer, number),
    }
}

fn write_number(
    alloc: Global,
    writer: &mut Writer,
    form: Form<'_>,
    number: Number,
) -> Result<(), OutOfMemory>
    ensures { WritesNumber (form_view form.entry) (number_view number) writer.old writer.new result }
{
    match form {
        Form::DateTime => write_time(alloc, writer, Format::DateTime, number),
        Form::HttpDate => write_time(alloc, writer, Format::HttpDate, number),
        Form::BigInteger => write_quoted(alloc, writer, number),
        Form::BigDecimal => write_quoted(alloc, writer, number),
        Form::Free => write_decimal(writer, number),
        Form::Fields(_, _) => write_decimal(writer, number),
        Form::Items(_) => write_decimal(writer, number),
        Form::Entries(_) => write_decimal(writer, number),
        Form::Whole(_) => write_decimal(writer, number),
        Form::Document => write_decimal(writer, number),
        Form::Other(_) => write_decimal(writer, number),
    }
}

// A text with a blank behind it.
fn write_with_blank(alloc: Global, writer: &mut Writer, text: &str) -> Result<(), OutOfMemory>
    ensures { Prints (token.string (text.now ++ codes " ") ∷ []) writer.old writer.new result }
{
    let text = format!(in alloc; "{text} ")?;
    write_token(writer, Token::String(text.as_str()))
}

// The text of a number as the number that it is.
fn write_number_text(writer: &mut Writer, text: &str) -> Result<(), OutOfMemory>
    requires { is_number text.now ≡ true }
    ensures { Prints (token.number text.now ∷ []) writer.old writer.new result }
{
    writer.number(text)
}

fn write_string(
    alloc: Global,
    writer: &mut Writer,
    form: Form<'_>,
    text: &str,
) -> Result<(), OutOfMemory>
    ensures { WritesString (form_view form.entry) text.now writer.old writer.new result }
{
    match form {
        Form::DateTime => write_with_blank(alloc, writer, text),
        Form::HttpDate => write_with_blank(alloc, writer, text),
        Form::BigInteger => {
            if is_integer(text) {
                write_number_text(writer, text)
            } else {
                write_token(writer, Token::String(text))
            }
        }
        Form::BigDecimal => {
            if is_number(text) {
                write_number_text(writer, text)
            } else {
                write_token(writer, Token::String(text))
            }
        }
        Form::Free => write_token(writer, Token::String(text)),
        Form::Fields(_, _) => write_token(writer, Token::String(text)),
        Form::Items(_) => write_token(writer, Token::String(text)),
        Form::Entries(_) => write_token(writer, Token::String(text)),
        Form::Whole(_) => write_token(writer, Token::String(text)),
        Form::Document => write_token(writer, Token::String(text)),
        Form::Other(_) => write_token(writer, Token::String(text)),
    }
}

#[cycle(write)]
fn write_document(
    alloc: Global,
    writer: &mut Writer,
    wire: WireJson<'_>,
    document: &Document,
) -> Result<(), OutOfMemory>
    ensures { Writes wire.entry (view document.now) writer.old writer.new result }
{
    match document {
        Document::Null => write_token(writer, Token::Null),
        Document::Bool(truth) => write_token(writer, Token::Bool(*truth)),
        Document::Number(number) => write_number(alloc, writer, wire.form, *number),
        Document::String(text) => write_string(alloc, writer, wire.form, text.as_str()),
        Document::Array(items) => {
            write_token(writer, Token::BeginArray)?;
            write_items(alloc, writer, wire.element(), items)
        }
        Document::Object(members) => {
            write_token(writer, Token::BeginObject)?;
            write_members(alloc, writer, wire, members)
        }
    }
}

// The items of an array, and its end.
#[cycle(write)]
fn write_items(
    alloc: Global,
    writer: &mut Writer,
    wire: WireJson<'_>,
    documents: &Documents,
) -> Result<(), OutOfMemory>
    ensures { WritesItems wire.entry (items_view documents.now) writer.old writer.new result }
{
    let items = documents.as_slice();
    'items: for item in items {
        write_document(alloc, writer, wire, item)?;
    }
    write_token(writer, Token::EndArray)
}

// The members of an object, and its end.
#[cycle(write)]
fn write_members(
    alloc: Global,
    writer: &mut Writer,
    wire: WireJson<'_>,
    members: &Members,
) -> Result<(), OutOfMemory>
    ensures { WritesMembers wire.entry (members_view members.now) writer.old writer.new result }
{
    'members: for (name, member) in members.iter() {
        let part = wire.written_part(name);
        write_token(writer, Token::Key(part.name))?;
        write_document(alloc, writer, part.place, member)?;
    }
    write_token(writer, Token::EndObject)
}

/// The compact JSON text of a document by a node. Takes memory for the text.
#[tactic(auto, unfolding(crate::specs::WireText::wire_text))]
pub(crate) fn wire_blob(
    alloc: Global,
    wire: WireJson<'_>,
    document: &Document,
) -> Result<Blob, OutOfMemory>
    ensures { IfOk result
        (λ b. b ≡ wire_text (names_in wire.entry) (form_in wire.entry) (view document.now)) }
{
    let mut writer = Writer::new(Vec::with_capacity(alloc, FIRST_BYTES)?);
    write_document(alloc, &mut writer, wire, document)?;
    Ok(Blob::from_vec(writer.into_inner()))
}
