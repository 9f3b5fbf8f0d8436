// Values of JSON as documents, by a node.
ghost use Rattle.std.specs.Prelude.{◌≡◌, false, Ok, option_map};
ghost use Rattle.smithy_types.specs.DocumentView.{view, number_view};
ghost use Rattle.smithy_types.specs.Documents as doc;
ghost use Rattle.smithy_wire.specs.ExactNumbers.{integer_number, plain_number};
ghost use Rattle.smithy_wire.specs.Forms as form_of;
ghost use Rattle.smithy_wire.specs.Unwire.{decimal_read};
ghost use Rattle.smithy_wire.specs.WireTimes.{before_blank};
ghost use Rattle.smithy_wire.specs.Words.{option_map_or};
ghost use Rattle.smithy_wire.specs.views.FormView.{form_view};
ghost use Rattle.smithy_wire.specs.views.WireOf.{form_in, style_in};
ghost use Rattle.smithy_wire.specs.views.WireReads.{Reads, ReadsGiven, ReadsItems, ReadsMembers, ReadsNumber, ReadsString, ReadsTime, ReadsValue};

use crate::exact_numbers::{
    decimal_number, integer_number, is_integer, plain_number, whole_decimal,
};
use crate::forms::Form;
use crate::time_texts::spelled_seconds;
use crate::unread::{ReadError, Step, cannot_read, part_step, within};
use crate::wire_json::WireJson;
use json::Value;
use smithy_ids::ShapeType;
use smithy_types::{Document, Documents, Format, Members, Number, Text};
use std::alloc::Global;

// The document of a number, or the refusal of its text.
fn number_document(
    alloc: Global,
    form: Form<'_>,
    text: &str,
    number: Option<Number>,
) -> Result<Document, ReadError>
    ensures { ReadsGiven (form_view form.entry) text.now (option_map number_view number) result }
{
    match number {
        Some(number) => Ok(Document::Number(number)),
        None => Err(cannot_read(alloc, text, form)),
    }
}

fn string_document(alloc: Global, text: &str) -> Result<Document, ReadError>
    ensures { Reads view (Ok (doc.string text.now)) result }
{
    Ok(Document::String(Text::from_str(alloc, text)?))
}

// A number where no node asks for one.
fn free_number(text: &str) -> Document
    ensures { view result ≡ option_map_or doc.number (plain_number text.now) doc.null }
{
    match plain_number(text) {
        Some(number) => Document::Number(number),
        None => Document::Null,
    }
}

fn big_integer(alloc: Global, text: &str) -> Result<Document, ReadError>
    ensures { ReadsNumber false form_of.big_integer text.now result }
{
    if is_integer(text) {
        return string_document(alloc, text);
    }
    match whole_decimal(alloc, text)? {
        Some(decimal) => Ok(Document::String(decimal)),
        None => Err(cannot_read(alloc, text, Form::BigInteger)),
    }
}

// A number of a kind; the fraction of a time may be dropped.
fn integer_document(
    alloc: Global,
    floors: bool,
    form: Form<'_>,
    text: &str,
) -> Result<Document, ReadError>
    ensures { ReadsGiven (form_view form.entry) text.now (integer_number floors text.now) result }
{
    number_document(alloc, form, text, integer_number(floors, text))
}

fn read_number(
    alloc: Global,
    floors: bool,
    form: Form<'_>,
    text: &str,
) -> Result<Document, ReadError>
    ensures { ReadsNumber floors (form_view form.entry) text.now result }
{
    match form {
        Form::Free => Ok(free_number(text)),
        Form::DateTime => integer_document(alloc, floors, form, text),
        Form::HttpDate => integer_document(alloc, floors, form, text),
        Form::Whole(kind) => {
            integer_document(alloc, floors && kind == ShapeType::Timestamp, form, text)
        }
        Form::BigInteger => big_integer(alloc, text),
        Form::BigDecimal => string_document(alloc, text),
        Form::Fields(_, _) => number_document(alloc, form, text, plain_number(text)),
        Form::Items(_) => number_document(alloc, form, text, plain_number(text)),
        Form::Entries(_) => number_document(alloc, form, text, plain_number(text)),
        Form::Document => number_document(alloc, form, text, plain_number(text)),
        Form::Other(_) => number_document(alloc, form, text, plain_number(text)),
    }
}

// What stands before a blank at the end of a text.
fn before_blank(text: &str) -> Option<&str>
    ensures { option_map (λ t. t.now) result ≡ before_blank text.now }
{
    text.strip_suffix(' ')
}

fn time_document(
    alloc: Global,
    floors: bool,
    form: Form<'_>,
    format: Format,
    text: &str,
) -> Result<Document, ReadError>
    ensures { ReadsTime floors format (form_view form.entry) text.now result }
{
    if let Some(front) = before_blank(text) {
        return string_document(alloc, front);
    }
    match spelled_seconds(alloc, floors, format, text)? {
        Some(seconds) => Ok(Document::Number(Number::from_i64(seconds))),
        None => Err(cannot_read(alloc, text, form)),
    }
}

fn decimal_document(alloc: Global, text: &str) -> Result<Document, ReadError>
    ensures { Reads view (Ok (decimal_read text.now)) result }
{
    match decimal_number(text) {
        Some(number) => Ok(Document::Number(number)),
        None => string_document(alloc, text),
    }
}

fn read_string(
    alloc: Global,
    floors: bool,
    form: Form<'_>,
    text: &str,
) -> Result<Document, ReadError>
    ensures { ReadsString floors (form_view form.entry) text.now result }
{
    match form {
        Form::DateTime => time_document(alloc, floors, form, Format::DateTime, text),
        Form::HttpDate => time_document(alloc, floors, form, Format::HttpDate, text),
        Form::BigInteger => decimal_document(alloc, text),
        Form::BigDecimal => decimal_document(alloc, text),
        Form::Free => string_document(alloc, text),
        Form::Fields(_, _) => string_document(alloc, text),
        Form::Items(_) => string_document(alloc, text),
        Form::Entries(_) => string_document(alloc, text),
        Form::Whole(_) => string_document(alloc, text),
        Form::Document => string_document(alloc, text),
        Form::Other(_) => string_document(alloc, text),
    }
}

/// The document that a value of JSON is by a node, or what can't be read. Takes memory.
#[cycle(read)]
pub(crate) fn document_of(
    alloc: Global,
    wire: WireJson<'_>,
    value: &Value<'_>,
) -> Result<Document, ReadError>
    ensures { ReadsValue (style_in wire.entry) (form_in wire.entry) value.now result }
{
    match value {
        Value::Null => Ok(Document::Null),
        Value::Bool(truth) => Ok(Document::Bool(*truth)),
        Value::Number(text) => read_number(alloc, wire.style.floors_times, wire.form, *text),
        Value::String(text) => read_string(alloc, wire.style.floors_times, wire.form, *text),
        Value::Array(items) => {
            let found = items_of(alloc, wire.element(), items)?;
            Ok(Document::Array(found))
        }
        Value::Object(members) => {
            let found = members_of(alloc, wire, members)?;
            Ok(Document::Object(found))
        }
    }
}

#[cycle(read)]
fn items_of(
    alloc: Global,
    wire: WireJson<'_>,
    items: &Vec<Value<'_>>,
) -> Result<Documents, ReadError>
    ensures { ReadsItems (style_in wire.entry) (form_in wire.entry) items.now.items result }
{
    let mut found = Documents::new(alloc);
    'items: for position in 0..items.len() {
        let value = &items[position];
        let tried = document_of(alloc, wire, value);
        let item = within(alloc, Step::Item(position), tried)?;
        found.push(item)?;
    }
    Ok(found)
}

#[cycle(read)]
fn members_of(
    alloc: Global,
    wire: WireJson<'_>,
    members: &Vec<(&str, Value<'_>)>,
) -> Result<Members, ReadError>
    ensures { ReadsMembers (style_in wire.entry) (form_in wire.entry) members.now.items result }
{
    let mut found = Members::new(alloc);
    'members: for member in members {
        let part = wire.read_part(member.0);
        let tried = document_of(alloc, part.place, &member.1);
        let document = within(alloc, part_step(wire.form, part.name), tried)?;
        found.insert(Text::from_str(alloc, part.name)?, document)?;
    }
    Ok(found)
}
