// The text of a value where its member is bound (Smithy, HTTP protocol bindings; timestampFormat, mediaType).
ghost use Rattle.std.specs.Prelude.{◌≡◌, IfOk, IfErr, is_some};
ghost use Rattle.smithy_binding.specs.Words.{schema_of, binding_shown, label_at};
ghost use Rattle.smithy_binding.specs.Bindings.{place_at};
ghost use Rattle.smithy_binding.specs.views.StoredTexts.{write_at, IsThere, IsText, IsMemberText, LacksYear, LacksText, LacksMemberText, element_text};

use crate::refusal::no_year;
use smithy_ids::TimestampFormat;
use smithy_schema::{Binding, SchemaIndex, SchemaRef, Schemas};
use smithy_serde::{SerdeError, ShapeValue};
use smithy_strings::{Place, format_in, text_or_none};
use std::alloc::Global;
use std::borrow::CowStr;

/// Where the texts of a member with this binding stand.
pub fn place_of(binding: Binding<'_>) -> Place
    ensures { result ≡ place_at (binding_shown binding.entry) }
{
    match binding {
        Binding::Header(_) => Place::Header,
        Binding::Prefix(_) => Place::Header,
        Binding::Label => Place::Label,
        Binding::Query(_) => Place::Query,
        Binding::QueryMap => Place::Query,
        Binding::Payload => Place::Query,
        Binding::Body => Place::Query,
    }
}

fn has_media_type(schema: SchemaRef<'_>) -> bool
    ensures { result ≡ is_some (schema_of schema.entry).node.traits.media_type }
{
    schema.media_type().is_some()
}

// The time format of the node at a place.
fn format_at(table: &Schemas, node: SchemaIndex) -> Option<TimestampFormat>
    ensures { result ≡ (label_at table.now node.0).time_format }
{
    format_in(table.get(node)?)
}

// The text of a scalar. Of the values that a binding takes, only a time may have none.
#[inline(always)]
fn text_or_no_year<'w>(
    alloc: Global,
    format: Option<TimestampFormat>,
    has_media_type: bool,
    place: Place,
    value: &'w ShapeValue,
) -> Result<CowStr<'w, Global>, SerdeError>
    ensures ok { IfOk result
        (IsText format has_media_type place value.now) }
    ensures err { IfErr result (LacksText format has_media_type place value.now) }
{
    match text_or_none(alloc, format, has_media_type, place, value)? {
        Some(text) => Ok(text),
        None => Err(no_year(alloc)),
    }
}

/// The text of a scalar at a place, by the time format and the media type of its member; the value's own text, borrowed,
/// where it stands ready. `Custom` for a time whose year is not in the calendar of its format. Takes memory for a text
/// that is made.
#[inline(always)]
pub fn text_of<'w>(
    alloc: Global,
    member: SchemaRef<'_>,
    place: Place,
    value: &'w ShapeValue,
) -> Result<CowStr<'w, Global>, SerdeError>
    ensures ok { IfOk result
        (IsMemberText (schema_of member.entry) place value.now) }
    ensures err { IfErr result (LacksMemberText (schema_of member.entry) place value.now) }
{
    text_or_no_year(
        alloc,
        format_in(member),
        has_media_type(member),
        place,
        value,
    )
}

/// The text of an element by the time format of the node with which it was written, borrowed as `text_of` gives it, with
/// the same refusal and memory.
pub fn element_text<'w>(
    alloc: Global,
    table: &Schemas,
    place: Place,
    node: SchemaIndex,
    value: &'w ShapeValue,
) -> Result<CowStr<'w, Global>, SerdeError>
    ensures ok { IfOk result (IsThere (element_text place (write_at table.now node.0 value.now))) }
    ensures err { IfErr result (LacksYear (element_text place (write_at table.now node.0 value.now))) }
{
    text_or_no_year(alloc, format_at(table, node), false, place, value)
}
