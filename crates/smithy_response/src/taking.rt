// Which bound member comes to hand.
ghost use Rattle.std.specs.Prelude.{◌≡◌, ◌∷◌, IfOk};
ghost use Rattle.smithy_response.specs.Words.{name_of, schema_of};
ghost use Rattle.smithy_response.specs.Routes.{in_header, in_payload, source_of, is_plain_text, is_raw, are_empty, has_nothing};
ghost use Rattle.smithy_response.specs.views.Transporting.{IsTakenAt, TakesAt, TakesPrefix};

use crate::parts::{BoundMember, HeaderAtHand};
use crate::refusals::not_buffered;
use smithy_http::{GetAllBytes, Response};
use smithy_ids::ShapeType;
use smithy_schema::SchemaRef;
use smithy_serde::SerdeError;
use smithy_types::{OutOfMemory, Text};
use std::alloc::Global;

/// What the response has for a member.
pub(crate) fn member_taken(
    alloc: Global,
    response: &Response,
    member: SchemaRef<'_>,
) -> Result<BoundMember, SerdeError>
    ensures { TakesAt response.now (source_of (schema_of member.entry)) (schema_of member.entry) result }
{
    if let Some(header) = member.http_header() {
        return Ok(header_taken(alloc, response, member, header.value())?);
    }
    if let Some(prefix) = member.http_prefix_headers() {
        return Ok(prefix_taken(alloc, member, prefix.value())?);
    }
    if member.http_response_code().is_some() {
        return Ok(BoundMember::Status);
    }
    if member.http_payload().is_some() {
        return payload_taken(alloc, response, member);
    }
    Ok(BoundMember::Nothing)
}

// What the response has in a header.
fn header_taken(
    alloc: Global,
    response: &Response,
    member: SchemaRef<'_>,
    name: &str,
) -> Result<BoundMember, OutOfMemory>
    ensures { IfOk result (IsTakenAt response.now (in_header name.now) (schema_of member.entry)) }
{
    let mut values = response.headers().get_all_bytes(name);
    let Some(first) = values.next() else {
        return Ok(BoundMember::Nothing);
    };
    if has_nothing(member, first, values) {
        return Ok(BoundMember::Nothing);
    }
    let own = Text::from_str(alloc, name_in(member))?;
    let name = Text::from_str(alloc, name)?;
    Ok(BoundMember::Header(own, HeaderAtHand { name, list: None }))
}

// What the response has as a payload.
fn payload_taken(
    alloc: Global,
    response: &Response,
    member: SchemaRef<'_>,
) -> Result<BoundMember, SerdeError>
    ensures { TakesAt response.now in_payload (schema_of member.entry) result }
{
    if member.streaming() {
        return Ok(BoundMember::Nothing);
    }
    let Some(body) = response.body() else {
        return Err(not_buffered(alloc, name_in(member)));
    };
    if body.as_slice().is_empty() {
        return Ok(BoundMember::Nothing);
    }
    if is_raw(member) {
        return Ok(BoundMember::Raw);
    }
    Ok(BoundMember::Body)
}

// The headers behind a prefix.
fn prefix_taken(
    alloc: Global,
    member: SchemaRef<'_>,
    prefix: &str,
) -> Result<BoundMember, OutOfMemory>
    ensures { TakesPrefix prefix.now (schema_of member.entry) result }
{
    let own = Text::from_str(alloc, name_in(member))?;
    let prefix = Text::from_str(alloc, prefix)?;
    Ok(BoundMember::Prefix(own, prefix, None))
}

// The name of a member in messages.
fn name_in<'s>(member: SchemaRef<'s>) -> &'s str
    ensures { result.now ≡ name_of (schema_of member.entry) }
{
    match member.member_name() {
        Some(name) => name,
        None => "",
    }
}

// Whether the member is a text that is read whole.
fn is_plain_text(member: SchemaRef<'_>) -> bool
    ensures { result ≡ is_plain_text (schema_of member.entry) }
{
    matches!(member.shape_type(), ShapeType::String) && member.media_type().is_none()
}

// Whether the payload is taken as it is.
fn is_raw(member: SchemaRef<'_>) -> bool
    ensures { result ≡ is_raw (schema_of member.entry).node.kind }
{
    matches!(member.shape_type(), ShapeType::Blob | ShapeType::String)
}

// Whether the values of a header have nothing for the member, the first one beside the others.
fn has_nothing(member: SchemaRef<'_>, first: &[u8], values: GetAllBytes<'_>) -> bool
    ensures { result ≡ has_nothing (schema_of member.entry) (first.now ∷ values.entry) }
{
    !is_plain_text(member) && first.is_empty() && are_empty(values)
}

// Whether no value has a byte.
fn are_empty(values: GetAllBytes<'_>) -> bool
    ensures { result ≡ are_empty values.entry }
{
    for value in values {
        if !value.is_empty() {
            return false;
        }
    }
    true
}
