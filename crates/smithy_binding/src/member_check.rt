// What is asked of each member of a checked schema.
ghost use Rattle.std.specs.Prelude.{◌≡◌, ◌||◌, option_map};
ghost use Rattle.smithy_binding.specs.Words.{same_kind, is_scalar, is_unwritable, is_structure_or_union, binding_of, schema_of};
ghost use Rattle.smithy_ids.specs.declared.shape_type.ShapeType.TheVariants as kind;
ghost use Rattle.smithy_binding.specs.Checked.{is_bound_once, is_header_kind, has_label_kind, has_query_kind, has_header_kind, is_element_plain, has_plain_elements, is_plain_string, is_plain_list, is_text_map, is_query_map, has_prefix_kind, has_map_kind, is_sound_member};
ghost use Rattle.smithy_binding.specs.CheckedOutput.{is_response_bound_once, has_plain_header_elements, has_code_kind, is_sound_response_member};
ghost use Rattle.smithy_binding.specs.Broken.{has_query_map_kind};
ghost use Rattle.smithy_binding.specs.views.Checking.{list_element, is_sound_in, is_payload_in, is_bound_in};
ghost use Rattle.smithy_binding.specs.Bodies.{is_payload, is_raw_kind, is_codec_kind};

use crate::binding::is_bound;
use crate::body_form::{is_codec_kind, is_raw_kind};
use crate::direction::{DirectedSchema, Direction};
use smithy_ids::ShapeType;
use smithy_schema::{Binding, SchemaRef};
use smithy_strings::format_in;

/// Whether it has at most one binding of a request.
pub fn is_bound_once(member: SchemaRef<'_>) -> bool
    ensures { result ≡ is_bound_once (schema_of member.entry) }
{
    let count = u8::from(member.http_header().is_some())
        + u8::from(member.http_query().is_some())
        + u8::from(member.http_label().is_some())
        + u8::from(member.http_prefix_headers().is_some())
        + u8::from(member.http_query_params().is_some())
        + u8::from(member.http_payload().is_some());
    count <= 1
}

/// Whether it has at most one binding of a response.
pub fn is_response_bound_once(member: SchemaRef<'_>) -> bool
    ensures { result ≡ is_response_bound_once (schema_of member.entry) }
{
    let count = u8::from(member.http_header().is_some())
        + u8::from(member.http_prefix_headers().is_some())
        + u8::from(member.http_response_code().is_some())
        + u8::from(member.http_payload().is_some());
    count <= 1
}

// The kinds that a label and a query take.
fn is_scalar(kind: ShapeType) -> bool
    ensures { result ≡ is_scalar kind }
{
    kind.is_scalar()
}

fn is_header_kind(kind: ShapeType) -> bool
    ensures { result ≡ is_header_kind kind }
{
    match kind {
        ShapeType::Blob => true,
        _ => is_scalar(kind),
    }
}

/// The kinds of no value here.
pub fn is_unwritable(kind: ShapeType) -> bool
    ensures { result ≡ is_unwritable kind }
{
    kind.is_unwritable()
}

/// A structure or a union.
pub fn is_structure_or_union(kind: ShapeType) -> bool
    ensures { result ≡ is_structure_or_union kind }
{
    kind.is_structure_or_union()
}

/// The kinds of a payload.
pub fn is_payload_kind(kind: ShapeType) -> bool
    ensures { result ≡ (is_raw_kind kind || is_codec_kind kind) }
{
    is_raw_kind(kind) || is_codec_kind(kind)
}

// The elements, where the member is a list.
fn list_element<'t>(member: SchemaRef<'t>) -> Option<SchemaRef<'t>>
    ensures { option_map schema_of result ≡ list_element (schema_of member.entry) }
{
    match member.shape_type() {
        ShapeType::List => member.element(),
        _ => None,
    }
}

/// Whether a label is of a kind that labels take.
pub fn has_label_kind(member: SchemaRef<'_>) -> bool
    ensures { result ≡ has_label_kind (schema_of member.entry) }
{
    member.http_label().is_none() || is_scalar(member.shape_type())
}

/// Whether a query member is of a kind that the query takes.
pub fn has_query_kind(member: SchemaRef<'_>) -> bool
    ensures { result ≡ has_query_kind (schema_of member.entry) }
{
    if member.http_query().is_none() || is_scalar(member.shape_type()) {
        return true;
    }
    match list_element(member) {
        Some(element) => is_scalar(element.shape_type()),
        None => false,
    }
}

/// Whether a header member is of a kind that headers take.
pub fn has_header_kind(member: SchemaRef<'_>) -> bool
    ensures { result ≡ has_header_kind (schema_of member.entry) }
{
    if member.http_header().is_none() || is_header_kind(member.shape_type()) {
        return true;
    }
    match list_element(member) {
        Some(element) => is_header_kind(element.shape_type()),
        None => false,
    }
}

// The elements, where the member is a list, have no media type and the member's time format.
fn is_element_plain(member: SchemaRef<'_>) -> bool
    ensures { result ≡ is_element_plain (schema_of member.entry) }
{
    match list_element(member) {
        Some(element) => {
            element.media_type().is_none() && format_in(element) == format_in(member)
        }
        None => true,
    }
}

/// Whether the elements of a list in a header or the query have no media type and the list's time format.
pub fn has_plain_elements(member: SchemaRef<'_>) -> bool
    ensures { result ≡ has_plain_elements (schema_of member.entry) }
{
    (member.http_query().is_none() && member.http_header().is_none()) || is_element_plain(member)
}

/// The same of a list in a header alone.
pub fn has_plain_header_elements(member: SchemaRef<'_>) -> bool
    ensures { result ≡ has_plain_header_elements (schema_of member.entry) }
{
    member.http_header().is_none() || is_element_plain(member)
}

fn is_plain_string(node: Option<SchemaRef<'_>>) -> bool
    ensures { result ≡ is_plain_string (option_map schema_of node.entry) }
{
    match node {
        Some(node) => match node.shape_type() {
            ShapeType::String => node.media_type().is_none(),
            _ => false,
        },
        None => false,
    }
}

// A list of texts.
fn is_plain_list(node: Option<SchemaRef<'_>>) -> bool
    ensures { result ≡ is_plain_list (option_map schema_of node.entry) }
{
    match node {
        Some(node) => match node.shape_type() {
            ShapeType::List => node.media_type().is_none() && is_plain_string(node.element()),
            _ => false,
        },
        None => false,
    }
}

// A map from texts to texts.
fn is_text_map(member: SchemaRef<'_>) -> bool
    ensures { result ≡ is_text_map (schema_of member.entry) }
{
    match member.shape_type() {
        ShapeType::Map => is_plain_string(member.key()) && is_plain_string(member.value()),
        _ => false,
    }
}

// A map from texts to texts or to lists of these.
fn is_query_map(member: SchemaRef<'_>) -> bool
    ensures { result ≡ is_query_map (schema_of member.entry) }
{
    match member.shape_type() {
        ShapeType::Map => {
            is_plain_string(member.key())
                && (is_plain_string(member.value()) || is_plain_list(member.value()))
        }
        _ => false,
    }
}

/// Whether a map of headers is one from texts to texts.
pub fn has_prefix_kind(member: SchemaRef<'_>) -> bool
    ensures { result ≡ has_prefix_kind (schema_of member.entry) }
{
    member.http_prefix_headers().is_none() || is_text_map(member)
}

/// Whether a map of the query is one from texts to texts or to lists of these.
pub fn has_query_map_kind(member: SchemaRef<'_>) -> bool
    ensures { result ≡ has_query_map_kind (schema_of member.entry) }
{
    member.http_query_params().is_none() || is_query_map(member)
}

fn has_map_kind(member: SchemaRef<'_>) -> bool
    ensures { result ≡ has_map_kind (schema_of member.entry) }
{
    has_prefix_kind(member) && has_query_map_kind(member)
}

// What is asked of each member of an input.
fn is_sound_request_member(member: SchemaRef<'_>) -> bool
    ensures { result ≡ is_sound_member (schema_of member.entry) }
{
    member.has_cited_nodes()
        && is_bound_once(member)
        && !is_unwritable(member.shape_type())
        && has_label_kind(member)
        && has_query_kind(member)
        && has_header_kind(member)
        && has_plain_elements(member)
        && has_map_kind(member)
}

fn is_integer(member: SchemaRef<'_>) -> bool
    ensures { result ≡ same_kind (schema_of member.entry).node.kind kind.Integer }
{
    matches!(member.shape_type(), ShapeType::Integer)
}

/// Whether a response code is an Integer.
pub fn has_code_kind(member: SchemaRef<'_>) -> bool
    ensures { result ≡ has_code_kind (schema_of member.entry) }
{
    member.http_response_code().is_none() || is_integer(member)
}

// What is asked of each member of an output.
fn is_sound_response_member(member: SchemaRef<'_>) -> bool
    ensures { result ≡ is_sound_response_member (schema_of member.entry) }
{
    member.has_cited_nodes()
        && is_response_bound_once(member)
        && !is_unwritable(member.shape_type())
        && has_header_kind(member)
        && has_plain_header_elements(member)
        && has_prefix_kind(member)
        && has_code_kind(member)
}

/// What is asked of each member: its nodes are defined, it has at most one binding, a kind that is written and
/// that its binding takes, and plain elements in a header or the query; a map of headers is one from texts to texts, a
/// map of the query one from texts to texts or to lists of texts, and a response code is an Integer.
pub fn is_sound_member(member: SchemaRef<'_>, way: Direction) -> bool
    ensures { result ≡ is_sound_in way (schema_of member.entry) }
{
    match way {
        Direction::Request => is_sound_request_member(member),
        Direction::Response => is_sound_response_member(member),
    }
}

fn is_request_payload(member: SchemaRef<'_>) -> bool
    ensures { result ≡ is_payload (binding_of (schema_of member.entry)) }
{
    matches!(member.request_binding(), Binding::Payload)
}

/// Whether the member is the payload (httpPayload).
pub fn is_payload(member: SchemaRef<'_>, way: Direction) -> bool
    ensures { result ≡ is_payload_in way (schema_of member.entry) }
{
    match way {
        Direction::Request => is_request_payload(member),
        Direction::Response => member.http_payload().is_some(),
    }
}

/// Whether the member stands outside the body.
pub fn is_bound_in(member: SchemaRef<'_>, way: Direction) -> bool
    ensures { result ≡ is_bound_in way (schema_of member.entry) }
{
    match way {
        Direction::Request => is_bound(DirectedSchema {
            schema: member,
            way: Direction::Request,
        }),
        Direction::Response => member.has_http_response_binding(),
    }
}
