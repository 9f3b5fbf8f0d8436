// The payload of an input (Smithy, HTTP protocol bindings, httpPayload).
ghost use Rattle.std.specs.Prelude.{◌≡◌, option_map, IsTrue, IfSome};
ghost use Rattle.smithy_ids.specs.Kinds.{same_kind};
ghost use Rattle.smithy_ids.specs.declared.shape_type.ShapeType.TheVariants as kind;
ghost use Rattle.smithy_types.specs.Grammars.{is_header_value};
ghost use Rattle.smithy_schema.specs.References.{schema_of};
ghost use Rattle.smithy_binding.specs.Bodies.{is_raw_kind};
ghost use Rattle.smithy_aws.specs.Added.{if_legal, media_type, raw_payload, raw_type, type_of_kind};
ghost use Rattle.smithy_aws.specs.Payloads.{is_payload_member, payload_at, payload_of};

use smithy_ids::ShapeType;
use smithy_schema::{Binding, SchemaRef};
use smithy_types::is_header_value;

/// Whether a member is the payload.
pub(crate) fn is_payload_member(member: SchemaRef<'_>) -> bool
    ensures { result ≡ is_payload_member (schema_of member.entry) }
{
    matches!(member.request_binding(), Binding::Payload)
}

// The member at a position, where it is the payload.
fn payload_at<'t>(schema: SchemaRef<'t>, position: usize) -> Option<SchemaRef<'t>>
    ensures { option_map schema_of result ≡ payload_at (schema_of schema.entry) position }
{
    let member = schema.member_schema_by_index(position)?;
    if is_payload_member(member) {
        Some(member)
    } else {
        None
    }
}

/// The member that is the payload, if there is one. Linear in the number of members; takes no memory.
pub(crate) fn payload_of<'t>(schema: SchemaRef<'t>) -> Option<SchemaRef<'t>>
    ensures { option_map schema_of result ≡ payload_of (schema_of schema.entry) }
{
    for position in 0..schema.members().len() {
        if let Some(member) = payload_at(schema, position) {
            return Some(member);
        }
    }
    None
}

fn is_raw(member: SchemaRef<'_>) -> bool
    ensures { result ≡ is_raw_kind (schema_of member.entry).node.kind }
{
    matches!(member.shape_type(), ShapeType::Blob | ShapeType::String)
}

/// The payload whose bytes are the body, if there is one. Linear in the number of members; takes no memory.
pub(crate) fn raw_payload<'t>(schema: SchemaRef<'t>) -> Option<SchemaRef<'t>>
    ensures { option_map schema_of result ≡ raw_payload (schema_of schema.entry) }
{
    let payload = payload_of(schema)?;
    if is_raw(payload) { Some(payload) } else { None }
}

fn is_blob(member: SchemaRef<'_>) -> bool
    ensures { result ≡ same_kind (schema_of member.entry).node.kind kind.Blob }
{
    matches!(member.shape_type(), ShapeType::Blob)
}

// The content type of a raw payload of the member's kind.
fn type_of_kind(member: SchemaRef<'_>) -> &'static str
    ensures value { result.now ≡ type_of_kind (schema_of member.entry).node.kind }
    ensures legal { IsTrue (is_header_value result.now) }
{
    if is_blob(member) {
        "application/octet-stream"
    } else {
        "text/plain"
    }
}

// The text, where a header can have it.
fn if_legal<'t>(text: &'t str) -> Option<&'t str>
    ensures value { option_map (λ t. t.now) result ≡ if_legal text.now }
    ensures legal { IfSome result (λ t. IsTrue (is_header_value t.now)) }
{
    if is_header_value(text.as_bytes()) {
        Some(text)
    } else {
        None
    }
}

// The media type of a member, where it has one that a header can have.
fn media_type<'t>(member: SchemaRef<'t>) -> Option<&'t str>
    ensures value { option_map (λ t. t.now) result ≡ media_type (schema_of member.entry) }
    ensures legal { IfSome result (λ t. IsTrue (is_header_value t.now)) }
{
    let media = member.media_type()?;
    if_legal(media.value())
}

/// The content type of a raw payload: its media type, where a header can have it (Smithy, mediaType trait), else
/// `application/octet-stream` for a Blob, and `text/plain` for a String. Takes no memory.
pub(crate) fn raw_type<'t>(payload: SchemaRef<'t>) -> &'t str
    ensures value { result.now ≡ raw_type (schema_of payload.entry) }
    ensures legal { IsTrue (is_header_value result.now) }
{
    match media_type(payload) {
        Some(media) => media,
        None => type_of_kind(payload),
    }
}
