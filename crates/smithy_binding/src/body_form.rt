// What a body is, by the members of a schema (Smithy, HTTP protocol bindings, httpPayload).
ghost use Rattle.std.specs.Prelude.{◌≡◌, Some, None, true, not};
ghost use Rattle.smithy_binding.specs.Words.{member_at, is_bound};
ghost use Rattle.smithy_binding.specs.Bodies.{form_at, form_in, is_codec, is_raw_kind, is_codec_kind};
ghost use Rattle.smithy_binding.specs.views.Directed.{directed_of};
ghost use Rattle.smithy_binding.specs.views.PayloadKinds.{kind_if_payload, is_unbound_at};

use crate::binding::{binding_of, member_at, member_count};
use crate::direction::DirectedSchema;
use smithy_ids::ShapeType;
use smithy_schema::Binding;

/// What a body is.
#[derive(Clone, Copy, Drop)]
pub enum BodyForm {
    /// The bytes of a Blob or String payload.
    Raw,
    /// The codec's text of a payload of another kind.
    Payload,
    /// The codec's text of the structure of the unbound members.
    Unbound,
    /// No bytes: no member stands in the body.
    Nothing,
}

impl BodyForm {
    /// Whether the codec writes the body.
    pub fn is_codec(self) -> bool
        ensures { result ≡ is_codec self }
    {
        matches!(self, BodyForm::Payload | BodyForm::Unbound)
    }
}

/// A Blob or a String: the kinds of a payload whose bytes are the body.
pub fn is_raw_kind(kind: ShapeType) -> bool
    ensures { result ≡ is_raw_kind kind }
{
    matches!(kind, ShapeType::Blob | ShapeType::String)
}

/// The kinds of a payload whose document is the root of the body.
pub fn is_codec_kind(kind: ShapeType) -> bool
    ensures { result ≡ is_codec_kind kind }
{
    matches!(
        kind,
        ShapeType::Structure
            | ShapeType::Union
            | ShapeType::List
            | ShapeType::Map
            | ShapeType::Document
    )
}

// What a position of the members says of the body.
#[derive(Clone, Copy, Drop)]
struct BodyPart {
    // The kind of its member, where that is the payload.
    payload: Option<ShapeType>,
    is_unbound: bool,
}

fn part_of(member: DirectedSchema<'_>) -> BodyPart
    ensures payload { result.payload ≡ kind_if_payload (Some (directed_of member.entry)) }
    ensures unbound { result.is_unbound ≡ not (is_bound (directed_of member.entry)) }
{
    match binding_of(member) {
        Binding::Payload => BodyPart {
            payload: Some(member.schema.shape_type()),
            is_unbound: false,
        },
        Binding::Body => BodyPart {
            payload: None,
            is_unbound: true,
        },
        _ => BodyPart {
            payload: None,
            is_unbound: false,
        },
    }
}

fn part_at(schema: DirectedSchema<'_>, position: usize) -> BodyPart
    ensures payload { result.payload ≡ kind_if_payload (member_at (directed_of schema.entry) position) }
    ensures unbound { result.is_unbound ≡ is_unbound_at (directed_of schema.entry) position }
{
    match member_at(schema, position) {
        Some(member) => part_of(member),
        None => BodyPart {
            payload: None,
            is_unbound: false,
        },
    }
}

// The form for a payload of this kind, whatever stands beside it.
fn payload_form(kind: ShapeType) -> BodyForm
    ensures { result ≡ form_at (Some kind) true }
{
    if is_raw_kind(kind) {
        BodyForm::Raw
    } else {
        BodyForm::Payload
    }
}

// The form without a payload.
fn unbound_form(has_unbound: bool) -> BodyForm
    ensures { result ≡ form_at None has_unbound }
{
    if has_unbound {
        BodyForm::Unbound
    } else {
        BodyForm::Nothing
    }
}

/// What the body of a message by this schema is. Linear in the number of members; takes no memory.
#[tactic(auto, using(crate::proofs::PayloadMembers::finding_payload, crate::proofs::UnboundMembers::finding_unbound))]
#[inline]
pub fn body_form(schema: DirectedSchema<'_>) -> BodyForm
    ensures { result ≡ form_in (directed_of schema.entry) }
{
    let mut has_unbound = false;
    for position in 0..member_count(schema.schema) {
        let part = part_at(schema, position);
        if let Some(kind) = part.payload {
            return payload_form(kind);
        }
        has_unbound = has_unbound || part.is_unbound;
    }
    unbound_form(has_unbound)
}
