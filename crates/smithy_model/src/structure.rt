// What is said of structures as a whole.
ghost use Rattle.std.specs.Prelude.{◌≡◌, map};
ghost use Rattle.smithy_model.specs.Nodes as defined;
ghost use Rattle.smithy_model.specs.views.ModelView.{member_view, traits_view};
ghost use Rattle.smithy_model.specs.views.NodeView.{spots_of};

use crate::passed::spot_named;
use crate::shape::{Member, ShapeTraits};
use crate::spots::SpotMap;
use smithy_ids::{PayloadHint, ShapeType};

/// Whether a kind is that of structures or unions.
#[inline(always)]
pub fn is_structure(kind: ShapeType) -> bool
    ensures { result ≡ defined.is_structure kind }
{
    matches!(kind, ShapeType::Structure | ShapeType::Union)
}

fn is_outside(traits: &ShapeTraits<'_, '_>) -> bool
    ensures { result ≡ defined.is_outside (traits_view traits.now) }
{
    let traits = &traits.plain;
    traits.http_header.is_some()
        || traits.http_prefix_headers.is_some()
        || traits.http_query.is_some()
        || traits.http_query_params
        || traits.http_label
        || traits.http_payload
}

/// Whether each member stands outside the body of a request.
pub fn are_outside(members: &[Member<'_, '_>]) -> bool
    ensures { result ≡ defined.are_outside (map member_view members.now) }
{
    for member in members {
        if !is_outside(&member.traits) {
            return false;
        }
    }
    true
}

// Whether a shape of this name is a structure or a union.
fn is_of_structure(spots: &SpotMap<'_, '_, '_>, name: &str) -> bool
    ensures { result ≡ defined.is_of_structure (defined.spot_named (spots_of spots.now) name.now) }
{
    match spot_named(spots, name) {
        Some(spot) => is_structure(spot.shape.kind),
        None => false,
    }
}

fn is_structure_payload(spots: &SpotMap<'_, '_, '_>, member: &Member<'_, '_>) -> bool
    ensures { result ≡ defined.is_structure_payload (spots_of spots.now) (member_view member.now) }
{
    member.traits.plain.http_payload && is_of_structure(spots, member.target)
}

/// Whether a structure or a union is a payload among the members.
pub fn hint_of(spots: &SpotMap<'_, '_, '_>, members: &[Member<'_, '_>]) -> PayloadHint
    ensures { result ≡ defined.hint_of (spots_of spots.now) (map member_view members.now) }
{
    for member in members {
        if is_structure_payload(spots, member) {
            return PayloadHint::StructPayload;
        }
    }
    PayloadHint::NoStructPayload
}
