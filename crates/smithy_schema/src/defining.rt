// Whether a table takes a node: the faults in what the node cites.
ghost use Rattle.std.specs.Prelude.{◌≡◌, ◌+◌, nat_lt, option_map};
ghost use Rattle.std.specs.List.{list_all};
ghost use Rattle.smithy_schema.specs.Nodes.{node_at};
ghost use Rattle.smithy_schema.specs.views.Places.{place_of, places_of};
ghost use Rattle.smithy_schema.specs.views.Stored.{node_stored, table_stored};
ghost use Rattle.smithy_schema.specs.views.Kept.{kept_at};
ghost use Rattle.smithy_schema.specs.Defining.{is_declared, has_declared_places, index_at, member_fault, members_fault, citing_fault};

use crate::error::SchemaError;
use crate::parts::SchemaIndex;
use crate::schema::Schema;
use crate::stored::{StoredMember, StoredNode};

/// The node at a place; a hole counts as none.
pub(crate) fn stored_at(nodes: &[Option<StoredNode>], place: usize) -> Option<&StoredNode>
    ensures node { option_map (λ n. node_stored n.now) result ≡ node_at (table_stored nodes.now) place }
    ensures kept { option_map (λ n. n.now) result ≡ kept_at nodes.now place }
{
    match nodes.get(place) {
        Some(Some(node)) => Some(node),
        _ => None,
    }
}

// The member index of the node at a place.
fn index_of(nodes: &[Option<StoredNode>], place: usize) -> Option<usize>
    ensures { result ≡ index_at (node_at (table_stored nodes.now) place) }
{
    match &stored_at(nodes, place)?.head().membership {
        StoredMember::Indexed(_, index) => Some(*index),
        _ => None,
    }
}

// The fault of a place as the member at a position.
fn position_fault(
    nodes: &[Option<StoredNode>],
    position: usize,
    place: usize,
) -> Option<SchemaError>
    ensures { result ≡ member_fault (table_stored nodes.now) position place }
{
    match index_of(nodes, place) {
        None => Some(SchemaError::NotMember),
        Some(index) => {
            if index == position {
                None
            } else {
                Some(SchemaError::Order)
            }
        }
    }
}

// The first fault of the members.
fn first_fault(nodes: &[Option<StoredNode>], members: &[SchemaIndex]) -> Option<SchemaError>
    ensures { result ≡ members_fault (table_stored nodes.now) 0 (places_of members.now) }
{
    for (position, member) in members.iter().enumerate() {
        let fault = position_fault(nodes, position, member.0);
        if fault.is_some() {
            return fault;
        }
    }
    None
}

fn is_below(place: Option<SchemaIndex>, declared: usize) -> bool
    ensures { result ≡ is_declared declared (place_of place) }
{
    match place {
        Some(index) => index.0 < declared,
        None => true,
    }
}

fn are_below(places: &[SchemaIndex], declared: usize) -> bool
    ensures { result ≡ list_all (λ i. nat_lt i declared) (places_of places.now) }
{
    for place in places {
        if place.0 >= declared {
            return false;
        }
    }
    true
}

// Each place that the node cites is among the first `declared`.
fn cites_declared(schema: &Schema<'_>, declared: usize) -> bool
    ensures { result ≡ has_declared_places declared schema.now }
{
    let places = schema.places;
    are_below(schema.members, declared)
        && is_below(places.target, declared)
        && is_below(places.element, declared)
        && is_below(places.key, declared)
        && is_below(places.value, declared)
}

/// The first fault of what the node cites, where the first `declared` places are declared.
pub(crate) fn cited_fault(
    nodes: &[Option<StoredNode>],
    declared: usize,
    schema: &Schema<'_>,
) -> Option<SchemaError>
    ensures { result ≡ citing_fault (table_stored nodes.now) declared schema.now }
{
    if !cites_declared(schema, declared) {
        return Some(SchemaError::Unknown);
    }
    first_fault(nodes, schema.members)
}
