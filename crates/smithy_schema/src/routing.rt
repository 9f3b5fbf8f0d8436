// The routing word of a structure: which members a response has outside its body.
ghost use Rattle.std.specs.Prelude.{◌≡◌, ◌≤◌, length, if◌then◌else◌};
ghost use Rattle.std.specs.List.{list_any};
ghost use Rattle.std.specs.Simd.Lanes.{mask_l};
ghost use Rattle.smithy_schema.specs.views.Places.{places_of};
ghost use Rattle.smithy_schema.specs.views.Stored.{table_stored};
ghost use Rattle.smithy_schema.specs.views.StoredTraits.{traits_stored};
ghost use Rattle.smithy_schema.specs.views.ShownBindings.{is_bound_by};
ghost use Rattle.smithy_schema.specs.views.Routed.{is_as};
ghost use Rattle.smithy_schema.specs.Routing.{is_bound_at, bound_among, word_of};

use crate::defining::stored_at;
use crate::parts::SchemaIndex;
use crate::stored::{StoredDetails, StoredNode};
use crate::stored_traits::StoredTraits;

// How many members have a bit of their own.
const OWN_BITS: usize = 62;

// Some member stands in the body.
const IN_BODY: u64 = 1 << 62;

// Some member without a bit of its own doesn't.
const BEHIND: u64 = 1 << 63;

/// Whether a response has a member with these traits outside its body.
pub(crate) fn is_bound_by(traits: &StoredTraits) -> bool
    ensures { result ≡ is_bound_by (traits_stored traits.now) }
{
    traits.http_header().is_some()
        || traits.http_prefix_headers().is_some()
        || traits.marks.http_response_code
        || traits.marks.http_payload
}

// Whether it has the node at a place there.
fn is_bound_at(nodes: &[Option<StoredNode>], place: usize) -> bool
    ensures { result ≡ is_bound_at (table_stored nodes.now) place }
{
    let Some(node) = stored_at(nodes, place) else {
        return false;
    };
    match &node.details {
        StoredDetails::Outline(_) => false,
        StoredDetails::Full(details) => is_bound_by(&details.traits),
    }
}

// The bit, if it is set.
fn bit_where(is_set: bool, bit: u64) -> u64
    ensures { result ≡ (if is_set then bit else 0) }
{
    if is_set { bit } else { 0 }
}

// A bit for each of these places, the lowest for the first.
fn bits_of(nodes: &[Option<StoredNode>], members: &[SchemaIndex]) -> u64
    requires { length members.now ≤ 62 }
    ensures { result ≡ mask_l (bound_among (table_stored nodes.now) (places_of members.now)) }
{
    let mut bits = 0;
    let mut i = members.len();
    while i > 0 {
        i -= 1;
        bits = 2 * bits + bit_where(is_bound_at(nodes, members[i].0), 1);
    }
    bits
}

// Whether some of these places is bound, or, where that is asked, whether some is not.
fn has_some(nodes: &[Option<StoredNode>], members: &[SchemaIndex], bound: bool) -> bool
    ensures { result
        ≡ list_any (is_as bound) (bound_among (table_stored nodes.now) (places_of members.now)) }
{
    for member in members {
        if is_bound_at(nodes, member.0) == bound {
            return true;
        }
    }
    false
}

/// The routing word of the members at these places. Linear in their number; takes no memory.
pub(crate) fn routing_word(nodes: &[Option<StoredNode>], members: &[SchemaIndex]) -> u64
    ensures { result ≡ word_of (bound_among (table_stored nodes.now) (places_of members.now)) }
{
    let own = members.len().min(OWN_BITS);
    let in_body = bit_where(has_some(nodes, members, false), IN_BODY);
    let behind = bit_where(has_some(nodes, &members[own..], true), BEHIND);
    bits_of(nodes, &members[..own]) + in_body + behind
}
