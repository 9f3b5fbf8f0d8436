// Which members a response may have outside its body, by the routing word of their schema.
ghost use Rattle.std.specs.Prelude.{◌≡◌};
ghost use Rattle.smithy_response.specs.Words.{list_any, is_response_bound, members_of, schema_of};
ghost use Rattle.smithy_response.specs.Handed.{has_payload, has_unbound};
ghost use Rattle.smithy_response.specs.views.BoundPositions.{HasNext, IsNextSet, IsNextBound, is_payload_position};

use smithy_schema::SchemaRef;

// The bit that is set where some member stands in the body. Below it stand the bits of the members.
const IN_BODY: u64 = 1 << 62;

// The bit that is set where a member without a bit of its own doesn't.
const BEHIND: u64 = 1 << 63;

/// Whether some member stands in the body.
pub(crate) fn has_unbound(schema: SchemaRef<'_>) -> bool
    ensures { result ≡ has_unbound (schema_of schema.entry) }
{
    schema.response_routing() / IN_BODY % 2 == 1
}

/// Whether some member doesn't.
pub(crate) fn has_bound(schema: SchemaRef<'_>) -> bool
    ensures { result ≡ list_any is_response_bound (members_of (schema_of schema.entry)) }
{
    let word = schema.response_routing();
    word >= BEHIND || word % IN_BODY != 0
}

// Whether the value of the member at a position is the body's.
fn is_payload_at(schema: SchemaRef<'_>, position: usize) -> bool
    ensures { result ≡ is_payload_position (schema_of schema.entry) position }
{
    match schema.member_schema_by_index(position) {
        Some(member) => member.http_payload().is_some(),
        None => false,
    }
}

/// Whether the value of some member is the body's.
pub(crate) fn has_payload(schema: SchemaRef<'_>) -> bool
    ensures { result ≡ has_payload (schema_of schema.entry) }
{
    let mut from = 0;
    while let Some(position) = next_bound(schema, from) {
        if is_payload_at(schema, position) {
            return true;
        }
        from = position + 1;
    }
    false
}

// The first bit from a place on that is set.
fn next_set(bits: u64, from: usize) -> Option<usize>
    ensures next { IsNextSet bits from result }
    ensures fits { HasNext result }
{
    if from >= 64 {
        return None;
    }
    let left = bits >> from;
    if left == 0 {
        return None;
    }
    Some(from + left.trailing_zeros() as usize)
}

/// The next position, from this one on, whose member a response may have outside its body: that of a bound member, or,
/// where the word doesn't tell all members, this one itself. None where no bound member is left. Takes no memory.
pub(crate) fn next_bound(schema: SchemaRef<'_>, from: usize) -> Option<usize>
    ensures next { IsNextBound (schema_of schema.entry) from result }
    ensures fits { HasNext result }
{
    if from >= schema.members().len() {
        return None;
    }
    let word = schema.response_routing();
    if word >= BEHIND {
        return Some(from);
    }
    next_set(word % IN_BODY, from)
}
