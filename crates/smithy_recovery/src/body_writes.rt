// What stands in a body: a payload, or the unbound members (Smithy, HTTP protocol bindings, httpPayload).
ghost use Rattle.std.specs.Prelude.{◌≡◌, not, IfOk, Some, option_map};
ghost use Rattle.smithy_schema.specs.Nodes.{Table, is_bound};
ghost use Rattle.smithy_schema.specs.References.{schema_of as node};
ghost use Rattle.smithy_serde.specs.StoredValues.{value_in, IsDefined};
ghost use Rattle.smithy_serde.specs.ValueRead.{IsPlaced};
ghost use Rattle.smithy_serde.specs.Values as value;
ghost use Rattle.smithy_serde.specs.Values.{list_of};
ghost use Rattle.smithy_recovery.specs.BodyParts.{text_payload, held_value, held_writes};
ghost use Rattle.smithy_binding.specs.Bodies.{has_unbound_member};
ghost use Rattle.smithy_recovery.specs.views.Keeping.{Keeps, KeepsHeld, KeepsMembers};
ghost use Rattle.smithy_recovery.specs.views.KeptBodies.{is_unbound_at, KeepsPayloadValue, KeepsPayload, KeepsBody};

use crate::error::RecoverError;
use crate::header_values::text_in;
use crate::values::own_place;
use smithy_ids::ShapeType;
use smithy_schema::{Binding, SchemaIndex, SchemaRef, Schemas};
use smithy_serde::{
    Codec, ShapeDeserializer, ShapeValue, WriteList, read_struct_value, read_value,
};
use smithy_types::{Blob, OutOfMemory};
use std::alloc::Global;

// The bytes of a body.
#[tactic(auto, unfolding(smithy_serde::specs::StoredValues::value_in, smithy_serde::specs::StoredValues::IsDefined))]
fn blob_payload(alloc: Global, body: &[u8]) -> Result<ShapeValue, OutOfMemory>
    ensures value { IfOk result (λ v. (t : Table) → value_in t v ≡ value.scalar (value.blob body.now)) }
    ensures defined { IfOk result (λ v. (t : Table) → IsDefined t v) }
{
    Ok(ShapeValue::Blob(Blob::new(alloc, body)?))
}

// A text as a value.
#[tactic(auto, unfolding(smithy_serde::specs::StoredValues::value_in, smithy_serde::specs::StoredValues::IsDefined))]
fn text_value(alloc: Global, text: &str) -> Result<ShapeValue, OutOfMemory>
    ensures value { IfOk result (λ v. (t : Table) → value_in t v ≡ value.scalar (value.text text.now)) }
    ensures defined { IfOk result (λ v. (t : Table) → IsDefined t v) }
{
    ShapeValue::text(alloc, text)
}

// The text of a body. `NotPlaced` where it is none.
fn text_payload(alloc: Global, body: &[u8]) -> Result<ShapeValue, RecoverError>
    ensures { (t : Table) → Keeps t (text_payload body.now) result }
{
    match text_in(body) {
        Some(text) => Ok(text_value(alloc, text)?),
        None => Err(RecoverError::NotPlaced),
    }
}

// What a reader has at hand, by the node.
fn value_at_hand<D: ShapeDeserializer>(
    alloc: Global,
    reader: &mut D,
    table: &Schemas,
    member: SchemaRef<'_>,
) -> Result<ShapeValue, RecoverError>
    requires placed { IsPlaced (node member).table (node member) }
    requires table { (node member).table ≡ table.now }
    ensures { KeepsHeld table.now (D.at_hand reader.old).held (held_value (node member.entry)) result }
{
    match read_value(alloc, reader, table, own_place(member)) {
        Ok(value) => Ok(value),
        Err(error) => Err(RecoverError::from(error)),
    }
}

// What a codec's reader has of a body, by the node, where that is told. `NotPlaced` where it refuses.
fn codec_payload<C: Codec>(
    alloc: Global,
    codec: &C,
    table: &Schemas,
    member: SchemaRef<'_>,
    body: &[u8],
) -> Result<ShapeValue, RecoverError>
    requires placed { IsPlaced (node member).table (node member) }
    requires table { (node member).table ≡ table.now }
    ensures { KeepsHeld table.now (C.holds codec.now body.now) (held_value (node member.entry)) result }
{
    match codec.create_deserializer(alloc, body) {
        Ok(mut reader) => value_at_hand(alloc, &mut reader, table, member),
        Err(_) => Err(RecoverError::OutOfMemory),
    }
}

// The members of the structure that a reader has at hand, by the schema.
fn members_at_hand<D: ShapeDeserializer>(
    alloc: Global,
    reader: &mut D,
    table: &Schemas,
    schema: SchemaRef<'_>,
) -> Result<WriteList, RecoverError>
    requires { (node schema).table ≡ table.now }
    ensures { KeepsMembers table.now (D.at_hand reader.old).held (held_writes (node schema.entry)) result }
{
    match read_struct_value(alloc, reader, table, schema) {
        Ok(writes) => Ok(writes),
        Err(error) => Err(RecoverError::from(error)),
    }
}

// The writes of the unbound members, in index order, where a codec's reader tells what it has of a body. `NotPlaced` where it
// refuses.
fn unbound_writes<C: Codec>(
    alloc: Global,
    codec: &C,
    table: &Schemas,
    schema: SchemaRef<'_>,
    body: &[u8],
) -> Result<WriteList, RecoverError>
    requires { (node schema).table ≡ table.now }
    ensures { KeepsMembers table.now (C.holds codec.now body.now) (held_writes (node schema.entry)) result }
{
    match codec.create_deserializer(alloc, body) {
        Ok(mut reader) => members_at_hand(alloc, &mut reader, table, schema),
        Err(_) => Err(RecoverError::OutOfMemory),
    }
}

// The value of a payload by its kind.
fn payload_value<C: Codec>(
    alloc: Global,
    codec: &C,
    table: &Schemas,
    member: SchemaRef<'_>,
    body: &[u8],
) -> Result<ShapeValue, RecoverError>
    requires placed { IsPlaced (node member).table (node member) }
    requires table { (node member).table ≡ table.now }
    ensures { KeepsPayloadValue table.now (C.holds codec.now) (node member.entry) body.now result }
{
    match member.shape_type() {
        ShapeType::Blob => Ok(blob_payload(alloc, body)?),
        ShapeType::String => text_payload(alloc, body),
        _ => codec_payload(alloc, codec, table, member, body),
    }
}

/// The value of a payload: its bytes or its text where it is a Blob or a String, else what a codec's reader has of it by the node,
/// where that is told; nothing of an empty body. `NotPlaced` where the bytes are no text or the reader refuses. Takes memory.
pub fn payload_part<C: Codec>(
    alloc: Global,
    codec: &C,
    table: &Schemas,
    member: SchemaRef<'_>,
    body: &[u8],
) -> Result<Option<ShapeValue>, RecoverError>
    requires placed { IsPlaced (node member).table (node member) }
    requires table { (node member).table ≡ table.now }
    ensures { KeepsPayload table.now (C.holds codec.now) (node member.entry) body.now result }
{
    if body.is_empty() {
        return Ok(None);
    }
    let value = payload_value(alloc, codec, table, member, body)?;
    Ok(Some(value))
}

// Whether a member stands in the body.
fn is_unbound(member: SchemaRef<'_>) -> bool
    ensures { result ≡ not (is_bound (node member.entry)) }
{
    matches!(member.request_binding(), Binding::Body)
}

// Whether the member at a place stands in the body.
fn is_unbound_at(table: &Schemas, place: SchemaIndex) -> bool
    ensures { result ≡ is_unbound_at table.now place.0 }
{
    match table.get(place) {
        Some(member) => is_unbound(member),
        None => false,
    }
}

// Whether some member stands in the body.
fn has_unbound_member(table: &Schemas, schema: SchemaRef<'_>) -> bool
    requires { (node schema).table ≡ table.now }
    ensures { result ≡ has_unbound_member (node schema.entry) }
{
    schema
        .members()
        .iter()
        .any(|place| is_unbound_at(table, *place))
}

/// The writes of the body where some member stands in it, by what a codec's reader has of it, where that is told; none where there
/// is no such member. `NotPlaced` where the reader refuses. Takes memory.
pub fn body_writes<C: Codec>(
    alloc: Global,
    codec: &C,
    table: &Schemas,
    schema: SchemaRef<'_>,
    body: &[u8],
) -> Result<WriteList, RecoverError>
    requires { (node schema).table ≡ table.now }
    ensures { KeepsBody table.now (C.holds codec.now) (node schema.entry) body.now result }
{
    if has_unbound_member(table, schema) {
        unbound_writes(alloc, codec, table, schema, body)
    } else {
        Ok(WriteList::new(alloc))
    }
}
