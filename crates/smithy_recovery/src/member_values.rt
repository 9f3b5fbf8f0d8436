// The writes of an input, read from a request (Smithy, HTTP protocol bindings).
ghost use Rattle.std.specs.Prelude.{◌≡◌, IsTrue, IfOk, OnOk};
ghost use Rattle.std.specs.List.{list_all};
ghost use Rattle.smithy_schema.specs.Nodes.{members_of};
ghost use Rattle.smithy_schema.specs.Places.{places_of};
ghost use Rattle.smithy_schema.specs.References.{schema_of};
ghost use Rattle.smithy_serde.specs.StoredValues.{AreDefined};
ghost use Rattle.smithy_serde.specs.ValueRead.{IsPlaced};
ghost use Rattle.smithy_binding.specs.Checked.{has_map_kind, checked_input};
ghost use Rattle.smithy_recovery.specs.views.KeptEntries.{has_entry_nodes};
ghost use Rattle.smithy_recovery.specs.views.Keeping.{KeepsPartOf};
ghost use Rattle.smithy_recovery.specs.views.KeptMembers.{query_read, KeepsQueryMap, KeepsMember, AddsPart, StaysDefinedBy, is_sound_at, AddsMember, AddsMembers, KeepsCut, KeepsTexts, ReadsRequest};

use crate::body_writes::{body_writes, payload_part};
use crate::error::RecoverError;
use crate::header_values::{are_few, header_part};
use crate::label_values::label_part;
use crate::path_texts::{LabelText, LabelTexts, by_name, path_texts};
use crate::prefix_entries::prefix_part;
use crate::query_entries::{query_map_part, query_names};
use crate::query_texts::{NamedPieces, kept_pieces, texts_named};
use crate::query_values::query_part;
use smithy_binding::{HttpBindingProtocol, cut, template_of};
use smithy_http::Request;
use smithy_schema::{Binding, SchemaIndex, SchemaRef, Schemas};
use smithy_serde::{Codec, ShapeValue, WriteList};
use smithy_types::{OutOfMemory, before_query};
use std::alloc::Global;

// A request that was cut by a template, and the table of the members that are read from it.
#[derive(Drop)]
struct CutRequest<'c, 's> {
    request: &'s Request,
    table: &'s Schemas,
    // Whether the request has so few headers that a name is looked up as it stands.
    few_headers: bool,
    // The texts of the labels.
    labels: &'c LabelTexts<'s>,
    // The pieces of the template's own query and those of the request's, as far as they tell what is left of these.
    own: &'c NamedPieces<'s>,
    pieces: &'c NamedPieces<'s>,
    // The structure whose members are read.
    schema: SchemaRef<'s>,
}

// The value of a query member, by the texts that stand under its name.
fn query_member(
    alloc: Global,
    cut: &CutRequest<'_, '_>,
    name: &str,
    member: SchemaRef<'_>,
) -> Result<Option<ShapeValue>, RecoverError>
    ensures { KeepsPartOf (schema_of member.entry) (query_read cut.now name.now) result }
{
    let texts = texts_named(alloc, cut.own, cut.pieces, name)?;
    query_part(alloc, member, texts.as_slice())
}

// The map of the query beside the query members, whose names are listed for it: no other member wants them.
fn query_map_member(
    alloc: Global,
    cut: &CutRequest<'_, '_>,
    member: SchemaRef<'_>,
) -> Result<Option<ShapeValue>, RecoverError>
    requires { IsTrue (has_entry_nodes (schema_of member)) }
    ensures { KeepsQueryMap cut.now (schema_of member.entry) result }
{
    let names = query_names(alloc, cut.schema)?;
    query_map_part(
        alloc,
        cut.own,
        cut.pieces,
        cut.request.uri(),
        &names,
        member,
    )
}

// What the request has of a member: nothing of an unbound one.
fn bound_part<'s, C: Codec>(
    alloc: Global,
    codec: &C,
    cut: &CutRequest<'_, 's>,
    member: SchemaRef<'s>,
) -> Result<Option<ShapeValue>, RecoverError>
    requires sound { IsTrue (has_map_kind (schema_of member)) }
    requires placed { IsPlaced (schema_of member).table (schema_of member) }
    requires table { (schema_of member).table ≡ cut.now.table.now }
    ensures { KeepsMember (C.holds codec.now) cut.now (schema_of member.entry) result }
{
    let request = cut.request;
    let headers = request.headers();
    match member.request_binding() {
        Binding::Header(name) => header_part(alloc, headers, cut.few_headers, name, member),
        Binding::Prefix(prefix) => prefix_part(alloc, headers, member, prefix),
        Binding::Query(name) => query_member(alloc, cut, name, member),
        Binding::QueryMap => query_map_member(alloc, cut, member),
        Binding::Label => label_part(alloc, member, cut.labels),
        Binding::Payload => {
            payload_part(alloc, codec, cut.table, member, request.body().as_slice())
        }
        Binding::Body => Ok(None),
    }
}

// Adds a member's part, where it has something.
fn push_part(
    writes: &mut WriteList,
    place: SchemaIndex,
    part: Option<ShapeValue>,
) -> Result<(), OutOfMemory>
    ensures writes { OnOk result (AddsPart place part writes.old writes.new) }
    ensures defined { OnOk result (StaysDefinedBy place part writes.old writes.new) }
{
    match part {
        Some(value) => writes.push(place, value),
        None => Ok(()),
    }
}

// Adds what the request has of the member at a place.
fn push_member<C: Codec>(
    alloc: Global,
    codec: &C,
    cut: &CutRequest<'_, '_>,
    place: SchemaIndex,
    writes: &mut WriteList,
) -> Result<(), RecoverError>
    requires { IsTrue (is_sound_at cut.now.table.now place.0) }
    ensures { AddsMember (C.holds codec.now) cut.now place.0 writes.old writes.new result }
{
    let Some(member) = cut.table.get(place) else {
        return Ok(());
    };
    let part = bound_part(alloc, codec, cut, member)?;
    push_part(writes, place, part)?;
    Ok(())
}

// Adds what the request has of the members at places, in order.
fn push_members<C: Codec>(
    alloc: Global,
    codec: &C,
    cut: &CutRequest<'_, '_>,
    places: &[SchemaIndex],
    writes: &mut WriteList,
) -> Result<(), RecoverError>
    requires { IsTrue (list_all (is_sound_at cut.now.table.now) (places_of places.now)) }
    ensures { AddsMembers (C.holds codec.now) cut.now (places_of places.now) writes.old writes.new result }
{
    for place in places {
        push_member(alloc, codec, cut, *place, writes)?;
    }
    Ok(())
}

// What the request has of the body and of each bound member, in index order.
fn cut_writes<C: Codec>(
    alloc: Global,
    codec: &C,
    cut: &CutRequest<'_, '_>,
    schema: SchemaRef<'_>,
) -> Result<WriteList, RecoverError>
    requires sound { IsTrue (list_all has_map_kind (members_of (schema_of schema))) }
    requires table { (schema_of schema).table ≡ cut.now.table.now }
    ensures { KeepsCut (C.holds codec.now) cut.now (schema_of schema.entry) result }
{
    let body = cut.request.body();
    let mut writes = body_writes(alloc, codec, cut.table, schema, body.as_slice())?;
    push_members(alloc, codec, cut, schema.members(), &mut writes)?;
    Ok(writes.in_index_order(cut.table)?)
}

// What a request has of the members of a schema, by the texts of its labels and the last literal of its template.
fn labelled_writes<'s, C: Codec>(
    alloc: Global,
    codec: &C,
    request: &'s Request,
    table: &'s Schemas,
    schema: SchemaRef<'s>,
    last: &'s str,
    texts: &'s [LabelText<'s>],
) -> Result<WriteList, RecoverError>
    requires sound { IsTrue (list_all has_map_kind (members_of (schema_of schema))) }
    requires table { (schema_of schema).table ≡ table.now }
    ensures { KeepsTexts (C.holds codec.now) request.now schema.entry last.now texts.now result }
{
    let labels = by_name(alloc, texts)?;
    let kept = kept_pieces(alloc, last, request.uri())?;
    let parts = CutRequest {
        request,
        table,
        few_headers: are_few(request.headers()),
        labels: &labels,
        own: &kept.own,
        pieces: &kept.pieces,
        schema,
    };
    cut_writes(alloc, codec, &parts, schema)
}

/// The writes that are read of a request by a schema, in index order. `NotPlaced` where a part of the request is none of its
/// member's, or where the codec's reader refuses the body. Takes memory. Condition: the schema is a checked input of the table.
pub fn read_writes<'s, C: Codec>(
    alloc: Global,
    protocol: &HttpBindingProtocol<C>,
    request: &'s Request,
    table: &'s Schemas,
    schema: SchemaRef<'s>,
    endpoint: &'s str,
) -> Result<WriteList, RecoverError>
    requires table { (schema_of schema).table ≡ table.now }
    requires checked { IsTrue (checked_input (schema_of schema)) }
    ensures told { ReadsRequest C.text C.holds protocol.now schema.entry endpoint.now request.now result }
    ensures defined { IfOk result (λ ws. AreDefined table.now ws) }
{
    let template = cut(alloc, template_of(schema, endpoint))?;
    let last = template.last;
    let path = before_query(request.uri());
    let texts = path_texts(alloc, template.holes.as_slice(), last, path)?;
    labelled_writes(
        alloc,
        protocol.codec(),
        request,
        table,
        schema,
        last,
        texts.as_slice(),
    )
}
