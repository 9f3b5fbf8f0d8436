// What the writes put into a message, one by one.
ghost use Rattle.std.specs.Prelude.{◌≡◌, IsTrue, IfOk, IfErr, OnOk, None};
ghost use Rattle.smithy_binding.specs.Words.{list_all, Table, members_of, to_header, to_label, binding_of, schema_of, binding_shown, fits_member, value_in, AreDefined, HasNode};
ghost use Rattle.smithy_binding.specs.Faults.{item_fault, is_placed_at};
ghost use Rattle.smithy_binding.specs.views.Directed.{directed_of};
ghost use Rattle.smithy_binding.specs.views.Gather.{nothing_yet};
ghost use Rattle.smithy_binding.specs.HeaderNames.{HasNameAt};
ghost use Rattle.smithy_binding.specs.views.NamesAtHand.{HasOwnName, IsMemberAt, MarkedHaveNames, WriteHasName, WritesHaveNames};
ghost use Rattle.smithy_binding.specs.views.KeptWrites.{IsEmpty, IsKeptDefined, KeepsDefined};
ghost use Rattle.smithy_binding.specs.views.Placed.{has_placed_kind, is_text_member, is_list_binding, takes_map, first_fault, IsSingle};
ghost use Rattle.smithy_binding.specs.Refusing.{Reports};
ghost use Rattle.smithy_binding.specs.ResponseCodes.{status_fault};
ghost use Rattle.smithy_binding.specs.views.PutHeaders.{PutsList};
ghost use Rattle.smithy_binding.specs.views.Seen.{gathered_of, Places, PlacesValue, TellsFirst, TestsStatus, AddsMember, AddsWrite, GathersAll};
ghost use Rattle.smithy_binding.specs.views.StoredTexts.{list_in, map_in};

use crate::binding::{binding_of, element_kind, is_placed, name_of};
use crate::body_writes::BodyWrites;
use crate::bound_text::{place_of, text_of};
use crate::code::status_value;
use crate::direction::{DirectedSchema, Direction};
use crate::elements::{listed_text, push_elements, test_list};
use crate::header_names::{HeaderNames, put_named};
use crate::kinds::fits_member;
use crate::labels::Label;
use crate::maps::{push_entries, put_entries, test_map};
use crate::marks::Marks;
use crate::refusal::{no_status, unknown_member, wrong_kind};
use crate::resolve::resolve;
use crate::target::push_pair;
use smithy_http::Headers;
use smithy_schema::{Binding, SchemaIndex, SchemaRef, Schemas};
use smithy_serde::{SerdeError, ShapeValue, WriteList};
use smithy_types::OutOfMemory;
use std::alloc::{AllocError, Global};
use std::borrow::CowStr;

/// What the writes so far have put into a message.
#[derive(Drop)]
pub struct MessageParts<'t, 'w> {
    /// By position, the members that are written.
    pub seen: Marks,
    pub headers: Headers,
    /// Each pair behind a `&`.
    pub query: String,
    pub labels: Vec<Label<'t, 'w>>,
    pub body: BodyWrites<'t, 'w>,
}

impl<'t, 'w> MessageParts<'t, 'w> {
    /// Nothing yet, for the members of this schema. Takes memory, linear in their number.
    pub fn new(alloc: Global, schema: SchemaRef<'_>) -> Result<MessageParts<'t, 'w>, AllocError>
        ensures gathered { IfOk result (λ p. gathered_of p ≡ nothing_yet (schema_of schema.entry)) }
        ensures body { IfOk result (λ p. IsEmpty p.body) }
    {
        let seen = Marks::new(alloc, schema.members().len())?;
        Ok(MessageParts {
            seen,
            headers: Headers::new(alloc),
            query: String::new(alloc),
            labels: Vec::new(alloc),
            body: BodyWrites::new(alloc),
        })
    }
}

// Puts the first write of one value.
fn add_single<'t, 'w, N: HeaderNames>(
    alloc: Global,
    names: &mut N,
    schema: DirectedSchema<'_>,
    member: DirectedSchema<'t>,
    binding: Binding<'_>,
    parts: &mut MessageParts<'t, 'w>,
    value: &'w ShapeValue,
) -> Result<(), SerdeError>
    requires bound { binding_shown binding ≡ binding_of (directed_of member) }
    requires placed { IsTrue (is_text_member (directed_of member)) }
    requires single { (t : Table) → IsSingle (value_in t value.now) }
    requires serves { N.serves names.old (schema_of member.schema).table }
    ensures put { PlacesValue schema.entry member.entry value.now parts.old parts.new result }
    ensures kept { N.keeps names.old names.new }
    ensures named { OnOk result (HasOwnName (N.has names.new) member.entry.schema) }
{
    let text = text_of(alloc, member.schema, place_of(binding), value)?;
    match binding {
        Binding::Header(name) => put_named(
            alloc,
            names,
            member.schema,
            &mut parts.headers,
            name,
            text,
        ),
        Binding::Query(name) => {
            push_pair(&mut parts.query, name, text.as_str())?;
            Ok(())
        }
        Binding::Label => {
            let name = name_of(member.schema);
            parts.labels.push(Label { name, text })?;
            Ok(())
        }
        _ => unreachable!(),
    }
}

// Puts a header of the texts of a list, whose elements are of this kind.
fn put_list<N: HeaderNames>(
    alloc: Global,
    names: &mut N,
    table: &Schemas,
    member: DirectedSchema<'_>,
    headers: &mut Headers,
    name: &str,
    elements: &WriteList,
) -> Result<(), SerdeError>
    requires header { to_header name.now ≡ binding_of (directed_of member) }
    requires kinds { item_fault (directed_of member) (list_in table.now elements.now) ≡ None }
    requires serves { N.serves names.old (schema_of member.schema).table }
    ensures ok { OnOk result
        (first_fault (directed_of member.entry) (list_in table.now elements.now) ≡ None) }
    ensures put { OnOk result
        (PutsList name.now member.entry table.now elements.now headers.old headers.new) }
    ensures err { IfErr result (TellsFirst member.entry (list_in table.now elements.now)) }
    ensures kept { N.keeps names.old names.new }
    ensures named { OnOk result (HasOwnName (N.has names.new) member.entry.schema) }
{
    let text = listed_text(alloc, table, element_kind(member), elements)?;
    put_named(
        alloc,
        names,
        member.schema,
        headers,
        name,
        CowStr::Owned(text.into_string()),
    )
}

// Puts the first write of a list.
fn add_list<'t, N: HeaderNames>(
    alloc: Global,
    names: &mut N,
    schema: DirectedSchema<'_>,
    table: &Schemas,
    member: DirectedSchema<'t>,
    binding: Binding<'_>,
    parts: &mut MessageParts<'t, '_>,
    elements: &WriteList,
) -> Result<(), SerdeError>
    requires bound { binding_shown binding ≡ binding_of (directed_of member) }
    requires placed { IsTrue (is_list_binding (binding_of (directed_of member))) }
    requires serves { N.serves names.old (schema_of member.schema).table }
    ensures put { Places
        schema.entry member.entry (list_in table.now elements.now) parts.old parts.new result }
    ensures kept { N.keeps names.old names.new }
    ensures named { OnOk result (HasOwnName (N.has names.new) member.entry.schema) }
{
    test_list(alloc, table, member, elements)?;
    match binding {
        Binding::Header(name) => {
            put_list(
                alloc,
                names,
                table,
                member,
                &mut parts.headers,
                name,
                elements,
            )
        }
        Binding::Query(name) => push_elements(alloc, table, &mut parts.query, name, elements),
        _ => unreachable!(),
    }
}

// Puts the first write of a map.
#[inline(always)]
fn add_map<'t>(
    alloc: Global,
    schema: DirectedSchema<'_>,
    table: &Schemas,
    member: DirectedSchema<'t>,
    binding: Binding<'_>,
    parts: &mut MessageParts<'t, '_>,
    entries: &WriteList,
) -> Result<(), SerdeError>
    requires bound { binding_shown binding ≡ binding_of (directed_of member) }
    requires placed { IsTrue (takes_map (binding_of (directed_of member))) }
    ensures { Places
        schema.entry member.entry (map_in table.now entries.now) parts.old parts.new result }
{
    test_map(alloc, table, member, entries)?;
    match binding {
        Binding::Prefix(prefix) => {
            put_entries(alloc, table, member, &mut parts.headers, prefix, entries)
        }
        Binding::QueryMap => {
            push_entries(alloc, schema, &mut parts.query, entries)?;
            Ok(())
        }
        _ => unreachable!(),
    }
}

// Puts the first write of a member in the headers, the query or a label, which fits.
#[tactic(auto, unfolding(smithy_serde::specs::StoredValues::value_in))]
fn add_first<'t, 'w, N: HeaderNames>(
    alloc: Global,
    names: &mut N,
    schema: DirectedSchema<'_>,
    table: &Schemas,
    member: DirectedSchema<'t>,
    binding: Binding<'_>,
    parts: &mut MessageParts<'t, 'w>,
    value: &'w ShapeValue,
) -> Result<(), SerdeError>
    requires bound { binding_shown binding ≡ binding_of (directed_of member) }
    requires placed { IsTrue (is_placed_at (binding_of (directed_of member))) }
    requires kinds { IsTrue (has_placed_kind (directed_of member)) }
    requires fits { IsTrue (fits_member (directed_of member) (value_in table.now value.now)) }
    requires serves { N.serves names.old (schema_of member.schema).table }
    ensures put { Places
        schema.entry member.entry (value_in table.now value.now) parts.old parts.new result }
    ensures kept { N.keeps names.old names.new }
    ensures named { OnOk result (HasOwnName (N.has names.new) member.entry.schema) }
{
    match value {
        ShapeValue::List(elements) => add_list(
            alloc, names, schema, table, member, binding, parts, elements,
        ),
        ShapeValue::Map(entries) => add_map(alloc, schema, table, member, binding, parts, entries),
        _ => add_single(alloc, names, schema, member, binding, parts, value),
    }
}

// Tests that the value is a status, of three digits.
fn test_status(alloc: Global, value: &ShapeValue) -> Result<(), SerdeError>
    ensures { (t : Table) → Reports (status_fault to_label (value_in t value.now)) result }
{
    match status_value(value) {
        Some(_code) => Ok(()),
        None => Err(no_status(alloc)),
    }
}

// Tests the first write of a member with this binding, where the message is a response: its code is a status.
#[inline(always)]
fn test_code(
    alloc: Global,
    way: Direction,
    binding: Binding<'_>,
    value: &ShapeValue,
) -> Result<(), SerdeError>
    ensures { TestsStatus way (binding_shown binding.entry) value.now result }
{
    match way {
        Direction::Request => Ok(()),
        Direction::Response => match binding {
            Binding::Header(_) => Ok(()),
            Binding::Prefix(_) => Ok(()),
            Binding::Query(_) => Ok(()),
            Binding::QueryMap => Ok(()),
            Binding::Label => test_status(alloc, value),
            Binding::Payload => Ok(()),
            Binding::Body => Ok(()),
        },
    }
}

// Puts a write of the member at this position.
#[inline(always)]
fn add_resolved<'t, 'w, N: HeaderNames>(
    alloc: Global,
    names: &mut N,
    schema: DirectedSchema<'_>,
    table: &Schemas,
    position: usize,
    member: DirectedSchema<'t>,
    parts: &mut MessageParts<'t, 'w>,
    value: &'w ShapeValue,
) -> Result<(), SerdeError>
    requires kind { IsTrue (has_placed_kind (directed_of member)) }
    requires member { IsMemberAt schema position member }
    requires serves { N.serves names.old (schema_of schema.schema).table }
    requires seen { MarkedHaveNames (N.has names.old) schema parts.old.seen }
    ensures added { AddsMember
        schema.entry table.now member.entry position value.now parts.old parts.new result }
    ensures defined { OnOk result (KeepsDefined table.now value.now parts.old.body parts.new.body) }
    ensures kept { N.keeps names.old names.new }
    ensures seen { OnOk result (MarkedHaveNames (N.has names.new) schema.entry parts.new.seen) }
    ensures named { OnOk result (HasNameAt (N.has names.new) (directed_of schema.entry) position) }
{
    if !fits_member(member, value) {
        return Err(wrong_kind(alloc, member.schema, value));
    }
    let binding = binding_of(member);
    parts.body.keep(member, binding, value)?;
    if parts.seen.is_marked(position) {
        return Ok(());
    }
    parts.seen.mark(position);
    if !is_placed(binding) {
        return Ok(());
    }
    add_first(alloc, names, schema, table, member, binding, parts, value)?;
    test_code(alloc, schema.way, binding, value)
}

// Puts a write of this node.
#[tactic(auto, unfolding(crate::specs::views::Gather::gather_one))]
#[inline(always)]
fn add_write<'t, 'w, N: HeaderNames>(
    alloc: Global,
    names: &mut N,
    schema: DirectedSchema<'t>,
    table: &Schemas,
    parts: &mut MessageParts<'t, 'w>,
    node: SchemaIndex,
    value: &'w ShapeValue,
) -> Result<(), SerdeError>
    requires kinds { IsTrue (list_all has_placed_kind (members_of (directed_of schema))) }
    requires defined { HasNode table.now node.0 }
    requires serves { N.serves names.old (schema_of schema.schema).table }
    requires seen { MarkedHaveNames (N.has names.old) schema parts.old.seen }
    ensures added { AddsWrite
        schema.entry table.now node.0 value.now parts.old parts.new result }
    ensures defined { OnOk result (KeepsDefined table.now value.now parts.old.body parts.new.body) }
    ensures kept { N.keeps names.old names.new }
    ensures seen { OnOk result (MarkedHaveNames (N.has names.new) schema.entry parts.new.seen) }
    ensures named { OnOk result (WriteHasName (N.has names.new) schema.entry table.now node.0 value.now) }
{
    let Some(written) = table.get(node) else {
        unreachable!()
    };
    let Some((position, member)) = resolve(schema, written) else {
        return Err(unknown_member(alloc, written));
    };
    add_resolved(alloc, names, schema, table, position, member, parts, value)
}

/// Puts the writes, whose nodes are those of the table, into the message, in which nothing is yet.
#[inline(always)]
pub fn gather_writes<'t, 'w, N: HeaderNames>(
    alloc: Global,
    names: &mut N,
    schema: DirectedSchema<'t>,
    table: &Schemas,
    writes: &'w WriteList,
    parts: &mut MessageParts<'t, 'w>,
) -> Result<(), SerdeError>
    requires kinds { IsTrue (list_all has_placed_kind (members_of (directed_of schema))) }
    requires defined { AreDefined table.now writes.now }
    requires empty { gathered_of parts.old ≡ nothing_yet (directed_of schema) }
    requires empty_body { IsEmpty parts.old.body }
    requires serves { N.serves names.old (schema_of schema.schema).table }
    ensures gathered { GathersAll schema.entry table.now writes.now parts.new result }
    ensures defined { OnOk result (IsKeptDefined table.now parts.new.body) }
    ensures kept { N.keeps names.old names.new }
    ensures named { OnOk result (WritesHaveNames (N.has names.new) schema.entry table.now writes.now) }
{
    for (node, value) in writes.iter() {
        add_write(alloc, names, schema, table, parts, node, value)?;
    }
    Ok(())
}
