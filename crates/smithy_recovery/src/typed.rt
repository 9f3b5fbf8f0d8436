// The tests of a recovered input that are asked of each write alone (Smithy, HTTP protocol bindings).
ghost use Rattle.std.specs.Prelude.{◌≡◌, IfOk, IfSome, option_map};
ghost use Rattle.smithy_schema.specs.Nodes.{Table};
ghost use Rattle.smithy_schema.specs.References.{schema_of};
ghost use Rattle.smithy_schema.specs.ShownBindings.{binding_shown};
ghost use Rattle.smithy_serde.specs.StoredValues.{IsDefined, AreDefined, label_at, writes_in};
ghost use Rattle.smithy_binding.specs.Bodies.{is_codec_kind};
ghost use Rattle.smithy_binding.specs.Checked.{same_format};
ghost use Rattle.smithy_binding.specs.Typed.{element_format};
ghost use Rattle.smithy_binding.specs.views.Entries.{text_at};
ghost use Rattle.smithy_recovery.specs.views.KnownShapes.{AreKnown};
ghost use Rattle.smithy_recovery.specs.views.Testing.{Tests, member_in, may_be_default, TestsNames, TestsWrite, TestsInput};
ghost use Rattle.smithy_recovery.specs.TypedWrites.{is_typed_document, is_typed_payload, have_format, has_sound_parts, is_typed_text, has_no_default, is_typed_entries, is_default_behind, is_typed_at, is_typed_value};

use crate::known_shapes::{KnownShapes, no_shapes};
use crate::prefix_entries::is_default;
use crate::ranges::is_in_range;
use crate::shallow::is_shallow;
use crate::shaped::{has_distinct_keys, is_shaped, text_or_empty};
use smithy_ids::{ShapeType, TimestampFormat};
use smithy_schema::{Binding, SchemaIndex, SchemaRef, Schemas};
use smithy_serde::{ShapeValue, WriteList};
use smithy_strings::format_in;
use smithy_types::OutOfMemory;
use std::alloc::Global;

// The nesting up to which a codec tells documents apart.
const MAX_NESTING: usize = 100;

// The kinds of a payload whose document is the body.
fn is_codec_kind(kind: ShapeType) -> bool
    ensures { result ≡ is_codec_kind kind }
{
    matches!(
        kind,
        ShapeType::Structure
            | ShapeType::Union
            | ShapeType::List
            | ShapeType::Map
            | ShapeType::Document
    )
}

// Whether a value is nested at most so deep, and follows its member's node.
fn is_typed_document(
    alloc: Global,
    table: &Schemas,
    known: &mut KnownShapes,
    member: SchemaRef<'_>,
    value: &ShapeValue,
    levels: usize,
) -> Result<bool, OutOfMemory>
    requires table { (schema_of member).table ≡ table.now }
    requires defined { IsDefined table.now value.now }
    requires known { AreKnown table.now known.old }
    ensures test { Tests (is_typed_document levels) member.entry table.now value.now result }
    ensures known { AreKnown table.now known.new }
{
    if !is_shallow(value, levels) {
        return Ok(false);
    }
    is_shaped(alloc, table, known, member, value)
}

// The same of a payload, where its document is the body.
fn is_typed_payload(
    alloc: Global,
    table: &Schemas,
    known: &mut KnownShapes,
    member: SchemaRef<'_>,
    value: &ShapeValue,
) -> Result<bool, OutOfMemory>
    requires table { (schema_of member).table ≡ table.now }
    requires defined { IsDefined table.now value.now }
    requires known { AreKnown table.now known.old }
    ensures test { Tests is_typed_payload member.entry table.now value.now result }
    ensures known { AreKnown table.now known.new }
{
    if is_codec_kind(member.shape_type()) {
        is_typed_document(alloc, table, known, member, value, MAX_NESTING)
    } else {
        Ok(is_in_range(value))
    }
}

// The time format of the elements of a member.
fn element_format(member: SchemaRef<'_>) -> Option<TimestampFormat>
    ensures { result ≡ element_format (schema_of member.entry) }
{
    format_in(member.element()?)
}

// The time format of a node.
fn format_at(table: &Schemas, node: SchemaIndex) -> Option<TimestampFormat>
    ensures { result ≡ (label_at table.now node.0).time_format }
{
    format_in(table.get(node)?)
}

fn has_format(table: &Schemas, node: SchemaIndex, format: Option<TimestampFormat>) -> bool
    ensures { result ≡ same_format (label_at table.now node.0).time_format format }
{
    format_at(table, node) == format
}

// Whether the nodes of the elements have this time format.
fn have_format(table: &Schemas, elements: &WriteList, format: Option<TimestampFormat>) -> bool
    ensures { result ≡ have_format format (writes_in table.now elements.now) }
{
    for (node, _) in elements.iter() {
        if !has_format(table, node, format) {
            return false;
        }
    }
    true
}

// Whether each key of a map stands once, and the elements of a list have their node's time format.
#[tactic(auto, unfolding(smithy_serde::specs::StoredValues::value_in))]
fn has_sound_parts(
    alloc: Global,
    table: &Schemas,
    member: SchemaRef<'_>,
    value: &ShapeValue,
) -> Result<bool, OutOfMemory>
    ensures { Tests has_sound_parts member.entry table.now value.now result }
{
    match value {
        ShapeValue::List(elements) => Ok(have_format(table, elements, element_format(member))),
        ShapeValue::Map(entries) => has_distinct_keys(alloc, entries),
        _ => Ok(true),
    }
}

// The same of a value in range.
fn is_typed_text(
    alloc: Global,
    table: &Schemas,
    member: SchemaRef<'_>,
    value: &ShapeValue,
) -> Result<bool, OutOfMemory>
    ensures { Tests is_typed_text member.entry table.now value.now result }
{
    if !is_in_range(value) {
        return Ok(false);
    }
    has_sound_parts(alloc, table, member, value)
}

// The text at a place.
fn text_at<'w>(entries: &'w WriteList, place: usize) -> &'w str
    ensures { (t : Table) → result.now ≡ text_at (writes_in t entries.now) place }
{
    match entries.write(place) {
        Some((_node, value)) => text_or_empty(value),
        None => "",
    }
}

// Whether a name of so many bytes may be that of a header that is added by default.
fn may_be_default(length: usize) -> bool
    ensures { result ≡ may_be_default length }
{
    if length == "content-type".len() {
        return true;
    }
    length == "content-length".len()
}

// Whether the header of an entry has the name of one that is added by default.
fn is_default_behind(alloc: Global, prefix: &str, key: &str) -> Result<bool, OutOfMemory>
    ensures { IfOk result (λ b. b ≡ is_default_behind prefix.now key.now) }
{
    let length = prefix.len() + key.len();
    if !may_be_default(length) {
        return Ok(false);
    }
    let mut name = String::with_capacity(alloc, length)?;
    name.push_str(prefix)?;
    name.push_str(key)?;
    let lower = name.as_str().to_ascii_lowercase(alloc)?;
    Ok(is_default(lower.as_str()))
}

// Whether no header of an entry has such a name.
fn are_own_names(
    alloc: Global,
    member: SchemaRef<'_>,
    prefix: &str,
    entries: &WriteList,
) -> Result<bool, OutOfMemory>
    ensures { (t : Table) → TestsNames prefix.now member.entry t entries.now result }
{
    for place in 0..entries.len() / 2 {
        let key = text_at(entries, 2 * place);
        if is_default_behind(alloc, prefix, key)? {
            return Ok(false);
        }
    }
    Ok(true)
}

#[tactic(auto, unfolding(smithy_serde::specs::StoredValues::value_in))]
fn has_no_default(
    alloc: Global,
    member: SchemaRef<'_>,
    prefix: &str,
    value: &ShapeValue,
) -> Result<bool, OutOfMemory>
    ensures { (t : Table) → Tests (has_no_default prefix.now) member.entry t value.now result }
{
    match value {
        ShapeValue::Map(entries) => are_own_names(alloc, member, prefix, entries),
        _ => Ok(true),
    }
}

// Whether a value behind a prefix is a typed one.
fn is_typed_entries(
    alloc: Global,
    table: &Schemas,
    member: SchemaRef<'_>,
    prefix: &str,
    value: &ShapeValue,
) -> Result<bool, OutOfMemory>
    ensures { Tests (is_typed_entries prefix.now) member.entry table.now value.now result }
{
    if !is_typed_text(alloc, table, member, value)? {
        return Ok(false);
    }
    has_no_default(alloc, member, prefix, value)
}

// Whether the value of a member that stands there is a typed one.
fn is_typed_at(
    alloc: Global,
    table: &Schemas,
    known: &mut KnownShapes,
    member: SchemaRef<'_>,
    binding: Binding<'_>,
    value: &ShapeValue,
) -> Result<bool, OutOfMemory>
    requires table { (schema_of member).table ≡ table.now }
    requires defined { IsDefined table.now value.now }
    requires known { AreKnown table.now known.old }
    ensures test { Tests (is_typed_at (binding_shown binding.entry)) member.entry table.now value.now result }
    ensures known { AreKnown table.now known.new }
{
    match binding {
        Binding::Prefix(prefix) => is_typed_entries(alloc, table, member, prefix, value),
        Binding::Payload => is_typed_payload(alloc, table, known, member, value),
        Binding::Body => is_typed_document(alloc, table, known, member, value, MAX_NESTING - 1),
        Binding::Header(_) | Binding::Query(_) | Binding::QueryMap | Binding::Label => {
            is_typed_text(alloc, table, member, value)
        }
    }
}

fn is_typed_value(
    alloc: Global,
    table: &Schemas,
    known: &mut KnownShapes,
    member: SchemaRef<'_>,
    value: &ShapeValue,
) -> Result<bool, OutOfMemory>
    requires table { (schema_of member).table ≡ table.now }
    requires defined { IsDefined table.now value.now }
    requires known { AreKnown table.now known.old }
    ensures test { Tests is_typed_value member.entry table.now value.now result }
    ensures known { AreKnown table.now known.new }
{
    is_typed_at(alloc, table, known, member, member.request_binding(), value)
}

// The member of a schema at the index that a node has.
fn member_by_index<'t>(
    table: &Schemas,
    schema: SchemaRef<'t>,
    node: SchemaIndex,
) -> Option<SchemaRef<'t>>
    ensures member { option_map schema_of result ≡ member_in schema.entry (label_at table.now node.0) }
    ensures table { IfSome result (λ m. (schema_of m).table ≡ (schema_of schema.entry).table) }
{
    let index = table.get(node)?.member_index()?;
    schema.member_schema_by_index(index)
}

fn is_typed_write(
    alloc: Global,
    table: &Schemas,
    known: &mut KnownShapes,
    schema: SchemaRef<'_>,
    node: SchemaIndex,
    value: &ShapeValue,
) -> Result<bool, OutOfMemory>
    requires table { (schema_of schema).table ≡ table.now }
    requires defined { IsDefined table.now value.now }
    requires known { AreKnown table.now known.old }
    ensures test { TestsWrite schema.entry table.now node value.now result }
    ensures known { AreKnown table.now known.new }
{
    match member_by_index(table, schema, node) {
        Some(member) => is_typed_value(alloc, table, known, member, value),
        None => Ok(false),
    }
}

/// Whether each write is to a member of the schema, by the index of its node, and its value is one of a typed input's: in
/// range; in the target or the headers with each key of a map once, the elements of a list with their node's time format,
/// and behind a prefix no header that is added by default; in the body shaped by its node, and the body nested at most 100
/// levels deep. Takes memory.
pub fn has_typed_writes(
    alloc: Global,
    table: &Schemas,
    schema: SchemaRef<'_>,
    writes: &WriteList,
) -> Result<bool, OutOfMemory>
    requires table { (schema_of schema).table ≡ table.now }
    requires defined { AreDefined table.now writes.now }
    ensures { TestsInput schema.entry table.now writes.now result }
{
    let mut known = no_shapes(alloc);
    for (node, value) in writes.iter() {
        if !is_typed_write(alloc, table, &mut known, schema, node, value)? {
            return Ok(false);
        }
    }
    Ok(true)
}
