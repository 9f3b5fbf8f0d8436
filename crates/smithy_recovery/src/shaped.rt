// Values of a body that follow their nodes at every depth.
ghost use Rattle.std.specs.Prelude.{◌≡◌, IsTrue, IfOk, IfSome, option_map, Some};
ghost use Rattle.smithy_ids.specs.declared.shape_type.ShapeType.TheVariants as kind;
ghost use Rattle.smithy_types.specs.Texts.{are_distinct};
ghost use Rattle.smithy_schema.specs.Nodes.{Table, shape};
ghost use Rattle.smithy_schema.specs.References.{schema_of};
ghost use Rattle.smithy_serde.specs.Fits.{fits};
ghost use Rattle.smithy_serde.specs.Ranges.{is_in_range, are_writes_in_range};
ghost use Rattle.smithy_serde.specs.Shaped.{is_kind, has_distinct_fields, is_shaped, are_shaped, are_fields_shaped, are_entries_shaped};
ghost use Rattle.smithy_serde.specs.StoredValues.{label_at, value_in, writes_in, is_scalar, IsDefined, AreDefined};
ghost use Rattle.smithy_serde.specs.Values.{text_of_key, keys_of};
ghost use Rattle.smithy_recovery.specs.views.KnownShapes.{AreKnown};
ghost use Rattle.smithy_recovery.specs.views.ShapedParts.{takes_structure};
ghost use Rattle.smithy_recovery.specs.views.Testing.{member_at, HasFieldNames, HasKeys, TestsMap, TestsPart, TestsSound, TestsWrites};

use crate::distinct::are_distinct;
use crate::known_shapes::{KnownShapes, is_known, keep};
use crate::ranges::is_in_range;
use smithy_ids::ShapeType;
use smithy_schema::{SchemaIndex, SchemaRef, Schemas};
use smithy_serde::{Scalar, ShapeValue, WriteList};
use smithy_types::OutOfMemory;
use std::alloc::Global;

// The shape that a node is of.
fn shape_of<'t>(node: SchemaRef<'t>) -> SchemaRef<'t>
    ensures { schema_of result ≡ shape (schema_of node.entry) }
{
    match node.target() {
        Some(target) => target,
        None => node,
    }
}

// The name of the member that a node is.
fn name_at<'t>(table: &'t Schemas, place: SchemaIndex) -> Option<&'t str>
    ensures { option_map (λ n. n.now) result ≡ (label_at table.now place.0).member_name }
{
    table.get(place)?.member_name()
}

// The member of a structure's shape that has the name of the node of a write.
fn member_of<'t>(
    table: &'t Schemas,
    node: SchemaRef<'t>,
    place: SchemaIndex,
) -> Option<SchemaRef<'t>>
    requires { (schema_of node).table ≡ table.now }
    ensures member { option_map schema_of result ≡ member_at node.entry (label_at table.now place.0) }
    ensures table { IfSome result (λ m. (schema_of m).table ≡ table.now) }
{
    let Some(name) = name_at(table, place) else {
        return None;
    };
    shape_of(node).member_schema(name)
}

// The names of the members of a structure's shape, in index order.
fn field_names<'t>(
    alloc: Global,
    table: &'t Schemas,
    node: SchemaRef<'t>,
) -> Result<Vec<&'t str>, OutOfMemory>
    requires { (schema_of node).table ≡ table.now }
    ensures { IfOk result (HasFieldNames node.entry) }
{
    let mut names = Vec::new(alloc);
    let places = shape_of(node).members();
    'members: for place in places {
        if let Some(name) = name_at(table, *place) {
            names.push(name)?;
        }
    }
    Ok(names)
}

// Whether the members of a structure's shape have each name once.
fn has_distinct_fields(
    alloc: Global,
    table: &Schemas,
    known: &mut KnownShapes,
    node: SchemaRef<'_>,
) -> Result<bool, OutOfMemory>
    requires table { (schema_of node).table ≡ table.now }
    requires known { AreKnown table.now known.old }
    ensures test { IfOk result (λ b. b ≡ has_distinct_fields (Some (schema_of node.entry))) }
    ensures known { AreKnown table.now known.new }
{
    let shape = shape_of(node);
    if is_known(known, shape) {
        return Ok(true);
    }
    let names = field_names(alloc, table, node)?;
    if !are_distinct(alloc, names.as_slice())? {
        return Ok(false);
    }
    keep(known, shape)?;
    Ok(true)
}

/// The text, and the empty one of what is no text.
#[tactic(auto, unfolding(smithy_serde::specs::StoredValues::value_in))]
pub fn text_or_empty<'w>(value: &'w ShapeValue) -> &'w str
    ensures { (t : Table) → result.now ≡ text_of_key (value_in t value.now) }
{
    match value {
        ShapeValue::String(text) => text.as_str(),
        _ => "",
    }
}

// The keys of a map's writes.
fn keys_of<'w>(alloc: Global, entries: &'w WriteList) -> Result<Vec<&'w str>, OutOfMemory>
    ensures { (t : Table) → IfOk result (HasKeys t entries.now) }
{
    let mut keys = Vec::new(alloc);
    let mut parts = entries.iter();
    'entries: while let Some((_, key)) = parts.next() {
        keys.push(text_or_empty(key))?;
        let _value = parts.next();
    }
    Ok(keys)
}

/// Whether each key of a map's writes stands once. Takes memory.
pub fn has_distinct_keys(alloc: Global, entries: &WriteList) -> Result<bool, OutOfMemory>
    ensures { (t : Table) → IfOk result (λ b. b ≡ are_distinct (keys_of (writes_in t entries.now))) }
{
    let keys = keys_of(alloc, entries)?;
    are_distinct(alloc, keys.as_slice())
}

// Whether a scalar is a null, or of the kind of the node.
fn is_shaped_scalar(node: SchemaRef<'_>, value: &ShapeValue) -> bool
    requires { IsTrue (is_scalar value.now) }
    ensures { (t : Table) → TestsSound node.entry t value.now result }
{
    match value.scalar() {
        Scalar::Null => true,
        _ => fits(node, value),
    }
}

// Whether a node takes a value, by their kinds.
fn fits(node: SchemaRef<'_>, value: &ShapeValue) -> bool
    ensures { (t : Table) → result ≡ fits (schema_of node.entry).node.kind (value_in t value.now) }
{
    value.fits(node.shape_type())
}

fn is_string(node: Option<SchemaRef<'_>>) -> bool
    ensures { result ≡ is_kind kind.String (option_map schema_of node.entry) }
{
    match node {
        Some(node) => node.shape_type() == ShapeType::String,
        None => false,
    }
}

// Whether a node takes a map with these keys.
fn takes_map(
    alloc: Global,
    node: SchemaRef<'_>,
    value: &ShapeValue,
    entries: &WriteList,
) -> Result<bool, OutOfMemory>
    ensures { (t : Table) → TestsMap node.entry t value.now entries.now result }
{
    if !fits(node, value) {
        return Ok(false);
    }
    if !is_string(node.key()) {
        return Ok(false);
    }
    has_distinct_keys(alloc, entries)
}

// Whether a node takes a structure.
fn takes_structure(
    alloc: Global,
    table: &Schemas,
    known: &mut KnownShapes,
    node: SchemaRef<'_>,
    value: &ShapeValue,
) -> Result<bool, OutOfMemory>
    requires table { (schema_of node).table ≡ table.now }
    requires known { AreKnown table.now known.old }
    ensures test { IfOk result (λ b. b ≡ takes_structure (schema_of node.entry) (value_in table.now value.now)) }
    ensures known { AreKnown table.now known.new }
{
    if !fits(node, value) {
        return Ok(false);
    }
    has_distinct_fields(alloc, table, known, node)
}

/// Whether a value follows a node at every depth: a null follows any; a scalar or a document is of the node's kind; and
/// lists, maps and structures are of values that follow the nodes of their parts. Takes memory for the names of maps and
/// structures.
pub fn is_shaped(
    alloc: Global,
    table: &Schemas,
    known: &mut KnownShapes,
    node: SchemaRef<'_>,
    value: &ShapeValue,
) -> Result<bool, OutOfMemory>
    requires table { (schema_of node).table ≡ table.now }
    requires defined { IsDefined table.now value.now }
    requires known { AreKnown table.now known.old }
    ensures test { IfOk result (λ b. b ≡ is_shaped (Some (schema_of node.entry)) (value_in table.now value.now)) }
    ensures known { AreKnown table.now known.new }
{
    if !is_in_range(value) {
        return Ok(false);
    }
    is_followed(alloc, table, known, node, value)
}

// The same of a value in range.
#[cycle(shaped)]
fn is_followed(
    alloc: Global,
    table: &Schemas,
    known: &mut KnownShapes,
    node: SchemaRef<'_>,
    value: &ShapeValue,
) -> Result<bool, OutOfMemory>
    requires table { (schema_of node).table ≡ table.now }
    requires defined { IsDefined table.now value.now }
    requires in_range { IsTrue (is_in_range (value_in table.now value.now)) }
    requires known { AreKnown table.now known.old }
    ensures test { IfOk result (λ b. b ≡ is_shaped (Some (schema_of node.entry)) (value_in table.now value.now)) }
    ensures known { AreKnown table.now known.new }
{
    match value {
        ShapeValue::List(elements) => {
            if !fits(node, value) {
                return Ok(false);
            }
            match node.element() {
                Some(element) => are_elements_followed(alloc, table, known, element, elements),
                None => Ok(false),
            }
        }
        ShapeValue::Map(entries) => {
            if !takes_map(alloc, node, value, entries)? {
                return Ok(false);
            }
            match node.value() {
                Some(entry) => are_entries_followed(alloc, table, known, entry, entries),
                None => Ok(false),
            }
        }
        ShapeValue::Struct(fields) => {
            if !takes_structure(alloc, table, known, node, value)? {
                return Ok(false);
            }
            are_fields_followed(alloc, table, known, node, fields)
        }
        _ => Ok(is_shaped_scalar(node, value)),
    }
}

#[cycle(shaped)]
fn are_elements_followed(
    alloc: Global,
    table: &Schemas,
    known: &mut KnownShapes,
    element: SchemaRef<'_>,
    elements: &WriteList,
) -> Result<bool, OutOfMemory>
    requires table { (schema_of element).table ≡ table.now }
    requires defined { AreDefined table.now elements.now }
    requires in_range { IsTrue (are_writes_in_range (writes_in table.now elements.now)) }
    requires known { AreKnown table.now known.old }
    ensures test { TestsWrites are_shaped element.entry table.now elements.now result }
    ensures known { AreKnown table.now known.new }
{
    'parts: for (_, part) in elements.iter() {
        if !is_followed(alloc, table, known, element, part)? {
            return Ok(false);
        }
    }
    Ok(true)
}

// Whether a key is a text, or a value follows the value node.
#[cycle(shaped)]
fn is_part_followed(
    alloc: Global,
    table: &Schemas,
    known: &mut KnownShapes,
    entry: SchemaRef<'_>,
    is_key: bool,
    part: &ShapeValue,
) -> Result<bool, OutOfMemory>
    requires table { (schema_of entry).table ≡ table.now }
    requires defined { IsDefined table.now part.now }
    requires in_range { IsTrue (is_in_range (value_in table.now part.now)) }
    requires known { AreKnown table.now known.old }
    ensures test { TestsPart is_key entry.entry table.now part.now result }
    ensures known { AreKnown table.now known.new }
{
    if is_key {
        return Ok(part.fits(ShapeType::String));
    }
    is_followed(alloc, table, known, entry, part)
}

#[cycle(shaped)]
fn are_entries_followed(
    alloc: Global,
    table: &Schemas,
    known: &mut KnownShapes,
    entry: SchemaRef<'_>,
    entries: &WriteList,
) -> Result<bool, OutOfMemory>
    requires table { (schema_of entry).table ≡ table.now }
    requires defined { AreDefined table.now entries.now }
    requires in_range { IsTrue (are_writes_in_range (writes_in table.now entries.now)) }
    requires known { AreKnown table.now known.old }
    ensures test { TestsWrites are_entries_shaped entry.entry table.now entries.now result }
    ensures known { AreKnown table.now known.new }
{
    let mut is_key = true;
    'parts: for (_, part) in entries.iter() {
        if !is_part_followed(alloc, table, known, entry, is_key, part)? {
            return Ok(false);
        }
        is_key = !is_key;
    }
    Ok(is_key)
}

#[cycle(shaped)]
fn are_fields_followed(
    alloc: Global,
    table: &Schemas,
    known: &mut KnownShapes,
    node: SchemaRef<'_>,
    fields: &WriteList,
) -> Result<bool, OutOfMemory>
    requires table { (schema_of node).table ≡ table.now }
    requires defined { AreDefined table.now fields.now }
    requires in_range { IsTrue (are_writes_in_range (writes_in table.now fields.now)) }
    requires known { AreKnown table.now known.old }
    ensures test { TestsWrites are_fields_shaped node.entry table.now fields.now result }
    ensures known { AreKnown table.now known.new }
{
    'parts: for (place, part) in fields.iter() {
        let Some(member) = member_of(table, node, place) else {
            return Ok(false);
        };
        if !is_followed(alloc, table, known, member, part)? {
            return Ok(false);
        }
    }
    Ok(true)
}
