// The entries of a map in the headers or the query (Smithy, HTTP protocol bindings, httpPrefixHeaders and httpQueryParams).
ghost use Rattle.std.specs.Prelude.{◌≡◌, ◌++◌, IfOk, OnOk, option_map, option_and_then};
ghost use Rattle.smithy_binding.specs.Words.{Table, element_of, schema_of, value_in, writes_in, text_of_key};
ghost use Rattle.smithy_binding.specs.Bindings.{query_names};
ghost use Rattle.smithy_binding.specs.views.Directed.{directed_of};
ghost use Rattle.smithy_binding.specs.views.Entries.{text_at, nested_in, part_in, query_name_at, has_key, HasKeys, list_pairs, value_pairs, pairs_unless, AddsQuery, AddsEntries};
ghost use Rattle.smithy_binding.specs.Faults.{item_fault, value_fault, ends_with_value};
ghost use Rattle.smithy_binding.specs.Refusing.{Reports};
ghost use Rattle.smithy_binding.specs.views.PutHeaders.{PutsHeader, PutsPrefixed};
ghost use Rattle.smithy_binding.specs.views.StoredTexts.{map_in};

use crate::binding::{kind_of, member_at, member_count};
use crate::direction::{DirectedSchema, Direction};
use crate::elements::test_elements;
use crate::member_header::put_header;
use crate::refusal::{unmatched_key, wrong_item};
use crate::target::push_pair;
use smithy_http::Headers;
use smithy_schema::{SchemaRef, Schemas};
use smithy_serde::{SerdeError, ShapeValue, WriteList};
use smithy_types::{OutOfMemory, Text};
use std::alloc::{AllocError, Global};
use std::borrow::CowStr;
use std::collections::BTreeMap;

// The names of query members, each with the position of a member that has it.
type QueryNames<'t> = BTreeMap<&'t str, usize>;

// The node of the elements of a node.
fn element_node<'t>(node: Option<SchemaRef<'t>>) -> Option<SchemaRef<'t>>
    ensures { option_map schema_of result ≡ option_and_then element_of (option_map schema_of node.entry) }
{
    node?.element()
}

// Tests that each element is of the kind of its node, where the value is a list. `UnsupportedOperation` for the first
// that is not.
#[tactic(auto, unfolding(smithy_serde::specs::StoredValues::value_in))]
fn test_nested(
    alloc: Global,
    table: &Schemas,
    member: SchemaRef<'_>,
    node: Option<SchemaRef<'_>>,
    value: &ShapeValue,
) -> Result<(), SerdeError>
    ensures { Reports (nested_in member.entry node.entry table.now value.now) result }
{
    match value {
        ShapeValue::List(elements) => {
            test_elements(alloc, table, member, kind_of(element_node(node)), elements)
        }
        _ => Ok(()),
    }
}

// Tests that a key or a value of the member's map is of the kind of its node, and each element of a list too.
// `UnsupportedOperation` for the first that is not.
fn test_part(
    alloc: Global,
    table: &Schemas,
    member: SchemaRef<'_>,
    node: Option<SchemaRef<'_>>,
    value: &ShapeValue,
) -> Result<(), SerdeError>
    ensures { Reports (part_in member.entry node.entry table.now value.now) result }
{
    let kind = kind_of(node);
    if !value.fits(kind) {
        return Err(wrong_item(alloc, member, kind, value));
    }
    test_nested(alloc, table, member, node, value)
}

/// Tests that each key and value of the member's map is of the kind of its node, and each element of a list among the
/// values too. `UnsupportedOperation` for the first that is not, in the order of the writes.
pub fn test_entries(
    alloc: Global,
    table: &Schemas,
    member: SchemaRef<'_>,
    entries: &WriteList,
) -> Result<(), SerdeError>
    ensures { Reports (item_fault (schema_of member.entry) (map_in table.now entries.now)) result }
{
    let mut node = member.key();
    let mut next = member.value();
    for (_, value) in entries.iter() {
        test_part(alloc, table, member, node, value)?;
        let last = node;
        node = next;
        next = last;
    }
    Ok(())
}

// Whether keys and values in turn end with a value.
fn ends_with_value(entries: &WriteList) -> bool
    ensures { (t : Table) → result ≡ ends_with_value (writes_in t entries.now) }
{
    entries.len() % 2 == 0
}

// Tests the entries, and then that each key has a value.
fn test_whole_map(
    alloc: Global,
    table: &Schemas,
    member: SchemaRef<'_>,
    entries: &WriteList,
) -> Result<(), SerdeError>
    ensures { Reports (value_fault (schema_of member.entry) (map_in table.now entries.now)) result }
{
    test_entries(alloc, table, member, entries)?;
    if !ends_with_value(entries) {
        return Err(unmatched_key(alloc, member));
    }
    Ok(())
}

/// Tests the member's map: each key and value by its kind, and then that each key has a value. `UnsupportedOperation`
/// for the first that is not.
pub fn test_map(
    alloc: Global,
    table: &Schemas,
    member: DirectedSchema<'_>,
    entries: &WriteList,
) -> Result<(), SerdeError>
    ensures { Reports (value_fault (directed_of member.entry) (map_in table.now entries.now)) result }
{
    test_whole_map(alloc, table, member.schema, entries)
}

// The text, and the empty one of what is no text.
#[tactic(auto, unfolding(smithy_serde::specs::StoredValues::value_in))]
fn text_or_empty<'w>(value: &'w ShapeValue) -> &'w str
    ensures { (t : Table) → result.now ≡ text_of_key (value_in t value.now) }
{
    match value {
        ShapeValue::String(text) => text.as_str(),
        _ => "",
    }
}

// The text at a place.
fn text_at<'w>(entries: &'w WriteList, place: usize) -> &'w str
    ensures { (t : Table) → result.now ≡ text_at (writes_in t entries.now) place }
{
    match entries.write(place) {
        Some((_node, value)) => text_or_empty(value),
        None => "",
    }
}

// Puts a header of an entry.
fn put_entry(
    alloc: Global,
    member: SchemaRef<'_>,
    headers: &mut Headers,
    prefix: &str,
    key: &str,
    value: &str,
) -> Result<(), SerdeError>
    ensures { PutsHeader member.entry (prefix.now ++ key.now) value.now headers.old headers.new result }
{
    let mut name = String::with_capacity(alloc, prefix.len() + key.len())?;
    name.push_str(prefix)?;
    name.push_str(key)?;
    name.make_ascii_lowercase();
    let name = Text::from_string(name);
    put_header(alloc, member, headers, name, CowStr::Borrowed(value))
}

/// Puts a header of each entry, named by the prefix and the key, in place of an earlier one with its name (Smithy, HTTP
/// protocol bindings, httpPrefixHeaders). `InvalidInput` for the first whose name is no token, or else whose value has a
/// byte that no header value has (RFC 7230, section 3.2). Takes memory, linear in the texts.
pub fn put_entries(
    alloc: Global,
    table: &Schemas,
    member: DirectedSchema<'_>,
    headers: &mut Headers,
    prefix: &str,
    entries: &WriteList,
) -> Result<(), SerdeError>
    ensures { PutsPrefixed
        member.entry prefix.now table.now entries.now headers.old headers.new result }
{
    for place in 0..entries.len() / 2 {
        let key = text_at(entries, 2 * place);
        let value = text_at(entries, 2 * place + 1);
        put_entry(alloc, member.schema, headers, prefix, key, value)?;
    }
    Ok(())
}

fn query_name<'t>(member: SchemaRef<'t>) -> Option<&'t str>
    ensures { option_map (λ n. n.now) result ≡ (schema_of member.entry).node.traits.http_query }
{
    Some(member.http_query()?.value())
}

// The query is a request's alone.
fn query_name_in<'t>(member: DirectedSchema<'t>) -> Option<&'t str>
    ensures { option_map (λ n. n.now) result ≡ (directed_of member.entry).node.traits.http_query }
{
    match member.way {
        Direction::Request => query_name(member.schema),
        Direction::Response => None,
    }
}

// The query name of the member at a position.
fn query_name_at<'t>(schema: DirectedSchema<'t>, position: usize) -> Option<&'t str>
    ensures { option_map (λ n. n.now) result ≡ query_name_at (directed_of schema.entry) position }
{
    query_name_in(member_at(schema, position)?)
}

// The names of the schema's query members, written or not.
#[tactic(auto, unfolding(crate::specs::views::Entries::has_key))]
fn query_names<'t>(alloc: Global, schema: DirectedSchema<'t>) -> Result<QueryNames<'t>, AllocError>
    ensures { IfOk result (HasKeys (query_names (directed_of schema.entry))) }
{
    let mut names = BTreeMap::new(alloc);
    for position in 0..member_count(schema.schema) {
        if let Some(name) = query_name_at(schema, position) {
            names.insert(name, position)?;
        }
    }
    Ok(names)
}

#[tactic(auto, unfolding(crate::specs::views::Entries::has_key))]
fn is_named<'n>(names: &QueryNames<'n>, name: &'n str) -> bool
    ensures { result ≡ has_key names.now name.now }
{
    names.get(&name).is_some()
}

// Adds a pair of the key and each text of a list.
fn push_texts(query: &mut String, key: &str, texts: &WriteList) -> Result<(), OutOfMemory>
    ensures { OnOk result (AddsQuery (list_pairs key.now texts.now) query.old query.new) }
{
    for (_, text) in texts.iter() {
        push_pair(query, key, text_or_empty(text))?;
    }
    Ok(())
}

// Adds the pairs of an entry.
#[tactic(auto, unfolding(smithy_serde::specs::StoredValues::value_in))]
fn push_value(query: &mut String, key: &str, value: &ShapeValue) -> Result<(), OutOfMemory>
    ensures { OnOk result (AddsQuery (value_pairs key.now value.now) query.old query.new) }
{
    match value {
        ShapeValue::List(texts) => push_texts(query, key, texts),
        _ => push_pair(query, key, text_or_empty(value)),
    }
}

// Adds the pairs of the value at a place, unless its key is one of the names.
fn push_entry<'n>(
    query: &mut String,
    names: &QueryNames<'n>,
    key: &'n str,
    entries: &WriteList,
    place: usize,
) -> Result<(), OutOfMemory>
    ensures { OnOk result
        (AddsQuery (pairs_unless names.now key.now entries.now place) query.old query.new) }
{
    if is_named(names, key) {
        return Ok(());
    }
    match entries.write(place) {
        Some((_node, value)) => push_value(query, key, value),
        None => Ok(()),
    }
}

/// Adds the pairs of each entry whose key is no query name of the schema, whether that member is written or not: one of
/// a text, and one for each text of a list (Smithy, HTTP protocol bindings, httpQueryParams). Takes memory, linear in
/// the texts and in the number of members.
pub fn push_entries<'n>(
    alloc: Global,
    schema: DirectedSchema<'n>,
    query: &mut String,
    entries: &'n WriteList,
) -> Result<(), OutOfMemory>
    ensures { OnOk result
        (AddsEntries (query_names (directed_of schema.entry)) entries.now query.old query.new) }
{
    let names = query_names(alloc, schema)?;
    for place in 0..entries.len() / 2 {
        let key = text_at(entries, 2 * place);
        push_entry(query, &names, key, entries, 2 * place + 1)?;
    }
    Ok(())
}
