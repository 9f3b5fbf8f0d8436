// The map of a query beside its members (Smithy, HTTP protocol bindings, httpQueryParams).
ghost use Rattle.std.specs.Prelude.{◌≡◌, IsTrue, IfOk, OnOk, Some, length, map, option_map};
ghost use Rattle.smithy_schema.specs.References.{schema_of as node};
ghost use Rattle.smithy_binding.specs.Bindings.{query_names};
ghost use Rattle.smithy_binding.specs.views.Entries.{query_name_at};
ghost use Rattle.smithy_recovery.specs.Finding.{Finds};
ghost use Rattle.smithy_recovery.specs.views.Keeping.{KeepsOf};
ghost use Rattle.smithy_recovery.specs.views.KeptEntries.{HasEntries, has_entry_nodes};
ghost use Rattle.smithy_recovery.specs.views.KeptQueries.{is_named, HasNames, entries_in, AreKeptDefined, AreEntriesDefined, unnamed_key, value_under, PutsNew, PutsUnder, PutsLeft, StaysKept, KeepsQuery, KeepsQueryBeside, map_kept};

use crate::entry_values::entry_value;
use crate::error::RecoverError;
use crate::map_writes::{entry_places, push_entry};
use crate::pieces::{name_of, next_piece, query_of};
use crate::query_texts::{NamedPieces, named_left, texts_of};
use smithy_schema::{SchemaIndex, SchemaRef};
use smithy_serde::{ShapeValue, WriteList};
use smithy_strings::percent_decode;
use smithy_types::{OutOfMemory, Text};
use std::alloc::Global;
use std::collections::BTreeMap;
use std::collections::btree_map::Entry;

/// The names of query members, each with the position of a member that has it.
pub type QueryNames = BTreeMap<String, usize>;

// Values by their keys.
type Entries = BTreeMap<String, ShapeValue>;

// How many members a schema has.
fn member_count(schema: SchemaRef<'_>) -> usize
    ensures { result ≡ length (node schema.entry).node.members }
{
    schema.members().len()
}

fn query_name<'t>(member: SchemaRef<'t>) -> Option<&'t str>
    ensures { option_map (λ n. n.now) result ≡ (node member.entry).node.traits.http_query }
{
    Some(member.http_query()?.value())
}

// The query name of the member at a position.
fn query_name_at<'t>(schema: SchemaRef<'t>, position: usize) -> Option<&'t str>
    ensures { option_map (λ n. n.now) result ≡ query_name_at (node schema.entry) position }
{
    query_name(schema.member_schema_by_index(position)?)
}

/// The names of the query members of a schema. Takes memory.
#[tactic(auto, unfolding(crate::specs::views::KeptQueries::is_named))]
pub fn query_names(alloc: Global, schema: SchemaRef<'_>) -> Result<QueryNames, OutOfMemory>
    ensures { IfOk result (HasNames (query_names (node schema.entry))) }
{
    let mut names = BTreeMap::new(alloc);
    for position in 0..member_count(schema) {
        if let Some(name) = query_name_at(schema, position) {
            let key = String::from_str(alloc, name)?;
            names.insert(key, position)?;
        }
    }
    Ok(names)
}

#[tactic(auto, unfolding(crate::specs::views::KeptQueries::is_named))]
fn is_named(names: &QueryNames, name: &str) -> bool
    ensures { result ≡ is_named names.now name.now }
{
    names.contains_key(name)
}

// The key whose escape a name is, where it is no query member's. `NotPlaced` where it is none's escape.
fn unnamed_key(alloc: Global, names: &QueryNames, name: &str) -> Result<Option<Text>, RecoverError>
    ensures { Finds (λ k. k) result (unnamed_key names.now name.now) }
{
    let Some(key) = percent_decode(alloc, name)? else {
        return Err(RecoverError::NotPlaced);
    };
    if is_named(names, key.as_str()) {
        Ok(None)
    } else {
        Ok(Some(key))
    }
}

// The value of an entry by its pieces.
fn value_under(
    alloc: Global,
    here: SchemaRef<'_>,
    pieces: &[&str],
) -> Result<ShapeValue, RecoverError>
    ensures { KeepsOf (node here.entry) (λ n. value_under (Some n) (map (λ p. p.now) pieces.now)) result }
{
    let texts = texts_of(alloc, pieces)?;
    entry_value(alloc, here, texts.as_slice())
}

// Puts the entry of the pieces at a key, unless there is one.
fn put_new(
    alloc: Global,
    entries: &mut Entries,
    here: SchemaRef<'_>,
    key: Text,
    pieces: &[&str],
) -> Result<(), RecoverError>
    ensures put { PutsNew (node here.entry) key pieces.now entries.old entries.new result }
    ensures defined { OnOk result (StaysKept (node here.entry).table entries.old entries.new) }
{
    match entries.entry(key.into_string())? {
        Entry::Occupied(_) => Ok(()),
        Entry::Vacant(entry) => {
            let value = value_under(alloc, here, pieces)?;
            entry.insert(value);
            Ok(())
        }
    }
}

// Puts the entry of the pieces under a name, where it is no query member's and has none yet.
fn put_under(
    alloc: Global,
    names: &QueryNames,
    entries: &mut Entries,
    here: SchemaRef<'_>,
    name: &str,
    pieces: &[&str],
) -> Result<(), RecoverError>
    ensures put { PutsUnder (node here.entry) names.now name.now pieces.now entries.old entries.new result }
    ensures defined { OnOk result (StaysKept (node here.entry).table entries.old entries.new) }
{
    if pieces.is_empty() {
        return Ok(());
    }
    match unnamed_key(alloc, names, name)? {
        Some(key) => put_new(alloc, entries, here, key, pieces),
        None => Ok(()),
    }
}

// The same of pieces that may not be there.
fn put_left(
    alloc: Global,
    names: &QueryNames,
    entries: &mut Entries,
    here: SchemaRef<'_>,
    name: &str,
    pieces: Option<&[&str]>,
) -> Result<(), RecoverError>
    ensures put { PutsLeft (node here.entry) names.now name.now pieces.entry entries.old entries.new result }
    ensures defined { OnOk result (StaysKept (node here.entry).table entries.old entries.new) }
{
    match pieces {
        Some(pieces) => put_under(alloc, names, entries, here, name, pieces),
        None => Ok(()),
    }
}

// The entries of the pieces of a query: a key's first piece puts its entry, and the later ones find it there.
fn query_entries(
    alloc: Global,
    own: &NamedPieces<'_>,
    pieces: &NamedPieces<'_>,
    target: &str,
    names: &QueryNames,
    here: SchemaRef<'_>,
) -> Result<Entries, RecoverError>
    ensures { KeepsQuery (node here.entry) own.now pieces.now names.now target.now result }
{
    let mut entries = BTreeMap::new(alloc);
    let mut rest = query_of(target);
    while let Some((piece, behind)) = next_piece(rest) {
        let name = name_of(piece);
        let named = named_left(own, pieces, name);
        put_left(alloc, names, &mut entries, here, name, named)?;
        rest = behind;
    }
    Ok(entries)
}

// The entries as writes of their keys and values in turn.
fn entry_list(
    alloc: Global,
    places: (SchemaIndex, SchemaIndex),
    entries: Entries,
) -> Result<WriteList, OutOfMemory>
    ensures writes { IfOk result (HasEntries places.0.0 places.1.0 (λ t. entries_in t entries)) }
    ensures defined { IfOk result (AreEntriesDefined places.0.0 places.1.0 entries) }
{
    let mut writes = WriteList::new(alloc);
    for (key, value) in entries {
        push_entry(alloc, &mut writes, places, key.as_str(), value)?;
    }
    Ok(writes)
}

// The map of entries.
fn map_of(
    alloc: Global,
    member: SchemaRef<'_>,
    entries: Entries,
) -> Result<ShapeValue, RecoverError>
    requires nodes { IsTrue (has_entry_nodes (node member)) }
    requires defined { AreKeptDefined (node member).table entries }
    ensures { KeepsOf (node member.entry) (map_kept entries) result }
{
    let writes = entry_list(alloc, entry_places(member), entries)?;
    Ok(ShapeValue::Map(writes))
}

/// The map of the texts under the names of a query that are no query member's: none where there are none. `NotPlaced` where a
/// name or a text is none's escape, or the texts are no value's. Takes memory. Condition: the member is a map whose keys and
/// values have nodes.
pub fn query_map_part(
    alloc: Global,
    own: &NamedPieces<'_>,
    pieces: &NamedPieces<'_>,
    target: &str,
    names: &QueryNames,
    member: SchemaRef<'_>,
) -> Result<Option<ShapeValue>, RecoverError>
    requires { IsTrue (has_entry_nodes (node member)) }
    ensures { KeepsQueryBeside (node member.entry) own.now pieces.now names.now target.now result }
{
    let Some(node) = member.value() else {
        unreachable!()
    };
    let entries = query_entries(alloc, own, pieces, target, names, node)?;
    if entries.is_empty() {
        return Ok(None);
    }
    let map = map_of(alloc, member, entries)?;
    Ok(Some(map))
}
