// The map of the headers behind a prefix (Smithy, HTTP protocol bindings, httpPrefixHeaders).
ghost use Rattle.std.specs.Prelude.{◌≡◌, [], IsTrue, IfOk, OnOk, map, option_map};
ghost use Rattle.smithy_types.specs.Texts.{is_one_of};
ghost use Rattle.smithy_schema.specs.References.{schema_of};
ghost use Rattle.smithy_binding.specs.Typed.{default_names};
ghost use Rattle.smithy_recovery.specs.Finding.{Finds};
ghost use Rattle.smithy_recovery.specs.views.Keeping.{KeepsOf, KeepsPartOf};
ghost use Rattle.smithy_recovery.specs.views.KeptEntries.{is_again, map_seen, Puts, text_put, header_put, headers_put, AddsLast, HasLast, AreDefinedWith, StaysDefinedWith, has_entry_nodes};
ghost use Rattle.smithy_recovery.specs.views.NameOrder.{text_seen, texts_seen};
ghost use Rattle.smithy_recovery.specs.MapParts.{entry_behind, prefix_part};

use crate::error::RecoverError;
use crate::header_values::text_in;
use crate::map_writes::{entry_places, push_entry};
use crate::named_texts::{NamedText, in_name_order};
use crate::path_texts::behind;
use smithy_http::{HeaderPairs, Headers};
use smithy_schema::{SchemaIndex, SchemaRef};
use smithy_serde::{ShapeValue, WriteList};
use smithy_types::OutOfMemory;
use std::alloc::Global;

/// Whether this is the name of a header that is added by default.
pub fn is_default(name: &str) -> bool
    ensures { result ≡ is_one_of name.now default_names }
{
    if name == "content-type" {
        return true;
    }
    name == "content-length"
}

// What stands behind a prefix in the name of a header, with its value; a default's name is behind none.
fn entry_behind<'h>(prefix: &str, name: &'h str, value: &'h [u8]) -> Option<(&'h str, &'h [u8])>
    ensures { option_map (λ e. (e.0.now, e.1.now)) result ≡ entry_behind prefix.now (name.now, value.now) }
{
    if is_default(name) {
        return None;
    }
    match behind(name, prefix) {
        Some(key) => Some((key, value)),
        None => None,
    }
}

// Adds an entry.
fn push_text<'h>(
    entries: &mut Vec<NamedText<'h>>,
    key: &'h str,
    value: &'h [u8],
) -> Result<(), RecoverError>
    ensures { Puts (text_put (key.now, value.now)) entries.old entries.new result }
{
    match text_in(value) {
        Some(text) => {
            entries.push(NamedText { name: key, text })?;
            Ok(())
        }
        None => Err(RecoverError::NotPlaced),
    }
}

// Adds what a header has behind a prefix.
fn push_header<'h>(
    entries: &mut Vec<NamedText<'h>>,
    prefix: &str,
    name: &'h str,
    value: &'h [u8],
) -> Result<(), RecoverError>
    ensures { Puts (header_put prefix.now (name.now, value.now)) entries.old entries.new result }
{
    match entry_behind(prefix, name, value) {
        Some((key, value)) => push_text(entries, key, value),
        None => Ok(()),
    }
}

// The texts of the headers behind a prefix by what stands behind it, in the order of the headers.
fn entries_behind<'h>(
    alloc: Global,
    headers: HeaderPairs<'h>,
    prefix: &str,
) -> Result<Vec<NamedText<'h>>, RecoverError>
    ensures { Finds texts_seen result (headers_put prefix.now headers.entry []) }
{
    let mut entries = Vec::new(alloc);
    for (name, value) in headers {
        push_header(&mut entries, prefix, name, value)?;
    }
    Ok(entries)
}

// Whether the key stands in the next entry again.
fn is_again(key: &str, behind: &[NamedText<'_>]) -> bool
    ensures { result ≡ is_again key.now (map text_seen behind.now) }
{
    match behind {
        [] => false,
        [next, ..] => next.name == key,
    }
}

// Adds an entry as writes of its key and its value, unless its key stands in the next entry again.
fn push_last(
    alloc: Global,
    writes: &mut WriteList,
    places: (SchemaIndex, SchemaIndex),
    entry: &NamedText<'_>,
    behind: &[NamedText<'_>],
) -> Result<(), OutOfMemory>
    ensures writes { OnOk result (AddsLast places.0.0 places.1.0 entry.now behind.now writes.old writes.new) }
    ensures defined { OnOk result (StaysDefinedWith places.0.0 places.1.0 writes.old writes.new) }
{
    if is_again(entry.name, behind) {
        return Ok(());
    }
    let value = ShapeValue::text(alloc, entry.text)?;
    push_entry(alloc, writes, places, entry.name, value)?;
    Ok(())
}

// The entries as writes of their keys and values in turn, of each key the last one. They are in order of their keys.
fn entry_list(
    alloc: Global,
    places: (SchemaIndex, SchemaIndex),
    entries: &[NamedText<'_>],
) -> Result<WriteList, OutOfMemory>
    ensures writes { IfOk result (HasLast places.0.0 places.1.0 entries.now) }
    ensures defined { IfOk result (AreDefinedWith places.0.0 places.1.0) }
{
    let mut writes = WriteList::new(alloc);
    for (i, entry) in entries.iter().enumerate() {
        push_last(alloc, &mut writes, places, entry, &entries[i + 1..])?;
    }
    Ok(writes)
}

// The map of entries that are in order of their keys.
fn map_of(
    alloc: Global,
    member: SchemaRef<'_>,
    entries: &[NamedText<'_>],
) -> Result<ShapeValue, RecoverError>
    requires { IsTrue (has_entry_nodes (schema_of member)) }
    ensures { KeepsOf (schema_of member.entry) (map_seen entries.now) result }
{
    let writes = entry_list(alloc, entry_places(member), entries)?;
    Ok(ShapeValue::Map(writes))
}

/// The map of the headers behind a prefix: none where there are none. `NotPlaced` where one is no text. Condition: the member is a
/// map whose keys and values have nodes. Takes memory.
pub fn prefix_part(
    alloc: Global,
    headers: &Headers,
    member: SchemaRef<'_>,
    prefix: &str,
) -> Result<Option<ShapeValue>, RecoverError>
    requires { IsTrue (has_entry_nodes (schema_of member)) }
    ensures { KeepsPartOf (schema_of member.entry) (λ m. prefix_part m prefix.now headers.now) result }
{
    let lower = prefix.to_ascii_lowercase(alloc)?;
    let entries = entries_behind(alloc, headers.iter_bytes(), lower.as_str())?;
    if entries.as_slice().is_empty() {
        return Ok(None);
    }
    let ordered = in_name_order(entries)?;
    let map = map_of(alloc, member, ordered.as_slice())?;
    Ok(Some(map))
}
