// How deep a stored value is nested.
ghost use Rattle.std.specs.Prelude.{◌≡◌, nat_le};
ghost use Rattle.smithy_schema.specs.Nodes.{Table};
ghost use Rattle.smithy_serde.specs.StoredValues.{value_in, writes_in};
ghost use Rattle.smithy_recovery.specs.Shallow.{is_shallow_at, writes_nesting};

use crate::shallow_documents::is_shallow_document;
use smithy_serde::{ShapeValue, WriteList};

/// Whether the lists, maps and structures of a value, with the arrays and objects of its documents, are nested at most so
/// many levels deep. Takes no memory.
#[cycle(shallow)]
#[tactic(auto, unfolding(smithy_serde::specs::StoredValues::value_in))]
pub fn is_shallow(value: &ShapeValue, levels: usize) -> bool
    ensures { (t : Table) → result ≡ is_shallow_at levels (value_in t value.now) }
{
    match value {
        ShapeValue::List(writes) => levels > 0 && are_shallow(writes, levels - 1),
        ShapeValue::Map(writes) => levels > 0 && are_shallow(writes, levels - 1),
        ShapeValue::Struct(writes) => levels > 0 && are_shallow(writes, levels - 1),
        ShapeValue::Document(document) => is_shallow_document(document, levels),
        _ => true,
    }
}

/// Whether the lists, maps and structures of each value of these writes, with the arrays and objects of its documents, are
/// nested at most so many levels deep. Takes no memory.
#[cycle(shallow)]
pub fn are_shallow(writes: &WriteList, levels: usize) -> bool
    ensures { (t : Table) → result ≡ nat_le (writes_nesting (writes_in t writes.now)) levels }
{
    'parts: for (_, part) in writes.iter() {
        if !is_shallow(part, levels) {
            return false;
        }
    }
    true
}
