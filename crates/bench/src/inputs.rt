// The writes of an input.
ghost use Rattle.std.specs.Prelude.{IfOk, OnOk};
ghost use Rattle.smithy_schema.specs.Nodes.{Table};
ghost use Rattle.smithy_serde.specs.StoredValues.{AreDefined, IsDefined};

use crate::failed::Failed;
use smithy_schema::{SchemaIndex, Schemas};
use smithy_serde::{ShapeValue, WriteList};
use smithy_types::Text;
use std::alloc::Global;

/// A text.
#[tactic(auto, unfolding(smithy_serde::specs::StoredValues::IsDefined))]
pub fn text_value(alloc: Global, text: &str) -> Result<ShapeValue, Failed>
    ensures { IfOk result (λ v. (t : Table) → IsDefined t v) }
{
    Ok(ShapeValue::String(Text::from_str(alloc, text)?))
}

/// Adds a write with the node at a place of the table. Fails where there is no node.
pub fn add(
    table: &Schemas,
    writes: &mut WriteList,
    place: usize,
    value: ShapeValue,
) -> Result<(), Failed>
    requires writes { AreDefined table.now writes.old }
    requires value { IsDefined table.now value }
    ensures { OnOk result (AreDefined table.now writes.new) }
{
    let node = SchemaIndex(place);
    if table.get(node).is_none() {
        return Err(Failed);
    }
    writes.push(node, value)?;
    Ok(())
}
