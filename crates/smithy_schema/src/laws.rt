//! Laws of schemas, each the contract of a function that only looks at one.
ghost use Rattle.std.specs.Prelude.{IsTrue};
ghost use Rattle.smithy_schema.specs.Columns.{AreGiven};
ghost use Rattle.smithy_schema.specs.views.References.{schema_of};
ghost use Rattle.smithy_schema.specs.WellMade.{is_well_made};

use crate::extension::{Provider, SchemaExtension};
use crate::schema_ref::{SchemaRef, Spot};

/// Each schema that a program holds is well made, and so is each node of its table: its full name is an identifier's, its
/// names and the texts of its bindings are UTF-8, and at each position of its members stands a member with that index and
/// a name.
pub fn schema_is_well_made(schema: SchemaRef<'_>)
    ensures { IsTrue (is_well_made (schema_of schema.entry)) }
{
    match schema.spot {
        Spot::Table(place) => {
            let _ = place.stored();
        }
        Spot::Prelude(_) => {
            let _ = schema.full_name();
        }
    }
}

/// Each filled cell of a column is an answer of its provider for the node at its place.
pub fn cells_are_given<T: Drop, F: Provider<T> + Drop>(column: &SchemaExtension<'_, T, F>)
    ensures { AreGiven F.gives column.now }
{
    let _ = column.table();
}
