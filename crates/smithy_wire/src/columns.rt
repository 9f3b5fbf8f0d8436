// Columns beside a table that are filled at once.
ghost use Rattle.std.specs.Prelude.{◌≡◌};

use smithy_schema::{Provider, SchemaExtension, SchemaIndex};
use smithy_types::OutOfMemory;

/// Fills the cells of so many places. Takes the memory that their provider takes.
pub(crate) fn fill_all<T: Drop, F: Provider<T> + Drop>(
    column: &mut SchemaExtension<'_, T, F>,
    places: usize,
) -> Result<(), OutOfMemory>
    ensures { column.new.table ≡ column.old.table }
{
    for place in 0..places {
        column.fill(SchemaIndex(place))?;
    }
    Ok(())
}
