// Errors, read by what is registered for their codes.
ghost use Rattle.smithy_registry.specs.Reading.{ReifiesError};

use crate::composed::ComposedRegistry;
use smithy_serde::{SerdeError, ShapeDeserializer, ShapeReader};
use smithy_types::OutOfMemory;
use std::alloc::Global;

/// Reads an error as what the registries have for its code, the first one before the second. None exactly where there is no entry,
/// where the entry reads no errors, and where what reads them refuses for another cause than memory.
pub fn reify_error<R: ShapeReader + Drop, D: ShapeDeserializer>(
    alloc: Global,
    registry: ComposedRegistry<'_, R>,
    error_code: &str,
    reader: &mut D,
) -> Result<Option<R::Output>, OutOfMemory>
    ensures { ReifiesError R.gives D.at_hand registry.entry error_code.now reader.old reader.new result }
{
    let Some(entry) = registry.entry_for_error_code(error_code) else {
        return Ok(None);
    };
    let Some(error_reader) = entry.error_deserialize_fn() else {
        return Ok(None);
    };
    match error_reader.read(alloc, reader) {
        Ok(error) => Ok(Some(error)),
        Err(SerdeError::OutOfMemory) => Err(OutOfMemory),
        Err(_) => Ok(None),
    }
}
