// Whether a structure was read whole.
use crate::failed::Failed;
use crate::sample::Sizes;
use smithy_serde::{SerializableStruct, StructValue};

/// Fails where the structure has another number of members than that of these sizes.
pub fn check_count(value: &StructValue<'_>, sizes: Sizes) -> Result<(), Failed> {
    let count = sizes.headers as usize + sizes.fields as usize;
    match value.stored_writes() {
        Some((_, writes)) if writes.len() == count => Ok(()),
        _ => Err(Failed),
    }
}
