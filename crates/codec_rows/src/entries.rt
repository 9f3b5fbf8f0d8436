// Entries of registries, as rows tell them.
use crate::told::{optional, push_part};
use smithy_document::JsonCodec;
use smithy_registry::{RegistryEntry, TypeRegistry};
use smithy_schema::Schemas;
use smithy_serde::{Codec, SerializableStruct, ShapeReader, ValueReader};
use smithy_types::Text;
use std::alloc::Global;
use test_rows::Failed;

// The name of the shape that a reader makes of an empty object.
fn push_read(alloc: Global, text: &mut Text, reader: &ValueReader<'_>) -> Result<(), Failed> {
    let Ok(mut json) = JsonCodec.create_deserializer(alloc, b"{}") else {
        return Err(Failed);
    };
    match reader.read(alloc, &mut json) {
        Ok(value) => text.push_str(value.schema().full_name())?,
        Err(_) => return Err(Failed),
    }
    Ok(())
}

fn push_entry(
    alloc: Global,
    table: &Schemas,
    text: &mut Text,
    entry: &RegistryEntry<ValueReader<'_>>,
) -> Result<(), Failed> {
    text.push_str(table.get(entry.schema()).ok_or(Failed)?.full_name())?;
    text.push_str(" read as ")?;
    push_read(alloc, text, entry.deserialize_fn())?;
    if let Some(reader) = entry.error_deserialize_fn() {
        text.push_str(" error ")?;
        push_read(alloc, text, reader)?;
    }
    Ok(())
}

/// The shape of an entry, what it is read as, and what it is read as where it is an error.
pub fn entry_told(
    alloc: Global,
    table: &Schemas,
    entry: Option<&RegistryEntry<ValueReader<'_>>>,
) -> Result<Text, Failed> {
    let Some(entry) = entry else {
        return optional(alloc, None);
    };
    let mut text = Text::from_str(alloc, "")?;
    push_entry(alloc, table, &mut text, entry)?;
    optional(alloc, Some(text.as_str()))
}

/// Each entry behind its name and how many come behind it.
pub fn iter_told(
    alloc: Global,
    table: &Schemas,
    registry: &TypeRegistry<ValueReader<'_>>,
) -> Result<Text, Failed> {
    let mut text = Text::from_str(alloc, "")?;
    let mut left = registry.iter().len();
    if registry.iter().size_hint() != (left, Some(left)) {
        return Err(Failed);
    }
    for (id, entry) in registry.iter() {
        left = left.saturating_sub(1);
        push_part(
            &mut text,
            format!(in alloc; "{left} {} = ", id.as_str())?.as_str(),
        )?;
        push_entry(alloc, table, &mut text, entry)?;
    }
    Ok(text)
}
