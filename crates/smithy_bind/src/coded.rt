// The error that a response names by its code.
ghost use Rattle.std.specs.Prelude.{IfOk, OnOk};
ghost use Rattle.smithy_serde.specs.StoredValues.{HasNode};
ghost use Rattle.smithy_bind.specs.views.CodedView.{AddsError, Stand, RegistersAll, FindsCoded};

use smithy_job::CodedError;
use smithy_registry::{TypeRegistry, TypeRegistryBuilder};
use smithy_schema::{SchemaIndex, Schemas};
use smithy_serde::ValueReader;
use smithy_types::OutOfMemory;
use std::alloc::Global;

// Puts the shape at a place of the table under its name.
fn add_error<'t>(
    builder: &mut TypeRegistryBuilder<ValueReader<'t>>,
    table: &'t Schemas,
    place: SchemaIndex,
) -> Result<(), OutOfMemory>
    requires { HasNode table.now place.0 }
    ensures { OnOk result (AddsError table.now place.0 builder.old builder.new) }
{
    let Some(schema) = table.get(place) else {
        unreachable!()
    };
    let reader = ValueReader::new(table, place);
    builder.insert_error_shape(schema, reader, reader)
}

// The shapes at these places of a table as errors, by their names.
fn registry_of<'t>(
    alloc: Global,
    table: &'t Schemas,
    places: &[SchemaIndex],
) -> Result<TypeRegistry<ValueReader<'t>>, OutOfMemory>
    requires { Stand table.now places.now }
    ensures { IfOk result (RegistersAll table.now places.now) }
{
    let mut builder = TypeRegistry::builder(alloc);
    for place in places {
        add_error(&mut builder, table, *place)?;
    }
    Ok(builder.build())
}

/// The place of the error with the code, among the operation's, or else among its service's. Takes memory.
pub fn error_of_code(
    alloc: Global,
    table: &Schemas,
    error: &CodedError<'_>,
) -> Result<Option<SchemaIndex>, OutOfMemory>
    requires operation { Stand table.now error.now.operation.items }
    requires service { Stand table.now error.now.service.items }
    ensures { IfOk result (FindsCoded table.now error.now) }
{
    let operation = registry_of(alloc, table, error.operation.as_slice())?;
    let service = registry_of(alloc, table, error.service.as_slice())?;
    let errors = operation.or(&service);
    match errors.entry_for_error_code(error.code) {
        Some(entry) => Ok(Some(entry.schema())),
        None => Ok(None),
    }
}
