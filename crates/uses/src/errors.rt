// Errors: registered by their names, and found by the codes of responses.
ghost use Rattle.std.specs.Prelude.{◌≡◌, [], true, Some, is_some, option_map, IfOk};
ghost use Rattle.smithy_schema.specs.Places.{place_of};
ghost use Rattle.smithy_schema.specs.References.{index_of};
ghost use Rattle.smithy_registry.specs.Registries.{by_code};
ghost use Rattle.smithy_registry.specs.Shapes.{with_shape};

use smithy_registry::TypeRegistry;
use smithy_schema::{SchemaIndex, SchemaRef};
use smithy_serde::ValueReader;
use smithy_types::OutOfMemory;
use std::alloc::Global;

/// The registry of one error, with what reads it. Condition: the error is a node of a table. Takes memory.
pub fn error_registry<'t>(
    alloc: Global,
    error: SchemaRef<'t>,
    reader: ValueReader<'t>,
) -> Result<TypeRegistry<ValueReader<'t>>, OutOfMemory>
    requires { is_some (index_of error) ≡ true }
    ensures { IfOk result (λ r. r ≡ with_shape error.entry reader.entry (Some reader.entry) []) }
{
    let mut builder = TypeRegistry::builder(alloc);
    builder.insert_error_shape(error, reader, reader)?;
    Ok(builder.build())
}

/// The place of the error that a response names by this code, with or without a namespace before it and a `:`
/// behind it. Takes no memory.
pub fn error_place(registry: &TypeRegistry<ValueReader<'_>>, code: &str) -> Option<SchemaIndex>
    ensures { place_of result ≡ option_map (λ e. e.schema) (by_code code.now registry.now) }
{
    Some(registry.entry_for_error_code(code)?.schema())
}
