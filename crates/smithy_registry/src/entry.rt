// What is registered under a name.
use smithy_schema::SchemaIndex;
use smithy_serde::ShapeReader;
use std::marker::Model;

/// What is registered under the full name of a shape: the place of its node in a table, what reads it, and, where the shape is an
/// error, what reads it as that. It takes no memory.
#[derive(Drop)]
pub struct RegistryEntry<R: ShapeReader> {
    schema: SchemaIndex,
    reader: R,
    error_reader: Option<R>,
}

impl<R: ShapeReader> Model for RegistryEntry<R> {
    ghost use Rattle.smithy_registry.specs.Registries.{Registered, registered_code};

    ghost Value = { Registered R };

    ghost coded = { registered_code R.code };

    ghost view = { λ a. record { schema = a.schema.0; reader = a.reader; error_reader = a.error_reader } };
}

impl<R: ShapeReader> RegistryEntry<R> {
    ghost use Rattle.std.specs.Prelude.{◌≡◌, Some, None};
    ghost use Rattle.std.specs.Option.{option_copied};

    /// A shape that is no error.
    pub fn new(schema: SchemaIndex, reader: R) -> RegistryEntry<R>
        ensures { result ≡ record { schema = schema.0; reader = reader; error_reader = None } }
    {
        RegistryEntry {
            schema,
            reader,
            error_reader: None,
        }
    }

    /// A shape that is an error.
    pub fn new_error(schema: SchemaIndex, reader: R, error_reader: R) -> RegistryEntry<R>
        ensures { result ≡ record { schema = schema.0; reader = reader; error_reader = Some error_reader } }
    {
        RegistryEntry {
            schema,
            reader,
            error_reader: Some(error_reader),
        }
    }

    /// The place of the shape's node.
    pub fn schema(&self) -> SchemaIndex
        ensures { result.0 ≡ self.now.schema }
    {
        self.schema
    }

    /// What reads the shape.
    pub fn deserialize_fn(&self) -> &R
        ensures { result.now ≡ self.now.reader }
    {
        &self.reader
    }

    /// What reads the shape as an error, where it is one.
    pub fn error_deserialize_fn(&self) -> Option<&R>
        ensures { option_copied result ≡ self.now.error_reader }
    {
        self.error_reader.as_ref()
    }
}
