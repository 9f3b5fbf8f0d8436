// Registries that are being filled.
use crate::entry::RegistryEntry;
use crate::type_registry::TypeRegistry;
use smithy_ids::ShapeId;
use smithy_schema::SchemaRef;
use smithy_serde::ShapeReader;
use smithy_types::OutOfMemory;
use std::marker::Model;

/// A registry that is being filled, seen as the registry so far.
#[derive(Drop)]
pub struct TypeRegistryBuilder<R: ShapeReader> {
    registry: TypeRegistry<R>,
}

impl<R: ShapeReader> Model for TypeRegistryBuilder<R> {
    ghost use Rattle.std.specs.Prelude.{List, ℕ};
    ghost use Rattle.std.specs.Coded.{coded×, coded_ℕ, coded_list};
    ghost use Rattle.smithy_registry.specs.Registries.{Registered, registered_code};

    ghost Value = { List (List ℕ × Registered R) };

    ghost coded = { coded_list (coded× (coded_list coded_ℕ) (registered_code R.code)) };

    ghost view = { λ a. a.registry };
}

impl<R: ShapeReader + Drop> TypeRegistryBuilder<R> {
    ghost use Rattle.std.specs.Prelude.{◌≡◌, true, is_some, Some, None, OnOk, OnErr};
    ghost use Rattle.smithy_ids.specs.ShapeIdParts.{parts_of};
    ghost use Rattle.smithy_types.specs.Maps.{with_value};
    ghost use Rattle.smithy_schema.specs.References.{index_of};
    ghost use Rattle.smithy_registry.specs.Shapes.{with_shape};

    pub(crate) fn of(registry: TypeRegistry<R>) -> TypeRegistryBuilder<R>
        ensures { result ≡ registry }
    {
        TypeRegistryBuilder { registry }
    }

    /// Puts the entry under the name, in place of the one that was there. After a refusal the registry is as before.
    pub fn insert(&mut self, id: ShapeId<'_>, entry: RegistryEntry<R>) -> Result<(), OutOfMemory>
        ensures ok { OnOk result (self.new ≡ with_value (parts_of id.entry).full_name entry self.old) }
        ensures err { OnErr result (self.new ≡ self.old) }
    {
        let name = String::from_str(self.registry.allocator(), id.as_str())?;
        self.registry.put(name, entry)
    }

    /// Puts a shape that is no error under its name, in place of the entry that was there. After a refusal the registry is as
    /// before. Condition: the schema is a node of a table.
    pub fn insert_shape(&mut self, schema: SchemaRef<'_>, reader: R) -> Result<(), OutOfMemory>
        requires { is_some (index_of schema) ≡ true }
        ensures ok { OnOk result (self.new ≡ with_shape schema.entry reader None self.old) }
        ensures err { OnErr result (self.new ≡ self.old) }
    {
        let Some(place) = schema.index() else {
            unreachable!()
        };
        self.insert(schema.shape_id(), RegistryEntry::new(place, reader))
    }

    /// Puts an error under its name, in place of the entry that was there. After a refusal the registry is as before. Condition:
    /// the schema is a node of a table.
    pub fn insert_error_shape(
        &mut self,
        schema: SchemaRef<'_>,
        reader: R,
        error_reader: R,
    ) -> Result<(), OutOfMemory>
        requires { is_some (index_of schema) ≡ true }
        ensures ok { OnOk result (self.new ≡ with_shape schema.entry reader (Some error_reader) self.old) }
        ensures err { OnErr result (self.new ≡ self.old) }
    {
        let Some(place) = schema.index() else {
            unreachable!()
        };
        self.insert(
            schema.shape_id(),
            RegistryEntry::new_error(place, reader, error_reader),
        )
    }

    /// The registry. Takes no memory.
    pub fn build(self) -> TypeRegistry<R>
        ensures { result ≡ self }
    {
        self.registry
    }
}
