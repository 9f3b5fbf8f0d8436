// Registries of shapes.
use crate::builder::TypeRegistryBuilder;
use crate::composed::ComposedRegistry;
use crate::entry::RegistryEntry;
use crate::error_code::sanitize_error_code;
use crate::iter::Iter;
use crate::kept::{LeastNames, put};
use smithy_ids::ShapeId;
use smithy_schema::SchemaIndex;
use smithy_serde::ShapeReader;
use smithy_types::OutOfMemory;
use std::alloc::Global;
use std::collections::BTreeMap;
use std::marker::Model;

/// A map from full names of shapes to what is registered under them, seen as the list of its entries in byte order of the names.
/// Each look-up is logarithmic in the number of entries, that by an error's code too.
#[derive(Drop)]
pub struct TypeRegistry<R: ShapeReader> {
    alloc: Global,
    pub(crate) entries: BTreeMap<String, RegistryEntry<R>>,
    // The least full name of each shape name.
    names: LeastNames,
}

impl<R: ShapeReader> Model for TypeRegistry<R> {
    ghost use Rattle.std.specs.Prelude.{List, ℕ};
    ghost use Rattle.std.specs.Coded.{coded×, coded_ℕ, coded_list};
    ghost use Rattle.smithy_registry.specs.Registries.{Registered, registered_code};
    ghost use Rattle.smithy_registry.specs.views.Kept.{entries_kept, IsKept};

    ghost Value = { List (List ℕ × Registered R) };

    ghost coded = { coded_list (coded× (coded_list coded_ℕ) (registered_code R.code)) };

    ghost view = { λ a. entries_kept a.entries.entries };

    ghost invariant = { λ a. IsKept (entries_kept a.entries.entries) a.names };
}

impl<R: ShapeReader + Drop> TypeRegistry<R> {
    ghost use Rattle.std.specs.Prelude.{◌≡◌, ◌==◌, ℕ, List, [], true, length, string_bytes, option_map, IfOk, OnOk, OnErr};
    ghost use Rattle.std.specs.Option.{option_copied};
    ghost use Rattle.smithy_ids.specs.ShapeIds.{has_hash};
    ghost use Rattle.smithy_ids.specs.ShapeIdParts.{parts_of};
    ghost use Rattle.smithy_types.specs.Maps.{with_value, IsOrdered};
    ghost use Rattle.smithy_schema.specs.Places.{place_of};
    ghost use Rattle.smithy_registry.specs.Registries.{IsUnion, by_name, by_code, composed};
    ghost use Rattle.smithy_registry.specs.Layers.{primary_of, fallback_of};

    /// A registry to be filled. Takes no memory.
    pub fn builder(alloc: Global) -> TypeRegistryBuilder<R>
        ensures { result ≡ [] }
    {
        TypeRegistryBuilder::of(TypeRegistry::new(alloc))
    }

    /// A registry without entries. Takes no memory.
    pub fn new(alloc: Global) -> TypeRegistry<R>
        ensures { result ≡ [] }
    {
        TypeRegistry {
            alloc,
            entries: BTreeMap::new(alloc),
            names: BTreeMap::new(alloc),
        }
    }

    // What the entries are kept in.
    pub(crate) fn allocator(&self) -> Global {
        self.alloc
    }

    // Puts the entry under the full name, in place of the one that was there. After a refusal the registry is as before.
    pub(crate) fn put(&mut self, name: String, entry: RegistryEntry<R>) -> Result<(), OutOfMemory>
        requires { has_hash (string_bytes name) ≡ true }
        ensures ok { OnOk result (self.new ≡ with_value (string_bytes name) entry self.old) }
        ensures err { OnErr result (self.new ≡ self.old) }
    {
        put(self.alloc, &mut self.entries, &mut self.names, name, entry)
    }

    /// The place of the node of the shape with this name. Takes no memory.
    pub fn schema_for(&self, id: ShapeId<'_>) -> Option<SchemaIndex>
        ensures { place_of result
            ≡ option_map (λ e. e.schema) (by_name (parts_of id.entry).full_name self.now) }
    {
        self.schema_for_fqn(id.as_str())
    }

    /// The place of the node of the shape with this full name. Takes no memory.
    pub fn schema_for_fqn(&self, fqn: &str) -> Option<SchemaIndex>
        ensures { place_of result ≡ option_map (λ e. e.schema) (by_name fqn.now self.now) }
    {
        Some(self.entry_for_fqn(fqn)?.schema())
    }

    /// The entry of the shape with this name. Takes no memory.
    pub fn entry_for(&self, id: ShapeId<'_>) -> Option<&RegistryEntry<R>>
        ensures { option_copied result ≡ by_name (parts_of id.entry).full_name self.now }
    {
        self.entry_for_fqn(id.as_str())
    }

    /// The entry of the shape with this full name. Takes no memory.
    pub fn entry_for_fqn(&self, fqn: &str) -> Option<&RegistryEntry<R>>
        ensures { option_copied result ≡ by_name fqn.now self.now }
    {
        self.entries.get(fqn)
    }

    /// The entry of the error with this code, as a response tells it: of the shapes whose name is what `sanitize_error_code` leaves,
    /// that with the least full name. Takes no memory.
    pub fn entry_for_error_code(&self, wire_code: &str) -> Option<&RegistryEntry<R>>
        ensures { option_copied result ≡ by_code wire_code.now self.now }
    {
        let name = self.names.get(sanitize_error_code(wire_code))?;
        self.entries.get(name.as_str())
    }

    /// How many entries there are. Takes no memory.
    pub fn len(&self) -> usize
        ensures { result ≡ length self.now }
    {
        self.entries.len()
    }

    /// Whether there are none. Takes no memory.
    pub fn is_empty(&self) -> bool
        ensures { result ≡ (length self.now == 0) }
    {
        self.entries.is_empty()
    }

    /// The entries with their names, in byte order of these; no name stands twice. Takes no memory.
    pub fn iter(&self) -> Iter<'_, R>
        ensures value { result ≡ self.now }
        ensures ordered { IsOrdered self.now }
    {
        Iter::of(self.entries.iter())
    }

    /// The entries of both. Under a name of both stands the entry of `other`. After a refusal both are gone.
    pub fn compose(self, other: TypeRegistry<R>) -> Result<TypeRegistry<R>, OutOfMemory>
        ensures value { IfOk result (λ r. r ≡ composed self other) }
        ensures union { IfOk result (IsUnion self other) }
    {
        let mut whole = self;
        let TypeRegistry { entries, .. } = other;
        for (name, entry) in entries {
            whole.put(name, entry)?;
        }
        Ok(whole)
    }

    /// Both registries, where this one is asked first. Takes no memory.
    pub fn or<'a>(&'a self, fallback: &'a TypeRegistry<R>) -> ComposedRegistry<'a, R>
        ensures primary { primary_of result ≡ self.now }
        ensures fallback { fallback_of result ≡ fallback.now }
    {
        ComposedRegistry::of(self, fallback)
    }
}
