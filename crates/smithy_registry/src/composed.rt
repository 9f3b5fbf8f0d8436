// Two registries, one behind the other.
use crate::entry::RegistryEntry;
use crate::type_registry::TypeRegistry;
use smithy_ids::ShapeId;
use smithy_serde::ShapeReader;

/// Two registries, of which the second is asked where the first has no entry: that of an operation's errors before that of its
/// service's.
#[derive(Clone, Copy)]
pub struct ComposedRegistry<'a, R: ShapeReader> {
    primary: &'a TypeRegistry<R>,
    fallback: &'a TypeRegistry<R>,
}

impl<'a, R: ShapeReader + Drop> ComposedRegistry<'a, R> {
    ghost use Rattle.std.specs.Prelude.{◌≡◌};
    ghost use Rattle.std.specs.Option.{option_copied};
    ghost use Rattle.smithy_ids.specs.ShapeIdParts.{parts_of};
    ghost use Rattle.smithy_registry.specs.Registries.{by_name, by_code};
    ghost use Rattle.smithy_registry.specs.Layers.{primary_of, fallback_of, in_either};

    pub(crate) fn of(
        primary: &'a TypeRegistry<R>,
        fallback: &'a TypeRegistry<R>,
    ) -> ComposedRegistry<'a, R>
        ensures primary { primary_of result ≡ primary.now }
        ensures fallback { fallback_of result ≡ fallback.now }
    {
        ComposedRegistry { primary, fallback }
    }

    /// The entry of the shape with this name, of the first registry that has one. Takes no memory.
    pub fn entry_for(&self, id: ShapeId<'_>) -> Option<&'a RegistryEntry<R>>
        ensures { option_copied result ≡ in_either (by_name (parts_of id.entry).full_name) self.now }
    {
        self.entry_for_fqn(id.as_str())
    }

    /// The entry of the shape with this full name, of the first registry that has one. Takes no memory.
    pub fn entry_for_fqn(&self, fqn: &str) -> Option<&'a RegistryEntry<R>>
        ensures { option_copied result ≡ in_either (by_name fqn.now) self.now }
    {
        match self.primary.entry_for_fqn(fqn) {
            Some(entry) => Some(entry),
            None => self.fallback.entry_for_fqn(fqn),
        }
    }

    /// The entry of the error with this code, of the first registry that has one. Takes no memory.
    pub fn entry_for_error_code(&self, wire_code: &str) -> Option<&'a RegistryEntry<R>>
        ensures { option_copied result ≡ in_either (by_code wire_code.now) self.now }
    {
        match self.primary.entry_for_error_code(wire_code) {
            Some(entry) => Some(entry),
            None => self.fallback.entry_for_error_code(wire_code),
        }
    }
}
