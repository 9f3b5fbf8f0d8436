// Further traits of a schema, by their names.
use crate::owned_trait::Trait;
use smithy_ids::ShapeId;
use smithy_types::OutOfMemory;
use std::alloc::Global;
use std::collections::BTreeMap;
use std::marker::Model;

/// A map of traits by their full names (Smithy, traits), seen as the list of its names with what is held under each, in byte
/// order of the names. A look-up is logarithmic in the number of traits.
#[derive(Drop)]
pub struct TraitMap {
    alloc: Global,
    entries: BTreeMap<String, Trait>,
}

impl Model for TraitMap {
    ghost use Rattle.std.specs.Prelude.{List, ℕ};
    ghost use Rattle.std.specs.Coded.{codes};
    ghost use Rattle.smithy_types.specs.DocumentCode.{coded_document};
    ghost use Rattle.smithy_schema.specs.Nodes.{TraitValue};

    ghost Value = { List (List ℕ × TraitValue) };

    ghost coded = { Prim.hlevel (codes, coded_document) };

    ghost use Rattle.smithy_schema.specs.views.TraitMaps.{entries_kept, AreUnderTheirNames};

    ghost view = { λ m. entries_kept m.entries.entries };

    ghost invariant = { λ m. AreUnderTheirNames m.entries.entries };
}

impl TraitMap {
    ghost use Rattle.std.specs.Prelude.{◌≡◌, ◌==◌, [], length, is_some, option_map, OnOk, OnErr};
    ghost use Rattle.smithy_ids.specs.ShapeIdParts.{parts_of};
    ghost use Rattle.smithy_types.specs.Maps.{with_value, IsOrdered};
    ghost use Rattle.smithy_schema.specs.views.OwnedTraits.{name_of, value_of, entry_of};
    ghost use Rattle.smithy_schema.specs.views.TraitMaps.{entry_named};

    /// No traits. Takes no memory.
    pub fn new(alloc: Global) -> TraitMap
        ensures { result ≡ [] }
    {
        TraitMap {
            alloc,
            entries: BTreeMap::new(alloc),
        }
    }

    /// Puts a trait under its name, in place of the one that was there. After a refusal the map is as before.
    pub fn insert(&mut self, value: Trait) -> Result<(), OutOfMemory>
        ensures ok { OnOk result (self.new ≡ with_value (name_of value) (value_of value) self.old) }
        ensures err { OnErr result (self.new ≡ self.old) }
    {
        let name = String::from_str(self.alloc, value.name())?;
        self.entries.insert(name, value)?;
        Ok(())
    }

    /// The trait of this name, if it is there. Takes no memory.
    pub fn get(&self, id: ShapeId<'_>) -> Option<&Trait>
        ensures { option_map (λ t. entry_of t.now) result
            ≡ entry_named (parts_of id.entry).full_name self.now }
    {
        self.get_fqn(id.as_str())
    }

    /// The trait of this full name, if it is there. Takes no memory.
    pub fn get_fqn(&self, fqn: &str) -> Option<&Trait>
        ensures { option_map (λ t. entry_of t.now) result ≡ entry_named fqn.now self.now }
    {
        self.entries.get(fqn)
    }

    /// Whether a trait of this name is there. Takes no memory.
    pub fn contains(&self, id: ShapeId<'_>) -> bool
        ensures { result ≡ is_some (entry_named (parts_of id.entry).full_name self.now) }
    {
        self.contains_fqn(id.as_str())
    }

    /// Whether a trait of this full name is there. Takes no memory.
    pub fn contains_fqn(&self, fqn: &str) -> bool
        ensures { result ≡ is_some (entry_named fqn.now self.now) }
    {
        self.get_fqn(fqn).is_some()
    }

    /// How many traits there are. Their names ascend, so that none stands twice. Takes no memory.
    pub fn len(&self) -> usize
        ensures value { result ≡ length self.now }
        ensures ordered { IsOrdered self.now }
    {
        self.entries.len()
    }

    /// Whether there are none. Takes no memory.
    pub fn is_empty(&self) -> bool
        ensures { result ≡ (length self.now == 0) }
    {
        self.entries.is_empty()
    }
}
