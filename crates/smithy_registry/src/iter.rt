// The entries of a registry, one after the other.
use crate::entry::RegistryEntry;
use smithy_ids::ShapeId;
use smithy_serde::ShapeReader;
use std::collections::btree_map;
use std::marker::Model;

/// The entries of a registry that are still to come, seen as the list of them with their full names.
#[derive(Drop)]
pub struct Iter<'a, R: ShapeReader> {
    rest: btree_map::Iter<'a, String, RegistryEntry<R>>,
}

impl<'a, R: ShapeReader> Model for Iter<'a, R> {
    ghost use Rattle.std.specs.Prelude.{List, ℕ};
    ghost use Rattle.std.specs.Coded.{coded×, coded_ℕ, coded_list};
    ghost use Rattle.smithy_registry.specs.Registries.{Registered, registered_code};
    ghost use Rattle.smithy_registry.specs.views.Kept.{entries_kept, AreNames};

    ghost Value = { List (List ℕ × Registered R) };

    ghost coded = { coded_list (coded× (coded_list coded_ℕ) (registered_code R.code)) };

    ghost view = { λ a. entries_kept a.rest };

    ghost invariant = { λ a. AreNames (entries_kept a.rest) };
}

impl<'a, R: ShapeReader> Iter<'a, R> {
    ghost use Rattle.std.specs.Prelude.{◌≡◌};
    ghost use Rattle.smithy_registry.specs.views.Kept.{entries_kept, AreNames};

    pub(crate) fn of(entries: btree_map::Iter<'a, String, RegistryEntry<R>>) -> Iter<'a, R>
        requires { AreNames (entries_kept entries) }
        ensures { result ≡ entries_kept entries.entry }
    {
        Iter { rest: entries }
    }
}

impl<'a, R: ShapeReader> Iterator for Iter<'a, R> {
    ghost use Rattle.std.specs.Iterator.{YieldsFirstBy, item_count};
    ghost use Rattle.smithy_ids.specs.ShapeIdParts.{parts_of};

    type Item = (ShapeId<'a>, &'a RegistryEntry<R>);

    ghost next_gives = { YieldsFirstBy (λ p. ((parts_of p.0).full_name, p.1.now)) (λ s. s) };

    ghost remaining = { item_count (λ s. s) };

    fn next(&mut self) -> Option<(ShapeId<'a>, &'a RegistryEntry<R>)> {
        let (name, entry) = self.rest.next()?;
        match ShapeId::parse(name.as_str()) {
            Some(id) => Some((id, entry)),
            None => unreachable!(),
        }
    }

    fn size_hint(&self) -> (usize, Option<usize>) {
        self.rest.size_hint()
    }
}

impl<'a, R: ShapeReader> ExactSizeIterator for Iter<'a, R> {
    fn len(&self) -> usize {
        self.rest.len()
    }
}
