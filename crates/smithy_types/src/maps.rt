// Ordered maps from texts to texts.
use crate::error::OutOfMemory;
use crate::text::Text;
use std::alloc::Global;
use std::collections::BTreeMap;
use std::collections::btree_map::Iter;
use std::marker::Model;

/// A map from texts to texts, seen as the list of its pairs of a key and a value, in byte order of the keys. A place is a position
/// in that order, counted from 0.
#[derive(Drop)]
pub struct TextMap {
    entries: BTreeMap<String, Text>,
}

impl Model for TextMap {
    ghost use Rattle.std.specs.Prelude.{List, ℕ, map};
    ghost use Rattle.smithy_types.specs.views.MapViews.{pair_of};

    ghost Value = { List (List ℕ × List ℕ) };

    ghost view = { λ a. map pair_of a.entries.entries };
}

impl TextMap {
    ghost use Rattle.std.specs.Prelude.{◌≡◌, ◌==◌, [], length, slice_get, option_map, OnOk, OnErr};
    ghost use Rattle.std.specs.Map.{lookup};
    ghost use Rattle.std.specs.Option.{option_copied};
    ghost use Rattle.smithy_types.specs.Maps.{with_value, IsOrdered};
    ghost use Rattle.smithy_types.specs.Texts.{same_text};

    /// No pairs. Takes no memory.
    pub fn new(alloc: Global) -> TextMap
        ensures { result ≡ [] }
    {
        TextMap {
            entries: BTreeMap::new(alloc),
        }
    }

    /// Puts the value at the key, in place of the one that was there.
    pub fn insert(&mut self, key: Text, value: Text) -> Result<(), OutOfMemory>
        ensures ok { OnOk result (self.new ≡ with_value key value self.old) }
        ensures err { OnErr result (self.new ≡ self.old) }
    {
        self.entries.insert(key.into_string(), value)?;
        Ok(())
    }

    /// How many pairs there are. The keys ascend.
    pub fn len(&self) -> usize
        ensures value { result ≡ length self.now }
        ensures ordered { IsOrdered self.now }
    {
        self.entries.len()
    }

    /// Whether there are none.
    pub fn is_empty(&self) -> bool
        ensures { result ≡ (length self.now == 0) }
    {
        self.entries.is_empty()
    }

    /// The value at the key.
    pub fn get(&self, key: &str) -> Option<&Text>
        ensures { option_copied result ≡ lookup (same_text key.now) self.now }
    {
        self.entries.get(key)
    }

    /// The key at a place; none behind the last. It walks to the place: to go over all pairs, use `iter`.
    pub fn key_at(&self, place: usize) -> Option<&str>
        ensures { option_copied result ≡ option_map (λ p. p.0) (slice_get self.now place) }
    {
        let (key, _) = self.entries.iter().nth(place)?;
        Some(key.as_str())
    }

    /// The value at a place; none behind the last. It walks to the place: to go over all pairs, use `iter`.
    pub fn value_at(&self, place: usize) -> Option<&Text>
        ensures { option_copied result ≡ option_map (λ p. p.1) (slice_get self.now place) }
    {
        let (_, value) = self.entries.iter().nth(place)?;
        Some(value)
    }

    /// The pairs, in byte order of the keys. Takes no memory.
    pub fn iter(&self) -> TextPairs<'_>
        ensures value { result ≡ self.now }
        ensures ordered { IsOrdered self.now }
    {
        TextPairs {
            rest: self.entries.iter(),
        }
    }
}

/// The pairs of a map that are still to come, seen as the list of them.
#[derive(Drop)]
pub struct TextPairs<'m> {
    rest: Iter<'m, String, Text>,
}

impl<'m> Model for TextPairs<'m> {
    ghost use Rattle.std.specs.Prelude.{List, ℕ, map};
    ghost use Rattle.smithy_types.specs.views.MapViews.{pair_of};

    ghost Value = { List (List ℕ × List ℕ) };

    ghost view = { λ a. map pair_of a.rest };
}

impl<'m> Iterator for TextPairs<'m> {
    ghost use Rattle.std.specs.Iterator.{YieldsFirstBy, item_count};

    type Item = (&'m str, &'m Text);

    ghost next_gives = { YieldsFirstBy (λ p. (p.0.now, p.1.now)) (λ s. s) };

    ghost remaining = { item_count (λ s. s) };

    fn next(&mut self) -> Option<(&'m str, &'m Text)> {
        let (key, value) = self.rest.next()?;
        Some((key.as_str(), value))
    }
}
