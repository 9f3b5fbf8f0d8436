// Documents: values without a schema.
ghost use Rattle.std.specs.Prelude.{◌≡◌, OnOk, OnErr, length, slice_get, map, option_map};
ghost use Rattle.smithy_types.specs.Documents as doc;
ghost use Rattle.smithy_types.specs.Documents.{put, items_snoc, items_of, boolean_in, number_in, string_in, array_in, object_in, list_of_items, list_of_members};
ghost use Rattle.smithy_types.specs.views.DocumentView.{view, number_view, items_view, members_view, pairs_in};
ghost use Rattle.smithy_types.specs.Maps.{IsOrdered};
ghost use Rattle.smithy_types.specs.Texts.{same_text};
ghost use Rattle.std.specs.Map.{lookup};

use crate::error::OutOfMemory;
use crate::number::Number;
use crate::text::Text;
use std::alloc::Global;
use std::collections::BTreeMap;
use std::collections::btree_map::Iter;
use std::marker::Model;

/// A value without a schema (Smithy, document simple type).
#[cycle(document)]
#[derive(Drop)]
pub enum Document {
    Null,
    Bool(bool),
    Number(Number),
    String(Text),
    Array(Documents),
    Object(Members),
}

/// A list of documents.
#[cycle(document)]
#[derive(Drop)]
pub struct Documents {
    pub(crate) items: Vec<Document>,
}

/// An ordered map from texts to documents, in byte order of the texts.
#[cycle(document)]
#[derive(Drop)]
pub struct Members {
    pub(crate) entries: BTreeMap<String, Document>,
}

impl Document {
    /// The truth value, if it is one.
    pub fn as_bool(&self) -> Option<bool>
        ensures { result ≡ boolean_in (view self.now) }
    {
        match self {
            Document::Bool(value) => Some(*value),
            _ => None,
        }
    }

    /// The number, if it is one.
    pub fn as_number(&self) -> Option<&Number>
        ensures { option_map (λ n. number_view n.now) result ≡ number_in (view self.now) }
    {
        match self {
            Document::Number(number) => Some(number),
            _ => None,
        }
    }

    /// The text, if it is one.
    pub fn as_string(&self) -> Option<&str>
        ensures { option_map (λ t. t.now) result ≡ string_in (view self.now) }
    {
        match self {
            Document::String(text) => Some(text.as_str()),
            _ => None,
        }
    }

    /// The list, if it is one.
    pub fn as_array(&self) -> Option<&Documents>
        ensures { option_map (λ v. items_view v.now) result ≡ array_in (view self.now) }
    {
        match self {
            Document::Array(items) => Some(items),
            _ => None,
        }
    }

    /// The map, if it is one.
    pub fn as_object(&self) -> Option<&Members>
        ensures { option_map (λ m. members_view m.now) result ≡ object_in (view self.now) }
    {
        match self {
            Document::Object(members) => Some(members),
            _ => None,
        }
    }
}

impl Documents {
    /// No documents.
    pub fn new(alloc: Global) -> Documents
        ensures { items_view result ≡ doc.no_items }
    {
        Documents {
            items: Vec::new(alloc),
        }
    }

    /// Adds a document at the end.
    pub fn push(&mut self, item: Document) -> Result<(), OutOfMemory>
        ensures ok { OnOk result (items_view self.new ≡ items_snoc (items_view self.old) (view item)) }
        ensures err { OnErr result (items_view self.new ≡ items_view self.old) }
    {
        self.items.push(item)?;
        Ok(())
    }

    /// How many documents there are.
    pub fn len(&self) -> usize
        ensures { result ≡ length (list_of_items (items_view self.now)) }
    {
        self.items.as_slice().len()
    }

    /// The document at a place, counted from 0.
    pub fn get(&self, place: usize) -> Option<&Document>
        ensures { option_map (λ d. view d.now) result
            ≡ slice_get (list_of_items (items_view self.now)) place }
    {
        self.items.get(place)
    }

    /// The documents in order.
    pub fn as_slice(&self) -> &[Document]
        ensures { items_of (map view result.now) ≡ items_view self.now }
    {
        self.items.as_slice()
    }
}

impl Members {
    /// No members.
    pub fn new(alloc: Global) -> Members
        ensures { members_view result ≡ doc.no_members }
    {
        Members {
            entries: BTreeMap::new(alloc),
        }
    }

    /// Puts a document at a key, in place of the one that stood there.
    pub fn insert(&mut self, key: Text, value: Document) -> Result<(), OutOfMemory>
        ensures ok { OnOk result (members_view self.new ≡ put key (view value) (members_view self.old)) }
        ensures err { OnErr result (members_view self.new ≡ members_view self.old) }
    {
        let name = key.into_string();
        self.entries.insert(name, value)?;
        Ok(())
    }

    /// How many members there are. Their keys ascend.
    pub fn len(&self) -> usize
        ensures value { result ≡ length (list_of_members (members_view self.now)) }
        ensures ordered { IsOrdered (list_of_members (members_view self.now)) }
    {
        self.entries.len()
    }

    /// The document at a key.
    pub fn get(&self, key: &str) -> Option<&Document>
        ensures { option_map (λ d. view d.now) result
            ≡ lookup (same_text key.now) (pairs_in self.now) }
    {
        self.entries.get(key)
    }

    /// The key at a place in byte order, counted from 0; none behind the last. It walks to the place: to go over all members, use `iter`.
    pub fn key_at(&self, place: usize) -> Option<&str>
        ensures { option_map (λ k. k.now) result
            ≡ option_map (λ m. m.0) (slice_get (pairs_in self.now) place) }
    {
        match self.entries.keys().nth(place) {
            Some(key) => Some(key.as_str()),
            None => None,
        }
    }

    /// The document at a place in byte order of the keys, counted from 0; none behind the last. It walks to the place, as `key_at` does.
    pub fn value_at(&self, place: usize) -> Option<&Document>
        ensures { option_map (λ d. view d.now) result
            ≡ option_map (λ m. m.1) (slice_get (pairs_in self.now) place) }
    {
        self.entries.values().nth(place)
    }

    /// The members, in byte order of the keys, which ascend. Takes no memory.
    pub fn iter(&self) -> MemberPairs<'_>
        ensures pairs { result ≡ list_of_members (members_view self.now) }
        ensures ordered { IsOrdered (list_of_members (members_view self.now)) }
    {
        MemberPairs {
            rest: self.entries.iter(),
        }
    }
}

/// The members of a map that are still to come, seen as the list of them.
#[derive(Drop)]
pub struct MemberPairs<'m> {
    rest: Iter<'m, String, Document>,
}

impl<'m> Model for MemberPairs<'m> {
    ghost use Rattle.std.specs.Prelude.{List, ℕ, map};
    ghost use Rattle.std.specs.Coded.{coded×, coded_ℕ, coded_list};
    ghost use Rattle.smithy_types.specs.Documents as doc;
    ghost use Rattle.smithy_types.specs.views.DocumentCode.{coded_document};
    ghost use Rattle.smithy_types.specs.views.DocumentView.{pair_view};

    ghost Value = { List (List ℕ × doc.Document) };

    ghost coded = { coded_list (coded× (coded_list coded_ℕ) coded_document) };

    ghost view = { λ a. map pair_view a.rest };
}

impl<'m> Iterator for MemberPairs<'m> {
    ghost use Rattle.std.specs.Iterator.{YieldsFirstBy, item_count};
    ghost use Rattle.smithy_types.specs.views.DocumentView.{view};

    type Item = (&'m str, &'m Document);

    ghost next_gives = { YieldsFirstBy (λ p. (p.0.now, view p.1.now)) (λ s. s) };

    ghost remaining = { item_count (λ s. s) };

    fn next(&mut self) -> Option<(&'m str, &'m Document)> {
        let (key, value) = self.rest.next()?;
        Some((key.as_str(), value))
    }
}
