// How a header and the headers behind a prefix are opened, and their items.
ghost use Rattle.std.specs.Prelude.{◌≡◌, None, IfOk};
ghost use Rattle.smithy_response.specs.Words.{str_to_ascii_lowercase, schema_of};
ghost use Rattle.smithy_response.specs.Openings.{OpensList, OpensPrefix, ReadsEntries, NextOfEntries, IsAtEntries, opened_kind};
ghost use Rattle.smithy_response.specs.PrefixedHeaders.{keys_behind};

use crate::header_reads::{
    elements_of_header, scalar_of_date, scalar_of_element, scalar_of_header, shape_type,
};
use crate::parts::{HeaderAtHand, ListItems, OpenList, OpenMap};
use crate::prefixes::keys_behind;
use crate::refusals::{element_refusal, header_refusal, nothing_at_hand, prefix_refusal};
use smithy_http::{Headers, Response};
use smithy_ids::ShapeType;
use smithy_schema::SchemaRef;
use smithy_serde::{Group, ReadScalar, ScalarKind, SerdeError};
use smithy_types::{OutOfMemory, Text};
use std::alloc::Global;

/// The kind of shape that is opened.
pub(crate) fn opened_type(group: Group) -> ShapeType
    ensures { result ≡ opened_kind group }
{
    match group {
        Group::List => ShapeType::List,
        Group::Map => ShapeType::Map,
        Group::Structure => ShapeType::Structure,
    }
}

// The list of a header.
fn open_list(
    alloc: Global,
    response: &Response,
    name: &str,
    schema: SchemaRef<'_>,
    group: Group,
) -> Result<OpenList, SerdeError>
    ensures { OpensList response.now name.now group (schema_of schema.entry) result }
{
    match group {
        Group::List => {
            let items = elements_of_header(alloc, response.headers(), name, schema)?;
            Ok(OpenList { items, place: 0 })
        }
        Group::Map => Err(header_refusal(alloc, ShapeType::Map)),
        Group::Structure => Err(header_refusal(alloc, ShapeType::Structure)),
    }
}

/// The map of the headers behind a prefix.
pub(crate) fn open_entries(
    alloc: Global,
    response: &Response,
    prefix: &str,
    schema: SchemaRef<'_>,
    group: Group,
) -> Result<OpenMap, SerdeError>
    ensures { OpensPrefix response.now prefix.now group (schema_of schema.entry) result }
{
    match group {
        Group::Map => Ok(entries_of(alloc, response.headers(), prefix)?),
        Group::List => Err(prefix_refusal(alloc, ShapeType::List)),
        Group::Structure => Err(prefix_refusal(alloc, ShapeType::Structure)),
    }
}

// The headers behind a prefix, before the first of them.
fn entries_of(alloc: Global, headers: &Headers, prefix: &str) -> Result<OpenMap, OutOfMemory>
    ensures keys { IfOk result (λ m. m.keys ≡ keys_behind prefix.now headers.now) }
    ensures lower { IfOk result (λ m. m.lower ≡ str_to_ascii_lowercase prefix.now) }
    ensures place { IfOk result (λ m. m.place ≡ 0) }
    ensures entry { IfOk result (λ m. m.entry.list ≡ None) }
{
    let lower = Text::from_string(prefix.to_ascii_lowercase(alloc)?);
    let keys = keys_behind(alloc, headers.iter_bytes(), lower.as_str())?;
    let name = Text::from_str(alloc, lower.as_str())?;
    Ok(OpenMap {
        lower,
        keys,
        place: 0,
        entry: HeaderAtHand { name, list: None },
    })
}

/// Reads the headers behind a prefix, or one of them, as a scalar of the kind.
pub(crate) fn read_entries(
    alloc: Global,
    response: &Response,
    entries: &Option<OpenMap>,
    schema: SchemaRef<'_>,
    kind: ScalarKind,
) -> Result<ReadScalar, SerdeError>
    ensures { ReadsEntries response.now entries.now kind (schema_of schema.entry) result }
{
    match entries {
        Some(map) => map.entry.read(alloc, response, schema, kind),
        None => Err(prefix_refusal(alloc, shape_type(kind))),
    }
}

/// Brings the next entry to hand and answers its key, or closes the map.
pub(crate) fn next_entry(
    alloc: Global,
    entries: &mut Option<OpenMap>,
) -> Result<Option<Text>, SerdeError>
    requires { IsAtEntries entries.old }
    ensures { NextOfEntries entries.old entries.new result }
{
    let Some(map) = entries else {
        unreachable!();
    };
    if let Some(key) = map.advance(alloc)? {
        return Ok(Some(key));
    }
    *entries = None;
    Ok(None)
}

impl OpenMap {
    ghost use Rattle.std.specs.Prelude.{◌≡◌, ◌+◌, slice_get, IfOk, IfErr, IfSome};
    ghost use Rattle.smithy_response.specs.Openings.{IsEntry};
    ghost use Rattle.smithy_serde.specs.declared.error.SerdeError.TheVariants as refusal;

    // The next entry comes to hand, if one is left: its key is answered.
    fn advance(&mut self, alloc: Global) -> Result<Option<Text>, SerdeError>
        ensures keys { (self.new.keys ≡ self.old.keys) × (self.new.lower ≡ self.old.lower) }
        ensures key { IfOk result (λ key. slice_get self.old.keys self.old.place ≡ key) }
        ensures place { IfOk result (λ key. IfSome key (λ text. self.new.place ≡ self.old.place + 1)) }
        ensures entry { IfOk result (λ key. IfSome key (λ text. IsEntry self.old.lower text self.new.entry)) }
        ensures err { IfErr result (λ e. (self.new ≡ self.old) × (e ≡ refusal.OutOfMemory)) }
    {
        let keys = self.keys.as_slice();
        let Some(found) = keys.get(self.place) else {
            return Ok(None);
        };
        let mut name = Text::from_str(alloc, self.lower.as_str())?;
        name.push_str(found.as_str())?;
        let key = Text::from_str(alloc, found.as_str())?;
        self.entry = HeaderAtHand { name, list: None };
        self.place += 1;
        Ok(Some(key))
    }
}

impl HeaderAtHand {
    ghost use Rattle.std.specs.Prelude.{◌≡◌, IsSome};
    ghost use Rattle.smithy_schema.specs.References.{schema_of};
    ghost use Rattle.smithy_response.specs.Openings.{ReadsHeader, OpensHeader, NextOfHeader};

    /// Reads the header, or the element at hand, as a scalar of the kind.
    #[tactic(auto, unfolding(smithy_serde::specs::HeldReads::read_scalar))]
    pub(crate) fn read(
        &self,
        alloc: Global,
        response: &Response,
        schema: SchemaRef<'_>,
        kind: ScalarKind,
    ) -> Result<ReadScalar, SerdeError>
        ensures { ReadsHeader response.now self.now kind (schema_of schema.entry) result }
    {
        match &self.list {
            Some(list) => list.read(alloc, schema, kind),
            None => scalar_of_header(alloc, response.headers(), self.name.as_str(), schema, kind),
        }
    }

    /// Opens the list of the header. An element can't be opened.
    pub(crate) fn open(
        &mut self,
        alloc: Global,
        response: &Response,
        schema: SchemaRef<'_>,
        group: Group,
    ) -> Result<(), SerdeError>
        ensures opens { OpensHeader response.now group (schema_of schema.entry) self.old self.new result }
        ensures name { self.new.name ≡ self.old.name }
    {
        if self.list.is_some() {
            return Err(element_refusal(alloc, opened_type(group)));
        }
        let list = open_list(alloc, response, self.name.as_str(), schema, group)?;
        self.list = Some(list);
        Ok(())
    }

    /// Brings the next element to hand, or closes the list and answers false.
    pub(crate) fn next_element(&mut self) -> bool
        requires { IsSome self.old.list }
        ensures next { NextOfHeader self.old self.new result }
        ensures name { self.new.name ≡ self.old.name }
    {
        let Some(list) = &mut self.list else {
            unreachable!();
        };
        if list.advance() {
            return true;
        }
        self.list = None;
        false
    }
}

impl OpenList {
    ghost use Rattle.std.specs.Prelude.{◌≡◌};
    ghost use Rattle.smithy_schema.specs.References.{schema_of};
    ghost use Rattle.smithy_serde.specs.ReadCalls.{read_at};
    ghost use Rattle.smithy_response.specs.GivenScalars.{GivesScalar};
    ghost use Rattle.smithy_response.specs.Openings.{IsAdvanced};
    ghost use Rattle.smithy_response.specs.views.Transporting.{element_at};

    // The next element comes to hand, if one is left.
    fn advance(&mut self) -> bool
        ensures items { self.new.items ≡ self.old.items }
        ensures place { IsAdvanced self.old self.new result }
    {
        if self.place < self.items.len() {
            self.place += 1;
            return true;
        }
        false
    }

    // Reads the element at hand.
    fn read(
        &self,
        alloc: Global,
        schema: SchemaRef<'_>,
        kind: ScalarKind,
    ) -> Result<ReadScalar, SerdeError>
        ensures { GivesScalar kind (read_at kind (schema_of schema.entry) (element_at self.now)) result }
    {
        let place = self.place.saturating_sub(1);
        match &self.items {
            ListItems::Texts(words) => match words.get(place) {
                Some(word) => scalar_of_element(alloc, word, kind),
                None => Err(nothing_at_hand(alloc)),
            },
            ListItems::Dates(seconds) => match seconds.get(place) {
                Some(second) => scalar_of_date(alloc, *second, kind),
                None => Err(nothing_at_hand(alloc)),
            },
        }
    }
}

impl ListItems {
    ghost use Rattle.std.specs.Prelude.{◌≡◌, length};
    ghost use Rattle.smithy_response.specs.views.Transporting.{items_of};

    // How many there are.
    fn len(&self) -> usize
        ensures { result ≡ length (items_of self.now) }
    {
        match self {
            ListItems::Texts(words) => words.len(),
            ListItems::Dates(seconds) => seconds.len(),
        }
    }
}
