// Where a reader stands in a document.
ghost use Rattle.std.specs.Prelude.{◌≡◌, ◌++◌, ◌∷◌, [], Ok, None, true, OnOk, OnErr, IfErr, option_map};
ghost use Rattle.smithy_document.specs.Words.{view, schema_of as node, IsIn, NextMember, NextElement, NextEntry};
ghost use Rattle.smithy_serde.specs.declared.scalar.Group.TheVariants as group;
ghost use Rattle.smithy_document.specs.views.CursorView.{seen, Opens, Does, spot_list, document_in, name_in, IsOpen, Advances, AdvancesTo};

use crate::groups::{kind_of, opens_as};
use crate::mismatch::mismatch;
use crate::spot::{Spot, document_at, name_of, names_of, position_behind};
use smithy_schema::SchemaRef;
use smithy_serde::{Group, SerdeError};
use smithy_types::{Document, Text};
use std::alloc::Global;

/// The open containers around the document at hand, the innermost last, as a path from the root that each call is given.
#[derive(Drop)]
pub(crate) struct Cursor {
    pub(crate) spots: Option<Vec<Spot>>,
}

impl Cursor {
    /// At the root, with nothing open. Takes no memory.
    pub(crate) fn new() -> Cursor
        ensures { result.spots ≡ None }
    {
        Cursor { spots: None }
    }

    /// The document at hand.
    pub(crate) fn document<'d>(&self, root: &'d Document) -> &'d Document
        ensures { view result.now ≡ document_in (view root.now) self.now }
    {
        match &self.spots {
            Some(spots) => document_at(root, spots.as_slice()),
            None => root,
        }
    }

    // The name of the part at hand, which is empty in an array and at the root.
    fn name(&self) -> &str
        ensures { result.now ≡ name_in self.now }
    {
        let Some(spots) = &self.spots else {
            return "";
        };
        match spots.as_slice().last() {
            Some(spot) => name_of(spot),
            None => "",
        }
    }

    /// Opens the document at hand. It is refused with `TypeMismatch` where it can't be opened so. Takes memory for the
    /// names of an object's members.
    pub(crate) fn open(
        &mut self,
        alloc: Global,
        root: &Document,
        group: Group,
    ) -> Result<(), SerdeError>
        ensures opens { Does (Opens group result) root.entry.now self.old self.new }
        ensures kept { OnErr result (spot_list self.new ≡ spot_list self.old) }
    {
        let document = self.document(root);
        if !opens_as(group, document) {
            return Err(mismatch(alloc, kind_of(group), document));
        }
        let names = match names_of(alloc, document) {
            Ok(names) => names,
            Err(error) => return Err(error),
        };
        let spot = Spot {
            form: group,
            names,
            next: 0,
        };
        match self.push(alloc, spot) {
            Ok(()) => Ok(()),
            Err(error) => Err(error),
        }
    }

    // Adds a spot, in which nothing was handed out.
    fn push(&mut self, alloc: Global, spot: Spot) -> Result<(), SerdeError>
        ensures pushed { OnOk result (spot_list self.new ≡ spot_list self.old ++ spot ∷ []) }
        ensures kept { OnErr result (spot_list self.new ≡ spot_list self.old) }
        ensures memory { IfErr result (λ e. e ≡ SerdeError.OutOfMemory) }
    {
        match &mut self.spots {
            Some(spots) => {
                spots.push(spot)?;
                Ok(())
            }
            None => {
                let mut spots = Vec::new(alloc);
                spots.push(spot)?;
                self.spots = Some(spots);
                Ok(())
            }
        }
    }

    /// The next element of the innermost container, which is a list: whether there was one.
    pub(crate) fn next_element(&mut self, root: &Document) -> bool
        requires { IsIn group.List (seen true (view root.now) self.old) }
        ensures { Does (λ a b. NextElement a b (Ok result)) root.entry.now self.old self.new }
    {
        self.advance(root)
    }

    /// The key of the next entry of the innermost container, which is a map. Takes memory for a copy of the key.
    pub(crate) fn next_entry(
        &mut self,
        alloc: Global,
        root: &Document,
    ) -> Result<Option<Text>, SerdeError>
        requires { IsIn group.Map (seen true (view root.now) self.old) }
        ensures { Does (λ a b. NextEntry a b result) root.entry.now self.old self.new }
    {
        if !self.advance(root) {
            return Ok(None);
        }
        Ok(Some(Text::from_str(alloc, self.name())?))
    }

    /// The next member that the innermost container has, which is a structure.
    pub(crate) fn next_member<'s>(
        &mut self,
        root: &Document,
        schema: SchemaRef<'s>,
    ) -> Option<SchemaRef<'s>>
        requires { IsIn group.Structure (seen true (view root.now) self.old) }
        ensures { Does (λ a b. NextMember (node schema.entry) a b (Ok result)) root.entry.now self.old self.new }
    {
        match self.advance_to_member(root, schema) {
            Some(member) => Some(member),
            None => None,
        }
    }

    // Brings the next part of the innermost container to hand, or closes the container behind the last one, and it is at
    // hand again: whether there was one. Condition: a container is open. Takes no memory.
    fn advance(&mut self, root: &Document) -> bool
        requires { IsOpen self.old }
        ensures { Advances (view root.entry.now) self.old self.new result }
    {
        let Some(spots) = &mut self.spots else {
            unreachable!()
        };
        let Some(spot) = spots.pop() else {
            unreachable!()
        };
        let container = document_at(root, spots.as_slice());
        let Some(next) = position_behind(container, &spot) else {
            return false;
        };
        spots.push_reserved(Spot {
            form: spot.form,
            names: spot.names,
            next,
        });
        true
    }

    // Brings the next part to hand whose name is a member's and gives that member, or closes the container. Condition: a
    // container is open. Takes no memory.
    fn advance_to_member<'s>(
        &mut self,
        root: &Document,
        schema: SchemaRef<'s>,
    ) -> Option<SchemaRef<'s>>
        requires { IsOpen self.old }
        ensures { AdvancesTo (view root.entry.now) (node schema.entry) self.old self.new (option_map node result) }
    {
        'parts: while self.advance(root) {
            if let Some(member) = schema.member_schema(self.name()) {
                return Some(member);
            }
        }
        None
    }
}
