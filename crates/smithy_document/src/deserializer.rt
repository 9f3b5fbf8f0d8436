// A reader of documents.
ghost use Rattle.std.specs.Prelude.{◌≡◌, Some, None, IsTrue};
ghost use Rattle.smithy_document.specs.Words.{view, is_canonical, Begins};
ghost use Rattle.smithy_serde.specs.Held as held;

use crate::cursor::Cursor;
use crate::scalar_reads::read_as;
use crate::spot::{is_null, size_of};
use smithy_schema::SchemaRef;
use smithy_serde::{Group, ReadScalar, ScalarKind, SerdeError, ShapeDeserializer};
use smithy_types::{Document, DocumentSettings, NoSettings, Text};
use std::alloc::Global;

/// Reads a document by the kind that is asked for (Smithy, data model: a value without its shapes). Opening a structure
/// hands out the fields whose names are members, a map all entries, each in byte order of the names. Texts that stand for
/// blobs and points in time, and numbers that stand for these, are read as the settings answer. A read leaves the document
/// at hand.
#[derive(Drop)]
pub struct DocumentShapeDeserializer<'a, S: DocumentSettings> {
    root: &'a Document,
    cursor: Cursor,
    settings: Option<&'a S>,
    ghost canonical: { IsTrue (is_canonical (view root.now)) },
}

impl<'a> DocumentShapeDeserializer<'a, NoSettings> {
    ghost use Rattle.smithy_document.specs.views.DocumentHand.{hand};

    /// A reader of the document, without settings. Condition: the document is canonical. Takes no memory.
    pub fn new(document: &'a Document) -> DocumentShapeDeserializer<'a, NoSettings>
        requires { IsTrue (is_canonical (view document.now)) }
        ensures { Begins (Some (held.document (view document.entry.now))) (hand result) }
    {
        DocumentShapeDeserializer {
            root: document,
            cursor: Cursor::new(),
            settings: None,
        }
    }
}

impl<'a, S: DocumentSettings> DocumentShapeDeserializer<'a, S> {
    ghost use Rattle.smithy_document.specs.views.DocumentHand.{hand, plain_hand, settings_of};

    /// A reader of the document by these settings. Code that serves any reader isn't told what it holds; its own calls say
    /// what they answer. Condition: the document is canonical. Takes no memory.
    pub fn new_with_settings(
        document: &'a Document,
        settings: &'a S,
    ) -> DocumentShapeDeserializer<'a, S>
        requires { IsTrue (is_canonical (view document.now)) }
        ensures begins { Begins None (hand result) }
        ensures plainly { Begins (Some (held.document (view document.entry.now))) (plain_hand result) }
        ensures settings { settings_of result ≡ Some settings.entry.now }
    {
        DocumentShapeDeserializer {
            root: document,
            cursor: Cursor::new(),
            settings: Some(settings),
        }
    }
}

impl<S: DocumentSettings> ShapeDeserializer for DocumentShapeDeserializer<'_, S> {
    ghost use Rattle.std.specs.Prelude.{◌≡◌, Err, OnErr};
    ghost use Rattle.smithy_schema.specs.References.{schema_of as node};
    ghost use Rattle.smithy_serde.specs.declared.scalar.Group.TheVariants as group;
    ghost use Rattle.smithy_serde.specs.Unchanged.{DoesNothing};
    ghost use Rattle.smithy_serde.specs.ReadCalls.{IsIn, scalar_of_read, Reads, OpensAt, NextMember, NextElement, NextEntry, Settles, TellsNull};
    ghost use Rattle.smithy_document.specs.Sizes.{container_size};
    ghost use Rattle.smithy_document.specs.views.DocumentHand.{hand, plain_hand, settings_of, document_at_hand, ReadsHere};

    ghost at_hand = { hand };

    // How many items an array or an object at hand has, and 10,000 where it has more; none of any other document.
    ghost has_size = { λ reader size. size ≡ container_size (document_at_hand reader) };

    ghost reads_null = { DoesNothing };

    ghost passes_over = { DoesNothing };

    fn read(
        &mut self,
        alloc: Global,
        _schema: SchemaRef<'_>,
        kind: ScalarKind,
    ) -> Result<ReadScalar, SerdeError>
        ensures reads { Reads scalar_of_read kind (node _schema.entry)
            (hand self.old) (hand self.new) result }
        ensures by_settings { ReadsHere S.DocumentSettings kind self.old result }
        ensures left { plain_hand self.new ≡ plain_hand self.old }
        ensures settings { settings_of self.new ≡ settings_of self.old }
    {
        read_as(alloc, self.cursor.document(self.root), kind, self.settings)
    }

    /// A refused opening leaves the document at hand.
    fn open(
        &mut self,
        alloc: Global,
        _schema: SchemaRef<'_>,
        group: Group,
    ) -> Result<(), SerdeError>
        ensures opens { OpensAt group (node _schema.entry) (hand self.old) (hand self.new) result }
        ensures plainly { OpensAt group (node _schema.entry) (plain_hand self.old) (plain_hand self.new) result }
        ensures left { OnErr result (plain_hand self.new ≡ plain_hand self.old) }
        ensures settings { settings_of self.new ≡ settings_of self.old }
    {
        self.cursor.open(alloc, self.root, group)
    }

    fn next_member<'s>(
        &mut self,
        _alloc: Global,
        schema: SchemaRef<'s>,
    ) -> Result<Option<SchemaRef<'s>>, SerdeError>
        requires { IsIn group.Structure (hand self.old) }
        ensures next { NextMember (node schema.entry) (hand self.old) (hand self.new) result }
        ensures plainly { NextMember (node schema.entry) (plain_hand self.old) (plain_hand self.new) result }
        ensures settings { settings_of self.new ≡ settings_of self.old }
    {
        Ok(self.cursor.next_member(self.root, schema))
    }

    fn next_element(&mut self, _alloc: Global) -> Result<bool, SerdeError>
        requires { IsIn group.List (hand self.old) }
        ensures next { NextElement (hand self.old) (hand self.new) result }
        ensures plainly { NextElement (plain_hand self.old) (plain_hand self.new) result }
        ensures settings { settings_of self.new ≡ settings_of self.old }
    {
        Ok(self.cursor.next_element(self.root))
    }

    fn next_entry(&mut self, alloc: Global) -> Result<Option<Text>, SerdeError>
        requires { IsIn group.Map (hand self.old) }
        ensures next { NextEntry (hand self.old) (hand self.new) result }
        ensures plainly { NextEntry (plain_hand self.old) (plain_hand self.new) result }
        ensures settings { settings_of self.new ≡ settings_of self.old }
    {
        self.cursor.next_entry(alloc, self.root)
    }

    fn settle(&mut self, _alloc: Global, refusal: SerdeError) -> Result<(), SerdeError>
        ensures settles { Settles refusal (hand self.old) (hand self.new) result }
        ensures as_it_is { result ≡ Err refusal }
        ensures left { self.new ≡ self.old }
    {
        Err(refusal)
    }

    fn is_null(&self) -> bool
        ensures told { TellsNull (hand self.now) result }
        ensures plainly { TellsNull (plain_hand self.now) result }
    {
        is_null(self.cursor.document(self.root))
    }

    fn read_null(&mut self) -> Result<(), SerdeError> {
        Ok(())
    }

    /// It reads nothing.
    fn skip_value(&mut self, _alloc: Global) -> Result<(), SerdeError> {
        Ok(())
    }

    fn container_size(&self) -> Option<usize> {
        size_of(self.cursor.document(self.root))
    }
}
