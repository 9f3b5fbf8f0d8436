// A reader of JSON.
ghost use Rattle.std.specs.Prelude.{◌≡◌, IfOk, IsTrue};
ghost use Rattle.smithy_document.specs.Words.{IsRefusal, InvalidInput, is_of_kind, scalar_of_read};
ghost use Rattle.smithy_document.specs.InOrder.{is_read};
ghost use Rattle.smithy_document.specs.views.JsonTree.{is_body_read, node_view};
ghost use Rattle.smithy_document.specs.SettingsReads.{ReadsPlain};

use crate::document_tree::tree_of;
use crate::json_tree::{JsonTree, Node};
use crate::json_tree_cursor::TreeCursor;
use crate::json_tree_documents::document_of;
use crate::json_tree_reading::read_tree;
use crate::scalar_reads::read_as;
use smithy_schema::SchemaRef;
use smithy_serde::{Group, ReadScalar, ScalarKind, SerdeError, ShapeDeserializer};
use smithy_types::{Document, NoSettings, OutOfMemory, Text};
use std::alloc::Global;

/// Reads a JSON text as `DocumentShapeDeserializer` reads its document, and owns what it reads. Over what is no JSON, or
/// has a float in it, each read and each opening is refused with `InvalidInput`. A read leaves the value at hand.
#[derive(Drop)]
pub struct JsonDeserializer {
    // What is read, or the text of the refusal that each read answers.
    pub(crate) tree: Result<JsonTree, Text>,
    pub(crate) cursor: TreeCursor,
    ghost read: { IsTrue (is_body_read tree) },
}

impl JsonDeserializer {
    ghost use Rattle.std.specs.Prelude.{◌≡◌, Some, IfOk, IfErr, IsTrue};
    ghost use Rattle.smithy_serde.specs.Held as held;
    ghost use Rattle.smithy_document.specs.Words.{view, is_canonical, Begins, InvalidInput, OutOfMemory as no_memory};
    ghost use Rattle.smithy_document.specs.JsonHeld.{json_held};
    ghost use Rattle.smithy_document.specs.views.JsonTree.{is_body_read};
    ghost use Rattle.smithy_document.specs.views.JsonHand.{body_held, hand};

    // A reader of a tree, or one that refuses, in which nothing is open.
    fn new(alloc: Global, tree: Result<JsonTree, Text>) -> JsonDeserializer
        requires { IsTrue (is_body_read tree) }
        ensures { Begins (Some (body_held tree)) (hand result) }
    {
        JsonDeserializer {
            tree,
            cursor: TreeCursor::new(alloc),
        }
    }

    // A reader of a JSON text.
    pub(crate) fn of_text(alloc: Global, text: &[u8]) -> Result<JsonDeserializer, SerdeError>
        ensures begins { IfOk result (λ r. Begins (json_held text.now) (hand r)) }
        ensures memory { IfErr result (λ e. e ≡ no_memory) }
    {
        let tree = match read_tree(alloc, text)? {
            Some(tree) => Ok(tree),
            None => Err(Text::from_str(alloc, "body is not JSON")?),
        };
        Ok(JsonDeserializer::new(alloc, tree))
    }

    /// A reader of a document, in which nothing is open. Condition: the document is canonical. Takes memory for a copy of the
    /// document.
    pub fn of_document(alloc: Global, document: &Document) -> Result<JsonDeserializer, OutOfMemory>
        requires { IsTrue (is_canonical (view document.now)) }
        ensures { IfOk result (λ r. Begins (Some (held.document (view document.now))) (hand r)) }
    {
        let tree = tree_of(alloc, document)?;
        Ok(JsonDeserializer::new(alloc, Ok(tree)))
    }

    /// A reader of which each read and each opening is refused with `InvalidInput` and this text. Takes no memory.
    pub fn of_refusal(alloc: Global, text: Text) -> JsonDeserializer
        ensures { Begins (Some (held.refused (InvalidInput text))) (hand result) }
    {
        JsonDeserializer::new(alloc, Err(text))
    }
}

// The refusal that is told.
#[inline(never)]
fn refused(alloc: Global, text: &Text) -> SerdeError
    ensures { IsRefusal (InvalidInput text.now) result }
{
    SerdeError::invalid_input(alloc, text.as_str())
}

// One of the tree's values as a scalar of the kind.
#[inline(always)]
fn read_node(
    alloc: Global,
    tree: &JsonTree,
    node: &Node,
    kind: ScalarKind,
) -> Result<ReadScalar, SerdeError>
    requires { IsTrue (is_read (node_view tree.now.texts node.now)) }
    ensures of_kind { IfOk result (λ a. IsTrue (is_of_kind kind (scalar_of_read a))) }
    ensures gives { ReadsPlain kind (node_view tree.now.texts node.now) result }
{
    match (kind, node) {
        (ScalarKind::String, Node::Text(position)) => {
            let text = Text::from_str(alloc, tree.texts.get(*position))?;
            Ok(ReadScalar::String(text))
        }
        _ => read_by_document(alloc, tree, node, kind),
    }
}

// The same by the value's document.
#[inline(never)]
fn read_by_document(
    alloc: Global,
    tree: &JsonTree,
    node: &Node,
    kind: ScalarKind,
) -> Result<ReadScalar, SerdeError>
    requires { IsTrue (is_read (node_view tree.now.texts node.now)) }
    ensures of_kind { IfOk result (λ a. IsTrue (is_of_kind kind (scalar_of_read a))) }
    ensures gives { ReadsPlain kind (node_view tree.now.texts node.now) result }
{
    let document = document_of(alloc, tree, node)?;
    match kind {
        ScalarKind::Document => Ok(ReadScalar::Document(document)),
        _ => read_as::<NoSettings>(alloc, &document, kind, None),
    }
}

impl ShapeDeserializer for JsonDeserializer {
    ghost use Rattle.std.specs.Prelude.{◌≡◌, OnErr};
    ghost use Rattle.smithy_schema.specs.References.{schema_of as node};
    ghost use Rattle.smithy_serde.specs.Unchanged.{DoesNothing};
    ghost use Rattle.smithy_serde.specs.ReadCalls.{Reads, OpensAt};
    ghost use Rattle.smithy_document.specs.views.JsonHand.{hand, json_size, PassesOver};

    ghost at_hand = { hand };

    // How many items an array or an object at hand has, and 10,000 where it has more; none of any other value, and none
    // where each read is refused.
    ghost has_size = { λ reader size. size ≡ json_size reader };

    ghost reads_null = { DoesNothing };

    ghost passes_over = { PassesOver };

    #[inline(always)]
    fn read(
        &mut self,
        alloc: Global,
        _schema: SchemaRef<'_>,
        kind: ScalarKind,
    ) -> Result<ReadScalar, SerdeError>
        ensures reads { Reads scalar_of_read kind (node _schema.entry)
            (hand self.old) (hand self.new) result }
        ensures left { self.new ≡ self.old }
    {
        match &self.tree {
            Ok(tree) => read_node(alloc, tree, self.cursor.node(tree), kind),
            Err(text) => Err(refused(alloc, text)),
        }
    }

    /// A refused opening leaves the value at hand.
    fn open(
        &mut self,
        alloc: Global,
        _schema: SchemaRef<'_>,
        group: Group,
    ) -> Result<(), SerdeError>
        ensures opens { OpensAt group (node _schema.entry) (hand self.old) (hand self.new) result }
        ensures left { OnErr result (hand self.new ≡ hand self.old) }
    {
        match &self.tree {
            Ok(tree) => self.cursor.open(alloc, tree, group),
            Err(text) => Err(refused(alloc, text)),
        }
    }

    #[inline(always)]
    fn next_member<'s>(
        &mut self,
        _alloc: Global,
        schema: SchemaRef<'s>,
    ) -> Result<Option<SchemaRef<'s>>, SerdeError> {
        match &self.tree {
            Ok(tree) => Ok(self.cursor.next_member(tree, schema)),
            Err(_) => unreachable!(),
        }
    }

    fn next_element(&mut self, _alloc: Global) -> Result<bool, SerdeError> {
        match &self.tree {
            Ok(tree) => Ok(self.cursor.next_element(tree)),
            Err(_) => unreachable!(),
        }
    }

    fn next_entry(&mut self, alloc: Global) -> Result<Option<Text>, SerdeError> {
        match &self.tree {
            Ok(tree) => self.cursor.next_entry(alloc, tree),
            Err(_) => unreachable!(),
        }
    }

    fn settle(&mut self, _alloc: Global, refusal: SerdeError) -> Result<(), SerdeError> {
        Err(refusal)
    }

    fn is_null(&self) -> bool {
        match &self.tree {
            Ok(tree) => self.cursor.node(tree).is_null(),
            Err(_) => false,
        }
    }

    fn read_null(&mut self) -> Result<(), SerdeError> {
        Ok(())
    }

    /// Where each read is refused, so is this.
    fn skip_value(&mut self, alloc: Global) -> Result<(), SerdeError> {
        match &self.tree {
            Ok(_) => Ok(()),
            Err(text) => Err(refused(alloc, text)),
        }
    }

    fn container_size(&self) -> Option<usize> {
        match &self.tree {
            Ok(tree) => self.cursor.node(tree).container_size(),
            Err(_) => None,
        }
    }
}
