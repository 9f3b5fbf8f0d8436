// Documents as trees.
ghost use Rattle.std.specs.Prelude.{◌≡◌, IfOk, IsTrue};
ghost use Rattle.smithy_document.specs.Words.{view, items_view, members_view};
ghost use Rattle.smithy_document.specs.InOrder.{is_in_order, are_items_in_order, are_members_in_order};
ghost use Rattle.smithy_document.specs.views.JsonTree.{tree_view, Grows};
ghost use Rattle.smithy_document.specs.views.DocumentTree.{IsNodeAs, AreNodesAs, AreFieldsAs};

use crate::json_tree::{JsonTree, Node};
use crate::text_list::TextList;
use smithy_types::{Document, Documents, Members, OutOfMemory};
use std::alloc::Global;

// The node of a document, whose texts and names go to the end of the list.
#[cycle(document_node)]
fn node_of(alloc: Global, texts: &mut TextList, document: &Document) -> Result<Node, OutOfMemory>
    ensures grows { Grows texts.old texts.new }
    ensures is { IfOk result (IsNodeAs (view document.now) texts.new) }
    ensures in_order { IfOk result (λ n. IsTrue (is_in_order (view document.now))) }
{
    match document {
        Document::Null => Ok(Node::Null),
        Document::Bool(truth) => Ok(Node::Bool(*truth)),
        Document::Number(number) => Ok(Node::Number(*number)),
        Document::String(text) => Ok(Node::Text(texts.push(text.as_str())?)),
        Document::Array(items) => Ok(Node::Array(nodes_of(alloc, texts, items)?)),
        Document::Object(members) => Ok(Node::Object(fields_of(alloc, texts, members)?)),
    }
}

#[cycle(document_node)]
fn nodes_of(
    alloc: Global,
    texts: &mut TextList,
    documents: &Documents,
) -> Result<Vec<Node>, OutOfMemory>
    ensures grows { Grows texts.old texts.new }
    ensures are { IfOk result (AreNodesAs (items_view documents.now) texts.new) }
    ensures in_order { IfOk result (λ v. IsTrue (are_items_in_order (items_view documents.now))) }
{
    let mut found = Vec::with_capacity(alloc, documents.len())?;
    let items = documents.as_slice();
    'items: for item in items {
        found.push(node_of(alloc, texts, item)?)?;
    }
    Ok(found)
}

#[cycle(document_node)]
fn fields_of(
    alloc: Global,
    texts: &mut TextList,
    members: &Members,
) -> Result<Vec<(usize, Node)>, OutOfMemory>
    ensures grows { Grows texts.old texts.new }
    ensures are { IfOk result (AreFieldsAs (members_view members.now) texts.new) }
    ensures in_order { IfOk result (λ v. IsTrue (are_members_in_order (members_view members.now))) }
{
    let mut found = Vec::with_capacity(alloc, members.len())?;
    'members: for (name, member) in members.iter() {
        let position = texts.push(name)?;
        found.push((position, node_of(alloc, texts, member)?))?;
    }
    Ok(found)
}

/// The tree of a document, whose objects have their names in byte order. Takes memory for a copy of the document.
pub(crate) fn tree_of(alloc: Global, document: &Document) -> Result<JsonTree, OutOfMemory>
    ensures is { IfOk result (λ t. tree_view t ≡ view document.now) }
    ensures in_order { IfOk result (λ t. IsTrue (is_in_order (view document.now))) }
{
    let mut texts = TextList::with_capacity(alloc, 0)?;
    let root = node_of(alloc, &mut texts, document)?;
    Ok(JsonTree { texts, root })
}
