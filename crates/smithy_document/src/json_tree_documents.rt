// JSON values as documents.
ghost use Rattle.std.specs.Prelude.{◌≡◌, IfOk, IsTrue};
ghost use Rattle.smithy_document.specs.Words.{view, items_view, members_view};
ghost use Rattle.smithy_document.specs.InOrder.{is_in_order, are_items_in_order, are_members_in_order};
ghost use Rattle.smithy_document.specs.views.JsonTree.{node_view, nodes_view, fields_view};

use crate::json_tree::{JsonTree, Node};
use smithy_types::{Document, Documents, Members, OutOfMemory, Text};
use std::alloc::Global;

/// The document of one of the tree's values. Takes memory for its texts, its lists and its maps.
#[cycle(document)]
pub(crate) fn document_of(
    alloc: Global,
    tree: &JsonTree,
    node: &Node,
) -> Result<Document, OutOfMemory>
    requires { IsTrue (is_in_order (node_view tree.now.texts node.now)) }
    ensures { IfOk result (λ d. view d ≡ node_view tree.now.texts node.now) }
{
    match node {
        Node::Null => Ok(Document::Null),
        Node::Bool(truth) => Ok(Document::Bool(*truth)),
        Node::Number(number) => Ok(Document::Number(*number)),
        Node::Text(position) => {
            let text = Text::from_str(alloc, tree.texts.get(*position))?;
            Ok(Document::String(text))
        }
        Node::Array(items) => Ok(Document::Array(documents_of(alloc, tree, items)?)),
        Node::Object(fields) => Ok(Document::Object(members_of(alloc, tree, fields)?)),
    }
}

#[cycle(document)]
fn documents_of(alloc: Global, tree: &JsonTree, items: &Vec<Node>) -> Result<Documents, OutOfMemory>
    requires { IsTrue (are_items_in_order (nodes_view tree.now.texts items.now.items)) }
    ensures { IfOk result (λ ds. items_view ds ≡ nodes_view tree.now.texts items.now.items) }
{
    let mut found = Documents::new(alloc);
    'items: for item in items {
        found.push(document_of(alloc, tree, item)?)?;
    }
    Ok(found)
}

#[cycle(document)]
fn members_of(
    alloc: Global,
    tree: &JsonTree,
    fields: &Vec<(usize, Node)>,
) -> Result<Members, OutOfMemory>
    requires { IsTrue (are_members_in_order (fields_view tree.now.texts fields.now.items)) }
    ensures { IfOk result (λ ms. members_view ms ≡ fields_view tree.now.texts fields.now.items) }
{
    let mut found = Members::new(alloc);
    'fields: for field in fields {
        let name = Text::from_str(alloc, tree.texts.get(field.0))?;
        let member = document_of(alloc, tree, &field.1)?;
        found.insert(name, member)?;
    }
    Ok(found)
}
