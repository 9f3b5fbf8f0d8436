// JSON texts as trees.
ghost use Rattle.std.specs.Prelude.{◌≡◌, None, IfOk, IfErr, IsErrOf, IsTrue, option_map};
ghost use Rattle.smithy_json.specs.FromData.{of_data};
ghost use Rattle.smithy_json.specs.FromText.{document_of_text};
ghost use Rattle.smithy_json.specs.JsonView.{view, items_view, members_view};
ghost use Rattle.smithy_json.specs.Ordered.{is_ordered, are_items_ordered, are_members_ordered};
ghost use Rattle.smithy_json.specs.Reads.{Reads};
ghost use Rattle.smithy_document.specs.views.JsonTree.{is_tree_read, tree_view, Grows};
ghost use Rattle.smithy_document.specs.views.TreeReading.{items_found, members_found, IsNodeOf, AreNodesOf, AreFieldsOf};

use crate::json_tree::{JsonTree, Node};
use crate::text_list::TextList;
use smithy_json::{JsonError, JsonValue, Scratch, read_json, whole_number};
use smithy_serde::SerdeError;
use std::alloc::Global;

// The node of a value, whose texts and names go to the end of the list. Unreadable where there is a float in it.
#[cycle(node)]
#[inline(always)]
fn node_of(alloc: Global, texts: &mut TextList, value: &JsonValue<'_>) -> Result<Node, JsonError>
    requires { IsTrue (is_ordered (view value.now)) }
    ensures grows { Grows texts.old texts.new }
    ensures is { IfOk result (IsNodeOf value.now texts.new) }
    ensures refused { IsErrOf result JsonError.Unreadable → of_data (view value.now) ≡ None }
{
    match value {
        JsonValue::Null => Ok(Node::Null),
        JsonValue::Bool(truth) => Ok(Node::Bool(*truth)),
        JsonValue::Number(number) => match whole_number(number) {
            Some(number) => Ok(Node::Number(number)),
            None => Err(JsonError::Unreadable),
        },
        JsonValue::String(text) => Ok(Node::Text(texts.push(*text)?)),
        JsonValue::Array(items) => Ok(Node::Array(nodes_of(alloc, texts, items)?)),
        JsonValue::Object(members) => Ok(Node::Object(fields_of(alloc, texts, members)?)),
    }
}

#[cycle(node)]
#[inline(never)]
fn nodes_of(
    alloc: Global,
    texts: &mut TextList,
    items: &Vec<JsonValue<'_>>,
) -> Result<Vec<Node>, JsonError>
    requires { IsTrue (are_items_ordered (items_view items.now.items)) }
    ensures grows { Grows texts.old texts.new }
    ensures are { IfOk result (AreNodesOf items.now.items texts.new) }
    ensures refused { IsErrOf result JsonError.Unreadable → items_found items.now.items ≡ None }
{
    let mut found = Vec::with_capacity(alloc, items.len())?;
    'items: for item in items {
        found.push(node_of(alloc, texts, item)?)?;
    }
    Ok(found)
}

// The fields of members, which stand in order.
#[cycle(node)]
#[inline(never)]
fn fields_of(
    alloc: Global,
    texts: &mut TextList,
    members: &Vec<(&str, JsonValue<'_>)>,
) -> Result<Vec<(usize, Node)>, JsonError>
    requires { IsTrue (are_members_ordered (members_view members.now.items)) }
    ensures grows { Grows texts.old texts.new }
    ensures are { IfOk result (AreFieldsOf members.now.items texts.new) }
    ensures refused { IsErrOf result JsonError.Unreadable → members_found members.now.items ≡ None }
{
    let mut found = Vec::with_capacity(alloc, members.len())?;
    'members: for member in members {
        let position = texts.push(member.0)?;
        found.push((position, node_of(alloc, texts, &member.1)?))?;
    }
    Ok(found)
}

// The tree of a JSON text. It is no part of its caller, so that the scratch, of some 16 KiB, is filled once.
#[inline(never)]
fn tree_of_text(alloc: Global, text: &[u8], scratch: &mut Scratch) -> Result<JsonTree, JsonError>
    ensures { Reads tree_view (document_of_text text.now) result }
{
    let value = read_json(alloc, text, scratch)?;
    let mut texts = TextList::with_capacity(alloc, text.len())?;
    let root = node_of(alloc, &mut texts, &value)?;
    Ok(JsonTree { texts, root })
}

/// The tree of a JSON text (RFC 8259) in UTF-8, none where it is no JSON or has a float in it.
pub(crate) fn read_tree(alloc: Global, text: &[u8]) -> Result<Option<JsonTree>, SerdeError>
    ensures document { IfOk result (λ o. option_map tree_view o ≡ document_of_text text.now) }
    ensures read { IfOk result (λ o. IsTrue (is_tree_read o)) }
    ensures memory { IfErr result (λ e. e ≡ SerdeError.OutOfMemory) }
{
    let mut scratch = Scratch::new(alloc);
    match tree_of_text(alloc, text, &mut scratch) {
        Ok(tree) => Ok(Some(tree)),
        Err(JsonError::Unreadable) => Ok(None),
        Err(JsonError::OutOfMemory) => Err(SerdeError::OutOfMemory),
    }
}
