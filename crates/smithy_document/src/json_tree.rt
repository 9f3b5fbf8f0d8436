// JSON values as trees whose texts stand in one buffer.
ghost use Rattle.std.specs.Prelude.{◌≡◌, ℕ, List, length};
ghost use Rattle.smithy_document.specs.Words.{is_null_document, word_of_document};
ghost use Rattle.smithy_document.specs.OpenDocuments.{parts_of, opens_as};
ghost use Rattle.smithy_document.specs.views.JsonTree.{node_view, GivesPart, part_name};
ghost use Rattle.smithy_document.specs.Sizes.{container_size};

use crate::text_list::TextList;
use smithy_serde::{Group, capped_container_size};
use smithy_types::Number;

/// A JSON value (RFC 8259) without floats. Texts and names are positions of a list of texts.
#[derive(Drop)]
pub(crate) enum Node {
    Null,
    Bool(bool),
    Number(Number),
    Text(usize),
    Array(Vec<Node>),
    /// Names with their values, in byte order of the names, of which none stands twice.
    Object(Vec<(usize, Node)>),
}

/// A JSON value with its texts, seen as the document that it is.
#[derive(Drop)]
pub(crate) struct JsonTree {
    pub(crate) texts: TextList,
    pub(crate) root: Node,
}

impl Node {
    /// How many parts an array or an object has; other values have none.
    pub(crate) fn part_count(&self) -> usize
        ensures { (texts : List (List ℕ)) → result ≡ length (parts_of (node_view texts self.now)) }
    {
        match self {
            Node::Array(items) => items.len(),
            Node::Object(fields) => fields.len(),
            _ => 0,
        }
    }

    /// The part at a position, counted from 0.
    pub(crate) fn part(&self, position: usize) -> Option<&Node>
        ensures { GivesPart self.now position result }
    {
        match self {
            Node::Array(items) => items.get(position),
            Node::Object(fields) => Some(&fields.get(position)?.1),
            _ => None,
        }
    }

    /// Whether it opens so: an array as a list, an object as a map or a structure.
    pub(crate) fn opens_as(&self, group: Group) -> bool
        ensures { (texts : List (List ℕ)) → result ≡ opens_as group (node_view texts self.now) }
    {
        match self {
            Node::Array(_) => matches!(group, Group::List),
            Node::Object(_) => matches!(group, Group::Map | Group::Structure),
            _ => false,
        }
    }

    /// How many parts an array or an object has, and 10,000 where it has more; none of any other value.
    pub(crate) fn container_size(&self) -> Option<usize>
        ensures { (texts : List (List ℕ)) → result ≡ container_size (node_view texts self.now) }
    {
        match self {
            Node::Array(items) => Some(capped_container_size(items.len())),
            Node::Object(fields) => Some(capped_container_size(fields.len())),
            _ => None,
        }
    }

    /// What a document of its kind is called.
    pub(crate) fn word(&self) -> &'static str
        ensures { (texts : List (List ℕ)) → word_of_document (node_view texts self.now) ≡ result.now }
    {
        match self {
            Node::Null => "null",
            Node::Bool(_) => "boolean",
            Node::Number(_) => "number",
            Node::Text(_) => "string",
            Node::Array(_) => "list",
            Node::Object(_) => "map",
        }
    }

    /// Whether it is the null.
    pub(crate) fn is_null(&self) -> bool
        ensures { (texts : List (List ℕ)) → result ≡ is_null_document (node_view texts self.now) }
    {
        matches!(self, Node::Null)
    }
}

impl JsonTree {
    /// The name of the part at a position of one of the tree's values, which is empty in an array.
    pub(crate) fn part_name(&self, container: &Node, position: usize) -> &str
        ensures { result.now ≡ part_name (node_view self.now.texts container.now) position }
    {
        match container {
            Node::Object(fields) => match fields.get(position) {
                Some(field) => self.texts.get(field.0),
                None => "",
            },
            Node::Array(_) => "",
            _ => "",
        }
    }
}
