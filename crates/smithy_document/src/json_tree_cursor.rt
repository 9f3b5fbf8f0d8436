// Where a reader stands in a JSON value.
ghost use Rattle.std.specs.Prelude.{◌≡◌, Ok, [], OnErr, option_map};
ghost use Rattle.smithy_document.specs.Words.{schema_of as node, IsIn, NextMember, NextElement, NextEntry};
ghost use Rattle.smithy_serde.specs.declared.scalar.Group.TheVariants as group;
ghost use Rattle.smithy_document.specs.views.CursorView.{Opens};
ghost use Rattle.smithy_document.specs.views.JsonTree.{node_in, tree_view};
ghost use Rattle.smithy_document.specs.views.TreePaths.{part_behind, path_end, document_at, seen, FindsPart, IsOpen, MovesOn};

use crate::groups::kind_of;
use crate::json_tree::{JsonTree, Node};
use crate::mismatch::mismatch_of;
use smithy_schema::SchemaRef;
use smithy_serde::{Group, SerdeError};
use smithy_types::Text;
use std::alloc::Global;

/// An open container, how many of its parts were handed out, and the position of the member that the last one is.
#[derive(Clone, Copy, Drop)]
pub(crate) struct TreeSpot {
    pub(crate) form: Group,
    pub(crate) next: usize,
    pub(crate) member: Option<usize>,
}

/// The open containers around the value at hand, the innermost last, as a path from the root that each call is given.
#[derive(Drop)]
pub(crate) struct TreeCursor {
    pub(crate) spots: Vec<TreeSpot>,
}

// The part of one of the tree's values that was handed out last, the value itself where none was.
fn last_part<'t>(tree: &'t JsonTree, container: &'t Node, spot: &TreeSpot) -> &'t Node
    ensures { node_in tree.now result.now ≡ part_behind (node_in tree.now container.now) spot.now }
{
    if spot.next == 0 {
        return container;
    }
    match container.part(spot.next - 1) {
        Some(part) => part,
        None => container,
    }
}

// The value at the end of a path from the root: in each container the part that was handed out last.
fn node_at<'t>(tree: &'t JsonTree, path: &[TreeSpot]) -> &'t Node
    ensures { node_in tree.now result.now ≡ path_end (tree_view tree.now) path.now }
{
    let mut node = &tree.root;
    for spot in path {
        node = last_part(tree, node, spot);
    }
    node
}

// The first part, from a position on, whose name is a member's: the position behind it, and the member. It is looked for first
// behind the member at the position `before` in byte order of the names.
fn known_part<'s>(
    tree: &JsonTree,
    container: &Node,
    from: usize,
    before: Option<usize>,
    schema: SchemaRef<'s>,
) -> Option<(usize, SchemaRef<'s>)>
    ensures { FindsPart tree.now container.now schema.entry from result }
{
    let count = container.part_count();
    let mut position = from;
    'parts: while position < count {
        let name = tree.part_name(container, position);
        position += 1;
        if let Some(member) = schema.member_schema_behind(before, name) {
            return Some((position, member));
        }
    }
    None
}

impl TreeCursor {
    /// At the root, with nothing open. Takes no memory.
    pub(crate) fn new(alloc: Global) -> TreeCursor
        ensures { result.spots.items ≡ [] }
    {
        TreeCursor {
            spots: Vec::new(alloc),
        }
    }

    /// The value at hand.
    pub(crate) fn node<'t>(&self, tree: &'t JsonTree) -> &'t Node
        ensures { node_in tree.now result.now ≡ document_at (tree_view tree.now) self.now }
    {
        node_at(tree, self.spots.as_slice())
    }

    /// Opens the value at hand. It is refused with `TypeMismatch` where it can't be opened so.
    pub(crate) fn open(
        &mut self,
        alloc: Global,
        tree: &JsonTree,
        group: Group,
    ) -> Result<(), SerdeError>
        ensures opens { Opens group result (seen tree.now self.old) (seen tree.now self.new) }
        ensures kept { OnErr result (self.new.spots.items ≡ self.old.spots.items) }
    {
        let node = self.node(tree);
        if !node.opens_as(group) {
            return Err(mismatch_of(alloc, kind_of(group), node.word()));
        }
        self.spots.push(TreeSpot {
            form: group,
            next: 0,
            member: None,
        })?;
        Ok(())
    }

    /// The next element of the innermost container, which is a list: whether there was one.
    pub(crate) fn next_element(&mut self, tree: &JsonTree) -> bool
        requires { IsIn group.List (seen tree.now self.old) }
        ensures { NextElement (seen tree.now self.old) (seen tree.now self.new) (Ok result) }
    {
        self.advance(tree).is_some()
    }

    /// The key of the next entry of the innermost container, which is a map. Takes memory for a copy of the key.
    pub(crate) fn next_entry(
        &mut self,
        alloc: Global,
        tree: &JsonTree,
    ) -> Result<Option<Text>, SerdeError>
        requires { IsIn group.Map (seen tree.now self.old) }
        ensures { NextEntry (seen tree.now self.old) (seen tree.now self.new) result }
    {
        match self.advance(tree) {
            Some(name) => Ok(Some(Text::from_str(alloc, name)?)),
            None => Ok(None),
        }
    }

    // Brings the next part of the innermost container to hand and gives its name, or closes the container behind the last
    // one, and it is at hand again. Condition: a container is open. Takes no memory.
    fn advance<'t>(&mut self, tree: &'t JsonTree) -> Option<&'t str>
        requires { IsOpen self.old }
        ensures { MovesOn (tree_view tree.now) self.old self.new (option_map (λ name. name.now) result) }
    {
        let Some(spot) = self.spots.pop() else {
            unreachable!()
        };
        let container = node_at(tree, self.spots.as_slice());
        if spot.next >= container.part_count() {
            return None;
        }
        self.spots.push_reserved(TreeSpot {
            form: spot.form,
            next: spot.next + 1,
            member: None,
        });
        Some(tree.part_name(container, spot.next))
    }

    /// The next member that the innermost container has, which is a structure.
    pub(crate) fn next_member<'s>(
        &mut self,
        tree: &JsonTree,
        schema: SchemaRef<'s>,
    ) -> Option<SchemaRef<'s>>
        requires { IsIn group.Structure (seen tree.now self.old) }
        ensures { NextMember (node schema.entry) (seen tree.now self.old)
            (seen tree.now self.new) (Ok result) }
    {
        let Some(spot) = self.spots.pop() else {
            unreachable!()
        };
        let container = node_at(tree, self.spots.as_slice());
        let Some((next, member)) = known_part(tree, container, spot.next, spot.member, schema)
        else {
            return None;
        };
        self.spots.push_reserved(TreeSpot {
            form: spot.form,
            next,
            member: member.member_index(),
        });
        Some(member)
    }
}
