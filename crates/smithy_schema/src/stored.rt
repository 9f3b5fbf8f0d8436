// A node as a table keeps it: with texts of its own.
ghost use Rattle.std.specs.Prelude.{◌≡◌, true, IfOk, IfSome, IsTrue};
ghost use Rattle.smithy_schema.specs.views.Details.{details_of};
ghost use Rattle.smithy_schema.specs.views.Stored.{name_stored, index_stored, node_stored, table_stored, details_full};
ghost use Rattle.smithy_schema.specs.views.StoredTraits.{traits_stored};
ghost use Rattle.smithy_schema.specs.views.Places.{places_of};
ghost use Rattle.smithy_schema.specs.views.NamePositions.{position_in};
ghost use Rattle.smithy_schema.specs.views.Kept.{HasMembers, IsFollower, KeepsMembers};
ghost use Rattle.smithy_schema.specs.views.Described.{name_in, index_in};
ghost use Rattle.smithy_schema.specs.WellMade.{has_utf8, has_utf8_traits, is_whole};

use crate::copies::copied_text;
use crate::member_names::{MemberNames, member_names};
use crate::parts::{Places, SchemaIndex};
use crate::routing::routing_word;
use crate::schema::{Membership, Schema};
use crate::stored_traits::{StoredTraits, copied, copied_traits};
use smithy_ids::{PayloadHint, ShapeType, TimestampFormat};
use smithy_types::{OutOfMemory, Text};
use std::alloc::Global;
use std::sync::Arc;

// Whether a node is a member: by name, or by name and index.
#[derive(Debug, Drop)]
pub(crate) enum StoredMember {
    Shape,
    Named(Text),
    Indexed(Text, usize),
}

// What a node has beside its names, its kind and its index.
#[derive(Drop)]
pub(crate) struct FullDetails {
    pub(crate) original_name: Option<Text>,
    pub(crate) places: Places,
    pub(crate) members: Vec<SchemaIndex>,
    pub(crate) names: MemberNames,
    pub(crate) routing: u64,
    pub(crate) traits: StoredTraits,
    pub(crate) no_body_members: bool,
    pub(crate) hint: PayloadHint,
}

// The same, where an outline, which has a time format at most, takes no memory of its own.
#[derive(Drop)]
pub(crate) enum StoredDetails {
    Outline(Option<TimestampFormat>),
    Full(Box<FullDetails>),
}

// The names, the kind and the index of a node.
#[derive(Debug, Drop)]
pub(crate) struct Head {
    pub(crate) full_name: Text,
    pub(crate) shape_type: ShapeType,
    pub(crate) membership: StoredMember,
}

// A node. Its outlines share its head.
#[derive(Drop)]
pub(crate) struct StoredNode {
    pub(crate) head: Arc<Head>,
    pub(crate) details: StoredDetails,
}

impl StoredNode {
    pub(crate) fn head(&self) -> &Head
        ensures { result.now ≡ self.now.head.value }
    {
        &self.head
    }
}

impl FullDetails {
    // The first position of a member with this name, whose members stand among these nodes.
    pub(crate) fn position_of(&self, nodes: &[Option<StoredNode>], name: &str) -> Option<usize>
        requires { KeepsMembers (table_stored nodes.now) self.now }
        ensures { result ≡ position_in (table_stored nodes.now) name.now (places_of self.now.members.items) }
    {
        self.names.position_of(nodes, self.members.as_slice(), name)
    }

    // The place of the member whose name follows, in byte order, that of the one at a position; else of the first name's.
    pub(crate) fn follower(&self, before: Option<usize>) -> Option<SchemaIndex>
        ensures { IfSome result (IsFollower self.now) }
    {
        let position = self.names.position_behind(before, self.members.len())?;
        self.members.get(position).copied()
    }
}

fn copied_membership(alloc: Global, membership: Membership<'_>) -> Result<StoredMember, OutOfMemory>
    ensures name { IfOk result (λ m. name_stored m ≡ name_in membership.entry) }
    ensures index { IfOk result (λ m. index_stored m ≡ index_in membership.entry) }
    ensures utf8 { IfOk result (λ m. IsTrue (has_utf8 (name_stored m))) }
{
    match membership {
        Membership::Shape => Ok(StoredMember::Shape),
        Membership::Named(name) => Ok(StoredMember::Named(copied_text(alloc, name)?)),
        Membership::Indexed(name, index) => {
            Ok(StoredMember::Indexed(copied_text(alloc, name)?, index))
        }
    }
}

fn copied_details(
    alloc: Global,
    nodes: &[Option<StoredNode>],
    schema: Schema<'_>,
) -> Result<FullDetails, OutOfMemory>
    ensures details { IfOk result (λ d. details_full d ≡ details_of schema.entry) }
    ensures members { IfOk result (λ d. KeepsMembers (table_stored nodes.now) d) }
    ensures utf8 { IfOk result (λ d. IsTrue (has_utf8_traits (traits_stored d.traits))) }
{
    let others = schema.others;
    let traits = copied_traits(alloc, &schema.traits, others)?;
    Ok(FullDetails {
        original_name: copied(alloc, schema.original_name)?,
        places: schema.places,
        members: Vec::from_slice(alloc, schema.members)?,
        names: member_names(alloc, nodes, schema.members)?,
        routing: routing_word(nodes, schema.members),
        traits,
        no_body_members: schema.no_body_members,
        hint: schema.hint,
    })
}

/// The node of this description, whose members stand among these nodes: a copy of its texts, with its map of traits.
/// It takes time linear in the texts and members, up to the logarithm of a map of names that don't ascend.
pub(crate) fn copied_node(
    alloc: Global,
    nodes: &[Option<StoredNode>],
    schema: Schema<'_>,
) -> Result<StoredNode, OutOfMemory>
    ensures node { IfOk result (λ n. node_stored n ≡ schema.entry) }
    ensures whole { IfOk result (λ n. is_whole (node_stored n) ≡ true) }
    ensures members { IfOk result (λ n. HasMembers (table_stored nodes.now) n.details) }
{
    let head = Head {
        full_name: copied_text(alloc, schema.id.as_str())?,
        shape_type: schema.shape_type,
        membership: copied_membership(alloc, schema.membership)?,
    };
    let details = copied_details(alloc, nodes, schema)?;
    Ok(StoredNode {
        head: Arc::new(alloc, head)?,
        details: StoredDetails::Full(Box::new(alloc, details)?),
    })
}
