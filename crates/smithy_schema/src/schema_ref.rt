// A node of a table, and what it has.
ghost use Rattle.std.specs.Prelude.{◌≡◌, true, Some, option_map};
ghost use Rattle.std.specs.Option.{is_some};
ghost use Rattle.smithy_ids.specs.ShapeIds.{parts_in};
ghost use Rattle.smithy_ids.specs.ShapeIdParts.{parts_of};
ghost use Rattle.smithy_schema.specs.Nodes.{node_at};
ghost use Rattle.smithy_schema.specs.PreludeNodes.{prelude_name};

use crate::defining::stored_at;
use crate::parts::SchemaIndex;
use crate::schemas::Schemas;
use crate::stored::{FullDetails, StoredDetails, StoredMember, StoredNode};
use crate::stored_traits::as_str;
use smithy_ids::{PayloadHint, ShapeId, ShapeType};

// A defined place of a table.
#[derive(Clone, Copy)]
pub(crate) struct TableRef<'t> {
    pub(crate) table: &'t Schemas,
    pub(crate) index: SchemaIndex,
    ghost defined: { is_some (node_at table.now index.0) ≡ true },
}

// A defined place of a table, or the prelude's node of a kind.
#[derive(Clone, Copy)]
pub(crate) enum Spot<'t> {
    Table(TableRef<'t>),
    Prelude(ShapeType),
}

/// A node of a table, or a node of the prelude, which cites nothing and has no traits.
/// A place that is only declared counts as none wherever a getter gives a node.
#[derive(Clone, Copy)]
pub struct SchemaRef<'t> {
    pub(crate) spot: Spot<'t>,
}

impl<'t> TableRef<'t> {
    ghost use Rattle.smithy_schema.specs.views.Stored.{node_stored};
    ghost use Rattle.std.specs.Prelude.{IfSome};
    ghost use Rattle.smithy_schema.specs.views.References.{node_in, schema_at, schema_of};
    ghost use Rattle.smithy_schema.specs.views.MemberNames.{IsFirstOfName};
    ghost use Rattle.smithy_schema.specs.Defining.{HasMembersInPlace, IsSound};
    ghost use Rattle.smithy_schema.specs.WellMade.{is_whole};
    ghost use Rattle.smithy_schema.specs.views.Kept.{HasMembers};
    ghost use Rattle.smithy_schema.specs.views.Places.{places_of};
    ghost use Rattle.smithy_schema.specs.Nodes.{position_of_name};
    ghost use Rattle.smithy_schema.specs.Routing.{routing};

    pub(crate) fn stored(self) -> &'t StoredNode
        ensures node { node_stored result.now ≡ node_in self.entry.table.now self.entry.index.0 }
        ensures whole { is_whole (node_stored result.now) ≡ true }
        ensures place { node_at self.entry.table.now self.entry.index.0 ≡ Some (node_stored result.now) }
        ensures sound { IsSound self.entry.table.now }
        ensures members { HasMembers self.entry.table.now result.now.details }
    {
        let table = self.table;
        let Some(node) = stored_at(table.nodes.as_slice(), self.index.0) else {
            unreachable!()
        };
        node
    }

    // The first position of a member with this name.
    fn position_of(self, name: &str) -> Option<usize>
        ensures { result ≡ position_of_name (schema_at self.entry) name.now }
    {
        let table = self.table;
        match &self.stored().details {
            StoredDetails::Outline(_) => None,
            StoredDetails::Full(details) => details.position_of(table.nodes.as_slice(), name),
        }
    }

    // The member whose name follows that of the one at this position in byte order, else the first name's: a hint.
    fn follower(self, before: Option<usize>) -> Option<SchemaRef<'t>>
        ensures { IfSome result (λ m. IsFirstOfName (schema_at self.entry) (schema_of m)) }
    {
        match &self.stored().details {
            StoredDetails::Outline(_) => None,
            StoredDetails::Full(details) => {
                let place = details.follower(before)?;
                SchemaRef::at(self.table, place)
            }
        }
    }

    // The routing word of the members.
    fn routing(self) -> u64
        ensures word { result ≡ routing (schema_at self.entry) }
        ensures in_place { HasMembersInPlace (schema_at self.entry) }
    {
        match &self.stored().details {
            StoredDetails::Outline(_) => 0,
            StoredDetails::Full(details) => details.routing,
        }
    }

    fn members(self) -> &'t [SchemaIndex]
        ensures places { places_of result.now ≡ (node_in self.entry.table.now self.entry.index.0).members }
        ensures in_place { HasMembersInPlace (schema_at self.entry) }
        ensures sound { IsSound self.entry.table.now }
    {
        match &self.stored().details {
            StoredDetails::Outline(_) => &[],
            StoredDetails::Full(details) => details.members.as_slice(),
        }
    }

    fn shape_id(self) -> ShapeId<'t>
        ensures { Some (parts_of result) ≡ parts_in (schema_at self.entry).node.full_name }
    {
        match ShapeId::parse(self.stored().head().full_name.as_str()) {
            Some(id) => id,
            None => unreachable!(),
        }
    }
}

impl<'t> SchemaRef<'t> {
    ghost use Rattle.std.specs.Prelude.{[], not, Some, None, IfSome, MatchOption, option_map};
    ghost use Rattle.smithy_ids.specs.Kinds.{is_simple};
    ghost use Rattle.smithy_ids.specs.ShapeIds.{has_hash, parts_in};
    ghost use Rattle.smithy_ids.specs.ShapeIdParts.{parts_of};
    ghost use Rattle.smithy_schema.specs.Nodes.{at_place, position_of_name};
    ghost use Rattle.smithy_schema.specs.Routing.{routing};
    ghost use Rattle.smithy_schema.specs.views.MemberNames.{IsFirstOfName};
    ghost use Rattle.smithy_schema.specs.views.Places.{place_of, places_of};
    ghost use Rattle.smithy_schema.specs.PreludeNodes.{prelude_node};
    ghost use Rattle.smithy_schema.specs.Defining.{HasMembersInPlace, IsSound};
    ghost use Rattle.smithy_schema.specs.WellMade.{is_whole};
    ghost use Rattle.smithy_schema.specs.views.References.{schema_of, index_of};
    ghost use Rattle.smithy_schema.specs.views.Stored.{node_stored, ShowsDetails, ShowsNode};

    // The node at a place of a table.
    pub(crate) fn at(table: &'t Schemas, index: SchemaIndex) -> Option<SchemaRef<'t>>
        ensures node { option_map schema_of result ≡ at_place table.now index.0 }
        ensures place { IfSome result (λ s. index_of s ≡ Some index.0) }
    {
        match stored_at(table.nodes.as_slice(), index.0) {
            Some(_) => Some(SchemaRef {
                spot: Spot::Table(TableRef { table, index }),
            }),
            None => None,
        }
    }

    // The node as the table keeps it, None for the prelude's.
    pub(crate) fn stored(&self) -> Option<&'t StoredNode>
        ensures node { ShowsNode (schema_of self.now).node result }
        ensures whole { IfSome result (λ n. is_whole (node_stored n.now) ≡ true) }
    {
        match self.spot {
            Spot::Table(place) => Some(place.stored()),
            Spot::Prelude(_) => None,
        }
    }

    // What the table keeps of the node in full, None where the node has a time format at most.
    pub(crate) fn details(&self) -> Option<&'t FullDetails>
        ensures { ShowsDetails (schema_of self.now).node result }
    {
        match &self.stored()?.details {
            StoredDetails::Outline(_) => None,
            StoredDetails::Full(details) => Some(&**details),
        }
    }

    /// The prelude's node of this kind, which cites nothing and has no traits: `smithy.api#String` for a string.
    pub fn prelude(kind: ShapeType) -> SchemaRef<'static>
        requires { is_simple kind ≡ true }
        ensures node { schema_of result ≡ record { table = []; node = prelude_node kind } }
        ensures place { index_of result ≡ None }
    {
        SchemaRef {
            spot: Spot::Prelude(kind),
        }
    }

    /// Its table, None for the prelude's node. Takes no memory.
    pub fn table(&self) -> Option<&'t Schemas>
        ensures { MatchOption result (index_of self.now ≡ None) (λ t. t.now ≡ (schema_of self.now).table) }
    {
        match self.spot {
            Spot::Table(place) => Some(place.table),
            Spot::Prelude(_) => None,
        }
    }

    /// The place in its table, None for the prelude's node.
    pub fn index(&self) -> Option<SchemaIndex>
        ensures place { place_of result ≡ index_of self.now }
        ensures node { IfSome result
            (λ i. at_place (schema_of self.now).table i.0 ≡ Some (schema_of self.now)) }
    {
        match self.spot {
            Spot::Table(place) => Some(place.index),
            Spot::Prelude(_) => None,
        }
    }

    /// The identifier: the parts of the full name.
    pub fn shape_id(&self) -> ShapeId<'t>
        ensures { parts_in (schema_of self.now).node.full_name ≡ Some (parts_of result) }
    {
        match self.spot {
            Spot::Table(place) => place.shape_id(),
            Spot::Prelude(shape_type) => prelude_id(shape_type),
        }
    }

    /// The full name of the identifier, which has a `#`. Takes no memory.
    pub fn full_name(&self) -> &'t str
        ensures name { result.now ≡ (schema_of self.now).node.full_name }
        ensures hash { has_hash result.now ≡ true }
    {
        match self.spot {
            Spot::Table(place) => place.stored().head().full_name.as_str(),
            Spot::Prelude(shape_type) => prelude_id(shape_type).as_str(),
        }
    }

    /// The kind.
    pub fn shape_type(&self) -> ShapeType
        ensures { result ≡ (schema_of self.now).node.kind }
    {
        match self.spot {
            Spot::Table(place) => place.stored().head().shape_type,
            Spot::Prelude(shape_type) => shape_type,
        }
    }

    /// What is known of the payload.
    pub fn payload_hint(&self) -> PayloadHint
        ensures { result ≡ (schema_of self.now).node.hint }
    {
        match self.details() {
            Some(details) => details.hint,
            None => PayloadHint::Unknown,
        }
    }

    /// The name of the member, None where the node is none.
    pub fn member_name(&self) -> Option<&'t str>
        ensures { option_map (λ t. t.now) result ≡ (schema_of self.now).node.member_name }
    {
        match &self.stored()?.head().membership {
            StoredMember::Shape => None,
            StoredMember::Named(name) => Some(name.as_str()),
            StoredMember::Indexed(name, _) => Some(name.as_str()),
        }
    }

    /// The position of the member among its structure's, None where it has none.
    pub fn member_index(&self) -> Option<usize>
        ensures { result ≡ (schema_of self.now).node.member_index }
    {
        match &self.stored()?.head().membership {
            StoredMember::Indexed(_, index) => Some(*index),
            _ => None,
        }
    }

    /// The name before the shape was renamed, where it was.
    pub fn original_name(&self) -> Option<&'t str>
        ensures { option_map (λ t. t.now) result ≡ (schema_of self.now).node.original_name }
    {
        as_str(&self.details()?.original_name)
    }

    /// The places of the members, in order. At each position stands a member with that index and a name.
    pub fn members(&self) -> &'t [SchemaIndex]
        ensures places { places_of result.now ≡ (schema_of self.now).node.members }
        ensures in_place { HasMembersInPlace (schema_of self.now) }
        ensures sound { IsSound (schema_of self.now).table }
    {
        match self.spot {
            Spot::Table(place) => place.members(),
            Spot::Prelude(_) => &[],
        }
    }

    /// The routing word: bit i, at most 61, is set where a response has the member at position i outside its body, bit 62
    /// where it has some member in its body, and bit 63 where it has one at position 62 or later outside. 0 without members.
    /// Takes no memory.
    pub fn response_routing(&self) -> u64
        ensures word { result ≡ routing (schema_of self.now) }
        ensures in_place { HasMembersInPlace (schema_of self.now) }
    {
        match self.spot {
            Spot::Table(place) => place.routing(),
            Spot::Prelude(_) => 0,
        }
    }

    /// The first position of a member with this name, if one has it. Logarithmic in the number of members; takes no memory.
    pub fn position_of(&self, name: &str) -> Option<usize>
        ensures { result ≡ position_of_name (schema_of self.now) name.now }
    {
        match self.spot {
            Spot::Table(place) => place.position_of(name),
            Spot::Prelude(_) => None,
        }
    }

    // The member that a name is looked for at first: the one behind this position in byte order of the names.
    pub(crate) fn follower(&self, before: Option<usize>) -> Option<SchemaRef<'t>>
        ensures { IfSome result (λ m. IsFirstOfName (schema_of self.now) (schema_of m)) }
    {
        match self.spot {
            Spot::Table(place) => place.follower(before),
            Spot::Prelude(_) => None,
        }
    }

    /// False exactly with the flag that no member stands in the body.
    pub fn has_body_members(&self) -> bool
        ensures { result ≡ not (schema_of self.now).node.has_no_body_members }
    {
        match self.details() {
            Some(details) => !details.no_body_members,
            None => true,
        }
    }
}

/// The identifier of the prelude's node of a kind, of the unit structure where the kind isn't simple.
pub(crate) fn prelude_id(kind: ShapeType) -> ShapeId<'static>
    ensures parts { Some (parts_of result) ≡ parts_in (prelude_name kind) }
    ensures name { (parts_of result).full_name ≡ prelude_name kind }
{
    match kind {
        ShapeType::Boolean => ShapeId::from_parts("smithy.api#Boolean", "smithy.api", "Boolean"),
        ShapeType::Byte => ShapeId::from_parts("smithy.api#Byte", "smithy.api", "Byte"),
        ShapeType::Short => ShapeId::from_parts("smithy.api#Short", "smithy.api", "Short"),
        ShapeType::Integer => ShapeId::from_parts("smithy.api#Integer", "smithy.api", "Integer"),
        ShapeType::Long => ShapeId::from_parts("smithy.api#Long", "smithy.api", "Long"),
        ShapeType::Float => ShapeId::from_parts("smithy.api#Float", "smithy.api", "Float"),
        ShapeType::Double => ShapeId::from_parts("smithy.api#Double", "smithy.api", "Double"),
        ShapeType::BigInteger => ShapeId::from_parts(
            "smithy.api#BigInteger",
            "smithy.api",
            "BigInteger",
        ),
        ShapeType::BigDecimal => ShapeId::from_parts(
            "smithy.api#BigDecimal",
            "smithy.api",
            "BigDecimal",
        ),
        ShapeType::String => ShapeId::from_parts("smithy.api#String", "smithy.api", "String"),
        ShapeType::Blob => ShapeId::from_parts("smithy.api#Blob", "smithy.api", "Blob"),
        ShapeType::Timestamp => ShapeId::from_parts(
            "smithy.api#Timestamp",
            "smithy.api",
            "Timestamp",
        ),
        ShapeType::Document => ShapeId::from_parts("smithy.api#Document", "smithy.api", "Document"),
        _ => ShapeId::from_parts("smithy.api#Unit", "smithy.api", "Unit"),
    }
}
