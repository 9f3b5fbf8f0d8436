// The nodes that a node cites, and what kind it is. A getter takes no memory.
ghost use Rattle.std.specs.Prelude.{◌≡◌, ◌↔◌, IsTrue, IfSome, option_map, slice_get};
ghost use Rattle.smithy_schema.specs.Nodes.{cited, element_of, key_of, value_of, element_or_value_of, holds_node, cites_nodes, has_name, member_at, member_named};
ghost use Rattle.smithy_schema.specs.views.Places.{place_of};
ghost use Rattle.smithy_schema.specs.views.References.{index_of, schema_of};

use crate::parts::{NO_PLACES, Places, SchemaIndex};
use crate::schema_ref::{SchemaRef, Spot};
use smithy_ids::ShapeType;

impl<'t> SchemaRef<'t> {
    // The node that stands at a place of this node's table.
    fn cited_at(&self, place: Option<SchemaIndex>) -> Option<SchemaRef<'t>>
        ensures node { option_map schema_of result ≡ cited (schema_of self.now) (place_of place) }
        ensures place { IfSome result (λ s. index_of s ≡ place_of place) }
    {
        let index = place?;
        match self.spot {
            Spot::Table(here) => SchemaRef::at(here.table, index),
            Spot::Prelude(_) => None,
        }
    }

    fn places(&self) -> Places
        ensures target { place_of result.target ≡ (schema_of self.now).node.target }
        ensures element { place_of result.element ≡ (schema_of self.now).node.element }
        ensures key { place_of result.key ≡ (schema_of self.now).node.key }
        ensures value { place_of result.value ≡ (schema_of self.now).node.value }
    {
        match self.details() {
            Some(details) => details.places,
            None => NO_PLACES,
        }
    }

    /// The shape that a member is of, where it was given.
    pub fn target(&self) -> Option<SchemaRef<'t>>
        ensures { option_map schema_of result ≡ cited (schema_of self.now) (schema_of self.now).node.target }
    {
        self.cited_at(self.places().target)
    }

    /// The keys of a map.
    pub fn key(&self) -> Option<SchemaRef<'t>>
        ensures { option_map schema_of result ≡ key_of (schema_of self.now) }
    {
        self.cited_at(self.places().key)
    }

    /// The keys of a map, as `key` gives them.
    pub fn key_borrowed(&self) -> Option<SchemaRef<'t>>
        ensures { option_map schema_of result ≡ key_of (schema_of self.now) }
    {
        self.key()
    }

    /// The elements of a list.
    pub fn element(&self) -> Option<SchemaRef<'t>>
        ensures { option_map schema_of result ≡ element_of (schema_of self.now) }
    {
        self.cited_at(self.places().element)
    }

    /// The values of a map.
    pub fn value(&self) -> Option<SchemaRef<'t>>
        ensures { option_map schema_of result ≡ value_of (schema_of self.now) }
    {
        self.cited_at(self.places().value)
    }

    // Whether the place, if there is one, has a node.
    fn holds_node(&self, place: Option<SchemaIndex>) -> bool
        ensures { result ≡ holds_node (schema_of self.now) (place_of place) }
    {
        match place {
            Some(_) => self.cited_at(place).is_some(),
            None => true,
        }
    }

    /// Whether the elements, keys, values and target, as far as they were given, have a node by now.
    pub fn has_cited_nodes(&self) -> bool
        ensures { result ≡ cites_nodes (schema_of self.now) }
    {
        let places = self.places();
        self.holds_node(places.element)
            && self.holds_node(places.key)
            && self.holds_node(places.value)
            && self.holds_node(places.target)
    }

    /// The elements of a list, or the values of a map.
    pub fn member(&self) -> Option<SchemaRef<'t>>
        ensures { option_map schema_of result ≡ element_or_value_of (schema_of self.now) }
    {
        let places = self.places();
        match places.element {
            Some(_) => self.cited_at(places.element),
            None => self.cited_at(places.value),
        }
    }

    /// The elements of a list, or the values of a map, as `member` gives them.
    pub fn member_borrowed(&self) -> Option<SchemaRef<'t>>
        ensures { option_map schema_of result ≡ element_or_value_of (schema_of self.now) }
    {
        self.member()
    }

    /// The member at a position.
    pub fn member_schema_by_index(&self, index: usize) -> Option<SchemaRef<'t>>
        ensures node { option_map schema_of result ≡ member_at (schema_of self.now) index }
        ensures place { IfSome result
            (λ m. index_of m ≡ slice_get (schema_of self.now).node.members index) }
    {
        let place = self.members().get(index)?;
        self.cited_at(Some(*place))
    }

    /// The first member with this name, in the time of a look-up in a map.
    pub fn member_schema(&self, name: &str) -> Option<SchemaRef<'t>>
        ensures { option_map schema_of result ≡ member_named (schema_of self.now) name.now }
    {
        let position = self.position_of(name)?;
        self.member_schema_by_index(position)
    }

    // Whether the name is the member's.
    fn is_named(&self, name: &str) -> bool
        ensures { result ≡ has_name name.now (schema_of self.now) }
    {
        match self.member_name() {
            Some(own) => name == own,
            None => false,
        }
    }

    /// The first member with this name. It is looked for first behind the member at the position `before` in byte order of
    /// the names (at the first name where that is none), in a time that doesn't grow with the number of members, and else in
    /// that of a look-up in a map. Takes no memory.
    pub fn member_schema_behind(&self, before: Option<usize>, name: &str) -> Option<SchemaRef<'t>>
        ensures { option_map schema_of result ≡ member_named (schema_of self.now) name.now }
    {
        if let Some(member) = self.follower(before) {
            if member.is_named(name) {
                return Some(member);
            }
        }
        self.member_schema(name)
    }

    /// Whether the kind is that of a member.
    pub fn is_member(&self) -> bool
        ensures { IsTrue result ↔ ((schema_of self.now).node.kind ≡ ShapeType.Member) }
    {
        matches!(self.shape_type(), ShapeType::Member)
    }

    /// Whether the kind is that of a structure.
    pub fn is_structure(&self) -> bool
        ensures { IsTrue result ↔ ((schema_of self.now).node.kind ≡ ShapeType.Structure) }
    {
        matches!(self.shape_type(), ShapeType::Structure)
    }

    /// Whether the kind is that of a union.
    pub fn is_union(&self) -> bool
        ensures { IsTrue result ↔ ((schema_of self.now).node.kind ≡ ShapeType.Union) }
    {
        matches!(self.shape_type(), ShapeType::Union)
    }

    /// Whether the kind is that of a list.
    pub fn is_list(&self) -> bool
        ensures { IsTrue result ↔ ((schema_of self.now).node.kind ≡ ShapeType.List) }
    {
        matches!(self.shape_type(), ShapeType::List)
    }

    /// Whether the kind is that of a map.
    pub fn is_map(&self) -> bool
        ensures { IsTrue result ↔ ((schema_of self.now).node.kind ≡ ShapeType.Map) }
    {
        matches!(self.shape_type(), ShapeType::Map)
    }

    /// Whether the kind is that of a blob.
    pub fn is_blob(&self) -> bool
        ensures { IsTrue result ↔ ((schema_of self.now).node.kind ≡ ShapeType.Blob) }
    {
        matches!(self.shape_type(), ShapeType::Blob)
    }

    /// Whether the kind is that of a string.
    pub fn is_string(&self) -> bool
        ensures { IsTrue result ↔ ((schema_of self.now).node.kind ≡ ShapeType.String) }
    {
        matches!(self.shape_type(), ShapeType::String)
    }
}
