// The description of a node, from which a table makes one.
use crate::parts::{NO_PLACES, Places, SchemaIndex};
use crate::trait_map::TraitMap;
use crate::traits::Traits;
use smithy_ids::{HttpTrait, PayloadHint, ShapeId, ShapeType, TimestampFormat, XmlNamespaceTrait};
use std::marker::Model;

// Whether a node is a member: by name, or by name and index.
#[derive(Clone, Copy, Debug)]
pub(crate) enum Membership<'a> {
    Shape,
    Named(&'a str),
    Indexed(&'a str, usize),
}

/// A description of a node: identifier, kind, what it cites, and traits. It borrows its texts and takes no memory.
/// A map of further traits is its own.
/// Members and other cited nodes are given by their places in the table.
#[derive(Drop)]
pub struct Schema<'a> {
    pub(crate) id: ShapeId<'a>,
    pub(crate) shape_type: ShapeType,
    pub(crate) membership: Membership<'a>,
    pub(crate) original_name: Option<&'a str>,
    pub(crate) places: Places,
    pub(crate) members: &'a [SchemaIndex],
    pub(crate) traits: Traits<'a>,
    pub(crate) others: Option<TraitMap>,
    pub(crate) no_body_members: bool,
    pub(crate) hint: PayloadHint,
}

impl<'a> Model for Schema<'a> {
    ghost use Rattle.smithy_types.specs.DocumentCode.{coded_document};
    ghost use Rattle.std.specs.Coded.{codes};
    ghost use Rattle.smithy_schema.specs.Nodes.{Node};

    ghost Value = { Node };

    ghost coded = { Prim.hlevel (codes, coded_document) };

    ghost use Rattle.smithy_schema.specs.views.Described.{node_described};

    ghost view = { node_described };
}

impl<'a> Schema<'a> {
    ghost use Rattle.std.specs.Prelude.{◌≡◌, true, Some};
    ghost use Rattle.smithy_schema.specs.views.Described.{bare_by, member_by, with_list, with_map};
    ghost use Rattle.smithy_schema.specs.Nodes.{Node};
    ghost use Rattle.smithy_schema.specs.views.DescribedTraits.{traits_described, with_plain, with_namespace, with_prefix_headers, with_time_format};
    ghost use Rattle.smithy_schema.specs.views.Places.{places_of};

    /// A node of this kind that cites nothing.
    pub const fn new(id: ShapeId<'a>, shape_type: ShapeType) -> Self
        ensures { result ≡ bare_by id.entry shape_type }
    {
        Schema {
            id,
            shape_type,
            membership: Membership::Shape,
            original_name: None,
            places: NO_PLACES,
            members: &[],
            traits: Traits::NONE,
            others: None,
            no_body_members: false,
            hint: PayloadHint::Unknown,
        }
    }

    /// A structure or a union with these members, in the order of their indexes.
    pub const fn new_struct(
        id: ShapeId<'a>,
        shape_type: ShapeType,
        members: &'a [SchemaIndex],
    ) -> Self
        ensures { result ≡ record (bare_by id.entry shape_type) { members = places_of members.now } }
    {
        let mut schema = Schema::new(id, shape_type);
        schema.members = members;
        schema
    }

    /// A list of these elements.
    pub const fn new_list(id: ShapeId<'a>, member: SchemaIndex) -> Self
        ensures { result ≡ record (bare_by id.entry ShapeType.List) { element = Some member.0 } }
    {
        let mut schema = Schema::new(id, ShapeType::List);
        schema.places = Places {
            element: Some(member),
            ..NO_PLACES
        };
        schema
    }

    /// A map from these keys to these values.
    pub const fn new_map(id: ShapeId<'a>, key: SchemaIndex, value: SchemaIndex) -> Self
        ensures { result
            ≡ record (bare_by id.entry ShapeType.Map) { key = Some key.0; value = Some value.0 } }
    {
        let mut schema = Schema::new(id, ShapeType::Map);
        schema.places = Places {
            key: Some(key),
            value: Some(value),
            ..NO_PLACES
        };
        schema
    }

    /// A member of a structure: its name, and its position among the structure's members.
    pub const fn new_member(
        id: ShapeId<'a>,
        shape_type: ShapeType,
        member_name: &'a str,
        member_index: usize,
    ) -> Self
        ensures { result ≡ member_by id.entry shape_type member_name.now member_index }
    {
        let mut schema = Schema::new(id, shape_type);
        schema.membership = Membership::Indexed(member_name, member_index);
        schema
    }

    /// A member with a name and no index.
    pub const fn new_unindexed(id: ShapeId<'a>, shape_type: ShapeType, member_name: &'a str) -> Self
        ensures { result ≡ record (bare_by id.entry shape_type) { member_name = Some member_name.now } }
    {
        let mut schema = Schema::new(id, shape_type);
        schema.membership = Membership::Named(member_name);
        schema
    }

    /// The same with a shape's name before it was renamed.
    pub fn with_original_name(mut self, name: &'a str) -> Self
        ensures { result ≡ record self.entry { original_name = Some name.now } }
    {
        self.original_name = Some(name);
        self
    }

    /// The same with keys and values in the place of members, element, key and value.
    pub fn with_map_members(mut self, key: SchemaIndex, value: SchemaIndex) -> Self
        ensures { result ≡ with_map key.0 value.0 self.entry }
    {
        self.members = &[];
        self.places = Places {
            target: self.places.target,
            element: None,
            key: Some(key),
            value: Some(value),
        };
        self
    }

    /// The same with elements in the place of members, element, key and value.
    pub fn with_list_member(mut self, member: SchemaIndex) -> Self
        ensures { result ≡ with_list member.0 self.entry }
    {
        self.members = &[];
        self.places = Places {
            target: self.places.target,
            element: Some(member),
            key: None,
            value: None,
        };
        self
    }

    /// The same with a target: the shape that a member is of.
    pub fn with_target(mut self, target: SchemaIndex) -> Self
        ensures { result ≡ record self.entry { target = Some target.0 } }
    {
        self.places = Places {
            target: Some(target),
            ..self.places
        };
        self
    }

    /// The same with these traits in the place of all that have a field of their own. Further traits stay.
    pub fn with_plain_traits(mut self, traits: Traits<'a>) -> Self
        ensures { result ≡ with_plain (traits_described traits.entry) self.entry }
    {
        self.traits = traits;
        self
    }

    /// The same with further traits, by their names, in the place of those that it had.
    pub fn with_traits(mut self, traits: TraitMap) -> Self
        ensures { result ≡ record self.entry { traits = record self.entry.traits { others = Some traits } } }
    {
        self.others = Some(traits);
        self
    }

    /// The same with a format of timestamps (Smithy, timestampFormat trait).
    pub fn with_timestamp_format(mut self, format: TimestampFormat) -> Self
        ensures { result ≡ with_time_format format self.entry }
    {
        self.traits = Traits {
            timestamp_format: Some(format),
            ..self.traits
        };
        self
    }

    /// The same with what is known of the payload.
    pub fn with_payload_hint(mut self, hint: PayloadHint) -> Self
        ensures { result ≡ record self.entry { hint = hint } }
    {
        self.hint = hint;
        self
    }

    /// The same with method, URI template and status (Smithy, HTTP protocol bindings, http trait).
    pub fn with_http(mut self, http: HttpTrait<'a>) -> Self
        ensures { result
            ≡ record self.entry { traits = record self.entry.traits { http = Some http.entry } } }
    {
        self.traits = Traits {
            http: Some(http),
            ..self.traits
        };
        self
    }

    /// The same with a namespace in XML (Smithy, XML bindings, xmlNamespace trait).
    pub fn with_xml_namespace(mut self, uri: &'a str, prefix: Option<&'a str>) -> Self
        ensures { result ≡ with_namespace uri.now prefix.entry self.entry }
    {
        self.traits = Traits {
            xml_namespace: Some(XmlNamespaceTrait::new(uri, prefix)),
            ..self.traits
        };
        self
    }

    /// The same with the flag that no member stands in the body.
    pub fn with_no_body_members(mut self) -> Self
        ensures { result ≡ record self.entry { has_no_body_members = true } }
    {
        self.no_body_members = true;
        self
    }

    /// The same with the trait `jsonName`.
    pub fn with_json_name(mut self, value: &'a str) -> Self
        ensures { result
            ≡ record self.entry { traits = record self.entry.traits { json_name = Some value.now } } }
    {
        self.traits = Traits {
            json_name: Some(value),
            ..self.traits
        };
        self
    }

    /// The same with the trait `xmlName`.
    pub fn with_xml_name(mut self, value: &'a str) -> Self
        ensures { result
            ≡ record self.entry { traits = record self.entry.traits { xml_name = Some value.now } } }
    {
        self.traits = Traits {
            xml_name: Some(value),
            ..self.traits
        };
        self
    }

    /// The same with the trait `httpHeader`.
    pub fn with_http_header(mut self, value: &'a str) -> Self
        ensures { result
            ≡ record self.entry { traits = record self.entry.traits { http_header = Some value.now } } }
    {
        self.traits = Traits {
            http_header: Some(value),
            ..self.traits
        };
        self
    }

    /// The same with the trait `httpPrefixHeaders`.
    pub fn with_http_prefix_headers(mut self, value: &'a str) -> Self
        ensures { result ≡ with_prefix_headers value.now self.entry }
    {
        self.traits = Traits {
            http_prefix_headers: Some(value),
            ..self.traits
        };
        self
    }

    /// The same with the trait `httpQuery`.
    pub fn with_http_query(mut self, value: &'a str) -> Self
        ensures { result
            ≡ record self.entry { traits = record self.entry.traits { http_query = Some value.now } } }
    {
        self.traits = Traits {
            http_query: Some(value),
            ..self.traits
        };
        self
    }

    /// The same with the trait `mediaType`.
    pub fn with_media_type(mut self, value: &'a str) -> Self
        ensures { result
            ≡ record self.entry { traits = record self.entry.traits { media_type = Some value.now } } }
    {
        self.traits = Traits {
            media_type: Some(value),
            ..self.traits
        };
        self
    }

    /// The same with the trait `sensitive`.
    pub fn with_sensitive(mut self) -> Self
        ensures { result ≡ record self.entry { traits = record self.entry.traits { sensitive = true } } }
    {
        self.traits.sensitive = true;
        self
    }

    /// The same with the trait `xmlAttribute`.
    pub fn with_xml_attribute(mut self) -> Self
        ensures { result ≡ record self.entry { traits = record self.entry.traits { xml_attribute = true } } }
    {
        self.traits.xml_attribute = true;
        self
    }

    /// The same with the trait `xmlFlattened`.
    pub fn with_xml_flattened(mut self) -> Self
        ensures { result ≡ record self.entry { traits = record self.entry.traits { xml_flattened = true } } }
    {
        self.traits.xml_flattened = true;
        self
    }

    /// The same with the mark of an output that XML writes without an element of its own.
    pub fn with_xml_unwrapped_output(mut self) -> Self
        ensures { result
            ≡ record self.entry { traits = record self.entry.traits { xml_unwrapped_output = true } } }
    {
        self.traits.xml_unwrapped_output = true;
        self
    }

    /// The same with the trait `httpLabel`.
    pub fn with_http_label(mut self) -> Self
        ensures { result ≡ record self.entry { traits = record self.entry.traits { http_label = true } } }
    {
        self.traits.http_label = true;
        self
    }

    /// The same with the trait `httpPayload`.
    pub fn with_http_payload(mut self) -> Self
        ensures { result ≡ record self.entry { traits = record self.entry.traits { http_payload = true } } }
    {
        self.traits.http_payload = true;
        self
    }

    /// The same with the trait `httpQueryParams`.
    pub fn with_http_query_params(mut self) -> Self
        ensures { result
            ≡ record self.entry { traits = record self.entry.traits { http_query_params = true } } }
    {
        self.traits.http_query_params = true;
        self
    }

    /// The same with the trait `httpResponseCode`.
    pub fn with_http_response_code(mut self) -> Self
        ensures { result
            ≡ record self.entry { traits = record self.entry.traits { http_response_code = true } } }
    {
        self.traits.http_response_code = true;
        self
    }

    /// The same with the trait `streaming`.
    pub fn with_streaming(mut self) -> Self
        ensures { result ≡ record self.entry { traits = record self.entry.traits { streaming = true } } }
    {
        self.traits.streaming = true;
        self
    }

    /// The same with the trait `eventHeader`.
    pub fn with_event_header(mut self) -> Self
        ensures { result ≡ record self.entry { traits = record self.entry.traits { event_header = true } } }
    {
        self.traits.event_header = true;
        self
    }

    /// The same with the trait `eventPayload`.
    pub fn with_event_payload(mut self) -> Self
        ensures { result ≡ record self.entry { traits = record self.entry.traits { event_payload = true } } }
    {
        self.traits.event_payload = true;
        self
    }

    /// The same with the trait `hostLabel`.
    pub fn with_host_label(mut self) -> Self
        ensures { result ≡ record self.entry { traits = record self.entry.traits { host_label = true } } }
    {
        self.traits.host_label = true;
        self
    }
}
