// Traits that hold nothing.
use crate::shape_id::ShapeId;

/// A member that is an attribute in XML (Smithy, XML bindings, xmlAttribute trait).
#[derive(Clone, Debug, Drop)]
pub struct XmlAttributeTrait;

impl XmlAttributeTrait {
    /// The identifier of the trait.
    pub const TRAIT_ID: ShapeId<'static> = ShapeId {
        full_name: "smithy.api#xmlAttribute",
        namespace: "smithy.api",
        shape_name: "xmlAttribute",
        member_name: None,
    };
}

/// A list or a map whose items stand without an element round them in XML (Smithy, XML bindings, xmlFlattened trait).
#[derive(Clone, Debug, Drop)]
pub struct XmlFlattenedTrait;

impl XmlFlattenedTrait {
    /// The identifier of the trait.
    pub const TRAIT_ID: ShapeId<'static> = ShapeId {
        full_name: "smithy.api#xmlFlattened",
        namespace: "smithy.api",
        shape_name: "xmlFlattened",
        member_name: None,
    };
}

/// A member that fills a hole of the URI template (Smithy, HTTP protocol bindings, httpLabel trait).
#[derive(Clone, Debug, Drop)]
pub struct HttpLabelTrait;

impl HttpLabelTrait {
    /// The identifier of the trait.
    pub const TRAIT_ID: ShapeId<'static> = ShapeId {
        full_name: "smithy.api#httpLabel",
        namespace: "smithy.api",
        shape_name: "httpLabel",
        member_name: None,
    };
}

/// A member that is the whole body (Smithy, HTTP protocol bindings, httpPayload trait).
#[derive(Clone, Debug, Drop)]
pub struct HttpPayloadTrait;

impl HttpPayloadTrait {
    /// The identifier of the trait.
    pub const TRAIT_ID: ShapeId<'static> = ShapeId {
        full_name: "smithy.api#httpPayload",
        namespace: "smithy.api",
        shape_name: "httpPayload",
        member_name: None,
    };
}

/// A map that is bound to the query parameters (Smithy, HTTP protocol bindings, httpQueryParams trait).
#[derive(Clone, Debug, Drop)]
pub struct HttpQueryParamsTrait;

impl HttpQueryParamsTrait {
    /// The identifier of the trait.
    pub const TRAIT_ID: ShapeId<'static> = ShapeId {
        full_name: "smithy.api#httpQueryParams",
        namespace: "smithy.api",
        shape_name: "httpQueryParams",
        member_name: None,
    };
}

/// A member that is the status of the response (Smithy, HTTP protocol bindings, httpResponseCode trait).
#[derive(Clone, Debug, Drop)]
pub struct HttpResponseCodeTrait;

impl HttpResponseCodeTrait {
    /// The identifier of the trait.
    pub const TRAIT_ID: ShapeId<'static> = ShapeId {
        full_name: "smithy.api#httpResponseCode",
        namespace: "smithy.api",
        shape_name: "httpResponseCode",
        member_name: None,
    };
}

/// A blob or a union whose content is streamed (Smithy, streaming trait).
#[derive(Clone, Debug, Drop)]
pub struct StreamingTrait;

impl StreamingTrait {
    /// The identifier of the trait.
    pub const TRAIT_ID: ShapeId<'static> = ShapeId {
        full_name: "smithy.api#streaming",
        namespace: "smithy.api",
        shape_name: "streaming",
        member_name: None,
    };
}

/// A member that is a header of an event (Smithy, event streams, eventHeader trait).
#[derive(Clone, Debug, Drop)]
pub struct EventHeaderTrait;

impl EventHeaderTrait {
    /// The identifier of the trait.
    pub const TRAIT_ID: ShapeId<'static> = ShapeId {
        full_name: "smithy.api#eventHeader",
        namespace: "smithy.api",
        shape_name: "eventHeader",
        member_name: None,
    };
}

/// A member that is the payload of an event (Smithy, event streams, eventPayload trait).
#[derive(Clone, Debug, Drop)]
pub struct EventPayloadTrait;

impl EventPayloadTrait {
    /// The identifier of the trait.
    pub const TRAIT_ID: ShapeId<'static> = ShapeId {
        full_name: "smithy.api#eventPayload",
        namespace: "smithy.api",
        shape_name: "eventPayload",
        member_name: None,
    };
}

/// Data that is not to be shown (Smithy, sensitive trait).
#[derive(Clone, Debug, Drop)]
pub struct SensitiveTrait;

impl SensitiveTrait {
    /// The identifier of the trait.
    pub const TRAIT_ID: ShapeId<'static> = ShapeId {
        full_name: "smithy.api#sensitive",
        namespace: "smithy.api",
        shape_name: "sensitive",
        member_name: None,
    };
}

/// A member that fills a hole of the endpoint's host (Smithy, endpoint traits, hostLabel trait).
#[derive(Clone, Debug, Drop)]
pub struct HostLabelTrait;

impl HostLabelTrait {
    /// The identifier of the trait.
    pub const TRAIT_ID: ShapeId<'static> = ShapeId {
        full_name: "smithy.api#hostLabel",
        namespace: "smithy.api",
        shape_name: "hostLabel",
        member_name: None,
    };
}
