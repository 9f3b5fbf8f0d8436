// Identifiers and kinds of shapes, and the traits that a schema carries.
#![tactic(auto)]

pub mod laws;
mod marker_traits;
mod payload_hint;
mod shape_id;
mod shape_type;
mod text_traits;
mod traits;

pub use marker_traits::{
    EventHeaderTrait, EventPayloadTrait, HostLabelTrait, HttpLabelTrait, HttpPayloadTrait,
    HttpQueryParamsTrait, HttpResponseCodeTrait, SensitiveTrait, StreamingTrait, XmlAttributeTrait,
    XmlFlattenedTrait,
};
pub use payload_hint::PayloadHint;
pub use shape_id::ShapeId;
pub use shape_type::ShapeType;
pub use text_traits::{
    HttpHeader, HttpHeaderTrait, HttpPrefixHeaders, HttpPrefixHeadersTrait, HttpQuery,
    HttpQueryTrait, JsonName, JsonNameTrait, MediaType, MediaTypeTrait, TextTrait, TextTraitName,
    XmlName, XmlNameTrait,
};
pub use traits::{HttpTrait, TimestampFormat, TimestampFormatTrait, XmlNamespaceTrait};
