// The traits of a description, which borrow their texts.
use smithy_ids::{HttpTrait, TimestampFormat, XmlNamespaceTrait};

/// The traits that have a field of their own (Smithy, HTTP protocol bindings, serialization and protocol traits, XML bindings).
/// A trait that holds nothing is there where its field is true. The fields borrow their texts and take no memory.
#[derive(Clone, Debug, Drop)]
pub struct Traits<'a> {
    pub http: Option<HttpTrait<'a>>,
    pub http_header: Option<&'a str>,
    pub http_prefix_headers: Option<&'a str>,
    pub http_query: Option<&'a str>,
    pub http_query_params: bool,
    pub http_label: bool,
    pub http_payload: bool,
    pub http_response_code: bool,
    pub media_type: Option<&'a str>,
    pub timestamp_format: Option<TimestampFormat>,
    pub streaming: bool,
    pub json_name: Option<&'a str>,
    pub xml_name: Option<&'a str>,
    pub xml_namespace: Option<XmlNamespaceTrait<'a>>,
    pub xml_attribute: bool,
    pub xml_flattened: bool,
    /// The mark of an output that XML writes without an element of its own.
    pub xml_unwrapped_output: bool,
    pub sensitive: bool,
    pub host_label: bool,
    pub event_header: bool,
    pub event_payload: bool,
}

impl Traits<'_> {
    /// No traits.
    pub const NONE: Traits<'static> = Traits {
        http: None,
        http_header: None,
        http_prefix_headers: None,
        http_query: None,
        http_query_params: false,
        http_label: false,
        http_payload: false,
        http_response_code: false,
        media_type: None,
        timestamp_format: None,
        streaming: false,
        json_name: None,
        xml_name: None,
        xml_namespace: None,
        xml_attribute: false,
        xml_flattened: false,
        xml_unwrapped_output: false,
        sensitive: false,
        host_label: false,
        event_header: false,
        event_payload: false,
    };
}
