// The traits of a node, told one behind another.
use crate::telling::Told;
use smithy_schema::{Binding, SchemaRef};
use test_rows::Failed;

/// Tells a word where it is so.
fn tell_if(told: &mut Told, word: &str, holds: bool) -> Result<(), Failed> {
    if holds { told.tell(word) } else { Ok(()) }
}

/// Tells each trait that holds nothing.
pub fn tell_marks(told: &mut Told, node: SchemaRef<'_>) -> Result<(), Failed> {
    tell_if(told, "sensitive", node.sensitive().is_some())?;
    tell_if(told, "xml_attribute", node.xml_attribute())?;
    tell_if(told, "xml_flattened", node.xml_flattened())?;
    tell_if(told, "xml_unwrapped_output", node.xml_unwrapped_output())?;
    tell_if(told, "http_label", node.http_label().is_some())?;
    tell_if(told, "http_payload", node.http_payload().is_some())?;
    tell_if(
        told,
        "http_query_params",
        node.http_query_params().is_some(),
    )?;
    tell_if(
        told,
        "http_response_code",
        node.http_response_code().is_some(),
    )
}

/// Tells each further trait that holds nothing, and what follows from the traits.
pub fn tell_further_marks(told: &mut Told, node: SchemaRef<'_>) -> Result<(), Failed> {
    tell_if(told, "streaming", node.streaming())?;
    tell_if(told, "event_header", node.event_header().is_some())?;
    tell_if(told, "event_payload", node.event_payload().is_some())?;
    tell_if(told, "host_label", node.host_label().is_some())?;
    tell_if(told, "response binding", node.has_http_response_binding())?;
    tell_if(told, "no body members", !node.has_body_members())
}

/// Tells which of these kinds it is.
pub fn tell_kind(told: &mut Told, node: SchemaRef<'_>) -> Result<(), Failed> {
    tell_if(told, "is_member", node.is_member())?;
    tell_if(told, "is_structure", node.is_structure())?;
    tell_if(told, "is_union", node.is_union())?;
    tell_if(told, "is_list", node.is_list())?;
    tell_if(told, "is_map", node.is_map())?;
    tell_if(told, "is_blob", node.is_blob())?;
    tell_if(told, "is_string", node.is_string())
}

/// Tells each trait that holds a text.
pub fn tell_texts(told: &mut Told, node: SchemaRef<'_>) -> Result<(), Failed> {
    if let Some(name) = node.json_name() {
        told.tell_text("json_name", name.value())?;
    }
    if let Some(name) = node.xml_name() {
        told.tell_text("xml_name", name.value())?;
    }
    if let Some(name) = node.http_header() {
        told.tell_text("http_header", name.value())?;
    }
    if let Some(prefix) = node.http_prefix_headers() {
        told.tell_text("http_prefix_headers", prefix.value())?;
    }
    if let Some(name) = node.http_query() {
        told.tell_text("http_query", name.value())?;
    }
    if let Some(media) = node.media_type() {
        told.tell_text("media_type", media.value())?;
    }
    Ok(())
}

/// Tells where the member stands in a request.
pub fn tell_binding(told: &mut Told, node: SchemaRef<'_>) -> Result<(), Failed> {
    match node.request_binding() {
        Binding::Header(name) => told.tell_text("in header", name),
        Binding::Prefix(prefix) => told.tell_text("in headers", prefix),
        Binding::Query(name) => told.tell_text("in query", name),
        Binding::QueryMap => told.tell("in query map"),
        Binding::Label => told.tell("in label"),
        Binding::Payload => told.tell("in payload"),
        Binding::Body => told.tell("in body"),
    }
}
