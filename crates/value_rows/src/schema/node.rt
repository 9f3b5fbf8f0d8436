// Nodes, told part by part.
use crate::schema::marks::{tell_binding, tell_further_marks, tell_kind, tell_marks, tell_texts};
use crate::schema::trait_map::tell_trait;
use crate::telling::Told;
use smithy_ids::PayloadHint;
use smithy_schema::{SchemaRef, laws};
use test_rows::Failed;

/// Tells all that is known of a node: its names and kind, its traits, and where it stands in a request.
pub fn tell_node(told: &mut Told, node: SchemaRef<'_>) -> Result<(), Failed> {
    tell_names(told, node)?;
    tell_kind(told, node)?;
    tell_texts(told, node)?;
    tell_parts(told, node)?;
    tell_marks(told, node)?;
    tell_further_marks(told, node)?;
    tell_binding(told, node)?;
    laws::schema_is_well_made(node);
    Ok(())
}

fn tell_names(told: &mut Told, node: SchemaRef<'_>) -> Result<(), Failed> {
    told.tell(node.shape_id().as_str())?;
    told.tell_flag("same name", node.full_name() == node.shape_id().as_str())?;
    told.tell(format!(in told.alloc(); "{:?}", node.shape_type())?.as_str())?;
    match node.index() {
        Some(index) => told.tell_count("at", index.0)?,
        None => told.tell_flag("in a table", node.table().is_some())?,
    }
    if let Some(name) = node.member_name() {
        told.tell_text("member", name)?;
    }
    if let Some(index) = node.member_index() {
        told.tell_count("index", index)?;
    }
    if let Some(name) = node.original_name() {
        told.tell_text("original", name)?;
    }
    Ok(())
}

// Tells the traits of several parts.
fn tell_parts(told: &mut Told, node: SchemaRef<'_>) -> Result<(), Failed> {
    if let Some(format) = node.timestamp_format() {
        told.tell(format!(in told.alloc(); "{:?}", format.format())?.as_str())?;
    }
    if node.payload_hint() != PayloadHint::Unknown {
        told.tell(format!(in told.alloc(); "{:?}", node.payload_hint())?.as_str())?;
    }
    if let Some(http) = node.http() {
        told.tell_text(http.method(), http.uri())?;
        told.tell(format!(in told.alloc(); "{}", http.code())?.as_str())?;
    }
    if let Some(namespace) = node.xml_namespace() {
        told.tell_text("uri", namespace.uri())?;
        told.tell_option(namespace.prefix())?;
    }
    match node.traits() {
        Some(traits) => tell_trait(told, traits, "ex#owner"),
        None => Ok(()),
    }
}

/// Tells the place and the name of a node that another one cites.
pub fn tell_cited(told: &mut Told, word: &str, node: Option<SchemaRef<'_>>) -> Result<(), Failed> {
    let Some(node) = node else {
        return told.tell_text("no", word);
    };
    match node.index() {
        Some(index) => told.tell_count(word, index.0),
        None => told.tell_text(word, node.full_name()),
    }
}

/// Tells the nodes that a node cites.
pub fn tell_cited_nodes(told: &mut Told, node: SchemaRef<'_>) -> Result<(), Failed> {
    tell_cited(told, "target", node.target())?;
    tell_cited(told, "element", node.element())?;
    tell_cited(told, "key", node.key())?;
    tell_cited(told, "value", node.value())?;
    tell_cited(told, "member", node.member())?;
    tell_cited(told, "key", node.key_borrowed())?;
    tell_cited(told, "member", node.member_borrowed())?;
    told.tell_flag("all there", node.has_cited_nodes())?;
    told.tell_count("members", node.members().len())
}
