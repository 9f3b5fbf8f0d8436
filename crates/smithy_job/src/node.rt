// The nodes of values: those of a model, and those of names that are no member's.
ghost use Rattle.std.specs.Prelude.{◌≡◌, ◌++◌, ◌∷◌, [], Some, option_and_then, OnOk};
ghost use Rattle.smithy_schema.specs.Nodes.{element_of, key_of, value_of};
ghost use Rattle.smithy_job.specs.views.ReadingView.{node_of, KeepsNodes, GivesIndex};
ghost use Rattle.smithy_job.specs.views.Tables.{HasLabel, MayStandIn, nodes_with, further_node};
ghost use Rattle.smithy_job.specs.Values.{kind_of, is_document_kind, is_structure_kind, natural_label, further_label};
ghost use Rattle.smithy_job.specs.Values.{label_at, member_at, member_label};

use smithy_ids::{ShapeId, ShapeType};
use smithy_model::Floats;
use smithy_schema::{Schema, SchemaIndex, SchemaRef, Schemas};
use smithy_types::OutOfMemory;

/// The nodes of a model, and the index of the node of natural values among them.
#[derive(Clone, Copy)]
pub struct ModelNodes<'t> {
    pub table: &'t Schemas,
    pub natural: SchemaIndex,
    /// Names that are no member's and have their nodes behind those of the table.
    pub earlier: &'t [&'t str],
    /// How the floats of the model were read, and numbers are where a decimal stands.
    pub floats: Floats,
}

/// The kind of a node.
pub fn kind_of(here: Option<SchemaRef<'_>>) -> Option<ShapeType>
    ensures { result ≡ kind_of (node_of here.entry) }
{
    match here {
        Some(node) => Some(node.shape_type()),
        None => None,
    }
}

/// Whether a value is a document.
pub fn is_document(kind: Option<ShapeType>) -> bool
    ensures { result ≡ is_document_kind kind }
{
    matches!(kind, Some(ShapeType::Document))
}

/// Whether an object is a structure, and no map.
pub fn is_structure(kind: Option<ShapeType>) -> bool
    ensures { result ≡ is_structure_kind kind }
{
    matches!(kind, Some(ShapeType::Structure | ShapeType::Union))
}

/// The node of a list's elements.
pub fn element_of(here: Option<SchemaRef<'_>>) -> Option<SchemaRef<'_>>
    ensures { node_of result ≡ option_and_then element_of (node_of here.entry) }
{
    here?.element()
}

/// The node of a map's keys.
pub fn key_of(here: Option<SchemaRef<'_>>) -> Option<SchemaRef<'_>>
    ensures { node_of result ≡ option_and_then key_of (node_of here.entry) }
{
    here?.key()
}

/// The node of a map's values.
pub fn value_of(here: Option<SchemaRef<'_>>) -> Option<SchemaRef<'_>>
    ensures { node_of result ≡ option_and_then value_of (node_of here.entry) }
{
    here?.value()
}

/// The member of this name, of the structure that the node is of. It is looked for first behind another member, by byte order of
/// the names, where there is one before it.
pub fn member_at<'t>(
    here: Option<SchemaRef<'t>>,
    before: Option<SchemaRef<'_>>,
    name: &str,
) -> Option<SchemaRef<'t>>
    ensures { node_of result ≡ member_at (node_of here.entry) name.now }
{
    let node = here?;
    let position = position_of(before);
    match node.target() {
        Some(shape) => shape.member_schema_behind(position, name),
        None => node.member_schema_behind(position, name),
    }
}

// The position of a member.
fn position_of(member: Option<SchemaRef<'_>>) -> Option<usize>
    ensures { result ≡ option_and_then (λ s. s.node.member_index) (node_of member.entry) }
{
    member?.member_index()
}

/// The index of a node, and that of natural values at none.
pub fn index_of(model: ModelNodes<'_>, here: Option<SchemaRef<'_>>) -> SchemaIndex
    requires natural { HasLabel model.table.now model.natural.0 natural_label }
    requires here { MayStandIn model.table.now (node_of here) }
    ensures { HasLabel model.entry.table.now result.0 (label_at (node_of here.entry)) }
{
    match here {
        Some(node) => match node.index() {
            Some(index) => index,
            None => unreachable!(),
        },
        None => model.natural,
    }
}

// The index of a node for a name that is no member's, behind those of the model and of earlier such names.
fn further_index<'v>(
    model: ModelNodes<'_>,
    names: &mut Vec<&'v str>,
    name: &'v str,
) -> Result<SchemaIndex, OutOfMemory>
    ensures kept { KeepsNodes model.entry names.old names.new result }
    ensures index { GivesIndex model.entry names.new (further_label name.now) result }
{
    let Some(before) = model.table.len().checked_add(model.earlier.len()) else {
        return Err(OutOfMemory);
    };
    let Some(index) = before.checked_add(names.len()) else {
        return Err(OutOfMemory);
    };
    names.push(name)?;
    Ok(SchemaIndex(index))
}

/// The index of a member's node; a name that is no member's gets a node. Takes memory.
pub fn index_of_member<'v>(
    model: ModelNodes<'_>,
    names: &mut Vec<&'v str>,
    member: Option<SchemaRef<'_>>,
    name: &'v str,
) -> Result<SchemaIndex, OutOfMemory>
    requires natural { HasLabel model.table.now model.natural.0 natural_label }
    requires member { MayStandIn model.table.now (node_of member) }
    ensures kept { KeepsNodes model.entry names.old names.new result }
    ensures index { GivesIndex model.entry names.new (member_label (node_of member.entry) name.now) result }
{
    match member {
        Some(node) => Ok(index_of(model, Some(node))),
        None => further_index(model, names, name),
    }
}

fn add_node(nodes: &mut Schemas, name: &str) -> Result<(), OutOfMemory>
    ensures { OnOk result (nodes.new ≡ nodes.old ++ Some (further_node name.now) ∷ []) }
{
    let id = ShapeId::from_parts("smithy.api#Document", "smithy.api", "Document");
    match nodes.insert(Schema::new_unindexed(id, ShapeType::Document, name)) {
        Ok(_) => Ok(()),
        Err(_) => Err(OutOfMemory),
    }
}

/// Adds the nodes of names that are no member's. Takes memory.
pub fn add_nodes(nodes: &mut Schemas, names: &[&str]) -> Result<(), OutOfMemory>
    ensures { OnOk result (nodes.new ≡ nodes_with nodes.old names.now) }
{
    for name in names {
        add_node(nodes, name)?;
    }
    Ok(())
}
