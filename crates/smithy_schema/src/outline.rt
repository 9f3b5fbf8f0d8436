// What is left of a node without what it cites.
ghost use Rattle.std.specs.Prelude.{◌≡◌, ◌++◌, ◌∷◌, [], true, Some, IfOk, OnOk, OnErr, length};
ghost use Rattle.smithy_schema.specs.declared.stored.StoredDetails.TheVariants as details;
ghost use Rattle.smithy_schema.specs.Nodes.{time_format};
ghost use Rattle.smithy_schema.specs.WellMade.{is_whole};
ghost use Rattle.smithy_schema.specs.Outlines.{outline_of, named_part};
ghost use Rattle.smithy_schema.specs.views.References.{schema_of};
ghost use Rattle.smithy_schema.specs.views.Stored.{head_stored, node_stored};

use crate::copies::copied_text;
use crate::parts::SchemaIndex;
use crate::schema_ref::SchemaRef;
use crate::schemas::Schemas;
use crate::stored::{Head, StoredDetails, StoredMember, StoredNode};
use smithy_ids::TimestampFormat;
use smithy_types::OutOfMemory;
use std::alloc::Global;
use std::sync::Arc;

// For how many outlines there is room at first.
const FIRST_NODES: usize = 16;

impl<'t> SchemaRef<'t> {
    // The format of timestamps.
    fn time_format(&self) -> Option<TimestampFormat>
        ensures { result ≡ time_format (schema_of self.now) }
    {
        match self.timestamp_format() {
            Some(format) => Some(format.format()),
            None => None,
        }
    }
}

// The head of a node of a table, or a new one of a node of the prelude.
fn head_of(alloc: Global, schema: SchemaRef<'_>) -> Result<Arc<Head>, OutOfMemory>
    ensures head { IfOk result (λ h. head_stored h.value ≡ named_part (schema_of schema.entry).node) }
    ensures whole { IfOk result (λ h. is_whole (head_stored h.value) ≡ true) }
{
    match schema.stored() {
        Some(node) => Ok(Arc::try_clone(&node.head)?),
        None => Ok(Arc::new(
            alloc,
            Head {
                full_name: copied_text(alloc, schema.full_name())?,
                shape_type: schema.shape_type(),
                membership: StoredMember::Shape,
            },
        )?),
    }
}

fn outlined_node(alloc: Global, schema: SchemaRef<'_>) -> Result<StoredNode, OutOfMemory>
    ensures node { IfOk result (λ n. node_stored n ≡ outline_of (schema_of schema.entry).node) }
    ensures whole { IfOk result (λ n. is_whole (node_stored n) ≡ true) }
    ensures details { IfOk result (λ n. n.details ≡ details.Outline (time_format (schema_of schema.entry))) }
{
    Ok(StoredNode {
        head: head_of(alloc, schema)?,
        details: StoredDetails::Outline(schema.time_format()),
    })
}

// Room for the first outlines at once.
fn make_room(nodes: &mut Vec<Option<StoredNode>>) -> Result<(), OutOfMemory>
    ensures { nodes.new.items ≡ nodes.old.items }
{
    if nodes.is_empty() {
        nodes.try_reserve(FIRST_NODES)?;
    }
    Ok(())
}

impl Schemas {
    /// Adds a node with the full name, kind, member name, member index and time format of one of any table, and with nothing
    /// else: it cites no node. It shares the names of a table's node, and copies those of the prelude's. After a refusal the table is unchanged.
    pub fn insert_outline(&mut self, schema: SchemaRef<'_>) -> Result<SchemaIndex, OutOfMemory>
        ensures place { IfOk result (λ i. i.0 ≡ length self.old) }
        ensures ok { OnOk result
            (self.new ≡ self.old ++ Some (outline_of (schema_of schema.entry).node) ∷ []) }
        ensures err { OnErr result (self.new ≡ self.old) }
    {
        let place = self.nodes.len();
        make_room(&mut self.nodes)?;
        let node = outlined_node(self.alloc, schema)?;
        self.nodes.push(Some(node))?;
        Ok(SchemaIndex(place))
    }
}
