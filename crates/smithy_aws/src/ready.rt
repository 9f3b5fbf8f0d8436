// Inputs as AWS restJson1 takes them.
ghost use Rattle.std.specs.Prelude.{◌≡◌, option_map};
ghost use Rattle.smithy_ids.specs.Kinds.{same_kind};
ghost use Rattle.smithy_ids.specs.declared.shape_type.ShapeType.TheVariants as kind;
ghost use Rattle.smithy_schema.specs.References.{schema_of};
ghost use Rattle.smithy_serde.specs.StoredValues.{label_at, writes_in};
ghost use Rattle.smithy_serde.specs.StructValues.{members_of};
ghost use Rattle.smithy_serde.specs.Values.{no_writes};
ghost use Rattle.smithy_serde.specs.Writing.{label, TellsStruct};
ghost use Rattle.smithy_aws.specs.views.ReadyInputs.{TellsBehind};
ghost use Rattle.smithy_aws.specs.Ready.{if_unwritten, is_for_payload, is_written, member_for, unwritten};

use crate::payload::{is_payload_member, payload_of};
use smithy_ids::ShapeType;
use smithy_schema::{SchemaIndex, SchemaRef, Schemas};
use smithy_serde::{SerdeError, SerializableStruct, ShapeSerializer, StructValue, WriteList};
use smithy_types::OutOfMemory;
use std::alloc::Global;

// The member that a write with this node is for.
#[tactic(auto, using(crate::proofs::ReadyLemmas::at_index))]
fn member_for<'t>(schema: SchemaRef<'t>, written: SchemaRef<'_>) -> Option<SchemaRef<'t>>
    ensures { option_map schema_of result ≡ member_for (schema_of schema.entry) (label written.entry) }
{
    match written.member_index() {
        Some(index) => schema.member_schema_by_index(index),
        None => schema.member_schema(written.member_name()?),
    }
}

// Whether a write with the node at a place is for the payload.
fn is_for_payload(schema: SchemaRef<'_>, table: &Schemas, node: SchemaIndex) -> bool
    ensures { result ≡ is_for_payload (schema_of schema.entry) (label_at table.now node.0) }
{
    let Some(written) = table.get(node) else {
        return false;
    };
    match member_for(schema, written) {
        Some(member) => is_payload_member(member),
        None => false,
    }
}

// Whether one of the writes is for the payload.
fn is_written(schema: SchemaRef<'_>, table: &Schemas, writes: &WriteList) -> bool
    ensures { result ≡ is_written (schema_of schema.entry) (writes_in table.now writes.now) }
{
    for (node, _) in writes.iter() {
        if is_for_payload(schema, table, node) {
            return true;
        }
    }
    false
}

fn is_structure(member: SchemaRef<'_>) -> bool
    ensures { result ≡ same_kind (schema_of member.entry).node.kind kind.Structure }
{
    matches!(member.shape_type(), ShapeType::Structure)
}

// The member, where it is a structure and isn't written.
fn if_unwritten<'t>(is_written: bool, member: SchemaRef<'t>) -> Option<SchemaRef<'t>>
    ensures { option_map schema_of result ≡ if_unwritten is_written (schema_of member.entry) }
{
    if is_structure(member) && !is_written {
        Some(member)
    } else {
        None
    }
}

// The payload, where it is a structure and none of the writes is for it.
fn unwritten<'t>(
    schema: SchemaRef<'t>,
    table: &Schemas,
    writes: &WriteList,
) -> Option<SchemaRef<'t>>
    ensures { option_map schema_of result
        ≡ unwritten (schema_of schema.entry) (writes_in table.now writes.now) }
{
    let payload = payload_of(schema)?;
    if_unwritten(is_written(schema, table, writes), payload)
}

// The same of a structure's writes.
fn unwritten_in<'t>(schema: SchemaRef<'t>, input: &StructValue<'_>) -> Option<SchemaRef<'t>>
    ensures { option_map schema_of result ≡ unwritten (schema_of schema.entry) (members_of input.now) }
{
    match input.stored_writes() {
        Some((table, writes)) => unwritten(schema, table, writes),
        None => unreachable!(),
    }
}

// Writes an empty structure.
fn write_empty(serializer: &mut dyn ShapeSerializer, node: SchemaRef<'_>) -> Result<(), SerdeError>
    ensures { TellsStruct node.entry no_writes (seen serializer.old) (seen serializer.new) result }
{
    serializer.open_struct(node)?;
    serializer.close()
}

// Tells an empty structure, and then the members.
fn tell_behind_empty(
    serializer: &mut dyn ShapeSerializer,
    node: SchemaRef<'_>,
    input: &StructValue<'_>,
) -> Result<(), SerdeError>
    ensures { TellsBehind node.entry (members_of input.now) (seen serializer.old) (seen serializer.new) result }
{
    write_empty(serializer, node)?;
    input.serialize_members(serializer)
}

/// An input made ready: its writes without those that are null, and with an empty structure for a payload that is a structure and
/// isn't written.
#[derive(Drop)]
pub struct ReadyInput<'t> {
    present: StructValue<'t>,
    empty: Option<SchemaRef<'t>>,
}

impl<'t> ReadyInput<'t> {
    ghost use Rattle.std.specs.Prelude.{IfOk};
    ghost use Rattle.smithy_serde.specs.Present.{present_members};
    ghost use Rattle.smithy_aws.specs.Ready.{ready};
    ghost use Rattle.smithy_aws.specs.views.ReadyInputs.{present_writes, ready_writes};

    /// The input of these writes, by its schema: without the members of structures that are null, at every depth (Smithy, data
    /// model, structure), and with an empty structure for a payload that is a structure and has no write (AWS restJson1
    /// protocol). Takes memory for the lists of writes.
    #[tactic(auto, unfolding(crate::specs::Ready::ready))]
    pub fn of(
        alloc: Global,
        schema: SchemaRef<'t>,
        input: StructValue<'t>,
    ) -> Result<ReadyInput<'t>, OutOfMemory>
        ensures present { IfOk result (λ r. present_writes r ≡ present_members (members_of input.entry)) }
        ensures ready { IfOk result (λ r. ready_writes r ≡ ready (schema_of schema.entry) (members_of input.entry)) }
    {
        let present = input.present(alloc)?;
        let empty = unwritten_in(schema, &present);
        Ok(ReadyInput { present, empty })
    }

    /// The writes that it came with, without nulls. Takes no memory.
    pub(crate) fn present(&self) -> &StructValue<'t>
        ensures { members_of result.now ≡ present_writes self.now }
    {
        &self.present
    }
}

impl SerializableStruct for ReadyInput<'_> {
    ghost use Rattle.smithy_aws.specs.views.ReadyInputs.{ready_node, ready_writes};

    ghost writes = { ready_writes };

    ghost node = { ready_node };

    fn schema(&self) -> SchemaRef<'_> {
        self.present.schema()
    }

    fn stored_writes(&self) -> Option<(&Schemas, &WriteList)> {
        match self.empty {
            None => self.present.stored_writes(),
            Some(_) => None,
        }
    }

    fn serialize_members(&self, serializer: &mut dyn ShapeSerializer) -> Result<(), SerdeError> {
        match self.empty {
            None => self.present.serialize_members(serializer),
            Some(node) => tell_behind_empty(serializer, node, &self.present),
        }
    }
}
