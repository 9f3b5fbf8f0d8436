// An input that tells its writes and doesn't lend them.
use smithy_schema::SchemaRef;
use smithy_serde::{SerdeError, SerializableStruct, ShapeSerializer, StructValue};

/// Tells the writes of a structure, which it doesn't lend.
#[derive(Drop)]
pub struct ToldInput<'t> {
    pub value: StructValue<'t>,
}

impl SerializableStruct for ToldInput<'_> {
    ghost use Rattle.smithy_serde.specs.StructValues.{members_of, node_of};

    ghost writes = { λ t. members_of t.value };

    ghost node = { λ t. node_of t.value };

    fn schema(&self) -> SchemaRef<'_> {
        self.value.schema()
    }

    fn serialize_members(&self, serializer: &mut dyn ShapeSerializer) -> Result<(), SerdeError> {
        self.value.serialize_members(serializer)
    }
}
