// An input that tells its writes and keeps none ready, as a structure of a generated client does.
use smithy_schema::SchemaRef;
use smithy_serde::{SerdeError, SerializableStruct, ShapeSerializer, StructValue};

/// A structure that tells the writes of another, one by one.
#[derive(Drop)]
pub struct ToldStruct<'t> {
    pub value: StructValue<'t>,
}

impl SerializableStruct for ToldStruct<'_> {
    ghost use Rattle.smithy_serde.specs.StructValues.{node_of, members_of};

    ghost writes = { λ s. members_of s.value };

    ghost node = { λ s. node_of s.value };

    fn schema(&self) -> SchemaRef<'_> {
        self.value.schema()
    }

    fn serialize_members(&self, serializer: &mut dyn ShapeSerializer) -> Result<(), SerdeError> {
        self.value.serialize_members(serializer)
    }
}
