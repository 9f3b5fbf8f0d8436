// The serializer of the JSON of a node.
ghost use Rattle.smithy_wire.specs.views.WireSeen.{wire_seen};

use crate::wire_json::WireJson;
use crate::writing::wire_blob;
use smithy_document::DocumentShapeSerializer;
use smithy_schema::SchemaRef;
use smithy_serde::{FinishSerializer, Group, Scalar, SerdeError, ShapeSerializer};
use smithy_types::Blob;
use std::alloc::Global;

/// Writes the document of the one value that it is told as the JSON of a node. It refuses as `DocumentShapeSerializer` does.
#[derive(Drop)]
pub struct WireSerializer<'t> {
    pub(crate) alloc: Global,
    pub(crate) wire: WireJson<'t>,
    pub(crate) told: DocumentShapeSerializer,
}

impl<'t> ShapeSerializer for WireSerializer<'t> {
    ghost seen = { wire_seen };

    fn open(&mut self, schema: SchemaRef<'_>, group: Group) -> Result<(), SerdeError> {
        self.told.open(schema, group)
    }

    fn close(&mut self) -> Result<(), SerdeError> {
        self.told.close()
    }

    fn write(&mut self, schema: SchemaRef<'_>, scalar: Scalar<'_>) -> Result<(), SerdeError> {
        self.told.write(schema, scalar)
    }
}

impl<'t> FinishSerializer for WireSerializer<'t> {
    fn finish(self) -> Result<Blob, SerdeError> {
        let WireSerializer { alloc, wire, told } = self;
        match told.into_document()? {
            Some(document) => Ok(wire_blob(alloc, wire, &document)?),
            None => Ok(Blob::from_vec(Vec::new(alloc))),
        }
    }
}
