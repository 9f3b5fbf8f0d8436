// The codec of the JSON of a node.
ghost use Rattle.smithy_wire.specs.WireText.{wire_text, wire_held};
ghost use Rattle.smithy_wire.specs.views.WireOf.{form_in, names_in, style_in, IsLawfulWire};

use crate::wire_json::WireJson;
use crate::wire_serializer::WireSerializer;
use smithy_document::{DocumentShapeSerializer, JsonDeserializer};
use smithy_serde::{Codec, SerdeError};
use std::alloc::Global;

impl<'t> Codec for WireJson<'t> {
    type Serializer = WireSerializer<'t>;

    type Deserializer = JsonDeserializer;

    ghost text = { λ c. wire_text (names_in c) (form_in c) };

    ghost holds = { λ c. wire_held (style_in c) (form_in c) };

    ghost lawful = { IsLawfulWire };

    ghost tells = { λ c h. h };

    fn create_serializer(&self, alloc: Global) -> Result<WireSerializer<'t>, SerdeError> {
        Ok(WireSerializer {
            alloc,
            wire: *self,
            told: DocumentShapeSerializer::new(alloc),
        })
    }

    /// A reader of the document that a body is, or of its refusal.
    fn create_deserializer(
        &self,
        alloc: Global,
        input: &[u8],
    ) -> Result<JsonDeserializer, SerdeError> {
        match self.read(alloc, input)? {
            Ok(document) => Ok(JsonDeserializer::of_document(alloc, &document)?),
            Err(text) => Ok(JsonDeserializer::of_refusal(alloc, text)),
        }
    }
}

/// The JSON of a node keeps what is asked of a codec. Takes no memory.
pub fn wire_json_is_lawful<'t>(_codec: &WireJson<'t>)
    ensures { ⟦<WireJson<'t> as Codec>⟧.lawful _codec.now }
{}
