//! A codec of one's own: JSON whose reader takes no bytes for an empty object, as some services answer.
ghost use Rattle.std.specs.Prelude.{◌≡◌};
ghost use Rattle.smithy_serde.specs.Lawful.{IsLawfulText};
ghost use Rattle.smithy_document.specs.JsonText.{json_text};
ghost use Rattle.uses.specs.LenientText.{or_empty_object, lenient_held};

use smithy_document::{JsonCodec, JsonDeserializer, JsonSerializer};
use smithy_serde::{Codec, SerdeError};
use std::alloc::Global;

/// Compact JSON (RFC 8259). No bytes are read as the empty object. It is lawful.
#[derive(Clone, Copy, Debug, PartialEq, Eq, Drop)]
pub struct LenientJson;

// The bytes, and those of the empty object where there are none.
fn or_empty_object(input: &[u8]) -> &[u8]
    ensures { result.now ≡ or_empty_object input.now }
{
    if input.is_empty() {
        return b"{}".as_slice();
    }
    input
}

impl Codec for LenientJson {
    type Serializer = JsonSerializer;

    type Deserializer = JsonDeserializer;

    ghost text = { λ c. json_text };

    ghost holds = { λ c. lenient_held };

    ghost lawful = { λ c. IsLawfulText json_text lenient_held };

    ghost tells = { λ c h. h };

    fn create_serializer(&self, alloc: Global) -> Result<JsonSerializer, SerdeError> {
        JsonCodec.create_serializer(alloc)
    }

    fn create_deserializer(
        &self,
        alloc: Global,
        input: &[u8],
    ) -> Result<JsonDeserializer, SerdeError> {
        JsonCodec.create_deserializer(alloc, or_empty_object(input))
    }
}

/// It keeps what is asked of a codec. Takes no memory.
#[tactic(auto, using(crate::proofs::LenientTexts::lenient_is_lawful))]
pub fn lenient_is_lawful(_codec: &LenientJson)
    ensures { ⟦<LenientJson as Codec>⟧.lawful _codec.now }
{}
