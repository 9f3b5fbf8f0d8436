//! A second lawful codec, for what takes any codec: compact JSON and a line feed.
ghost use Rattle.std.specs.Prelude.{◌≡◌, IfOk, IfErr};
ghost use Rattle.smithy_serde.specs.declared.error.SerdeError.TheVariants.{OutOfMemory};
ghost use Rattle.smithy_serde.specs.Lawful.{IsLawfulText};
ghost use Rattle.second_codec.specs.SpacedText.{spaced, spaced_text, without_line, spaced_holds};

use smithy_document::{JsonCodec, JsonDeserializer, JsonSerializer};
use smithy_schema::SchemaRef;
use smithy_serde::{Codec, FinishSerializer, Group, Scalar, SerdeError, ShapeSerializer};
use smithy_types::Blob;
use std::alloc::Global;

/// A codec whose text of a document is its compact JSON (RFC 8259) and a line feed. It reads JSON, without a line feed at the end
/// where there is one. It is lawful.
#[derive(Drop)]
pub struct SpacedJson;

/// Writes the document of the one value that it is told as that text.
#[derive(Drop)]
pub struct SpacedSerializer {
    alloc: Global,
    inner: JsonSerializer,
}

impl ShapeSerializer for SpacedSerializer {
    ghost use Rattle.smithy_document.specs.JsonSeen.{json_seen};

    ghost seen = { λ s. record (json_seen s.inner) { text = spaced_text } };

    fn open(&mut self, schema: SchemaRef<'_>, group: Group) -> Result<(), SerdeError> {
        self.inner.open(schema, group)
    }

    fn close(&mut self) -> Result<(), SerdeError> {
        self.inner.close()
    }

    fn write(&mut self, schema: SchemaRef<'_>, scalar: Scalar<'_>) -> Result<(), SerdeError> {
        self.inner.write(schema, scalar)
    }
}

// The bytes and a line feed, where there are any.
fn spaced_blob(alloc: Global, bytes: &[u8]) -> Result<Blob, SerdeError>
    ensures text { IfOk result (λ b. b ≡ spaced bytes.now) }
    ensures memory { IfErr result (λ e. e ≡ OutOfMemory) }
{
    let mut text = Vec::from_slice(alloc, bytes)?;
    if !bytes.is_empty() {
        text.push(b'\n')?;
    }
    Ok(Blob::from_vec(text))
}

impl FinishSerializer for SpacedSerializer {
    fn finish(self) -> Result<Blob, SerdeError> {
        let SpacedSerializer { alloc, inner } = self;
        spaced_blob(alloc, inner.finish()?.as_slice())
    }
}

// The bytes without a line feed at their end.
fn without_line_feed(input: &[u8]) -> &[u8]
    ensures { result.now ≡ without_line input.now }
{
    match input.strip_suffix(b"\n".as_slice()) {
        Some(bytes) => bytes,
        None => input,
    }
}

impl Codec for SpacedJson {
    type Serializer = SpacedSerializer;

    type Deserializer = JsonDeserializer;

    ghost text = { λ c. spaced_text };

    ghost holds = { λ c. spaced_holds };

    ghost lawful = { λ c. IsLawfulText spaced_text spaced_holds };

    ghost tells = { λ c h. h };

    fn create_serializer(&self, alloc: Global) -> Result<SpacedSerializer, SerdeError> {
        let inner = JsonCodec.create_serializer(alloc)?;
        Ok(SpacedSerializer { alloc, inner })
    }

    fn create_deserializer(
        &self,
        alloc: Global,
        input: &[u8],
    ) -> Result<JsonDeserializer, SerdeError> {
        JsonCodec.create_deserializer(alloc, without_line_feed(input))
    }
}

/// It keeps what is asked of a codec. Takes no memory.
#[tactic(auto, using(crate::proofs::SpacedTexts::spaced_is_lawful))]
pub fn spaced_is_lawful(_codec: &SpacedJson)
    ensures { ⟦<SpacedJson as Codec>⟧.lawful _codec.now }
{}
