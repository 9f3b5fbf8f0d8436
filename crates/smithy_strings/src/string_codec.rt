// The string codec.
ghost use Rattle.std.specs.Prelude.{◌≡◌, ◌⊎◌, [], IsSome, Some, None, IfOk, IfErr, OnOk};
ghost use Rattle.smithy_serde.specs.Finishing.{Finishes};
ghost use Rattle.smithy_strings.specs.StringReading.{held_by_bytes};
ghost use Rattle.smithy_strings.specs.StringWriting.{string_seen, open_count, kept_refusal, IsWrittenText};

use crate::http_string::HttpStringSerializer;
use crate::string_reader::HttpStringDeserializer;
use smithy_serde::{Codec, FinishSerializer, SerdeError};
use smithy_types::Blob;
use std::alloc::Global;
use std::str;

/// Texts of single values and of flat lists, as headers have them (Smithy, HTTP protocol bindings). It writes with
/// `HttpStringSerializer` and reads with `HttpStringDeserializer`. Over bytes that are not UTF-8 each read and each
/// opening is refused with `InvalidInput`. It has no text for documents, so it is not lawful.
#[derive(Clone, Copy, Debug, PartialEq, Eq, Drop)]
pub struct HttpStringCodec;

impl FinishSerializer for HttpStringSerializer {
    /// The bytes of the text of what was written, or the first refusal, as `HttpStringSerializer::finish` has it.
    fn finish(self) -> Result<Blob, SerdeError>
        requires { (open_count self ≡ 0) ⊎ IsSome (kept_refusal self) }
        ensures finishes { Finishes (string_seen self) result }
        ensures text { IfOk result (IsWrittenText self) }
        ensures unrefused { OnOk result (kept_refusal self ≡ None) }
        ensures refusal { IfErr result (λ e. kept_refusal self ≡ Some e) }
    {
        let text = HttpStringSerializer::finish(self)?;
        Ok(Blob::from_vec(text.into_string().into_bytes()))
    }
}

impl Codec for HttpStringCodec {
    type Serializer = HttpStringSerializer;

    type Deserializer = HttpStringDeserializer;

    ghost text = { λ c d. [] };

    ghost holds = { λ c bytes. Some (held_by_bytes bytes) };

    ghost lawful = { λ c. ⊥ };

    ghost tells = { λ c h. absurd h };

    fn create_serializer(&self, alloc: Global) -> Result<HttpStringSerializer, SerdeError> {
        Ok(HttpStringSerializer::new(alloc))
    }

    fn create_deserializer(
        &self,
        alloc: Global,
        input: &[u8],
    ) -> Result<HttpStringDeserializer, SerdeError> {
        match str::from_utf8(input) {
            Ok(text) => HttpStringDeserializer::new(alloc, text),
            Err(_) => Ok(HttpStringDeserializer::of_no_text()),
        }
    }
}
