// How the texts and numbers of documents are read as kinds that documents do not have.
ghost use Rattle.std.specs.Prelude.{◌≡◌, ◌⊎◌, List, ℕ, ℤ, Result, Err};
ghost use Rattle.smithy_types.specs.declared.error.DocumentError.{DocumentError as Refusal};
ghost use Rattle.smithy_types.specs.declared.error.DocumentError.TheVariants as refusal;
ghost use Rattle.smithy_types.specs.Documents.{Number as Whole};
ghost use Rattle.smithy_types.specs.views.DocumentView.{number_view};

use crate::blob::Blob;
use crate::date_time::{DateTime, Format};
use crate::error::DocumentError;
use crate::number::Number;
use crate::text::Text;
use base64::DecodeAllocError;
use base64::engine::general_purpose::STANDARD;
use std::alloc::Global;

/// How a document's texts and numbers are read as blobs and points in time.
///
/// Each call answers by its relation, or with `OutOfMemory`.
pub trait DocumentSettings {
    ghost gives_blob: { Self → List ℕ → Result (List ℕ) Refusal → Type 0 };

    ghost gives_number_timestamp: { Self → Whole → Result ℤ Refusal → Type 0 };

    ghost gives_text_timestamp: { Self → List ℕ → Result ℤ Refusal → Type 0 };

    /// The bytes that a text stands for.
    fn coerce_string_to_blob(&self, alloc: Global, text: &str) -> Result<Blob, DocumentError>
        ensures { (result ≡ Err refusal.OutOfMemory) ⊎ gives_blob self.now text.now result };

    /// The point in time that a number stands for.
    fn coerce_number_to_timestamp(
        &self,
        alloc: Global,
        number: Number,
    ) -> Result<DateTime, DocumentError>
        ensures { (result ≡ Err refusal.OutOfMemory)
            ⊎ gives_number_timestamp self.now (number_view number) result };

    /// The point in time that a text stands for.
    fn coerce_string_to_timestamp(
        &self,
        alloc: Global,
        text: &str,
    ) -> Result<DateTime, DocumentError>
        ensures { (result ≡ Err refusal.OutOfMemory) ⊎ gives_text_timestamp self.now text.now result };
}

/// The settings of documents for which nothing else is said: blobs are texts in base64 (RFC 4648, section 4), points in time are
/// numbers of seconds since 1970, or texts of RFC 3339 with the zone `Z`. Refuses with `Custom`, exactly where a text is not of its
/// form, or the number is past 64 bits.
#[derive(Clone, Copy, Debug, PartialEq, Eq)]
pub struct NoSettings;

impl DocumentSettings for NoSettings {
    ghost use Rattle.smithy_types.specs.Settings.{plain_blob, plain_number_timestamp, plain_text_timestamp};

    ghost gives_blob = { λ s text r. r ≡ plain_blob text };

    ghost gives_number_timestamp = { λ s number r. r ≡ plain_number_timestamp number };

    ghost gives_text_timestamp = { λ s text r. r ≡ plain_text_timestamp text };

    #[tactic(auto, unfolding(crate::specs::Settings::plain_blob))]
    fn coerce_string_to_blob(&self, alloc: Global, text: &str) -> Result<Blob, DocumentError> {
        match STANDARD.decode(alloc, text.as_bytes()) {
            Ok(bytes) => Ok(Blob::from_vec(bytes)),
            Err(DecodeAllocError::DecodeError(_)) => {
                custom(alloc, "cannot base64-decode string as blob")
            }
            Err(DecodeAllocError::OutOfMemory) => Err(DocumentError::OutOfMemory),
        }
    }

    #[tactic(auto, unfolding(crate::specs::Settings::plain_number_timestamp))]
    fn coerce_number_to_timestamp(
        &self,
        alloc: Global,
        number: Number,
    ) -> Result<DateTime, DocumentError> {
        match number {
            Number::NegInt(seconds) => Ok(DateTime::from_secs(seconds)),
            Number::PosInt(seconds) if seconds <= i64::MAX as u64 => {
                Ok(DateTime::from_secs(seconds as i64))
            }
            Number::PosInt(seconds) => {
                let message = format!(in alloc; "epoch seconds {seconds} out of range")?;
                Err(DocumentError::Custom {
                    message: Text::from_string(message),
                })
            }
        }
    }

    #[tactic(auto, unfolding(crate::specs::Settings::plain_text_timestamp))]
    fn coerce_string_to_timestamp(
        &self,
        alloc: Global,
        text: &str,
    ) -> Result<DateTime, DocumentError> {
        match DateTime::parse(alloc, text, Format::DateTime) {
            Ok(time) => Ok(time),
            Err(_) => custom(alloc, "cannot parse string as a date-time timestamp"),
        }
    }
}

// The refusal with this message, or want of memory.
fn custom<T>(alloc: Global, message: &str) -> Result<T, DocumentError>
    ensures { (result ≡ Err refusal.OutOfMemory) ⊎ (result ≡ Err (refusal.Custom message.now)) }
{
    Err(DocumentError::Custom {
        message: Text::from_str(alloc, message)?,
    })
}
