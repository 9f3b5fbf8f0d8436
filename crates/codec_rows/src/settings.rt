// Settings of a caller's own.
ghost use Rattle.std.specs.Prelude.{false};

use smithy_document::{DocumentShapeDeserializer, ShapeSettings};
use smithy_types::{
    Blob, DateTime, Document, DocumentError, DocumentSettings, Format, Number, Text,
};
use std::alloc::Global;

/// Blobs are the bytes of their texts, and none is empty; numbers are milliseconds, and none is negative; texts are HTTP dates.
#[derive(Clone, Copy, Debug, PartialEq, Eq, Drop)]
pub struct OwnSettings;

impl DocumentSettings for OwnSettings {
    ghost gives_blob = { λ s text r. Unit {0} };

    ghost gives_number_timestamp = { λ s number r. Unit {0} };

    ghost gives_text_timestamp = { λ s text r. Unit {0} };

    fn coerce_string_to_blob(&self, alloc: Global, text: &str) -> Result<Blob, DocumentError> {
        if text.is_empty() {
            let message = Text::from_str(alloc, "an empty blob")?;
            return Err(DocumentError::UnsupportedOperation { message });
        }
        Ok(Blob::new(alloc, text.as_bytes())?)
    }

    fn coerce_number_to_timestamp(
        &self,
        alloc: Global,
        number: Number,
    ) -> Result<DateTime, DocumentError> {
        match number {
            Number::PosInt(milliseconds) => match i64::try_from(milliseconds / 1000) {
                Ok(seconds) => Ok(DateTime::from_secs(seconds)),
                Err(_) => Err(DocumentError::OutOfMemory),
            },
            Number::NegInt(_) => {
                let message = Text::from_str(alloc, "before 1970")?;
                Err(DocumentError::TypeMismatch { message })
            }
        }
    }

    fn coerce_string_to_timestamp(
        &self,
        alloc: Global,
        text: &str,
    ) -> Result<DateTime, DocumentError> {
        match DateTime::parse(alloc, text, Format::HttpDate) {
            Ok(time) => Ok(time),
            Err(_) => {
                let message = Text::from_str(alloc, "no HTTP date")?;
                Err(DocumentError::InvalidInput { message })
            }
        }
    }
}

impl ShapeSettings for OwnSettings {
    ghost tells = { false };

    fn reader<'a>(&'a self, document: &'a Document) -> DocumentShapeDeserializer<'a, OwnSettings> {
        DocumentShapeDeserializer::new_with_settings(document, self)
    }
}
