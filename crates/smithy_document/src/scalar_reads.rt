// Documents read as scalars.
ghost use Rattle.std.specs.Prelude.{IfOk, IsTrue};
ghost use Rattle.smithy_document.specs.Words.{view, is_canonical, is_of_kind, scalar_of_read};
ghost use Rattle.smithy_serde.specs.Values as value;
ghost use Rattle.smithy_document.specs.views.ScalarReads.{GivesScalar, GivesBy, ReadsDocument};

use crate::big_number_reads::{big_decimal, big_integer};
use crate::mismatch::mismatch;
use crate::number_reads::{byte, integer, long, short};
use smithy_ids::ShapeType;
use smithy_serde::{ReadScalar, ScalarKind, SerdeError};
use smithy_types::{Blob, DateTime, Document, DocumentSettings, NoSettings, Text};
use std::alloc::Global;

fn boolean(alloc: Global, document: &Document) -> Result<bool, SerdeError>
    ensures { GivesScalar value.boolean ShapeType.Boolean document.now result }
{
    match document {
        Document::Bool(value) => Ok(*value),
        Document::Null => Err(mismatch(alloc, ShapeType::Boolean, document)),
        Document::Number(_) => Err(mismatch(alloc, ShapeType::Boolean, document)),
        Document::String(_) => Err(mismatch(alloc, ShapeType::Boolean, document)),
        Document::Array(_) => Err(mismatch(alloc, ShapeType::Boolean, document)),
        Document::Object(_) => Err(mismatch(alloc, ShapeType::Boolean, document)),
    }
}

fn text(alloc: Global, document: &Document) -> Result<Text, SerdeError>
    ensures { GivesScalar value.text ShapeType.String document.now result }
{
    match document {
        Document::String(text) => Ok(Text::from_str(alloc, text.as_str())?),
        Document::Null => Err(mismatch(alloc, ShapeType::String, document)),
        Document::Bool(_) => Err(mismatch(alloc, ShapeType::String, document)),
        Document::Number(_) => Err(mismatch(alloc, ShapeType::String, document)),
        Document::Array(_) => Err(mismatch(alloc, ShapeType::String, document)),
        Document::Object(_) => Err(mismatch(alloc, ShapeType::String, document)),
    }
}

// A text, as the settings answer.
fn blob<S: DocumentSettings>(
    alloc: Global,
    document: &Document,
    settings: &S,
) -> Result<Blob, SerdeError>
    ensures { GivesBy S.DocumentSettings settings.now value.blob ShapeType.Blob document.now result }
{
    match document {
        Document::String(text) => Ok(settings.coerce_string_to_blob(alloc, text.as_str())?),
        Document::Null => Err(mismatch(alloc, ShapeType::Blob, document)),
        Document::Bool(_) => Err(mismatch(alloc, ShapeType::Blob, document)),
        Document::Number(_) => Err(mismatch(alloc, ShapeType::Blob, document)),
        Document::Array(_) => Err(mismatch(alloc, ShapeType::Blob, document)),
        Document::Object(_) => Err(mismatch(alloc, ShapeType::Blob, document)),
    }
}

// The same without settings.
fn plain_blob(alloc: Global, document: &Document) -> Result<Blob, SerdeError>
    ensures { GivesScalar value.blob ShapeType.Blob document.now result }
{
    match document {
        Document::String(text) => Ok(NoSettings.coerce_string_to_blob(alloc, text.as_str())?),
        Document::Null => Err(mismatch(alloc, ShapeType::Blob, document)),
        Document::Bool(_) => Err(mismatch(alloc, ShapeType::Blob, document)),
        Document::Number(_) => Err(mismatch(alloc, ShapeType::Blob, document)),
        Document::Array(_) => Err(mismatch(alloc, ShapeType::Blob, document)),
        Document::Object(_) => Err(mismatch(alloc, ShapeType::Blob, document)),
    }
}

// A number or a text, as the settings answer.
fn timestamp<S: DocumentSettings>(
    alloc: Global,
    document: &Document,
    settings: &S,
) -> Result<DateTime, SerdeError>
    ensures { GivesBy S.DocumentSettings settings.now value.timestamp ShapeType.Timestamp document.now result }
{
    match document {
        Document::Number(number) => Ok(settings.coerce_number_to_timestamp(alloc, *number)?),
        Document::String(text) => Ok(settings.coerce_string_to_timestamp(alloc, text.as_str())?),
        Document::Null => Err(mismatch(alloc, ShapeType::Timestamp, document)),
        Document::Bool(_) => Err(mismatch(alloc, ShapeType::Timestamp, document)),
        Document::Array(_) => Err(mismatch(alloc, ShapeType::Timestamp, document)),
        Document::Object(_) => Err(mismatch(alloc, ShapeType::Timestamp, document)),
    }
}

// The same without settings.
fn plain_timestamp(alloc: Global, document: &Document) -> Result<DateTime, SerdeError>
    ensures { GivesScalar value.timestamp ShapeType.Timestamp document.now result }
{
    match document {
        Document::Number(number) => Ok(NoSettings.coerce_number_to_timestamp(alloc, *number)?),
        Document::String(text) => Ok(NoSettings.coerce_string_to_timestamp(alloc, text.as_str())?),
        Document::Null => Err(mismatch(alloc, ShapeType::Timestamp, document)),
        Document::Bool(_) => Err(mismatch(alloc, ShapeType::Timestamp, document)),
        Document::Array(_) => Err(mismatch(alloc, ShapeType::Timestamp, document)),
        Document::Object(_) => Err(mismatch(alloc, ShapeType::Timestamp, document)),
    }
}

/// The document as a scalar of the kind (Smithy, data model). It is refused with `TypeMismatch` where it is of another
/// kind, with `NumericCoercionOverflow` where a number is out of the range, with `InvalidInput` and `Custom` where a text
/// is none of the kind, or as the settings answer. Numbers and truth values take no memory where they are read.
pub(crate) fn read_as<S: DocumentSettings>(
    alloc: Global,
    document: &Document,
    kind: ScalarKind,
    settings: Option<&S>,
) -> Result<ReadScalar, SerdeError>
    requires { IsTrue (is_canonical (view document.now)) }
    ensures of_kind { IfOk result (λ a. IsTrue (is_of_kind kind (scalar_of_read a))) }
    ensures gives { ReadsDocument S.DocumentSettings settings.entry kind document.entry.now result }
{
    match kind {
        ScalarKind::Boolean => Ok(ReadScalar::Boolean(boolean(alloc, document)?)),
        ScalarKind::Byte => Ok(ReadScalar::Byte(byte(alloc, document)?)),
        ScalarKind::Short => Ok(ReadScalar::Short(short(alloc, document)?)),
        ScalarKind::Integer => Ok(ReadScalar::Integer(integer(alloc, document)?)),
        ScalarKind::Long => Ok(ReadScalar::Long(long(alloc, document)?)),
        ScalarKind::BigInteger => Ok(ReadScalar::BigInteger(big_integer(alloc, document)?)),
        ScalarKind::BigDecimal => Ok(ReadScalar::BigDecimal(big_decimal(alloc, document)?)),
        ScalarKind::String => Ok(ReadScalar::String(text(alloc, document)?)),
        ScalarKind::Blob => match settings {
            Some(settings) => Ok(ReadScalar::Blob(blob(alloc, document, settings)?)),
            None => Ok(ReadScalar::Blob(plain_blob(alloc, document)?)),
        },
        ScalarKind::Timestamp => match settings {
            Some(settings) => Ok(ReadScalar::Timestamp(timestamp(alloc, document, settings)?)),
            None => Ok(ReadScalar::Timestamp(plain_timestamp(alloc, document)?)),
        },
        ScalarKind::Document => Ok(ReadScalar::Document(document.copy(alloc)?)),
    }
}
