// The reads of a text of the string codec.
ghost use Rattle.std.specs.Prelude.{IfOk, option_copied};
ghost use Rattle.smithy_serde.specs.ReadCalls.{type_of};
ghost use Rattle.smithy_serde.specs.StringReads.{time_of_text as time_of, value_of_text as value_of};
ghost use Rattle.smithy_serde.specs.declared.read_scalar.ScalarKind.TheVariants as of;
ghost use Rattle.smithy_strings.specs.Spelled.{IsReadAs};
ghost use Rattle.smithy_strings.specs.StringReading.{ReadsLeft};

use crate::reading_refusals::{no_document, no_value, not_of_kind};
use crate::spelled::scalar_of_text;
use smithy_serde::{ReadScalar, ScalarKind, SerdeError};
use smithy_types::{DateTime, Format, OutOfMemory};
use std::alloc::Global;

// Reads a text that is left as the kind.
pub(crate) fn read_left(
    alloc: Global,
    kind: ScalarKind,
    left: Option<&str>,
) -> Result<ReadScalar, SerdeError>
    ensures { ReadsLeft kind (option_copied left.entry) result }
{
    match (kind, left) {
        (ScalarKind::Document, _) => Err(no_document(alloc)),
        (_, None) => Err(no_value(alloc, kind)),
        (_, Some(text)) => match value_of_text(alloc, kind, text)? {
            Some(value) => Ok(value),
            None => Err(not_of_kind(alloc, kind, text)),
        },
    }
}

// The value of the kind that a text spells, a point in time as an HTTP date or else as a date-time.
fn value_of_text(
    alloc: Global,
    kind: ScalarKind,
    text: &str,
) -> Result<Option<ReadScalar>, OutOfMemory>
    ensures { IfOk result (IsReadAs kind (value_of (type_of kind) text.now)) }
{
    match kind {
        ScalarKind::Timestamp => Ok(time_of_text(alloc, text)),
        _ => scalar_of_text(alloc, kind, text),
    }
}

fn time_of_text(alloc: Global, text: &str) -> Option<ReadScalar>
    ensures { IsReadAs of.Timestamp (time_of text.now) result }
{
    match DateTime::parse(alloc, text, Format::HttpDate) {
        Ok(time) => Some(ReadScalar::Timestamp(time)),
        Err(_) => match DateTime::parse(alloc, text, Format::DateTime) {
            Ok(time) => Some(ReadScalar::Timestamp(time)),
            Err(_) => None,
        },
    }
}
