// The scalars that texts spell.
ghost use Rattle.std.specs.Prelude.{IfOk};
ghost use Rattle.smithy_serde.specs.declared.read_scalar.ScalarKind.TheVariants as of;
ghost use Rattle.smithy_strings.specs.Spelled.{IsSpelled};

use base64::DecodeAllocError;
use base64::engine::general_purpose::STANDARD;
use smithy_serde::{ReadScalar, ScalarKind};
use smithy_types::{BigDecimal, BigInteger, Blob, OutOfMemory, Text, TypesError};
use std::alloc::Global;

/// The scalar of a kind that a text spells, none where it spells none: `true` or `false`; an optional sign and digits
/// in the range of the width; the texts that `BigInteger` and `BigDecimal` parse; any text; bytes in base64 (RFC 4648,
/// section 4). A point in time needs a format, so no text spells one here, and none spells a document. Takes memory.
pub fn scalar_of_text(
    alloc: Global,
    kind: ScalarKind,
    text: &str,
) -> Result<Option<ReadScalar>, OutOfMemory>
    ensures { IfOk result (IsSpelled kind text.now) }
{
    match kind {
        ScalarKind::Boolean => Ok(truth_value(text)),
        ScalarKind::Byte => match text.parse::<i8>() {
            Ok(number) => Ok(Some(ReadScalar::Byte(number))),
            Err(_) => Ok(None),
        },
        ScalarKind::Short => match text.parse::<i16>() {
            Ok(number) => Ok(Some(ReadScalar::Short(number))),
            Err(_) => Ok(None),
        },
        ScalarKind::Integer => match text.parse::<i32>() {
            Ok(number) => Ok(Some(ReadScalar::Integer(number))),
            Err(_) => Ok(None),
        },
        ScalarKind::Long => match text.parse::<i64>() {
            Ok(number) => Ok(Some(ReadScalar::Long(number))),
            Err(_) => Ok(None),
        },
        ScalarKind::BigInteger => big_integer(alloc, text),
        ScalarKind::BigDecimal => big_decimal(alloc, text),
        ScalarKind::String => Ok(Some(ReadScalar::String(Text::from_str(alloc, text)?))),
        ScalarKind::Blob => blob(alloc, text),
        ScalarKind::Timestamp | ScalarKind::Document => Ok(None),
    }
}

fn truth_value(text: &str) -> Option<ReadScalar>
    ensures { IsSpelled of.Boolean text.now result }
{
    match text {
        "true" => Some(ReadScalar::Boolean(true)),
        "false" => Some(ReadScalar::Boolean(false)),
        _ => None,
    }
}

fn big_integer(alloc: Global, text: &str) -> Result<Option<ReadScalar>, OutOfMemory>
    ensures { IfOk result (IsSpelled of.BigInteger text.now) }
{
    match BigInteger::parse(alloc, text) {
        Ok(number) => Ok(Some(ReadScalar::BigInteger(number))),
        Err(TypesError::OutOfMemory) => Err(OutOfMemory),
        Err(_) => Ok(None),
    }
}

fn big_decimal(alloc: Global, text: &str) -> Result<Option<ReadScalar>, OutOfMemory>
    ensures { IfOk result (IsSpelled of.BigDecimal text.now) }
{
    match BigDecimal::parse(alloc, text) {
        Ok(number) => Ok(Some(ReadScalar::BigDecimal(number))),
        Err(TypesError::OutOfMemory) => Err(OutOfMemory),
        Err(_) => Ok(None),
    }
}

fn blob(alloc: Global, text: &str) -> Result<Option<ReadScalar>, OutOfMemory>
    ensures { IfOk result (IsSpelled of.Blob text.now) }
{
    match STANDARD.decode(alloc, text.as_bytes()) {
        Ok(bytes) => Ok(Some(ReadScalar::Blob(Blob::from_vec(bytes)))),
        Err(DecodeAllocError::OutOfMemory) => Err(OutOfMemory),
        Err(DecodeAllocError::DecodeError(_)) => Ok(None),
    }
}
