// Scalars at a node of a kind, or at none.
ghost use Rattle.std.specs.Prelude.{Some, option_map, IfOk};
ghost use Rattle.serde_json.specs.View.{number_view};
ghost use Rattle.smithy_json.specs.views.JsonView.{view};
ghost use Rattle.smithy_json.specs.FromData.{of_data};
ghost use Rattle.smithy_serde.specs.Values as values;
ghost use Rattle.smithy_serde.specs.Values.{big_integer, big_decimal, document};
ghost use Rattle.smithy_job.specs.Scalars.{whole_at, whole_decimal, large_at, number_at, text_at};
ghost use Rattle.smithy_job.specs.views.Tables.{ReadsAs, IsScalar};

use base64::DecodeAllocError;
use base64::engine::general_purpose::STANDARD;
use serde_json::Number;
use smithy_ids::ShapeType;
use smithy_json::{JsonValue, document_of};
use smithy_model::{Floats, JobError};
use smithy_serde::ShapeValue;
use smithy_types::{BigDecimal, BigInteger, Blob, DateTime, OutOfMemory, Text, TypesError};
use std::alloc::Global;

// The text is a decimal number of 64 bits, so want of memory is all that can refuse it.
fn big_integer(alloc: Global, text: &str) -> Result<ShapeValue, OutOfMemory>
    ensures { IfOk result (λ v. IsScalar v (big_integer text.now)) }
{
    match BigInteger::parse(alloc, text) {
        Ok(number) => Ok(ShapeValue::BigInteger(number)),
        Err(_) => Err(OutOfMemory),
    }
}

// The same of a decimal.
fn big_decimal(alloc: Global, text: &str) -> Result<ShapeValue, OutOfMemory>
    ensures { IfOk result (λ v. IsScalar v (big_decimal text.now)) }
{
    match BigDecimal::parse(alloc, text) {
        Ok(number) => Ok(ShapeValue::BigDecimal(number)),
        Err(_) => Err(OutOfMemory),
    }
}

// The value of a number of 64 bits where a decimal stands.
#[tactic(auto, unfolding(smithy_serde::specs::StoredValues::value_in, smithy_serde::specs::StoredValues::IsDefined))]
fn whole_decimal(alloc: Global, floats: Floats, number: i64) -> Result<ShapeValue, OutOfMemory>
    ensures { IfOk result (λ v. IsScalar v (whole_decimal floats number)) }
{
    match floats {
        Floats::Kept => Ok(ShapeValue::Long(number)),
        Floats::Decimals => {
            let text = format!(in alloc; "{number}")?;
            big_decimal(alloc, text.as_str())
        }
    }
}

// The value of a number of 64 bits: of the kind, and else a Long.
#[tactic(auto, unfolding(smithy_serde::specs::StoredValues::value_in, smithy_serde::specs::StoredValues::IsDefined))]
fn whole_value(
    alloc: Global,
    floats: Floats,
    kind: Option<ShapeType>,
    number: i64,
) -> Result<ShapeValue, OutOfMemory>
    ensures { IfOk result (λ v. IsScalar v (whole_at floats kind number)) }
{
    match kind {
        Some(ShapeType::Byte) => match i8::try_from(number) {
            Ok(number) => Ok(ShapeValue::Byte(number)),
            Err(_) => Ok(ShapeValue::Long(number)),
        },
        Some(ShapeType::Short) => match i16::try_from(number) {
            Ok(number) => Ok(ShapeValue::Short(number)),
            Err(_) => Ok(ShapeValue::Long(number)),
        },
        Some(ShapeType::Integer) => match i32::try_from(number) {
            Ok(number) => Ok(ShapeValue::Integer(number)),
            Err(_) => Ok(ShapeValue::Long(number)),
        },
        Some(ShapeType::Timestamp) => Ok(ShapeValue::Timestamp(DateTime::from_secs(number))),
        Some(ShapeType::BigInteger) => {
            let text = format!(in alloc; "{number}")?;
            big_integer(alloc, text.as_str())
        }
        Some(ShapeType::BigDecimal) => whole_decimal(alloc, floats, number),
        _ => Ok(ShapeValue::Long(number)),
    }
}

// The value of a number past 64 bits, by the text of its digits.
fn large_value(
    alloc: Global,
    floats: Floats,
    kind: Option<ShapeType>,
    text: &str,
) -> Result<ShapeValue, OutOfMemory>
    ensures { IfOk result (λ v. IsScalar v (large_at floats kind text.now)) }
{
    match kind {
        Some(ShapeType::BigDecimal) => match floats {
            Floats::Kept => big_integer(alloc, text),
            Floats::Decimals => big_decimal(alloc, text),
        },
        _ => big_integer(alloc, text),
    }
}

/// The value of a number: of the kind where it is in the kind's range, else a Long, and past 64 bits a BigInteger; where a decimal
/// stands, and floats are read as decimals, a BigDecimal. Takes memory. A float is no job.
pub fn number_value(
    alloc: Global,
    floats: Floats,
    kind: Option<ShapeType>,
    number: &Number,
) -> Result<ShapeValue, JobError>
    ensures { ReadsAs IsScalar (number_at floats kind (number_view number.now)) result }
{
    if let Some(number) = number.as_i64() {
        return Ok(whole_value(alloc, floats, kind, number)?);
    }
    let Some(number) = number.as_u64() else {
        return Err(JobError::NoJob);
    };
    let text = format!(in alloc; "{number}")?;
    Ok(large_value(alloc, floats, kind, text.as_str())?)
}

fn string_value(alloc: Global, text: &str) -> Result<ShapeValue, OutOfMemory>
    ensures { IfOk result (λ v. IsScalar v (values.text text.now)) }
{
    Ok(ShapeValue::String(Text::from_str(alloc, text)?))
}

fn blob_value(alloc: Global, text: &str) -> Result<ShapeValue, OutOfMemory>
    ensures { IfOk result (λ v. IsScalar v (text_at (Some ShapeType.Blob) text.now)) }
{
    match STANDARD.decode(alloc, text.as_bytes()) {
        Ok(bytes) => Ok(ShapeValue::Blob(Blob::from_vec(bytes))),
        Err(DecodeAllocError::OutOfMemory) => Err(OutOfMemory),
        Err(DecodeAllocError::DecodeError(_)) => string_value(alloc, text),
    }
}

fn integer_value(alloc: Global, text: &str) -> Result<ShapeValue, OutOfMemory>
    ensures { IfOk result (λ v. IsScalar v (text_at (Some ShapeType.BigInteger) text.now)) }
{
    match BigInteger::parse(alloc, text) {
        Ok(number) => Ok(ShapeValue::BigInteger(number)),
        Err(TypesError::OutOfMemory) => Err(OutOfMemory),
        Err(_) => string_value(alloc, text),
    }
}

fn decimal_value(alloc: Global, text: &str) -> Result<ShapeValue, OutOfMemory>
    ensures { IfOk result (λ v. IsScalar v (text_at (Some ShapeType.BigDecimal) text.now)) }
{
    match BigDecimal::parse(alloc, text) {
        Ok(number) => Ok(ShapeValue::BigDecimal(number)),
        Err(TypesError::OutOfMemory) => Err(OutOfMemory),
        Err(_) => string_value(alloc, text),
    }
}

/// The value of a text: of the kind where it has the kind's form, and else a String. Takes memory.
pub fn text_value(
    alloc: Global,
    kind: Option<ShapeType>,
    text: &str,
) -> Result<ShapeValue, OutOfMemory>
    ensures { IfOk result (λ v. IsScalar v (text_at kind text.now)) }
{
    match kind {
        Some(ShapeType::Blob) => blob_value(alloc, text),
        Some(ShapeType::BigInteger) => integer_value(alloc, text),
        Some(ShapeType::BigDecimal) => decimal_value(alloc, text),
        _ => string_value(alloc, text),
    }
}

/// The document of any value. Takes memory. A float in it is no job.
pub fn document_value(alloc: Global, value: &JsonValue<'_>) -> Result<ShapeValue, JobError>
    ensures { ReadsAs IsScalar (option_map document (of_data (view value.now))) result }
{
    Ok(ShapeValue::Document(document_of(alloc, value)?))
}
