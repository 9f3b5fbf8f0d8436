// Texts and whole numbers as big numbers.
ghost use Rattle.std.specs.Prelude.{◌≡◌, Some, Ok, IfOk, IfErr};
ghost use Rattle.smithy_document.specs.Words.{is_big_integer_in_range, is_big_decimal_in_range, Gives, then_some};
ghost use Rattle.std.specs.Fmt.{signed_decimal};
ghost use Rattle.smithy_serde.specs.Values as value;

use smithy_serde::SerdeError;
use smithy_types::{BigDecimal, BigInteger, TypesError};
use std::alloc::Global;

/// The big integer of a text, none where it is not one within 128 bits. Takes memory for a copy of the text.
pub(crate) fn parsed_integer(alloc: Global, text: &str) -> Result<Option<BigInteger>, SerdeError>
    ensures parsed { IfOk result (λ o. o ≡ then_some (is_big_integer_in_range text.now) text.now) }
    ensures memory { IfErr result (λ e. e ≡ SerdeError.OutOfMemory) }
{
    match BigInteger::parse(alloc, text) {
        Ok(number) => Ok(Some(number)),
        Err(TypesError::Malformed) => Ok(None),
        Err(TypesError::TooWide) => Ok(None),
        Err(TypesError::DateRange) => unreachable!(),
        Err(TypesError::OutOfMemory) => Err(SerdeError::OutOfMemory),
    }
}

/// The big decimal of a text, likewise.
pub(crate) fn parsed_decimal(alloc: Global, text: &str) -> Result<Option<BigDecimal>, SerdeError>
    ensures parsed { IfOk result (λ o. o ≡ then_some (is_big_decimal_in_range text.now) text.now) }
    ensures memory { IfErr result (λ e. e ≡ SerdeError.OutOfMemory) }
{
    match BigDecimal::parse(alloc, text) {
        Ok(number) => Ok(Some(number)),
        Err(TypesError::Malformed) => Ok(None),
        Err(TypesError::TooWide) => Ok(None),
        Err(TypesError::DateRange) => unreachable!(),
        Err(TypesError::OutOfMemory) => Err(SerdeError::OutOfMemory),
    }
}

/// A whole number with its decimal text. Takes memory.
pub(crate) fn integer_of_whole(alloc: Global, whole: i128) -> Result<BigInteger, SerdeError>
    ensures { Gives value.big_integer (Some (Ok (value.big_integer (signed_decimal whole)))) result }
{
    let text = format!(in alloc; "{whole}")?;
    match parsed_integer(alloc, text.as_str()) {
        Err(error) => Err(error),
        Ok(parsed) => match parsed {
            Some(number) => Ok(number),
            None => unreachable!(),
        },
    }
}

/// A whole number as a decimal, likewise.
pub(crate) fn decimal_of_whole(alloc: Global, whole: i128) -> Result<BigDecimal, SerdeError>
    ensures { Gives value.big_decimal (Some (Ok (value.big_decimal (signed_decimal whole)))) result }
{
    let text = format!(in alloc; "{whole}")?;
    match parsed_decimal(alloc, text.as_str()) {
        Err(error) => Err(error),
        Ok(parsed) => match parsed {
            Some(number) => Ok(number),
            None => unreachable!(),
        },
    }
}
