// Documents read as big numbers.
ghost use Rattle.std.specs.Prelude.{◌≡◌, Some, None, Ok, false};
ghost use Rattle.smithy_document.specs.Words.{is_big_integer_in_range, string_in, view, number_view, number_text, big_decimal_of_text, big_integer_of_text, Gives, IsRefusal};
ghost use Rattle.smithy_serde.specs.Values as value;
ghost use Rattle.smithy_document.specs.BigReads.{not_parsed};
ghost use Rattle.smithy_document.specs.views.ScalarReads.{GivesScalar};

use crate::mismatch::mismatch;
use crate::number_reads::integer_of;
use crate::truncation::truncated;
use crate::whole_numbers::{decimal_of_whole, integer_of_whole, parsed_decimal, parsed_integer};
use smithy_ids::ShapeType;
use smithy_serde::SerdeError;
use smithy_types::{BigDecimal, BigInteger, Document, Number, Text};
use std::alloc::Global;

fn not_parsed(alloc: Global, text: &str, ending: &str) -> SerdeError
    ensures { IsRefusal (not_parsed text.now ending.now) result }
{
    match format!(in alloc; "cannot parse {text}{ending}") {
        Ok(message) => SerdeError::InvalidInput {
            message: Text::from_string(message),
        },
        Err(_) => SerdeError::OutOfMemory,
    }
}

// The integer part of a text that is no big integer.
fn integer_part(alloc: Global, text: &str) -> Result<BigInteger, SerdeError>
    requires { is_big_integer_in_range text.now ≡ false }
    ensures { Gives value.big_integer (Some (big_integer_of_text text.now)) result }
{
    match parsed_decimal(alloc, text) {
        Err(error) => Err(error),
        Ok(parsed) => match parsed {
            Some(number) => truncated(alloc, &number),
            None => Err(not_parsed(alloc, text, " as bigInteger")),
        },
    }
}

fn integer_of_text(alloc: Global, text: &str) -> Result<BigInteger, SerdeError>
    ensures { Gives value.big_integer (Some (big_integer_of_text text.now)) result }
{
    match parsed_integer(alloc, text) {
        Err(error) => Err(error),
        Ok(parsed) => match parsed {
            Some(number) => Ok(number),
            None => integer_part(alloc, text),
        },
    }
}

fn decimal_of_text(alloc: Global, text: &str) -> Result<BigDecimal, SerdeError>
    ensures { Gives value.big_decimal (Some (big_decimal_of_text text.now)) result }
{
    match parsed_decimal(alloc, text) {
        Err(error) => Err(error),
        Ok(parsed) => match parsed {
            Some(number) => Ok(number),
            None => Err(not_parsed(alloc, text, " as bigDecimal")),
        },
    }
}

fn integer_of_number(alloc: Global, number: Number) -> Result<BigInteger, SerdeError>
    ensures { Gives value.big_integer
        (Some (Ok (value.big_integer (number_text (number_view number))))) result }
{
    integer_of_whole(alloc, integer_of(number))
}

fn decimal_of_number(alloc: Global, number: Number) -> Result<BigDecimal, SerdeError>
    ensures { Gives value.big_decimal
        (Some (Ok (value.big_decimal (number_text (number_view number))))) result }
{
    decimal_of_whole(alloc, integer_of(number))
}

// A document that is no text.
fn integer_of_other(alloc: Global, document: &Document) -> Result<BigInteger, SerdeError>
    requires { string_in (view document.now) ≡ None }
    ensures { GivesScalar value.big_integer ShapeType.BigInteger document.now result }
{
    match document.as_number() {
        Some(number) => integer_of_number(alloc, *number),
        None => Err(mismatch(alloc, ShapeType::BigInteger, document)),
    }
}

/// A number, or the whole number of a text: a big decimal's is its integer part.
pub(crate) fn big_integer(alloc: Global, document: &Document) -> Result<BigInteger, SerdeError>
    ensures { GivesScalar value.big_integer ShapeType.BigInteger document.now result }
{
    match document.as_string() {
        Some(text) => integer_of_text(alloc, text),
        None => integer_of_other(alloc, document),
    }
}

// A document that is no text.
fn decimal_of_other(alloc: Global, document: &Document) -> Result<BigDecimal, SerdeError>
    requires { string_in (view document.now) ≡ None }
    ensures { GivesScalar value.big_decimal ShapeType.BigDecimal document.now result }
{
    match document.as_number() {
        Some(number) => decimal_of_number(alloc, *number),
        None => Err(mismatch(alloc, ShapeType::BigDecimal, document)),
    }
}

/// A number, or the decimal of a text.
pub(crate) fn big_decimal(alloc: Global, document: &Document) -> Result<BigDecimal, SerdeError>
    ensures { GivesScalar value.big_decimal ShapeType.BigDecimal document.now result }
{
    match document.as_string() {
        Some(text) => decimal_of_text(alloc, text),
        None => decimal_of_other(alloc, document),
    }
}
