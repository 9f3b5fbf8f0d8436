// Numbers: those that are kept as their texts, and those of documents.
use crate::telling::Told;
use serde_json::Value;
use smithy_types::{BigDecimal, BigInteger, Number, Text, TypesError};
use std::alloc::Global;
use test_rows::{Failed, long_text_of, number_of, text_of};

/// What a call of a number answers, `None` where it is another's.
pub fn answer(alloc: Global, call: &str, given: &Value) -> Result<Option<Text>, Failed> {
    match call {
        "BigInteger::parse" => integer(alloc, given).map(Some),
        "BigDecimal::parse" => decimal(alloc, given).map(Some),
        "BigInteger::eq" => are_equal(alloc, given).map(Some),
        "Number::from_i64" => {
            let number = Number::from_i64(number_of(given, "value")?);
            Ok(Some(Text::from_string(format!(in alloc; "{number:?}")?)))
        }
        _ => Ok(None),
    }
}

fn refused(alloc: Global, error: TypesError) -> Result<Text, Failed> {
    Ok(Text::from_string(format!(in alloc; "Err {error:?}")?))
}

fn kept(alloc: Global, text: &str) -> Result<Text, Failed> {
    let mut told = Told::new(alloc)?;
    told.tell_text("Ok", text)?;
    Ok(told.into_text())
}

fn integer(alloc: Global, given: &Value) -> Result<Text, Failed> {
    match BigInteger::parse(alloc, long_text_of(alloc, given, "text")?.as_str()) {
        Ok(number) => kept(alloc, number.as_str()),
        Err(error) => refused(alloc, error),
    }
}

fn decimal(alloc: Global, given: &Value) -> Result<Text, Failed> {
    match BigDecimal::parse(alloc, long_text_of(alloc, given, "text")?.as_str()) {
        Ok(number) => kept(alloc, number.as_str()),
        Err(error) => refused(alloc, error),
    }
}

// Whether two texts are equal integers, and whether they are equal decimals.
fn are_equal(alloc: Global, given: &Value) -> Result<Text, Failed> {
    let (one, other) = (text_of(given, "one")?, text_of(given, "other")?);
    let integers = BigInteger::parse(alloc, one).ok().ok_or(Failed)?
        == BigInteger::parse(alloc, other).ok().ok_or(Failed)?;
    let decimals = BigDecimal::parse(alloc, one).ok().ok_or(Failed)?
        == BigDecimal::parse(alloc, other).ok().ok_or(Failed)?;
    Ok(Text::from_string(format!(in alloc; "{integers} {decimals}")?))
}
