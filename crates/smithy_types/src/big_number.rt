// Whole and decimal numbers that are kept as their texts.
use crate::error::TypesError;
use crate::number_text::{has_narrow_coefficient, is_big_decimal, is_signed_digits};
use crate::text::Text;
use std::alloc::Global;
use std::marker::Model;

/// A whole number, seen as its text as it was read.
#[derive(Debug, Drop)]
pub struct BigInteger {
    text: Text,
}

impl Model for BigInteger {
    ghost use Rattle.std.specs.Prelude.{List, ℕ, IsTrue};
    ghost use Rattle.smithy_types.specs.BigNumbers.{is_big_integer_in_range};

    ghost Value = { List ℕ };

    ghost view = { λ a. a.text };

    ghost invariant = { λ a. IsTrue (is_big_integer_in_range a.text) };
}

impl PartialEq for BigInteger {
    ghost use Rattle.std.specs.Cmp.{partial_equiv_from_equiv};
    ghost use Rattle.std.specs.Cmp.Lexicographic.{nat_list_eq_equiv};
    ghost use Rattle.smithy_types.specs.Texts.{same_text};

    ghost eq = { same_text };

    ghost laws = { partial_equiv_from_equiv nat_list_eq_equiv };

    fn eq(&self, other: &BigInteger) -> bool {
        self.text.as_str() == other.text.as_str()
    }
}

impl Eq for BigInteger {
    ghost use Rattle.std.specs.Cmp.Lexicographic.{nat_list_eq_equiv};

    ghost laws = { nat_list_eq_equiv };
}

impl BigInteger {
    ghost use Rattle.std.specs.Prelude.{◌≡◌, ◌≢◌, ◌↔◌, true, false, IsTrue, IfOk, IfErr, IsErrOf};
    ghost use Rattle.smithy_types.specs.BigNumbers.{is_signed_digits as grammar, has_narrow_coefficient as narrow, is_big_integer_in_range};

    /// The number of a text: an optional sign and digits.
    ///
    /// Refuses with `Malformed` where the text is not of this form, and with `TooWide` where it is and its digits before an exponent,
    /// read as one number with the sign, are outside -2^127 to 2^127 - 1. Takes memory for a copy of the text.
    pub fn parse(alloc: Global, text: &str) -> Result<BigInteger, TypesError>
        ensures text { IfOk result (λ n. n ≡ text.now) }
        ensures malformed { IsErrOf result TypesError.Malformed ↔ (grammar text.now ≡ false) }
        ensures too_wide { IsErrOf result TypesError.TooWide
            ↔ (grammar text.now ≡ true) × (narrow text.now ≡ false) }
        ensures refusals { IfErr result (λ e. e ≢ TypesError.DateRange) }
    {
        let bytes = text.as_bytes();
        if !is_signed_digits(bytes) {
            return Err(TypesError::Malformed);
        }
        if !has_narrow_coefficient(bytes) {
            return Err(TypesError::TooWide);
        }
        Ok(BigInteger {
            text: Text::from_str(alloc, text)?,
        })
    }

    /// The text as it was read.
    pub fn as_str(&self) -> &str
        ensures text { result.now ≡ self.now }
        ensures in_range { IsTrue (is_big_integer_in_range self.now) }
    {
        self.text.as_str()
    }
}

/// A decimal number, seen as its text as it was read.
#[derive(Debug, Drop)]
pub struct BigDecimal {
    text: Text,
}

impl Model for BigDecimal {
    ghost use Rattle.std.specs.Prelude.{List, ℕ, IsTrue};
    ghost use Rattle.smithy_types.specs.BigNumbers.{is_big_decimal_in_range};

    ghost Value = { List ℕ };

    ghost view = { λ a. a.text };

    ghost invariant = { λ a. IsTrue (is_big_decimal_in_range a.text) };
}

impl PartialEq for BigDecimal {
    ghost use Rattle.std.specs.Cmp.{partial_equiv_from_equiv};
    ghost use Rattle.std.specs.Cmp.Lexicographic.{nat_list_eq_equiv};
    ghost use Rattle.smithy_types.specs.Texts.{same_text};

    ghost eq = { same_text };

    ghost laws = { partial_equiv_from_equiv nat_list_eq_equiv };

    fn eq(&self, other: &BigDecimal) -> bool {
        self.text.as_str() == other.text.as_str()
    }
}

impl Eq for BigDecimal {
    ghost use Rattle.std.specs.Cmp.Lexicographic.{nat_list_eq_equiv};

    ghost laws = { nat_list_eq_equiv };
}

impl BigDecimal {
    ghost use Rattle.std.specs.Prelude.{◌≡◌, ◌≢◌, ◌↔◌, true, false, IsTrue, IfOk, IfErr, IsErrOf};
    ghost use Rattle.smithy_types.specs.BigNumbers.{is_big_decimal as grammar, has_narrow_coefficient as narrow, is_big_decimal_in_range};

    /// The number of a text: an optional sign, digits with an optional point, and optionally `e` or `E`, a sign and digits.
    ///
    /// Refuses with `Malformed` where the text is not of this form, and with `TooWide` where it is and its digits before an exponent,
    /// read as one number with the sign, are outside -2^127 to 2^127 - 1. Takes memory for a copy of the text.
    pub fn parse(alloc: Global, text: &str) -> Result<BigDecimal, TypesError>
        ensures text { IfOk result (λ n. n ≡ text.now) }
        ensures malformed { IsErrOf result TypesError.Malformed ↔ (grammar text.now ≡ false) }
        ensures too_wide { IsErrOf result TypesError.TooWide
            ↔ (grammar text.now ≡ true) × (narrow text.now ≡ false) }
        ensures refusals { IfErr result (λ e. e ≢ TypesError.DateRange) }
    {
        let bytes = text.as_bytes();
        if !is_big_decimal(bytes) {
            return Err(TypesError::Malformed);
        }
        if !has_narrow_coefficient(bytes) {
            return Err(TypesError::TooWide);
        }
        Ok(BigDecimal {
            text: Text::from_str(alloc, text)?,
        })
    }

    /// The text as it was read.
    pub fn as_str(&self) -> &str
        ensures text { result.now ≡ self.now }
        ensures in_range { IsTrue (is_big_decimal_in_range self.now) }
    {
        self.text.as_str()
    }
}
