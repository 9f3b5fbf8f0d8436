// The response code (Smithy, HTTP protocol bindings, httpResponseCode).
ghost use Rattle.std.specs.Prelude.{◌≡◌};
ghost use Rattle.smithy_binding.specs.Words.{Table, value_in};
ghost use Rattle.smithy_binding.specs.ResponseCodes.{status_value, as_status};

use smithy_serde::ShapeValue;

// The number, where it has three digits.
fn as_status(code: i32) -> Option<u16>
    ensures { result ≡ as_status code }
{
    if code >= 100 && code <= 999 {
        Some(code as u16)
    } else {
        None
    }
}

/// The status that the value is: an Integer from 100 to 999.
#[tactic(auto, unfolding(smithy_serde::specs::StoredValues::value_in))]
pub fn status_value(value: &ShapeValue) -> Option<u16>
    ensures { (t : Table) → result ≡ status_value (value_in t value.now) }
{
    match value {
        ShapeValue::Integer(code) => as_status(*code),
        _ => None,
    }
}
