// Percent escapes, taken back.
ghost use Rattle.std.specs.Prelude.{◌≡◌, IfOk};
ghost use Rattle.smithy_strings.specs.Escapes.{decoded, unescaped};

use crate::escape::percent_encode;
use percent_encoding::{DecodeError, percent_decode_str};
use smithy_types::{OutOfMemory, Text};
use std::alloc::Global;

/// The text whose escape the input is, as `percent_encode` writes it; none where it is no text's. So
/// an escape in lower case, one of an unreserved byte, and a reserved byte that stands as it is are
/// none's. Takes memory (RFC 3986, sections 2.1 and 2.3).
#[tactic(auto, unfolding(crate::specs::Escapes::unescaped))]
pub fn percent_decode(alloc: Global, input: &str) -> Result<Option<Text>, OutOfMemory>
    ensures { IfOk result (λ text. text ≡ unescaped input.now) }
{
    let Some(text) = decoded(alloc, input)? else {
        return Ok(None);
    };
    let again = percent_encode(alloc, text.as_str())?;
    if again.as_str() == input {
        Ok(Some(text))
    } else {
        Ok(None)
    }
}

/// The text that the input is with each escape as its byte, whichever way it is written; none where
/// that is not UTF-8. Takes memory (RFC 3986, section 2.1).
pub fn decoded(alloc: Global, input: &str) -> Result<Option<Text>, OutOfMemory>
    ensures { IfOk result (λ text. text ≡ decoded input.now) }
{
    match percent_decode_str(input).decode_utf8(alloc) {
        Ok(text) => Ok(Some(Text::from_string(text.into_owned(alloc)?))),
        Err(DecodeError::OutOfMemory) => Err(OutOfMemory),
        Err(DecodeError::Utf8(_)) => Ok(None),
    }
}
