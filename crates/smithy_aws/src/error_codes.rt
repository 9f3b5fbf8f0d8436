// The code by which a response names its error.
ghost use Rattle.std.specs.Prelude.{◌≡◌, option_and_then, option_map, IfOk};
ghost use Rattle.json.specs.Value.{value_view};
ghost use Rattle.smithy_wire.specs.WireText.{json_in};
ghost use Rattle.smithy_aws.specs.ErrorCodes.{code_in, error_code, field_text};

use json::{Scratch, Value};
use smithy_http::Response;
use smithy_json::JsonError;
use smithy_types::{OutOfMemory, Text};
use smithy_wire::json_in;
use std::alloc::Global;

/// The code of a response's error as the service tells it: the first value of the header `x-amzn-errortype`, else the text
/// in the body's field `__type`, else that in its field `code` (Smithy, AWS restJson1 and AWS JSON protocols, operation error
/// serialization). None where none of them is there; a body that is no JSON has no fields. `sanitize_error_code` gives the
/// shape's name in it. Takes memory for the body's value and for a copy of the code.
pub fn error_code(alloc: Global, response: &Response) -> Result<Option<Text>, OutOfMemory>
    ensures { IfOk result (λ code. code ≡ error_code response.now) }
{
    match response.headers().get("x-amzn-errortype") {
        Some(code) => Ok(Some(Text::from_str(alloc, code)?)),
        None => {
            let mut scratch = Scratch::new(alloc);
            code_in_body(alloc, response.body_bytes(), &mut scratch)
        }
    }
}

// The code in a body. It is no part of its caller, so that the scratch is not moved.
#[inline(never)]
fn code_in_body(
    alloc: Global,
    body: &[u8],
    scratch: &mut Scratch,
) -> Result<Option<Text>, OutOfMemory>
    ensures { IfOk result (λ code. code ≡ option_and_then code_in (json_in body.now)) }
{
    match json_in(alloc, body, scratch) {
        Ok(value) => copied(alloc, code_in(&value)),
        Err(JsonError::Unreadable) => Ok(None),
        Err(JsonError::OutOfMemory) => Err(OutOfMemory),
    }
}

// The code in a value.
fn code_in<'v>(value: &Value<'v>) -> Option<&'v str>
    ensures { option_map (λ t. t.now) result ≡ code_in (value_view value.now) }
{
    match field_text(value, "__type") {
        Some(code) => Some(code),
        None => field_text(value, "code"),
    }
}

// The text of an object's last field of this name.
fn field_text<'v>(value: &Value<'v>, name: &str) -> Option<&'v str>
    ensures { option_map (λ t. t.now) result ≡ field_text name.now (value_view value.now) }
{
    value.get(name)?.as_str()
}

// A copy of a text, if there is one.
fn copied(alloc: Global, text: Option<&str>) -> Result<Option<Text>, OutOfMemory>
    ensures { IfOk result (λ copy. copy ≡ option_map (λ t. t.now) text.entry) }
{
    match text {
        Some(text) => Ok(Some(Text::from_str(alloc, text)?)),
        None => Ok(None),
    }
}
