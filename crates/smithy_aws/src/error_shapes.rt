// The error that a response has.
ghost use Rattle.std.specs.Prelude.{◌≡◌, Some};
ghost use Rattle.smithy_schema.specs.Places.{place_of};
ghost use Rattle.smithy_serde.specs.ReadCalls.{Gives};
ghost use Rattle.smithy_aws.specs.ErrorShapes.{error_if_named, error_in, error_named, is_success};

use crate::error_codes::error_code;
use smithy_http::Response;
use smithy_registry::{ComposedRegistry, sanitize_error_code};
use smithy_schema::SchemaIndex;
use smithy_serde::{SerdeError, ShapeReader};
use std::alloc::Global;

/// The place of the error that a response has, None where its status is 200 to 299: that of the code which the response tells
/// (`error_code`), of the first registry that has one (Smithy, AWS restJson1 and AWS JSON protocols, operation error
/// serialization). It refuses with `InvalidInput` where no code is told, and with `UnknownMember` and the sanitized code where no
/// error has it. Takes memory.
pub fn response_error<R: ShapeReader + Drop>(
    alloc: Global,
    response: &Response,
    errors: ComposedRegistry<'_, R>,
) -> Result<Option<SchemaIndex>, SerdeError>
    ensures { Gives place_of (Some (error_in errors.entry response.now)) result }
{
    if is_success(response.status()) {
        return Ok(None);
    }
    let code = error_code(alloc, response)?;
    match code {
        Some(code) => Ok(Some(error_named(alloc, code.as_str(), errors)?)),
        None => Err(SerdeError::invalid_input(alloc, "the response names no error")),
    }
}

fn is_success(status: u16) -> bool
    ensures { result ≡ is_success status }
{
    matches!(status, 200..=299)
}

// The place of the error of a code.
fn error_named<R: ShapeReader + Drop>(
    alloc: Global,
    code: &str,
    errors: ComposedRegistry<'_, R>,
) -> Result<SchemaIndex, SerdeError>
    ensures { Gives (λ place. place.0) (Some (error_named errors.entry code.now)) result }
{
    match errors.entry_for_error_code(code) {
        Some(entry) => Ok(entry.schema()),
        None => Err(SerdeError::unknown_member(alloc, sanitize_error_code(code))),
    }
}
