// A header of a member (Smithy, HTTP protocol bindings, httpHeader and httpPrefixHeaders).
ghost use Rattle.std.specs.Prelude.{◌≡◌};
ghost use Rattle.smithy_binding.specs.Words.{cow_str_bytes, str_to_ascii_lowercase};
ghost use Rattle.smithy_binding.specs.views.PutHeaders.{PutsHeader};

use crate::refusal::wrong_header;
use smithy_http::{Headers, HttpError};
use smithy_schema::SchemaRef;
use smithy_serde::SerdeError;
use smithy_types::Text;
use std::alloc::Global;
use std::borrow::CowStr;

/// Puts a header of the member, in place of an earlier one with its name; the name and an owned text are taken over.
/// Condition: the name is in lower case.
///
/// `InvalidInput` where the name is no token, or else the value has a byte that no header value has (RFC 7230, section 3.2).
/// Takes memory.
pub fn put_header(
    alloc: Global,
    member: SchemaRef<'_>,
    headers: &mut Headers,
    name: Text,
    text: CowStr<'_, Global>,
) -> Result<(), SerdeError>
    requires { str_to_ascii_lowercase name ≡ name }
    ensures { PutsHeader member.entry name (cow_str_bytes text.entry) headers.old headers.new result }
{
    match headers.insert_lower(name, text) {
        Ok(()) => Ok(()),
        Err(HttpError::Name) => Err(wrong_header(alloc, member, "invalid header name")),
        Err(HttpError::Value) => Err(wrong_header(alloc, member, "invalid header value")),
        Err(_) => Err(SerdeError::OutOfMemory),
    }
}
