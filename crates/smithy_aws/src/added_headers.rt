// The headers that requests have beside those of their members.
ghost use Rattle.std.specs.Prelude.{◌≡◌, ◌++◌, ◌∷◌, [], IsTrue, OnOk, is_some};
ghost use Rattle.std.specs.Str.{str_to_ascii_lowercase};
ghost use Rattle.smithy_types.specs.Grammars.{is_token, is_header_value};
ghost use Rattle.smithy_types.specs.Texts.{found};
ghost use Rattle.smithy_binding.specs.Placing.{with_default, with_defaults};
ghost use Rattle.smithy_binding.specs.Refusing.{Says};
ghost use Rattle.smithy_aws.specs.Added.{no_target, with_call, with_mode};
ghost use Rattle.smithy_aws.specs.views.Calls.{Becomes};
ghost use Rattle.smithy_aws.specs.views.Sent.{with_length};

use smithy_http::{Headers, HttpError};
use smithy_serde::{OmitFlags, SerdeError};
use smithy_types::{OutOfMemory, is_header_value};
use std::alloc::Global;

// Whether a header of this name stands.
fn has_name(headers: &Headers, name: &str) -> bool
    ensures { result ≡ is_some (found name.now headers.now) }
{
    for (own, _) in headers.iter_bytes() {
        if own == name {
            return true;
        }
    }
    false
}

// Adds a header behind the others.
fn append(headers: &mut Headers, name: &str, value: &str) -> Result<(), OutOfMemory>
    requires token { IsTrue (is_token name.now) }
    requires lower { str_to_ascii_lowercase name.now ≡ name.now }
    requires value { IsTrue (is_header_value value.now) }
    ensures { OnOk result (headers.new ≡ headers.old ++ (name.now, value.now) ∷ []) }
{
    match headers.append(name, value.as_bytes()) {
        Ok(()) => Ok(()),
        Err(HttpError::Name) => unreachable!(),
        Err(HttpError::Value) => unreachable!(),
        Err(_) => Err(OutOfMemory),
    }
}

// Adds a header, where it is wanted and none of its name stands.
fn append_default(
    headers: &mut Headers,
    wanted: bool,
    name: &str,
    value: &str,
) -> Result<(), OutOfMemory>
    requires token { IsTrue (is_token name.now) }
    requires lower { str_to_ascii_lowercase name.now ≡ name.now }
    requires value { IsTrue (is_header_value value.now) }
    ensures { OnOk result (headers.new ≡ with_default wanted name.now value.now headers.old) }
{
    if !wanted || has_name(headers, name) {
        return Ok(());
    }
    append(headers, name, value)
}

// Adds the length.
fn append_length(
    alloc: Global,
    headers: &mut Headers,
    wanted: bool,
    length: usize,
) -> Result<(), OutOfMemory>
    ensures { OnOk result (headers.new ≡ with_length wanted length headers.old) }
{
    let text = format!(in alloc; "{length}")?;
    append_default(headers, wanted, "content-length", text.as_str())
}

/// Adds the content type of a body of so many bytes where it has one (RFC 7231, section 3.1.1.5), and the length there and where it
/// is not empty (RFC 7230, section 3.3.2), each unless it is to be left out or such a name stands. Takes memory.
pub(crate) fn add_defaults(
    alloc: Global,
    headers: &mut Headers,
    content_type: &str,
    has_type: bool,
    length: usize,
    omit: OmitFlags,
) -> Result<(), OutOfMemory>
    requires { IsTrue (is_header_value content_type.now) }
    ensures { OnOk result
        (headers.new ≡ with_defaults content_type.now has_type length omit headers.old) }
{
    let wants_type = has_type && !omit.content_type;
    append_default(headers, wants_type, "content-type", content_type)?;
    let wants_length = (length != 0 || has_type) && !omit.content_length;
    append_length(alloc, headers, wants_length, length)
}

// Adds that errors are told as of the query protocol, where they are.
fn append_mode(headers: &mut Headers, is_query_compatible: bool) -> Result<(), OutOfMemory>
    ensures { OnOk result (headers.new ≡ with_mode is_query_compatible headers.old) }
{
    if !is_query_compatible {
        return Ok(());
    }
    append(headers, "x-amzn-query-mode", "true")
}

// No header can have the target.
fn no_target(alloc: Global) -> SerdeError
    ensures { Says result no_target }
{
    SerdeError::invalid_input(
        alloc,
        "cannot serialize target to header `x-amz-target`: invalid header value",
    )
}

/// Adds the target of a call, and for a service that is query compatible that errors are told so (Smithy, AWS JSON protocols).
/// `InvalidInput` where no header can have the target (RFC 7230, section 3.2). Takes memory.
pub(crate) fn add_call_headers(
    alloc: Global,
    headers: &mut Headers,
    target: &str,
    is_query_compatible: bool,
) -> Result<(), SerdeError>
    ensures { Becomes headers.new result (with_call target.now is_query_compatible headers.old) }
{
    if !is_header_value(target.as_bytes()) {
        return Err(no_target(alloc));
    }
    append(headers, "x-amz-target", target)?;
    Ok(append_mode(headers, is_query_compatible)?)
}
