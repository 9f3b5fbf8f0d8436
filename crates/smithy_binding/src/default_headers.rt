// The headers that a message has by default.
ghost use Rattle.std.specs.Prelude.{◌≡◌, ◌++◌, ◌∷◌, [], IsTrue, OnOk, is_some, codes, decimal};
ghost use Rattle.smithy_binding.specs.Words.{str_to_ascii_lowercase, is_token, is_header_value, found};
ghost use Rattle.smithy_binding.specs.Placing.{with_default, with_defaults};

use smithy_http::{Headers, HttpError};
use smithy_serde::OmitFlags;
use smithy_types::OutOfMemory;
use std::alloc::Global;

// Whether a header of this name stands.
fn has_name(headers: &Headers, name: &str) -> bool
    ensures { result ≡ is_some (found name.now headers.now) }
{
    for (own, _) in headers.iter_bytes() {
        if own == name {
            return true;
        }
    }
    false
}

// Adds a header behind the others.
fn append_default(headers: &mut Headers, name: &str, value: &str) -> Result<(), OutOfMemory>
    requires token { IsTrue (is_token name.now) }
    requires lower { str_to_ascii_lowercase name.now ≡ name.now }
    requires value { IsTrue (is_header_value value.now) }
    ensures { OnOk result (headers.new ≡ headers.old ++ (name.now, value.now) ∷ []) }
{
    match headers.append(name, value.as_bytes()) {
        Ok(()) => Ok(()),
        Err(HttpError::Name) => unreachable!(),
        Err(HttpError::Value) => unreachable!(),
        Err(_) => Err(OutOfMemory),
    }
}

// Adds the content type, where it is wanted and none stands.
fn add_content_type(headers: &mut Headers, wanted: bool, value: &str) -> Result<(), OutOfMemory>
    requires { IsTrue (is_header_value value.now) }
    ensures { OnOk result
        (headers.new ≡ with_default wanted (codes "content-type") value.now headers.old) }
{
    if !wanted || has_name(headers, "content-type") {
        return Ok(());
    }
    append_default(headers, "content-type", value)
}

// Adds the length, where it is wanted and none stands.
fn add_length(
    alloc: Global,
    headers: &mut Headers,
    wanted: bool,
    len: usize,
) -> Result<(), OutOfMemory>
    ensures { OnOk result
        (headers.new ≡ with_default wanted (codes "content-length") (decimal len) headers.old) }
{
    if !wanted || has_name(headers, "content-length") {
        return Ok(());
    }
    let text = format!(in alloc; "{len}")?;
    append_default(headers, "content-length", text.as_str())
}

/// Adds the content type where the body is the codec's (RFC 7231, section 3.1.1.5), and the length where it is or has
/// bytes (RFC 7230, section 3.3.2), each unless it is to be left out or such a name stands. Takes memory.
#[inline(always)]
pub fn add_defaults(
    alloc: Global,
    headers: &mut Headers,
    content_type: &str,
    is_codec: bool,
    length: usize,
    omit: OmitFlags,
) -> Result<(), OutOfMemory>
    requires { IsTrue (is_header_value content_type.now) }
    ensures { OnOk result
        (headers.new ≡ with_defaults content_type.now is_codec length omit headers.old) }
{
    let wants_type = is_codec && !omit.content_type;
    add_content_type(headers, wants_type, content_type)?;
    let wants_length = (length != 0 || is_codec) && !omit.content_length;
    add_length(alloc, headers, wants_length, length)
}
