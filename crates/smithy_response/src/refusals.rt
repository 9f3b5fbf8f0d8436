// The refusals of reading a response.
ghost use Rattle.std.specs.Prelude.{◌≡◌, ◌++◌, codes, IfOk};
ghost use Rattle.smithy_response.specs.Words.{parse_refusal, no_value};
ghost use Rattle.smithy_http.specs.declared.error.HttpError.TheVariants as http_error;
ghost use Rattle.smithy_serde.specs.declared.error.SerdeError.TheVariants as refusal;
ghost use Rattle.smithy_serde.specs.HeldReads.{status_refusal, prefix_refusal, raw_refusal, element_refusal, header_refusal};
ghost use Rattle.smithy_serde.specs.Refusals.{IsRefusal};
ghost use Rattle.smithy_serde.specs.Requests.{requested, plain_word};
ghost use Rattle.smithy_response.specs.GivenScalars.{item_refusal, date_text};
ghost use Rattle.smithy_response.specs.Routes.{not_buffered};
ghost use Rattle.smithy_response.specs.views.Transporting.{nothing_at_hand};
ghost use Rattle.smithy_response.specs.Settling.{header_context, prefix_context, in_header_for, behind_prefix_for};

use smithy_http::{HttpError, ListFault};
use smithy_ids::ShapeType;
use smithy_serde::{SerdeError, kind_word};
use smithy_types::{OutOfMemory, Text};
use std::alloc::Global;

// Three texts, one behind the other.
fn joined(alloc: Global, before: &str, what: &str, after: &str) -> Result<Text, OutOfMemory>
    ensures { IfOk result (λ text. text ≡ before.now ++ what.now ++ after.now) }
{
    Ok(Text::from_string(format!(in alloc; "{before}{what}{after}")?))
}

/// A header could not be parsed.
pub(crate) fn not_parsed(alloc: Global, error: HttpError) -> SerdeError
    ensures refused { IsRefusal (parse_refusal error) result }
    ensures memory { error ≡ http_error.OutOfMemory → result ≡ refusal.OutOfMemory }
{
    if matches!(error, HttpError::OutOfMemory) {
        return SerdeError::OutOfMemory;
    }
    match format!(in alloc; "{error}") {
        Ok(text) => SerdeError::invalid_input(alloc, text.as_str()),
        Err(_) => SerdeError::OutOfMemory,
    }
}

/// A list item spells no value of the kind.
pub(crate) fn no_item(alloc: Global, kind: ShapeType) -> SerdeError
    ensures { IsRefusal (item_refusal kind) result }
{
    match kind {
        ShapeType::Blob => SerdeError::invalid_input(alloc, "failed to decode base64"),
        _ => not_parsed(alloc, HttpError::List(ListFault::Item)),
    }
}

// What the read of a kind asks for, without an article.
fn plain_word(kind: ShapeType) -> &'static str
    ensures { result.now ≡ plain_word kind }
{
    match kind {
        ShapeType::BigInteger => "big integer",
        ShapeType::BigDecimal => "big decimal",
        _ => kind_word(kind),
    }
}

/// What the read of a kind asks for.
pub(crate) fn requested(alloc: Global, kind: ShapeType) -> Result<Text, OutOfMemory>
    ensures { IfOk result (λ text. text ≡ requested kind) }
{
    match kind {
        ShapeType::Integer => Text::from_str(alloc, "an integer"),
        _ => {
            let word = plain_word(kind);
            Ok(Text::from_string(format!(in alloc; "a {word}")?))
        }
    }
}

// The text, then what the kind's read asks for, then that it was requested.
fn request_text(alloc: Global, before: &str, kind: ShapeType) -> Result<Text, OutOfMemory>
    ensures { IfOk result (λ text. text ≡ before.now ++ requested kind ++ codes " was requested") }
{
    let what = requested(alloc, kind)?;
    joined(alloc, before, what.as_str(), " was requested")
}

/// Another kind than an integer was requested of the status.
pub(crate) fn status_refusal(alloc: Global, kind: ShapeType) -> SerdeError
    ensures { IsRefusal (status_refusal kind) result }
{
    match request_text(
        alloc,
        "@httpResponseCode must target an integer, but ",
        kind,
    ) {
        Ok(message) => SerdeError::InvalidInput { message },
        Err(_) => SerdeError::OutOfMemory,
    }
}

/// Another kind than a map was requested of the headers behind a prefix.
pub(crate) fn prefix_refusal(alloc: Global, kind: ShapeType) -> SerdeError
    ensures { IsRefusal (prefix_refusal kind) result }
{
    match request_text(alloc, "@httpPrefixHeaders must target a map, but ", kind) {
        Ok(message) => SerdeError::InvalidInput { message },
        Err(_) => SerdeError::OutOfMemory,
    }
}

/// Another kind than a text or bytes was requested of a raw payload.
pub(crate) fn raw_refusal(alloc: Global, kind: ShapeType) -> SerdeError
    ensures { IsRefusal (raw_refusal kind) result }
{
    match request_text(alloc, "a raw @httpPayload is a blob or string, but ", kind) {
        Ok(message) => SerdeError::InvalidInput { message },
        Err(_) => SerdeError::OutOfMemory,
    }
}

/// A map or a structure was requested of a header.
pub(crate) fn header_refusal(alloc: Global, kind: ShapeType) -> SerdeError
    ensures { IsRefusal (header_refusal kind) result }
{
    match kind {
        ShapeType::Map => {
            SerdeError::unsupported(alloc, "a map cannot be bound to a single HTTP header")
        }
        _ => SerdeError::unsupported(alloc, "a structure cannot be bound to an HTTP header"),
    }
}

/// A container was requested of an element of a header list.
pub(crate) fn element_refusal(alloc: Global, kind: ShapeType) -> SerdeError
    ensures { IsRefusal (element_refusal kind) result }
{
    match kind {
        ShapeType::List => {
            SerdeError::unsupported(alloc, "a header-bound list cannot nest another list")
        }
        ShapeType::Map => SerdeError::unsupported(
            alloc,
            "a map cannot be an element of a header-bound list",
        ),
        _ => SerdeError::unsupported(
            alloc,
            "a structure cannot be an element of a header-bound list",
        ),
    }
}

// The text of a date that was read as another kind.
fn date_text(alloc: Global, kind: ShapeType) -> Result<Text, OutOfMemory>
    ensures { IfOk result (λ text. text ≡ date_text kind) }
{
    let what = requested(alloc, kind)?;
    joined(
        alloc,
        "expected ",
        what.as_str(),
        " but the header list element was a timestamp",
    )
}

/// Another kind than a timestamp was requested of a date.
pub(crate) fn date_refusal(alloc: Global, kind: ShapeType) -> SerdeError
    ensures { IsRefusal (refusal.InvalidInput (date_text kind)) result }
{
    match date_text(alloc, kind) {
        Ok(message) => SerdeError::InvalidInput { message },
        Err(_) => SerdeError::OutOfMemory,
    }
}

// The text of a header without an item.
fn no_value_text(alloc: Global, kind: ShapeType, name: &str) -> Result<Text, OutOfMemory>
    ensures { IfOk result (λ text. refusal.InvalidInput text ≡ no_value kind name.now) }
{
    let what = requested(alloc, kind)?;
    let head = joined(alloc, "expected ", what.as_str(), " in header `")?;
    joined(alloc, head.as_str(), name, "` but it held no value")
}

/// The header has no item.
pub(crate) fn no_value(alloc: Global, kind: ShapeType, name: &str) -> SerdeError
    ensures { IsRefusal (no_value kind name.now) result }
{
    match no_value_text(alloc, kind, name) {
        Ok(message) => SerdeError::InvalidInput { message },
        Err(_) => SerdeError::OutOfMemory,
    }
}

/// The member's header could not be read.
pub(crate) fn header_wrapped(
    alloc: Global,
    member: &str,
    name: &str,
    cause: &SerdeError,
) -> SerdeError
    ensures { IsRefusal (in_header_for member.now name.now cause.now) result }
{
    match format!(in alloc; "{cause}") {
        Ok(what) => in_header(alloc, member, name, what.as_str()),
        Err(_) => SerdeError::OutOfMemory,
    }
}

// The member's header could not be read, for this cause.
fn in_header(alloc: Global, member: &str, name: &str, what: &str) -> SerdeError
    ensures { IsRefusal (refusal.InvalidInput (header_context member.now name.now what.now)) result }
{
    match format!(in alloc; "failed to parse {member} from header `{name}`: {what}") {
        Ok(text) => SerdeError::invalid_input(alloc, text.as_str()),
        Err(_) => SerdeError::OutOfMemory,
    }
}

/// The headers behind the member's prefix could not be read.
pub(crate) fn prefix_wrapped(
    alloc: Global,
    member: &str,
    prefix: &str,
    cause: &SerdeError,
) -> SerdeError
    ensures { IsRefusal (behind_prefix_for member.now prefix.now cause.now) result }
{
    match format!(in alloc; "{cause}") {
        Ok(what) => behind_prefix(alloc, member, prefix, what.as_str()),
        Err(_) => SerdeError::OutOfMemory,
    }
}

// The headers behind the member's prefix could not be read, for this cause.
fn behind_prefix(alloc: Global, member: &str, prefix: &str, what: &str) -> SerdeError
    ensures { IsRefusal (refusal.InvalidInput (prefix_context member.now prefix.now what.now)) result }
{
    match format!(in alloc; "failed to parse {member} from prefix header `{prefix}`: {what}") {
        Ok(text) => SerdeError::invalid_input(alloc, text.as_str()),
        Err(_) => SerdeError::OutOfMemory,
    }
}

/// The payload is not there to be read.
pub(crate) fn not_buffered(alloc: Global, member: &str) -> SerdeError
    ensures { IsRefusal (not_buffered member.now) result }
{
    match format!(in alloc;
        "member `{member}` has a non-streaming @httpPayload but the response body was not buffered"
    ) {
        Ok(text) => SerdeError::invalid_input(alloc, text.as_str()),
        Err(_) => SerdeError::OutOfMemory,
    }
}

/// Nothing is at hand.
pub(crate) fn nothing_at_hand(alloc: Global) -> SerdeError
    ensures { IsRefusal nothing_at_hand result }
{
    SerdeError::invalid_input(alloc, "no value is at hand")
}
