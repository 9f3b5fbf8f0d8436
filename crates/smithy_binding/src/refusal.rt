// The refusals of placing a message.
ghost use Rattle.std.specs.Prelude.{◌≡◌};
ghost use Rattle.smithy_binding.specs.Words.{Table, schema_of, value_in, label_of};
ghost use Rattle.smithy_binding.specs.Faults.{wrong_kind, wrong_item_kind, wrong_header, header_words, missing_hole, too_long, not_legal, no_year, unmatched_key, no_member};
ghost use Rattle.smithy_binding.specs.ResponseCodes.{no_status};
ghost use Rattle.smithy_binding.specs.Refusing.{Says};

use crate::binding::name_of;
use smithy_ids::ShapeType;
use smithy_schema::SchemaRef;
use smithy_serde::{SerdeError, ShapeValue, kind_word};
use smithy_strings::YEAR_OUT_OF_RANGE;
use std::alloc::Global;

/// No member is the one that this node names.
pub fn unknown_member(alloc: Global, written: SchemaRef<'_>) -> SerdeError
    ensures { Says result (no_member (label_of (schema_of written.entry))) }
{
    match written.member_name() {
        Some(name) => SerdeError::unknown_member(alloc, name),
        None => SerdeError::unknown_member(alloc, written.shape_id().as_str()),
    }
}

/// The member is not of the value's kind.
pub fn wrong_kind(alloc: Global, member: SchemaRef<'_>, value: &ShapeValue) -> SerdeError
    ensures { (t : Table) →
        Says result (wrong_kind (schema_of member.entry) (value_in t value.now)) }
{
    let written = value.written_word();
    let name = name_of(member);
    let kind = kind_word(member.shape_type());
    match format!(in alloc; "cannot write {written} to member {name} of type {kind}") {
        Ok(text) => SerdeError::unsupported(alloc, text.as_str()),
        Err(_) => SerdeError::OutOfMemory,
    }
}

/// An element, key or value of the member is not of the kind of its node.
pub fn wrong_item(
    alloc: Global,
    member: SchemaRef<'_>,
    kind: ShapeType,
    value: &ShapeValue,
) -> SerdeError
    ensures { (t : Table) →
        Says result (wrong_item_kind (schema_of member.entry) kind (value_in t value.now)) }
{
    let written = value.written_word();
    let name = name_of(member);
    let word = kind_word(kind);
    match format!(in alloc;
        "cannot write {written} to an element of member {name} of type {word}"
    ) {
        Ok(text) => SerdeError::unsupported(alloc, text.as_str()),
        Err(_) => SerdeError::OutOfMemory,
    }
}

/// The member's map ends with a key.
pub fn unmatched_key(alloc: Global, member: SchemaRef<'_>) -> SerdeError
    ensures { Says result (unmatched_key (schema_of member.entry)) }
{
    let name = name_of(member);
    match format!(in alloc; "map member {name} ends with a key without a value") {
        Ok(text) => SerdeError::unsupported(alloc, text.as_str()),
        Err(_) => SerdeError::OutOfMemory,
    }
}

/// The value has no text: a time whose year is not in the calendar of its format.
pub fn no_year(alloc: Global) -> SerdeError
    ensures { Says result no_year }
{
    SerdeError::custom(alloc, YEAR_OUT_OF_RANGE)
}

// What was to be made, and the name or the prefix of the member's trait.
fn header_words<'t>(member: SchemaRef<'t>) -> (&'static str, &'t str)
    ensures words { result.0.now ≡ (header_words (schema_of member.entry)).0 }
    ensures given { result.1.now ≡ (header_words (schema_of member.entry)).1 }
{
    if let Some(header) = member.http_header() {
        return (" to header `", header.value());
    }
    match member.http_prefix_headers() {
        Some(prefix) => (" to headers with prefix `", prefix.value()),
        None => (" to headers with prefix `", ""),
    }
}

/// A header of the member has a name or a value that no header has.
pub fn wrong_header(alloc: Global, member: SchemaRef<'_>, what: &str) -> SerdeError
    ensures { Says result (wrong_header (schema_of member.entry) what.now) }
{
    let name = name_of(member);
    let (words, given) = header_words(member);
    match format!(in alloc; "cannot serialize {name}{words}{given}`: {what}") {
        Ok(text) => SerdeError::invalid_input(alloc, text.as_str()),
        Err(_) => SerdeError::OutOfMemory,
    }
}

/// The response code is not of three digits.
pub fn no_status(alloc: Global) -> SerdeError
    ensures { Says result no_status }
{
    SerdeError::custom(alloc, "response code outside 100 to 999")
}

/// No label has a text for the hole.
pub fn missing_hole(alloc: Global, hole: &str) -> SerdeError
    ensures { Says result (missing_hole hole.now) }
{
    match format!(in alloc; "{hole} was missing: cannot be empty or unset") {
        Ok(text) => SerdeError::invalid_input(alloc, text.as_str()),
        Err(_) => SerdeError::OutOfMemory,
    }
}

/// The target is longer than a target may be.
pub fn too_long(alloc: Global) -> SerdeError
    ensures { Says result too_long }
{
    SerdeError::custom(alloc, "invalid endpoint URI: longer than 65534 bytes")
}

/// The target is none.
pub fn not_legal(alloc: Global) -> SerdeError
    ensures { Says result not_legal }
{
    SerdeError::custom(alloc, "invalid endpoint URI: not a legal request target")
}
