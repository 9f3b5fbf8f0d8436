// Schemas that a response can be read by (Smithy, HTTP protocol bindings).
ghost use Rattle.std.specs.Prelude.{◌≡◌, IfOk};
ghost use Rattle.smithy_binding.specs.Words.{schema_of};
ghost use Rattle.smithy_binding.specs.CheckedOutput.{checked_output};
ghost use Rattle.smithy_binding.specs.views.Checking.{shown, are_sound_response, is_sound_output};

use crate::direction::Direction;
use crate::members::{Counted, are_sound_members, count, has_sound_payload, named_members};
use crate::name_check::have_sound_headers;
use smithy_schema::SchemaRef;
use smithy_types::OutOfMemory;
use std::alloc::{AllocError, Global};

// What needs no memory.
fn are_sound(members: &[SchemaRef<'_>]) -> bool
    ensures { result ≡ are_sound_response (shown members.now) }
{
    are_sound_members(members, Direction::Response)
        && has_sound_payload(members, Direction::Response)
        && count(members, Counted::Prefix) <= 1
        && count(members, Counted::ResponseCode) <= 1
}

// What is asked of a structure whose members are defined and have distinct names.
fn are_checked(alloc: Global, members: &[SchemaRef<'_>]) -> Result<bool, AllocError>
    ensures { IfOk result (λ b. b ≡ is_sound_output (shown members.now)) }
{
    if !are_sound(members) {
        return Ok(false);
    }
    have_sound_headers(alloc, members)
}

/// Whether a response can be read by the schema: a structure whose cited nodes are defined, with distinct names,
/// members of kinds that their bindings in a response take, at most one payload and nothing unbound beside it, at
/// most one prefix map, from texts to texts, distinct header names that no prefix begins, and at most one response
/// code, an Integer (Smithy, HTTP protocol bindings). The bindings of a request are not looked at: a member that has
/// no other stands in the body. Linear in the number of members, but for the names, which are sorted. Takes memory.
pub fn checked_output(alloc: Global, schema: SchemaRef<'_>) -> Result<bool, OutOfMemory>
    ensures { IfOk result (λ b. b ≡ checked_output (schema_of schema.entry)) }
{
    match named_members(alloc, schema)? {
        Some(members) => Ok(are_checked(alloc, members.as_slice())?),
        None => Ok(false),
    }
}
