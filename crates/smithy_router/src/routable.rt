// Which templates have a route.
ghost use Rattle.std.specs.Prelude.{◌≡◌, ◌==◌, ◌++◌, IfOk, OnOk, map, string_bytes};
ghost use Rattle.std.specs.List.{list_any};
ghost use Rattle.smithy_types.specs.Texts.{has_byte};
ghost use Rattle.smithy_router.specs.Gives.{Gives};
ghost use Rattle.smithy_router.specs.Seen.{part_seen, parts_seen, query_seen};
ghost use Rattle.smithy_router.specs.Templates.{is_named, is_sound_part, are_sound, filled_part, filled_path, is_sound, sound_parts_of};

use crate::error::RouteError;
use crate::template::{TemplatePart, has_open, parts_of};
use smithy_types::{OutOfMemory, legal_target};
use std::alloc::Global;

impl TemplatePart<'_> {
    // Whether the part is a hole of this name.
    fn is_named(&self, name: &str) -> bool
        ensures { result ≡ is_named name.now (part_seen self.now) }
    {
        match self {
            TemplatePart::Fixed(_) => false,
            TemplatePart::Bound { name: own, .. } => name == *own,
        }
    }

    // Whether the part is sound before those behind it.
    fn is_sound(&self, behind: &[TemplatePart]) -> bool
        ensures { result ≡ is_sound_part (part_seen self.now) (map part_seen behind.now) }
    {
        match self {
            TemplatePart::Fixed(_) => true,
            TemplatePart::Bound { name, is_greedy } => {
                !name.is_empty() && !has_name(behind, *name) && (!*is_greedy || behind.is_empty())
            }
        }
    }

    // The part with `a` in a hole.
    fn filled(&self) -> &str
        ensures { result.now ≡ filled_part (part_seen self.now) }
    {
        match self {
            TemplatePart::Fixed(text) => *text,
            TemplatePart::Bound { .. } => "a",
        }
    }
}

// Whether one of the parts is a hole of this name.
fn has_name(parts: &[TemplatePart], name: &str) -> bool
    ensures { result ≡ list_any (is_named name.now) (map part_seen parts.now) }
{
    for part in parts {
        if part.is_named(name) {
            return true;
        }
    }
    false
}

// Whether each part is sound before those behind it.
fn are_sound(parts: &[TemplatePart]) -> bool
    ensures { result ≡ are_sound (map part_seen parts.now) }
{
    for (i, part) in parts.iter().enumerate() {
        if !part.is_sound(&parts[i + 1..]) {
            return false;
        }
    }
    true
}

// The path with `a` in each hole.
fn filled_path(alloc: Global, parts: &[TemplatePart]) -> Result<String, OutOfMemory>
    ensures { IfOk result (λ t. string_bytes t ≡ filled_path (map part_seen parts.now)) }
{
    let mut path = String::new(alloc);
    for part in parts {
        path.push_str("/")?;
        path.push_str(part.filled())?;
    }
    Ok(path)
}

// Adds a query with its `?`, if there is one.
fn push_query(target: &mut String, query: Option<&str>) -> Result<(), OutOfMemory>
    ensures { OnOk result (string_bytes target.new ≡ string_bytes target.old ++ query_seen query.entry) }
{
    match query {
        Some(text) => {
            target.push_str("?")?;
            target.push_str(text)?;
            Ok(())
        }
        None => Ok(()),
    }
}

// The target with `a` in each hole.
fn filled(alloc: Global, parts: &[TemplatePart], query: Option<&str>) -> Result<String, OutOfMemory>
    ensures { IfOk result
        (λ t. string_bytes t ≡ filled_path (parts_seen parts.now) ++ query_seen query.entry) }
{
    let mut target = filled_path(alloc, parts)?;
    push_query(&mut target, query)?;
    Ok(target)
}

// Whether a hole stands in the query.
fn has_hole(query: Option<&str>) -> bool
    ensures { result ≡ has_byte 123 (query_seen query.entry) }
{
    match query {
        Some(text) => has_open(text),
        None => false,
    }
}

// Whether the parts are those of a routable template with this query.
fn is_sound(alloc: Global, parts: &[TemplatePart], query: Option<&str>) -> Result<bool, OutOfMemory>
    ensures { IfOk result (λ b. b ≡ is_sound (map part_seen parts.now) (query_seen query.entry)) }
{
    if has_hole(query) {
        return Ok(false);
    }
    if !are_sound(parts) {
        return Ok(false);
    }
    let target = filled(alloc, parts, query)?;
    Ok(legal_target(target.as_str()))
}

/// The parts of a routable template of this path behind its first `/`, and this query. Takes memory for the list, and for
/// the target with `a` in each hole.
pub fn sound_parts<'t>(
    alloc: Global,
    path: &'t str,
    query: Option<&str>,
) -> Result<Vec<TemplatePart<'t>>, RouteError>
    ensures { Gives (λ v. parts_seen v.items) (sound_parts_of (query_seen query.entry) path.now) result }
{
    let parts = parts_of(alloc, path)?;
    if !is_sound(alloc, &parts, query)? {
        return Err(RouteError::Template);
    }
    Ok(parts)
}
