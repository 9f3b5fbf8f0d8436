// Templates cut into the parts of their path (Smithy, HTTP protocol bindings, http trait, uri).
ghost use Rattle.std.specs.Prelude.{◌≡◌, ◌==◌, map, option_map, option_and_then};
ghost use Rattle.smithy_types.specs.Texts.{has_byte};
ghost use Rattle.smithy_schema.specs.Templates.{hole_of};
ghost use Rattle.smithy_router.specs.Gives.{Gives};
ghost use Rattle.smithy_router.specs.Seen.{part_seen, text_seen, IsGreedyName};
ghost use Rattle.smithy_router.specs.Templates.{Bound, before_close, inside_braces, part_of, parts_of};

use crate::error::RouteError;
use crate::path::next_segment;
use std::alloc::Global;

/// A segment of a template: a literal or a hole, which is the whole segment.
#[derive(Drop)]
pub enum TemplatePart<'t> {
    Fixed(&'t str),
    Bound { name: &'t str, is_greedy: bool },
}

// The name of a hole that is greedy.
fn greedy_name<'t>(hole: &'t str) -> Option<&'t str>
    ensures { IsGreedyName hole.now result }
{
    hole.strip_suffix('+')
}

// The hole of this text.
fn bound<'t>(hole: &'t str) -> TemplatePart<'t>
    ensures { part_seen result ≡ Bound (hole_of hole.now) }
{
    match greedy_name(hole) {
        Some(name) => TemplatePart::Bound {
            name,
            is_greedy: true,
        },
        None => TemplatePart::Bound {
            name: hole,
            is_greedy: false,
        },
    }
}

// What stands before a `}` at the end.
fn before_close<'t>(text: &'t str) -> Option<&'t str>
    ensures { text_seen result ≡ before_close text.now }
{
    text.strip_suffix('}')
}

// What stands behind a `{` at the start.
fn behind_open<'t>(text: &'t str) -> Option<&'t str>
    ensures { inside_braces text.now ≡ option_and_then before_close (text_seen result) }
{
    text.strip_prefix("{")
}

// What stands between a `{` at the start and a `}` at the end.
fn inside_braces<'t>(segment: &'t str) -> Option<&'t str>
    ensures { text_seen result ≡ inside_braces segment.now }
{
    match behind_open(segment) {
        Some(rest) => before_close(rest),
        None => None,
    }
}

/// Whether the text has a `{`. Takes no memory.
pub fn has_open(text: &str) -> bool
    ensures { result ≡ has_byte 123 text.now }
{
    text.as_bytes().iter().any(|b| *b == b'{')
}

// Whether the text has a `}`.
fn has_close(text: &str) -> bool
    ensures { result ≡ has_byte 125 text.now }
{
    text.as_bytes().iter().any(|b| *b == b'}')
}

// A segment without a `{` is a literal, one with braces at both ends a hole.
fn part_of<'t>(segment: &'t str) -> Option<TemplatePart<'t>>
    ensures { option_map part_seen result ≡ part_of segment.now }
{
    if !has_open(segment) {
        return Some(TemplatePart::Fixed(segment));
    }
    match inside_braces(segment) {
        Some(name) => {
            if has_close(name) {
                None
            } else {
                Some(bound(name))
            }
        }
        None => None,
    }
}

/// The parts of a path, refused where a segment is none. Takes memory for the list.
#[tactic(auto, using(crate::proofs::TemplateLemmas::parsing))]
pub fn parts_of<'t>(alloc: Global, path: &'t str) -> Result<Vec<TemplatePart<'t>>, RouteError>
    ensures { Gives (λ v. map part_seen v.items) (parts_of path.now) result }
{
    let mut parts = Vec::new(alloc);
    let mut rest = Some(path);
    while let Some((segment, behind)) = next_segment(rest) {
        let Some(part) = part_of(segment) else {
            return Err(RouteError::Template);
        };
        parts.push(part)?;
        rest = behind;
    }
    Ok(parts)
}
