// The route of a template.
ghost use Rattle.std.specs.Prelude.{◌≡◌, IfOk, OnOk, map, string_bytes};
ghost use Rattle.smithy_router.specs.Gives.{Gives};
ghost use Rattle.smithy_router.specs.Seen.{part_seen, parts_left, route_seen, segment_seen, segments_seen, with_part, IsRouteWith};
ghost use Rattle.smithy_router.specs.Templates.{segments_in, is_greedy_hole, has_greedy, routable_parts, route_of};

use crate::error::RouteError;
use crate::query::next_piece;
use crate::routable::sound_parts;
use crate::route::{StoredRoute, cut_target};
use crate::segment::PathSegment;
use crate::template::TemplatePart;
use smithy_types::OutOfMemory;
use std::alloc::Global;

impl TemplatePart<'_> {
    // Whether the part is a greedy hole.
    fn is_greedy(&self) -> bool
        ensures { result ≡ is_greedy_hole (part_seen self.now) }
    {
        match self {
            TemplatePart::Fixed(_) => false,
            TemplatePart::Bound { is_greedy, .. } => *is_greedy,
        }
    }
}

// Adds the segment of a part, unless it is a greedy hole.
fn push_segment(
    alloc: Global,
    segments: &mut Vec<PathSegment>,
    part: &TemplatePart,
) -> Result<(), OutOfMemory>
    ensures { OnOk result
        (segments_seen segments.new.items ≡ with_part segments.old.items (part_seen part.now)) }
{
    match part {
        TemplatePart::Fixed(text) => {
            segments.push(PathSegment::Literal(String::from_str(alloc, *text)?))?;
            Ok(())
        }
        TemplatePart::Bound { is_greedy, .. } => {
            if *is_greedy {
                return Ok(());
            }
            segments.push(PathSegment::Hole)?;
            Ok(())
        }
    }
}

// The segments before a greedy end.
#[tactic(auto, using(crate::proofs::TemplateLemmas::segmenting))]
fn segments_in(alloc: Global, parts: &[TemplatePart]) -> Result<Vec<PathSegment>, OutOfMemory>
    ensures { IfOk result (λ v. map segment_seen v.items ≡ segments_in (map part_seen parts.now)) }
{
    let mut segments = Vec::new(alloc);
    for part in parts {
        push_segment(alloc, &mut segments, part)?;
    }
    Ok(segments)
}

// Whether some part is a greedy hole.
fn has_greedy(parts: &[TemplatePart]) -> bool
    ensures { result ≡ has_greedy (map part_seen parts.now) }
{
    for part in parts {
        if part.is_greedy() {
            return true;
        }
    }
    false
}

// Copies of the pieces of a query.
fn pieces_of(alloc: Global, query: Option<&str>) -> Result<Vec<String>, OutOfMemory>
    ensures { IfOk result (λ v. map string_bytes v.items ≡ parts_left 38 query.entry) }
{
    let mut pieces = Vec::new(alloc);
    let mut rest = query;
    while let Some((piece, behind)) = next_piece(rest) {
        pieces.push(String::from_str(alloc, piece)?)?;
        rest = behind;
    }
    Ok(pieces)
}

// The route of these parts and this query.
fn route_with(
    alloc: Global,
    method: &str,
    query: Option<&str>,
    parts: &[TemplatePart],
) -> Result<StoredRoute, OutOfMemory>
    ensures { IfOk result (IsRouteWith method.now query.entry parts.now) }
{
    Ok(StoredRoute {
        method: String::from_str(alloc, method)?,
        segments: segments_in(alloc, parts)?,
        is_greedy: has_greedy(parts),
        query: pieces_of(alloc, query)?,
    })
}

// The parts of a routable template.
fn routable_parts<'t>(alloc: Global, template: &'t str) -> Result<Vec<TemplatePart<'t>>, RouteError>
    ensures { Gives (λ v. map part_seen v.items) (routable_parts template.now) result }
{
    let (path, query) = cut_target(template);
    match path.strip_prefix("/") {
        Some(rest) => sound_parts(alloc, rest, query),
        None => Err(RouteError::Template),
    }
}

/// The route of a template, refused exactly where it isn't routable. Takes memory for its texts.
#[tactic(auto, unfolding(crate::specs::Templates::route_of))]
pub fn route_of(alloc: Global, method: &str, template: &str) -> Result<StoredRoute, RouteError>
    ensures { Gives route_seen (route_of method.now template.now) result }
{
    let parts = routable_parts(alloc, template)?;
    let (_, query) = cut_target(template);
    Ok(route_with(alloc, method, query, &parts)?)
}
