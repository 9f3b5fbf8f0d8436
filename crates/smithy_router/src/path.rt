// Paths of routes against the paths of targets and of other routes.
ghost use Rattle.std.specs.Prelude.{◌≡◌, ◌==◌, ◌∷◌, map};
ghost use Rattle.std.specs.List.{slice_split};
ghost use Rattle.smithy_router.specs.Segments.{fits_path, fits_end, fits_greedy};
ghost use Rattle.smithy_router.specs.Deciding.{rest_stands, end_meets, meets_greedy};
ghost use Rattle.smithy_router.specs.Seen.{segment_seen, stored_paths_stand, parts_left, CutsAt, TakesPart};

use crate::segment::{PathSegment, Relation};

// The text before the first `/` and the text behind it.
fn split_at_slash<'t>(text: &'t str) -> Option<(&'t str, &'t str)>
    ensures { CutsAt 47 text.now result }
{
    text.split_once('/')
}

// The first segment of a path, and what is left behind it.
fn cut_segment<'t>(text: &'t str) -> (&'t str, Option<&'t str>)
    ensures { slice_split (λ b. b == 47) text.now ≡ result.0.now ∷ parts_left 47 result.1 }
{
    match split_at_slash(text) {
        Some((segment, behind)) => (segment, Some(behind)),
        None => (text, None),
    }
}

/// The first segment of what is left of a path, and what is left behind it. Takes no memory.
pub fn next_segment<'t>(rest: Option<&'t str>) -> Option<(&'t str, Option<&'t str>)>
    ensures { TakesPart 47 rest.entry result }
{
    match rest {
        Some(text) => Some(cut_segment(text)),
        None => None,
    }
}

// One or more segments, but not a single empty one.
#[tactic(auto, using(crate::proofs::Ends::greedy_ends))]
fn fits_greedy(rest: Option<&str>) -> bool
    ensures { result ≡ fits_greedy (parts_left 47 rest.entry) }
{
    let Some((segment, behind)) = next_segment(rest) else {
        return false;
    };
    match next_segment(behind) {
        Some(_) => true,
        None => !segment.is_empty(),
    }
}

// What is left behind the last segment of a route.
fn fits_end(is_greedy: bool, rest: Option<&str>) -> bool
    ensures { result ≡ fits_end is_greedy (parts_left 47 rest.entry) }
{
    if is_greedy {
        return fits_greedy(rest);
    }
    match next_segment(rest) {
        Some(_) => false,
        None => true,
    }
}

/// Whether the segments fit, with or without a greedy end. Takes no memory.
pub fn fits(is_greedy: bool, segments: &[PathSegment], path: &str) -> bool
    ensures { result
        ≡ fits_path is_greedy (map segment_seen segments.now) (slice_split (λ b. b == 47) path.now) }
{
    let mut rest = Some(path);
    for p in segments {
        let Some((segment, behind)) = next_segment(rest) else {
            return false;
        };
        if !p.fits(segment) {
            return false;
        }
        rest = behind;
    }
    fits_end(is_greedy, rest)
}

// Whether a greedy end meets the rest of another route's path.
fn meets_greedy(is_greedy: bool, segments: &[PathSegment]) -> bool
    ensures { result ≡ meets_greedy is_greedy (map segment_seen segments.now) }
{
    match segments {
        [] => is_greedy,
        [PathSegment::Hole, ..] => true,
        [PathSegment::Literal(text)] => !text.is_empty() || is_greedy,
        [PathSegment::Literal(_), _, ..] => true,
    }
}

// Whether the end of a path meets the rest of another route's path.
fn end_meets(is_greedy: bool, other_is_greedy: bool, segments: &[PathSegment]) -> bool
    ensures { result ≡ end_meets is_greedy other_is_greedy (map segment_seen segments.now) }
{
    if is_greedy {
        meets_greedy(other_is_greedy, segments)
    } else {
        segments.is_empty() && !other_is_greedy
    }
}

// Whether the rest of a path stands so to the end of another one.
fn rest_stands(
    relation: Relation,
    is_greedy: bool,
    other_is_greedy: bool,
    segments: &[PathSegment],
) -> bool
    ensures { result ≡ rest_stands relation is_greedy other_is_greedy (map segment_seen segments.now) }
{
    match relation {
        Relation::Covers => false,
        Relation::Meets => end_meets(other_is_greedy, is_greedy, segments),
    }
}

/// Whether whatever fits the second path fits the first one, or whether some path fits both. Takes no memory.
pub fn stand(
    relation: Relation,
    is_greedy: bool,
    segments: &[PathSegment],
    other_is_greedy: bool,
    others: &[PathSegment],
) -> bool
    ensures { result ≡ stored_paths_stand relation is_greedy segments.now other_is_greedy others.now }
{
    let mut rest = others;
    for (i, p) in segments.iter().enumerate() {
        let Some((q, behind)) = rest.split_first() else {
            return rest_stands(relation, is_greedy, other_is_greedy, &segments[i..]);
        };
        if !p.stands(relation, q) {
            return false;
        }
        rest = behind;
    }
    end_meets(is_greedy, other_is_greedy, rest)
}
