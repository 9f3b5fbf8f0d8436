// The first entry that a new route conflicts with, looked for where a path of both can lead.
ghost use Rattle.std.specs.Prelude.{◌≡◌};
ghost use Rattle.smithy_router.specs.Conflicting.{behind, conflicts_at, earlier, first_among, first_below, first_literal, levels_of};
ghost use Rattle.smithy_router.specs.Seen.{best_seen, route_seen, segments_seen, text_seen};
ghost use Rattle.smithy_router.specs.Tables.{first_conflict};
ghost use Rattle.smithy_router.specs.Tree.{entries_of, IsSound};

use crate::route::{StoredEntry, StoredRoute};
use crate::search::{entry_at, method_node, node_at};
use crate::segment::PathSegment;
use crate::tree::{DEEPEST, RouteTree, goes_on};

// A new route, and the tree that it is to stand in.
#[derive(Drop)]
struct Newcomer<'e, 'r> {
    tree: &'e RouteTree,
    route: &'r StoredRoute,
}

// Whether the entry of a number conflicts with the route.
fn conflicts_at(new: &Newcomer<'_, '_>, number: usize) -> bool
    ensures { result ≡ conflicts_at new.now number }
{
    match entry_at(&new.tree.entries, number) {
        Some(entry) => entry.route.conflicts(new.route),
        None => false,
    }
}

// A number, where it is less than the first so far and its entry conflicts, and else the first so far.
fn earlier(new: &Newcomer<'_, '_>, first: usize, number: usize) -> usize
    ensures { result ≡ earlier new.now first number }
{
    if number < first && conflicts_at(new, number) {
        number
    } else {
        first
    }
}

// The first so far, or the least of these whose entry conflicts.
fn first_among(new: &Newcomer<'_, '_>, mut first: usize, numbers: &[usize]) -> usize
    ensures { result ≡ first_among new.now first numbers.now }
{
    for number in numbers {
        first = earlier(new, first, *number);
    }
    first
}

// The literal that the first segment is, if it is one.
fn first_literal(segments: &[PathSegment]) -> Option<&str>
    ensures { text_seen result ≡ first_literal (segments_seen segments.now) }
{
    match segments {
        [PathSegment::Literal(text), ..] => Some(text.as_str()),
        _ => None,
    }
}

// The segments behind the first one.
fn behind(segments: &[PathSegment]) -> &[PathSegment]
    ensures { segments_seen result.now ≡ behind (segments_seen segments.now) }
{
    match segments.split_first() {
        Some((_, rest)) => rest,
        None => segments,
    }
}

// The first so far, or the least number of an entry that conflicts and ends at this node, or at most so many levels below it
// where these segments, and any behind them, lead.
fn first_below(
    new: &Newcomer<'_, '_>,
    levels: usize,
    place: Option<usize>,
    segments: &[PathSegment],
    first: usize,
) -> usize
    ensures { result ≡ first_below new.now first levels place (segments_seen segments.now) }
{
    let Some(node) = node_at(&new.tree.nodes, place) else {
        return first;
    };
    let greedy = first_among(new, first, &node.greedy);
    let here = first_among(new, greedy, &node.ends);
    if levels == 0 {
        return here;
    }
    let rest = behind(segments);
    let mut found = first_below(new, levels - 1, node.hole, rest, here);
    if let Some(text) = first_literal(segments) {
        return first_below(new, levels - 1, node.literal_child(text), rest, found);
    }
    for child in node.literals.values() {
        found = first_below(new, levels - 1, Some(*child), rest, found);
    }
    found
}

// How many levels below that of its method the routes end that a route may meet.
fn levels_of(route: &StoredRoute) -> usize
    ensures { result ≡ levels_of (route_seen route.now) }
{
    if goes_on(route) {
        DEEPEST
    } else {
        route.segments.len()
    }
}

/// The first entry that the route conflicts with. It looks at the nodes behind the route's method whose way has a literal or a
/// hole where the route has an equal literal, and any child where it has a hole or a greedy end. Takes no memory.
pub fn first_conflict<'e>(tree: &'e RouteTree, route: &StoredRoute) -> Option<&'e StoredEntry>
    requires { IsSound tree.now }
    ensures { best_seen result ≡ first_conflict (route_seen route.now) (entries_of tree.now) }
{
    let new = Newcomer { tree, route };
    let start = method_node(&tree.nodes, route.method.as_str());
    let first = first_below(
        &new,
        levels_of(route),
        start,
        &route.segments,
        tree.entries.len(),
    );
    entry_at(&tree.entries, first)
}
