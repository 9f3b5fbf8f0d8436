// Trees of routes: their entries, in the order in which they were added, and the nodes that lead to them.
ghost use Rattle.std.specs.Prelude.{◌≡◌, ◌<◌, [], None, IfOk, OnOk, length, map};
ghost use Rattle.smithy_router.specs.Seen.{route_seen, segment_seen, segments_seen};
ghost use Rattle.smithy_router.specs.Tree.{child_at, entries_of, first_segments, goes_on, EndsAt, Grows, HasChildAt, IsBehind, IsSound, IsWithin, way_of};

use crate::node::Node;
use crate::route::{StoredEntry, StoredRoute};
use crate::segment::PathSegment;
use smithy_types::OutOfMemory;
use std::alloc::Global;

/// How many segments of a route the tree tells apart: so no search is deeper, however long a template is.
pub const DEEPEST: usize = 32;

/// Entries and the nodes that lead to them. The first node is the root.
#[derive(Drop)]
pub struct RouteTree {
    pub entries: Vec<StoredEntry>,
    pub nodes: Vec<Node>,
}

impl RouteTree {
    /// A tree without entries. Takes no memory.
    pub fn new(alloc: Global) -> RouteTree
        ensures sound { IsSound result }
        ensures value { entries_of result ≡ [] }
    {
        RouteTree {
            entries: Vec::new(alloc),
            nodes: Vec::new(alloc),
        }
    }
}

// Puts a new child behind a segment.
fn add_child(
    alloc: Global,
    nodes: &mut Vec<Node>,
    place: usize,
    segment: &PathSegment,
) -> Result<usize, OutOfMemory>
    requires place { place < length nodes.old.items }
    requires absent { child_at nodes.old.items place (segment_seen segment.now) ≡ None }
    requires within { IsWithin nodes.old.items }
    ensures grown { Grows nodes.old.items nodes.new.items }
    ensures child { IfOk result (HasChildAt nodes.new.items place (segment_seen segment.now)) }
{
    let child = nodes.len();
    nodes.push(Node::new(alloc))?;
    nodes[place].put_child(alloc, segment, child)?;
    Ok(child)
}

// The child behind a segment, put there where there is none.
fn child_for(
    alloc: Global,
    nodes: &mut Vec<Node>,
    place: usize,
    segment: &PathSegment,
) -> Result<usize, OutOfMemory>
    requires place { place < length nodes.old.items }
    requires within { IsWithin nodes.old.items }
    ensures grown { Grows nodes.old.items nodes.new.items }
    ensures child { IfOk result (HasChildAt nodes.new.items place (segment_seen segment.now)) }
{
    match nodes[place].child(segment) {
        Some(child) => Ok(child),
        None => add_child(alloc, nodes, place, segment),
    }
}

// The node behind these segments from another.
fn node_behind(
    alloc: Global,
    nodes: &mut Vec<Node>,
    start: usize,
    segments: &[PathSegment],
) -> Result<usize, OutOfMemory>
    requires start { start < length nodes.old.items }
    requires within { IsWithin nodes.old.items }
    ensures grown { Grows nodes.old.items nodes.new.items }
    ensures node { IfOk result (IsBehind nodes.new.items start (map segment_seen segments.now)) }
{
    let mut place = start;
    for segment in segments {
        place = child_for(alloc, nodes, place, segment)?;
    }
    Ok(place)
}

// Makes the root where there is none.
fn make_root(alloc: Global, nodes: &mut Vec<Node>) -> Result<(), OutOfMemory>
    ensures grown { Grows nodes.old.items nodes.new.items }
    ensures root { OnOk result (0 < length nodes.new.items) }
{
    if nodes.is_empty() {
        nodes.push(Node::new(alloc))?;
    }
    Ok(())
}

// The first segments of a route.
#[tactic(auto, using(crate::proofs::Growing::cutting))]
fn first_segments(segments: &[PathSegment]) -> &[PathSegment]
    ensures { segments_seen result.now ≡ first_segments 32 (segments_seen segments.now) }
{
    if segments.len() > DEEPEST {
        &segments[..DEEPEST]
    } else {
        segments
    }
}

/// Whether a route goes on behind its first segments. Takes no memory.
#[tactic(auto, using(crate::proofs::Growing::cutting))]
pub fn goes_on(route: &StoredRoute) -> bool
    ensures { result ≡ goes_on (route_seen route.now) }
{
    route.segments.len() > DEEPEST || route.is_greedy
}

// The node of a route.
fn node_for(alloc: Global, nodes: &mut Vec<Node>, route: &StoredRoute) -> Result<usize, OutOfMemory>
    requires within { IsWithin nodes.old.items }
    ensures grown { Grows nodes.old.items nodes.new.items }
    ensures node { IfOk result (IsBehind nodes.new.items 0 (way_of (route_seen route.now))) }
{
    let method = PathSegment::Literal(String::from_str(alloc, route.method.as_str())?);
    make_root(alloc, nodes)?;
    let start = child_for(alloc, nodes, 0, &method)?;
    node_behind(alloc, nodes, start, first_segments(&route.segments))
}

/// Adds the number of an entry at the node of its route. Takes memory for new nodes and for the number.
pub fn put_end(
    alloc: Global,
    nodes: &mut Vec<Node>,
    route: &StoredRoute,
    number: usize,
) -> Result<(), OutOfMemory>
    requires within { IsWithin nodes.old.items }
    ensures grown { Grows nodes.old.items nodes.new.items }
    ensures ends { OnOk result (EndsAt nodes.new.items (route_seen route.now) number) }
{
    let place = node_for(alloc, nodes, route)?;
    nodes[place].push_end(goes_on(route), number)?;
    Ok(())
}
