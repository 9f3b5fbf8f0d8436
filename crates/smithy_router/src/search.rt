// The search for the best entry that matches a request.
ghost use Rattle.std.specs.Prelude.{◌≡◌, [], ◌∷◌, option_and_then, slice_get};
ghost use Rattle.std.specs.Option.{option_copied};
ghost use Rattle.smithy_router.specs.Segments.{Literal};
ghost use Rattle.smithy_router.specs.Search.{best_among, best_below};
ghost use Rattle.smithy_router.specs.Seen.{best_seen, parts_left};
ghost use Rattle.smithy_router.specs.Tables.{IsBestOf};
ghost use Rattle.smithy_router.specs.Tree.{child_at, entries_of, IsSound};

use crate::node::Node;
use crate::path::next_segment;
use crate::route::{StoredEntry, cut_target};
use crate::table::better;
use crate::tree::RouteTree;

// A request and the tree that it is looked up in.
#[derive(Drop)]
struct Search<'e, 't> {
    tree: &'e RouteTree,
    method: &'t str,
    target: &'t str,
}

/// The entry of a number. Takes no memory.
pub fn entry_at(entries: &[StoredEntry], number: usize) -> Option<&StoredEntry>
    ensures { option_copied result ≡ slice_get entries.now number }
{
    entries.get(number)
}

// The better one of the best so far and the entry of a number.
fn better_of<'e>(
    search: &Search<'e, '_>,
    number: usize,
    best: Option<&'e StoredEntry>,
) -> Option<&'e StoredEntry>
    ensures { best_seen result ≡ best_among search.now (best_seen best.entry) (number ∷ []) }
{
    match entry_at(&search.tree.entries, number) {
        Some(entry) => better(search.method, search.target, best, entry),
        None => best,
    }
}

// The best one of the best so far and the entries of these numbers.
fn best_among<'e>(
    search: &Search<'e, '_>,
    numbers: &[usize],
    mut best: Option<&'e StoredEntry>,
) -> Option<&'e StoredEntry>
    ensures { best_seen result ≡ best_among search.now (best_seen best.entry) numbers.now }
{
    for number in numbers {
        best = better_of(search, *number, best);
    }
    best
}

/// The node at a place. Takes no memory.
pub fn node_at(nodes: &[Node], place: Option<usize>) -> Option<&Node>
    ensures { option_copied result ≡ option_and_then (slice_get nodes.now) place }
{
    nodes.get(place?)
}

// The best one of the best so far and what is left of a target's path leads to from a node.
fn best_below<'e>(
    search: &Search<'e, '_>,
    place: Option<usize>,
    rest: Option<&str>,
    best: Option<&'e StoredEntry>,
) -> Option<&'e StoredEntry>
    ensures { best_seen result ≡ best_below search.now (best_seen best.entry) place (parts_left 47 rest.entry) }
{
    let Some(node) = node_at(&search.tree.nodes, place) else {
        return best;
    };
    let Some((segment, behind)) = next_segment(rest) else {
        return best_among(search, &node.ends, best);
    };
    let greedy = best_among(search, &node.greedy, best);
    let literal = best_below(search, node.literal_child(segment), behind, greedy);
    best_below(search, node.hole, behind, literal)
}

/// The node behind a method. Takes no memory.
pub fn method_node(nodes: &[Node], method: &str) -> Option<usize>
    ensures { result ≡ child_at nodes.now 0 (Literal method.now) }
{
    nodes.first()?.literal_child(method)
}

/// The entry whose route matches and beats each other one that matches. It looks at the nodes whose way fits a beginning of
/// the target's path: at each level at most twice as many as at the one before, and no more than the level has. Takes no
/// memory.
pub fn best<'e>(tree: &'e RouteTree, method: &str, target: &str) -> Option<&'e StoredEntry>
    requires { IsSound tree.now }
    ensures { IsBestOf method.now target.now (entries_of tree.now) (best_seen result) }
{
    let (path, _) = cut_target(target);
    let Some(rest) = path.strip_prefix("/") else {
        return None;
    };
    let search = Search {
        tree,
        method,
        target,
    };
    best_below(&search, method_node(&tree.nodes, method), Some(rest), None)
}
