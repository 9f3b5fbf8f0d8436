// Stored routes and how they stand to each other.
ghost use Rattle.std.specs.Prelude.{◌≡◌, ◌==◌};
ghost use Rattle.std.specs.List.{before_first};
ghost use Rattle.smithy_http.specs.Facts.{query_pieces};
ghost use Rattle.smithy_router.specs.Routes.{matches, fits_target};
ghost use Rattle.smithy_router.specs.Deciding.{covers, overlaps, beats, conflicts};
ghost use Rattle.smithy_router.specs.Seen.{route_seen, parts_left, query_seen, CutsTarget};
ghost use Rattle.smithy_router.specs.Templates.{query_of};

use crate::segment::{PathSegment, Relation};
use crate::{path, query};

/// A route of a template.
#[derive(Drop)]
pub struct StoredRoute {
    pub method: String,
    pub segments: Vec<PathSegment>,
    pub is_greedy: bool,
    pub query: Vec<String>,
}

/// A route and the name of its operation.
#[derive(Drop)]
pub struct StoredEntry {
    pub route: StoredRoute,
    pub operation: String,
}

impl StoredRoute {
    /// Whether whatever the other route matches, this one matches. Takes no memory.
    pub fn covers(&self, other: &StoredRoute) -> bool
        ensures { result ≡ covers (route_seen self.now) (route_seen other.now) }
    {
        self.method.as_str() == other.method.as_str()
            && path::stand(
                Relation::Covers,
                self.is_greedy,
                &self.segments,
                other.is_greedy,
                &other.segments,
            )
            && query::covers(&self.query, &other.query)
    }

    /// Whether some request is matched by both routes. Takes no memory.
    #[tactic(auto, unfolding(crate::specs::Seen::in_a_row))]
    pub fn overlaps(&self, other: &StoredRoute) -> bool
        ensures { result ≡ overlaps (route_seen self.now) (route_seen other.now) }
    {
        self.method.as_str() == other.method.as_str()
            && path::stand(
                Relation::Meets,
                self.is_greedy,
                &self.segments,
                other.is_greedy,
                &other.segments,
            )
            && query::meet(&self.query, &other.query)
    }

    /// Whether the other route matches whatever this one matches, and not the other way round. Takes no memory.
    pub fn beats(&self, other: &StoredRoute) -> bool
        ensures { result ≡ beats (route_seen self.now) (route_seen other.now) }
    {
        other.covers(self) && !self.covers(other)
    }

    /// Whether both routes match some request and neither beats the other. Takes no memory.
    pub fn conflicts(&self, other: &StoredRoute) -> bool
        ensures { result ≡ conflicts (route_seen self.now) (route_seen other.now) }
    {
        self.overlaps(other) && !self.beats(other) && !other.beats(self)
    }

    /// Whether the route matches a request of this method and this target. Takes no memory.
    pub fn matches(&self, method: &str, target: &str) -> bool
        ensures { result ≡ matches (route_seen self.now) method.now target.now }
    {
        self.method.as_str() == method && self.fits_target(target)
    }

    // Whether the target starts with `/` and its path and its query fit.
    fn fits_target(&self, target: &str) -> bool
        ensures { result ≡ fits_target (route_seen self.now) target.now }
    {
        let (path, query) = cut_target(target);
        match path.strip_prefix("/") {
            Some(rest) => {
                path::fits(self.is_greedy, &self.segments, rest) && query::fits(&self.query, query)
            }
            None => false,
        }
    }
}

// The text before the first `?` and the text behind it.
fn split_at_question_mark<'t>(text: &'t str) -> Option<(&'t str, &'t str)>
    ensures { CutsTarget text.now result }
{
    text.split_once('?')
}

/// The path of a target and its query, if it has one. Takes no memory.
pub fn cut_target<'t>(target: &'t str) -> (&'t str, Option<&'t str>)
    ensures path { result.0.now ≡ before_first (λ b. b == 63) target.now }
    ensures pieces { parts_left 38 result.1 ≡ query_pieces target.now }
    ensures query { query_seen result.1 ≡ query_of target.now }
{
    match split_at_question_mark(target) {
        Some((path, query)) => (path, Some(query)),
        None => (target, None),
    }
}
