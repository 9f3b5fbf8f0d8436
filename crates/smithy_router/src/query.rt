// Pieces of queries against the pieces of routes.
ghost use Rattle.std.specs.Prelude.{◌≡◌, ◌==◌, ◌∷◌, map, string_bytes};
ghost use Rattle.std.specs.List.{slice_split};
ghost use Rattle.smithy_router.specs.QueryPieces.{name_of, first_named, is_same_piece, keeps_first, fits_query};
ghost use Rattle.smithy_router.specs.Seen.{parts_left, text_seen, in_a_row, CutsAt, TakesPart};

// The name of a piece, which stands before the first `=`.
fn name_of<'p>(piece: &'p str) -> &'p str
    ensures { result.now ≡ name_of piece.now }
{
    match piece.split_once('=') {
        Some((name, _)) => name,
        None => piece,
    }
}

// The text before the first `&` and the text behind it.
fn split_at_ampersand<'t>(text: &'t str) -> Option<(&'t str, &'t str)>
    ensures { CutsAt 38 text.now result }
{
    text.split_once('&')
}

// The first piece of a query, and what is left behind it.
fn cut_piece<'t>(text: &'t str) -> (&'t str, Option<&'t str>)
    ensures { slice_split (λ b. b == 38) text.now ≡ result.0.now ∷ parts_left 38 result.1 }
{
    match split_at_ampersand(text) {
        Some((piece, behind)) => (piece, Some(behind)),
        None => (text, None),
    }
}

/// The first piece of what is left of a query, and what is left behind it. Takes no memory.
pub fn next_piece<'t>(rest: Option<&'t str>) -> Option<(&'t str, Option<&'t str>)>
    ensures { TakesPart 38 rest.entry result }
{
    match rest {
        Some(text) => Some(cut_piece(text)),
        None => None,
    }
}

// The first piece of this name in what is left of a query.
fn first_in_query<'t>(name: &str, query: Option<&'t str>) -> Option<&'t str>
    ensures { text_seen result ≡ first_named name.now (parts_left 38 query.entry) }
{
    let mut rest = query;
    while let Some((piece, behind)) = next_piece(rest) {
        if name_of(piece) == name {
            return Some(piece);
        }
        rest = behind;
    }
    None
}

// The first of these pieces that has this name.
fn first_in<'p>(name: &str, pieces: &'p [String]) -> Option<&'p str>
    ensures { text_seen result ≡ first_named name.now (map string_bytes pieces.now) }
{
    for piece in pieces {
        if name_of(piece.as_str()) == name {
            return Some(piece.as_str());
        }
    }
    None
}

// The first of these pieces and then of those that has this name.
#[tactic(auto, using(crate::proofs::Pieces::first_in_row), unfolding(crate::specs::Seen::in_a_row))]
fn first_in_both<'p>(name: &str, pieces: &'p [String], others: &'p [String]) -> Option<&'p str>
    ensures { text_seen result ≡ first_named name.now (in_a_row pieces.now others.now) }
{
    match first_in(name, pieces) {
        Some(piece) => Some(piece),
        None => first_in(name, others),
    }
}

// The same piece, or none on both sides.
fn is_same_piece(a: Option<&str>, b: Option<&str>) -> bool
    ensures { result ≡ is_same_piece (text_seen a.entry) (text_seen b.entry) }
{
    match (a, b) {
        (None, None) => true,
        (Some(a), Some(b)) => a == b,
        (None, Some(_)) => false,
        (Some(_), None) => false,
    }
}

// Whether the query's first piece of this piece's name is the wanted one.
#[tactic(auto, unfolding(crate::specs::QueryPieces::keeps_first))]
fn keeps_first(wanted: &[String], query: Option<&str>, piece: &str) -> bool
    ensures { result ≡ keeps_first (map string_bytes wanted.now) (parts_left 38 query.entry) piece.now }
{
    let name = name_of(piece);
    is_same_piece(first_in_query(name, query), first_in(name, wanted))
}

// Whether, of the pieces and then the others, the first one of this piece's name is the wanted one.
#[tactic(auto, unfolding(crate::specs::QueryPieces::keeps_first))]
fn keeps_first_in(wanted: &[String], pieces: &[String], others: &[String], piece: &str) -> bool
    ensures { result
        ≡ keeps_first (map string_bytes wanted.now) (in_a_row pieces.now others.now) piece.now }
{
    let name = name_of(piece);
    is_same_piece(first_in_both(name, pieces, others), first_in(name, wanted))
}

/// Whether a query fits the pieces of a route: for each of their names, the first piece of that name is the route's. None
/// is a target without a query. Takes no memory.
pub fn fits(wanted: &[String], query: Option<&str>) -> bool
    ensures { result ≡ fits_query (map string_bytes wanted.now) (parts_left 38 query.entry) }
{
    for piece in wanted {
        if !keeps_first(wanted, query, piece.as_str()) {
            return false;
        }
    }
    true
}

// Whether the pieces and then the others, in a row, fit the pieces of a route.
fn fits_pieces(wanted: &[String], pieces: &[String], others: &[String]) -> bool
    ensures { result ≡ fits_query (map string_bytes wanted.now) (in_a_row pieces.now others.now) }
{
    for piece in wanted {
        if !keeps_first_in(wanted, pieces, others, piece.as_str()) {
            return false;
        }
    }
    true
}

/// Whether whatever fits the other pieces fits the wanted ones: these fit themselves. Takes no memory.
#[tactic(auto, unfolding(crate::specs::Seen::in_a_row))]
pub fn covers(wanted: &[String], others: &[String]) -> bool
    ensures { result ≡ fits_query (map string_bytes wanted.now) (map string_bytes others.now) }
{
    fits_pieces(wanted, &[], others)
}

/// Whether some query fits both: the pieces and then the others do. Takes no memory.
pub fn meet(pieces: &[String], others: &[String]) -> bool
    ensures { result ≡ fits_query (map string_bytes others.now) (in_a_row pieces.now others.now) }
{
    fits_pieces(others, pieces, others)
}
