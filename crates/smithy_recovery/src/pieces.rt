// The path of a target, and the pieces of its query (RFC 3986, sections 3.3 and 3.4).
ghost use Rattle.std.specs.Prelude.{◌≡◌, ◌∷◌, option_map};
ghost use Rattle.smithy_http.specs.Facts.{query_pieces, named_piece};
ghost use Rattle.smithy_recovery.specs.views.Pieces.{pieces_of, cut_pieces, pieces_left, next_pieces};
ghost use Rattle.smithy_recovery.specs.QueryParts.{behind_equals};

/// What stands behind the first `?`.
pub fn query_of(target: &str) -> Option<&str>
    ensures { pieces_left result ≡ query_pieces target.now }
{
    match target.split_once('?') {
        Some((_, query)) => Some(query),
        None => None,
    }
}

/// The name of a piece, which stands before the first `=`.
pub fn name_of<'p>(piece: &'p str) -> &'p str
    ensures { result.now ≡ (named_piece piece.now).0 }
{
    match piece.split_once('=') {
        Some((name, _)) => name,
        None => piece,
    }
}

/// What stands behind the first `=`.
pub fn behind_equals<'p>(piece: &'p str) -> Option<&'p str>
    ensures { option_map (λ t. t.now) result ≡ behind_equals piece.now }
{
    match piece.split_once('=') {
        Some((_, text)) => Some(text),
        None => None,
    }
}

// The text before the first `&` and the text behind it.
fn split_at_ampersand<'t>(text: &'t str) -> Option<(&'t str, &'t str)>
    ensures { pieces_of text.now ≡ cut_pieces text.now result }
{
    text.split_once('&')
}

// The first piece of a query, and what is left behind it.
fn cut_piece<'t>(text: &'t str) -> (&'t str, Option<&'t str>)
    ensures { pieces_of text.now ≡ result.0.now ∷ pieces_left result.1 }
{
    match split_at_ampersand(text) {
        Some((piece, behind)) => (piece, Some(behind)),
        None => (text, None),
    }
}

/// The first piece of what is left of a query, and what is left behind it.
pub fn next_piece<'t>(rest: Option<&'t str>) -> Option<(&'t str, Option<&'t str>)>
    ensures { pieces_left rest.entry ≡ next_pieces result }
{
    match rest {
        Some(text) => Some(cut_piece(text)),
        None => None,
    }
}
