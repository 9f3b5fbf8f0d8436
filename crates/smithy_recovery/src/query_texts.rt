// The texts that a query has under each name (Smithy, HTTP protocol bindings, httpQuery; RFC 3986, section 3.4).
ghost use Rattle.std.specs.Prelude.{◌≡◌, ℕ, List, [], IfOk, OnOk, length, drop, map};
ghost use Rattle.std.specs.Bool.{OnTrue};
ghost use Rattle.smithy_types.specs.Results.{each};
ghost use Rattle.smithy_http.specs.Facts.{query_pieces};
ghost use Rattle.smithy_strings.specs.Escapes.{escape};
ghost use Rattle.smithy_recovery.specs.Finding.{Finds};
ghost use Rattle.smithy_recovery.specs.views.Pieces.{pieces_of, pieces_under, shown_pieces, HasPieces, AddsPiece, HasLeft, named_left, texts_left};
ghost use Rattle.smithy_recovery.specs.QueryParts.{piece_text};

use crate::error::RecoverError;
use crate::pieces::{behind_equals, name_of, next_piece, query_of};
use smithy_strings::{percent_decode, percent_encode};
use smithy_types::{OutOfMemory, Text, Words};
use std::alloc::Global;
use std::collections::BTreeMap;

/// The pieces of a query by their names, those of each name in order.
pub type NamedPieces<'q> = BTreeMap<String, Vec<&'q str>>;

/// The pieces of a template's own query and those of a target's, as far as they tell what is left of the target's.
#[derive(Drop)]
pub struct KeptPieces<'q> {
    pub own: NamedPieces<'q>,
    pub pieces: NamedPieces<'q>,
}

// Adds a piece.
#[tactic(auto, unfolding(crate::specs::views::Pieces::pieces_under))]
fn add<'q>(alloc: Global, pieces: &mut NamedPieces<'q>, piece: &'q str) -> Result<(), OutOfMemory>
    ensures { OnOk result (AddsPiece piece.now pieces.old pieces.new) }
{
    let name = String::from_str(alloc, name_of(piece))?;
    let named = pieces.entry(name)?.or_insert(Vec::new(alloc));
    named.push(piece)?;
    Ok(())
}

// The pieces of a target's query by their names.
#[tactic(auto, unfolding(crate::specs::views::Pieces::pieces_under))]
fn named_pieces<'q>(alloc: Global, target: &'q str) -> Result<NamedPieces<'q>, OutOfMemory>
    ensures { IfOk result (HasPieces (query_pieces target.now)) }
{
    let mut pieces = BTreeMap::new(alloc);
    let mut rest = query_of(target);
    while let Some((piece, behind)) = next_piece(rest) {
        add(alloc, &mut pieces, piece)?;
        rest = behind;
    }
    Ok(pieces)
}

// Whether this is the query of a target.
fn is_query_of(query: &str, target: &str) -> bool
    ensures { OnTrue result (pieces_of query.now ≡ query_pieces target.now) }
{
    match query_of(target) {
        Some(own) => own == query,
        None => false,
    }
}

// Whether two targets have the same query.
fn has_same_query(target: &str, other: &str) -> bool
    ensures { OnTrue result (query_pieces target.now ≡ query_pieces other.now) }
{
    match query_of(target) {
        Some(query) => is_query_of(query, other),
        None => false,
    }
}

// No pieces under any name.
#[tactic(auto, unfolding(crate::specs::views::Pieces::pieces_under))]
fn no_pieces<'q>(alloc: Global) -> NamedPieces<'q>
    ensures { (name : List ℕ) → pieces_under result name ≡ [] }
{
    BTreeMap::new(alloc)
}

/// The pieces of a template's own query and those of a target's, by their names, as far as they tell what is left of the target's
/// behind the template's. Takes memory, unless both queries are the same, so that nothing is left.
pub fn kept_pieces<'q>(
    alloc: Global,
    template: &'q str,
    target: &'q str,
) -> Result<KeptPieces<'q>, OutOfMemory>
    ensures { IfOk result (λ k. HasLeft (query_pieces template.now) (query_pieces target.now) k.own k.pieces) }
{
    if has_same_query(template, target) {
        let own = no_pieces(alloc);
        let pieces = no_pieces(alloc);
        return Ok(KeptPieces { own, pieces });
    }
    let own = named_pieces(alloc, template)?;
    let pieces = named_pieces(alloc, target)?;
    Ok(KeptPieces { own, pieces })
}

// The text of a piece, taken back.
fn text_of(alloc: Global, piece: &str) -> Result<Text, RecoverError>
    ensures { Finds (λ t. t) result (piece_text piece.now) }
{
    let Some(text) = behind_equals(piece) else {
        return Err(RecoverError::NotPlaced);
    };
    match percent_decode(alloc, text)? {
        Some(text) => Ok(text),
        None => Err(RecoverError::NotPlaced),
    }
}

/// The texts of pieces. `NotPlaced` where one is none's. Takes memory.
pub fn texts_of(alloc: Global, pieces: &[&str]) -> Result<Words, RecoverError>
    ensures { Finds (λ w. w) result (each piece_text (map (λ p. p.now) pieces.now)) }
{
    let mut words = Words::new(alloc);
    for piece in pieces {
        let text = text_of(alloc, piece)?;
        words.push(text.as_str())?;
    }
    Ok(words)
}

// How many pieces a name has.
#[tactic(auto, unfolding(crate::specs::views::Pieces::pieces_under))]
fn count(pieces: &NamedPieces<'_>, name: &str) -> usize
    ensures { result ≡ length (pieces_under pieces.now name.now) }
{
    match pieces.get(name) {
        Some(named) => named.len(),
        None => 0,
    }
}

// What stands behind so many pieces.
fn behind<'p, 'q>(pieces: &'p [&'q str], count: usize) -> &'p [&'q str]
    ensures { result.now ≡ drop count pieces.now }
{
    if count < pieces.len() {
        &pieces[count..]
    } else {
        &[]
    }
}

/// The pieces of a name, behind as many as a template has of it; none where the name has none.
#[tactic(auto, unfolding(crate::specs::views::Pieces::pieces_under))]
pub fn named_left<'p, 'q>(
    own: &NamedPieces<'_>,
    pieces: &'p NamedPieces<'q>,
    name: &str,
) -> Option<&'p [&'q str]>
    ensures { shown_pieces result ≡ named_left own.now pieces.now name.now }
{
    match pieces.get(name) {
        Some(named) => Some(behind(named.as_slice(), count(own, name))),
        None => None,
    }
}

/// The texts of a name that stands there escaped, behind as many pieces as a template has of it. `NotPlaced` where one is none's.
/// Takes memory.
pub fn texts_named(
    alloc: Global,
    own: &NamedPieces<'_>,
    pieces: &NamedPieces<'_>,
    name: &str,
) -> Result<Words, RecoverError>
    ensures { Finds (λ w. w) result (texts_left own.now pieces.now (escape name.now)) }
{
    let escaped = percent_encode(alloc, name)?;
    match named_left(own, pieces, escaped.as_str()) {
        Some(named) => texts_of(alloc, named),
        None => Ok(Words::new(alloc)),
    }
}
