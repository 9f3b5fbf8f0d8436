// What is left of a template, from which its holes are taken one by one (Smithy, HTTP protocol bindings, http trait, uri).
ghost use Rattle.std.specs.Prelude.{◌≡◌};
ghost use Rattle.smithy_binding.specs.views.LeftTemplates.{last_of_pieces, TakesPieces};

use smithy_schema::{CutHole, Piece, cut_hole};

/// What is left of a template: a text that is still to be cut, or pieces of one that was.
#[derive(Clone, Copy)]
pub enum TemplateRest<'t> {
    Text(&'t str),
    Pieces(&'t [Piece]),
}

// The first hole of pieces, behind its literal, and the pieces behind it.
fn hole_of_pieces<'t>(pieces: &'t [Piece]) -> Option<(CutHole<'t>, &'t [Piece])>
    ensures { TakesPieces pieces.now result }
{
    match pieces {
        [
            Piece::Literal(literal),
            Piece::Hole { name, greedy },
            behind @ ..,
        ] => Some((
            CutHole {
                literal: literal.as_str(),
                name: name.as_str(),
                is_greedy: *greedy,
            },
            behind,
        )),
        _ => None,
    }
}

// The literal of pieces without a hole.
fn last_of_pieces<'t>(pieces: &'t [Piece]) -> &'t str
    ensures { result.now ≡ last_of_pieces pieces.now }
{
    match pieces {
        [Piece::Literal(literal), ..] => literal.as_str(),
        _ => "",
    }
}

impl<'t> TemplateRest<'t> {
    ghost use Rattle.std.specs.Prelude.{◌≡◌};
    ghost use Rattle.smithy_binding.specs.views.LeftTemplates.{last_left, TakesHole};

    /// The first hole, behind its literal, and what is left behind it. Takes no memory.
    pub fn next_hole(self) -> Option<(CutHole<'t>, TemplateRest<'t>)>
        ensures { TakesHole self.entry result }
    {
        match self {
            TemplateRest::Text(text) => match cut_hole(text) {
                Some((hole, behind)) => Some((hole, TemplateRest::Text(behind))),
                None => None,
            },
            TemplateRest::Pieces(pieces) => match hole_of_pieces(pieces) {
                Some((hole, behind)) => Some((hole, TemplateRest::Pieces(behind))),
                None => None,
            },
        }
    }

    /// The last literal, where no hole is left.
    pub fn last_literal(self) -> &'t str
        ensures { result.now ≡ last_left self.entry }
    {
        match self {
            TemplateRest::Text(text) => text,
            TemplateRest::Pieces(pieces) => last_of_pieces(pieces),
        }
    }
}
