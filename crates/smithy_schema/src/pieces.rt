// A template cut into its pieces (Smithy, HTTP protocol bindings, http trait, uri).
ghost use Rattle.std.specs.Prelude.{◌≡◌, ◌++◌, OnOk};
ghost use Rattle.smithy_schema.specs.views.Pieces.{AddsHole};

use crate::copies::copied_text;
use crate::first_hole::{CutHole, cut_hole};
use crate::piece::Piece;
use smithy_types::OutOfMemory;
use std::alloc::Global;
use std::marker::Model;

/// The pieces of a template: literals and holes in turn, of which the first and the last are literals.
#[derive(Debug, Drop)]
pub struct Pieces {
    pieces: Vec<Piece>,
}

impl Model for Pieces {
    ghost use Rattle.std.specs.Prelude.{List};
    ghost use Rattle.smithy_schema.specs.declared.piece.Piece.{Piece};

    ghost Value = { List Piece };

    ghost view = { λ a. a.pieces.items };
}

impl Pieces {
    ghost use Rattle.std.specs.Prelude.{◌≡◌, length, slice_get, option_map, IfOk};
    ghost use Rattle.smithy_schema.specs.Templates.{pieces};
    ghost use Rattle.smithy_schema.specs.views.Pieces.{in_turn};

    /// The pieces of a template, with texts of their own. Linear in the template.
    #[tactic(auto, using(crate::proofs::TurnLemmas::turns))]
    pub(crate) fn of(alloc: Global, template: &str) -> Result<Pieces, OutOfMemory>
        ensures { IfOk result (λ p. p ≡ in_turn (pieces template.now)) }
    {
        let mut pieces = Vec::new(alloc);
        let mut rest = template;
        while let Some((hole, behind)) = cut_hole(rest) {
            push_hole(alloc, &mut pieces, &hole)?;
            rest = behind;
        }
        pieces.push(Piece::Literal(copied_text(alloc, rest)?))?;
        Ok(Pieces { pieces })
    }

    /// How many pieces there are: one more than twice the number of holes.
    pub fn len(&self) -> usize
        ensures { result ≡ length self.now }
    {
        self.pieces.len()
    }

    /// The piece at a place, None behind the last one. Takes no memory.
    pub fn get(&self, place: usize) -> Option<&Piece>
        ensures { option_map (λ p. p.now) result ≡ slice_get self.now place }
    {
        self.pieces.get(place)
    }

    /// The pieces in their order. Takes no memory.
    pub fn as_slice(&self) -> &[Piece]
        ensures { result.now ≡ self.now }
    {
        self.pieces.as_slice()
    }
}

// Adds a hole behind its literal.
fn push_hole(alloc: Global, pieces: &mut Vec<Piece>, hole: &CutHole<'_>) -> Result<(), OutOfMemory>
    ensures { OnOk result (AddsHole hole.now pieces.old.items pieces.new.items) }
{
    pieces.push(Piece::Literal(copied_text(alloc, hole.literal)?))?;
    pieces.push(Piece::Hole {
        name: copied_text(alloc, hole.name)?,
        greedy: hole.is_greedy,
    })?;
    Ok(())
}
