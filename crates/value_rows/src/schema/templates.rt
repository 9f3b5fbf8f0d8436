// Templates in pieces.
use crate::telling::Told;
use serde_json::Value;
use smithy_schema::{CutHole, Piece, Pieces, SchemaRef, cut_hole};
use smithy_types::Text;
use std::alloc::Global;
use test_rows::{Failed, text_of};

fn tell_hole(told: &mut Told, name: &str, is_greedy: bool) -> Result<(), Failed> {
    let word = if is_greedy { "greedy hole" } else { "hole" };
    told.tell_text(word, name)
}

fn tell_piece(told: &mut Told, piece: &Piece) -> Result<(), Failed> {
    match piece {
        Piece::Literal(text) => told.tell_text("literal", text.as_str()),
        Piece::Hole { name, greedy } => tell_hole(told, name.as_str(), *greedy),
    }
}

fn tell_each(told: &mut Told, pieces: &Pieces) -> Result<(), Failed> {
    told.tell_count("pieces", pieces.len())?;
    for place in 0..pieces.len() {
        tell_piece(told, pieces.get(place).ok_or(Failed)?)?;
    }
    told.tell_flag("more", pieces.get(pieces.len()).is_some())?;
    told.tell_flag("as many", pieces.as_slice().len() == pieces.len())
}

/// Tells the pieces of a node's template.
pub fn tell_pieces(told: &mut Told, node: SchemaRef<'_>) -> Result<(), Failed> {
    match node.template_pieces() {
        Some(pieces) => tell_each(told, pieces),
        None => told.tell("no template"),
    }
}

fn tell_cut(told: &mut Told, hole: &CutHole<'_>, behind: &str) -> Result<(), Failed> {
    told.tell_text("literal", hole.literal)?;
    tell_hole(told, hole.name, hole.is_greedy)?;
    told.tell_text("behind", behind)
}

/// The first hole of a text, and what stands behind it.
pub fn first_hole(alloc: Global, given: &Value) -> Result<Text, Failed> {
    let mut told = Told::new(alloc)?;
    match cut_hole(text_of(given, "text")?) {
        Some((hole, behind)) => tell_cut(&mut told, &hole, behind)?,
        None => told.tell("None")?,
    }
    Ok(told.into_text())
}
