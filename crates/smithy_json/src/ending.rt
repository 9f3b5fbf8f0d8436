// How far bytes are the front of a JSON text.
ghost use Rattle.std.specs.Prelude.{◌≡◌, IfOk};
ghost use Rattle.smithy_json.specs.JsonEnd.{first_in, innermost, json_end};
ghost use Rattle.smithy_json.specs.views.Moving.{Moves};

use crate::places::{Bracket, Place, Step};
use smithy_types::OutOfMemory;
use std::alloc::Global;

// So deep arrays and objects may nest.
const MAX_DEPTH: usize = 127;

/// The length of the longest front of the bytes that some JSON text begins with (RFC 8259), in UTF-8 with surrogates in pairs
/// alone, and with arrays and objects nested at most 127 deep: the place of the first byte that can't stand there, or the
/// number of the bytes where there is none. Takes memory.
pub fn json_end(alloc: Global, bytes: &[u8]) -> Result<usize, OutOfMemory>
    ensures { IfOk result (λ end. end ≡ json_end bytes.now) }
{
    let mut opened = Vec::new(alloc);
    let mut place = Place::Value;
    for (index, byte) in bytes.iter().enumerate() {
        match moved(&mut opened, place, *byte)? {
            Some(next) => place = next,
            None => return Ok(index),
        }
    }
    Ok(bytes.len())
}

// What may stand next behind a byte, with what is open there. None where the byte can't stand there.
fn moved(opened: &mut Vec<Bracket>, place: Place, byte: u8) -> Result<Option<Place>, OutOfMemory>
    ensures { Moves opened.old.items place byte opened.new.items result }
{
    let Some(step) = place.step(innermost(opened.as_slice()), byte) else {
        return Ok(None);
    };
    match step {
        Step::To(next) => Ok(Some(next)),
        Step::Open(bracket) => {
            if opened.len() >= MAX_DEPTH {
                return Ok(None);
            }
            opened.push(bracket)?;
            Ok(Some(first_in(bracket)))
        }
        Step::Close => {
            drop(opened.pop());
            Ok(Some(Place::Behind))
        }
    }
}

// The innermost of the arrays and objects that are open.
fn innermost(opened: &[Bracket]) -> Option<Bracket>
    ensures { result ≡ innermost opened.now }
{
    opened.last().copied()
}

// What may stand first in it.
fn first_in(bracket: Bracket) -> Place
    ensures { result ≡ first_in bracket }
{
    match bracket {
        Bracket::Array => Place::FirstItem,
        Bracket::Object => Place::FirstName,
    }
}
