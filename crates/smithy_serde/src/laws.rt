//! Laws of a lawful codec. The functions do no work: each has a law as its contract.
ghost use Rattle.smithy_serde.specs.Lawful.{TellsApart};

use crate::codec::Codec;

/// No two documents that a program can hold, of nesting up to 100, have one text of a lawful codec.
pub fn texts_tell_apart<C: Codec>(codec: &C)
    requires { C.lawful codec.now }
    ensures { TellsApart (C.text codec.now) }
{}
