//! Laws of the way back. The functions do no work: each has a law as its contract.
ghost use Rattle.smithy_binding.specs.Protocols.{protocol_of};
ghost use Rattle.smithy_recovery.specs.Recovered.{RecoversExactly};

use smithy_binding::HttpBindingProtocol;
use smithy_serde::Codec;

/// What is recovered of a request is the typed input that is its own normal form and whose request
/// has the same facts, and nothing where there is none: for every checked schema that a program
/// holds, every endpoint and every choice of default headers to leave out. Condition: the codec is
/// lawful (Smithy, HTTP protocol bindings).
pub fn recovered_is_exact<C: Codec>(protocol: &HttpBindingProtocol<C>)
    requires lawful { C.lawful protocol.now.codec }
    ensures { RecoversExactly (protocol_of C.text protocol.now) (C.holds protocol.now.codec) }
{}
