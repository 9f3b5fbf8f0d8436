//! Laws of requests. The functions do no work: each has a law as its contract.
ghost use Rattle.smithy_binding.specs.Protocols.{protocol_of};
ghost use Rattle.smithy_unambiguity.specs.Laws.{FactsDecideView, ViewSettles, ViewIsTyped};

use smithy_binding::HttpBindingProtocol;
use smithy_serde::Codec;

/// A request tells its input's normal form, and no more. Two typed inputs of a checked schema, at one endpoint and with the
/// same default headers left out, have requests with the same facts (method, path, values of each header, pieces of the
/// query under each name, body) exactly if they have one normal form. Condition: the codec is lawful.
pub fn facts_decide_view<C: Codec>(protocol: &HttpBindingProtocol<C>)
    requires lawful { C.lawful protocol.now.codec }
    ensures { FactsDecideView (protocol_of C.text protocol.now) }
{}

/// The normal form of a typed input is its own normal form, and is typed. Condition: the codec is lawful.
pub fn view_settles<C: Codec>(protocol: &HttpBindingProtocol<C>)
    requires lawful { C.lawful protocol.now.codec }
    ensures settles { ViewSettles (protocol_of C.text protocol.now) }
    ensures typed { ViewIsTyped (protocol_of C.text protocol.now) }
{}
