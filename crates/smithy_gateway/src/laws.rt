//! Laws of the gateway. The functions do no work: each has a law as its contract.
ghost use Rattle.smithy_gateway.specs.Laws.{ByCodecs, CalledIsExact, PostsView, PlacesView};

use smithy_binding::{HttpBindingProtocol, HttpRpcProtocol};
use smithy_serde::Codec;
use smithy_unambiguity::laws::{facts_decide_view, view_settles};

/// What a posted request is read as is the typed input in normal form that it posts, and nothing where there is none: for
/// every checked schema that a program holds, every endpoint and every choice of default headers to leave out. Condition:
/// both codecs are lawful (Smithy, HTTP protocol bindings).
pub fn called_is_exact<C: Codec, D: Codec>(rest: &HttpBindingProtocol<C>, rpc: &HttpRpcProtocol<D>)
    requires lawful { C.lawful rest.now.codec }
    requires lawful_rpc { D.lawful rpc.now.codec }
    ensures { ByCodecs CalledIsExact C.text C.holds D.text D.holds rest.now rpc.now }
{}

/// The way over RPC keeps the input. A request with the facts of a typed input's has a request to RPC, to each legal
/// endpoint, which posts the text of the normal form's document. Each request that posts it, nested at most 100 deep, has
/// a request to REST with the facts of the first, of which the normal form is recovered again. Condition: both codecs are
/// lawful.
pub fn input_is_kept<C: Codec, D: Codec>(rest: &HttpBindingProtocol<C>, rpc: &HttpRpcProtocol<D>)
    requires lawful { C.lawful rest.now.codec }
    requires lawful_rpc { D.lawful rpc.now.codec }
    ensures to_rpc { ByCodecs PostsView C.text C.holds D.text D.holds rest.now rpc.now }
    ensures to_rest { ByCodecs PlacesView C.text C.holds D.text D.holds rest.now rpc.now }
{
    facts_decide_view(rest);
    view_settles(rest);
}
