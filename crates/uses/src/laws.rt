// What requests tell of their inputs, and keep of them.
ghost use Rattle.std.specs.Prelude.{IsTrue};
ghost use Rattle.smithy_schema.specs.References.{schema_of};
ghost use Rattle.smithy_binding.specs.Checked.{checked_input};
ghost use Rattle.smithy_binding.specs.Protocols.{protocol_of};
ghost use Rattle.smithy_unambiguity.specs.Laws.{ViewSettles};
ghost use Rattle.smithy_gateway.specs.Laws.{ByCodecs, CalledIsExact, PlacesView, PostsView};
ghost use Rattle.uses.specs.Telling.{FactsTell};

use smithy_binding::{HttpBindingProtocol, HttpRpcProtocol};
use smithy_gateway::laws::{called_is_exact, input_is_kept};
use smithy_schema::SchemaRef;
use smithy_schema::laws::schema_is_well_made;
use smithy_serde::Codec;
use smithy_unambiguity::laws::{facts_decide_view, view_settles};

/// The requests of two typed inputs by this schema have the same facts exactly if the inputs have one normal form, which is its
/// own. Conditions: a request can be placed by the schema, and the codec is lawful. Takes no memory.
pub fn requests_tell<C: Codec>(protocol: &HttpBindingProtocol<C>, schema: SchemaRef<'_>)
    requires checked { IsTrue (checked_input (schema_of schema)) }
    requires lawful { C.lawful protocol.now.codec }
    ensures settles { ViewSettles (protocol_of C.text protocol.now) }
    ensures tells { FactsTell (protocol_of C.text protocol.now) (schema_of schema.entry) }
{
    schema_is_well_made(schema);
    view_settles(protocol);
    facts_decide_view(protocol);
}

/// A request with the facts of a typed input's has a request to RPC, which posts the normal form of that input; and each request
/// that posts it, nested at most 100 deep, has a request by REST with the facts of the first, of which that normal form is
/// recovered. What a call is read as is exactly the typed input in normal form that it posts. Condition: both codecs are lawful.
/// Takes no memory.
pub fn calls_keep_inputs<C: Codec, D: Codec>(
    rest: &HttpBindingProtocol<C>,
    rpc: &HttpRpcProtocol<D>,
)
    requires lawful { C.lawful rest.now.codec }
    requires lawful_rpc { D.lawful rpc.now.codec }
    ensures exact { ByCodecs CalledIsExact C.text C.holds D.text D.holds rest.now rpc.now }
    ensures to_rpc { ByCodecs PostsView C.text C.holds D.text D.holds rest.now rpc.now }
    ensures to_rest { ByCodecs PlacesView C.text C.holds D.text D.holds rest.now rpc.now }
{
    called_is_exact(rest, rpc);
    input_is_kept(rest, rpc);
}
