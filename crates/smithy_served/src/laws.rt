// Laws on responses that were written, each the contract of a function that does nothing.
ghost use Rattle.smithy_binding.specs.Protocols.{protocol_of};
ghost use Rattle.smithy_served.specs.Laws.{OutputsAreReadBack, AreReadBackBeside};

use smithy_binding::HttpBindingProtocol;
use smithy_serde::Codec;

/// The response of a typed output is read as the output's normal form: it hands out each of its members once, with the
/// same value, no other member, and no refusal. So it does, where some member stands in the body, with any body whose
/// document differs in fields alone of members that stand elsewhere. Condition: the codec is lawful (Smithy, HTTP
/// protocol bindings).
pub fn outputs_are_read_back<C: Codec>(protocol: &HttpBindingProtocol<C>)
    requires lawful { C.lawful protocol.now.codec }
    ensures own { OutputsAreReadBack (protocol_of C.text protocol.now) (C.holds protocol.now.codec) }
    ensures beside { AreReadBackBeside (protocol_of C.text protocol.now) (C.holds protocol.now.codec) }
{}
