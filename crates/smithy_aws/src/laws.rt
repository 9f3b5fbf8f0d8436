//! Laws of the requests of AWS's JSON protocols.
ghost use Rattle.std.specs.Prelude.{codes};
ghost use Rattle.smithy_unambiguity.specs.Laws.{FactsDecideView};
ghost use Rattle.smithy_aws.specs.Laws.{RestJson1Tells, AwsJsonTells};
ghost use Rattle.smithy_aws.specs.views.Inputs.{input_of};
ghost use Rattle.smithy_aws.specs.views.Sent.{bodies};

use crate::rest_json1_input::RestJson1Input;
use smithy_binding::HttpBindingProtocol;
use smithy_schema::laws::schema_is_well_made;
use smithy_serde::Codec;
use smithy_unambiguity::laws::facts_decide_view;
use smithy_wire::{WireJson, wire_json_is_lawful};

/// A request of restJson1 tells the normal form of its ready input, and no more: two requests of typed inputs by this schema,
/// at one endpoint and with the same default headers left out, have the same facts exactly if the inputs that were made ready
/// have one normal form. Asked where both bodies are bytes of a payload, and neither is empty: a header member says the
/// content type of both inputs, or of neither. Takes no memory.
pub fn rest_json1_requests_tell(by: &RestJson1Input<'_>)
    ensures { RestJson1Tells (input_of by.now) }
{
    schema_is_well_made(by.schema);
    let wire = WireJson::of_input(by.schema, true);
    wire_json_is_lawful(&wire);
    bodies_tell(wire);
}

/// A request of AWS JSON 1.0 or 1.1 tells the normal form of what is posted, and no more: two requests of one call, of inputs
/// that follow one schema at every depth and nest no deeper than 100 levels, have the same facts exactly if the inputs
/// without their null members have one normal form.
pub fn aws_json_requests_tell()
    ensures { AwsJsonTells }
{}

// What the core's requests tell, with bodies of JSON by a codec.
fn bodies_tell<C: Codec + Drop>(codec: C)
    requires { C.lawful codec }
    ensures { FactsDecideView (bodies (codes "application/json") (C.text codec)) }
{
    let protocol = HttpBindingProtocol::rest_json(codec);
    facts_decide_view(&protocol);
}
