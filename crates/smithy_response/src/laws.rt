// Laws of responses, and what a request tells of its input.
ghost use Rattle.smithy_serde.specs.Handing.{at_members};
ghost use Rattle.smithy_response.specs.TransportWins.{TransportWins};
ghost use Rattle.smithy_response.specs.WholeResponses.{HandsResponse};

use crate::response_reader::ResponseReader;
use smithy_serde::{MemberConsumer, ShapeDeserializer};
pub use smithy_unambiguity::laws::{facts_decide_view, view_settles};

/// Where no member is a payload, a response hands out the same whatever its body's document says of members that the
/// response has elsewhere (Smithy, HTTP protocol bindings).
pub fn transport_wins()
    ensures { TransportWins }
{}

/// What `read_struct` hands a consumer over a response's reader is what the response hands out, whether the reader is that of
/// the whole response or of its body alone.
pub fn reader_hands_out<D: ShapeDeserializer, C: MemberConsumer>(_reader: &ResponseReader<D>)
    ensures { HandsResponse D.at_hand (at_members C.takes) _reader.now }
{}
