// The response of an output (Smithy, HTTP protocol bindings).
ghost use Rattle.std.specs.Prelude.{◌≡◌, ◌≤◌, IsTrue, IfSome};
ghost use Rattle.smithy_schema.specs.References.{schema_of};
ghost use Rattle.smithy_binding.specs.CheckedOutput.{checked_output};
ghost use Rattle.smithy_serve.specs.Answer.{response_at};
ghost use Rattle.smithy_serve.specs.Writing.{WritesBy};

use smithy_binding::{HttpBindingProtocol, PlacedOutput};
use smithy_http::Response;
use smithy_schema::SchemaRef;
use smithy_serde::{Codec, SerdeError, SerializableStruct};
use std::alloc::Global;

// The response of what an output has, with the code where the output has no status of its own.
fn response_of(placed: PlacedOutput, code: u16) -> Response
    requires code { (100 ≤ code) × (code ≤ 999) }
    requires own { IfSome placed.code (λ c. (100 ≤ c) × (c ≤ 999)) }
    ensures { result ≡ response_at code placed }
{
    match placed.code {
        Some(status) => Response::new(status, placed.headers, Some(placed.body)),
        None => Response::new(code, placed.headers, Some(placed.body)),
    }
}

/// The response of an output, by its schema (Smithy, HTTP protocol bindings). The status is the first write of the
/// response code, and `code` where none is written. Each header member's first write is a header, and so is each entry
/// of the prefix map's; behind them stand the content type, where the codec writes the body, and its length, there and
/// where the body is not empty, each unless such a name stands. The body is the payload's first write, as it is where
/// that is a Blob or String and else as the codec's text, and empty where there is none; without a payload it is the
/// codec's text of the writes of unbound members, where the schema has such members. A member with the traits of a
/// request alone is unbound. Conditions: `checked_output` holds of the schema, the codec is lawful, and `code` has three
/// digits.
///
/// Refused with the first fault of the writes in order, and then of the body's document: `UnknownMember` where a write
/// is for no member, `UnsupportedOperation` where it is not of the member's kind or a map ends with a key,
/// `InvalidInput` for a header that no message has, `Custom` for a time outside the calendar, a response code outside
/// 100 to 999, and a rule of documents that the body breaks. Takes memory; `OutOfMemory` where it is not there.
pub fn write_response<C: Codec>(
    alloc: Global,
    protocol: &HttpBindingProtocol<C>,
    output: &dyn SerializableStruct,
    schema: SchemaRef<'_>,
    code: u16,
) -> Result<Response, SerdeError>
    requires checked { IsTrue (checked_output (schema_of schema)) }
    requires lawful { C.lawful protocol.now.codec }
    requires code { (100 ≤ code) × (code ≤ 999) }
    ensures { WritesBy C.text protocol.now schema.entry (writes output.now) code result }
{
    let placed = protocol.place_output(alloc, output, schema)?;
    Ok(response_of(placed, code))
}
