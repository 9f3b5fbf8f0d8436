// A service that answers by schema: the response of an output.
ghost use Rattle.std.specs.Prelude.{◌≡◌, ◌≤◌, false, IsErr};
ghost use Rattle.smithy_schema.specs.References.{schema_of};
ghost use Rattle.smithy_serde.specs.StructValues.{members_of};
ghost use Rattle.smithy_binding.specs.CheckedOutput.{checked_output as checked};
ghost use Rattle.uses.specs.Serving.{RestResponds};

use smithy_binding::{HttpBindingProtocol, checked_output};
use smithy_document::{JsonCodec, json_is_lawful};
use smithy_http::Response;
use smithy_schema::SchemaRef;
use smithy_serde::{SerdeError, StructValue};
use smithy_serve::write_response;
use std::alloc::Global;

// The refusal of a schema that no response can be written by.
fn unwritten(alloc: Global) -> SerdeError {
    SerdeError::custom(alloc, "no response can be written by the schema")
}

/// The response of an output by REST with bodies of JSON: exactly what the binding traits of its schema call for, with
/// the code where the output has no status of its own, or the first fault. It is refused where no response can be
/// written by the schema. Condition: the code has three digits. Takes memory.
pub fn rest_response(
    alloc: Global,
    output: &StructValue<'_>,
    schema: SchemaRef<'_>,
    code: u16,
) -> Result<Response, SerdeError>
    requires { (100 ≤ code) × (code ≤ 999) }
    ensures answer { RestResponds (schema_of schema.entry) (members_of output.now) code result }
    ensures refused { checked (schema_of schema.entry) ≡ false → IsErr result }
{
    if !checked_output(alloc, schema)? {
        return Err(unwritten(alloc));
    }
    let protocol = HttpBindingProtocol::rest_json(JsonCodec);
    json_is_lawful(protocol.codec());
    write_response(alloc, &protocol, output, schema, code)
}
