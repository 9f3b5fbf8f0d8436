// The value of a response of AWS JSON 1.0 and 1.1.
ghost use Rattle.std.specs.Prelude.{false};
ghost use Rattle.smithy_serde.specs.StoredValues.{HasNode};
ghost use Rattle.smithy_aws.specs.BodyValues.{GivesAwsJson};

use smithy_http::Response;
use smithy_schema::{SchemaIndex, Schemas};
use smithy_serde::{Codec, SerdeError, ShapeReader, StructValue, ValueReader};
use smithy_wire::{WireJson, WireStyle};
use std::alloc::Global;

/// The value of a response of AWS JSON 1.0 or 1.1, by the output or the modelled error at a place of a table: what its body has
/// for the members, whatever bindings they have, by their own names (Smithy, AWS JSON protocols). A null member is not there, at
/// every depth; no bytes are the empty object. It answers the first refusal; a number or a time that can't be read as its node asks
/// is told with its path, and so is a time with a fraction of a second. Condition: the node is defined. Takes memory.
pub fn aws_json_value<'t>(
    alloc: Global,
    response: &Response,
    table: &'t Schemas,
    shape: SchemaIndex,
) -> Result<StructValue<'t>, SerdeError>
    requires { HasNode table.now shape.0 }
    ensures { GivesAwsJson false table.now shape.0 response.now result }
{
    aws_json_value_with(alloc, response, table, shape, false)
}

/// The same, where fractions of seconds are dropped, toward minus infinity, or else refused.
pub fn aws_json_value_with<'t>(
    alloc: Global,
    response: &Response,
    table: &'t Schemas,
    shape: SchemaIndex,
    floors_times: bool,
) -> Result<StructValue<'t>, SerdeError>
    requires { HasNode table.now shape.0 }
    ensures { GivesAwsJson floors_times table.now shape.0 response.now result }
{
    let Some(schema) = table.get(shape) else {
        unreachable!()
    };
    let style = WireStyle {
        json_names: false,
        floors_times,
    };
    let wire = WireJson::of_node(schema, style, None);
    let mut body = wire.create_deserializer(alloc, response.body_bytes())?;
    let value = ValueReader::new(table, shape).read(alloc, &mut body)?;
    Ok(value.present(alloc)?)
}
