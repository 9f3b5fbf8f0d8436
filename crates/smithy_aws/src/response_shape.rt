// A shape that responses of restJson1 are read by.
ghost use Rattle.std.specs.Prelude.{◌≡◌, IfOk, IsTrue};
ghost use Rattle.smithy_schema.specs.References.{schema_of};
ghost use Rattle.smithy_serde.specs.StoredValues.{HasNode};
ghost use Rattle.smithy_aws.specs.ResponseValues.{schema_in, takes_responses};

use smithy_binding::checked_output;
use smithy_http::{NonUtf8HeaderHandling, Response};
use smithy_response::response_value;
use smithy_schema::{SchemaIndex, SchemaRef, Schemas};
use smithy_serde::{Codec, SerdeError, StructValue};
use smithy_types::OutOfMemory;
use smithy_wire::{Side, WireJson, WireStyle, names_stand};
use std::alloc::Global;

/// A shape that responses of AWS restJson1 are read by: an output, or a modelled error.
#[derive(Clone, Copy)]
pub struct RestJson1Shape<'t> {
    table: &'t Schemas,
    shape: SchemaIndex,
    is_error: bool,
    floors_times: bool,
    ghost has_node: { HasNode table.now shape.0 },
    ghost taken: { IsTrue (takes_responses (schema_in table.now shape.0)) },
}

impl<'t> RestJson1Shape<'t> {
    ghost use Rattle.std.specs.Prelude.{◌≡◌, true, IfOk};
    ghost use Rattle.smithy_wire.specs.Forms as forms;
    ghost use Rattle.smithy_wire.specs.WireOf.{form_in, style_in};
    ghost use Rattle.smithy_wire.specs.declared.side.Side.TheVariants as side;
    ghost use Rattle.smithy_aws.specs.BodyValues.{style_of, GivesValue};
    ghost use Rattle.smithy_aws.specs.ResponseShapes.{shape_of, IsTaken};
    ghost use Rattle.smithy_aws.specs.ResponseValues.{floored, rest_json1_value};

    /// The shape at a place of a table, as an output or as a modelled error; None exactly where no response can be read by it
    /// (`checked_output`), or where names don't stand in it (`names_stand`). Condition: the node is defined.
    /// Takes memory for these tests alone.
    pub fn new(
        alloc: Global,
        table: &'t Schemas,
        shape: SchemaIndex,
        is_error: bool,
    ) -> Result<Option<RestJson1Shape<'t>>, OutOfMemory>
        requires { HasNode table.now shape.0 }
        ensures { IfOk result (IsTaken table.now shape.0 is_error) }
    {
        let Some(schema) = table.get(shape) else {
            unreachable!()
        };
        if !takes_responses(alloc, schema)? {
            return Ok(None);
        }
        Ok(Some(RestJson1Shape {
            table,
            shape,
            is_error,
            floors_times: false,
        }))
    }

    /// The same shape, which drops fractions of seconds in bodies, toward minus infinity, where one that is new refuses them. Takes no
    /// memory.
    pub fn with_floored_times(self) -> RestJson1Shape<'t>
        ensures { shape_of result ≡ floored (shape_of self.entry) }
    {
        RestJson1Shape {
            table: self.table,
            shape: self.shape,
            is_error: self.is_error,
            floors_times: true,
        }
    }

    /// The value of a response: what its status, its headers and its body have for the members of the shape, the body by their
    /// names in JSON (Smithy, AWS restJson1 protocol). A null member is not there, at every depth; no bytes are the empty object.
    /// It answers the first refusal that the policy doesn't hide: bound members come before the body, of which a number or a time
    /// that can't be read as its node asks is told with its path. Takes memory.
    pub fn value(
        &self,
        alloc: Global,
        response: &Response,
        policy: NonUtf8HeaderHandling,
    ) -> Result<StructValue<'t>, SerdeError>
        ensures { GivesValue (rest_json1_value (shape_of self.now) response.now policy) result }
    {
        let body = self
            .wire()
            .create_deserializer(alloc, response.body_bytes())?;
        let value = response_value(
            alloc,
            body,
            response,
            self.table,
            self.shape,
            self.is_error,
            policy,
        )?;
        Ok(value.present(alloc)?)
    }

    // The JSON of a body.
    fn wire(&self) -> WireJson<'t>
        ensures form { form_in result ≡ forms.body_form side.Response (shape_of self.now).schema }
        ensures style { style_in result ≡ style_of true (shape_of self.now).floors_times }
    {
        let table = self.table;
        let Some(schema) = table.get(self.shape) else {
            unreachable!()
        };
        let style = WireStyle {
            json_names: true,
            floors_times: self.floors_times,
        };
        WireJson::of_body(Side::Response, schema, style, None)
    }
}

// Whether the bindings of the schema are sound, and names stand in responses by it.
fn takes_responses(alloc: Global, schema: SchemaRef<'_>) -> Result<bool, OutOfMemory>
    ensures { IfOk result (λ b. b ≡ takes_responses (schema_of schema.entry)) }
{
    Ok(checked_output(alloc, schema)? && names_stand(alloc, schema, Side::Response)?)
}
