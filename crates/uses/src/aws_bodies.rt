// Bodies as AWS's protocols have them.
ghost use Rattle.std.specs.Prelude.{IfOk, IfSome};
ghost use Rattle.smithy_schema.specs.References.{schema_of};
ghost use Rattle.smithy_serde.specs.StructValues.{members_of};
ghost use Rattle.smithy_binding.specs.Refusing.{Answers};
ghost use Rattle.uses.specs.AwsBodies.{aws_request, ComesFromBody, IsAwsBody};

use crate::documents::structure_in;
use crate::requests::unplaced;
use smithy_aws::RestJson1Input;
use smithy_document::DiscriminatedDocumentExt;
use smithy_http::Request;
use smithy_schema::SchemaRef;
use smithy_serde::{OmitFlags, SerdeError, SerializableStruct, StructValue, ValueReader};
use smithy_types::{Blob, DiscriminatedDocument, NoSettings};
use smithy_wire::{Side, WireJson, names_stand};
use std::alloc::Global;

/// The JSON body of an input as restJson1 has it, with its names in JSON; None where names don't stand in requests by the
/// schema. It refuses with `Custom` where the input has no document. Takes memory.
pub fn aws_body(
    alloc: Global,
    schema: SchemaRef<'_>,
    input: &dyn SerializableStruct,
) -> Result<Option<Blob>, SerdeError>
    ensures { IfOk result (λ o. IfSome o (IsAwsBody (schema_of schema.entry) (writes input.now))) }
{
    if !names_stand(alloc, schema, Side::Request)? {
        return Ok(None);
    }
    let told = DiscriminatedDocument::<NoSettings>::from_struct(alloc, schema, input)?;
    let wire = WireJson::of_input(schema, true);
    Ok(Some(wire.text(alloc, told.document())?))
}

/// The request of an input as restJson1 has it: by its binding traits, its body with names in JSON, or the first fault. It is
/// refused where no request is made by the schema. For many inputs of one schema the `RestJson1Input` is made once. Takes memory.
pub fn aws_request(
    alloc: Global,
    schema: SchemaRef<'_>,
    input: StructValue<'_>,
    endpoint: &str,
    omit: OmitFlags,
) -> Result<Request, SerdeError>
    ensures { Answers result (aws_request (schema_of schema.entry) (members_of input.entry) endpoint.now omit) }
{
    match RestJson1Input::new(alloc, schema)? {
        Some(by) => by.request(alloc, input, endpoint, omit),
        None => Err(unplaced(alloc)),
    }
}

/// The structure that a body is by the JSON of a node: of the body of writes that follow the reader's node, their normal form. It
/// refuses with `InvalidInput` where a number or a time can't be read as its node asks. Takes memory.
pub fn aws_structure<'t>(
    alloc: Global,
    wire: &WireJson<'_>,
    body: &[u8],
    reader: ValueReader<'t>,
) -> Result<StructValue<'t>, SerdeError>
    ensures { ComesFromBody wire.now body.now reader.entry result }
{
    let document = wire.document(alloc, body)?;
    let told = DiscriminatedDocument::new(document, NoSettings);
    structure_in(alloc, &told, reader)
}
