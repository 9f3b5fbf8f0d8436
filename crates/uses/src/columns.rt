// Two requests of one schema, with the names of their headers put into lower case once.
ghost use Rattle.std.specs.Prelude.{IfOk};
ghost use Rattle.smithy_schema.specs.References.{schema_of};
ghost use Rattle.smithy_serde.specs.StructValues.{members_of};
ghost use Rattle.uses.specs.Answering.{BothAnswer};

use crate::requests::unplaced;
use smithy_binding::{HttpBindingProtocol, LowerHeaderNames, checked_input};
use smithy_document::{JsonCodec, json_is_lawful};
use smithy_http::Request;
use smithy_schema::{SchemaExtension, SchemaRef};
use smithy_serde::{OmitFlags, SerdeError, StructValue};
use std::alloc::Global;

/// The requests of two inputs of one schema by REST, each as `rest_request` makes it; the second takes the names of its headers
/// from the column that the first has filled. It is refused where no request can be placed by the schema, and with the first
/// fault of an input. Takes memory.
pub fn two_requests(
    alloc: Global,
    one: &StructValue<'_>,
    other: &StructValue<'_>,
    schema: SchemaRef<'_>,
    omit: OmitFlags,
) -> Result<(Request, Request), SerdeError>
    ensures { IfOk result
        (BothAnswer (schema_of schema.entry) (members_of one.now) (members_of other.now) omit) }
{
    let Some(table) = schema.table() else {
        return Err(unplaced(alloc));
    };
    if !checked_input(alloc, schema)? {
        return Err(unplaced(alloc));
    }
    let protocol = HttpBindingProtocol::rest_json(JsonCodec);
    json_is_lawful(protocol.codec());
    let mut names = SchemaExtension::new(alloc, table, LowerHeaderNames::new(alloc))?;
    let first = protocol.serialize_request_cached(alloc, one, schema, "", omit, &mut names)?;
    let second = protocol.serialize_request_cached(alloc, other, schema, "", omit, &mut names)?;
    Ok((first, second))
}
