// A response as the value of its output.
ghost use Rattle.std.specs.Prelude.{◌≡◌, [], IfOk};
ghost use Rattle.smithy_response.specs.Words.{schema_of};
ghost use Rattle.smithy_serde.specs.MembersRead.{ReadsListed};
ghost use Rattle.smithy_serde.specs.StoredValues.{HasNode, AreDefined};
ghost use Rattle.smithy_response.specs.ResponseReaders.{reader_at_hand, IsReaderOf};
ghost use Rattle.smithy_response.specs.WholeResponses.{GivesResponse, Hands};

use crate::response_reader::{ResponseReader, http_error_deserializer, http_output_deserializer};
use smithy_http::{NonUtf8HeaderHandling, Response};
use smithy_schema::{SchemaIndex, SchemaRef, Schemas};
use smithy_serde::{
    MemberConsumer, SerdeError, ShapeDeserializer, StructValue, WriteList, read_struct,
    read_struct_value,
};
use smithy_types::OutOfMemory;
use std::alloc::Global;

/// What a response has for the members of its output, or of a modelled error, as a structure in index order. It answers
/// the first refusal that the policy doesn't hide. Conditions: the node is defined, and nothing is open in the body's
/// reader (Smithy, HTTP protocol bindings).
pub fn response_value<'t, D: ShapeDeserializer + Drop>(
    alloc: Global,
    body: D,
    response: &Response,
    table: &'t Schemas,
    output: SchemaIndex,
    is_error: bool,
    policy: NonUtf8HeaderHandling,
) -> Result<StructValue<'t>, SerdeError>
    requires node { HasNode table.now output.0 }
    requires begins { (D.at_hand body).opened ≡ [] }
    ensures { GivesResponse table.now output.0 response.now is_error policy (D.at_hand body).held result }
{
    let Some(schema) = table.get(output) else {
        unreachable!()
    };
    let mut reader = reader_of(alloc, body, response, schema, is_error, policy)?;
    let writes = read_whole(alloc, &mut reader, table, schema)?;
    Ok(StructValue::with_writes(table, output, writes))
}

// Reads what the reader hands out. Each kind of reader is read as such, so that no call asks for the kind.
fn read_whole<D: ShapeDeserializer>(
    alloc: Global,
    reader: &mut ResponseReader<D>,
    table: &Schemas,
    schema: SchemaRef<'_>,
) -> Result<WriteList, SerdeError>
    requires { (schema_of schema).table ≡ table.now }
    ensures listed { ReadsListed table.now (schema_of schema.entry) (reader_at_hand D.at_hand reader.old) result }
    ensures defined { IfOk result (λ ws. AreDefined table.now ws) }
{
    match reader {
        ResponseReader::BodyOnly(body) => read_struct_value(alloc, body, table, schema),
        ResponseReader::Composite(whole) => read_struct_value(alloc, whole, table, schema),
    }
}

/// Hands what a response has for the members of its output, or of a modelled error, to the consumer: each once and in
/// order, up to the first refusal that the policy doesn't hide. Condition: nothing is open in the body's reader.
pub fn read_members<D: ShapeDeserializer + Drop, M: MemberConsumer>(
    alloc: Global,
    body: D,
    response: &Response,
    node: SchemaRef<'_>,
    is_error: bool,
    policy: NonUtf8HeaderHandling,
    to: &mut M,
) -> Result<(), SerdeError>
    requires { (D.at_hand body).opened ≡ [] }
    ensures handed { Hands M.takes node.entry response.now is_error policy (D.at_hand body) to.old to.new result }
    ensures kept { M.keeps to.old to.new }
{
    let mut reader = reader_of(alloc, body, response, node, is_error, policy)?;
    read_struct(alloc, &mut reader, node, to)
}

// The reader of an output or of a modelled error.
fn reader_of<D: ShapeDeserializer + Drop>(
    alloc: Global,
    body: D,
    response: &Response,
    schema: SchemaRef<'_>,
    is_error: bool,
    policy: NonUtf8HeaderHandling,
) -> Result<ResponseReader<D>, OutOfMemory>
    requires { (D.at_hand body).opened ≡ [] }
    ensures { IfOk result (IsReaderOf D.at_hand schema.entry response.now is_error policy body) }
{
    if is_error {
        http_error_deserializer(alloc, body, response, policy)
    } else {
        http_output_deserializer(alloc, body, response, schema, policy)
    }
}
