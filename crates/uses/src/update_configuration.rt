// A client of Amazon MQ's `UpdateConfiguration` by AWS restJson1, with its model made in code: names in JSON, and a time that is a text.
ghost use Rattle.std.specs.Prelude.{◌≡◌, IfOk};
ghost use Rattle.smithy_ids.specs.ShapeIdParts.{parts_of};
ghost use Rattle.smithy_binding.specs.Refusing.{Answers};
ghost use Rattle.smithy_serde.specs.StoredValues.{writes_in, AreDefined};
ghost use Rattle.uses.specs.UpdateConfiguration as model;

use crate::aws_bodies::aws_request;
use smithy_http::Request;
use smithy_ids::{HttpTrait, ShapeId, ShapeType, TimestampFormat};
use smithy_schema::{Schema, SchemaError, SchemaIndex, Schemas};
use smithy_serde::{OmitFlags, SerdeError, ShapeValue, StructValue, WriteList};
use smithy_types::OutOfMemory;
use std::alloc::Global;

// The places of the nodes, in the order in which the table gets them.
const ID: SchemaIndex = SchemaIndex(0);

const DATA: SchemaIndex = SchemaIndex(1);

const INPUT: SchemaIndex = SchemaIndex(2);

/// The place of the output's node.
pub const OUTPUT: SchemaIndex = SchemaIndex(6);

/// The place of the error's node.
pub const NOT_FOUND: SchemaIndex = SchemaIndex(9);

const INPUT_MEMBERS: [SchemaIndex; 2] = [ID, DATA];

const OUTPUT_MEMBERS: [SchemaIndex; 3] = [SchemaIndex(3), SchemaIndex(4), SchemaIndex(5)];

const ERROR_MEMBERS: [SchemaIndex; 2] = [SchemaIndex(7), SchemaIndex(8)];

// The names of the shapes.
fn input_id() -> ShapeId<'static>
    ensures { (parts_of result).full_name ≡ model.input_name }
{
    ShapeId::from_parts(
        "com.amazonaws.mq#UpdateConfigurationRequest",
        "com.amazonaws.mq",
        "UpdateConfigurationRequest",
    )
}

fn output_id() -> ShapeId<'static>
    ensures { (parts_of result).full_name ≡ model.output_name }
{
    ShapeId::from_parts(
        "com.amazonaws.mq#UpdateConfigurationResponse",
        "com.amazonaws.mq",
        "UpdateConfigurationResponse",
    )
}

fn error_id() -> ShapeId<'static>
    ensures { (parts_of result).full_name ≡ model.error_name }
{
    ShapeId::from_parts(
        "com.amazonaws.mq#NotFoundException",
        "com.amazonaws.mq",
        "NotFoundException",
    )
}

// A text in the body, under its name in JSON.
fn field<'a>(shape: ShapeId<'a>, index: usize, name: &'a str, json_name: &'a str) -> Schema<'a>
    ensures { result ≡ model.field (parts_of shape.entry).full_name index name.now json_name.now }
{
    Schema::new_member(shape, ShapeType::String, name, index).with_json_name(json_name)
}

// A label: it stands in the path.
fn id_node() -> Schema<'static>
    ensures { result ≡ model.id_node }
{
    Schema::new_member(input_id(), ShapeType::String, "ConfigurationId", 0).with_http_label()
}

// The structure of the members, with the operation's `@http`.
fn input_node() -> Schema<'static>
    ensures { result ≡ model.input_node }
{
    let input = Schema::new_struct(input_id(), ShapeType::Structure, &INPUT_MEMBERS);
    input.with_http(HttpTrait::new("PUT", "/v1/configurations/{ConfigurationId}", None))
}

// A time that is a text.
fn created_node() -> Schema<'static>
    ensures { result ≡ model.created_node }
{
    Schema::new_member(output_id(), ShapeType::Timestamp, "Created", 0)
        .with_json_name("created")
        .with_timestamp_format(TimestampFormat::DateTime)
}

fn output_node() -> Schema<'static>
    ensures { result ≡ model.output_node }
{
    Schema::new_struct(output_id(), ShapeType::Structure, &OUTPUT_MEMBERS)
}

fn error_node() -> Schema<'static>
    ensures { result ≡ model.error_node }
{
    Schema::new_struct(error_id(), ShapeType::Structure, &ERROR_MEMBERS)
}

/// The model: a table of the input, the output and an error, each behind its members. Takes memory.
pub fn update_configuration_table(alloc: Global) -> Result<Schemas, SchemaError>
    ensures { IfOk result (λ t. t ≡ model.table) }
{
    let mut table = Schemas::new(alloc);
    table.insert(id_node())?;
    table.insert(field(input_id(), 1, "Data", "data"))?;
    table.insert(input_node())?;
    table.insert(created_node())?;
    table.insert(field(output_id(), 1, "Id", "id"))?;
    table.insert(field(output_id(), 2, "Name", "name"))?;
    table.insert(output_node())?;
    table.insert(field(error_id(), 0, "ErrorAttribute", "errorAttribute"))?;
    table.insert(field(error_id(), 1, "Message", "message"))?;
    table.insert(error_node())?;
    Ok(table)
}

// The members of an input, each with its value.
#[tactic(auto, unfolding(smithy_serde::specs::StoredValues::value_in, smithy_serde::specs::StoredValues::IsDefined))]
fn update_configuration_writes(
    alloc: Global,
    id: &str,
    content: &str,
) -> Result<WriteList, OutOfMemory>
    ensures writes { IfOk result (λ w. writes_in model.table w ≡ model.input id.now content.now) }
    ensures defined { IfOk result (λ w. AreDefined model.table w) }
{
    let mut writes = WriteList::new(alloc);
    writes.push(ID, ShapeValue::text(alloc, id)?)?;
    writes.push(DATA, ShapeValue::text(alloc, content)?)?;
    Ok(writes)
}

/// The request that gives a configuration new data: exactly the one of this input, or its first fault. Condition: the table is the
/// model. Takes memory.
pub fn update_configuration_request(
    alloc: Global,
    table: &Schemas,
    id: &str,
    content: &str,
) -> Result<Request, SerdeError>
    requires { table.now ≡ model.table }
    ensures { Answers result (model.update_request id.now content.now) }
{
    let Some(schema) = table.get(INPUT) else {
        unreachable!()
    };
    let writes = update_configuration_writes(alloc, id, content)?;
    let input = StructValue::with_writes(table, INPUT, writes);
    aws_request(alloc, schema, input, "", OmitFlags::KEEP_ALL)
}
