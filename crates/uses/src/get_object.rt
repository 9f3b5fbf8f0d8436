// A model made in code, an input of it, and the request: `GET /{Bucket}/{Key+}` with a query member and a header.
ghost use Rattle.std.specs.Prelude.{◌≡◌, codes, IfOk};
ghost use Rattle.smithy_ids.specs.ShapeIdParts.{parts_of};
ghost use Rattle.smithy_serde.specs.StoredValues.{writes_in, AreDefined};
ghost use Rattle.uses.specs.GetObject as model;
ghost use Rattle.uses.specs.Answering.{RestAnswersModel};

use crate::requests::rest_request;
use smithy_http::Request;
use smithy_ids::{HttpTrait, ShapeId, ShapeType};
use smithy_schema::{Schema, SchemaError, SchemaIndex, Schemas};
use smithy_serde::{OmitFlags, SerdeError, ShapeValue, StructValue, WriteList};
use smithy_types::OutOfMemory;
use std::alloc::Global;

// The places of the nodes, in the order in which the table gets them.
const BUCKET: SchemaIndex = SchemaIndex(0);

const KEY: SchemaIndex = SchemaIndex(1);

const MAX: SchemaIndex = SchemaIndex(2);

const ID: SchemaIndex = SchemaIndex(3);

/// The place of the input's node.
pub const INPUT: SchemaIndex = SchemaIndex(4);

const MEMBERS: [SchemaIndex; 4] = [BUCKET, KEY, MAX, ID];

// The name of the input's shape, with its namespace and its name.
fn input_id() -> ShapeId<'static>
    ensures { (parts_of result).full_name ≡ codes "ex#GetIn" }
{
    ShapeId::from_parts("ex#GetIn", "ex", "GetIn")
}

// A label: it stands in the path.
fn bucket_node() -> Schema<'static>
    ensures { result ≡ model.bucket_node }
{
    Schema::new_member(input_id(), ShapeType::String, "Bucket", 0).with_http_label()
}

fn key_node() -> Schema<'static>
    ensures { result ≡ model.key_node }
{
    Schema::new_member(input_id(), ShapeType::String, "Key", 1).with_http_label()
}

// A query member.
fn max_node() -> Schema<'static>
    ensures { result ≡ model.max_node }
{
    Schema::new_member(input_id(), ShapeType::Integer, "Max", 2).with_http_query("max")
}

// A header.
fn id_node() -> Schema<'static>
    ensures { result ≡ model.id_node }
{
    Schema::new_member(input_id(), ShapeType::Integer, "Id", 3).with_http_header("X-Id")
}

// The structure of these members, with the operation's `@http`.
fn input_node() -> Schema<'static>
    ensures { result ≡ model.input_node }
{
    let input = Schema::new_struct(input_id(), ShapeType::Structure, &MEMBERS);
    input.with_http(HttpTrait::new("GET", "/{Bucket}/{Key+}", None))
}

/// The model: a table of the members and the input. Takes memory.
pub fn get_object_table(alloc: Global) -> Result<Schemas, SchemaError>
    ensures { IfOk result (λ t. t ≡ model.table) }
{
    let mut table = Schemas::new(alloc);
    table.insert(bucket_node())?;
    table.insert(key_node())?;
    table.insert(max_node())?;
    table.insert(id_node())?;
    table.insert(input_node())?;
    Ok(table)
}

/// The members of an input, each with its value. Takes memory.
#[tactic(auto, unfolding(smithy_serde::specs::StoredValues::value_in, smithy_serde::specs::StoredValues::IsDefined))]
pub fn get_object_writes(
    alloc: Global,
    bucket: &str,
    key: &str,
    max: i32,
    id: i32,
) -> Result<WriteList, OutOfMemory>
    ensures writes { IfOk result (λ w. writes_in model.table w ≡ model.input bucket.now key.now max id) }
    ensures defined { IfOk result (λ w. AreDefined model.table w) }
{
    let mut writes = WriteList::new(alloc);
    writes.push(BUCKET, ShapeValue::text(alloc, bucket)?)?;
    writes.push(KEY, ShapeValue::text(alloc, key)?)?;
    writes.push(MAX, ShapeValue::Integer(max))?;
    writes.push(ID, ShapeValue::Integer(id))?;
    Ok(writes)
}

/// The request of an input: exactly what the binding traits call for, or the first fault. Condition: the writes are to
/// nodes of the model. Takes memory.
pub fn get_object_request(alloc: Global, writes: WriteList) -> Result<Request, SerdeError>
    requires { AreDefined model.table writes }
    ensures { RestAnswersModel (writes_in model.table writes) result }
{
    let Ok(table) = get_object_table(alloc) else {
        return Err(SerdeError::OutOfMemory);
    };
    let Some(schema) = table.get(INPUT) else {
        unreachable!()
    };
    let input = StructValue::with_writes(&table, INPUT, writes);
    rest_request(alloc, &input, schema, "", OmitFlags::KEEP_ALL)
}
