// Requests of inputs by both protocols, each made in every way that there is: from writes that are lent and from writes that are
// told, by the protocol's own calls and as what makes the requests of a client.
ghost use Rattle.std.specs.Prelude.{OnOk, IfOk, IsTrue};
ghost use Rattle.smithy_schema.specs.References.{schema_of};
ghost use Rattle.smithy_serde.specs.StoredValues.{AreDefined, IsDefined};
ghost use Rattle.smithy_binding.specs.Checked.{checked_input as checked};

use crate::given_job::job_bytes;
use crate::models::placed as schema_placed;
use crate::told::{no_job, outcome_text, same_text};
use crate::told_input::ToldInput;
use serde_json::Value;
use smithy_binding::{HttpBindingProtocol, HttpRpcProtocol, LowerHeaderNames, checked_input};
use smithy_document::{JsonCodec, json_is_lawful};
use smithy_http::Request;
use smithy_job::{Job, read_job};
use smithy_json::{Scratch, read_json};
use smithy_model::ModelTable;
use smithy_schema::laws::schema_is_well_made;
use smithy_schema::{SchemaExtension, SchemaIndex, SchemaRef, Schemas};
use smithy_serde::{
    ClientProtocolInner, Codec, OmitFlags, SerializableStruct, ShapeValue, StructValue, WriteList,
};
use smithy_types::{Text, Words};
use smithy_unambiguity::laws::{facts_decide_view, view_settles};
use std::alloc::Global;
use test_rows::{Failed, items_of, text_of};

/// The answer of one of these calls; none of another.
pub fn answer(alloc: Global, call: &str, given: &Value) -> Result<Option<Text>, Failed> {
    match call {
        "HttpBindingProtocol::serialize_request" => Ok(Some(sent(alloc, given, true)?)),
        "HttpRpcProtocol::serialize_request" => Ok(Some(sent(alloc, given, false)?)),
        _ => Ok(None),
    }
}

// The request of a job's input, placed by the binding traits or else posted whole.
fn sent(alloc: Global, given: &Value, is_placed: bool) -> Result<Text, Failed> {
    let bytes = job_bytes(alloc, given)?;
    let mut scratch = Scratch::new(alloc);
    let value = match read_json(alloc, bytes.as_slice(), &mut scratch) {
        Ok(value) => value,
        Err(refusal) => return no_job(alloc, refusal.into()),
    };
    let Job {
        table,
        index,
        further,
        writes,
        endpoint,
        omit,
    } = match read_job(alloc, &value) {
        Ok(job) => job,
        Err(refusal) => return no_job(alloc, refusal),
    };
    let Some(own) = table.get(index) else {
        return Err(Failed);
    };
    let nodes = further.as_ref().unwrap_or(&table);
    let writes = with_broken_map(alloc, nodes, own, given, writes)?;
    let input = StructValue::with_writes(nodes, index, writes);
    let other = other_schema(alloc, given)?;
    let schema = match &other {
        Some(other) => other.table.get(other.index).ok_or(Failed)?,
        None => own,
    };
    if is_placed {
        placed(alloc, input, schema, endpoint, omit)
    } else {
        posted(alloc, input, schema, endpoint, omit)
    }
}

// The schema under `by`, by which the request is made in place of the job's own, where there is one. A name that only this
// one has is written by a node with that name and without an index, and any other by the index that it has in the job's.
fn other_schema(alloc: Global, given: &Value) -> Result<Option<ModelTable>, Failed> {
    let Some(other) = given.get("by") else {
        return Ok(None);
    };
    let bytes = job_bytes(alloc, other)?;
    let mut scratch = Scratch::new(alloc);
    let value = read_json(alloc, bytes.as_slice(), &mut scratch).map_err(|_| Failed)?;
    let placed = schema_placed(alloc, &value).map_err(|_| Failed)?;
    Ok(Some(placed))
}

// The writes, with one for the member under `brokenMap` behind them, where there is one: a map of these texts in turn, whose last
// one may be a key.
#[tactic(auto, unfolding(smithy_serde::specs::StoredValues::IsDefined))]
fn with_broken_map(
    alloc: Global,
    nodes: &Schemas,
    schema: SchemaRef<'_>,
    given: &Value,
    mut writes: WriteList,
) -> Result<WriteList, Failed>
    requires { AreDefined nodes.now writes }
    ensures { IfOk result (λ w. AreDefined nodes.now w) }
{
    let Some(map) = given.get("brokenMap") else {
        return Ok(writes);
    };
    let position = schema.position_of(text_of(map, "member")?).ok_or(Failed)?;
    let node = *schema.members().get(position).ok_or(Failed)?;
    let entries = entries_of(alloc, nodes, node, items_of(map, "texts")?.as_slice())?;
    add(nodes, &mut writes, node, ShapeValue::Map(entries))?;
    Ok(writes)
}

// Texts as keys and values in turn.
#[tactic(auto, unfolding(smithy_serde::specs::StoredValues::IsDefined))]
fn entries_of(
    alloc: Global,
    nodes: &Schemas,
    node: SchemaIndex,
    texts: &[Value],
) -> Result<WriteList, Failed>
    ensures { IfOk result (λ w. AreDefined nodes.now w) }
{
    let mut entries = WriteList::new(alloc);
    for text in texts {
        let text = Text::from_str(alloc, text.as_str().ok_or(Failed)?)?;
        add(nodes, &mut entries, node, ShapeValue::String(text))?;
    }
    Ok(entries)
}

// Adds a write to a node of the table.
fn add(
    nodes: &Schemas,
    writes: &mut WriteList,
    node: SchemaIndex,
    value: ShapeValue,
) -> Result<(), Failed>
    requires writes { AreDefined nodes.now writes.old }
    requires value { IsDefined nodes.now value }
    ensures { OnOk result (AreDefined nodes.now writes.new) }
{
    if nodes.get(node).is_none() {
        return Err(Failed);
    }
    writes.push(node, value)?;
    Ok(())
}

fn placed(
    alloc: Global,
    input: StructValue<'_>,
    schema: SchemaRef<'_>,
    endpoint: &str,
    omit: OmitFlags,
) -> Result<Text, Failed> {
    if !checked_input(alloc, schema)? {
        return Ok(Text::from_str(alloc, "no request by this schema")?);
    }
    let protocol = HttpBindingProtocol::rest_json(JsonCodec);
    json_is_lawful(protocol.codec());
    schema_is_well_made(schema);
    view_settles(&protocol);
    facts_decide_view(&protocol);
    let mut answers = Words::new(alloc);
    place_each_way(
        alloc,
        &protocol,
        &input,
        schema,
        endpoint,
        omit,
        &mut answers,
    )?;
    let told = ToldInput { value: input };
    place_each_way(
        alloc,
        &protocol,
        &told,
        schema,
        endpoint,
        omit,
        &mut answers,
    )?;
    same_text(alloc, answers.as_slice())
}

// Adds what is told of the request of an input by the calls of the protocol, and as a client's.
fn place_each_way<C: Codec>(
    alloc: Global,
    protocol: &HttpBindingProtocol<C>,
    input: &dyn SerializableStruct,
    schema: SchemaRef<'_>,
    endpoint: &str,
    omit: OmitFlags,
    answers: &mut Words,
) -> Result<(), Failed>
    requires checked { IsTrue (checked (schema_of schema)) }
    requires lawful { C.lawful protocol.now.codec }
{
    let outcome = protocol.serialize_request(alloc, input, schema, endpoint, omit);
    answers.push(outcome_text(alloc, outcome)?.as_str())?;
    let Ok(body) = protocol.codec().create_serializer(alloc) else {
        return Err(Failed);
    };
    let outcome = protocol.serialize_request_with_body(alloc, body, input, schema, endpoint, omit);
    answers.push(outcome_text(alloc, outcome)?.as_str())?;
    place_cached(alloc, protocol, input, schema, endpoint, omit, answers)?;
    by_client(alloc, protocol, input, schema, endpoint, omit, answers)
}

// Adds what is told of the request of an input by a column of header names, without a name at first, and then with them.
fn place_cached<C: Codec>(
    alloc: Global,
    protocol: &HttpBindingProtocol<C>,
    input: &dyn SerializableStruct,
    schema: SchemaRef<'_>,
    endpoint: &str,
    omit: OmitFlags,
    answers: &mut Words,
) -> Result<(), Failed>
    requires checked { IsTrue (checked (schema_of schema)) }
    requires lawful { C.lawful protocol.now.codec }
{
    let Some(table) = schema.table() else {
        return Err(Failed);
    };
    let Ok(mut names) = SchemaExtension::new(alloc, table, LowerHeaderNames::new(alloc)) else {
        return Err(Failed);
    };
    let outcome = protocol.serialize_request_cached(
        alloc, input, schema, endpoint, omit, &mut names,
    );
    answers.push(outcome_text(alloc, outcome)?.as_str())?;
    let outcome = protocol.serialize_request_cached(
        alloc, input, schema, endpoint, omit, &mut names,
    );
    answers.push(outcome_text(alloc, outcome)?.as_str())?;
    Ok(())
}

fn posted(
    alloc: Global,
    input: StructValue<'_>,
    schema: SchemaRef<'_>,
    endpoint: &str,
    omit: OmitFlags,
) -> Result<Text, Failed> {
    let protocol = HttpRpcProtocol::aws_json(JsonCodec);
    json_is_lawful(protocol.codec());
    let mut answers = Words::new(alloc);
    post_each_way(
        alloc,
        &protocol,
        &input,
        schema,
        endpoint,
        omit,
        &mut answers,
    )?;
    let told = ToldInput { value: input };
    post_each_way(
        alloc,
        &protocol,
        &told,
        schema,
        endpoint,
        omit,
        &mut answers,
    )?;
    same_text(alloc, answers.as_slice())
}

fn post_each_way<C: Codec>(
    alloc: Global,
    protocol: &HttpRpcProtocol<C>,
    input: &dyn SerializableStruct,
    schema: SchemaRef<'_>,
    endpoint: &str,
    omit: OmitFlags,
    answers: &mut Words,
) -> Result<(), Failed>
    requires { C.lawful protocol.now.codec }
{
    let outcome = protocol.serialize_request(alloc, input, schema, endpoint, omit);
    answers.push(outcome_text(alloc, outcome)?.as_str())?;
    by_client(alloc, protocol, input, schema, endpoint, omit, answers)
}

// Adds what is told of the request that a protocol makes for a client.
fn by_client<P: ClientProtocolInner<Request = Request>>(
    alloc: Global,
    protocol: &P,
    input: &dyn SerializableStruct,
    schema: SchemaRef<'_>,
    endpoint: &str,
    omit: OmitFlags,
    answers: &mut Words,
) -> Result<(), Failed>
    requires { P.takes protocol.now (schema_of schema) }
{
    let outcome = protocol.serialize_request(alloc, input, schema, endpoint, omit);
    answers.push(outcome_text(alloc, outcome)?.as_str())?;
    Ok(())
}
