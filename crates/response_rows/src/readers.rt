// Readers, made by the calls that give them.
ghost use Rattle.std.specs.Prelude.{◌≡◌, [], IfOk};

use crate::asked::{Asked, asked_of, body_bytes};
use crate::noting::Noting;
use crate::walking::walked;
use second_codec::SpacedJson;
use serde_json::Value;
use smithy_binding::{HttpBindingProtocol, HttpRpcProtocol};
use smithy_document::{DocumentShapeDeserializer, JsonCodec, JsonDeserializer};
use smithy_response::laws::reader_hands_out;
use smithy_response::{
    ResponseProtocol, ResponseReader, http_error_deserializer, http_output_deserializer,
};
use smithy_serde::{Codec, ShapeDeserializer};
use smithy_types::Text;
use std::alloc::Global;
use test_rows::Failed;

/// What the steps of a row answer over the reader that a call gives.
pub fn answer(alloc: Global, call: &str, given: &Value) -> Result<Option<Text>, Failed> {
    match call {
        "JsonCodec::create_deserializer" => Ok(Some(over_codec(alloc, given, &JsonCodec)?)),
        "SpacedJson::create_deserializer" => Ok(Some(over_codec(alloc, given, &SpacedJson)?)),
        "DocumentShapeDeserializer::new" => Ok(Some(over_document(alloc, given)?)),
        "http_output_deserializer" => Ok(Some(over_output(alloc, given)?)),
        "http_error_deserializer" => Ok(Some(over_error(alloc, given)?)),
        _ => by_protocol(alloc, call, given),
    }
}

// The readers of the protocols.
fn by_protocol(alloc: Global, call: &str, given: &Value) -> Result<Option<Text>, Failed> {
    let rest = HttpBindingProtocol::rest_json(JsonCodec);
    let rpc = HttpRpcProtocol::aws_json(JsonCodec);
    match call {
        "HttpBindingProtocol::deserialize_response" => Ok(Some(of_success(alloc, given, &rest)?)),
        "HttpBindingProtocol::deserialize_error_response" => {
            Ok(Some(of_error(alloc, given, &rest)?))
        }
        "HttpRpcProtocol::deserialize_response" => Ok(Some(of_success(alloc, given, &rpc)?)),
        "HttpRpcProtocol::deserialize_error_response" => Ok(Some(of_error(alloc, given, &rpc)?)),
        _ => Ok(None),
    }
}

fn of_success<P: ResponseProtocol>(
    alloc: Global,
    given: &Value,
    protocol: &P,
) -> Result<Text, Failed> {
    let asked = asked_of(alloc, given)?;
    let schema = asked.table.get(asked.place).ok_or(Failed)?;
    let reader = protocol.deserialize_response(alloc, &asked.response, schema, asked.policy);
    let mut reader = reader.map_err(|_| Failed)?;
    walked(alloc, &mut reader, &asked, given)
}

fn of_error<P: ResponseProtocol>(
    alloc: Global,
    given: &Value,
    protocol: &P,
) -> Result<Text, Failed> {
    let asked = asked_of(alloc, given)?;
    let reader = protocol.deserialize_error_response(alloc, &asked.response, asked.policy);
    let mut reader = reader.map_err(|_| Failed)?;
    walked(alloc, &mut reader, &asked, given)
}

fn over_codec<C: Codec>(alloc: Global, given: &Value, codec: &C) -> Result<Text, Failed> {
    let asked = asked_of(alloc, given)?;
    let reader = codec.create_deserializer(alloc, body_bytes(given, &asked.response));
    let mut reader = reader.map_err(|_| Failed)?;
    walked(alloc, &mut reader, &asked, given)
}

/// A reader of JSON over the bytes, in which nothing is open.
pub fn body_reader(alloc: Global, bytes: &[u8]) -> Result<JsonDeserializer, Failed>
    ensures { IfOk result (λ r. (⟦<JsonDeserializer as ShapeDeserializer>⟧.at_hand r).opened ≡ []) }
{
    match JsonCodec.create_deserializer(alloc, bytes) {
        Ok(reader) => Ok(reader),
        Err(_) => Err(Failed),
    }
}

// Over the document of the body.
fn over_document(alloc: Global, given: &Value) -> Result<Text, Failed> {
    let asked = asked_of(alloc, given)?;
    let schema = asked.table.get(asked.place).ok_or(Failed)?;
    let bytes = body_bytes(given, &asked.response);
    let mut json = body_reader(alloc, bytes)?;
    let document = json.read_document(alloc, schema).map_err(|_| Failed)?;
    if !document.is_canonical() {
        return Err(Failed);
    }
    let mut reader = DocumentShapeDeserializer::new(&document);
    walked(alloc, &mut reader, &asked, given)
}

fn over_output(alloc: Global, given: &Value) -> Result<Text, Failed> {
    let asked = asked_of(alloc, given)?;
    let schema = asked.table.get(asked.place).ok_or(Failed)?;
    let bytes = body_bytes(given, &asked.response);
    let body = body_reader(alloc, bytes)?;
    let reader = http_output_deserializer(alloc, body, &asked.response, schema, asked.policy)?;
    over_response(alloc, reader, &asked, given)
}

fn over_error(alloc: Global, given: &Value) -> Result<Text, Failed> {
    let asked = asked_of(alloc, given)?;
    let bytes = body_bytes(given, &asked.response);
    let body = body_reader(alloc, bytes)?;
    let reader = http_error_deserializer(alloc, body, &asked.response, asked.policy)?;
    over_response(alloc, reader, &asked, given)
}

// Over the reader of a response. The steps of a row hand out what the law says.
fn over_response(
    alloc: Global,
    reader: ResponseReader<JsonDeserializer>,
    asked: &Asked,
    given: &Value,
) -> Result<Text, Failed> {
    let mut reader = reader;
    reader_hands_out::<JsonDeserializer, Noting<'_>>(&reader);
    walked(alloc, &mut reader, asked, given)
}
