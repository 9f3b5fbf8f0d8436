// Each use on its happy path. The texts are those of the worked examples and of the protocol's public description.
mod aws_bodies;
mod columns;
mod get_item;
mod responses;
mod update_configuration;

use crate::get_object::INPUT;
use crate::lenient_json::LenientJson;
use crate::*;
use smithy_binding::HttpBindingProtocol;
use smithy_http::{Headers, NonUtf8HeaderHandling, Response};
use smithy_ids::{HttpTrait, ShapeId, ShapeType};
use smithy_json::{Scratch, read_json};
use smithy_recovery::RecoverError;
use smithy_response::ResponseProtocol;
use smithy_schema::{Schema, SchemaError, SchemaIndex, Schemas};
use smithy_serde::{OmitFlags, ShapeReader, ShapeValue, StructValue, ValueReader};
use smithy_types::Blob;
use std::alloc::Global;
use std::test::Fail;

#[test]
fn a_model_in_code_has_a_request(rt: HostRuntime) -> Result<(), Fail> {
    let writes = get_object_writes(rt.alloc(), "b", "x/y z", 3, 7)?;
    let request = get_object_request(rt.alloc(), writes)?;
    assert_eq!(rt; request.method(), "GET");
    assert_eq!(rt; request.uri(), "/b/x/y%20z?max=3");
    assert_eq!(rt; request.headers().get("x-id"), Some("7"));
    assert!(rt; request.body().as_slice().is_empty());
    Ok(())
}

#[test]
fn a_request_has_its_input(rt: HostRuntime) -> Result<(), Fail> {
    let alloc = rt.alloc();
    let table = get_object_table(alloc)?;
    assert!(rt; table.get(INPUT).is_some());
    let writes = get_object_writes(alloc, "b", "x/y z", 3, 7)?;
    let mut request = get_object_request(alloc, writes)?;
    let keep = OmitFlags::KEEP_ALL;
    let input = input_of(alloc, &request, &table, INPUT, "", keep)?;
    assert_eq!(rt; text_named(&input, "Bucket"), Some("b"));
    assert_eq!(rt; text_named(&input, "Key"), Some("x/y z"));
    request.set_uri("/b/x/y%2fz?max=3")?;
    let other = input_of(alloc, &request, &table, INPUT, "", keep);
    assert_eq!(rt; other.err(), Some(RecoverError::NotPlaced));
    Ok(())
}

#[test]
fn a_request_goes_to_rpc(rt: HostRuntime) -> Result<(), Fail> {
    let alloc = rt.alloc();
    let table = get_object_table(alloc)?;
    assert!(rt; table.get(INPUT).is_some());
    let writes = get_object_writes(alloc, "b", "x/y z", 3, 7)?;
    let request = get_object_request(alloc, writes)?;
    let call = call_of(alloc, &request, &table, INPUT, "", OmitFlags::KEEP_ALL)?;
    let body = b"{\"Bucket\":\"b\",\"Id\":7,\"Key\":\"x/y z\",\"Max\":3}";
    assert_eq!(rt; call.body().as_slice(), body.as_slice());
    Ok(())
}

#[test]
fn a_call_goes_to_rest(rt: HostRuntime) -> Result<(), Fail> {
    let alloc = rt.alloc();
    let keep = OmitFlags::KEEP_ALL;
    let table = get_object_table(alloc)?;
    let writes = get_object_writes(alloc, "b", "x/y z", 3, 7)?;
    let schema = table.get(INPUT).expect(&rt, "no node");
    let input = StructValue::with_writes(&table, INPUT, writes);
    let call = rpc_request(alloc, &input, schema, "", keep)?;
    let request = request_of_call(alloc, &call, &table, INPUT, "", keep)?;
    assert_eq!(rt; request.uri(), "/b/x/y%20z?max=3");
    Ok(())
}

#[test]
fn a_request_has_its_operation(rt: HostRuntime) -> Result<(), Fail> {
    let alloc = rt.alloc();
    let routes = object_routes(alloc)?;
    let writes = get_object_writes(alloc, "b", "x/y z", 3, 7)?;
    let request = get_object_request(alloc, writes)?;
    let found = operation_of(&routes, request.method(), request.uri());
    assert_eq!(rt; found, Some("GetObject"));
    assert_eq!(rt;
        operation_of(&routes, "GET", "/b?acl"),
        Some("GetBucketAcl")
    );
    assert_eq!(rt; operation_of(&routes, "GET", "/b/"), None);
    Ok(())
}

const JOB: &str =
    r#"{"model":{"shapes":{"ex#Get":{"type":"operation","input":{"target":"ex#GetIn"},"traits":{"smithy.api#http":{"method":"GET","uri":"/{Bucket}/{Key+}","code":200}}},"ex#GetIn":{"type":"structure","members":{"Bucket":{"target":"smithy.api#String","traits":{"smithy.api#httpLabel":{}}},"Key":{"target":"smithy.api#String","traits":{"smithy.api#httpLabel":{}}},"Max":{"target":"smithy.api#Integer","traits":{"smithy.api#httpQuery":"max"}},"Id":{"target":"smithy.api#Integer","traits":{"smithy.api#httpHeader":"X-Id"}}}}}},"operation":"ex#Get","input":[["Bucket","b"],["Key","x/y z"],["Max",3],["Id",7]]}"#;

#[test]
fn a_model_in_json_has_a_request(rt: HostRuntime) -> Result<(), Fail> {
    let alloc = rt.alloc();
    let mut scratch = Scratch::new(alloc);
    let job = read_json(alloc, JOB.as_bytes(), &mut scratch)?;
    let request = job_request(alloc, &job)??;
    assert_eq!(rt; request.method(), "GET");
    assert_eq!(rt; request.uri(), "/b/x/y%20z?max=3");
    assert_eq!(rt; request.headers().get("x-id"), Some("7"));
    Ok(())
}

#[test]
fn an_input_is_called_with(rt: HostRuntime) -> Result<(), Fail> {
    let alloc = rt.alloc();
    let table = get_object_table(alloc)?;
    let writes = get_object_writes(alloc, "b", "x/y z", 3, 7)?;
    let schema = table.get(INPUT).expect(&rt, "no node");
    let input = StructValue::with_writes(&table, INPUT, writes);
    let request = rpc_request(alloc, &input, schema, "", OmitFlags::KEEP_ALL)?;
    let body = b"{\"Bucket\":\"b\",\"Id\":7,\"Key\":\"x/y z\",\"Max\":3}";
    assert_eq!(rt; request.method(), "POST");
    assert_eq!(rt; request.uri(), "/");
    assert_eq!(rt; request.headers().get("content-length"), Some("43"));
    assert_eq!(rt; request.body().as_slice(), body.as_slice());
    Ok(())
}

// The output of status, `ETag` and a member of the body, and its place.
fn output_table(alloc: Global) -> Result<(Schemas, SchemaIndex), SchemaError> {
    let id = ShapeId::from_parts("ex#GetOut", "ex", "GetOut");
    let mut table = Schemas::new(alloc);
    let code = Schema::new_member(id, ShapeType::Integer, "Code", 0).with_http_response_code();
    let etag = Schema::new_member(id, ShapeType::String, "Etag", 1).with_http_header("ETag");
    let name = Schema::new_member(id, ShapeType::String, "Name", 2);
    let members = [
        table.insert(code)?,
        table.insert(etag)?,
        table.insert(name)?,
    ];
    let output = table.insert(Schema::new_struct(id, ShapeType::Structure, &members))?;
    Ok((table, output))
}

fn response_with(alloc: Global, body: &[u8]) -> Result<Response, Fail> {
    let mut headers = Headers::new(alloc);
    headers.try_insert("ETag", "q")?;
    Ok(Response::new(206, headers, Some(Blob::new(alloc, body)?)))
}

#[test]
fn a_response_is_read(rt: HostRuntime) -> Result<(), Fail> {
    let alloc = rt.alloc();
    let (table, output) = output_table(alloc)?;
    assert!(rt; table.get(output).is_some());
    let response = response_with(alloc, b"{\"Etag\":\"z\",\"Name\":\"a\"}")?;
    let value = output_of(alloc, &response, &table, output)?;
    assert_eq!(rt; text_named(&value, "Etag"), Some("q"));
    assert_eq!(rt; text_named(&value, "Name"), Some("a"));
    assert!(rt; text_named(&value, "Code").is_none());
    Ok(())
}

#[test]
fn an_output_has_a_response(rt: HostRuntime) -> Result<(), Fail> {
    let alloc = rt.alloc();
    let (table, place) = output_table(alloc)?;
    let schema = table.get(place).expect(&rt, "no node");
    let read = response_with(alloc, b"{\"Etag\":\"z\",\"Name\":\"a\"}")?;
    let output = output_of(alloc, &read, &table, place)?;
    let response = rest_response(alloc, &output, schema, 200)?;
    assert_eq!(rt; response.headers().get("etag"), Some("q"));
    assert_eq!(rt; response.body_bytes(), b"{\"Name\":\"a\"}".as_slice());
    Ok(())
}

#[test]
fn a_codec_of_ones_own_reads_no_bytes(rt: HostRuntime) -> Result<(), Fail> {
    let alloc = rt.alloc();
    let (table, output) = output_table(alloc)?;
    let schema = table.get(output).expect(&rt, "no node");
    let protocol = HttpBindingProtocol::rest_json(LenientJson);
    let response = response_with(alloc, b"")?;
    let policy = NonUtf8HeaderHandling::Reject;
    let mut reader = protocol.deserialize_response(alloc, &response, schema, policy)?;
    let value = ValueReader::new(&table, output).read(alloc, &mut reader)?;
    assert_eq!(rt; text_named(&value, "Etag"), Some("q"));
    assert!(rt; text_named(&value, "Name").is_none());
    Ok(())
}

// The input of `POST /t` with one member of the body, and the places of both.
fn post_table(alloc: Global) -> Result<(Schemas, SchemaIndex, SchemaIndex), SchemaError> {
    let id = ShapeId::from_parts("ex#In", "ex", "In");
    let mut table = Schemas::new(alloc);
    let name = table.insert(Schema::new_member(id, ShapeType::String, "name", 0))?;
    let members = [name];
    let input = Schema::new_struct(id, ShapeType::Structure, &members);
    let input = table.insert(input.with_http(HttpTrait::new("POST", "/t", None)))?;
    Ok((table, name, input))
}

#[test]
#[tactic(auto, unfolding(smithy_serde::specs::StoredValues::IsDefined))]
fn a_codec_of_ones_own_writes_bodies(rt: HostRuntime) -> Result<(), Fail> {
    let alloc = rt.alloc();
    let (table, name, place) = post_table(alloc)?;
    assert!(rt; table.get(name).is_some());
    let schema = table.get(place).expect(&rt, "no node");
    let mut input = StructValue::new(alloc, &table, place);
    input.push(name, ShapeValue::text(alloc, "a")?)?;
    let request = lenient_request(alloc, &input, schema, "", OmitFlags::KEEP_ALL)?;
    assert_eq!(rt; request.uri(), "/t");
    assert_eq!(rt;
        request.headers().get("content-type"),
        Some("application/json")
    );
    assert_eq!(rt; request.headers().get("content-length"), Some("12"));
    assert_eq!(rt; request.body().as_slice(), b"{\"name\":\"a\"}".as_slice());
    Ok(())
}

#[test]
fn an_error_is_found_by_its_code(rt: HostRuntime) -> Result<(), Fail> {
    let alloc = rt.alloc();
    let id = ShapeId::from_parts("com.example#FooError", "com.example", "FooError");
    let mut table = Schemas::new(alloc);
    let place = table.insert(Schema::new_struct(id, ShapeType::Structure, &[]))?;
    let error = table.get(place).expect(&rt, "no node");
    let registry = error_registry(alloc, error, ValueReader::new(&table, place))?;
    for code in [
        "FooError",
        "FooError:http://internal.amazon.com/coral/com.amazon.coral.validate/",
        "aws.protocoltests.restjson#FooError",
        "aws.protocoltests.restjson#FooError:http://internal.amazon.com/coral/com.amazon.coral.validate/",
    ] {
        assert!(rt; error_place(&registry, code) == Some(place), "{code}");
    }
    assert!(rt; error_place(&registry, "BarError").is_none());
    Ok(())
}

#[test]
fn a_structure_goes_through_a_document(rt: HostRuntime) -> Result<(), Fail> {
    let alloc = rt.alloc();
    let table = get_object_table(alloc)?;
    let writes = get_object_writes(alloc, "b", "x/y z", 3, 7)?;
    let value = StructValue::with_writes(&table, INPUT, writes);
    let back = through_document(alloc, &value, ValueReader::new(&table, INPUT))?;
    assert_eq!(rt; text_named(&back, "Bucket"), Some("b"));
    assert_eq!(rt; text_named(&back, "Key"), Some("x/y z"));
    Ok(())
}
