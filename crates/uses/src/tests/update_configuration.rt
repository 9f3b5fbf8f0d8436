// A configuration of Amazon MQ gets new data: the request, its answer, and an error.
use crate::update_configuration::{NOT_FOUND, OUTPUT};
use crate::*;
use smithy_http::{Headers, Response};
use smithy_registry::TypeRegistry;
use smithy_schema::Schemas;
use smithy_serde::{SerializableStruct, ShapeValue, StructValue, ValueReader};
use smithy_types::Blob;
use std::alloc::Global;
use std::test::Fail;

#[test]
fn a_configuration_is_sent_under_names_in_json(rt: HostRuntime) -> Result<(), Fail> {
    let alloc = rt.alloc();
    let table = update_configuration_table(alloc)?;
    let request = update_configuration_request(alloc, &table, "c-1234", "PGI+")?;
    assert_eq!(rt; request.method(), "PUT");
    assert_eq!(rt; request.uri(), "/v1/configurations/c-1234");
    assert_eq!(rt;
        request.headers().get("content-type"),
        Some("application/json")
    );
    assert_eq!(rt;
        request.body().as_slice(),
        b"{\"data\":\"PGI+\"}".as_slice()
    );
    Ok(())
}

// The seconds of the time that a structure has.
fn seconds_in(value: &StructValue<'_>) -> Option<i64> {
    let (_, writes) = value.stored_writes()?;
    for (_, member) in writes.iter() {
        if let ShapeValue::Timestamp(time) = member {
            return Some(time.secs());
        }
    }
    None
}

fn answered<'t>(
    alloc: Global,
    table: &'t Schemas,
    response: &Response,
) -> Result<Answered<'t>, Fail> {
    let Some(error) = table.get(NOT_FOUND) else {
        return Err(Fail::new("no node"));
    };
    let errors = error_registry(alloc, error, ValueReader::new(table, NOT_FOUND))?;
    let service = TypeRegistry::new(alloc);
    Ok(rest_answer(alloc, response, table, OUTPUT, errors.or(&service))?)
}

#[test]
fn an_output_has_a_time_of_a_text(rt: HostRuntime) -> Result<(), Fail> {
    let alloc = rt.alloc();
    let table = update_configuration_table(alloc)?;
    let body = br#"{"id":"c-1234","created":"2020-07-28T14:40:04.573Z","name":"first","arn":"a"}"#;
    let response = Response::new(200, Headers::new(alloc), Some(Blob::new(alloc, body)?));
    let answer = answered(alloc, &table, &response)?;
    let Answered::Output(output) = &answer else {
        return Err(Fail::new("no output"));
    };
    assert_eq!(rt; text_named(output, "Id"), Some("c-1234"));
    assert_eq!(rt; text_named(output, "Name"), Some("first"));
    assert_eq!(rt; seconds_in(output), Some(1_595_947_204));
    Ok(())
}

#[test]
fn a_response_names_its_error(rt: HostRuntime) -> Result<(), Fail> {
    let alloc = rt.alloc();
    let table = update_configuration_table(alloc)?;
    let mut headers = Headers::new(alloc);
    headers.try_insert("x-amzn-ErrorType", "NotFoundException")?;
    let body = br#"{"errorAttribute":"configuration-id","message":"no such configuration"}"#;
    let response = Response::new(404, headers, Some(Blob::new(alloc, body)?));
    let answer = answered(alloc, &table, &response)?;
    let Answered::Error(place, error) = &answer else {
        return Err(Fail::new("no error"));
    };
    assert!(rt; *place == NOT_FOUND);
    assert_eq!(rt;
        text_named(error, "ErrorAttribute"),
        Some("configuration-id")
    );
    assert_eq!(rt; text_named(error, "Message"), Some("no such configuration"));
    Ok(())
}
