// An item of Amazon DynamoDB is asked for: the request, its answer, and an error.
use crate::*;
use smithy_http::{Headers, Response};
use smithy_json::{Scratch, read_json};
use smithy_model::{Asked, schema_of_operation};
use smithy_registry::TypeRegistry;
use smithy_serde::{SerializableStruct, ValueReader};
use smithy_types::Blob;
use std::test::Fail;

const JOB: &str =
    r#"{"model":{"shapes":{"com.amazonaws.dynamodb#GetItem":{"type":"operation","input":{"target":"com.amazonaws.dynamodb#GetItemInput"},"output":{"target":"com.amazonaws.dynamodb#GetItemOutput"},"errors":[{"target":"com.amazonaws.dynamodb#ResourceNotFoundException"}]},"com.amazonaws.dynamodb#GetItemInput":{"type":"structure","members":{"TableName":{"target":"smithy.api#String"},"Key":{"target":"com.amazonaws.dynamodb#AttributeMap"},"ConsistentRead":{"target":"smithy.api#Boolean"}}},"com.amazonaws.dynamodb#GetItemOutput":{"type":"structure","members":{"Item":{"target":"com.amazonaws.dynamodb#AttributeMap"}}},"com.amazonaws.dynamodb#AttributeMap":{"type":"map","key":{"target":"smithy.api#String"},"value":{"target":"com.amazonaws.dynamodb#AttributeValue"}},"com.amazonaws.dynamodb#AttributeValue":{"type":"union","members":{"S":{"target":"smithy.api#String"},"N":{"target":"smithy.api#String"},"BOOL":{"target":"smithy.api#Boolean"},"M":{"target":"com.amazonaws.dynamodb#AttributeMap"}}},"com.amazonaws.dynamodb#ResourceNotFoundException":{"type":"structure","members":{"message":{"target":"smithy.api#String"}},"traits":{"smithy.api#error":"client"}}}},"operation":"com.amazonaws.dynamodb#GetItem","input":{"TableName":"Music","Key":{"Artist":{"S":"No One You Know"}}}}"#;

const OPERATION: &str = "com.amazonaws.dynamodb#GetItem";

const OUTPUT: &str = "com.amazonaws.dynamodb#GetItemOutput";

const REFUSAL: &[u8] =
    br#"{"__type":"com.amazonaws.dynamodb.v20120810#ResourceNotFoundException","message":"no such table"}"#;

const NOT_FOUND: &str = "com.amazonaws.dynamodb#ResourceNotFoundException";

#[test]
fn an_item_is_asked_for(rt: HostRuntime) -> Result<(), Fail> {
    let alloc = rt.alloc();
    let mut scratch = Scratch::new(alloc);
    let job = read_json(alloc, JOB.as_bytes(), &mut scratch)?;
    let request = get_item_of_job(alloc, &job)??;
    let target = Some("DynamoDB_20120810.GetItem");
    let body = br#"{"Key":{"Artist":{"S":"No One You Know"}},"TableName":"Music"}"#;
    assert_eq!(rt; request.method(), "POST");
    assert_eq!(rt; request.uri(), "/");
    assert_eq!(rt; request.headers().get("x-amz-target"), target);
    assert_eq!(rt;
        request.headers().get("content-type"),
        Some("application/x-amz-json-1.0")
    );
    assert_eq!(rt; request.body().as_slice(), body.as_slice());
    Ok(())
}

#[test]
fn an_item_is_read_and_an_error_found(rt: HostRuntime) -> Result<(), Fail> {
    let alloc = rt.alloc();
    let mut scratch = Scratch::new(alloc);
    let job = read_json(alloc, JOB.as_bytes(), &mut scratch)?;
    let model = job.get("model").expect(&rt, "no model");
    let output = schema_of_operation(alloc, model, OPERATION, Asked::Output)?;
    let missing = schema_of_operation(alloc, model, OPERATION, Asked::Error(NOT_FOUND))?;
    let error = missing.table.get(missing.index).expect(&rt, "no node");
    let reader = ValueReader::new(&missing.table, missing.index);
    let errors = error_registry(alloc, error, reader)?;
    let service = TypeRegistry::new(alloc);
    let errors = errors.or(&service);

    let body = Blob::new(alloc, br#"{"Item":{"Year":{"N":"1992"}}}"#)?;
    let found = Response::new(200, Headers::new(alloc), Some(body));
    let answer = body_answer(alloc, &found, &output, &missing.table, errors)?;
    let Answered::Output(item) = &answer else {
        return Err(Fail::new("no output"));
    };
    assert_eq!(rt; item.schema().full_name(), OUTPUT);

    let body = Blob::new(alloc, REFUSAL)?;
    let refused = Response::new(400, Headers::new(alloc), Some(body));
    let answer = body_answer(alloc, &refused, &output, &missing.table, errors)?;
    let Answered::Error(place, error) = &answer else {
        return Err(Fail::new("no error"));
    };
    assert!(rt; *place == missing.index);
    assert_eq!(rt; text_named(error, "message"), Some("no such table"));
    Ok(())
}
