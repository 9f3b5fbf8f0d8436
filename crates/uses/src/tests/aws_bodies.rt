// A request as restJson1 has it: a name in JSON.
use crate::aws_request;
use smithy_ids::{HttpTrait, ShapeId, ShapeType};
use smithy_schema::{Schema, SchemaError, SchemaIndex, Schemas};
use smithy_serde::{OmitFlags, ShapeValue, StructValue};
use std::alloc::Global;
use std::test::Fail;

const ID: SchemaIndex = SchemaIndex(0);

// The input of `POST /things`, and its place.
fn things_table(alloc: Global) -> Result<(Schemas, SchemaIndex), SchemaError> {
    let id = ShapeId::from_parts("ex#In", "ex", "In");
    let mut table = Schemas::new(alloc);
    table.insert(Schema::new_member(id, ShapeType::String, "id", 0).with_json_name("ID"))?;
    let members = [ID];
    let input = Schema::new_struct(id, ShapeType::Structure, &members);
    let place = table.insert(input.with_http(HttpTrait::new("POST", "/things", None)))?;
    Ok((table, place))
}

#[test]
#[tactic(auto, unfolding(smithy_serde::specs::StoredValues::IsDefined))]
fn a_body_has_names_in_json(rt: HostRuntime) -> Result<(), Fail> {
    let alloc = rt.alloc();
    let (table, place) = things_table(alloc)?;
    assert!(rt; table.get(ID).is_some());
    let schema = table.get(place).expect(&rt, "no node");
    let mut input = StructValue::new(alloc, &table, place);
    input.push(ID, ShapeValue::text(alloc, "a")?)?;
    let request = aws_request(alloc, schema, input, "", OmitFlags::KEEP_ALL)?;
    assert_eq!(rt; request.uri(), "/things");
    assert_eq!(rt; request.headers().get("content-length"), Some("10"));
    assert_eq!(rt; request.body().as_slice(), b"{\"ID\":\"a\"}".as_slice());
    Ok(())
}
