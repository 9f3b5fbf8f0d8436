// The steps of a row over a reader.
use crate::asked::Asked;
use crate::noting::{Noting, seen};
use crate::reads::called;
use crate::told::{told, told_refusal};
use serde_json::Value;
use smithy_schema::SchemaRef;
use smithy_serde::{SerdeError, ShapeDeserializer, read_list, read_map, read_struct};
use smithy_types::Text;
use std::alloc::Global;
use test_rows::{Failed, items_of};

/// What the calls under `do` answer, one after the other; they stand apart by ` / `. `read_struct`, `read_list` and `read_map`
/// give the items to a consumer that notes what the calls under `calls` answer. The other calls read by the member under
/// `node`, or by the structure.
pub fn walked<D: ShapeDeserializer>(
    alloc: Global,
    reader: &mut D,
    asked: &Asked,
    given: &Value,
) -> Result<Text, Failed> {
    let schema = asked.table.get(asked.place).ok_or(Failed)?;
    let node = match given.get("node").and_then(Value::as_str) {
        Some(name) => schema.member_schema(name).ok_or(Failed)?,
        None => schema,
    };
    let mut noted = Text::from_str(alloc, "")?;
    for step in items_of(given, "do")? {
        let step = step.as_str().ok_or(Failed)?;
        if !noted.as_str().is_empty() {
            noted.push_str(" / ")?;
        }
        let text = step_taken(alloc, reader, asked, node, given, step)?;
        noted.push_str(text.as_str())?;
    }
    Ok(noted)
}

fn step_taken<D: ShapeDeserializer>(
    alloc: Global,
    reader: &mut D,
    asked: &Asked,
    node: SchemaRef<'_>,
    given: &Value,
    step: &str,
) -> Result<Text, Failed> {
    let calls = given.get("calls").unwrap_or(given);
    let mut noting = Noting::new(alloc, &asked.table, calls)?;
    match step {
        "seen" => Ok(seen(alloc, reader)?),
        "read_struct" => {
            let end = read_struct(alloc, reader, node, &mut noting);
            noted_whole(alloc, noting, end)
        }
        "read_list" => {
            let end = read_list(alloc, reader, node, &mut noting);
            noted_whole(alloc, noting, end)
        }
        "read_map" => {
            let end = read_map(alloc, reader, node, &mut noting);
            noted_whole(alloc, noting, end)
        }
        "open_struct" => ended(alloc, reader.open_struct(alloc, node)),
        "open_list" => ended(alloc, reader.open_list(alloc, node)),
        "open_map" => ended(alloc, reader.open_map(alloc, node)),
        "settle" => {
            let refusal = SerdeError::custom(alloc, "no room");
            ended(alloc, reader.settle(alloc, refusal))
        }
        _ => told(alloc, called(alloc, reader, &asked.table, node, step)),
    }
}

// `Ok`, or the refusal.
fn ended(alloc: Global, end: Result<(), SerdeError>) -> Result<Text, Failed> {
    match end {
        Ok(()) => Ok(Text::from_str(alloc, "Ok")?),
        Err(refusal) => Ok(told_refusal(alloc, &refusal)?),
    }
}

/// What was noted, and how it ended.
pub fn noted_whole(
    alloc: Global,
    noting: Noting<'_>,
    end: Result<(), SerdeError>,
) -> Result<Text, Failed> {
    let mut noted = noting.into_noted();
    noted.push_str(ended(alloc, end)?.as_str())?;
    Ok(noted)
}
