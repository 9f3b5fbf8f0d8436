// Lists of writes, and structures that are made of writes.
ghost use Rattle.smithy_serde.specs.StoredValues.{IsDefined};

use crate::model::input_schema;
use crate::told::push_part;
use crate::value_text::{value_told, writes_told};
use crate::values::members_told;
use serde_json::Value;
use smithy_schema::{SchemaIndex, Schemas};
use smithy_serde::{SerdeError, ShapeValue, StructValue, WriteList};
use smithy_types::Text;
use std::alloc::Global;
use test_rows::{Failed, items_of};

/// What is told of writes to the members under `members` of the operation's input, each of its position under `members`.
pub fn answer(alloc: Global, call: &str, given: &Value) -> Result<Option<Text>, Failed> {
    let Some(members) = given.get("members") else {
        return Ok(None);
    };
    let placed = input_schema(alloc, given)?;
    let (table, place) = (&placed.table, placed.index);
    let text = match call {
        "WriteList::iter" => writes_told(alloc, table, &list_of(alloc, table, place, given)?)?,
        "WriteList::write" => each_told(alloc, table, &list_of(alloc, table, place, given)?)?,
        "WriteList::in_index_order" => {
            let list = list_of(alloc, table, place, given)?.in_index_order(table)?;
            writes_told(alloc, table, &list)?
        }
        "StructValue::push" => members_told(alloc, pushed(alloc, table, place, members))?,
        _ => return Ok(None),
    };
    Ok(Some(text))
}

fn member_of(table: &Schemas, place: SchemaIndex, name: &Value) -> Option<SchemaIndex> {
    table.get(place)?.member_schema(name.as_str()?)?.index()
}

fn list_of(
    alloc: Global,
    table: &Schemas,
    place: SchemaIndex,
    given: &Value,
) -> Result<WriteList, Failed> {
    let mut list = WriteList::new(alloc);
    let mut position: i64 = 0;
    for name in items_of(given, "members")? {
        let node = member_of(table, place, name).ok_or(Failed)?;
        list.push(node, ShapeValue::Long(position))?;
        position = position.saturating_add(1);
    }
    Ok(list)
}

// The node and the value at each position, up to the first behind the last.
fn each_told(alloc: Global, table: &Schemas, list: &WriteList) -> Result<Text, Failed> {
    let mut text = Text::from_string(format!(in alloc; "{}", list.len())?);
    for position in 0..=list.len() {
        let (Some(node), Some(value)) = (list.node(position), list.value(position)) else {
            push_part(&mut text, "None")?;
            continue;
        };
        if list.write(position).is_none() {
            return Err(Failed);
        }
        push_part(&mut text, table.get(node).ok_or(Failed)?.full_name())?;
        push_part(&mut text, value_told(alloc, table, value)?.as_str())?;
    }
    Ok(text)
}

// A structure with a text for each of two members.
#[tactic(auto, unfolding(smithy_serde::specs::StoredValues::IsDefined))]
fn pushed<'t>(
    alloc: Global,
    table: &'t Schemas,
    place: SchemaIndex,
    members: &Value,
) -> Result<StructValue<'t>, SerdeError> {
    let first = members
        .get(0)
        .and_then(|name| member_of(table, place, name));
    let second = members
        .get(1)
        .and_then(|name| member_of(table, place, name));
    let (Some(first), Some(second)) = (first, second) else {
        return Err(SerdeError::custom(alloc, "no member"));
    };
    if table.get(place).is_none() {
        return Err(SerdeError::custom(alloc, "no node"));
    }
    if table.get(first).is_none() {
        return Err(SerdeError::custom(alloc, "no node"));
    }
    if table.get(second).is_none() {
        return Err(SerdeError::custom(alloc, "no node"));
    }
    let mut value = StructValue::new(alloc, table, place);
    value.push(first, ShapeValue::text(alloc, "first")?)?;
    value.push(second, ShapeValue::text(alloc, "second")?)?;
    Ok(value)
}
