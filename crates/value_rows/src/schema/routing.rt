// Routing words of structures.
use crate::telling::Told;
use smithy_ids::{ShapeId, ShapeType};
use smithy_schema::{Schema, SchemaIndex, SchemaRef, Schemas};
use std::alloc::Global;
use test_rows::Failed;

// A member with the trait that a letter stands for, and with none for `.`.
fn member<'a>(id: ShapeId<'a>, letter: char, index: usize) -> Result<Schema<'a>, Failed> {
    let schema = Schema::new_member(id, ShapeType::String, "name", index);
    match letter {
        'h' => Ok(schema.with_http_header("X-Name")),
        'm' => Ok(schema.with_http_prefix_headers("X-")),
        'c' => Ok(schema.with_http_response_code()),
        'p' => Ok(schema.with_http_payload()),
        'q' => Ok(schema.with_http_query("name")),
        'l' => Ok(schema.with_http_label()),
        '.' => Ok(schema),
        _ => Err(Failed),
    }
}

// Inserts a member for each letter.
fn insert_letters(
    alloc: Global,
    table: &mut Schemas,
    letters: &str,
) -> Result<Vec<SchemaIndex>, Failed> {
    let id = ShapeId::parse("ex#Owner").ok_or(Failed)?;
    let mut members = Vec::new(alloc);
    for (index, letter) in letters.chars().enumerate() {
        let schema = member(id, letter, index)?;
        let place = table.insert(schema).ok().ok_or(Failed)?;
        members.push(place).ok().ok_or(Failed)?;
    }
    Ok(members)
}

/// Inserts a member for each letter and a structure of them, and tells the place of that.
pub fn insert_bound(told: &mut Told, table: &mut Schemas, letters: &str) -> Result<(), Failed> {
    let id = ShapeId::parse("ex#Owner").ok_or(Failed)?;
    let members = insert_letters(told.alloc(), table, letters)?;
    let schema = Schema::new_struct(id, ShapeType::Structure, members.as_slice());
    let place = table.insert(schema).ok().ok_or(Failed)?;
    told.tell_count("at", place.0)
}

/// Tells the routing word of a node.
pub fn tell_routing(told: &mut Told, node: SchemaRef<'_>) -> Result<(), Failed> {
    told.tell(format!(in told.alloc(); "{}", node.response_routing())?.as_str())
}
