// Tables of nodes: what they take and refuse, and what is found in them.
use crate::schema::description::{described, members_of};
use crate::schema::node::{tell_cited, tell_cited_nodes, tell_node};
use crate::schema::routing::{insert_bound, tell_routing};
use crate::schema::templates::tell_pieces;
use crate::steps::{step_count, step_text, step_value};
use crate::telling::Told;
use serde_json::Value;
use smithy_ids::{ShapeId, ShapeType};
use smithy_schema::{Schema, SchemaError, SchemaIndex, SchemaRef, Schemas, prelude};
use smithy_types::Text;
use std::alloc::Global;
use test_rows::{Failed, items_of};

/// What the steps on an empty table answer.
pub fn schemas(alloc: Global, given: &Value) -> Result<Text, Failed> {
    let mut told = Told::new(alloc)?;
    let mut table = Schemas::new(alloc);
    for step in items_of(given, "steps")? {
        take_step(&mut told, &mut table, step)?;
    }
    Ok(told.into_text())
}

// Takes a step that may change the table.
fn take_step(told: &mut Told, table: &mut Schemas, step: &Value) -> Result<(), Failed> {
    match step_text(step, 0)? {
        "declare" => {
            let outcome = table.declare();
            tell_place(told, outcome)
        }
        "insert" => insert(told, table, step_value(step, 1)?),
        "insert_times" => insert_times(told, table, step_count(step, 1)?, step_value(step, 2)?),
        "insert_members" => insert_members(told, table, step_text(step, 1)?),
        "insert_bound" => insert_bound(told, table, step_text(step, 1)?),
        "define" => define(told, table, step_count(step, 1)?, step_value(step, 2)?),
        "insert_all" => insert_all(told, table),
        "len" => told.tell_count("len", table.len()),
        call => look(told, table, call, step),
    }
}

fn tell_place(told: &mut Told, outcome: Result<SchemaIndex, SchemaError>) -> Result<(), Failed> {
    match outcome {
        Ok(place) => told.tell_count("Ok", place.0),
        Err(error) => tell_refusal(told, error),
    }
}

fn tell_refusal(told: &mut Told, error: SchemaError) -> Result<(), Failed> {
    told.tell_text("Err", format!(in told.alloc(); "{error:?}")?.as_str())
}

fn insert(told: &mut Told, table: &mut Schemas, given: &Value) -> Result<(), Failed> {
    let members = members_of(told.alloc(), given)?;
    let schema = described(told.alloc(), given, members.as_slice())?;
    let outcome = table.insert(schema);
    tell_place(told, outcome)
}

// Inserts a node so many times, and tells the last place.
fn insert_times(
    told: &mut Told,
    table: &mut Schemas,
    times: usize,
    given: &Value,
) -> Result<(), Failed> {
    let members = members_of(told.alloc(), given)?;
    for _ in 1..times {
        let schema = described(told.alloc(), given, members.as_slice())?;
        table.insert(schema).ok().ok_or(Failed)?;
    }
    insert(told, table, given)
}

// Inserts a member that is a string for each of these names, which stand between spaces, with indexes in order.
fn insert_members(told: &mut Told, table: &mut Schemas, names: &str) -> Result<(), Failed> {
    let id = ShapeId::parse("ex#Owner").ok_or(Failed)?;
    for (index, name) in names.split(' ').enumerate() {
        let schema = Schema::new_member(id, ShapeType::String, name, index);
        let outcome = table.insert(schema);
        tell_place(told, outcome)?;
    }
    Ok(())
}

fn define(told: &mut Told, table: &mut Schemas, place: usize, given: &Value) -> Result<(), Failed> {
    let members = members_of(told.alloc(), given)?;
    let schema = described(told.alloc(), given, members.as_slice())?;
    match table.define(SchemaIndex(place), schema) {
        Ok(()) => told.tell("Ok"),
        Err(error) => tell_refusal(told, error),
    }
}

// Inserts the prelude, and tells the place and name of each of its nodes.
fn insert_all(told: &mut Told, table: &mut Schemas) -> Result<(), Failed> {
    let places = prelude::insert_all(table).ok().ok_or(Failed)?;
    let fields = [
        places.string,
        places.boolean,
        places.byte,
        places.short,
        places.integer,
        places.long,
        places.float,
        places.double,
        places.big_integer,
        places.big_decimal,
        places.blob,
        places.timestamp,
        places.document,
        places.unit,
    ];
    for place in fields.iter() {
        let node = table.get(*place).ok_or(Failed)?;
        told.tell_count(node.full_name(), place.0)?;
    }
    Ok(())
}

// Looks at a node of the table.
fn look(told: &mut Told, table: &Schemas, call: &str, step: &Value) -> Result<(), Failed> {
    let Some(node) = table.get(SchemaIndex(step_count(step, 1)?)) else {
        return told.tell("None");
    };
    match call {
        "tell" => tell_node(told, node),
        "cited" => tell_cited_nodes(told, node),
        "outline" => outline(told, node),
        "routing" => tell_routing(told, node),
        "pieces" => tell_pieces(told, node),
        "position_of" => tell_position(told, node.position_of(step_text(step, 2)?)),
        "member_at" => tell_cited(
            told,
            "member",
            node.member_schema_by_index(step_count(step, 2)?),
        ),
        "member_schema" => tell_cited(told, "member", node.member_schema(step_text(step, 2)?)),
        "behind" => {
            let before = step_count(step, 2).ok();
            let found = node.member_schema_behind(before, step_text(step, 3)?);
            tell_cited(told, "member", found)
        }
        _ => Err(Failed),
    }
}

fn tell_position(told: &mut Told, position: Option<usize>) -> Result<(), Failed> {
    match position {
        Some(position) => told.tell_count("Some", position),
        None => told.tell("None"),
    }
}

// Tells what another table has of a node of which it takes the outline.
fn outline(told: &mut Told, node: SchemaRef<'_>) -> Result<(), Failed> {
    let mut other = Schemas::new(told.alloc());
    let place = other.insert_outline(node)?;
    let node = other.get(place).ok_or(Failed)?;
    tell_node(told, node)?;
    told.tell_flag("table of one", node.table().ok_or(Failed)?.len() == 1)
}
