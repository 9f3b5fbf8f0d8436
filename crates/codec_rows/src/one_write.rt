// The calls of a serializer by their names.
ghost use Rattle.std.specs.Prelude.{◌≡◌, ◌+◌, IfOk, OnOk};

use crate::json_text::{plain, reader_of};
use serde_json::Value;
use smithy_schema::SchemaRef;
use smithy_serde::{Group, SerdeError, ShapeDeserializer, ShapeSerializer};
use std::alloc::Global;

// A call of a row: its name, its value, and the node of the member that it names, else the prelude's document.
#[derive(Clone, Copy)]
pub struct Step<'v, 't> {
    pub call: &'v str,
    pub value: &'v Value,
    pub node: SchemaRef<'t>,
}

fn no_step(alloc: Global) -> SerdeError {
    SerdeError::custom(alloc, "no such call")
}

/// The call that an array is: its name, what is written, and the name of a member of the schema.
pub fn step_of<'v, 't>(step: &'v Value, schema: Option<SchemaRef<'t>>) -> Option<Step<'v, 't>> {
    let call = step.get(0)?.as_str()?;
    let value = step.get(1).unwrap_or(step);
    let node = match step.get(2).and_then(Value::as_str) {
        Some(name) => schema?.member_schema(name)?,
        None => plain(),
    };
    Some(Step { call, value, node })
}

/// One call, where so many lists are open; how many are then.
pub fn one_write<S: ShapeSerializer>(
    alloc: Global,
    to: &mut S,
    step: Step<'_, '_>,
    depth: usize,
) -> Result<usize, SerdeError>
    requires { (S.seen to.old).lists ≡ depth }
    ensures { IfOk result (λ d. (S.seen to.new).lists ≡ d) }
{
    if step.call == "close" {
        let Some(around) = depth.checked_sub(1) else {
            return Err(no_step(alloc));
        };
        to.close()?;
        return Ok(around);
    }
    if step.call.starts_with("open") {
        let Some(inside) = depth.checked_add(1) else {
            return Err(no_step(alloc));
        };
        open(alloc, to, step)?;
        return Ok(inside);
    }
    write(alloc, to, step)?;
    Ok(depth)
}

fn open<S: ShapeSerializer>(alloc: Global, to: &mut S, step: Step<'_, '_>) -> Result<(), SerdeError>
    ensures { OnOk result ((S.seen to.new).lists ≡ 1 + (S.seen to.old).lists) }
{
    match step.call {
        "open" => to.open(step.node, Group::List),
        "open_list" => to.open_list(step.node),
        "open_map" => to.open_map(step.node),
        "open_struct" => to.open_struct(step.node),
        "open_list_with_length" => to.open_list_with_length(step.node, 2),
        "open_map_with_length" => to.open_map_with_length(step.node, 2),
        _ => Err(no_step(alloc)),
    }
}

fn write<S: ShapeSerializer>(
    alloc: Global,
    to: &mut S,
    step: Step<'_, '_>,
) -> Result<(), SerdeError>
    ensures { OnOk result ((S.seen to.new).lists ≡ (S.seen to.old).lists) }
{
    match step.call {
        "write_boolean" | "write_byte" | "write_short" | "write_integer" | "write_long" => {
            write_number(alloc, to, step)
        }
        "write_null" => to.write_null(step.node),
        "write_string_list"
        | "write_blob_list"
        | "write_integer_list"
        | "write_long_list"
        | "write_string_string_map" => write_items(alloc, to, step),
        _ => write_owned(alloc, to, step),
    }
}

fn write_number<S: ShapeSerializer>(
    alloc: Global,
    to: &mut S,
    step: Step<'_, '_>,
) -> Result<(), SerdeError>
    ensures { OnOk result ((S.seen to.new).lists ≡ (S.seen to.old).lists) }
{
    let mut given = reader_of(alloc, step.value)?;
    match step.call {
        "write_boolean" => to.write_boolean(step.node, given.read_boolean(alloc, plain())?),
        "write_byte" => to.write_byte(step.node, given.read_byte(alloc, plain())?),
        "write_short" => to.write_short(step.node, given.read_short(alloc, plain())?),
        "write_integer" => to.write_integer(step.node, given.read_integer(alloc, plain())?),
        _ => to.write_long(step.node, given.read_long(alloc, plain())?),
    }
}

fn write_owned<S: ShapeSerializer>(
    alloc: Global,
    to: &mut S,
    step: Step<'_, '_>,
) -> Result<(), SerdeError>
    ensures { OnOk result ((S.seen to.new).lists ≡ (S.seen to.old).lists) }
{
    let mut given = reader_of(alloc, step.value)?;
    match step.call {
        "write_big_integer" => {
            let number = given.read_big_integer(alloc, plain())?;
            to.write_big_integer(step.node, &number)
        }
        "write_big_decimal" => {
            let number = given.read_big_decimal(alloc, plain())?;
            to.write_big_decimal(step.node, &number)
        }
        "write_string" => {
            let text = given.read_string(alloc, plain())?;
            to.write_string(step.node, text.as_str())
        }
        "write_blob" => {
            let bytes = given.read_blob(alloc, plain())?;
            to.write_blob(step.node, &bytes)
        }
        "write_timestamp" => {
            let time = given.read_timestamp(alloc, plain())?;
            to.write_timestamp(step.node, &time)
        }
        "write_document" => {
            let document = given.read_document(alloc, plain())?;
            to.write_document(step.node, &document)
        }
        _ => Err(no_step(alloc)),
    }
}

fn write_items<S: ShapeSerializer>(
    alloc: Global,
    to: &mut S,
    step: Step<'_, '_>,
) -> Result<(), SerdeError>
    ensures { OnOk result ((S.seen to.new).lists ≡ (S.seen to.old).lists) }
{
    let mut given = reader_of(alloc, step.value)?;
    match step.call {
        "write_string_list" => {
            let items = given.read_string_list(alloc, plain())?;
            to.write_string_list(step.node, &items)
        }
        "write_blob_list" => {
            let items = given.read_blob_list(alloc, plain())?;
            to.write_blob_list(step.node, items.as_slice())
        }
        "write_integer_list" => {
            let items = given.read_integer_list(alloc, plain())?;
            to.write_integer_list(step.node, items.as_slice())
        }
        "write_long_list" => {
            let items = given.read_long_list(alloc, plain())?;
            to.write_long_list(step.node, items.as_slice())
        }
        _ => {
            let items = given.read_string_string_map(alloc, plain())?;
            to.write_string_string_map(step.node, &items)
        }
    }
}
