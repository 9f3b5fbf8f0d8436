// Calls of readers on what is at hand, by their names.
ghost use Rattle.smithy_serde.specs.Handing.{Leaves};

use crate::json::json_of_value;
use crate::told::{shortened, told_blob, told_document, told_text};
use smithy_schema::{SchemaRef, Schemas};
use smithy_serde::{SerdeError, ShapeDeserializer, read_value};
use smithy_types::{Blobs, OutOfMemory, Text, TextMap, Words};
use std::alloc::Global;

/// What a call of this name answers. What is read stands as JSON has it, lists and maps between brackets. A value is read by
/// its node with `read_value`; `refuse` refuses, and `open_and_refuse` opens a list before.
pub fn called<D: ShapeDeserializer>(
    alloc: Global,
    reader: &mut D,
    table: &Schemas,
    node: SchemaRef<'_>,
    call: &str,
) -> Result<Text, SerdeError>
    ensures { Leaves (D.at_hand reader.old) (D.at_hand reader.new) result }
{
    match call {
        "read_byte" | "read_short" | "read_integer" | "read_long" | "read_timestamp" => {
            let number = number_read(alloc, reader, node, call)?;
            Ok(Text::from_string(format!(in alloc; "{number}")?))
        }
        "read_boolean" | "read_big_integer" | "read_big_decimal" => {
            word_read(alloc, reader, node, call)
        }
        "read_string" | "read_blob" | "read_document" => text_read(alloc, reader, node, call),
        "read_null" => null_read(alloc, reader),
        "skip_value" => passed_over(alloc, reader),
        "read_value" => value_of(alloc, reader, table, node),
        "open_and_refuse" => refused_inside(alloc, reader, node),
        _ => list_read(alloc, reader, node, call),
    }
}

// A number, or the seconds of a point in time.
fn number_read<D: ShapeDeserializer>(
    alloc: Global,
    reader: &mut D,
    node: SchemaRef<'_>,
    call: &str,
) -> Result<i64, SerdeError>
    ensures { Leaves (D.at_hand reader.old) (D.at_hand reader.new) result }
{
    match call {
        "read_byte" => Ok(i64::from(reader.read_byte(alloc, node)?)),
        "read_short" => Ok(i64::from(reader.read_short(alloc, node)?)),
        "read_integer" => Ok(i64::from(reader.read_integer(alloc, node)?)),
        "read_long" => Ok(reader.read_long(alloc, node)?),
        _ => Ok(reader.read_timestamp(alloc, node)?.secs()),
    }
}

// A truth value or a big number.
fn word_read<D: ShapeDeserializer>(
    alloc: Global,
    reader: &mut D,
    node: SchemaRef<'_>,
    call: &str,
) -> Result<Text, SerdeError>
    ensures { Leaves (D.at_hand reader.old) (D.at_hand reader.new) result }
{
    match call {
        "read_boolean" => {
            let value = reader.read_boolean(alloc, node)?;
            Ok(Text::from_string(format!(in alloc; "{value}")?))
        }
        "read_big_integer" => {
            let number = reader.read_big_integer(alloc, node)?;
            Ok(Text::from_str(alloc, number.as_str())?)
        }
        _ => {
            let number = reader.read_big_decimal(alloc, node)?;
            Ok(Text::from_str(alloc, number.as_str())?)
        }
    }
}

// A text, bytes or a document.
fn text_read<D: ShapeDeserializer>(
    alloc: Global,
    reader: &mut D,
    node: SchemaRef<'_>,
    call: &str,
) -> Result<Text, SerdeError>
    ensures { Leaves (D.at_hand reader.old) (D.at_hand reader.new) result }
{
    match call {
        "read_string" => {
            let text = reader.read_string(alloc, node)?;
            Ok(told_text(alloc, text.as_str())?)
        }
        "read_blob" => {
            let bytes = reader.read_blob(alloc, node)?;
            Ok(told_blob(alloc, bytes.as_slice())?)
        }
        _ => {
            let document = reader.read_document(alloc, node)?;
            Ok(told_document(alloc, &document)?)
        }
    }
}

// The items of a list or a map. Another call is refused with its name.
fn list_read<D: ShapeDeserializer>(
    alloc: Global,
    reader: &mut D,
    node: SchemaRef<'_>,
    call: &str,
) -> Result<Text, SerdeError>
    ensures { Leaves (D.at_hand reader.old) (D.at_hand reader.new) result }
{
    match call {
        "read_integer_list" => {
            let items = reader.read_integer_list(alloc, node)?;
            Ok(told_integers(alloc, items.as_slice())?)
        }
        "read_long_list" => {
            let items = reader.read_long_list(alloc, node)?;
            Ok(told_longs(alloc, items.as_slice())?)
        }
        "read_blob_list" => {
            let items = reader.read_blob_list(alloc, node)?;
            Ok(told_blobs(alloc, &items)?)
        }
        "read_string_list" => {
            let items = reader.read_string_list(alloc, node)?;
            Ok(told_words(alloc, &items)?)
        }
        "read_string_string_map" => {
            let items = reader.read_string_string_map(alloc, node)?;
            Ok(told_entries(alloc, &items)?)
        }
        _ => Err(SerdeError::custom(alloc, call)),
    }
}

fn null_read<D: ShapeDeserializer>(alloc: Global, reader: &mut D) -> Result<Text, SerdeError>
    ensures { Leaves (D.at_hand reader.old) (D.at_hand reader.new) result }
{
    reader.read_null()?;
    Ok(Text::from_str(alloc, "null")?)
}

fn passed_over<D: ShapeDeserializer>(alloc: Global, reader: &mut D) -> Result<Text, SerdeError>
    ensures { Leaves (D.at_hand reader.old) (D.at_hand reader.new) result }
{
    reader.skip_value(alloc)?;
    Ok(Text::from_str(alloc, "passed")?)
}

// The JSON text of the value by its node.
fn value_of<D: ShapeDeserializer>(
    alloc: Global,
    reader: &mut D,
    table: &Schemas,
    node: SchemaRef<'_>,
) -> Result<Text, SerdeError>
    ensures { Leaves (D.at_hand reader.old) (D.at_hand reader.new) result }
{
    let Some(place) = node.index() else {
        return Err(SerdeError::custom(alloc, "a node of no table"));
    };
    let Some(_own) = table.get(place) else {
        return Err(SerdeError::custom(alloc, "a node of another table"));
    };
    let value = read_value(alloc, reader, table, place)?;
    json_of_value(alloc, node, table, &value)
}

fn refused_inside<D: ShapeDeserializer>(
    alloc: Global,
    reader: &mut D,
    node: SchemaRef<'_>,
) -> Result<Text, SerdeError>
    ensures { Leaves (D.at_hand reader.old) (D.at_hand reader.new) result }
{
    reader.open_list(alloc, node)?;
    Err(SerdeError::custom(alloc, "no room"))
}

fn push_item(list: &mut Text, item: &str) -> Result<(), OutOfMemory> {
    if list.as_str().len() > 1 {
        list.push_str(",")?;
    }
    list.push_str(item)
}

fn told_integers(alloc: Global, items: &[i32]) -> Result<Text, OutOfMemory> {
    let mut list = Text::from_str(alloc, "[")?;
    for item in items {
        push_item(&mut list, format!(in alloc; "{item}")?.as_str())?;
    }
    list.push_str("]")?;
    shortened(alloc, list)
}

fn told_longs(alloc: Global, items: &[i64]) -> Result<Text, OutOfMemory> {
    let mut list = Text::from_str(alloc, "[")?;
    for item in items {
        push_item(&mut list, format!(in alloc; "{item}")?.as_str())?;
    }
    list.push_str("]")?;
    shortened(alloc, list)
}

fn told_blobs(alloc: Global, items: &Blobs) -> Result<Text, OutOfMemory> {
    let mut list = Text::from_str(alloc, "[")?;
    for item in items.as_slice() {
        push_item(&mut list, told_blob(alloc, item.as_slice())?.as_str())?;
    }
    list.push_str("]")?;
    shortened(alloc, list)
}

fn told_words(alloc: Global, items: &Words) -> Result<Text, OutOfMemory> {
    let mut list = Text::from_str(alloc, "[")?;
    for item in items.as_slice() {
        push_item(&mut list, told_text(alloc, item.as_str())?.as_str())?;
    }
    list.push_str("]")?;
    shortened(alloc, list)
}

fn told_entries(alloc: Global, items: &TextMap) -> Result<Text, OutOfMemory> {
    let mut list = Text::from_str(alloc, "{")?;
    for (key, value) in items.iter() {
        let text = value.as_str();
        push_item(
            &mut list,
            format!(in alloc; "\"{key}\":\"{text}\"")?.as_str(),
        )?;
    }
    list.push_str("}")?;
    shortened(alloc, list)
}
