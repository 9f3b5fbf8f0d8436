// The calls of a reader by their names.
ghost use Rattle.std.specs.Prelude.{◌≡◌, OnOk};
ghost use Rattle.smithy_document.specs.JsonSeen.{json_seen};

use crate::json_text::{document_text, finished, fresh, plain};
use crate::told::answered;
use base64::engine::general_purpose::STANDARD;
use smithy_document::JsonSerializer;
use smithy_serde::{Group, SerdeError, ShapeDeserializer, ShapeSerializer};
use smithy_types::Text;
use std::alloc::Global;
use test_rows::Failed;

/// What a reader answers to a call, with the prelude's document as the node.
pub fn one_read<D: ShapeDeserializer>(
    alloc: Global,
    reader: &mut D,
    call: &str,
) -> Result<Text, Failed> {
    match call {
        "is_null" => Ok(Text::from_string(format!(in alloc; "{}", reader.is_null())?)),
        "container_size" => size_text(alloc, reader),
        _ => answered(alloc, read(alloc, reader, call)),
    }
}

fn size_text<D: ShapeDeserializer>(alloc: Global, reader: &D) -> Result<Text, Failed> {
    match reader.container_size() {
        Some(size) => Ok(Text::from_string(format!(in alloc; "Some {size}")?)),
        None => Ok(Text::from_str(alloc, "None")?),
    }
}

fn read<D: ShapeDeserializer>(
    alloc: Global,
    reader: &mut D,
    call: &str,
) -> Result<Text, SerdeError> {
    if let Some(text) = read_number(alloc, reader, call)? {
        return Ok(Text::from_string(text));
    }
    if let Some(text) = read_owned(alloc, reader, call)? {
        return Ok(text);
    }
    if pass(alloc, reader, call)? {
        return Ok(Text::from_str(alloc, "()")?);
    }
    if call.starts_with("first_") {
        return first_item(alloc, reader, call);
    }
    let mut serializer = fresh(alloc)?;
    copy_items(alloc, reader, &mut serializer, call)?;
    finished(alloc, serializer)
}

fn read_number<D: ShapeDeserializer>(
    alloc: Global,
    reader: &mut D,
    call: &str,
) -> Result<Option<String>, SerdeError> {
    let text = match call {
        "read_boolean" => format!(in alloc; "{}", reader.read_boolean(alloc, plain())?)?,
        "read_byte" => format!(in alloc; "{}", reader.read_byte(alloc, plain())?)?,
        "read_short" => format!(in alloc; "{}", reader.read_short(alloc, plain())?)?,
        "read_integer" => format!(in alloc; "{}", reader.read_integer(alloc, plain())?)?,
        "read_long" => format!(in alloc; "{}", reader.read_long(alloc, plain())?)?,
        _ => return Ok(None),
    };
    Ok(Some(text))
}

fn read_owned<D: ShapeDeserializer>(
    alloc: Global,
    reader: &mut D,
    call: &str,
) -> Result<Option<Text>, SerdeError> {
    let text = match call {
        "read_big_integer" => {
            let number = reader.read_big_integer(alloc, plain())?;
            Text::from_str(alloc, number.as_str())?
        }
        "read_big_decimal" => {
            let number = reader.read_big_decimal(alloc, plain())?;
            Text::from_str(alloc, number.as_str())?
        }
        "read_string" => reader.read_string(alloc, plain())?,
        "read_blob" => {
            let bytes = reader.read_blob(alloc, plain())?;
            Text::from_string(STANDARD.encode(alloc, bytes.as_slice())?)
        }
        "read_timestamp" => {
            let time = reader.read_timestamp(alloc, plain())?;
            Text::from_string(format!(in alloc; "{}", time.secs())?)
        }
        "read_document" => document_text(alloc, &reader.read_document(alloc, plain())?)?,
        _ => return Ok(None),
    };
    Ok(Some(text))
}

// The calls without an answer; whether it is one of them.
fn pass<D: ShapeDeserializer>(
    alloc: Global,
    reader: &mut D,
    call: &str,
) -> Result<bool, SerdeError> {
    match call {
        "read_null" => reader.read_null()?,
        "skip_value" => reader.skip_value(alloc)?,
        "settle" => reader.settle(alloc, SerdeError::custom(alloc, "x"))?,
        "open" => reader.open(alloc, plain(), Group::List)?,
        "open_list" => reader.open_list(alloc, plain())?,
        "open_map" => reader.open_map(alloc, plain())?,
        "open_struct" => reader.open_struct(alloc, plain())?,
        _ => return Ok(false),
    }
    Ok(true)
}

// The first item of a container that is opened: its key, or whether there is one.
fn first_item<D: ShapeDeserializer>(
    alloc: Global,
    reader: &mut D,
    call: &str,
) -> Result<Text, SerdeError> {
    match call {
        "first_element" => first_element(alloc, reader),
        "first_entry" => first_entry(alloc, reader),
        _ => first_member(alloc, reader),
    }
}

fn first_element<D: ShapeDeserializer>(alloc: Global, reader: &mut D) -> Result<Text, SerdeError> {
    reader.open_list(alloc, plain())?;
    let is_one = reader.next_element(alloc)?;
    Ok(Text::from_string(format!(in alloc; "{is_one}")?))
}

fn first_entry<D: ShapeDeserializer>(alloc: Global, reader: &mut D) -> Result<Text, SerdeError> {
    reader.open_map(alloc, plain())?;
    match reader.next_entry(alloc)? {
        Some(key) => Ok(key),
        None => Ok(Text::from_str(alloc, "none")?),
    }
}

// The prelude's document has no members.
fn first_member<D: ShapeDeserializer>(alloc: Global, reader: &mut D) -> Result<Text, SerdeError> {
    reader.open_struct(alloc, plain())?;
    let is_one = reader.next_member(alloc, plain())?.is_some();
    Ok(Text::from_string(format!(in alloc; "{is_one}")?))
}

// What is read at once of a list or a map, told as JSON.
fn copy_items<D: ShapeDeserializer>(
    alloc: Global,
    reader: &mut D,
    to: &mut JsonSerializer,
    call: &str,
) -> Result<(), SerdeError>
    ensures { OnOk result ((json_seen to.new).lists ≡ (json_seen to.old).lists) }
{
    match call {
        "read_integer_list" => {
            let items = reader.read_integer_list(alloc, plain())?;
            to.write_integer_list(plain(), items.as_slice())
        }
        "read_long_list" => {
            let items = reader.read_long_list(alloc, plain())?;
            to.write_long_list(plain(), items.as_slice())
        }
        "read_blob_list" => {
            let items = reader.read_blob_list(alloc, plain())?;
            to.write_blob_list(plain(), items.as_slice())
        }
        "read_string_list" => {
            let items = reader.read_string_list(alloc, plain())?;
            to.write_string_list(plain(), &items)
        }
        "read_string_string_map" => {
            let items = reader.read_string_string_map(alloc, plain())?;
            to.write_string_string_map(plain(), &items)
        }
        _ => Err(SerdeError::custom(alloc, "no such call")),
    }
}
