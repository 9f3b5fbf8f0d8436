// Structures read by the models of rows, and what is told of them.
use crate::given::{canonical_document, canonical_document_of};
use crate::json_text::reader_of;
use crate::kinds::word_or_none;
use crate::model::input_schema;
use crate::read_back::read_back;
use crate::settings::OwnSettings;
use crate::told::{optional, push_part, refusal};
use crate::value_text::{document_told, value_told, writes_told};
use serde_json::Value;
use smithy_document::{DiscriminatedDocumentExt, DocumentShapeSerializer};
use smithy_ids::{ShapeId, ShapeType};
use smithy_model::ModelTable;
use smithy_schema::{Schema, SchemaIndex, Schemas};
use smithy_serde::{
    SerdeError, SerializableStruct, ShapeReader, StructValue, ValueReader, read_struct_value,
    read_value, record_members,
};
use smithy_types::{DiscriminatedDocument, NoSettings, Text};
use std::alloc::Global;
use test_rows::{Failed, text_of};

/// What is told of the structure under `input`, read by the input of the operation under `operation`; with a member's name
/// under `target`, by another node, which has the input's members and that member's shape as its target.
pub fn answer(alloc: Global, call: &str, given: &Value) -> Result<Option<Text>, Failed> {
    let Some(input) = given.get("input") else {
        return Ok(None);
    };
    let asked = asked_schema(alloc, given)?;
    let (table, place) = (&asked.table, asked.index);
    let text = match call {
        "ValueReader::read" => read_told(alloc, table, place, input)?,
        "read_struct_value" => by_own_members(alloc, table, place, given, input)?,
        "read_value" => value_at(alloc, table, place, text_of(given, "member")?, input)?,
        "read_value(DocumentShapeDeserializer)" => {
            value_back(alloc, table, place, text_of(given, "member")?, input)?
        }
        "DiscriminatedDocument::from_struct" => {
            document_told(alloc, document_of(alloc, table, place, input))?
        }
        "DocumentShapeSerializer::write_struct" => {
            document_told(alloc, serialized(alloc, table, place, input))?
        }
        "DiscriminatedDocument::as_shape" => again_told(alloc, table, place, input)?,
        "record_members" => recorded(alloc, table, place, input)?,
        _ => return Ok(None),
    };
    Ok(Some(text))
}

// The schema that a row asks for.
fn asked_schema(alloc: Global, given: &Value) -> Result<ModelTable, Failed> {
    let input = input_schema(alloc, given)?;
    match given.get("target").and_then(Value::as_str) {
        Some(member) => with_target(alloc, input, member),
        None => Ok(input),
    }
}

// Another schema with the members of an input, whose target is the shape of a member.
fn with_target(alloc: Global, input: ModelTable, member: &str) -> Result<ModelTable, Failed> {
    let ModelTable {
        mut table,
        index,
        natural,
    } = input;
    let target = target_of(&table, index, member).ok_or(Failed)?;
    let members = match table.get(index) {
        Some(schema) => Vec::from_slice(alloc, schema.members())?,
        None => return Err(Failed),
    };
    let id = ShapeId::from_parts("ex#Own", "ex", "Own");
    let schema = Schema::new_struct(id, ShapeType::Structure, members.as_slice());
    let Ok(index) = table.insert(schema.with_target(target)) else {
        return Err(Failed);
    };
    Ok(ModelTable {
        table,
        index,
        natural,
    })
}

/// The structure of an input by the node at a place.
pub fn structure_of<'t>(
    alloc: Global,
    table: &'t Schemas,
    place: SchemaIndex,
    input: &Value,
) -> Result<StructValue<'t>, SerdeError> {
    if table.get(place).is_none() {
        return Err(SerdeError::custom(alloc, "no node"));
    }
    ValueReader::new(table, place).read(alloc, &mut reader_of(alloc, input)?)
}

/// The writes of a structure, or the refusal.
pub fn members_told(
    alloc: Global,
    outcome: Result<StructValue<'_>, SerdeError>,
) -> Result<Text, Failed> {
    let value = match outcome {
        Ok(value) => value,
        Err(error) => return refusal(alloc, &error),
    };
    match value.stored_writes() {
        Some((table, writes)) => writes_told(alloc, table, writes),
        None => Err(Failed),
    }
}

fn read_told(
    alloc: Global,
    table: &Schemas,
    place: SchemaIndex,
    input: &Value,
) -> Result<Text, Failed> {
    members_told(alloc, structure_of(alloc, table, place, input))
}

/// The place of the shape that a member of the node at a place has.
pub fn target_of(table: &Schemas, place: SchemaIndex, member: &str) -> Option<SchemaIndex> {
    table.get(place)?.member_schema(member)?.target()?.index()
}

// The index of the node of the member under `member`, where there is one, and else that of the schema.
fn node_asked(table: &Schemas, schema: SchemaIndex, given: &Value) -> Option<SchemaIndex> {
    match given.get("member").and_then(Value::as_str) {
        Some(member) => table.get(schema)?.member_schema(member)?.index(),
        None => Some(schema),
    }
}

// The writes of the structure by the own members of a node, or the refusal.
fn by_own_members(
    alloc: Global,
    table: &Schemas,
    schema: SchemaIndex,
    given: &Value,
    input: &Value,
) -> Result<Text, Failed> {
    let index = node_asked(table, schema, given).ok_or(Failed)?;
    let Some(node) = table.get(index) else {
        return Err(Failed);
    };
    let mut reader = reader_of(alloc, input).map_err(|_| Failed)?;
    match read_struct_value(alloc, &mut reader, table, node) {
        Ok(writes) => writes_told(alloc, table, &writes),
        Err(error) => refusal(alloc, &error),
    }
}

// The value by the shape of a member.
fn value_at(
    alloc: Global,
    table: &Schemas,
    place: SchemaIndex,
    member: &str,
    input: &Value,
) -> Result<Text, Failed> {
    let node = target_of(table, place, member).ok_or(Failed)?;
    if table.get(node).is_none() {
        return Err(Failed);
    }
    let mut reader = reader_of(alloc, input).map_err(|_| Failed)?;
    match read_value(alloc, &mut reader, table, node) {
        Ok(value) => value_told(alloc, table, &value),
        Err(error) => refusal(alloc, &error),
    }
}

// The same of the document that a value is.
fn value_back(
    alloc: Global,
    table: &Schemas,
    place: SchemaIndex,
    member: &str,
    input: &Value,
) -> Result<Text, Failed> {
    let node = target_of(table, place, member).ok_or(Failed)?;
    let text = input.to_string(alloc)?;
    let document = canonical_document(alloc, text.as_bytes())?;
    if table.get(node).is_none() {
        return Err(Failed);
    }
    match read_back(alloc, &document, table, node) {
        Ok(value) => value_told(alloc, table, &value),
        Err(error) => refusal(alloc, &error),
    }
}

fn document_of(
    alloc: Global,
    table: &Schemas,
    place: SchemaIndex,
    input: &Value,
) -> Result<DiscriminatedDocument<NoSettings>, SerdeError> {
    let value = structure_of(alloc, table, place, input)?;
    DiscriminatedDocument::<NoSettings>::from_struct(alloc, value.schema(), &value)
}

fn serialized(
    alloc: Global,
    table: &Schemas,
    place: SchemaIndex,
    input: &Value,
) -> Result<DiscriminatedDocument<NoSettings>, SerdeError> {
    let value = structure_of(alloc, table, place, input)?;
    let mut to = DocumentShapeSerializer::new(alloc);
    to.write_struct(value.schema(), &value)?;
    to.finish()
}

// The document of the structure, read as the structure.
fn again_told(
    alloc: Global,
    table: &Schemas,
    place: SchemaIndex,
    input: &Value,
) -> Result<Text, Failed> {
    let document = match document_of(alloc, table, place, input) {
        Ok(document) => document,
        Err(error) => return refusal(alloc, &error),
    };
    if !document.document().is_canonical() {
        return Err(Failed);
    }
    if table.get(place).is_none() {
        return Err(Failed);
    }
    let reader = ValueReader::new(table, place);
    members_told(alloc, document.as_shape(alloc, &reader))
}

fn recorded(
    alloc: Global,
    table: &Schemas,
    place: SchemaIndex,
    input: &Value,
) -> Result<Text, Failed> {
    match structure_of(alloc, table, place, input) {
        Ok(value) => members_recorded(alloc, &value),
        Err(error) => refusal(alloc, &error),
    }
}

/// How many writes a structure lends, `None` where it lends none, and what it tells.
pub fn members_recorded(alloc: Global, value: &dyn SerializableStruct) -> Result<Text, Failed> {
    let mut text = match value.stored_writes() {
        Some((_, writes)) => Text::from_string(format!(in alloc; "{}", writes.len())?),
        None => Text::from_str(alloc, "None")?,
    };
    let members = match record_members(alloc, value) {
        Ok(recorded) => writes_told(alloc, recorded.table(), recorded.writes())?,
        Err(error) => refusal(alloc, &error)?,
    };
    push_part(&mut text, members.as_str())?;
    Ok(text)
}

/// What is told of the document under `text`.
pub fn answer_of_document(
    alloc: Global,
    call: &str,
    given: &Value,
) -> Result<Option<Text>, Failed> {
    let text = match call {
        "DiscriminatedDocument::shape_type" => kind_told(alloc, given)?,
        "DiscriminatedDocument::new" => by_own_settings(alloc, given)?,
        _ => return Ok(None),
    };
    Ok(Some(text))
}

fn kind_told(alloc: Global, given: &Value) -> Result<Text, Failed> {
    let document = canonical_document_of(alloc, given)?;
    let kind = DiscriminatedDocument::new(document, NoSettings).shape_type();
    Ok(Text::from_str(alloc, word_or_none(Some(kind)))?)
}

// The structure that a document is by settings of a caller's own.
fn by_own_settings(alloc: Global, given: &Value) -> Result<Text, Failed> {
    let placed = input_schema(alloc, given)?;
    if placed.table.get(placed.index).is_none() {
        return Err(Failed);
    }
    let reader = ValueReader::new(&placed.table, placed.index);
    let document = canonical_document_of(alloc, given)?;
    let document = DiscriminatedDocument::new(document, OwnSettings);
    let mut text = optional(alloc, document.discriminator())?;
    let members = members_told(alloc, document.as_shape(alloc, &reader))?;
    push_part(&mut text, members.as_str())?;
    Ok(text)
}
