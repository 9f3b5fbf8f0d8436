// A word as a structure of one member, as a list of one element, and as a map from the word to itself, told to a serializer.
ghost use Rattle.std.specs.Prelude.{◌≡◌, OnOk};
ghost use Rattle.smithy_schema.specs.References.{schema_of};
ghost use Rattle.smithy_serde.specs.Values.{scalar, text, write};
ghost use Rattle.smithy_serde.specs.Told.{one_write};
ghost use Rattle.smithy_serde.specs.Writing.{label};
ghost use Rattle.smithy_serde.specs.Recording.{open_count};

use crate::json_text::plain;
use crate::told::{push_part, refusal};
use crate::value_text::writes_told;
use crate::values::members_recorded;
use serde_json::Value;
use smithy_document::DocumentShapeSerializer;
use smithy_ids::ShapeType;
use smithy_schema::SchemaRef;
use smithy_serde::{
    Recorder, SerdeError, SerializableStruct, ShapeSerializer, WriteElements, WriteEntries,
    write_list, write_list_with_length, write_map, write_map_with_length, write_struct,
};
use smithy_types::Text;
use std::alloc::Global;
use test_rows::{Failed, text_of};

/// What is recorded of the word under `word`.
pub fn answer(alloc: Global, call: &str, given: &Value) -> Result<Option<Text>, Failed> {
    match call {
        "write_groups" => Ok(Some(recorded(alloc, given)?)),
        "record_members(Box)" => Ok(Some(boxed_recorded(alloc, given)?)),
        _ => Ok(None),
    }
}

#[derive(Drop)]
struct OneWord {
    node: SchemaRef<'static>,
    word: Text,
}

impl SerializableStruct for OneWord {
    ghost writes = { λ w. one_write (label w.node) (scalar (text w.word)) };

    ghost node = { λ w. schema_of w.node };

    fn schema(&self) -> SchemaRef<'_> {
        self.node
    }

    fn serialize_members(&self, serializer: &mut dyn ShapeSerializer) -> Result<(), SerdeError> {
        serializer.write_string(self.node, self.word.as_str())
    }
}

impl WriteElements for OneWord {
    ghost element_writes = { λ w. one_write (label w.node) (scalar (text w.word)) };

    fn write_elements(&self, serializer: &mut dyn ShapeSerializer) -> Result<(), SerdeError> {
        serializer.write_string(self.node, self.word.as_str())
    }
}

impl WriteEntries for OneWord {
    ghost entry_writes = { λ w. write (label w.node) (scalar (text w.word)) (one_write (label w.node) (scalar (text w.word))) };

    fn write_entries(&self, serializer: &mut dyn ShapeSerializer) -> Result<(), SerdeError> {
        serializer.write_string(self.node, self.word.as_str())?;
        serializer.write_string(self.node, self.word.as_str())
    }
}

// Tells the word as each group.
fn tell_groups(serializer: &mut dyn ShapeSerializer, one: &OneWord) -> Result<(), SerdeError>
    ensures { OnOk result ((seen serializer.new).lists ≡ (seen serializer.old).lists) }
{
    let node = plain();
    write_list(serializer, node, one)?;
    write_list_with_length(serializer, node, 1, one)?;
    write_map(serializer, node, one)?;
    write_map_with_length(serializer, node, 1, one)?;
    write_struct(serializer, node, one)?;
    one.write_elements(serializer)?;
    one.write_entries(serializer)?;
    one.serialize_members(serializer)
}

// The same, told to a recorder.
fn record_groups(to: &mut Recorder, one: &OneWord) -> Result<(), SerdeError>
    ensures { OnOk result (open_count to.new ≡ open_count to.old) }
{
    tell_groups(to, one)?;
    Ok(())
}

fn one_word(alloc: Global, given: &Value) -> Result<OneWord, Failed> {
    Ok(OneWord {
        node: SchemaRef::prelude(ShapeType::String),
        word: Text::from_str(alloc, text_of(given, "word")?)?,
    })
}

// Tells the members of the word in a box, and the same behind them.
fn tell_twice(to: &mut dyn ShapeSerializer, boxed: &Box<OneWord>) -> Result<(), SerdeError> {
    boxed.serialize_members(to)?;
    boxed.serialize_members(to)
}

// What a document serializer answers to them.
fn told_twice(alloc: Global, boxed: &Box<OneWord>) -> Result<(), SerdeError> {
    let mut to = DocumentShapeSerializer::new(alloc);
    tell_twice(&mut to, boxed)
}

// What is recorded of the word in a box, and the refusal of its members told twice.
fn boxed_recorded(alloc: Global, given: &Value) -> Result<Text, Failed> {
    let boxed = Box::new(alloc, one_word(alloc, given)?).map_err(|_| Failed)?;
    let mut text = members_recorded(alloc, &boxed)?;
    if let Err(error) = told_twice(alloc, &boxed) {
        push_part(&mut text, refusal(alloc, &error)?.as_str())?;
    }
    Ok(text)
}

fn recorded(alloc: Global, given: &Value) -> Result<Text, Failed> {
    let one = one_word(alloc, given)?;
    let mut to = Recorder::new(alloc);
    if let Err(error) = record_groups(&mut to, &one) {
        return refusal(alloc, &error);
    }
    match to.finish() {
        Ok(recorded) => writes_told(alloc, recorded.table(), recorded.writes()),
        Err(error) => refusal(alloc, &error),
    }
}
