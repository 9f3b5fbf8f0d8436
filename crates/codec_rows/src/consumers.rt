// A consumer of a caller's own: it notes each item and its text, and refuses the one behind so many.
ghost use Rattle.smithy_serde.specs.Handing.{KeepsNone, none_kept, Leaves};

use crate::given::input_of;
use crate::json_text::plain;
use crate::model::input_schema;
use crate::told::{push_part, refusal};
use serde_json::Value;
use smithy_document::JsonCodec;
use smithy_schema::SchemaRef;
use smithy_serde::{
    Codec, ElementConsumer, EntryConsumer, MemberConsumer, SerdeError, ShapeDeserializer,
    read_list, read_map, read_struct,
};
use smithy_strings::HttpStringCodec;
use smithy_types::Text;
use std::alloc::Global;
use test_rows::{Failed, count_of};

/// What is noted of the items of the container under `text`, where there is `room` for so many; and the refusal.
pub fn answer(alloc: Global, call: &str, given: &Value) -> Result<Option<Text>, Failed> {
    let text = match call {
        "read_struct" => by_model(alloc, given)?,
        "element" | "entry" | "member" | "read_list" | "read_map" => {
            by_codec(alloc, &JsonCodec, call, given)?
        }
        "read_list(HttpStringDeserializer)" => by_codec(alloc, &HttpStringCodec, call, given)?,
        "read_map(HttpStringDeserializer)" => by_codec(alloc, &HttpStringCodec, call, given)?,
        _ => return Ok(None),
    };
    Ok(Some(text))
}

#[derive(Drop)]
struct Texts {
    alloc: Global,
    noted: Text,
    room: usize,
}

impl Texts {
    // Reads the text at hand.
    fn note<D: ShapeDeserializer>(
        &mut self,
        name: &str,
        schema: SchemaRef<'_>,
        reader: &mut D,
    ) -> Result<(), SerdeError>
        ensures { Leaves (D.at_hand reader.old) (D.at_hand reader.new) result }
    {
        self.noted.push_str(name)?;
        if self.room == 0 {
            return Err(SerdeError::custom(self.alloc, "no room"));
        }
        self.room -= 1;
        let text = reader.read_string(self.alloc, schema)?;
        self.noted.push_str("=")?;
        self.noted.push_str(text.as_str())?;
        self.noted.push_str(",")?;
        Ok(())
    }
}

impl MemberConsumer for Texts {
    ghost takes = { λ old node held new answer. Unit {0} };

    ghost keeps = { KeepsNone };

    ghost laws = { none_kept };

    fn member<D: ShapeDeserializer>(
        &mut self,
        schema: SchemaRef<'_>,
        reader: &mut D,
    ) -> Result<(), SerdeError> {
        self.note(schema.member_name().unwrap_or(""), schema, reader)
    }
}

impl ElementConsumer for Texts {
    ghost takes = { λ old held new answer. Unit {0} };

    ghost keeps = { KeepsNone };

    ghost laws = { none_kept };

    fn element<D: ShapeDeserializer>(&mut self, reader: &mut D) -> Result<(), SerdeError> {
        self.note("element", plain(), reader)
    }
}

impl EntryConsumer for Texts {
    ghost takes = { λ old key held new answer. Unit {0} };

    ghost keeps = { KeepsNone };

    ghost laws = { none_kept };

    fn entry<D: ShapeDeserializer>(&mut self, key: Text, reader: &mut D) -> Result<(), SerdeError> {
        self.note(key.as_str(), plain(), reader)
    }
}

fn with_room(alloc: Global, given: &Value) -> Result<Texts, Failed> {
    Ok(Texts {
        alloc,
        noted: Text::from_str(alloc, "")?,
        room: count_of(given, "room")?,
    })
}

// What was noted, and how it ended.
fn ended(alloc: Global, texts: Texts, outcome: Result<(), SerdeError>) -> Result<Text, Failed> {
    let mut noted = texts.noted;
    match outcome {
        Ok(()) => push_part(&mut noted, "Ok")?,
        Err(error) => push_part(&mut noted, refusal(alloc, &error)?.as_str())?,
    }
    Ok(noted)
}

fn by_codec<C: Codec>(alloc: Global, codec: &C, call: &str, given: &Value) -> Result<Text, Failed> {
    let input = input_of(alloc, given)?;
    let Ok(mut reader) = codec.create_deserializer(alloc, input.as_slice()) else {
        return Err(Failed);
    };
    let mut noted = with_room(alloc, given)?;
    let outcome = handed(alloc, &mut reader, call, &mut noted);
    ended(alloc, noted, outcome)
}

// The items of the container at hand, or the value at hand as an item, for the consumer.
fn handed<D: ShapeDeserializer>(
    alloc: Global,
    reader: &mut D,
    call: &str,
    texts: &mut Texts,
) -> Result<(), SerdeError> {
    match call {
        "element" => texts.element(reader),
        "entry" => texts.entry(Text::from_str(alloc, "key")?, reader),
        "member" => texts.member(plain(), reader),
        "read_list" | "read_list(HttpStringDeserializer)" => {
            read_list(alloc, reader, plain(), texts)
        }
        _ => read_map(alloc, reader, plain(), texts),
    }
}

// The structure by the node of the operation's input.
fn by_model(alloc: Global, given: &Value) -> Result<Text, Failed> {
    let placed = input_schema(alloc, given)?;
    let schema = placed.table.get(placed.index).ok_or(Failed)?;
    let input = input_of(alloc, given)?;
    let Ok(mut reader) = JsonCodec.create_deserializer(alloc, input.as_slice()) else {
        return Err(Failed);
    };
    let mut noted = with_room(alloc, given)?;
    let outcome = read_struct(alloc, &mut reader, schema, &mut noted);
    ended(alloc, noted, outcome)
}
