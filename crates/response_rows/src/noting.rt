// A consumer that notes what calls answer on the items that it is given.
ghost use Rattle.smithy_serde.specs.Handing.{KeepsNone, none_kept, Leaves};

use crate::reads::called;
use serde_json::Value;
use smithy_ids::ShapeType;
use smithy_schema::{SchemaRef, Schemas};
use smithy_serde::{ElementConsumer, EntryConsumer, MemberConsumer, SerdeError, ShapeDeserializer};
use smithy_types::{OutOfMemory, Text};
use std::alloc::Global;

/// Of each item it notes the name and what the call that the row has for that name answers, `skip_value` where it has none;
/// the call `refuse` refuses the item. Where `seen` stands among the calls, it notes before whether the item is null, and its
/// size.
#[derive(Drop)]
pub struct Noting<'c> {
    alloc: Global,
    noted: Text,
    table: &'c Schemas,
    calls: &'c Value,
}

/// Whether what is at hand is the null, and how many items it has.
pub fn seen<D: ShapeDeserializer>(alloc: Global, reader: &D) -> Result<Text, OutOfMemory> {
    let null = if reader.is_null() { "null" } else { "no null" };
    match reader.container_size() {
        Some(size) => Ok(Text::from_string(format!(in alloc; "({null}, size {size})")?)),
        None => Ok(Text::from_string(format!(in alloc; "({null}, no size)")?)),
    }
}

impl<'c> Noting<'c> {
    /// Nothing was noted.
    pub fn new(
        alloc: Global,
        table: &'c Schemas,
        calls: &'c Value,
    ) -> Result<Noting<'c>, OutOfMemory> {
        Ok(Noting {
            alloc,
            noted: Text::from_str(alloc, "")?,
            table,
            calls,
        })
    }

    /// What was noted.
    pub fn into_noted(self) -> Text {
        let Noting { noted, .. } = self;
        noted
    }

    fn note_head<D: ShapeDeserializer>(
        &mut self,
        name: &str,
        reader: &D,
    ) -> Result<(), OutOfMemory> {
        self.noted.push_str(name)?;
        if self.calls.get("seen").is_some() {
            let text = seen(self.alloc, reader)?;
            self.noted.push_str(text.as_str())?;
        }
        Ok(())
    }

    fn note_end(&mut self, answer: &Result<Text, SerdeError>) -> Result<(), OutOfMemory> {
        match answer {
            Ok(text) => {
                self.noted.push_str("=")?;
                self.noted.push_str(text.as_str())?;
            }
            Err(refusal) => {
                self.noted.push_str("!")?;
                self.noted.push_str(refusal.variant_name())?;
            }
        }
        self.noted.push_str(";")
    }

    fn note<D: ShapeDeserializer>(
        &mut self,
        name: &str,
        schema: SchemaRef<'_>,
        reader: &mut D,
    ) -> Result<(), SerdeError>
        ensures { Leaves (D.at_hand reader.old) (D.at_hand reader.new) result }
    {
        self.note_head(name, reader)?;
        let calls = self.calls;
        let call = calls
            .get(name)
            .and_then(Value::as_str)
            .unwrap_or("skip_value");
        let answer = called(self.alloc, reader, self.table, schema, call);
        let noted = self.note_end(&answer);
        answer?;
        noted?;
        Ok(())
    }
}

impl MemberConsumer for Noting<'_> {
    ghost takes = { λ old node held new answer. Unit {0} };

    ghost keeps = { KeepsNone };

    ghost laws = { none_kept };

    fn member<D: ShapeDeserializer>(
        &mut self,
        schema: SchemaRef<'_>,
        reader: &mut D,
    ) -> Result<(), SerdeError> {
        self.note(schema.member_name().unwrap_or(""), schema, reader)
    }
}

impl ElementConsumer for Noting<'_> {
    ghost takes = { λ old held new answer. Unit {0} };

    ghost keeps = { KeepsNone };

    ghost laws = { none_kept };

    fn element<D: ShapeDeserializer>(&mut self, reader: &mut D) -> Result<(), SerdeError> {
        self.note("element", SchemaRef::prelude(ShapeType::String), reader)
    }
}

impl EntryConsumer for Noting<'_> {
    ghost takes = { λ old key held new answer. Unit {0} };

    ghost keeps = { KeepsNone };

    ghost laws = { none_kept };

    fn entry<D: ShapeDeserializer>(&mut self, key: Text, reader: &mut D) -> Result<(), SerdeError> {
        self.note(key.as_str(), SchemaRef::prelude(ShapeType::String), reader)
    }
}
