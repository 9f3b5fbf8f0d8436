// Consumers and protocols of a caller's own.
ghost use Rattle.std.specs.Prelude.{codes, false, Some};
ghost use Rattle.smithy_serde.specs.Handing.{KeepsNone, none_kept};
ghost use Rattle.smithy_serde.specs.Held as held;
ghost use Rattle.smithy_serde.specs.ReadCalls.{Begins};
ghost use Rattle.smithy_strings.specs.StringReading.{string_at_hand};

use smithy_document::JsonCodec;
use smithy_http::{Headers, NonUtf8HeaderHandling, Response};
use smithy_ids::{ShapeId, ShapeType};
use smithy_response::ResponseProtocol;
use smithy_schema::{Schema, SchemaRef, Schemas};
use smithy_serde::{Codec, MemberConsumer, SerdeError, ShapeDeserializer, read_struct};
use smithy_strings::HttpStringDeserializer;
use smithy_types::Text;
use std::alloc::Global;
use std::test::Fail;

fn shape() -> ShapeId<'static> {
    ShapeId::from_parts("ex#Out", "ex", "Out")
}

// Notes each member and its text, and refuses the one after so many.
#[derive(Drop)]
struct Texts {
    alloc: Global,
    noted: Text,
    room: usize,
}

impl MemberConsumer for Texts {
    ghost takes = { λ old node held new answer. Unit {0} };

    ghost keeps = { KeepsNone };

    ghost laws = { none_kept };

    fn member<D: ShapeDeserializer>(
        &mut self,
        schema: SchemaRef<'_>,
        reader: &mut D,
    ) -> Result<(), SerdeError> {
        self.noted.push_str(schema.member_name().unwrap_or(""))?;
        if self.room == 0 {
            return Err(SerdeError::custom(self.alloc, "no room"));
        }
        self.room -= 1;
        let text = reader.read_string(self.alloc, schema)?;
        self.noted.push_str("=")?;
        self.noted.push_str(text.as_str())?;
        self.noted.push_str(";")?;
        Ok(())
    }
}

// The members stand in the order of the fields, whatever their indexes.
#[test]
fn members_go_to_a_consumer_of_ones_own(rt: HostRuntime) -> Result<(), Fail> {
    let alloc = rt.alloc();
    let mut table = Schemas::new(alloc);
    let members = [
        table.insert(Schema::new_member(shape(), ShapeType::String, "a", 0))?,
        table.insert(Schema::new_member(shape(), ShapeType::String, "c", 1))?,
        table.insert(Schema::new_member(shape(), ShapeType::String, "b", 2))?,
    ];
    let place = table.insert(Schema::new_struct(shape(), ShapeType::Structure, &members))?;
    let node = table.get(place).expect(&rt, "no node");
    for (room, wanted, end) in [(9, "a=x;b=y;c=z;", "Ok"), (1, "a=x;b", "no room")] {
        let bytes = br#"{"c":"z","a":"x","b":"y"}"#;
        let mut reader = JsonCodec.create_deserializer(alloc, bytes)?;
        let noted = Text::from_str(alloc, "")?;
        let mut texts = Texts { alloc, noted, room };
        let ended = match read_struct(alloc, &mut reader, node, &mut texts) {
            Ok(()) => String::from_str(alloc, "Ok")?,
            Err(refusal) => refusal.to_string(alloc)?,
        };
        assert_eq!(rt; texts.noted.as_str(), wanted);
        assert_eq!(rt; ended.as_str(), end);
    }
    Ok(())
}

// A protocol that leaves the reader of modelled errors as it is. Its readers have the full name of the schema at hand that
// they were made by.
#[derive(Clone, Copy, Drop)]
struct NamesSchema;

impl ResponseProtocol for NamesSchema {
    type Reader = HttpStringDeserializer;

    ghost reads = { λ _ _ m _ r. Begins (Some (held.input m.node.full_name false)) (string_at_hand r) };

    ghost reads_error = { λ _ _ _ r.
        Begins (Some (held.input (codes "smithy.api#Document") false)) (string_at_hand r) };

    ghost by_default = { λ p response policy r h. h };

    fn deserialize_response(
        &self,
        alloc: Global,
        _response: &Response,
        schema: SchemaRef<'_>,
        _policy: NonUtf8HeaderHandling,
    ) -> Result<HttpStringDeserializer, SerdeError> {
        HttpStringDeserializer::new(alloc, schema.full_name())
    }
}

#[test]
fn an_error_is_read_by_the_document_node(rt: HostRuntime) -> Result<(), Fail> {
    let alloc = rt.alloc();
    let response = Response::new(400, Headers::new(alloc), None);
    let policy = NonUtf8HeaderHandling::Reject;
    let mut reader = NamesSchema.deserialize_error_response(alloc, &response, policy)?;
    let node = SchemaRef::prelude(ShapeType::String);
    let name = reader.read_string(alloc, node)?;
    assert_eq!(rt; name.as_str(), "smithy.api#Document");
    Ok(())
}
