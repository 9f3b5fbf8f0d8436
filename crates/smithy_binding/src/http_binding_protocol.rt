// The protocol that places requests by the HTTP binding traits (Smithy, HTTP protocol bindings).

use crate::header_names::Lowered;
use crate::output::{PlacedOutput, place_stored_output};
use crate::place::{Plan, place_input};
use smithy_http::Request;
use smithy_ids::ShapeId;
use smithy_schema::laws::cells_are_given;
use smithy_schema::{Provider, SchemaExtension, SchemaRef};
use smithy_serde::{Codec, OmitFlags, SerdeError, SerializableStruct, record_members};
use smithy_types::Text;
use std::alloc::Global;
use std::marker::Model;

/// Places each bound member where its trait names it, and writes the others into a body by its codec. Seen as its parts.
#[derive(Drop)]
pub struct HttpBindingProtocol<C> {
    protocol_id: ShapeId<'static>,
    codec: C,
    content_type: &'static str,
}

impl<C> Model for HttpBindingProtocol<C> {
    ghost use Rattle.std.specs.Prelude.{IsTrue};
    ghost use Rattle.smithy_types.specs.Grammars.{is_header_value};
    ghost use Rattle.smithy_binding.specs.Protocols as protocol;

    ghost Value = { protocol.Parts C };

    ghost view = { λ p.
        record { protocol_id = p.protocol_id; codec = p.codec; content_type = p.content_type.now } };

    ghost invariant = { λ p. IsTrue (is_header_value p.content_type.now) };
}

impl<C> HttpBindingProtocol<C> {
    ghost use Rattle.std.specs.Prelude.{◌≡◌, codes, IsTrue};
    ghost use Rattle.smithy_ids.specs.ShapeIdParts.{parts_of};
    ghost use Rattle.smithy_types.specs.Grammars.{is_header_value};

    /// The protocol of this name, whose bodies are the codec's and have this content type. Condition: the content type may
    /// stand as a header's value (RFC 7230, section 3.2). Takes no memory.
    pub fn new(protocol_id: ShapeId<'static>, codec: C, content_type: &'static str) -> Self
        requires { IsTrue (is_header_value content_type.now) }
        ensures protocol_id { result.protocol_id ≡ protocol_id.entry }
        ensures codec { result.codec ≡ codec }
        ensures content_type { result.content_type ≡ content_type.now }
    {
        HttpBindingProtocol {
            protocol_id,
            codec,
            content_type,
        }
    }

    /// REST with bodies of JSON by this codec, mostly `JsonCodec` (AWS restJson1). Takes no memory.
    pub fn rest_json(codec: C) -> Self
        ensures name { (parts_of result.protocol_id).full_name ≡ codes "aws.protocols#restJson1" }
        ensures codec { result.codec ≡ codec }
        ensures content_type { result.content_type ≡ codes "application/json" }
    {
        let id = ShapeId::from_parts("aws.protocols#restJson1", "aws.protocols", "restJson1");
        HttpBindingProtocol::new(id, codec, "application/json")
    }

    /// The name of the protocol. Takes no memory.
    pub fn protocol_id(&self) -> ShapeId<'_>
        ensures { result ≡ self.now.protocol_id }
    {
        self.protocol_id
    }

    /// The codec. Takes no memory.
    pub fn codec(&self) -> &C
        ensures { result.now ≡ self.now.codec }
    {
        &self.codec
    }

    /// The content type of the bodies. Takes no memory.
    pub fn content_type(&self) -> &'static str
        ensures value { result.now ≡ self.now.content_type }
        ensures legal { IsTrue (is_header_value result.now) }
    {
        self.content_type
    }
}

impl<C: Drop> HttpBindingProtocol<C> {
    ghost use Rattle.std.specs.Prelude.{◌≡◌};

    /// The same protocol with another codec. Takes no memory.
    pub fn with_codec(self, codec: C) -> Self
        ensures { result ≡ record self { codec = codec } }
    {
        HttpBindingProtocol {
            protocol_id: self.protocol_id,
            codec,
            content_type: self.content_type,
        }
    }
}

impl<C: Codec> HttpBindingProtocol<C> {
    ghost use Rattle.std.specs.Prelude.{◌≡◌, IsTrue, OnOk};
    ghost use Rattle.smithy_schema.specs.Columns.{AreGiven, KeepsCells};
    ghost use Rattle.smithy_schema.specs.References.{schema_of};
    ghost use Rattle.smithy_serde.specs.Finishing.{IsReady};
    ghost use Rattle.smithy_binding.specs.Checked.{checked_input};
    ghost use Rattle.smithy_binding.specs.CheckedOutput.{checked_output};
    ghost use Rattle.smithy_binding.specs.HeaderNames.{AreFilled, GivesHeaderNames};
    ghost use Rattle.smithy_binding.specs.Protocols.{AnswersBy, AnswersOutput};

    /// The request of an input, by its schema (Smithy, HTTP protocol bindings). Without `@http` the method is `GET`, and
    /// the template is `endpoint`, or `/` where that is empty. Each bound member's first write stands where its trait
    /// names it: a label, header or query member by its texts, a map in the headers by a header of each entry, named by
    /// prefix and key, and a map in the query by a pair of each entry whose key is no query member's name. The body is
    /// the payload's first write, as it is where that is a Blob or String and else as the codec's text, and empty where
    /// there is none; without a payload it is the codec's text of the writes of unbound members, where the schema has
    /// such members. The default headers are added as `omit` asks: a content type where the codec writes the body, a
    /// length there and where the body is not empty. Conditions: `checked_input` holds of the schema, and the codec is
    /// lawful.
    ///
    /// Refused with the first fault of the writes in order, then of the body's document, of the template's holes, and of
    /// the target: `UnknownMember` where a write is for no member, `UnsupportedOperation` where it is not of the member's
    /// kind or a map ends with a key, `InvalidInput` for a header that no request has and for a hole without a text,
    /// `Custom` for a rule of documents that the body breaks, and for a target that is longer than 65,534 bytes or not
    /// legal. Takes memory; `OutOfMemory` where it is not there.
    pub fn serialize_request(
        &self,
        alloc: Global,
        input: &dyn SerializableStruct,
        schema: SchemaRef<'_>,
        endpoint: &str,
        omit: OmitFlags,
    ) -> Result<Request, SerdeError>
        requires checked { IsTrue (checked_input (schema_of schema)) }
        requires lawful { C.lawful self.now.codec }
        ensures { AnswersBy C.text self.now schema.entry (writes input.now) endpoint.now omit result }
    {
        let body = self.codec.create_serializer(alloc)?;
        self.serialize_request_with_body(alloc, body, input, schema, endpoint, omit)
    }

    /// The same with a serializer for the body. Further condition: it is a lawful serializer with the codec's text, and
    /// was told nothing.
    pub fn serialize_request_with_body(
        &self,
        alloc: Global,
        body: C::Serializer,
        input: &dyn SerializableStruct,
        schema: SchemaRef<'_>,
        endpoint: &str,
        omit: OmitFlags,
    ) -> Result<Request, SerdeError>
        requires checked { IsTrue (checked_input (schema_of schema)) }
        requires ready { IsReady (C.Serializer.seen body) }
        requires text { (C.Serializer.seen body).text ≡ C.text self.now.codec }
        ensures { AnswersBy C.text self.now schema.entry (writes input.now) endpoint.now omit result }
    {
        let plan = Plan {
            schema,
            endpoint,
            content_type: self.content_type,
            omit,
        };
        place_input(alloc, &mut Lowered, body, input, plan)
    }

    /// `serialize_request` with a column of the header names in lower case, mostly by `LowerHeaderNames`: each is made for
    /// the first request that has it, and taken from its cell for the later ones. Further conditions: the column is beside
    /// the schema's table, and each answer of its provider is the node's header name in lower case, None without one. After
    /// any answer the filled cells are filled as before; after `Ok` so are those of the header members that have a write.
    pub fn serialize_request_cached<F: Provider<Option<Text>> + Drop>(
        &self,
        alloc: Global,
        input: &dyn SerializableStruct,
        schema: SchemaRef<'_>,
        endpoint: &str,
        omit: OmitFlags,
        names: &mut SchemaExtension<'_, Option<Text>, F>,
    ) -> Result<Request, SerdeError>
        requires checked { IsTrue (checked_input (schema_of schema)) }
        requires lawful { C.lawful self.now.codec }
        requires beside { names.old.table ≡ (schema_of schema).table }
        requires names { GivesHeaderNames F.gives names.old.provider }
        ensures answer { AnswersBy
            C.text self.now schema.entry (writes input.now) endpoint.now omit result }
        ensures given { AreGiven F.gives names.new }
        ensures kept { KeepsCells names.old names.new }
        ensures filled { OnOk result (AreFilled names.new schema.entry (writes input.now)) }
    {
        cells_are_given(names);
        let body = self.codec.create_serializer(alloc)?;
        let plan = Plan {
            schema,
            endpoint,
            content_type: self.content_type,
            omit,
        };
        let placed = place_input(alloc, names, body, input, plan);
        cells_are_given(names);
        placed
    }

    /// What an output has in a response, by its schema (Smithy, HTTP protocol bindings): as `serialize_request` places an
    /// input, but that only the traits for headers, prefixes, payloads and the response code count, and no default header
    /// is left out. `smithy_serve` makes the response of it. Conditions: `checked_output` holds of the schema, and the
    /// codec is lawful.
    ///
    /// Refused with the first fault of the writes in order, as `serialize_request` tells them, a first response code
    /// outside 100 to 999 being `Custom`, and then of the body's document. Takes memory; `OutOfMemory` where it is not
    /// there.
    pub fn place_output(
        &self,
        alloc: Global,
        output: &dyn SerializableStruct,
        schema: SchemaRef<'_>,
    ) -> Result<PlacedOutput, SerdeError>
        requires checked { IsTrue (checked_output (schema_of schema)) }
        requires lawful { C.lawful self.now.codec }
        ensures { AnswersOutput C.text self.now schema.entry (writes output.now) result }
    {
        let body = self.codec.create_serializer(alloc)?;
        self.place_output_with_body(alloc, body, output, schema)
    }

    // The same with a serializer for the body.
    fn place_output_with_body(
        &self,
        alloc: Global,
        body: C::Serializer,
        output: &dyn SerializableStruct,
        schema: SchemaRef<'_>,
    ) -> Result<PlacedOutput, SerdeError>
        requires checked { IsTrue (checked_output (schema_of schema)) }
        requires ready { IsReady (C.Serializer.seen body) }
        requires text { (C.Serializer.seen body).text ≡ C.text self.now.codec }
        ensures { AnswersOutput C.text self.now schema.entry (writes output.now) result }
    {
        if let Some((table, writes)) = output.stored_writes() {
            return place_stored_output(alloc, body, table, writes, schema, self.content_type);
        }
        let recorded = record_members(alloc, output)?;
        place_stored_output(
            alloc,
            body,
            recorded.table(),
            recorded.writes(),
            schema,
            self.content_type,
        )
    }
}
