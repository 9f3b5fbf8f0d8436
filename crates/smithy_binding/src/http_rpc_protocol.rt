// The protocol that posts each input whole.
ghost use Rattle.std.specs.Prelude.{◌≡◌, IfOk, IfErr};
ghost use Rattle.smithy_binding.specs.Words.{schema_of, document_fault, IsTextOf, IsReady, label_at, writes_in, HasNode, AreDefined, label_of, structure};
ghost use Rattle.smithy_serde.specs.Refusing.{IsFaultRefusal};
ghost use Rattle.smithy_serde.specs.Writing.{Tells};

use crate::default_headers::add_defaults;
use crate::place::{endpoint_or_slash, request_with};
use smithy_http::{Headers, Request};
use smithy_ids::ShapeId;
use smithy_schema::{SchemaIndex, SchemaRef, Schemas};
use smithy_serde::{
    Codec, FinishSerializer, OmitFlags, SerdeError, SerializableStruct, ShapeSerializer, WriteList,
    finish_struct, record_members, tell,
};
use smithy_types::Blob;
use std::alloc::Global;
use std::marker::Model;

/// Posts the document of a whole input, as its codec's text, to the endpoint. Seen as its parts.
#[derive(Drop)]
pub struct HttpRpcProtocol<C> {
    protocol_id: ShapeId<'static>,
    codec: C,
    content_type: &'static str,
}

impl<C> Model for HttpRpcProtocol<C> {
    ghost use Rattle.std.specs.Prelude.{IsTrue};
    ghost use Rattle.smithy_types.specs.Grammars.{is_header_value};
    ghost use Rattle.smithy_binding.specs.Protocols as protocol;

    ghost Value = { protocol.Parts C };

    ghost view = { λ p.
        record { protocol_id = p.protocol_id; codec = p.codec; content_type = p.content_type.now } };

    ghost invariant = { λ p. IsTrue (is_header_value p.content_type.now) };
}

impl<C> HttpRpcProtocol<C> {
    ghost use Rattle.std.specs.Prelude.{codes, IsTrue};
    ghost use Rattle.smithy_ids.specs.ShapeIdParts.{parts_of};
    ghost use Rattle.smithy_types.specs.Grammars.{is_header_value};

    /// The protocol of this name, whose bodies are the codec's and have this content type. Condition: the content type may
    /// stand as a header's value (RFC 7230, section 3.2). Takes no memory.
    pub fn new(protocol_id: ShapeId<'static>, codec: C, content_type: &'static str) -> Self
        requires { IsTrue (is_header_value content_type.now) }
        ensures protocol_id { result.protocol_id ≡ protocol_id.entry }
        ensures codec { result.codec ≡ codec }
        ensures content_type { result.content_type ≡ content_type.now }
    {
        HttpRpcProtocol {
            protocol_id,
            codec,
            content_type,
        }
    }

    /// Calls with bodies of JSON by this codec, mostly `JsonCodec`: AWS JSON 1.0 but for the content type, which is
    /// `application/json` here. Takes no memory.
    pub fn aws_json(codec: C) -> Self
        ensures name { (parts_of result.protocol_id).full_name ≡ codes "aws.protocols#awsJson1_0" }
        ensures codec { result.codec ≡ codec }
        ensures content_type { result.content_type ≡ codes "application/json" }
    {
        let id = ShapeId::from_parts("aws.protocols#awsJson1_0", "aws.protocols", "awsJson1_0");
        HttpRpcProtocol::new(id, codec, "application/json")
    }

    /// The name of the protocol. Takes no memory.
    pub fn protocol_id(&self) -> ShapeId<'_>
        ensures { result ≡ self.now.protocol_id }
    {
        self.protocol_id
    }

    /// The codec. Takes no memory.
    pub fn codec(&self) -> &C
        ensures { result.now ≡ self.now.codec }
    {
        &self.codec
    }

    /// The content type of the bodies. Takes no memory.
    pub fn content_type(&self) -> &'static str
        ensures value { result.now ≡ self.now.content_type }
        ensures legal { IsTrue (is_header_value result.now) }
    {
        self.content_type
    }
}

impl<C: Drop> HttpRpcProtocol<C> {
    /// The same protocol with another codec. Takes no memory.
    pub fn with_codec(self, codec: C) -> Self
        ensures { result ≡ record self { codec = codec } }
    {
        HttpRpcProtocol {
            protocol_id: self.protocol_id,
            codec,
            content_type: self.content_type,
        }
    }
}

impl<C: Codec> HttpRpcProtocol<C> {
    ghost use Rattle.smithy_binding.specs.Protocols.{AnswersCall};

    /// The request of an input: a `POST` to the endpoint, or to `/` where that is empty, whose body is the codec's text of the
    /// document of the whole input. The schema may be any, and its traits of HTTP are not looked at. The default headers
    /// are added as `omit` asks, the content type and then the length. Condition: the codec is lawful.
    ///
    /// Refused with `Custom` for the first rule of documents that the input breaks, and else for a target that is longer
    /// than 65,534 bytes or not legal (RFC 7230, section 5.3). Takes memory; `OutOfMemory` where it is not there.
    pub fn serialize_request(
        &self,
        alloc: Global,
        input: &dyn SerializableStruct,
        schema: SchemaRef<'_>,
        endpoint: &str,
        omit: OmitFlags,
    ) -> Result<Request, SerdeError>
        requires { C.lawful self.now.codec }
        ensures { AnswersCall C.text self.now (writes input.now) endpoint.now omit result }
    {
        let serializer = self.codec.create_serializer(alloc)?;
        let body = input_text(alloc, serializer, schema, input)?;
        let mut headers = Headers::new(alloc);
        let length = body.as_slice().len();
        add_defaults(alloc, &mut headers, self.content_type, true, length, omit)?;
        let target = String::from_str(alloc, endpoint_or_slash(endpoint))?;
        request_with(alloc, "POST", target, headers, body)
    }
}

// The text of an input's document.
fn input_text<S: FinishSerializer + Drop>(
    alloc: Global,
    serializer: S,
    schema: SchemaRef<'_>,
    input: &dyn SerializableStruct,
) -> Result<Blob, SerdeError>
    requires { IsReady (S.seen serializer) }
    ensures ok { IfOk result (IsTextOf ((S.seen serializer).text) (structure (writes input.now))) }
    ensures err { IfErr result (IsFaultRefusal (document_fault (structure (writes input.now)))) }
{
    if let Some((table, writes)) = input.stored_writes() {
        return stored_text(serializer, schema, table, writes);
    }
    let recorded = record_members(alloc, input)?;
    stored_text(serializer, schema, recorded.table(), recorded.writes())
}

// The text of the document of stored writes.
fn stored_text<S: FinishSerializer + Drop>(
    mut serializer: S,
    schema: SchemaRef<'_>,
    table: &Schemas,
    writes: &WriteList,
) -> Result<Blob, SerdeError>
    requires defined { AreDefined table.now writes.now }
    requires ready { IsReady (S.seen serializer) }
    ensures ok { IfOk result
        (IsTextOf ((S.seen serializer).text) (structure (writes_in table.now writes.now))) }
    ensures err { IfErr result
        (IsFaultRefusal (document_fault (structure (writes_in table.now writes.now)))) }
{
    serializer.open_struct(schema)?;
    tell_stored(&mut serializer, table, writes)?;
    finish_struct(serializer)
}

// Tells the writes in order, each by its own node.
fn tell_stored<S: ShapeSerializer>(
    serializer: &mut S,
    table: &Schemas,
    writes: &WriteList,
) -> Result<(), SerdeError>
    requires { AreDefined table.now writes.now }
    ensures { Tells (writes_in table.now writes.now) (S.seen serializer.old) (S.seen serializer.new) result }
{
    for (node, value) in writes.iter() {
        tell(serializer, node_at(table, node), table, value)?;
    }
    Ok(())
}

// The node of a write.
fn node_at<'t>(table: &'t Schemas, node: SchemaIndex) -> SchemaRef<'t>
    requires { HasNode table.now node.0 }
    ensures { label_of (schema_of result) ≡ label_at table.now node.0 }
{
    match table.get(node) {
        Some(node) => node,
        None => unreachable!(),
    }
}
