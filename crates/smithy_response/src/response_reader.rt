// The reader of a response, by what its schema binds.
ghost use Rattle.std.specs.Prelude.{◌≡◌, [], true, false, IfOk};
ghost use Rattle.smithy_response.specs.Words.{schema_of};
ghost use Rattle.smithy_response.specs.ResponseReaders.{is_body_only, reads_whole, IsReader};

use crate::bound_positions::{has_bound, has_unbound};
use crate::composite::CompositeReader;
use crate::parts::BoundMember;
use crate::transport::Transport;
use smithy_http::{NonUtf8HeaderHandling, Response};
use smithy_schema::SchemaRef;
use smithy_serde::{Group, ReadScalar, ScalarKind, SerdeError, ShapeDeserializer};
use smithy_types::{Blob, OutOfMemory, Text};
use std::alloc::Global;

/// The reader of a response.
#[derive(Drop)]
pub enum ResponseReader<D: ShapeDeserializer> {
    /// No member is bound: the reader of the body.
    BodyOnly(D),
    /// The reader of bound members and of the body.
    Composite(CompositeReader<D>),
}

impl<D: ShapeDeserializer> ShapeDeserializer for ResponseReader<D> {
    ghost use Rattle.smithy_schema.specs.References.{schema_of as node};
    ghost use Rattle.smithy_serde.specs.declared.scalar.Group.TheVariants as group;
    ghost use Rattle.smithy_serde.specs.ReadCalls.{IsIn, Skips, NextElement, NextEntry, Settles, TellsNull};
    ghost use Rattle.smithy_response.specs.views.BodyCalls.{reader_stands as stands, ReadsSeen, OpensSeen, NextMemberSeen, ReadsBody, ReadsNothing, OpensFirst, NextMemberFirst, NextElementFirst, NextEntryFirst, SettlesFirst, TellsBodyNull, SkipsAt, Stays, reader_by_body as by_body, reader_size_by_body as size_by_body};
    ghost use Rattle.smithy_response.specs.ResponseReaders.{reader_at_hand as seen};

    ghost at_hand = { seen D.at_hand };

    ghost has_size = { size_by_body D.has_size };

    ghost reads_null = { by_body D.reads_null };

    ghost passes_over = { by_body D.passes_over };

    fn read(
        &mut self,
        alloc: Global,
        schema: SchemaRef<'_>,
        kind: ScalarKind,
    ) -> Result<ReadScalar, SerdeError>
        ensures told { ReadsSeen (seen D.at_hand) kind (node schema.entry) self.old self.new result }
        ensures body { ReadsBody (stands D.at_hand) kind (node schema.entry) self.old self.new result }
        ensures stage { Stays (stands D.at_hand) self.old self.new }
        ensures nothing { ReadsNothing (stands D.at_hand self.old) result }
    {
        match self {
            ResponseReader::BodyOnly(reader) => reader.read(alloc, schema, kind),
            ResponseReader::Composite(reader) => reader.read(alloc, schema, kind),
        }
    }

    fn open(&mut self, alloc: Global, schema: SchemaRef<'_>, group: Group) -> Result<(), SerdeError>
        ensures told { OpensSeen (seen D.at_hand) group (node schema.entry) self.old self.new result }
        ensures first { OpensFirst (stands D.at_hand) group (node schema.entry) self.old self.new result }
    {
        match self {
            ResponseReader::BodyOnly(reader) => reader.open(alloc, schema, group),
            ResponseReader::Composite(reader) => reader.open(alloc, schema, group),
        }
    }

    fn next_member<'s>(
        &mut self,
        alloc: Global,
        schema: SchemaRef<'s>,
    ) -> Result<Option<SchemaRef<'s>>, SerdeError>
        requires { IsIn group.Structure (seen D.at_hand self.old) }
        ensures told { NextMemberSeen (seen D.at_hand) (node schema.entry) self.old self.new result }
        ensures first { NextMemberFirst (stands D.at_hand) (node schema.entry) self.old self.new result }
    {
        match self {
            ResponseReader::BodyOnly(reader) => reader.next_member(alloc, schema),
            ResponseReader::Composite(reader) => reader.next_member(alloc, schema),
        }
    }

    fn next_element(&mut self, alloc: Global) -> Result<bool, SerdeError>
        requires { IsIn group.List (seen D.at_hand self.old) }
        ensures told { NextElement (seen D.at_hand self.old) (seen D.at_hand self.new) result }
        ensures first { NextElementFirst (stands D.at_hand) self.old self.new result }
    {
        match self {
            ResponseReader::BodyOnly(reader) => reader.next_element(alloc),
            ResponseReader::Composite(reader) => reader.next_element(alloc),
        }
    }

    fn next_entry(&mut self, alloc: Global) -> Result<Option<Text>, SerdeError>
        requires { IsIn group.Map (seen D.at_hand self.old) }
        ensures told { NextEntry (seen D.at_hand self.old) (seen D.at_hand self.new) result }
        ensures first { NextEntryFirst (stands D.at_hand) self.old self.new result }
    {
        match self {
            ResponseReader::BodyOnly(reader) => reader.next_entry(alloc),
            ResponseReader::Composite(reader) => reader.next_entry(alloc),
        }
    }

    fn settle(&mut self, alloc: Global, refusal: SerdeError) -> Result<(), SerdeError>
        ensures told { Settles refusal (seen D.at_hand self.old) (seen D.at_hand self.new) result }
        ensures first { SettlesFirst (stands D.at_hand) refusal self.old self.new result }
    {
        match self {
            ResponseReader::BodyOnly(reader) => reader.settle(alloc, refusal),
            ResponseReader::Composite(reader) => reader.settle(alloc, refusal),
        }
    }

    fn is_null(&self) -> bool
        ensures told { TellsNull (seen D.at_hand self.now) result }
        ensures body { TellsBodyNull (stands D.at_hand self.now) result }
    {
        match self {
            ResponseReader::BodyOnly(reader) => reader.is_null(),
            ResponseReader::Composite(reader) => reader.is_null(),
        }
    }

    fn container_size(&self) -> Option<usize> {
        match self {
            ResponseReader::BodyOnly(reader) => reader.container_size(),
            ResponseReader::Composite(reader) => reader.container_size(),
        }
    }

    fn read_null(&mut self) -> Result<(), SerdeError>
        ensures told { Skips (seen D.at_hand self.old) (seen D.at_hand self.new) result }
        ensures body { by_body (SkipsAt D.at_hand) self.old self.new result }
        ensures null { by_body D.reads_null self.old self.new result }
        ensures stage { Stays (stands D.at_hand) self.old self.new }
    {
        match self {
            ResponseReader::BodyOnly(reader) => reader.read_null(),
            ResponseReader::Composite(reader) => reader.read_null(),
        }
    }

    fn skip_value(&mut self, alloc: Global) -> Result<(), SerdeError>
        ensures told { Skips (seen D.at_hand self.old) (seen D.at_hand self.new) result }
        ensures body { by_body (SkipsAt D.at_hand) self.old self.new result }
        ensures passed { by_body D.passes_over self.old self.new result }
        ensures stage { Stays (stands D.at_hand) self.old self.new }
    {
        match self {
            ResponseReader::BodyOnly(reader) => reader.skip_value(alloc),
            ResponseReader::Composite(reader) => reader.skip_value(alloc),
        }
    }
}

/// The reader of an output: that of the body exactly where the schema has members and none is bound to another part of
/// the response. Condition: nothing is open in the body's reader. It takes memory for copies of the headers and the body.
pub fn http_output_deserializer<D: ShapeDeserializer + Drop>(
    alloc: Global,
    body: D,
    response: &Response,
    schema: SchemaRef<'_>,
    policy: NonUtf8HeaderHandling,
) -> Result<ResponseReader<D>, OutOfMemory>
    requires { (D.at_hand body).opened ≡ [] }
    ensures { IfOk result (IsReader D.at_hand response.now false policy (reads_whole schema.entry) body) }
{
    if is_body_only(schema) {
        return Ok(ResponseReader::BodyOnly(body));
    }
    whole(alloc, body, response, false, policy)
}

/// The reader of a modelled error. Condition: nothing is open in the body's reader. It takes memory for copies of the
/// headers and the body.
pub fn http_error_deserializer<D: ShapeDeserializer + Drop>(
    alloc: Global,
    body: D,
    response: &Response,
    policy: NonUtf8HeaderHandling,
) -> Result<ResponseReader<D>, OutOfMemory>
    requires { (D.at_hand body).opened ≡ [] }
    ensures { IfOk result (IsReader D.at_hand response.now true policy true body) }
{
    whole(alloc, body, response, true, policy)
}

// The reader of bound members and of the body.
fn whole<D: ShapeDeserializer + Drop>(
    alloc: Global,
    body: D,
    response: &Response,
    is_error: bool,
    policy: NonUtf8HeaderHandling,
) -> Result<ResponseReader<D>, OutOfMemory>
    requires { (D.at_hand body).opened ≡ [] }
    ensures { IfOk result (IsReader D.at_hand response.now is_error policy true body) }
{
    let transport = Transport {
        response: copied(alloc, response)?,
        is_error,
        policy,
        place: 0,
        member: BoundMember::Nothing,
    };
    Ok(ResponseReader::Composite(CompositeReader::new(body, transport)))
}

fn copied(alloc: Global, response: &Response) -> Result<Response, OutOfMemory>
    ensures { IfOk result (λ r. r ≡ response.now) }
{
    let headers = response.headers().copy(alloc)?;
    let body = match response.body() {
        Some(bytes) => Some(Blob::new(alloc, bytes.as_slice())?),
        None => None,
    };
    Ok(Response::new(response.status(), headers, body))
}

// Whether the schema has members, and none is bound to a part of the response.
fn is_body_only(schema: SchemaRef<'_>) -> bool
    ensures { result ≡ is_body_only (schema_of schema.entry) }
{
    has_unbound(schema) && !has_bound(schema)
}
