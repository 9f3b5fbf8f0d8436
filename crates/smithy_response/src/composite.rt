// The reader of a whole response.
ghost use Rattle.std.specs.Prelude.{IsTrue};
ghost use Rattle.smithy_response.specs.views.Stages.{fits_depth};

use crate::counted::Counted;
use crate::stage::Stage;
use crate::transport::{Transport, Turn};
use smithy_schema::SchemaRef;
use smithy_serde::{Group, ReadScalar, ScalarKind, SerdeError, ShapeDeserializer};
use smithy_types::Text;
use std::alloc::Global;

/// Reads the members of a response: those that are bound to its status, headers and bytes, and then the body's. Until a
/// structure is opened it tells no value at hand, and answers as its body's reader does; but a consumer's refusal it
/// answers as it is. A bound member is never null, its size is not known, and to pass over it is to do nothing.
#[derive(Drop)]
pub struct CompositeReader<D: ShapeDeserializer> {
    body: Counted<D>,
    transport: Transport,
    stage: Stage,
    ghost fits: { IsTrue (fits_depth stage body.depth) },
}

impl<D: ShapeDeserializer> CompositeReader<D> {
    ghost use Rattle.std.specs.Prelude.{◌≡◌, []};
    ghost use Rattle.smithy_response.specs.declared.stage.Stage.TheVariants as stage;

    // A reader of a response whose body's reader has nothing open.
    pub(crate) fn new(body: D, transport: Transport) -> CompositeReader<D>
        requires { (D.at_hand body).opened ≡ [] }
        ensures body { result.body.reader ≡ body }
        ensures transport { result.transport ≡ transport }
        ensures stage { result.stage ≡ stage.Top }
    {
        CompositeReader {
            body: Counted::new(body),
            transport,
            stage: Stage::Top,
        }
    }
}

impl<D: ShapeDeserializer> ShapeDeserializer for CompositeReader<D> {
    ghost use Rattle.smithy_schema.specs.References.{schema_of as node};
    ghost use Rattle.smithy_serde.specs.declared.scalar.Group.TheVariants as group;
    ghost use Rattle.smithy_serde.specs.ReadCalls.{IsIn, Skips, NextElement, NextEntry, Settles, TellsNull};
    ghost use Rattle.smithy_response.specs.views.BodyCalls.{seen, stands, ReadsSeen, OpensSeen, NextMemberSeen, ReadsBody, ReadsNothing, OpensFirst, NextMemberFirst, NextElementFirst, NextEntryFirst, SettlesFirst, TellsBodyNull, SkipsAt, Stays, by_body, size_by_body};

    ghost at_hand = { seen D.at_hand };

    ghost has_size = { size_by_body D.has_size };

    ghost reads_null = { by_body D.reads_null };

    ghost passes_over = { by_body D.passes_over };

    #[inline(always)]
    fn read(
        &mut self,
        alloc: Global,
        schema: SchemaRef<'_>,
        kind: ScalarKind,
    ) -> Result<ReadScalar, SerdeError>
        ensures told { ReadsSeen (seen D.at_hand) kind (node schema.entry) self.old self.new result }
        ensures body { ReadsBody (stands D.at_hand) kind (node schema.entry) self.old self.new result }
        ensures stage { Stays (stands D.at_hand) self.old self.new }
        ensures nothing { ReadsNothing (stands D.at_hand self.old) result }
    {
        match self.stage {
            Stage::Bound { .. } => self.transport.read(alloc, schema, kind),
            Stage::Top => self.body.read(alloc, schema, kind),
            Stage::Payload => self.body.read(alloc, schema, kind),
            Stage::Body => self.body.read(alloc, schema, kind),
        }
    }

    fn open(&mut self, alloc: Global, schema: SchemaRef<'_>, group: Group) -> Result<(), SerdeError>
        ensures told { OpensSeen (seen D.at_hand) group (node schema.entry) self.old self.new result }
        ensures first { OpensFirst (stands D.at_hand) group (node schema.entry) self.old self.new result }
    {
        match self.stage {
            Stage::Top => {
                if self.body.depth() != 0 {
                    return self.body.open(alloc, schema, group);
                }
                match group {
                    Group::Structure => {
                        self.transport.start();
                        self.stage = Stage::Bound { is_given: false };
                        Ok(())
                    }
                    Group::List => self.body.open(alloc, schema, group),
                    Group::Map => self.body.open(alloc, schema, group),
                }
            }
            Stage::Bound { .. } => self.transport.open(alloc, schema, group),
            Stage::Payload => self.body.open(alloc, schema, group),
            Stage::Body => {
                if self.body.depth() == 0 {
                    return Err(SerdeError::OutOfMemory);
                }
                self.body.open(alloc, schema, group)
            }
        }
    }

    #[inline(always)]
    fn next_member<'s>(
        &mut self,
        alloc: Global,
        schema: SchemaRef<'s>,
    ) -> Result<Option<SchemaRef<'s>>, SerdeError>
        requires { IsIn group.Structure (seen D.at_hand self.old) }
        ensures told { NextMemberSeen (seen D.at_hand) (node schema.entry) self.old self.new result }
        ensures first { NextMemberFirst (stands D.at_hand) (node schema.entry) self.old self.new result }
    {
        match self.stage {
            Stage::Top => self.body.next_member(alloc, schema),
            Stage::Bound { is_given } => self.next_bound(alloc, schema, is_given),
            Stage::Payload => {
                if self.body.depth() != 0 {
                    return self.body.next_member(alloc, schema);
                }
                self.stage = Stage::Bound { is_given: true };
                self.next_bound(alloc, schema, true)
            }
            Stage::Body => {
                if self.body.depth() != 1 {
                    return self.body.next_member(alloc, schema);
                }
                self.next_field(alloc, schema)
            }
        }
    }

    fn next_element(&mut self, alloc: Global) -> Result<bool, SerdeError>
        requires { IsIn group.List (seen D.at_hand self.old) }
        ensures told { NextElement (seen D.at_hand self.old) (seen D.at_hand self.new) result }
        ensures first { NextElementFirst (stands D.at_hand) self.old self.new result }
    {
        match self.stage {
            Stage::Top => self.body.next_element(alloc),
            Stage::Bound { .. } => self.transport.next_element(),
            Stage::Payload => self.body.next_element(alloc),
            Stage::Body => {
                if self.body.depth() == 1 {
                    return Err(SerdeError::OutOfMemory);
                }
                self.body.next_element(alloc)
            }
        }
    }

    fn next_entry(&mut self, alloc: Global) -> Result<Option<Text>, SerdeError>
        requires { IsIn group.Map (seen D.at_hand self.old) }
        ensures told { NextEntry (seen D.at_hand self.old) (seen D.at_hand self.new) result }
        ensures first { NextEntryFirst (stands D.at_hand) self.old self.new result }
    {
        match self.stage {
            Stage::Top => self.body.next_entry(alloc),
            Stage::Bound { .. } => self.transport.next_entry(alloc),
            Stage::Payload => self.body.next_entry(alloc),
            Stage::Body => {
                if self.body.depth() == 1 {
                    return Err(SerdeError::OutOfMemory);
                }
                self.body.next_entry(alloc)
            }
        }
    }

    fn settle(&mut self, alloc: Global, refusal: SerdeError) -> Result<(), SerdeError>
        ensures told { Settles refusal (seen D.at_hand self.old) (seen D.at_hand self.new) result }
        ensures first { SettlesFirst (stands D.at_hand) refusal self.old self.new result }
    {
        match self.stage {
            Stage::Bound { .. } => match self.transport.settle(alloc, refusal) {
                Ok(()) => {
                    self.transport.close();
                    Ok(())
                }
                Err(answer) => Err(answer),
            },
            Stage::Top => Err(refusal),
            Stage::Payload => Err(refusal),
            Stage::Body => Err(refusal),
        }
    }

    #[inline(always)]
    fn is_null(&self) -> bool
        ensures told { TellsNull (seen D.at_hand self.now) result }
        ensures body { TellsBodyNull (stands D.at_hand self.now) result }
    {
        match self.stage {
            Stage::Bound { .. } => self.transport.is_null(),
            Stage::Top => self.body.is_null(),
            Stage::Payload => self.body.is_null(),
            Stage::Body => self.body.is_null(),
        }
    }

    fn container_size(&self) -> Option<usize> {
        match self.stage {
            Stage::Bound { .. } => None,
            Stage::Top => self.body.container_size(),
            Stage::Payload => self.body.container_size(),
            Stage::Body => self.body.container_size(),
        }
    }

    fn read_null(&mut self) -> Result<(), SerdeError>
        ensures told { Skips (seen D.at_hand self.old) (seen D.at_hand self.new) result }
        ensures body { by_body (SkipsAt D.at_hand) self.old self.new result }
        ensures null { by_body D.reads_null self.old self.new result }
        ensures stage { Stays (stands D.at_hand) self.old self.new }
    {
        match self.stage {
            Stage::Bound { .. } => Ok(()),
            Stage::Top => self.body.read_null(),
            Stage::Payload => self.body.read_null(),
            Stage::Body => self.body.read_null(),
        }
    }

    fn skip_value(&mut self, alloc: Global) -> Result<(), SerdeError>
        ensures told { Skips (seen D.at_hand self.old) (seen D.at_hand self.new) result }
        ensures body { by_body (SkipsAt D.at_hand) self.old self.new result }
        ensures passed { by_body D.passes_over self.old self.new result }
        ensures stage { Stays (stands D.at_hand) self.old self.new }
    {
        match self.stage {
            Stage::Bound { .. } => Ok(()),
            Stage::Top => self.body.skip_value(alloc),
            Stage::Payload => self.body.skip_value(alloc),
            Stage::Body => self.body.skip_value(alloc),
        }
    }
}

impl<D: ShapeDeserializer> CompositeReader<D> {
    ghost use Rattle.std.specs.Prelude.{◌≡◌, length};
    ghost use Rattle.smithy_schema.specs.References.{schema_of};
    ghost use Rattle.smithy_serde.specs.declared.scalar.Group.TheVariants as group;
    ghost use Rattle.smithy_serde.specs.ReadCalls.{IsIn};
    ghost use Rattle.smithy_response.specs.declared.stage.Stage.TheVariants as stage;
    ghost use Rattle.smithy_response.specs.views.BodyCalls.{NextBound, NextField};

    // The next bound member, or the first field of the body behind the last one.
    fn next_bound<'s>(
        &mut self,
        alloc: Global,
        schema: SchemaRef<'s>,
        is_given: bool,
    ) -> Result<Option<SchemaRef<'s>>, SerdeError>
        requires { self.old.stage ≡ stage.Bound is_given }
        ensures { NextBound D.at_hand is_given (schema_of schema.entry) self.old self.new result }
    {
        if self.body.depth() != 0 {
            unreachable!()
        }
        match self.transport.next(alloc, schema, is_given)? {
            Turn::Member(member) => Ok(Some(member)),
            Turn::Payload(member) => {
                self.stage = Stage::Payload;
                Ok(Some(member))
            }
            Turn::Done => {
                if is_given {
                    self.stage = Stage::Top;
                    return Ok(None);
                }
                if !self.transport.reads_body(schema) {
                    self.stage = Stage::Top;
                    return Ok(None);
                }
                match self.body.open(alloc, schema, Group::Structure) {
                    Ok(()) => {
                        self.stage = Stage::Body;
                        self.next_field(alloc, schema)
                    }
                    Err(refusal) => Err(refusal),
                }
            }
        }
    }

    // The next field of the body that is no copy of a bound member.
    #[inline(always)]
    fn next_field<'s>(
        &mut self,
        alloc: Global,
        schema: SchemaRef<'s>,
    ) -> Result<Option<SchemaRef<'s>>, SerdeError>
        requires stage { self.old.stage ≡ stage.Body }
        requires one { length (D.at_hand self.old.body.reader).opened ≡ 1 }
        requires inside { IsIn group.Structure (D.at_hand self.old.body.reader) }
        ensures { NextField D.at_hand (schema_of schema.entry) self.old self.new result }
    {
        match self.body.next_unbound(alloc, schema) {
            Ok(Some(member)) => Ok(Some(member)),
            Ok(None) => {
                self.stage = Stage::Top;
                Ok(None)
            }
            Err(refusal) => Err(refusal),
        }
    }
}
