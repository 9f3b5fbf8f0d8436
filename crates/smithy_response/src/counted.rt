// A reader whose open containers are counted.
ghost use Rattle.std.specs.Prelude.{◌≡◌, [], false, length, IfOk, IfSome, OnErr};
ghost use Rattle.smithy_response.specs.Words.{is_response_bound, schema_of, IsIn, Skips, NextElement, NextEntry, TellsNull};
ghost use Rattle.smithy_serde.specs.declared.scalar.Group.TheVariants as group;
ghost use Rattle.smithy_response.specs.CountedCalls.{CountedReads, CountedOpens, CountedNext, NextUnbound};

use smithy_schema::SchemaRef;
use smithy_serde::{Group, ReadScalar, ScalarKind, SerdeError, ShapeDeserializer};
use smithy_types::Text;
use std::alloc::Global;
use std::marker::Model;

/// A reader with the number of its open containers. Its calls are the reader's.
#[derive(Drop)]
pub struct Counted<D: ShapeDeserializer> {
    reader: D,
    depth: usize,
}

impl<D: ShapeDeserializer> Model for Counted<D> {
    ghost use Rattle.std.specs.Prelude.{◌≡◌, length};
    ghost use Rattle.smithy_response.specs.views.Stages.{Counting};

    ghost Value = { Counting D };

    ghost view = { λ c. record { reader = c.reader; depth = c.depth } };

    ghost invariant = { λ c. length (D.at_hand c.reader).opened ≡ c.depth };
}

impl<D: ShapeDeserializer> Counted<D> {
    // The reader, in which nothing is open.
    pub(crate) fn new(reader: D) -> Counted<D>
        requires { (D.at_hand reader).opened ≡ [] }
        ensures reader { result.reader ≡ reader }
        ensures depth { result.depth ≡ 0 }
    {
        Counted { reader, depth: 0 }
    }

    // How many containers are open.
    pub(crate) fn depth(&self) -> usize
        ensures depth { result ≡ self.now.depth }
        ensures opened { result ≡ length (D.at_hand self.now.reader).opened }
    {
        self.depth
    }

    #[inline(always)]
    pub(crate) fn read(
        &mut self,
        alloc: Global,
        schema: SchemaRef<'_>,
        kind: ScalarKind,
    ) -> Result<ReadScalar, SerdeError>
        ensures read { CountedReads D.at_hand kind (schema_of schema.entry) self.old self.new result }
        ensures depth { self.new.depth ≡ self.old.depth }
    {
        self.reader.read(alloc, schema, kind)
    }

    pub(crate) fn open(
        &mut self,
        alloc: Global,
        schema: SchemaRef<'_>,
        group: Group,
    ) -> Result<(), SerdeError>
        ensures open { CountedOpens D.at_hand group (schema_of schema.entry) self.old self.new result }
        ensures depth { OnErr result (self.new.depth ≡ self.old.depth) }
    {
        if self.depth == usize::MAX {
            return Err(SerdeError::OutOfMemory);
        }
        self.reader.open(alloc, schema, group)?;
        self.depth += 1;
        Ok(())
    }

    #[inline(always)]
    pub(crate) fn next_member<'s>(
        &mut self,
        alloc: Global,
        schema: SchemaRef<'s>,
    ) -> Result<Option<SchemaRef<'s>>, SerdeError>
        requires { IsIn group.Structure (D.at_hand self.old.reader) }
        ensures { CountedNext D.at_hand (schema_of schema.entry) self.old self.new result }
    {
        let next = self.reader.next_member(alloc, schema)?;
        if next.is_none() {
            self.depth -= 1;
        }
        Ok(next)
    }

    pub(crate) fn next_element(&mut self, alloc: Global) -> Result<bool, SerdeError>
        requires { IsIn group.List (D.at_hand self.old.reader) }
        ensures { NextElement (D.at_hand self.old.reader) (D.at_hand self.new.reader) result }
    {
        let more = self.reader.next_element(alloc)?;
        if !more {
            self.depth -= 1;
        }
        Ok(more)
    }

    pub(crate) fn next_entry(&mut self, alloc: Global) -> Result<Option<Text>, SerdeError>
        requires { IsIn group.Map (D.at_hand self.old.reader) }
        ensures { NextEntry (D.at_hand self.old.reader) (D.at_hand self.new.reader) result }
    {
        let next = self.reader.next_entry(alloc)?;
        if next.is_none() {
            self.depth -= 1;
        }
        Ok(next)
    }

    pub(crate) fn is_null(&self) -> bool
        ensures { TellsNull (D.at_hand self.now.reader) result }
    {
        self.reader.is_null()
    }

    pub(crate) fn container_size(&self) -> Option<usize>
        ensures { D.has_size self.now.reader result }
    {
        self.reader.container_size()
    }

    pub(crate) fn read_null(&mut self) -> Result<(), SerdeError>
        ensures read { Skips (D.at_hand self.old.reader) (D.at_hand self.new.reader) result }
        ensures null { D.reads_null self.old.reader self.new.reader result }
        ensures depth { self.new.depth ≡ self.old.depth }
    {
        self.reader.read_null()
    }

    pub(crate) fn skip_value(&mut self, alloc: Global) -> Result<(), SerdeError>
        ensures read { Skips (D.at_hand self.old.reader) (D.at_hand self.new.reader) result }
        ensures passed { D.passes_over self.old.reader self.new.reader result }
        ensures depth { self.new.depth ≡ self.old.depth }
    {
        self.reader.skip_value(alloc)
    }

    // Brings the next field that is no copy of a bound member to hand, or closes the structure.
    #[inline(always)]
    pub(crate) fn next_unbound<'s>(
        &mut self,
        alloc: Global,
        schema: SchemaRef<'s>,
    ) -> Result<Option<SchemaRef<'s>>, SerdeError>
        requires { IsIn group.Structure (D.at_hand self.old.reader) }
        ensures next { NextUnbound D.at_hand (schema_of schema.entry) self.old self.new result }
        ensures unbound { IfOk result (λ next. IfSome next (λ m. is_response_bound (schema_of m) ≡ false)) }
    {
        while let Some(member) = self.next_member(alloc, schema)? {
            if !member.has_http_response_binding() {
                return Ok(Some(member));
            }
        }
        Ok(None)
    }
}
