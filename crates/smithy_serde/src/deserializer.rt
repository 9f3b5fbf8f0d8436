// What hands out a value, one read at a time.
ghost use Rattle.std.specs.Prelude.{ℕ, Option};
ghost use Rattle.smithy_schema.specs.References.{schema_of as node};
ghost use Rattle.smithy_serde.specs.Values.{byte, short, integer, long, boolean, whole, big_integer, big_decimal, text, blob, timestamp};
ghost use Rattle.smithy_serde.specs.declared.scalar.Group.TheVariants as group;
ghost use Rattle.smithy_serde.specs.declared.read_scalar.ScalarKind.TheVariants as k;
ghost use Rattle.smithy_serde.specs.Held.{Answer};
ghost use Rattle.smithy_serde.specs.ListReads.{ReadsEach, ReadsIntegers, ReadsTexts};
ghost use Rattle.smithy_serde.specs.ReadCalls.{AtHand, IsIn, scalar_of_read, tree, Reads, Skips, OpensAt, NextMember, NextElement, NextEntry, Settles, TellsNull};

use crate::error::SerdeError;
use crate::read_scalar::{ReadScalar, ScalarKind};
use crate::scalar::Group;
use smithy_ids::ShapeType;
use smithy_schema::SchemaRef;
use smithy_types::{
    BigDecimal, BigInteger, Blob, Blobs, DateTime, Document, Integers, Longs, Text, TextMap, Words,
};
use std::alloc::Global;

/// What hands out a value, one read at a time. A value is at hand: a read takes it as a scalar, `open` opens it as a
/// list, a map or a structure, whose items then come to hand one after the other, and behind the last one it is at hand
/// again. A read is by the kind that is asked for; of the node a reader may look at the media type and the time format.
/// A read that refuses leaves open what was open. Each call may want memory, and is then refused with `OutOfMemory`.
/// An implementation writes `read`, `open`, `settle`, `is_null`, the three `next` calls, and `container_size`, `read_null`
/// and `skip_value`, of which it says itself what they answer.
pub trait ShapeDeserializer {
    /// What is seen of the reader: the value at hand, where it is told, and the open containers.
    ghost at_hand: { Self → AtHand };

    /// What `container_size` answers.
    ghost has_size: { Self → Option ℕ → Type 0 };

    /// What `read_null` does: the reader before it and after it, and the answer.
    ghost reads_null: { Self → Self → Answer → Type 0 };

    /// What `skip_value` does, likewise.
    ghost passes_over: { Self → Self → Answer → Type 0 };

    /// Reads what is at hand as a scalar or a document. It is refused where the value at hand is none of that kind.
    fn read(
        &mut self,
        alloc: Global,
        schema: SchemaRef<'_>,
        kind: ScalarKind,
    ) -> Result<ReadScalar, SerdeError>
        ensures { Reads scalar_of_read kind (node schema.entry)
            (at_hand self.old) (at_hand self.new) result };

    /// Opens what is at hand. It is refused where that can't be opened so, and then no item was handed out.
    fn open(&mut self, alloc: Global, schema: SchemaRef<'_>, group: Group) -> Result<(), SerdeError>
        ensures { OpensAt group (node schema.entry) (at_hand self.old) (at_hand self.new) result };

    /// Brings the next member to hand, which is one of the schema's, or closes the structure behind the last one.
    /// Condition: the innermost open container is a structure.
    fn next_member<'s>(
        &mut self,
        alloc: Global,
        schema: SchemaRef<'s>,
    ) -> Result<Option<SchemaRef<'s>>, SerdeError>
        requires { IsIn group.Structure (at_hand self.old) }
        ensures { NextMember (node schema.entry) (at_hand self.old) (at_hand self.new) result };

    /// Brings the next element to hand, or closes the list behind the last one and answers false. Condition: the
    /// innermost open container is a list.
    fn next_element(&mut self, alloc: Global) -> Result<bool, SerdeError>
        requires { IsIn group.List (at_hand self.old) }
        ensures { NextElement (at_hand self.old) (at_hand self.new) result };

    /// Brings the next entry to hand and answers its key, or closes the map behind the last one. Condition: the
    /// innermost open container is a map.
    fn next_entry(&mut self, alloc: Global) -> Result<Option<Text>, SerdeError>
        requires { IsIn group.Map (at_hand self.old) }
        ensures { NextEntry (at_hand self.old) (at_hand self.new) result };

    /// Is told a consumer's refusal at the member at hand. It answers a refusal, mostly that one; or it hides it, and
    /// closes what was opened since the member came to hand.
    fn settle(&mut self, alloc: Global, refusal: SerdeError) -> Result<(), SerdeError>
        ensures { Settles refusal (at_hand self.old) (at_hand self.new) result };

    /// Whether the value at hand is the null.
    fn is_null(&self) -> bool
        ensures { TellsNull (at_hand self.now) result };

    /// How many items the container at hand has, or fewer, where that is known.
    fn container_size(&self) -> Option<usize>
        ensures { has_size self.now result };

    /// Reads the null.
    fn read_null(&mut self) -> Result<(), SerdeError>
        ensures skips { Skips (at_hand self.old) (at_hand self.new) result }
        ensures null { reads_null self.old self.new result };

    /// Passes over the value at hand.
    fn skip_value(&mut self, alloc: Global) -> Result<(), SerdeError>
        ensures skips { Skips (at_hand self.old) (at_hand self.new) result }
        ensures passed { passes_over self.old self.new result };

    /// Opens a structure.
    fn open_struct(&mut self, alloc: Global, schema: SchemaRef<'_>) -> Result<(), SerdeError>
        ensures { OpensAt group.Structure (node schema.entry) (at_hand self.old) (at_hand self.new) result }
    {
        self.open(alloc, schema, Group::Structure)
    }

    /// Opens a list.
    fn open_list(&mut self, alloc: Global, schema: SchemaRef<'_>) -> Result<(), SerdeError>
        ensures { OpensAt group.List (node schema.entry) (at_hand self.old) (at_hand self.new) result }
    {
        self.open(alloc, schema, Group::List)
    }

    /// Opens a map.
    fn open_map(&mut self, alloc: Global, schema: SchemaRef<'_>) -> Result<(), SerdeError>
        ensures { OpensAt group.Map (node schema.entry) (at_hand self.old) (at_hand self.new) result }
    {
        self.open(alloc, schema, Group::Map)
    }

    /// Reads a truth value.
    fn read_boolean(&mut self, alloc: Global, schema: SchemaRef<'_>) -> Result<bool, SerdeError>
        ensures { Reads boolean k.Boolean (node schema.entry) (at_hand self.old) (at_hand self.new) result }
    {
        match self.read(alloc, schema, ScalarKind::Boolean)? {
            ReadScalar::Boolean(value) => Ok(value),
            _ => unreachable!(),
        }
    }

    /// Reads a number of 8 bits.
    fn read_byte(&mut self, alloc: Global, schema: SchemaRef<'_>) -> Result<i8, SerdeError>
        ensures { Reads (whole byte) k.Byte (node schema.entry) (at_hand self.old) (at_hand self.new) result }
    {
        match self.read(alloc, schema, ScalarKind::Byte)? {
            ReadScalar::Byte(value) => Ok(value),
            _ => unreachable!(),
        }
    }

    /// Reads a number of 16 bits.
    fn read_short(&mut self, alloc: Global, schema: SchemaRef<'_>) -> Result<i16, SerdeError>
        ensures { Reads (whole short) k.Short (node schema.entry)
            (at_hand self.old) (at_hand self.new) result }
    {
        match self.read(alloc, schema, ScalarKind::Short)? {
            ReadScalar::Short(value) => Ok(value),
            _ => unreachable!(),
        }
    }

    /// Reads a number of 32 bits.
    fn read_integer(&mut self, alloc: Global, schema: SchemaRef<'_>) -> Result<i32, SerdeError>
        ensures { Reads (whole integer) k.Integer (node schema.entry)
            (at_hand self.old) (at_hand self.new) result }
    {
        match self.read(alloc, schema, ScalarKind::Integer)? {
            ReadScalar::Integer(value) => Ok(value),
            _ => unreachable!(),
        }
    }

    /// Reads a number of 64 bits.
    fn read_long(&mut self, alloc: Global, schema: SchemaRef<'_>) -> Result<i64, SerdeError>
        ensures { Reads (whole long) k.Long (node schema.entry) (at_hand self.old) (at_hand self.new) result }
    {
        match self.read(alloc, schema, ScalarKind::Long)? {
            ReadScalar::Long(value) => Ok(value),
            _ => unreachable!(),
        }
    }

    /// Reads a whole number of any size.
    fn read_big_integer(
        &mut self,
        alloc: Global,
        schema: SchemaRef<'_>,
    ) -> Result<BigInteger, SerdeError>
        ensures { Reads big_integer k.BigInteger (node schema.entry)
            (at_hand self.old) (at_hand self.new) result }
    {
        match self.read(alloc, schema, ScalarKind::BigInteger)? {
            ReadScalar::BigInteger(value) => Ok(value),
            _ => unreachable!(),
        }
    }

    /// Reads a decimal number of any size.
    fn read_big_decimal(
        &mut self,
        alloc: Global,
        schema: SchemaRef<'_>,
    ) -> Result<BigDecimal, SerdeError>
        ensures { Reads big_decimal k.BigDecimal (node schema.entry)
            (at_hand self.old) (at_hand self.new) result }
    {
        match self.read(alloc, schema, ScalarKind::BigDecimal)? {
            ReadScalar::BigDecimal(value) => Ok(value),
            _ => unreachable!(),
        }
    }

    /// Reads a text.
    fn read_string(&mut self, alloc: Global, schema: SchemaRef<'_>) -> Result<Text, SerdeError>
        ensures { Reads text k.String (node schema.entry) (at_hand self.old) (at_hand self.new) result }
    {
        match self.read(alloc, schema, ScalarKind::String)? {
            ReadScalar::String(value) => Ok(value),
            _ => unreachable!(),
        }
    }

    /// Reads bytes.
    fn read_blob(&mut self, alloc: Global, schema: SchemaRef<'_>) -> Result<Blob, SerdeError>
        ensures { Reads blob k.Blob (node schema.entry) (at_hand self.old) (at_hand self.new) result }
    {
        match self.read(alloc, schema, ScalarKind::Blob)? {
            ReadScalar::Blob(value) => Ok(value),
            _ => unreachable!(),
        }
    }

    /// Reads a point in time.
    fn read_timestamp(
        &mut self,
        alloc: Global,
        schema: SchemaRef<'_>,
    ) -> Result<DateTime, SerdeError>
        ensures { Reads timestamp k.Timestamp (node schema.entry)
            (at_hand self.old) (at_hand self.new) result }
    {
        match self.read(alloc, schema, ScalarKind::Timestamp)? {
            ReadScalar::Timestamp(value) => Ok(value),
            _ => unreachable!(),
        }
    }

    /// Reads a document.
    fn read_document(
        &mut self,
        alloc: Global,
        schema: SchemaRef<'_>,
    ) -> Result<Document, SerdeError>
        ensures { Reads tree k.Document (node schema.entry) (at_hand self.old) (at_hand self.new) result }
    {
        match self.read(alloc, schema, ScalarKind::Document)? {
            ReadScalar::Document(value) => Ok(value),
            _ => unreachable!(),
        }
    }

    /// Reads a list of numbers of 32 bits, each by the prelude's integer node. It stops at the first refusal, and answers it.
    fn read_integer_list(
        &mut self,
        alloc: Global,
        schema: SchemaRef<'_>,
    ) -> Result<Integers, SerdeError>
        ensures { ReadsIntegers (node schema.entry) (at_hand self.old) (at_hand self.new) result }
    {
        self.open_list(alloc, schema)?;
        let element = SchemaRef::prelude(ShapeType::Integer);
        let mut items = Integers::new(alloc);
        while self.next_element(alloc)? {
            let item = self.read_integer(alloc, element)?;
            items.push(item)?;
        }
        Ok(items)
    }

    /// Reads a list of numbers of 64 bits, each by the prelude's long node. It stops at the first refusal, and answers it.
    fn read_long_list(&mut self, alloc: Global, schema: SchemaRef<'_>) -> Result<Longs, SerdeError>
        ensures { ReadsEach (whole long) k.Long (node schema.entry)
            (at_hand self.old) (at_hand self.new) result }
    {
        self.open_list(alloc, schema)?;
        let element = SchemaRef::prelude(ShapeType::Long);
        let mut items = Longs::new(alloc);
        while self.next_element(alloc)? {
            let item = self.read_long(alloc, element)?;
            items.push(item)?;
        }
        Ok(items)
    }

    /// Reads a list of blobs, each by the prelude's blob node. It stops at the first refusal, and answers it.
    fn read_blob_list(&mut self, alloc: Global, schema: SchemaRef<'_>) -> Result<Blobs, SerdeError>
        ensures { ReadsEach blob k.Blob (node schema.entry) (at_hand self.old) (at_hand self.new) result }
    {
        self.open_list(alloc, schema)?;
        let element = SchemaRef::prelude(ShapeType::Blob);
        let mut items = Blobs::new(alloc);
        while self.next_element(alloc)? {
            let item = self.read_blob(alloc, element)?;
            items.push(item)?;
        }
        Ok(items)
    }

    /// Reads a list of texts, each by the prelude's string node. It stops at the first refusal, and answers it.
    fn read_string_list(
        &mut self,
        alloc: Global,
        schema: SchemaRef<'_>,
    ) -> Result<Words, SerdeError>
        ensures { ReadsEach text k.String (node schema.entry) (at_hand self.old) (at_hand self.new) result }
    {
        self.open_list(alloc, schema)?;
        let element = SchemaRef::prelude(ShapeType::String);
        let mut items = Words::new(alloc);
        while self.next_element(alloc)? {
            let item = self.read_string(alloc, element)?;
            items.push(item.as_str())?;
        }
        Ok(items)
    }

    /// Reads a map of texts, each by the prelude's string node, in byte order of the keys; of equal keys the last stands. It
    /// stops at the first refusal, and answers it.
    fn read_string_string_map(
        &mut self,
        alloc: Global,
        schema: SchemaRef<'_>,
    ) -> Result<TextMap, SerdeError>
        ensures { ReadsTexts (node schema.entry) (at_hand self.old) (at_hand self.new) result }
    {
        self.open_map(alloc, schema)?;
        let value = SchemaRef::prelude(ShapeType::String);
        let mut items = TextMap::new(alloc);
        while let Some(key) = self.next_entry(alloc)? {
            let item = self.read_string(alloc, value)?;
            items.insert(key, item)?;
        }
        Ok(items)
    }
}
