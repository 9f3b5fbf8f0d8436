// What takes the items that a reader hands out, and the functions that open, hand out and close.
ghost use Rattle.std.specs.Prelude.{ℕ, List};
ghost use Rattle.smithy_schema.specs.Nodes.{Schema};
ghost use Rattle.smithy_serde.specs.views.Handing.{IsKept, MemberTaken, ElementTaken, EntryTaken, HandsMembers, HandsElements, HandsEntries, LeavesAll};
ghost use Rattle.smithy_serde.specs.Held.{Held, Answer};

use crate::deserializer::ShapeDeserializer;
use crate::error::SerdeError;
use smithy_schema::SchemaRef;
use smithy_types::Text;
use std::alloc::Global;

/// Takes the members of a structure.
pub trait MemberConsumer {
    /// How a call goes: the state before it, the member, the value at hand, the state after it, the answer.
    ghost takes: { Self → Schema → Held → Self → Answer → Type 0 };

    /// What each call keeps of the consumer, also where the value at hand isn't told.
    ghost keeps: { Self → Self → Type 0 };

    /// Takes the member at hand. Where it answers Ok, the containers that were open before are open; where it refuses,
    /// they are, below those that it opened.
    fn member<D: ShapeDeserializer>(
        &mut self,
        schema: SchemaRef<'_>,
        reader: &mut D,
    ) -> Result<(), SerdeError>
        ensures { MemberTaken takes keeps D.at_hand schema.entry self.old self.new reader.old reader.new result };

    /// It is kept over no calls, and over calls in turn.
    ghost laws: { IsKept keeps };
}

/// Takes the elements of a list.
pub trait ElementConsumer {
    /// How a call goes: the state before it, the value at hand, the state after it, the answer.
    ghost takes: { Self → Held → Self → Answer → Type 0 };

    /// What each call keeps of the consumer, also where the value at hand isn't told.
    ghost keeps: { Self → Self → Type 0 };

    /// Takes the element at hand, and leaves the open containers as `member` does.
    fn element<D: ShapeDeserializer>(&mut self, reader: &mut D) -> Result<(), SerdeError>
        ensures { ElementTaken takes keeps D.at_hand self.old self.new reader.old reader.new result };

    /// It is kept over no calls, and over calls in turn.
    ghost laws: { IsKept keeps };
}

/// Takes the entries of a map.
pub trait EntryConsumer {
    /// How a call goes: the state before it, the key, the value at hand, the state after it, the answer.
    ghost takes: { Self → List ℕ → Held → Self → Answer → Type 0 };

    /// What each call keeps of the consumer, also where the value at hand isn't told.
    ghost keeps: { Self → Self → Type 0 };

    /// Takes the entry at hand, and leaves the open containers as `member` does.
    fn entry<D: ShapeDeserializer>(&mut self, key: Text, reader: &mut D) -> Result<(), SerdeError>
        ensures { EntryTaken takes keeps D.at_hand key self.old self.new reader.old reader.new result };

    /// It is kept over no calls, and over calls in turn.
    ghost laws: { IsKept keeps };
}

/// Opens the structure at hand and hands each member to the consumer, once and in order. A refusal of the consumer goes
/// to `settle`; it stops at the first that `settle` answers. Behind the last member the structure is at hand again.
pub fn read_struct<D: ShapeDeserializer, M: MemberConsumer>(
    alloc: Global,
    reader: &mut D,
    schema: SchemaRef<'_>,
    consumer: &mut M,
) -> Result<(), SerdeError>
    ensures handed { HandsMembers M.takes (D.at_hand reader.old) schema.entry consumer.old consumer.new result }
    ensures kept { M.keeps consumer.old consumer.new }
    ensures leaves { LeavesAll (D.at_hand reader.old) (D.at_hand reader.new) result }
{
    reader.open_struct(alloc, schema)?;
    while let Some(member) = reader.next_member(alloc, schema)? {
        if let Err(refusal) = consumer.member(member, reader) {
            reader.settle(alloc, refusal)?;
        }
    }
    Ok(())
}

/// Opens the list at hand and hands each element to the consumer, once and in order. It stops at the consumer's first
/// refusal, and answers it. Behind the last element the list is at hand again.
pub fn read_list<D: ShapeDeserializer, E: ElementConsumer>(
    alloc: Global,
    reader: &mut D,
    schema: SchemaRef<'_>,
    consumer: &mut E,
) -> Result<(), SerdeError>
    ensures handed { HandsElements E.takes (D.at_hand reader.old) schema.entry consumer.old consumer.new result }
    ensures kept { E.keeps consumer.old consumer.new }
    ensures leaves { LeavesAll (D.at_hand reader.old) (D.at_hand reader.new) result }
{
    reader.open_list(alloc, schema)?;
    while reader.next_element(alloc)? {
        consumer.element(reader)?;
    }
    Ok(())
}

/// Opens the map at hand and hands each entry to the consumer, once and in order. It stops at the consumer's first
/// refusal, and answers it. Behind the last entry the map is at hand again.
pub fn read_map<D: ShapeDeserializer, E: EntryConsumer>(
    alloc: Global,
    reader: &mut D,
    schema: SchemaRef<'_>,
    consumer: &mut E,
) -> Result<(), SerdeError>
    ensures handed { HandsEntries E.takes (D.at_hand reader.old) schema.entry consumer.old consumer.new result }
    ensures kept { E.keeps consumer.old consumer.new }
    ensures leaves { LeavesAll (D.at_hand reader.old) (D.at_hand reader.new) result }
{
    reader.open_map(alloc, schema)?;
    while let Some(key) = reader.next_entry(alloc)? {
        consumer.entry(key, reader)?;
    }
    Ok(())
}
