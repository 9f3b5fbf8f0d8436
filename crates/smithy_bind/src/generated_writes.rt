// The writes of the command `generate`.
ghost use Rattle.std.specs.Prelude.{◌≡◌, ◌+◌, ◌<◌, ◌*◌, ◌%◌, ◌++◌, codes, decimal, pos, IfOk};
ghost use Rattle.smithy_schema.specs.Nodes.{Table};
ghost use Rattle.smithy_serde.specs.Values.{list_of, writes_of};
ghost use Rattle.smithy_serde.specs.StoredValues.{value_in, writes_in, IsDefined, AreDefined};
ghost use Rattle.smithy_bind.specs.Generating as generating;

use crate::generated_schema::{ID, ITEMS, NUMBER, TAGS, TEXT};
use smithy_serde::{ShapeValue, WriteList};
use smithy_types::{OutOfMemory, Text};
use std::alloc::Global;

// The number at a place, of so many.
fn number_at(count: u32, place: u32) -> i32
    ensures { result ≡ pos (generating.number count place) }
{
    let place = u64::from(place);
    ((place * place + u64::from(count)) % 1000) as i32
}

#[tactic(auto, unfolding(smithy_serde::specs::StoredValues::value_in, smithy_serde::specs::StoredValues::IsDefined))]
fn number_value(count: u32, place: u32) -> ShapeValue
    ensures value { (t : Table) → value_in t result ≡ generating.number_value count place }
    ensures defined { (t : Table) → IsDefined t result }
{
    ShapeValue::Integer(number_at(count, place))
}

// So many numbers.
fn numbers(alloc: Global, count: u32) -> Result<WriteList, OutOfMemory>
    ensures writes { IfOk result (λ w. writes_in generating.table w ≡ writes_of (generating.numbers count)) }
    ensures defined { IfOk result (λ w. AreDefined generating.table w) }
{
    let mut writes = WriteList::new(alloc);
    for place in 0..count {
        writes.push(NUMBER, number_value(count, place))?;
    }
    Ok(writes)
}

fn tag(alloc: Global, place: u32) -> Result<Text, OutOfMemory>
    ensures { IfOk result (λ t. t ≡ codes "t" ++ decimal place) }
{
    Ok(Text::from_string(format!(in alloc; "t{place}")?))
}

// So many texts.
#[tactic(auto, unfolding(smithy_serde::specs::StoredValues::value_in, smithy_serde::specs::StoredValues::IsDefined))]
fn tags(alloc: Global, count: u32) -> Result<WriteList, OutOfMemory>
    ensures writes { IfOk result (λ w. writes_in generating.table w ≡ writes_of (generating.tags count)) }
    ensures defined { IfOk result (λ w. AreDefined generating.table w) }
{
    let mut writes = WriteList::new(alloc);
    for place in 0..count {
        writes.push(TEXT, ShapeValue::String(tag(alloc, place)?))?;
    }
    Ok(writes)
}

/// The writes of an input of so many numbers, over the table of the schema. Takes memory.
#[tactic(auto, unfolding(smithy_serde::specs::StoredValues::value_in, smithy_serde::specs::StoredValues::IsDefined))]
pub fn input_writes(alloc: Global, count: u32) -> Result<WriteList, OutOfMemory>
    ensures writes { IfOk result (λ w. list_of (writes_in generating.table w) ≡ generating.input count) }
    ensures defined { IfOk result (λ w. AreDefined generating.table w) }
{
    let mut writes = WriteList::new(alloc);
    writes.push(ID, ShapeValue::Long(i64::from(count)))?;
    writes.push(ITEMS, ShapeValue::List(numbers(alloc, count)?))?;
    writes.push(TAGS, ShapeValue::List(tags(alloc, count % 9)?))?;
    Ok(writes)
}
