// The first wrong place of an input or an output.
ghost use Rattle.std.specs.Prelude.{map};
ghost use Rattle.smithy_json.specs.views.JsonView.{view, items_view, members_view};
ghost use Rattle.smithy_model.specs.Wrong.{first_item};
ghost use Rattle.smithy_model.specs.views.WrongView.{Finds};
ghost use Rattle.smithy_job.specs.WrongInputs.{wrong_value, wrong_items, wrong_members, wrong_pair, wrong_writes, wrong_many};

use crate::input::pair_of;
use smithy_json::{JsonValue, whole_number};
use smithy_model::{Wrong, asked_here, in_item, in_key, items_of, unless_here};
use smithy_types::OutOfMemory;
use std::alloc::Global;

// The first float in a value.
#[cycle(wrong)]
fn wrong_value(alloc: Global, value: &JsonValue<'_>) -> Result<Option<Wrong>, OutOfMemory>
    ensures { Finds (wrong_value (view value.now)) result }
{
    match value {
        JsonValue::Number(number) => {
            let is_whole = whole_number(number).is_some();
            unless_here(
                alloc,
                is_whole,
                "a whole number from -2^63 to 2^64 - 1 is asked: other numbers are floats, which are not read",
            )
        }
        JsonValue::Array(items) => wrong_items(alloc, items.as_slice()),
        JsonValue::Object(members) => wrong_members(alloc, members.as_slice()),
        _ => Ok(None),
    }
}

#[cycle(wrong)]
fn wrong_items(alloc: Global, items: &[JsonValue<'_>]) -> Result<Option<Wrong>, OutOfMemory>
    ensures { Finds (wrong_items 0 (items_view items.now)) result }
{
    for (position, item) in items.iter().enumerate() {
        if let Some(wrong) = in_item(position, wrong_value(alloc, item)?)? {
            return Ok(Some(wrong));
        }
    }
    Ok(None)
}

#[cycle(wrong)]
fn wrong_members(
    alloc: Global,
    members: &[(&str, JsonValue<'_>)],
) -> Result<Option<Wrong>, OutOfMemory>
    ensures { Finds (wrong_members (members_view members.now)) result }
{
    for member in members {
        if let Some(wrong) = in_key(alloc, member.0, wrong_value(alloc, &member.1)?)? {
            return Ok(Some(wrong));
        }
    }
    Ok(None)
}

// A name and a value.
#[tactic(auto, unfolding(crate::specs::WrongInputs::wrong_pair))]
fn wrong_pair(alloc: Global, pair: &JsonValue<'_>) -> Result<Option<Wrong>, OutOfMemory>
    ensures { Finds (wrong_pair (view pair.now)) result }
{
    match pair_of(pair) {
        Some((_, value)) => in_item(1, wrong_value(alloc, value)?),
        None => Ok(Some(asked_here(alloc, "an array of a name and a value is asked")?)),
    }
}

fn wrong_pairs(alloc: Global, items: &[JsonValue<'_>]) -> Result<Option<Wrong>, OutOfMemory>
    ensures { Finds (first_item wrong_pair 0 (map view items.now)) result }
{
    for (position, item) in items.iter().enumerate() {
        if let Some(wrong) = in_item(position, wrong_pair(alloc, item)?)? {
            return Ok(Some(wrong));
        }
    }
    Ok(None)
}

/// The first wrong place of an input or an output: a float, a pair that is none, or the value itself. Takes memory.
#[tactic(auto, unfolding(crate::specs::WrongInputs::wrong_writes))]
pub fn wrong_writes(alloc: Global, value: &JsonValue<'_>) -> Result<Option<Wrong>, OutOfMemory>
    ensures { Finds (wrong_writes (view value.now)) result }
{
    if let Some(items) = items_of(value) {
        return wrong_pairs(alloc, items);
    }
    match value.as_object() {
        Some(members) => wrong_members(alloc, members),
        None => Ok(Some(asked_here(
            alloc,
            "an object from names to values is asked, or an array of pairs",
        )?)),
    }
}

fn wrong_each(alloc: Global, items: &[JsonValue<'_>]) -> Result<Option<Wrong>, OutOfMemory>
    ensures { Finds (first_item wrong_writes 0 (map view items.now)) result }
{
    for (position, item) in items.iter().enumerate() {
        if let Some(wrong) = in_item(position, wrong_writes(alloc, item)?)? {
            return Ok(Some(wrong));
        }
    }
    Ok(None)
}

/// The first wrong place of many inputs, or the value itself where it is no array. Takes memory.
#[tactic(auto, unfolding(crate::specs::WrongInputs::wrong_many))]
pub fn wrong_many(alloc: Global, value: &JsonValue<'_>) -> Result<Option<Wrong>, OutOfMemory>
    ensures { Finds (wrong_many (view value.now)) result }
{
    match items_of(value) {
        Some(items) => wrong_each(alloc, items),
        None => Ok(Some(asked_here(alloc, "an array of inputs is asked")?)),
    }
}
