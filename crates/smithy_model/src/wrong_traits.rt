// The first wrong place of traits.
ghost use Rattle.std.specs.Prelude.{◌≡◌};
ghost use Rattle.smithy_json.specs.views.JsonView.{view, entries, entry_of};
ghost use Rattle.smithy_model.specs.Wrong.{first_in};
ghost use Rattle.smithy_model.specs.WrongModels.{form_asked, wrong_trait, wrong_entry, wrong_traits, wrong_traits_of};
ghost use Rattle.smithy_model.specs.views.WrongView.{Finds};

use crate::json_value::members_of;
use crate::name::is_full_name;
use crate::traits::{has_form, is_text_trait};
use crate::wrong::{Wrong, asked_here, in_key, unless_here};
use smithy_json::JsonValue;
use smithy_types::OutOfMemory;
use std::alloc::Global;

// What is asked of the value of a trait that has to have a form.
#[tactic(auto, unfolding(crate::specs::WrongModels::form_asked))]
fn form_asked(id: &str) -> &'static str
    ensures { result.now ≡ form_asked id.now }
{
    if is_text_trait(id) {
        return "a text is asked";
    }
    if id == "smithy.api#xmlNamespace" {
        return "an object with a text `uri` is asked, and `prefix` is a text";
    }
    "`date-time`, `http-date` or `epoch-seconds` is asked"
}

#[tactic(auto, unfolding(crate::specs::WrongModels::wrong_trait))]
fn wrong_trait(alloc: Global, entry: &(&str, JsonValue<'_>)) -> Result<Option<Wrong>, OutOfMemory>
    ensures { Finds (wrong_trait (entry_of entry.now)) result }
{
    let is_full = is_full_name(entry.0);
    let words = "the full name of a trait is asked, as smithy.api#httpLabel";
    if let Some(wrong) = unless_here(alloc, is_full, words)? {
        return Ok(Some(wrong));
    }
    unless_here(alloc, has_form(entry.0, &entry.1), form_asked(entry.0))
}

fn wrong_entry(alloc: Global, entry: &(&str, JsonValue<'_>)) -> Result<Option<Wrong>, OutOfMemory>
    ensures { Finds (wrong_entry (entry_of entry.now)) result }
{
    in_key(alloc, entry.0, wrong_trait(alloc, entry)?)
}

fn wrong_entries(
    alloc: Global,
    members: &[(&str, JsonValue<'_>)],
) -> Result<Option<Wrong>, OutOfMemory>
    ensures { Finds (first_in wrong_entry (entries members.now)) result }
{
    for member in members {
        if let Some(wrong) = wrong_entry(alloc, member)? {
            return Ok(Some(wrong));
        }
    }
    Ok(None)
}

/// The first wrong place of an object of traits. Takes memory.
#[tactic(auto, unfolding(crate::specs::WrongModels::wrong_traits))]
pub fn wrong_traits(alloc: Global, traits: &JsonValue<'_>) -> Result<Option<Wrong>, OutOfMemory>
    ensures { Finds (wrong_traits (view traits.now)) result }
{
    match members_of(traits) {
        Some(members) => wrong_entries(alloc, members),
        None => Ok(Some(asked_here(alloc, "an object from full names to values is asked")?)),
    }
}

/// The first wrong place of the traits of a shape or a member, which may be absent. Takes memory.
#[tactic(auto, unfolding(crate::specs::WrongModels::wrong_traits_of))]
pub fn wrong_traits_of(alloc: Global, shape: &JsonValue<'_>) -> Result<Option<Wrong>, OutOfMemory>
    ensures { Finds (wrong_traits_of (view shape.now)) result }
{
    match shape.get("traits") {
        Some(traits) => in_key(alloc, "traits", wrong_traits(alloc, traits)?),
        None => Ok(None),
    }
}
