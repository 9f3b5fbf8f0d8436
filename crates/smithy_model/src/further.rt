// Traits without a field of their own, as documents.
ghost use Rattle.std.specs.Prelude.{◌≡◌, [], IfOk, OnOk};
ghost use Rattle.smithy_json.specs.views.JsonView.{view, entries};
ghost use Rattle.smithy_schema.specs.Nodes.{no_traits};
ghost use Rattle.smithy_model.specs.Further.{with_further, further_in, further_traits};
ghost use Rattle.smithy_model.specs.views.ModelView.{traits_view};

use crate::json_value::members_of;
use crate::shape::ShapeTraits;
use crate::traits::is_named_trait;
use smithy_ids::ShapeId;
use smithy_json::{JsonError, JsonValue, document_of};
use smithy_schema::{DocumentTrait, Schema, Trait, TraitMap};
use smithy_types::OutOfMemory;
use std::alloc::Global;

// Adds a trait that has no field of its own, and no float in it.
fn insert_further(
    alloc: Global,
    traits: &mut TraitMap,
    name: &str,
    value: &JsonValue<'_>,
) -> Result<(), OutOfMemory>
    ensures { OnOk result (traits.new ≡ with_further traits.old (name.now, view value.now)) }
{
    if is_named_trait(name) {
        return Ok(());
    }
    let Some(id) = ShapeId::parse(name) else {
        return Ok(());
    };
    match document_of(alloc, value) {
        Ok(document) => traits.insert(Trait::Document(DocumentTrait::new(alloc, id, document)?)),
        Err(JsonError::Unreadable) => Ok(()),
        Err(JsonError::OutOfMemory) => Err(OutOfMemory),
    }
}

fn further_in(alloc: Global, traits: &[(&str, JsonValue<'_>)]) -> Result<TraitMap, OutOfMemory>
    ensures { IfOk result (λ m. m ≡ further_in [] (entries traits.now)) }
{
    let mut found = TraitMap::new(alloc);
    for given in traits {
        insert_further(alloc, &mut found, given.0, &given.1)?;
    }
    Ok(found)
}

// The traits of an object that have no field of their own, if it has such.
fn further_traits(alloc: Global, traits: &JsonValue<'_>) -> Result<Option<TraitMap>, OutOfMemory>
    ensures { IfOk result (λ o. o ≡ further_traits (view traits.now)) }
{
    let Some(object) = members_of(traits) else {
        return Ok(None);
    };
    let found = further_in(alloc, object)?;
    if found.is_empty() {
        Ok(None)
    } else {
        Ok(Some(found))
    }
}

/// A description with these traits. Condition: it has none. Takes memory for those without a field of their own.
#[inline(always)]
pub fn with_traits<'t: 'a, 'a>(
    alloc: Global,
    schema: Schema<'a>,
    traits: ShapeTraits<'_, 't>,
) -> Result<Schema<'a>, OutOfMemory>
    requires { schema.traits ≡ no_traits }
    ensures { IfOk result (λ s. s ≡ record schema.entry { traits = traits_view traits.entry }) }
{
    let schema = schema.with_plain_traits(traits.plain);
    let Some(given) = traits.given else {
        return Ok(schema);
    };
    match further_traits(alloc, given)? {
        Some(further) => Ok(schema.with_traits(further)),
        None => Ok(schema),
    }
}
