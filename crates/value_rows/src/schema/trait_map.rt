// Further traits, by their names.
use crate::steps::{step_text, step_value};
use crate::telling::Told;
use serde_json::Value;
use smithy_ids::ShapeId;
use smithy_schema::{AnnotationTrait, DocumentTrait, StringTrait, Trait, TraitMap};
use smithy_types::{Document, Text};
use std::alloc::Global;
use test_rows::{Failed, items_of};

/// The traits of an array, each of which is put in its turn: its kind, its name, and what it holds.
pub fn traits_of(alloc: Global, given: &Value) -> Result<TraitMap, Failed> {
    let mut traits = TraitMap::new(alloc);
    for part in given.as_array().ok_or(Failed)? {
        traits.insert(trait_of(alloc, part)?)?;
    }
    Ok(traits)
}

fn trait_of(alloc: Global, part: &Value) -> Result<Trait, Failed> {
    let id = ShapeId::parse(step_text(part, 1)?).ok_or(Failed)?;
    match step_text(part, 0)? {
        "annotation" => Ok(Trait::Annotation(AnnotationTrait::new(alloc, id)?)),
        "string" => Ok(Trait::String(StringTrait::new(alloc, id, step_text(part, 2)?)?)),
        "truth" => {
            let document = Document::Bool(step_value(part, 2)?.as_bool().ok_or(Failed)?);
            Ok(Trait::Document(DocumentTrait::new(alloc, id, document)?))
        }
        _ => Err(Failed),
    }
}

/// How many traits there are, and what stands under each of these names.
pub fn trait_map(alloc: Global, given: &Value) -> Result<Text, Failed> {
    let mut told = Told::new(alloc)?;
    let traits = traits_of(alloc, given.get("traits").ok_or(Failed)?)?;
    for name in items_of(given, "names")? {
        tell_trait(&mut told, &traits, name.as_str().ok_or(Failed)?)?;
    }
    told.tell_count("len", traits.len())?;
    told.tell_flag("empty", traits.is_empty())?;
    Ok(told.into_text())
}

/// Tells what stands under a name.
pub fn tell_trait(told: &mut Told, traits: &TraitMap, name: &str) -> Result<(), Failed> {
    let id = ShapeId::parse(name).ok_or(Failed)?;
    told.tell_flag("there", traits.contains(id) && traits.contains_fqn(name))?;
    told.tell_flag("found", traits.get_fqn(name).is_some())?;
    match traits.get(id) {
        Some(value) => {
            told.tell(value.trait_id().as_str())?;
            tell_held(told, value)
        }
        None => Ok(()),
    }
}

fn tell_held(told: &mut Told, value: &Trait) -> Result<(), Failed> {
    match value {
        Trait::Annotation(_) => told.tell("nothing"),
        Trait::String(text) => told.tell_text("text", text.value()),
        Trait::Document(document) => {
            told.tell_flag("true", document.value().as_bool() == Some(true))
        }
    }
}
