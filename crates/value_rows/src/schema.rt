// Calls of `smithy_schema`.
mod description;
mod marks;
mod node;
mod routing;
mod table;
mod templates;
mod trait_map;

use crate::ids::kind_named;
use crate::telling::Told;
use serde_json::Value;
use smithy_schema::{SchemaRef, ShapeIdBuf};
use smithy_types::Text;
use std::alloc::Global;
use test_rows::{Failed, text_of};

/// What a call of `smithy_schema` answers, `None` where it is another's.
pub fn answer(alloc: Global, call: &str, given: &Value) -> Result<Option<Text>, Failed> {
    match call {
        "Schemas" => table::schemas(alloc, given).map(Some),
        "TraitMap" => trait_map::trait_map(alloc, given).map(Some),
        "SchemaRef::prelude" => prelude(alloc, given).map(Some),
        "cut_hole" => templates::first_hole(alloc, given).map(Some),
        "ShapeIdBuf" => owned_name(alloc, given).map(Some),
        _ => Ok(None),
    }
}

// The fixed node of a simple kind.
fn prelude(alloc: Global, given: &Value) -> Result<Text, Failed> {
    let mut told = Told::new(alloc)?;
    let kind = kind_named(text_of(given, "kind")?)?;
    if !kind.is_simple() {
        return Err(Failed);
    }
    node::tell_node(&mut told, SchemaRef::prelude(kind))?;
    Ok(told.into_text())
}

// One of two identifiers that are joined of their parts.
fn owned_name(alloc: Global, given: &Value) -> Result<Text, Failed> {
    let name = match text_of(given, "parts")? {
        "com.example MyStruct" => ShapeIdBuf::of(alloc, "com.example", "MyStruct")?,
        "com.example MyStruct field" => {
            ShapeIdBuf::of_member(alloc, "com.example", "MyStruct", "field")?
        }
        _ => return Err(Failed),
    };
    Ok(Text::from_str(alloc, name.as_id().as_str())?)
}
