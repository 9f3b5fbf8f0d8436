// Maps of texts.
use crate::steps::{step_count, step_text, step_value};
use crate::telling::Told;
use serde_json::Value;
use smithy_types::{Text, TextMap};
use std::alloc::Global;
use test_rows::{Failed, item_text, items_of};

/// What the steps on an empty map answer, and its pairs behind them.
pub fn text_map(alloc: Global, given: &Value) -> Result<Text, Failed> {
    let mut told = Told::new(alloc)?;
    let mut map = TextMap::new(alloc);
    for step in items_of(given, "steps")? {
        take_step(&mut told, &mut map, step)?;
    }
    for (key, value) in map.iter() {
        told.tell_text(key, value.as_str())?;
    }
    Ok(told.into_text())
}

fn take_step(told: &mut Told, map: &mut TextMap, step: &Value) -> Result<(), Failed> {
    match step_text(step, 0)? {
        "insert" => insert(told.alloc(), map, step),
        "len" => told.tell_count("len", map.len()),
        "is_empty" => told.tell_flag("empty", map.is_empty()),
        "get" => told.tell_option(map.get(step_text(step, 1)?).map(Text::as_str)),
        "key_at" => told.tell_option(map.key_at(step_count(step, 1)?)),
        "value_at" => told.tell_option(map.value_at(step_count(step, 1)?).map(Text::as_str)),
        _ => Err(Failed),
    }
}

fn insert(alloc: Global, map: &mut TextMap, step: &Value) -> Result<(), Failed> {
    let key = item_text(alloc, step_value(step, 1)?)?;
    map.insert(key, item_text(alloc, step_value(step, 2)?)?)?;
    Ok(())
}
