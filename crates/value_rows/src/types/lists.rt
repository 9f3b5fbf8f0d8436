// Lists that grow at their end.
use crate::telling::Told;
use serde_json::Value;
use smithy_types::{Blobs, Longs, Text, Words};
use std::alloc::Global;
use test_rows::{Failed, item_bytes, item_text, items_of};

/// A list of texts: how many it has, each by its place, and all.
pub fn words(alloc: Global, given: &Value) -> Result<Text, Failed> {
    let mut told = Told::new(alloc)?;
    let mut words = Words::new(alloc);
    for word in items_of(given, "words")? {
        words.push(item_text(alloc, word)?.as_str())?;
    }
    told.tell_count("len", words.len())?;
    told.tell_flag("empty", words.is_empty())?;
    for (place, word) in words.as_slice().iter().enumerate() {
        told.tell_text("item", word.as_str())?;
        told.tell_flag("same", words.get(place) == Some(word.as_str()))?;
    }
    told.tell_option(words.get(words.len()))?;
    Ok(told.into_text())
}

/// A list of numbers: how many it has, each by its place, and all.
pub fn longs(alloc: Global, given: &Value) -> Result<Text, Failed> {
    let mut told = Told::new(alloc)?;
    let mut longs = Longs::new(alloc);
    for number in items_of(given, "numbers")? {
        longs.push(number.as_i64().ok_or(Failed)?)?;
    }
    told.tell_count("len", longs.len())?;
    told.tell_flag("empty", longs.is_empty())?;
    for (place, number) in longs.as_slice().iter().enumerate() {
        told.tell_text("item", format!(in alloc; "{number}")?.as_str())?;
        told.tell_flag("same", longs.get(place) == Some(number))?;
    }
    told.tell_flag("one more", longs.get(longs.len()).is_some())?;
    Ok(told.into_text())
}

/// A list of bytes: how many items it has, and each by its place.
pub fn blobs(alloc: Global, given: &Value) -> Result<Text, Failed> {
    let mut told = Told::new(alloc)?;
    let mut blobs = Blobs::new(alloc);
    for bytes in items_of(given, "blobs")? {
        blobs.push(item_bytes(alloc, bytes)?)?;
    }
    told.tell_count("len", blobs.len())?;
    for blob in blobs.as_slice() {
        told.tell_bytes("item", blob.as_slice())?;
    }
    Ok(told.into_text())
}
