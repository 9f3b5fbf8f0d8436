// Sources and sinks in memory.
use crate::io::outside::tell_count;
use crate::telling::Told;
use serde_json::Value;
use smithy_io::{
    MemorySink, MemorySource, Sink, Source, SureSink, SureSource, read_all, write_all,
};
use smithy_types::{Blob, Longs, Text};
use std::alloc::Global;
use test_rows::{Failed, bytes_of, count_of, item_text, items_of};

// The numbers of the calls that fail.
fn failing_of(alloc: Global, given: &Value) -> Result<Longs, Failed> {
    let mut failing = Longs::new(alloc);
    for call in items_of(given, "failing")? {
        failing.push(call.as_i64().ok_or(Failed)?)?;
    }
    Ok(failing)
}

// Tells what a read into a buffer of this length answers, and the bytes that it gives.
fn tell_read<S: Source>(told: &mut Told, source: &mut S, wanted: &Value) -> Result<(), Failed> {
    let wanted = usize::try_from(wanted.as_u64().ok_or(Failed)?)
        .ok()
        .ok_or(Failed)?;
    let mut bytes = vec![in told.alloc(); b'.'; wanted]?;
    let outcome = source.read(&mut bytes);
    tell_count(told, outcome)?;
    told.tell_bytes("bytes", bytes.as_slice())
}

/// What reads of bytes in memory answer.
pub fn sure_source(alloc: Global, given: &Value) -> Result<Text, Failed> {
    let mut told = Told::new(alloc)?;
    let mut source = SureSource::new(bytes_of(alloc, given, "bytes")?);
    for wanted in items_of(given, "reads")? {
        tell_read(&mut told, &mut source, wanted)?;
    }
    Ok(told.into_text())
}

// A source of bytes in pieces.
fn source_of(alloc: Global, given: &Value) -> Result<MemorySource, Failed> {
    let piece = count_of(given, "piece")?;
    let bytes = bytes_of(alloc, given, "bytes")?;
    let failing = failing_of(alloc, given)?;
    if piece == 0 {
        return Err(Failed);
    }
    Ok(MemorySource::new(bytes, piece, failing))
}

/// What reads of bytes in pieces answer.
pub fn memory_source(alloc: Global, given: &Value) -> Result<Text, Failed> {
    let mut told = Told::new(alloc)?;
    let mut source = source_of(alloc, given)?;
    for wanted in items_of(given, "reads")? {
        tell_read(&mut told, &mut source, wanted)?;
    }
    Ok(told.into_text())
}

// Tells what each write answers, and the last one, which is of all bytes.
fn tell_writes<K: Sink>(told: &mut Told, sink: &mut K, given: &Value) -> Result<(), Failed> {
    for bytes in items_of(given, "writes")? {
        let bytes = item_text(told.alloc(), bytes)?;
        let outcome = sink.write(bytes.as_str().as_bytes());
        tell_count(told, outcome)?;
    }
    let all = bytes_of(told.alloc(), given, "write_all")?;
    match write_all(sink, all.as_slice()) {
        Ok(()) => told.tell("all"),
        Err(smithy_io::Failed) => told.tell("not all"),
    }
}

/// What writes to a room answer, and what it holds.
pub fn sure_sink(alloc: Global, given: &Value) -> Result<Text, Failed> {
    let mut told = Told::new(alloc)?;
    let mut sink = SureSink::new(alloc, count_of(given, "room")?)?;
    tell_writes(&mut told, &mut sink, given)?;
    told.tell_bytes("written", sink.written())?;
    Ok(told.into_text())
}

/// What writes of pieces to a room answer, and what it holds.
pub fn memory_sink(alloc: Global, given: &Value) -> Result<Text, Failed> {
    let mut told = Told::new(alloc)?;
    let piece = count_of(given, "piece")?;
    let failing = failing_of(alloc, given)?;
    if piece == 0 {
        return Err(Failed);
    }
    let mut sink = MemorySink::new(alloc, count_of(given, "room")?, piece, failing)?;
    tell_writes(&mut told, &mut sink, given)?;
    told.tell_bytes("written", sink.written())?;
    Ok(told.into_text())
}

/// All bytes of a source that gives them in pieces, or of one that has so many zeros.
pub fn all_of(alloc: Global, given: &Value) -> Result<Text, Failed> {
    let mut told = Told::new(alloc)?;
    if given.get("zeros").is_some() {
        let zeros = vec![in alloc; 0u8; count_of(given, "zeros")?]?;
        let mut source = SureSource::new(Blob::from_vec(zeros));
        match read_all(alloc, &mut source) {
            Ok(bytes) => told.tell_count("Ok", bytes.len())?,
            Err(error) => told.tell_text("Err", format!(in alloc; "{error:?}")?.as_str())?,
        }
        return Ok(told.into_text());
    }
    let mut source = source_of(alloc, given)?;
    match read_all(alloc, &mut source) {
        Ok(bytes) => told.tell_bytes("Ok", bytes.as_slice())?,
        Err(error) => told.tell_text("Err", format!(in alloc; "{error:?}")?.as_str())?,
    }
    Ok(told.into_text())
}
