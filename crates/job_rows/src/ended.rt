// How a run of a row ends.
use crate::failed::Failed;
use crate::row::Row;
use base64::engine::general_purpose::STANDARD;
use serde_json::Value;
use smithy_bind::laws::run_in_memory;
use smithy_io::{SureSink, SureSource};
use std::alloc::Global;

// How many bytes a run may write.
const ROOM: usize = 100_000;

/// The exit status of the row's run, a space, and what it wrote: a JSON text, or `{"base64":..}` of bytes that are no UTF-8.
/// It takes memory.
pub fn ended(alloc: Global, row: Row) -> Result<String, Failed> {
    let mut source = SureSource::new(row.job);
    let mut sink = SureSink::new(alloc, ROOM)?;
    let status = run_in_memory(alloc, &row.words, &mut source, &mut sink).code();
    let written = text_of(alloc, sink.written())?;
    Ok(format!(in alloc; "{status} {written}")?)
}

fn text_of(alloc: Global, bytes: &[u8]) -> Result<String, Failed> {
    match str::from_utf8(bytes) {
        Ok(text) => Ok(Value::String(String::from_str(alloc, text)?).to_string(alloc)?),
        Err(_) => {
            let text = STANDARD.encode(alloc, bytes)?;
            Ok(format!(in alloc; "{{\"base64\":\"{text}\"}}")?)
        }
    }
}
