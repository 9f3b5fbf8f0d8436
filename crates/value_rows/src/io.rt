// Calls of `smithy_io`.
mod memory;
mod outside;

use serde_json::Value;
use smithy_types::Text;
use std::alloc::Global;
use test_rows::Failed;

/// What a call of `smithy_io` answers, `None` where it is another's.
pub fn answer(alloc: Global, call: &str, given: &Value) -> Result<Option<Text>, Failed> {
    match call {
        "SureSource" => memory::sure_source(alloc, given).map(Some),
        "MemorySource" => memory::memory_source(alloc, given).map(Some),
        "SureSink" => memory::sure_sink(alloc, given).map(Some),
        "MemorySink" => memory::memory_sink(alloc, given).map(Some),
        "read_all" => memory::all_of(alloc, given).map(Some),
        "StdSource" => outside::source(alloc, given).map(Some),
        "StdSink" => outside::sink(alloc, given).map(Some),
        _ => Ok(None),
    }
}
