// Rows of calls that tell values and read them: each line of standard input has a call, its arguments and its answer. The
// last line of the output tells how many rows there are, and how many failed.
#![tactic(auto)]

mod consumers;
mod entries;
mod first_write;
mod given;
mod groups;
mod json_text;
mod json_values;
mod kinds;
mod model;
mod one_read;
mod one_write;
mod read_back;
mod reads;
mod refusals;
mod registry;
mod settings;
mod texts;
mod told;
mod value_text;
mod values;
mod wire;
mod write_lists;
mod writes;

use serde_json::Value;
use smithy_types::Text;
use std::alloc::Global;
use std::io::{Input, Print};
use std::process::ExitCode;
use test_rows::{Answers, Failed, run_rows};

fn main(rt: HostRuntime) -> ExitCode {
    match run_rows(&rt, &Calls) {
        Ok(()) => ExitCode::SUCCESS,
        Err(Failed) => ExitCode::FAILURE,
    }
}

// The calls of this program.
struct Calls;

impl Answers for Calls {
    fn answer(&self, alloc: Global, call: &str, given: &Value) -> Result<Text, Failed> {
        if let Some(text) = by_reading(alloc, call, given)? {
            return Ok(text);
        }
        if let Some(text) = by_telling(alloc, call, given)? {
            return Ok(text);
        }
        Err(Failed)
    }
}

fn by_reading(alloc: Global, call: &str, given: &Value) -> Result<Option<Text>, Failed> {
    if let Some(text) = reads::answer(alloc, call, given)? {
        return Ok(Some(text));
    }
    if let Some(text) = json_values::answer(alloc, call, given)? {
        return Ok(Some(text));
    }
    if let Some(text) = wire::answer(alloc, call, given)? {
        return Ok(Some(text));
    }
    if let Some(text) = texts::answer(alloc, call, given)? {
        return Ok(Some(text));
    }
    if let Some(text) = refusals::answer(alloc, call, given)? {
        return Ok(Some(text));
    }
    if let Some(text) = consumers::answer(alloc, call, given)? {
        return Ok(Some(text));
    }
    values::answer_of_document(alloc, call, given)
}

fn by_telling(alloc: Global, call: &str, given: &Value) -> Result<Option<Text>, Failed> {
    if let Some(text) = registry::answer(alloc, call, given)? {
        return Ok(Some(text));
    }
    if let Some(text) = groups::answer(alloc, call, given)? {
        return Ok(Some(text));
    }
    if let Some(text) = values::answer(alloc, call, given)? {
        return Ok(Some(text));
    }
    if let Some(text) = writes::answer(alloc, call, given)? {
        return Ok(Some(text));
    }
    if let Some(text) = write_lists::answer(alloc, call, given)? {
        return Ok(Some(text));
    }
    first_write::answer(alloc, call, given)
}
