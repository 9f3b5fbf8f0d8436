// Rows of calls of values: each line of standard input has a call, its arguments and its answer. The last line of the output
// tells how many rows there are, and how many failed.
#![tactic(auto)]

mod http;
mod ids;
mod io;
mod routes;
mod schema;
mod steps;
mod telling;
mod types;

use serde_json::Value;
use smithy_types::Text;
use std::alloc::Global;
use std::io::{Input, Print};
use std::process::ExitCode;
use test_rows::{Answers, Failed, run_rows};

fn main(rt: HostRuntime) -> ExitCode {
    match run_rows(&rt, &Calls) {
        Ok(()) => ExitCode::SUCCESS,
        Err(Failed) => ExitCode::FAILURE,
    }
}

// The calls of this program.
struct Calls;

impl Answers for Calls {
    fn answer(&self, alloc: Global, call: &str, given: &Value) -> Result<Text, Failed> {
        if let Some(text) = types::answer(alloc, call, given)? {
            return Ok(text);
        }
        if let Some(text) = ids::answer(alloc, call, given)? {
            return Ok(text);
        }
        if let Some(text) = http::answer(alloc, call, given)? {
            return Ok(text);
        }
        if let Some(text) = io::answer(alloc, call, given)? {
            return Ok(text);
        }
        if let Some(text) = schema::answer(alloc, call, given)? {
            return Ok(text);
        }
        routes::answer(alloc, call, given)?.ok_or(Failed)
    }
}
