// Rows of responses: each line of standard input has a call, what is given to it, and its answer. What is given is mostly a job
// of the command `response`. The last line of the output tells how many rows there are, and how many failed.
#![tactic(auto)]

mod asked;
mod aws_values;
mod errors;
mod json;
mod noting;
mod readers;
mod reads;
mod runs;
mod told;
mod walking;
mod whole;

use serde_json::Value;
use smithy_types::Text;
use std::alloc::Global;
use std::io::{Input, Print};
use std::process::ExitCode;
use test_rows::{Answers, Failed, run_rows};

fn main(rt: HostRuntime) -> ExitCode {
    match run_rows(&rt, &Calls) {
        Ok(()) => ExitCode::SUCCESS,
        Err(Failed) => ExitCode::FAILURE,
    }
}

// The calls of this program.
struct Calls;

impl Answers for Calls {
    fn answer(&self, alloc: Global, call: &str, given: &Value) -> Result<Text, Failed> {
        if let Some(text) = readers::answer(alloc, call, given)? {
            return Ok(text);
        }
        if let Some(text) = whole::answer(alloc, call, given)? {
            return Ok(text);
        }
        if let Some(text) = errors::answer(alloc, call, given)? {
            return Ok(text);
        }
        if let Some(text) = aws_values::answer(alloc, call, given)? {
            return Ok(text);
        }
        runs::answer(alloc, call, given)?.ok_or(Failed)
    }
}
