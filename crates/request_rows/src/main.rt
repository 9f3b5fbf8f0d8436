// Rows of calls that make requests: each line of standard input has a call, its arguments and its answer. The last line of the
// output tells how many rows there are, and how many failed.
#![tactic(auto)]

mod aws;
mod decimals;
mod documents;
mod given_job;
mod items;
mod jobs;
mod many;
mod misfits;
mod models;
mod outputs;
mod pointing;
mod protocols;
mod requests;
mod runs;
mod schema_text;
mod service;
mod templates;
mod told;
mod told_input;
mod wrong_places;

use serde_json::Value;
use smithy_types::Text;
use std::alloc::Global;
use std::io::{Input, Print};
use std::process::ExitCode;
use test_rows::{Answers, Failed, run_rows};

fn main(rt: HostRuntime) -> ExitCode {
    match run_rows(&rt, &Calls) {
        Ok(()) => ExitCode::SUCCESS,
        Err(Failed) => ExitCode::FAILURE,
    }
}

// The calls of this program.
struct Calls;

impl Answers for Calls {
    fn answer(&self, alloc: Global, call: &str, given: &Value) -> Result<Text, Failed> {
        if let Some(text) = of_jobs(alloc, call, given)? {
            return Ok(text);
        }
        if let Some(text) = of_messages(alloc, call, given)? {
            return Ok(text);
        }
        of_texts(alloc, call, given)?.ok_or(Failed)
    }
}

// The answer of a call that reads a model, a job or many of them; none of another.
fn of_jobs(alloc: Global, call: &str, given: &Value) -> Result<Option<Text>, Failed> {
    if let Some(text) = models::answer(alloc, call, given)? {
        return Ok(Some(text));
    }
    if let Some(text) = jobs::answer(alloc, call, given)? {
        return Ok(Some(text));
    }
    if let Some(text) = items::answer(alloc, call, given)? {
        return Ok(Some(text));
    }
    if let Some(text) = protocols::answer(alloc, call, given)? {
        return Ok(Some(text));
    }
    if let Some(text) = decimals::answer(alloc, call, given)? {
        return Ok(Some(text));
    }
    if let Some(text) = many::answer(alloc, call, given)? {
        return Ok(Some(text));
    }
    wrong_places::answer(alloc, call, given)
}

// The answer of a call that makes a request or a response, or of one on its input or output; none of another.
fn of_messages(alloc: Global, call: &str, given: &Value) -> Result<Option<Text>, Failed> {
    if let Some(text) = requests::answer(alloc, call, given)? {
        return Ok(Some(text));
    }
    if let Some(text) = misfits::answer(alloc, call, given)? {
        return Ok(Some(text));
    }
    if let Some(text) = aws::answer(alloc, call, given)? {
        return Ok(Some(text));
    }
    if let Some(text) = outputs::answer(alloc, call, given)? {
        return Ok(Some(text));
    }
    pointing::answer(alloc, call, given)
}

// The answer of a call on names of services, templates, whole runs or documents; none of another.
fn of_texts(alloc: Global, call: &str, given: &Value) -> Result<Option<Text>, Failed> {
    if let Some(text) = service::answer(alloc, call, given)? {
        return Ok(Some(text));
    }
    if let Some(text) = templates::answer(alloc, call, given)? {
        return Ok(Some(text));
    }
    if let Some(text) = runs::answer(alloc, call, given)? {
        return Ok(Some(text));
    }
    documents::answer(alloc, call, given)
}
