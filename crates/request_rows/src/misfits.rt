// Inputs that don't follow their nodes.
use crate::given_job::job_bytes;
use crate::told::{no_job, refusal_text};
use serde_json::Value;
use smithy_job::{Job, read_job};
use smithy_json::{Scratch, read_json};
use smithy_types::Text;
use smithy_wire::{check_body, check_whole};
use std::alloc::Global;
use test_rows::Failed;

/// The answer of one of these calls; none of another.
pub fn answer(alloc: Global, call: &str, given: &Value) -> Result<Option<Text>, Failed> {
    match call {
        "check_body" => Ok(Some(checked(alloc, given, true)?)),
        "check_whole" => Ok(Some(checked(alloc, given, false)?)),
        _ => Ok(None),
    }
}

// What is told of the input of a row's job.
fn checked(alloc: Global, given: &Value, is_body: bool) -> Result<Text, Failed> {
    let bytes = job_bytes(alloc, given)?;
    let mut scratch = Scratch::new(alloc);
    let value = match read_json(alloc, bytes.as_slice(), &mut scratch) {
        Ok(value) => value,
        Err(refusal) => return no_job(alloc, refusal.into()),
    };
    match read_job(alloc, &value) {
        Ok(job) => input_told(alloc, &job, is_body),
        Err(refusal) => no_job(alloc, refusal),
    }
}

fn input_told(alloc: Global, job: &Job<'_>, is_body: bool) -> Result<Text, Failed> {
    let nodes = job.further.as_ref().unwrap_or(&job.table);
    let schema = nodes.get(job.index).ok_or(Failed)?;
    let tried = if is_body {
        check_body(alloc, nodes, schema, &job.writes)
    } else {
        check_whole(alloc, nodes, schema, &job.writes)
    };
    match tried {
        Ok(()) => Ok(Text::from_str(alloc, "follows")?),
        Err(refusal) => refusal_text(alloc, &refusal),
    }
}
