// The job of an output that becomes a response.
ghost use Rattle.std.specs.Prelude.{◌≡◌, ◌≤◌, codes, option_and_then, IfOk, IfSome};
ghost use Rattle.serde_json.specs.Find.{get};
ghost use Rattle.smithy_json.specs.views.JsonView.{view};
ghost use Rattle.smithy_model.specs.Reads.{Reads};
ghost use Rattle.smithy_job.specs.Answering.{answering, code_asked, http_code, operation_code};
ghost use Rattle.smithy_job.specs.Responses.{three_digits, status_in};
ghost use Rattle.smithy_job.specs.views.Tables.{ReadsAs};
ghost use Rattle.smithy_job.specs.views.WrittenView.{IsAnswering};

use crate::reading::http_asked;
use crate::response::status_of;
use crate::written::{Written, read_written};
use smithy_ids::HttpTrait;
use smithy_json::JsonValue;
use smithy_model::{Asked, Floats, JobError};
use std::alloc::Global;

/// An output that becomes a response.
#[derive(Drop)]
pub struct Answering {
    pub output: Written,
    /// The status where the output has none, three digits (RFC 7231, section 6).
    pub code: u16,
}

fn http_code(http: Option<HttpTrait<'_>>) -> u16
    ensures { result ≡ http_code http.entry }
{
    match http {
        Some(http) => http.code(),
        None => 200,
    }
}

fn three_digits(code: u16) -> Result<u16, JobError>
    ensures value { Reads (λ c. c) (three_digits code) result }
    ensures digits { IfOk result (λ c. (100 ≤ c) × (c ≤ 999)) }
{
    if 100 <= code && code <= 999 {
        Ok(code)
    } else {
        Err(JobError::NoJob)
    }
}

/// The code of a job's operation, three digits. Takes memory. No job where it has another.
pub fn operation_code(alloc: Global, job: &JsonValue<'_>) -> Result<u16, JobError>
    ensures value { Reads (λ c. c) (operation_code (view job.now)) result }
    ensures digits { IfOk result (λ c. (100 ≤ c) × (c ≤ 999)) }
{
    let http = http_asked(alloc, job)?;
    three_digits(http_code(http))
}

// The status that a job gives.
fn given_code(job: &JsonValue<'_>) -> Result<u16, JobError>
    ensures value { Reads (λ c. c)
        (option_and_then status_in (get (codes "status") (view job.now))) result }
    ensures digits { IfOk result (λ c. (100 ≤ c) × (c ≤ 999)) }
{
    match status_of(job) {
        Some(code) => Ok(code),
        None => Err(JobError::NoJob),
    }
}

// The status that a job gives, or else the code of its operation.
fn code_asked(alloc: Global, job: &JsonValue<'_>) -> Result<u16, JobError>
    ensures value { Reads (λ c. c) (code_asked (view job.now)) result }
    ensures digits { IfOk result (λ c. (100 ≤ c) × (c ≤ 999)) }
{
    match job.get("status") {
        Some(_status) => given_code(job),
        None => operation_code(alloc, job),
    }
}

/// The job of an output that a JSON value is. Takes memory. What hasn't the form of one is no job.
#[tactic(auto, unfolding(crate::specs::Answering::answering))]
pub fn read_answering(alloc: Global, job: &JsonValue<'_>) -> Result<Answering, JobError>
    ensures { ReadsAs IsAnswering (answering (view job.now)) result }
{
    let code = code_asked(alloc, job)?;
    let output = read_written(alloc, job, Asked::Output, "output", Floats::Kept)?;
    Ok(Answering { output, code })
}
