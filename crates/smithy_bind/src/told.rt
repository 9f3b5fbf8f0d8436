// What is told of a job.
ghost use Rattle.std.specs.Prelude.{Result};
ghost use Rattle.smithy_http.specs.Requests.{Request as Sent};
ghost use Rattle.smithy_binding.specs.Faults.{Fault};
ghost use Rattle.smithy_binding.specs.Refusing.{Answers};
ghost use Rattle.smithy_bind.specs.Outcome.{told};
ghost use Rattle.smithy_bind.specs.Told.{output};
ghost use Rattle.smithy_bind.specs.views.AnswerView.{Gives, TellsRefusal};

use crate::shown::{refusal_line, shown};
use smithy_http::Request;
use smithy_model::JobError;
use smithy_serde::SerdeError;
use std::alloc::Global;

/// What is to be told of a job.
#[derive(Drop)]
pub enum Answer {
    /// The line that tells a fault.
    Fault(Vec<u8>),
    /// The output.
    Output(Vec<u8>),
}

/// A text that is told as it is. Takes memory.
pub fn said(alloc: Global, text: &[u8]) -> Result<Answer, JobError>
    ensures { Gives (output text.now) result }
{
    Ok(Answer::Output(Vec::from_slice(alloc, text)?))
}

/// What is told of a request that was made or refused: itself as text, or the line of the refusal. Takes memory.
pub fn told(alloc: Global, made: Result<Request, SerdeError>) -> Result<Answer, JobError>
    ensures { (answer : Result Sent Fault) → Answers made answer → Gives (told answer) result }
{
    match made {
        Ok(request) => Ok(Answer::Output(shown(alloc, &request)?)),
        Err(refusal) => refused(alloc, &refusal),
    }
}

/// What is told of a refusal: its line. Want of memory is passed on. Takes memory.
pub fn refused(alloc: Global, refusal: &SerdeError) -> Result<Answer, JobError>
    ensures { TellsRefusal refusal.now result }
{
    if let SerdeError::OutOfMemory = refusal {
        return Err(JobError::OutOfMemory);
    }
    Ok(Answer::Fault(refusal_line(alloc, refusal)?))
}
