// How a command ends.
ghost use Rattle.std.specs.Prelude.{◌≡◌, []};
ghost use Rattle.smithy_bind.specs.Ends.{code_of, status_of, EndsAs};
ghost use Rattle.smithy_bind.specs.Told.{Outcome};
ghost use Rattle.smithy_bind.specs.views.AnswerView.{Gives};

use crate::told::Answer;
use smithy_model::JobError;
use std::alloc::Global;

/// How a run ends.
#[derive(Clone, Copy, Debug, PartialEq, Eq, Drop)]
pub enum Status {
    /// The output was written.
    Done,
    /// The words are no command.
    Usage,
    /// The bytes are no job, or no request can be placed, or no response read, by its schema.
    Job,
    /// A fault was told.
    Fault,
    /// The source failed.
    Read,
    /// The sink failed.
    Write,
    /// Memory was wanted and not there.
    Memory,
    /// The source has more than 16,777,216 bytes.
    TooLong,
}

impl Status {
    /// The exit status of a program, from 0 to 7 in the order above.
    pub fn code(self) -> u8
        ensures { result ≡ code_of self }
    {
        match self {
            Status::Done => 0,
            Status::Usage => 1,
            Status::Job => 2,
            Status::Fault => 3,
            Status::Read => 4,
            Status::Write => 5,
            Status::Memory => 6,
            Status::TooLong => 7,
        }
    }
}

/// How a command ends, and what it writes.
#[derive(Drop)]
pub struct Ended {
    /// One of the ends of `run`; over bytes that are at hand none of `Usage`, `Read` and `Write`.
    pub status: Status,
    /// The bytes of the output or of the line of a fault, and none at every other end.
    pub text: Vec<u8>,
}

impl Ended {
    /// An end at which nothing is written. Takes no memory.
    pub(crate) fn silent(alloc: Global, status: Status) -> Ended
        ensures status { result.status ≡ status }
        ensures text { result.text.items ≡ [] }
    {
        Ended {
            status,
            text: Vec::new(alloc),
        }
    }

    /// The end of what was answered. Takes no memory.
    pub(crate) fn of(alloc: Global, answer: Result<Answer, JobError>) -> Ended
        ensures { (told : Outcome) → Gives told answer → EndsAs (status_of told) told result }
    {
        match answer {
            Ok(Answer::Fault(text)) => Ended {
                status: Status::Fault,
                text,
            },
            Ok(Answer::Output(text)) => Ended {
                status: Status::Done,
                text,
            },
            Err(JobError::NoJob) => Ended::silent(alloc, Status::Job),
            Err(JobError::OutOfMemory) => Ended::silent(alloc, Status::Memory),
        }
    }
}
