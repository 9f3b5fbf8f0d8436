// Refusals of readers.
ghost use Rattle.std.specs.Prelude.{◌≡◌};
ghost use Rattle.smithy_model.specs.Reads.{refusal_of_json};
ghost use Rattle.smithy_model.specs.declared.error.JobError.TheVariants as job_error;

use smithy_json::JsonError;
use std::alloc::{AllocError, AllocFailed};

/// Why a reader has no answer.
#[derive(Clone, Copy, Debug, PartialEq, Eq, Drop)]
pub enum JobError {
    /// What is read hasn't the form that is asked for.
    NoJob,
    /// Memory was wanted and not there.
    OutOfMemory,
}

impl From<AllocError> for JobError {
    ghost from_gives = { λ _ e. e ≡ job_error.OutOfMemory };

    fn from(_: AllocError) -> JobError {
        JobError::OutOfMemory
    }
}

impl<T: Drop> From<AllocFailed<T>> for JobError {
    ghost from_gives = { λ _ e. e ≡ job_error.OutOfMemory };

    fn from(_: AllocFailed<T>) -> JobError {
        JobError::OutOfMemory
    }
}

impl From<JsonError> for JobError {
    ghost from_gives = { λ e f. f ≡ refusal_of_json e };

    fn from(error: JsonError) -> JobError {
        match error {
            JsonError::Unreadable => JobError::NoJob,
            JsonError::OutOfMemory => JobError::OutOfMemory,
        }
    }
}
