// The refusals of the way back.
ghost use Rattle.std.specs.Prelude.{◌≡◌};
ghost use Rattle.smithy_recovery.specs.declared.error.RecoverError.TheVariants as recover_error;

use smithy_serde::SerdeError;
use smithy_types::OutOfMemory;
use std::alloc::AllocFailed;
use std::error::Error;
use std::fmt;

/// Why a request has no input that was recovered.
#[derive(Clone, Copy, Debug, PartialEq, Eq, Drop)]
pub enum RecoverError {
    /// No typed input has a request with these facts.
    NotPlaced,
    /// Memory was wanted and not there.
    OutOfMemory,
}

impl RecoverError {
    ghost use Rattle.smithy_recovery.specs.Finding.{refusal_text};

    // What is wrong, in words.
    fn text(self) -> &'static str
        ensures { result.now ≡ refusal_text self }
    {
        match self {
            RecoverError::NotPlaced => "no typed input has this request",
            RecoverError::OutOfMemory => "out of memory",
        }
    }
}

impl Error for RecoverError {}

impl fmt::Display for RecoverError {
    ghost use Rattle.std.specs.Prelude.{Some};
    ghost use Rattle.smithy_recovery.specs.Finding.{refusal_text};

    ghost output = { λ e. Some (refusal_text e) };

    fn fmt<W: fmt::Write>(&self, f: &mut fmt::Formatter<W>) -> fmt::Result {
        f.write_str(self.text())
    }
}

impl From<OutOfMemory> for RecoverError {
    ghost from_gives = { λ _ e. e ≡ recover_error.OutOfMemory };

    fn from(_: OutOfMemory) -> RecoverError {
        RecoverError::OutOfMemory
    }
}

impl<T: Drop> From<AllocFailed<T>> for RecoverError {
    ghost from_gives = { λ _ e. e ≡ recover_error.OutOfMemory };

    fn from(_: AllocFailed<T>) -> RecoverError {
        RecoverError::OutOfMemory
    }
}

impl From<SerdeError> for RecoverError {
    ghost use Rattle.smithy_recovery.specs.Finding.{refusal_of};

    ghost from_gives = { λ error e. e ≡ refusal_of error };

    // Want of memory stays one, and any other refusal says that there is no such input.
    fn from(error: SerdeError) -> RecoverError {
        match error {
            SerdeError::OutOfMemory => RecoverError::OutOfMemory,
            _ => RecoverError::NotPlaced,
        }
    }
}
