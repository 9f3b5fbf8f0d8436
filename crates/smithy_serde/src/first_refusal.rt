// The first refusal of a serializer.
use crate::error::SerdeError;
use std::alloc::Global;
use std::marker::Model;

/// Keeps the first refusal of a serializer, which answers it at each later call. It is seen as that refusal, None where
/// there was none.
#[derive(Drop)]
pub struct FirstRefusal {
    alloc: Global,
    kept: Option<SerdeError>,
}

impl Model for FirstRefusal {
    ghost use Rattle.std.specs.Prelude.{Option};
    ghost use Rattle.smithy_serde.specs.declared.error.SerdeError.{SerdeError};

    ghost Value = { Option SerdeError };

    ghost view = { λ r. r.kept };
}

impl FirstRefusal {
    ghost use Rattle.std.specs.Prelude.{◌≡◌, None, Some, Err, is_some};
    ghost use Rattle.smithy_serde.specs.Refusals.{IsAgain, IsFirstAnswer};

    /// No refusal. Takes no memory.
    pub fn new(alloc: Global) -> FirstRefusal
        ensures { result ≡ None }
    {
        FirstRefusal { alloc, kept: None }
    }

    /// The answer of a later call: Ok where no refusal is kept, and else a copy of the kept one, or `OutOfMemory` where there is
    /// no memory for the copy.
    #[inline(always)]
    pub fn again(&self) -> Result<(), SerdeError>
        ensures { IsAgain self.now result }
    {
        match &self.kept {
            None => Ok(()),
            Some(first) => self.answered(first),
        }
    }

    // A copy of a refusal, or `OutOfMemory` where there is no memory for it.
    #[inline(never)]
    fn answered(&self, first: &SerdeError) -> Result<(), SerdeError>
        ensures { IsAgain (Some first.now) result }
    {
        match first.copy(self.alloc) {
            Ok(error) => Err(error),
            Err(_) => Err(SerdeError::OutOfMemory),
        }
    }

    /// The refusal that is kept, None where there is none. Takes no memory.
    pub fn into_kept(self) -> Option<SerdeError>
        ensures { result ≡ self }
    {
        self.kept
    }

    /// Hands on what was tried, and keeps a copy of its refusal; where there is no memory for the copy, `OutOfMemory` is kept
    /// and answered. Condition: no refusal is kept.
    #[inline(always)]
    pub fn keep<T>(&mut self, tried: Result<T, SerdeError>) -> Result<T, SerdeError>
        requires { self.old ≡ None }
        ensures { IsFirstAnswer tried result self.new }
    {
        match tried {
            Ok(value) => Ok(value),
            Err(error) => self.refused(error),
        }
    }

    /// Whether a refusal is kept.
    pub fn is_kept(&self) -> bool
        ensures { result ≡ is_some self.now }
    {
        self.kept.is_some()
    }

    /// Answers a refusal, and keeps a copy of it; where there is no memory for the copy, `OutOfMemory` is kept and answered.
    /// Condition: no refusal is kept.
    #[inline(never)]
    pub fn refused<T>(&mut self, error: SerdeError) -> Result<T, SerdeError>
        requires { self.old ≡ None }
        ensures { IsFirstAnswer (Err error) result self.new }
    {
        match error.copy(self.alloc) {
            Ok(copy) => {
                self.kept = Some(copy);
                Err(error)
            }
            Err(_) => {
                self.kept = Some(SerdeError::OutOfMemory);
                Err(SerdeError::OutOfMemory)
            }
        }
    }
}
