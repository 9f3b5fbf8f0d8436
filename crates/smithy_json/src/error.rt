// Refusals of readers.
ghost use Rattle.std.specs.Prelude.{◌≡◌};
ghost use Rattle.smithy_json.specs.declared.error.JsonError.TheVariants as json_error;

use json::Invalid;
use smithy_types::OutOfMemory;
use std::alloc::AllocFailed;

/// Why a text or a value can't be read.
#[derive(Clone, Copy, Debug, PartialEq, Eq, Drop)]
pub enum JsonError {
    /// The text is no JSON in UTF-8, or a document is asked of what has a float in it.
    Unreadable,
    /// Memory was wanted and not there.
    OutOfMemory,
}

impl From<OutOfMemory> for JsonError {
    ghost from_gives = { λ _ e. e ≡ json_error.OutOfMemory };

    fn from(_: OutOfMemory) -> JsonError {
        JsonError::OutOfMemory
    }
}

impl<T: Drop> From<AllocFailed<T>> for JsonError {
    ghost from_gives = { λ _ e. e ≡ json_error.OutOfMemory };

    fn from(_: AllocFailed<T>) -> JsonError {
        JsonError::OutOfMemory
    }
}

impl From<Invalid> for JsonError {
    ghost from_gives = { λ _ e. e ≡ json_error.Unreadable };

    fn from(_: Invalid) -> JsonError {
        JsonError::Unreadable
    }
}
