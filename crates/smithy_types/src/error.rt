// Refusals.
ghost use Rattle.std.specs.Prelude.{◌≡◌};
ghost use Rattle.smithy_types.specs.declared.error.DocumentError.TheVariants as document_error;
ghost use Rattle.smithy_types.specs.declared.error.TypesError.TheVariants as types_error;

use crate::text::Text;
use std::alloc::AllocFailed;

/// Memory was wanted and not there: the refusal of calls that have no other.
pub use std::alloc::AllocError as OutOfMemory;

/// Why a text or a point in time was refused.
#[derive(Clone, Copy, Debug, PartialEq, Eq)]
pub enum TypesError {
    /// The year is not 1 to 9999.
    DateRange,
    /// The text is not of the form.
    Malformed,
    /// The digits are too many for 128 bits.
    TooWide,
    /// Memory was wanted and not there.
    OutOfMemory,
}

impl From<OutOfMemory> for TypesError {
    ghost from_gives = { λ _ e. e ≡ types_error.OutOfMemory };

    fn from(_: OutOfMemory) -> TypesError {
        TypesError::OutOfMemory
    }
}

impl<T: Drop> From<AllocFailed<T>> for TypesError {
    ghost from_gives = { λ _ e. e ≡ types_error.OutOfMemory };

    fn from(_: AllocFailed<T>) -> TypesError {
        TypesError::OutOfMemory
    }
}

/// Why a document was refused where a value of a kind was wanted.
#[derive(Debug, Drop)]
pub enum DocumentError {
    /// A document of another kind was there.
    TypeMismatch { message: Text },
    /// A number is out of the range of its kind.
    NumericCoercionOverflow { target: Text, value: Text },
    /// A text is not of the form.
    InvalidInput { message: Text },
    /// The kind has no such value.
    UnsupportedOperation { message: Text },
    /// Another cause.
    Custom { message: Text },
    /// Memory was wanted and not there.
    OutOfMemory,
}

impl From<OutOfMemory> for DocumentError {
    ghost from_gives = { λ _ e. e ≡ document_error.OutOfMemory };

    fn from(_: OutOfMemory) -> DocumentError {
        DocumentError::OutOfMemory
    }
}

impl<T: Drop> From<AllocFailed<T>> for DocumentError {
    ghost from_gives = { λ _ e. e ≡ document_error.OutOfMemory };

    fn from(_: AllocFailed<T>) -> DocumentError {
        DocumentError::OutOfMemory
    }
}
