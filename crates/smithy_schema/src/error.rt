// Refusals of a table.
use smithy_types::OutOfMemory;
use std::alloc::AllocFailed;

/// Why a table doesn't take a node.
#[derive(Clone, Copy, Debug, PartialEq, Eq, Drop)]
pub enum SchemaError {
    /// A member's index isn't its position among the members.
    Order,
    /// A member of a structure has no member index, or no node yet.
    NotMember,
    /// An index was never declared.
    Unknown,
    /// The index has a node already.
    Defined,
    OutOfMemory,
}

impl From<OutOfMemory> for SchemaError {
    ghost use Rattle.std.specs.Prelude.{◌≡◌};
    ghost use Rattle.smithy_schema.specs.declared.error.SchemaError.TheVariants as fault;

    ghost from_gives = { λ _ e. e ≡ fault.OutOfMemory };

    fn from(_: OutOfMemory) -> SchemaError {
        SchemaError::OutOfMemory
    }
}

impl<T: Drop> From<AllocFailed<T>> for SchemaError {
    ghost use Rattle.std.specs.Prelude.{◌≡◌};
    ghost use Rattle.smithy_schema.specs.declared.error.SchemaError.TheVariants as fault;

    ghost from_gives = { λ _ e. e ≡ fault.OutOfMemory };

    fn from(_: AllocFailed<T>) -> SchemaError {
        SchemaError::OutOfMemory
    }
}
