// Refusals.
ghost use Rattle.std.specs.Prelude.{◌≡◌};
ghost use Rattle.smithy_router.specs.declared.error.RouteError.TheVariants as fault;

use smithy_types::{OutOfMemory, Text};
use std::alloc::AllocFailed;

/// Why a route was refused.
#[derive(Debug, Drop)]
pub enum RouteError {
    /// The template has no route.
    Template,
    /// The route conflicts with that of this operation.
    Conflict { other: Text },
    /// Memory was wanted and not there.
    OutOfMemory,
}

impl From<OutOfMemory> for RouteError {
    ghost from_gives = { λ _ e. e ≡ fault.OutOfMemory };

    fn from(_: OutOfMemory) -> RouteError {
        RouteError::OutOfMemory
    }
}

impl<T: Drop> From<AllocFailed<T>> for RouteError {
    ghost from_gives = { λ _ e. e ≡ fault.OutOfMemory };

    fn from(_: AllocFailed<T>) -> RouteError {
        RouteError::OutOfMemory
    }
}
