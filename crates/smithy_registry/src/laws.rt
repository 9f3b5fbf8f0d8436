//! Laws of the definitions, each the contract of a function that does nothing.

ghost use Rattle.smithy_registry.specs.ErrorCodes.{LacksColons};

/// What is left of an error's code has no colon. It does no work.
pub fn sanitized_codes_have_no_colon()
    ensures { LacksColons }
{}
