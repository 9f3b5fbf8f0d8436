//! Laws of the definitions. The functions do no work: each has a law as its contract.

ghost use Rattle.smithy_binding.specs.Laws.{CheckedInputIff, CheckedOutputIff, BrokenInputIff, BrokenOutputIff, ConformingIsPlaced, HeadersStandOnce};

/// The test of an input schema passes exactly where each rule of a checked input schema holds.
pub fn checked_input_iff()
    ensures { CheckedInputIff }
{}

/// The test of an output schema passes exactly where each rule of a checked output schema holds.
pub fn checked_output_iff()
    ensures { CheckedOutputIff }
{}

/// An input schema breaks no rule exactly where its test passes.
pub fn broken_input_iff()
    ensures { BrokenInputIff }
{}

/// An output schema breaks no rule exactly where its test passes.
pub fn broken_output_iff()
    ensures { BrokenOutputIff }
{}

/// An input without a fault has a request, whatever the protocol and the default headers that are left out.
pub fn conforming_is_placed()
    ensures { ConformingIsPlaced }
{}

/// A placed request has each header name once (names have no case, and stand in lower case).
pub fn headers_stand_once()
    ensures { HeadersStandOnce }
{}
