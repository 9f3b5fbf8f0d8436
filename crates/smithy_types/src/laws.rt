//! Laws of this crate's definitions, each the contract of a function that does nothing and takes no memory.
ghost use Rattle.smithy_types.specs.TimestampReading.{IsTimestampReadBack};

/// What is written for a point in time, in each format and for each year that it has, is read as that point in time.
pub fn timestamps_are_read_back()
    ensures { IsTimestampReadBack }
{}
