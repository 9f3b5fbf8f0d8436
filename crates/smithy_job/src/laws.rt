//! Laws of this crate's definitions, each the contract of a function that does nothing and takes no memory.
ghost use Rattle.smithy_job.specs.WrongJobs.{WrongPlacesLead};

/// The place that is told of a value that is no job leads to a value in it, or to a key that an object there lacks.
pub fn wrong_places_lead()
    ensures { WrongPlacesLead }
{}
