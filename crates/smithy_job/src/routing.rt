// The job of a request whose operation is to be found.
ghost use Rattle.std.specs.Prelude.{◌≡◌, option_and_then};
ghost use Rattle.smithy_json.specs.views.JsonView.{view};
ghost use Rattle.smithy_job.specs.Routing.{operations_given, routing};
ghost use Rattle.smithy_job.specs.views.RoutingView.{all_named, NamesRouting};

use crate::named_operations::{NamedOperations, named_in};
use crate::request::request_of;
use crate::settings::omit_of;
use smithy_http::Request;
use smithy_json::JsonValue;
use smithy_model::{JobError, items_of};
use smithy_serde::OmitFlags;
use std::alloc::Global;

/// A request, and the names of the operations of which it may be one's.
#[derive(Drop)]
pub struct NamedRouting<'v, 't> {
    pub operations: NamedOperations<'v, 't>,
    pub request: Request,
    pub omit: OmitFlags,
}

// The operations that a job names in its model.
fn operations_of<'v, 't>(job: &'v JsonValue<'t>) -> Option<NamedOperations<'v, 't>>
    ensures { option_and_then all_named result ≡ operations_given (view job.now) }
{
    let model = job.get("model")?;
    let names = items_of(job.get("operations")?)?;
    Some(named_in(model, names))
}

/// The job of a request and many operations that a JSON value is, where each of the operations is one. None of them is read, so
/// that no more than one need be held at a time. Takes memory for the request. What hasn't its form is no job.
#[tactic(auto, unfolding(crate::specs::Routing::routing))]
pub fn read_named_routing<'v, 't>(
    alloc: Global,
    job: &'v JsonValue<'t>,
) -> Result<NamedRouting<'v, 't>, JobError>
    ensures { NamesRouting (routing (view job.now)) result }
{
    let request = request_of(alloc, job)?;
    let Some(omit) = omit_of(job) else {
        return Err(JobError::NoJob);
    };
    let Some(operations) = operations_of(job) else {
        return Err(JobError::NoJob);
    };
    Ok(NamedRouting {
        operations,
        request,
        omit,
    })
}
