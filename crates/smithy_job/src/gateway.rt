// The job of a request that is sent on: from the bindings of its schema to a remote procedure call, or back.
ghost use Rattle.std.specs.Prelude.{◌≡◌};
ghost use Rattle.smithy_json.specs.views.JsonView.{view};
ghost use Rattle.smithy_job.specs.Gateway.{sending_named, sending, gateway};
ghost use Rattle.smithy_job.specs.views.GatewayView.{IsGateway};
ghost use Rattle.smithy_job.specs.views.Tables.{ReadsAs};

use crate::recovering::{Recovering, read_recovering};
use crate::settings::rpc_endpoint_of;
use smithy_json::JsonValue;
use smithy_model::{JobError, text_of};
use std::alloc::Global;

/// How an input is sent.
#[derive(Clone, Copy, Debug, PartialEq, Eq, Drop)]
pub enum Sending {
    /// Placed by the bindings of its schema (AWS restJson1).
    Rest,
    /// Posted whole, whatever its schema.
    Rpc,
}

/// A request, and how the input that has it is sent on.
#[derive(Drop)]
pub struct Gateway<'t> {
    /// The request, by its schema, and what is left out on either side. Its endpoint is that of requests by bindings.
    pub recovering: Recovering<'t>,
    /// How the input is sent on; the request came in the other way.
    pub to: Sending,
    /// The target of a call, empty or a legal one (RFC 7230, section 5.3).
    pub rpc_endpoint: &'t str,
}

fn sending_named(name: &str) -> Option<Sending>
    ensures { result ≡ sending_named name.now }
{
    match name {
        "rest" => Some(Sending::Rest),
        "rpc" => Some(Sending::Rpc),
        _ => None,
    }
}

/// How the input is sent on. None where it isn't said. Takes no memory.
pub fn sending_of(job: &JsonValue<'_>) -> Option<Sending>
    ensures { result ≡ sending (view job.now) }
{
    sending_named(text_of(job, "to")?)
}

/// The job of a request that is sent on that a JSON value is. Takes memory. What hasn't the form of one is no job.
#[tactic(auto, unfolding(crate::specs::Gateway::gateway))]
pub fn read_gateway<'t>(alloc: Global, job: &JsonValue<'t>) -> Result<Gateway<'t>, JobError>
    ensures { ReadsAs IsGateway (gateway (view job.now)) result }
{
    let Some(to) = sending_of(job) else {
        return Err(JobError::NoJob);
    };
    let Some(rpc_endpoint) = rpc_endpoint_of(job) else {
        return Err(JobError::NoJob);
    };
    let recovering = read_recovering(alloc, job)?;
    Ok(Gateway {
        recovering,
        to,
        rpc_endpoint,
    })
}
