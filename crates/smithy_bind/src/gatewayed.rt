// The command `gateway`: the request of the same input on the other side.
ghost use Rattle.std.specs.Prelude.{IsTrue, Option};
ghost use Rattle.smithy_json.specs.JsonView.{view};
ghost use Rattle.smithy_http.specs.Requests.{Request as Sent};
ghost use Rattle.smithy_serde.specs.StoredValues.{HasNode};
ghost use Rattle.smithy_recovery.specs.Recovering.{IsCheckedAt};
ghost use Rattle.smithy_recovery.specs.Finding.{Finds};
ghost use Rattle.smithy_job.specs.Settings.{is_rpc_endpoint};
ghost use Rattle.smithy_bind.specs.Gateway.{shown_request};
ghost use Rattle.smithy_bind.specs.Outcome.{gatewayed_to};
ghost use Rattle.smithy_bind.specs.views.AnswerView.{Gives};
ghost use Rattle.smithy_bind.specs.views.GatewayView.{FindsSent, TellsSent};

use crate::json_value::json_codec;
use crate::recovered::not_placed;
use crate::shown::shown;
use crate::told::Answer;
use smithy_binding::{HttpBindingProtocol, HttpRpcProtocol, checked_input};
use smithy_gateway::{GatewayError, to_rest, to_rpc};
use smithy_http::Request;
use smithy_job::{Gateway, Sending, read_gateway};
use smithy_json::JsonValue;
use smithy_model::JobError;
use smithy_schema::laws::schema_is_well_made;
use std::alloc::Global;

/// What is to be told of the request that a JSON value has, where it is sent on, with bodies of JSON (AWS restJson1). Takes memory.
/// No job where it is none, or where no request can be placed by its schema.
#[tactic(auto, unfolding(crate::specs::Outcome::gatewayed_to))]
pub fn gatewayed(alloc: Global, value: &JsonValue<'_>) -> Result<Answer, JobError>
    ensures { Gives (gatewayed_to (view value.now)) result }
{
    let job = read_gateway(alloc, value)?;
    job_told(alloc, &job)
}

// What is to be told of a job's request. No job where no request can be placed by its schema.
#[tactic(auto, unfolding(crate::specs::Gateway::gatewayed_by))]
fn job_told(alloc: Global, job: &Gateway<'_>) -> Result<Answer, JobError>
    requires node { HasNode job.now.recovering.table job.now.recovering.index.0 }
    requires target { IsTrue (is_rpc_endpoint job.now.rpc_endpoint.now) }
    ensures { TellsSent job.now result }
{
    let Some(schema) = job.recovering.table.get(job.recovering.index) else {
        unreachable!()
    };
    if !checked_input(alloc, schema)? {
        return Err(JobError::NoJob);
    }
    request_told(alloc, sent_on(alloc, job))
}

// The request that a job's request is sent on as.
fn sent_on(alloc: Global, job: &Gateway<'_>) -> Result<Request, GatewayError>
    requires node { HasNode job.now.recovering.table job.now.recovering.index.0 }
    requires checked { IsCheckedAt job.now.recovering.table job.now.recovering.index.0 }
    requires target { IsTrue (is_rpc_endpoint job.now.rpc_endpoint.now) }
    ensures { FindsSent job.now.to job.now result }
{
    match job.to {
        Sending::Rest => sent_to_rest(alloc, job),
        Sending::Rpc => sent_to_rpc(alloc, job),
    }
}

// The request by the bindings of its schema of the input that a call posts.
fn sent_to_rest(alloc: Global, job: &Gateway<'_>) -> Result<Request, GatewayError>
    requires node { HasNode job.now.recovering.table job.now.recovering.index.0 }
    requires checked { IsCheckedAt job.now.recovering.table job.now.recovering.index.0 }
    ensures { FindsSent Sending.Rest job.now result }
{
    let from = &job.recovering;
    let Some(schema) = from.table.get(from.index) else {
        unreachable!()
    };
    schema_is_well_made(schema);
    let rest = HttpBindingProtocol::rest_json(json_codec());
    let rpc = HttpRpcProtocol::aws_json(json_codec());
    to_rest(
        alloc,
        &rest,
        &rpc,
        &from.request,
        &from.table,
        from.index,
        from.endpoint,
        from.omit,
    )
}

// The call of the input that a request is of.
#[tactic(auto, using(crate::proofs::GatewayLemmas::target_is_legal))]
fn sent_to_rpc(alloc: Global, job: &Gateway<'_>) -> Result<Request, GatewayError>
    requires node { HasNode job.now.recovering.table job.now.recovering.index.0 }
    requires checked { IsCheckedAt job.now.recovering.table job.now.recovering.index.0 }
    requires target { IsTrue (is_rpc_endpoint job.now.rpc_endpoint.now) }
    ensures { FindsSent Sending.Rpc job.now result }
{
    let from = &job.recovering;
    let Some(schema) = from.table.get(from.index) else {
        unreachable!()
    };
    schema_is_well_made(schema);
    let rest = HttpBindingProtocol::rest_json(json_codec());
    let rpc = HttpRpcProtocol::aws_json(json_codec());
    to_rpc(
        alloc,
        &rest,
        &rpc,
        &from.request,
        &from.table,
        from.index,
        from.endpoint,
        from.omit,
        job.rpc_endpoint,
        from.omit,
    )
}

// What is told of a request that was sent on, or of one that no typed input has. Takes memory.
fn request_told(alloc: Global, sent: Result<Request, GatewayError>) -> Result<Answer, JobError>
    ensures { (is : Option Sent) → Finds (λ x. x) sent is → Gives (shown_request is) result }
{
    match sent {
        Ok(request) => Ok(Answer::Output(shown(alloc, &request)?)),
        Err(GatewayError::NotPlaced) => not_placed(alloc),
        Err(GatewayError::OutOfMemory) => Err(JobError::OutOfMemory),
    }
}
