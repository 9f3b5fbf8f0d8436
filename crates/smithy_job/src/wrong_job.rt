// The first place of a value that keeps it from being a job.
ghost use Rattle.std.specs.Prelude.{◌≡◌, option_map, IfOk};
ghost use Rattle.smithy_json.specs.views.JsonView.{view};
ghost use Rattle.smithy_model.specs.Wrong.{first_in};
ghost use Rattle.smithy_model.specs.views.WrongView.{Finds, wrong_view};
ghost use Rattle.smithy_job.specs.WrongJobs.{wrong_model_part, wrong_written_part, wrong_inputs_part, wrong_response_part, wrong_request_part, wrong_object, wrong_any_model, wrong_endpoint, wrong_policy, wrong_to, wrong_rpc_endpoint, wrong_part, or_whole, wrong_in_job};

use crate::gateway::sending_of;
use crate::job_kind::JobKind;
use crate::job_part::{JobPart, parts_of};
use crate::response::policy_given;
use crate::settings::{endpoint_of, rpc_endpoint_of};
use crate::wrong_input::{wrong_many, wrong_writes};
use crate::wrong_keys::{
    wrong_code, wrong_error, wrong_omit_of, wrong_operation_of, wrong_service_errors, wrong_status,
};
use crate::wrong_message::{wrong_request, wrong_response};
use crate::wrong_reach::{wrong_expected, wrong_operation_code, wrong_shapes};
use crate::wrong_responses::wrong_responses_part;
use crate::wrong_routing::wrong_operations;
use smithy_json::JsonValue;
use smithy_model::{
    Asked, Wrong, asked_at, asked_here, in_key, is_object, unless_at, unless_here, within,
    wrong_model,
};
use smithy_types::OutOfMemory;
use std::alloc::Global;

#[tactic(auto, unfolding(crate::specs::WrongJobs::wrong_model_part))]
fn wrong_model_part(alloc: Global, job: &JsonValue<'_>) -> Result<Option<Wrong>, OutOfMemory>
    ensures { Finds (wrong_model_part (view job.now)) result }
{
    match job.get("model") {
        Some(model) => in_key(alloc, "model", wrong_model(alloc, model)?),
        None => Ok(Some(asked_at(alloc, "model", "an object with `shapes` is asked")?)),
    }
}

// An input or an output.
#[tactic(auto, unfolding(crate::specs::WrongJobs::wrong_written_part))]
fn wrong_written_part(
    alloc: Global,
    key: &str,
    job: &JsonValue<'_>,
) -> Result<Option<Wrong>, OutOfMemory>
    ensures { Finds (wrong_written_part key.now (view job.now)) result }
{
    match job.get(key) {
        Some(value) => in_key(alloc, key, wrong_writes(alloc, value)?),
        None => Ok(Some(asked_at(
            alloc,
            key,
            "an object from names to values is asked, or an array of pairs",
        )?)),
    }
}

#[tactic(auto, unfolding(crate::specs::WrongJobs::wrong_inputs_part))]
fn wrong_inputs_part(alloc: Global, job: &JsonValue<'_>) -> Result<Option<Wrong>, OutOfMemory>
    ensures { Finds (wrong_inputs_part (view job.now)) result }
{
    match job.get("inputs") {
        Some(inputs) => in_key(alloc, "inputs", wrong_many(alloc, inputs)?),
        None => Ok(Some(asked_at(alloc, "inputs", "an array of inputs is asked")?)),
    }
}

#[tactic(auto, unfolding(crate::specs::WrongJobs::wrong_response_part))]
fn wrong_response_part(alloc: Global, job: &JsonValue<'_>) -> Result<Option<Wrong>, OutOfMemory>
    ensures { Finds (wrong_response_part (view job.now)) result }
{
    match job.get("response") {
        Some(response) => in_key(alloc, "response", wrong_response(alloc, response)?),
        None => Ok(Some(asked_at(alloc, "response", "an object with `status` is asked")?)),
    }
}

#[tactic(auto, unfolding(crate::specs::WrongJobs::wrong_request_part))]
fn wrong_request_part(alloc: Global, job: &JsonValue<'_>) -> Result<Option<Wrong>, OutOfMemory>
    ensures { Finds (wrong_request_part (view job.now)) result }
{
    match job.get("request") {
        Some(request) => in_key(alloc, "request", wrong_request(alloc, request)?),
        None => Ok(Some(asked_at(
            alloc,
            "request",
            "an object with `method` and `target` is asked",
        )?)),
    }
}

#[tactic(auto, unfolding(crate::specs::WrongJobs::wrong_object))]
fn wrong_object(alloc: Global, job: &JsonValue<'_>) -> Result<Option<Wrong>, OutOfMemory>
    ensures { Finds (wrong_object (view job.now)) result }
{
    unless_here(alloc, is_object(job), "an object is asked")
}

#[tactic(auto, unfolding(crate::specs::WrongJobs::wrong_any_model))]
fn wrong_any_model(alloc: Global, job: &JsonValue<'_>) -> Result<Option<Wrong>, OutOfMemory>
    ensures { Finds (wrong_any_model (view job.now)) result }
{
    let fits = job.get("model").is_some();
    unless_at(alloc, fits, "model", "an object with `shapes` is asked")
}

#[tactic(auto, unfolding(crate::specs::WrongJobs::wrong_endpoint))]
fn wrong_endpoint(alloc: Global, job: &JsonValue<'_>) -> Result<Option<Wrong>, OutOfMemory>
    ensures { Finds (wrong_endpoint (view job.now)) result }
{
    let fits = endpoint_of(job).is_some();
    unless_at(alloc, fits, "endpoint", "a text is asked")
}

#[tactic(auto, unfolding(crate::specs::WrongJobs::wrong_policy))]
fn wrong_policy(alloc: Global, job: &JsonValue<'_>) -> Result<Option<Wrong>, OutOfMemory>
    ensures { Finds (wrong_policy (view job.now)) result }
{
    let fits = policy_given(job.get("policy")).is_some();
    unless_at(alloc, fits, "policy", "`reject` or `skip` is asked")
}

#[tactic(auto, unfolding(crate::specs::WrongJobs::wrong_to))]
fn wrong_to(alloc: Global, job: &JsonValue<'_>) -> Result<Option<Wrong>, OutOfMemory>
    ensures { Finds (wrong_to (view job.now)) result }
{
    let fits = sending_of(job).is_some();
    unless_at(alloc, fits, "to", "`rpc` or `rest` is asked")
}

#[tactic(auto, unfolding(crate::specs::WrongJobs::wrong_rpc_endpoint))]
fn wrong_rpc_endpoint(alloc: Global, job: &JsonValue<'_>) -> Result<Option<Wrong>, OutOfMemory>
    ensures { Finds (wrong_rpc_endpoint (view job.now)) result }
{
    let fits = rpc_endpoint_of(job).is_some();
    unless_at(
        alloc,
        fits,
        "rpcEndpoint",
        "a legal target is asked, or the empty text",
    )
}

#[tactic(auto, unfolding(crate::specs::WrongJobs::wrong_part))]
fn wrong_part(
    alloc: Global,
    job: &JsonValue<'_>,
    part: JobPart,
) -> Result<Option<Wrong>, OutOfMemory>
    ensures { Finds (wrong_part (view job.now) part) result }
{
    match part {
        JobPart::Object => wrong_object(alloc, job),
        JobPart::Model => wrong_model_part(alloc, job),
        JobPart::AnyModel => wrong_any_model(alloc, job),
        JobPart::Operation => wrong_operation_of(alloc, job),
        JobPart::Input => wrong_written_part(alloc, "input", job),
        JobPart::Inputs => wrong_inputs_part(alloc, job),
        JobPart::Output => wrong_written_part(alloc, "output", job),
        JobPart::Status => wrong_status(alloc, job),
        JobPart::Endpoint => wrong_endpoint(alloc, job),
        JobPart::Omit => wrong_omit_of(alloc, job),
        JobPart::Response => wrong_response_part(alloc, job),
        JobPart::Responses => wrong_responses_part(alloc, job),
        JobPart::Error => wrong_error(alloc, job),
        JobPart::Code => wrong_code(alloc, job),
        JobPart::ServiceErrors => wrong_service_errors(alloc, job),
        JobPart::Policy => wrong_policy(alloc, job),
        JobPart::Request => wrong_request_part(alloc, job),
        JobPart::Operations => wrong_operations(alloc, job),
        JobPart::To => wrong_to(alloc, job),
        JobPart::RpcEndpoint => wrong_rpc_endpoint(alloc, job),
        JobPart::InputShapes => wrong_shapes(alloc, Asked::Input, job),
        JobPart::OutputShapes => wrong_shapes(alloc, Asked::Output, job),
        JobPart::ExpectedShapes => wrong_expected(alloc, job),
        JobPart::OperationCode => wrong_operation_code(alloc, job),
    }
}

// The first wrong place of these parts.
fn first_wrong(
    alloc: Global,
    job: &JsonValue<'_>,
    parts: &[JobPart],
) -> Result<Option<Wrong>, OutOfMemory>
    ensures { Finds (first_in (wrong_part (view job.now)) parts.now) result }
{
    for part in parts {
        if let Some(wrong) = wrong_part(alloc, job, *part)? {
            return Ok(Some(wrong));
        }
    }
    Ok(None)
}

// Where nothing was found, the job as a whole.
fn or_whole(alloc: Global, found: Option<Wrong>) -> Result<Wrong, OutOfMemory>
    ensures { IfOk result (λ w. wrong_view w ≡ or_whole (option_map wrong_view found)) }
{
    match found {
        Some(wrong) => Ok(wrong),
        None => asked_here(alloc, "a job of this command is asked"),
    }
}

/// The first place of a value whose form isn't that of a job of this command, and what is asked there: the parts in the order
/// in which docs/JOBS.md has them, keys before shapes. The way leads to a place of the value, or to a key that an object there
/// lacks. Of a job its answer says nothing. In time linear in the value up to the logarithm of a map, for `route` for each of
/// its operations. Takes memory.
#[tactic(auto, unfolding(crate::specs::WrongJobs::wrong_in_job))]
pub fn wrong_in_job(alloc: Global, kind: JobKind, job: &JsonValue<'_>) -> Result<Wrong, OutOfMemory>
    ensures { IfOk result (λ w. wrong_view w ≡ wrong_in_job kind (view job.now)) }
{
    let found = first_wrong(alloc, job, parts_of(kind))?;
    within(alloc, job, or_whole(alloc, found)?)
}
