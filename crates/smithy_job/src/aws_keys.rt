// The keys of a job that speak of a protocol of AWS.
ghost use Rattle.std.specs.Prelude.{◌≡◌, option_map};
ghost use Rattle.smithy_ids.specs.ShapeIdParts.{parts_of};
ghost use Rattle.smithy_json.specs.views.JsonView.{view};
ghost use Rattle.smithy_job.specs.AwsKeys.{call_by, call_in, fractions_given, fractions_named, is_query_compatible, json_call, protocol_in, protocol_named, query_trait, reading_in, shape_at};
ghost use Rattle.smithy_job.specs.views.AwsCallView.{call_seen, json_call_seen};
ghost use Rattle.smithy_job.specs.views.KeysView.{value_seen};

use crate::aws_call::{AwsCall, AwsJsonCall, AwsProtocol, AwsReading};
use crate::received::full_name;
use smithy_ids::ShapeId;
use smithy_json::JsonValue;

// The protocol by the full name of its trait.
fn protocol_named(name: &str) -> Option<AwsProtocol>
    ensures { result ≡ protocol_named name.now }
{
    match name {
        "aws.protocols#restJson1" => Some(AwsProtocol::RestJson1),
        "aws.protocols#awsJson1_0" => Some(AwsProtocol::AwsJson10),
        "aws.protocols#awsJson1_1" => Some(AwsProtocol::AwsJson11),
        _ => None,
    }
}

fn protocol_of(protocol: &JsonValue<'_>) -> Option<AwsProtocol>
    ensures { result ≡ protocol_in (view protocol.now) }
{
    protocol_named(protocol.as_str()?)
}

// The value of the trait `awsQueryCompatible` of a shape of the job's model.
fn query_trait<'v, 't>(service: &str, job: &'v JsonValue<'t>) -> Option<&'v JsonValue<'t>>
    ensures { value_seen result ≡ query_trait service.now (view job.now) }
{
    let shapes = job.get("model")?.get("shapes")?;
    let traits = shapes.get(service)?.get("traits")?;
    traits.get("aws.protocols#awsQueryCompatible")
}

fn is_query_compatible(service: &str, job: &JsonValue<'_>) -> bool
    ensures { result ≡ is_query_compatible service.now (view job.now) }
{
    query_trait(service, job).is_some()
}

// The shape whose full name stands under a key.
fn shape_at<'t>(key: &str, job: &JsonValue<'t>) -> Option<ShapeId<'t>>
    ensures { option_map parts_of result ≡ shape_at key.now (view job.now) }
{
    ShapeId::parse(full_name(job.get(key)?)?)
}

fn json_call<'t>(job: &JsonValue<'t>) -> Option<AwsJsonCall<'t>>
    ensures { option_map json_call_seen result ≡ json_call (view job.now) }
{
    let service = shape_at("service", job)?;
    let operation = shape_at("operation", job)?;
    Some(AwsJsonCall {
        service,
        operation,
        is_query_compatible: is_query_compatible(service.as_str(), job),
    })
}

fn call_by<'t>(protocol: AwsProtocol, job: &JsonValue<'t>) -> Option<AwsCall<'t>>
    ensures { option_map call_seen result ≡ call_by protocol (view job.now) }
{
    match protocol {
        AwsProtocol::RestJson1 => Some(AwsCall::RestJson1),
        AwsProtocol::AwsJson10 => Some(AwsCall::AwsJson10(json_call(job)?)),
        AwsProtocol::AwsJson11 => Some(AwsCall::AwsJson11(json_call(job)?)),
    }
}

/// How a job's input is sent by the protocol that a value names; one of AWS JSON asks the full name of the service under `service`,
/// whose shape need not be in the model. None where a value hasn't the form of these. Takes no memory.
#[tactic(auto, unfolding(crate::specs::AwsKeys::call_in))]
pub fn aws_call_of<'t>(protocol: &JsonValue<'_>, job: &JsonValue<'t>) -> Option<AwsCall<'t>>
    ensures { option_map call_seen result ≡ call_in (view protocol.now) (view job.now) }
{
    call_by(protocol_of(protocol)?, job)
}

// Whether fractions of seconds are dropped.
fn fractions_named(name: &str) -> Option<bool>
    ensures { result ≡ fractions_named name.now }
{
    match name {
        "refuse" => Some(false),
        "floor" => Some(true),
        _ => None,
    }
}

// The same, and no where nothing is said.
fn fractions_given(fractions: Option<&JsonValue<'_>>) -> Option<bool>
    ensures { result ≡ fractions_given (value_seen fractions.entry) }
{
    match fractions {
        Some(fractions) => fractions_named(fractions.as_str()?),
        None => Some(false),
    }
}

/// How a job's response is read by the protocol that a value names, with what it says of fractions of seconds under `fractions`. None
/// where a value hasn't the form of these. Takes no memory.
#[tactic(auto, unfolding(crate::specs::AwsKeys::reading_in))]
pub fn aws_reading_of(protocol: &JsonValue<'_>, job: &JsonValue<'_>) -> Option<AwsReading>
    ensures { result ≡ reading_in (view protocol.now) (view job.now) }
{
    let protocol = protocol_of(protocol)?;
    let floors_times = fractions_given(job.get("fractions"))?;
    Some(AwsReading {
        protocol,
        floors_times,
    })
}
