// The command `explain`: whether bytes are the job of a command, or why they are none.
ghost use Rattle.std.specs.Prelude.{◌≡◌, [], map, option_map, IfOk};
ghost use Rattle.smithy_json.specs.JsonView.{view};
ghost use Rattle.smithy_serde.specs.StoredValues.{HasNode};
ghost use Rattle.smithy_binding.specs.Broken.{broken_input, broken_output};
ghost use Rattle.smithy_binding.specs.views.Breaking.{broken_of, broken_shown};
ghost use Rattle.smithy_job.specs.KeysView.{keys_seen};
ghost use Rattle.smithy_job.specs.RoutingView.{all_named, operation_seen};
ghost use Rattle.smithy_job.specs.WrongJobs.{wrong_in_job};
ghost use Rattle.smithy_job.specs.declared.job_kind.JobKind.TheVariants as kind_of;
ghost use Rattle.smithy_bind.specs.Explaining.{broken_operation, in_owner, line_at, line_of_value, not_checked, not_job, not_json, only, by_job, by_response, rule_among, rule_in, rule_of_items};
ghost use Rattle.smithy_bind.specs.Outcome.{unread};
ghost use Rattle.smithy_bind.specs.Told.{output};
ghost use Rattle.smithy_bind.specs.views.AnswerView.{outcome_view, Gives};
ghost use Rattle.smithy_bind.specs.views.CodedView.{Stand};
ghost use Rattle.smithy_bind.specs.views.ExplainingView.{line_of_broken, told_broken, told_or, told_rule, told_seen, with_broken, FindsCodedRule, FindsExpectedRule, FindsRule, TellsBroken, TellsItem, TellsRule};
ghost use Rattle.smithy_bind.specs.views.ReplyView.{IsExpectable};

use crate::coded::error_of_code;
use crate::command::Command;
use crate::told::{Answer, said};
use smithy_binding::{BrokenRule, broken_input_rule, broken_output_rule};
use smithy_job::{
    CodedError, Expected, JobKind, Keys, NamedOperations, Operation, read_answering, read_gateway,
    read_job, read_named_routing, read_received, read_received_by, read_recovering, read_whole,
    responses_of, wrong_in_job,
};
use smithy_json::{JsonValue, json_end};
use smithy_model::{JobError, pointer_of};
use smithy_schema::{SchemaIndex, Schemas};
use smithy_types::OutOfMemory;
use std::alloc::{AllocError, Global};

// The line of a job.
const JOB: &str = "Job\n";

/// What is told of the JSON value of bytes that are to be a job of this kind. Takes memory.
#[tactic(auto, using(crate::proofs::ExplainLemmas::line_told, crate::proofs::ExplainLemmas::wrong_line_told))]
pub fn explained(alloc: Global, kind: JobKind, value: &JsonValue<'_>) -> Result<Answer, JobError>
    ensures { Gives (output (line_of_value kind (view value.now))) result }
{
    match rule_told(alloc, kind, value) {
        Ok(told) => Ok(told),
        Err(JobError::NoJob) => wrong_told(alloc, kind, value),
        Err(JobError::OutOfMemory) => Err(JobError::OutOfMemory),
    }
}

/// What a command answers to bytes that are no JSON. Takes memory. No job, but for `explain`, which tells that.
pub fn unread(alloc: Global, command: Command, bytes: &[u8]) -> Result<Answer, JobError>
    ensures { Gives (unread command bytes.now) result }
{
    match command {
        Command::Explain(_) => not_json(alloc, bytes),
        _ => Err(JobError::NoJob),
    }
}

// The line of bytes that are no JSON.
fn not_json(alloc: Global, bytes: &[u8]) -> Result<Answer, JobError>
    ensures { Gives (output (not_json bytes.now)) result }
{
    let end = json_end(alloc, bytes)?;
    let line = format!(in alloc; "NotJson: byte {end}\n")?;
    Ok(Answer::Output(line.into_bytes()))
}

// The line of a value that has not the form of the job.
fn wrong_told(alloc: Global, kind: JobKind, value: &JsonValue<'_>) -> Result<Answer, JobError>
    ensures { Gives (output (not_job (wrong_in_job kind (view value.now)))) result }
{
    let wrong = wrong_in_job(alloc, kind, value)?;
    let pointer = pointer_of(alloc, &wrong)?;
    Ok(Answer::Output(wrong_line(alloc, pointer.as_slice(), wrong.asked.as_str())?))
}

// The line of a place, by its pointer, and of what is asked there.
fn wrong_line(alloc: Global, pointer: &[u8], asked: &str) -> Result<Vec<u8>, AllocError>
    ensures { IfOk result (λ v. v.items ≡ line_at pointer.now asked.now) }
{
    let mut line = Vec::from_slice(alloc, b"NoJob: ")?;
    line.extend_from_slice(pointer)?;
    line.extend_from_slice(b": ")?;
    line.extend_from_slice(asked.as_bytes())?;
    line.push(b'\n')?;
    Ok(line)
}

// What is told of a job of this kind, by its schema. No job where the value is none.
fn rule_told(alloc: Global, kind: JobKind, value: &JsonValue<'_>) -> Result<Answer, JobError>
    ensures { TellsRule (rule_in kind (view value.now)) result }
{
    match kind {
        JobKind::Request => request_told(alloc, value),
        JobKind::Requests => requests_told(alloc, value),
        JobKind::Rpc => call_told(alloc, value),
        JobKind::Response => response_told(alloc, value),
        JobKind::Responses => responses_told(alloc, value),
        JobKind::Recover => recovering_told(alloc, value),
        JobKind::Route => routing_told(alloc, value),
        JobKind::Gateway => gateway_told(alloc, value),
        JobKind::Answer => answering_told(alloc, value),
    }
}

// What is told of the jobs of the commands, each by its schema.

fn request_told(alloc: Global, value: &JsonValue<'_>) -> Result<Answer, JobError>
    ensures { TellsRule (rule_in kind_of.Request (view value.now)) result }
{
    let job = read_job(alloc, value)?;
    input_told(alloc, &job.table, job.index)
}

fn requests_told(alloc: Global, value: &JsonValue<'_>) -> Result<Answer, JobError>
    ensures { TellsRule (rule_in kind_of.Requests (view value.now)) result }
{
    let common = read_whole(alloc, value)?;
    input_told(alloc, &common.model.table, common.model.index)
}

fn call_told(alloc: Global, value: &JsonValue<'_>) -> Result<Answer, JobError>
    ensures { TellsRule (rule_in kind_of.Rpc (view value.now)) result }
{
    let _job = read_job(alloc, value)?;
    said(alloc, JOB.as_bytes())
}

fn response_told(alloc: Global, value: &JsonValue<'_>) -> Result<Answer, JobError>
    ensures { TellsRule (rule_in kind_of.Response (view value.now)) result }
{
    let received = read_received(alloc, value)?;
    broken_told(
        alloc,
        expected_rule(alloc, &received.table, &received.expected)?,
    )
}

fn responses_told(alloc: Global, value: &JsonValue<'_>) -> Result<Answer, JobError>
    ensures { TellsRule (rule_in kind_of.Responses (view value.now)) result }
{
    match responses_of(value) {
        Some(items) => items_told(alloc, value, items),
        None => Err(JobError::NoJob),
    }
}

fn recovering_told(alloc: Global, value: &JsonValue<'_>) -> Result<Answer, JobError>
    ensures { TellsRule (rule_in kind_of.Recover (view value.now)) result }
{
    let job = read_recovering(alloc, value)?;
    input_told(alloc, &job.table, job.index)
}

fn routing_told(alloc: Global, value: &JsonValue<'_>) -> Result<Answer, JobError>
    ensures { TellsRule (rule_in kind_of.Route (view value.now)) result }
{
    let job = read_named_routing(alloc, value)?;
    operations_told(alloc, &job.operations)
}

fn gateway_told(alloc: Global, value: &JsonValue<'_>) -> Result<Answer, JobError>
    ensures { TellsRule (rule_in kind_of.Gateway (view value.now)) result }
{
    let job = read_gateway(alloc, value)?;
    input_told(alloc, &job.recovering.table, job.recovering.index)
}

fn answering_told(alloc: Global, value: &JsonValue<'_>) -> Result<Answer, JobError>
    ensures { TellsRule (rule_in kind_of.Answer (view value.now)) result }
{
    let job = read_answering(alloc, value)?;
    output_told(alloc, &job.output.table, job.output.index)
}

// What is told of an input by the schema at a place.
fn input_told(alloc: Global, table: &Schemas, place: SchemaIndex) -> Result<Answer, JobError>
    requires { HasNode table.now place.0 }
    ensures { TellsBroken broken_input table.now place.0 result }
{
    let Some(schema) = table.get(place) else {
        unreachable!()
    };
    broken_told(alloc, broken_input_rule(alloc, schema)?)
}

// What is told of an output or an error by the schema at a place.
fn output_told(alloc: Global, table: &Schemas, place: SchemaIndex) -> Result<Answer, JobError>
    requires { HasNode table.now place.0 }
    ensures { TellsBroken broken_output table.now place.0 result }
{
    broken_told(alloc, output_rule(alloc, table, place)?)
}

// What is told of the responses of a job, by the first that is no job of one, or whose schema isn't checked.
fn items_told<'v, 't>(
    alloc: Global,
    job: &'v JsonValue<'t>,
    items: &'v [JsonValue<'t>],
) -> Result<Answer, JobError>
    ensures { TellsRule (rule_of_items (view job.now) 0 (map view items.now)) result }
{
    for (position, item) in items.iter().enumerate() {
        if let Some(told) = item_told(alloc, &Keys::among(job, item), position)? {
            return Ok(told);
        }
    }
    said(alloc, JOB.as_bytes())
}

// What is told of a response of many, where its schema isn't checked. No job where there is none under the keys.
fn item_told(
    alloc: Global,
    keys: &Keys<'_, '_>,
    position: usize,
) -> Result<Option<Answer>, JobError>
    ensures { TellsItem (rule_among position (keys_seen keys.now)) result }
{
    let received = read_received_by(alloc, keys)?;
    match expected_rule(alloc, &received.table, &received.expected)? {
        Some(broken) => Ok(Some(response_not_checked(alloc, position, &broken)?)),
        None => Ok(None),
    }
}

// The first broken rule of the schema at a place.
fn output_rule<'s>(
    alloc: Global,
    table: &'s Schemas,
    place: SchemaIndex,
) -> Result<Option<BrokenRule<'s>>, JobError>
    requires { HasNode table.now place.0 }
    ensures { FindsRule table.now place.0 result }
{
    let Some(schema) = table.get(place) else {
        unreachable!()
    };
    Ok(broken_output_rule(alloc, schema)?)
}

// That of the error of a code, where there is one.
fn error_rule<'s>(
    alloc: Global,
    table: &'s Schemas,
    error: &CodedError<'_>,
) -> Result<Option<BrokenRule<'s>>, JobError>
    requires operation { Stand table.now error.now.operation.items }
    requires service { Stand table.now error.now.service.items }
    ensures { FindsCodedRule table.now error.now result }
{
    match error_of_code(alloc, table, error)? {
        Some(place) => output_rule(alloc, table, place),
        None => Ok(None),
    }
}

// That of what a response is read as.
fn expected_rule<'s>(
    alloc: Global,
    table: &'s Schemas,
    expected: &Expected<'_>,
) -> Result<Option<BrokenRule<'s>>, JobError>
    requires { IsExpectable table.now expected.now }
    ensures { FindsExpectedRule table.now expected.now result }
{
    match expected {
        Expected::Output(place) => output_rule(alloc, table, *place),
        Expected::Error(place) => output_rule(alloc, table, *place),
        Expected::Coded(error) => error_rule(alloc, table, error),
    }
}

// What is told of operations by the schemas of their inputs, of which one is held at a time. No job where a name is that of none.
fn operations_told(alloc: Global, operations: &NamedOperations<'_, '_>) -> Result<Answer, JobError>
    ensures { TellsRule (option_map broken_operation (all_named operations.now)) result }
{
    let names = operations.names;
    let mut told = None;
    for name in names {
        let operation = operations.read(alloc, name)?;
        told = told_with(alloc, told, &operation)?;
    }
    job_unless(alloc, told)
}

// What is told already, or else what is told of an operation.
fn told_with(
    alloc: Global,
    told: Option<Answer>,
    operation: &Operation<'_>,
) -> Result<Option<Answer>, OutOfMemory>
    ensures { IfOk result (λ t. told_seen t ≡ with_broken (told_seen told) (operation_seen operation.now)) }
{
    match told {
        Some(told) => Ok(Some(told)),
        None => told_broken(alloc, operation),
    }
}

// What is told of an operation where its schema isn't checked.
fn told_broken(alloc: Global, operation: &Operation<'_>) -> Result<Option<Answer>, OutOfMemory>
    ensures { IfOk result (λ told. told_seen told ≡ told_broken (operation_seen operation.now)) }
{
    match broken_input_rule(alloc, operation.schema())? {
        Some(broken) => Ok(Some(operation_not_checked(alloc, operation.name, &broken)?)),
        None => Ok(None),
    }
}

// What is told, or else that it is a job.
fn job_unless(alloc: Global, told: Option<Answer>) -> Result<Answer, JobError>
    ensures { Gives (told_or (told_seen told) []) result }
{
    match told {
        Some(told) => Ok(told),
        None => said(alloc, JOB.as_bytes()),
    }
}

// What is told by the first broken rule of a schema, if there is one.
fn broken_told(alloc: Global, broken: Option<BrokenRule<'_>>) -> Result<Answer, JobError>
    ensures { Gives (told_rule (only (broken_shown broken.entry))) result }
{
    match broken {
        Some(broken) => not_checked(alloc, &broken),
        None => said(alloc, JOB.as_bytes()),
    }
}

// The line of a schema that is not checked.
fn not_checked(alloc: Global, broken: &BrokenRule<'_>) -> Result<Answer, JobError>
    ensures { Gives (output (not_checked (in_owner by_job (broken_of broken.now)))) result }
{
    let line = format!(in alloc; "NotChecked: {broken}\n")?;
    Ok(Answer::Output(line.into_bytes()))
}

// That of an operation of many.
fn operation_not_checked(
    alloc: Global,
    name: &str,
    broken: &BrokenRule<'_>,
) -> Result<Answer, AllocError>
    ensures { IfOk result (λ a. outcome_view a ≡ line_of_broken name.now (broken_of broken.now)) }
{
    let line = format!(in alloc; "NotChecked: operation {name}: {broken}\n")?;
    Ok(Answer::Output(line.into_bytes()))
}

// That of a response of many, by its position.
fn response_not_checked(
    alloc: Global,
    position: usize,
    broken: &BrokenRule<'_>,
) -> Result<Answer, JobError>
    ensures { Gives (output (not_checked (in_owner (by_response position) (broken_of broken.now)))) result }
{
    let line = format!(in alloc; "NotChecked: response {position}: {broken}\n")?;
    Ok(Answer::Output(line.into_bytes()))
}
