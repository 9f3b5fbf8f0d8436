// The job of a response.
ghost use Rattle.std.specs.Prelude.{◌≡◌, map, option_map};
ghost use Rattle.smithy_json.specs.views.JsonView.{view};
ghost use Rattle.smithy_types.specs.Results.{each};
ghost use Rattle.smithy_model.specs.views.NameView.{texts};
ghost use Rattle.smithy_model.specs.Reads.{Reads};
ghost use Rattle.smithy_model.specs.views.ModelView.{asked_view};
ghost use Rattle.smithy_model.specs.views.PlacedView.{Places, PlacesErrors};
ghost use Rattle.smithy_job.specs.Jobs.{full_name_in, names_given, errors_among, errors_given, errors_given_with_floats, schema_among, expected_output, expected_coded, expected_error, expected_by_code, expected_by_name, expected, expected_with_floats, message, received, received_by};
ghost use Rattle.smithy_job.specs.views.KeysView.{keys_seen, value_seen};
ghost use Rattle.smithy_job.specs.views.ReceivedView.{message_seen, IsReceived, ReadsExpected};
ghost use Rattle.smithy_job.specs.views.Tables.{ReadsAs};

use crate::keys::Keys;
use crate::reading::{errors_at, operation_given, schema_at};
use crate::response::{policy_given, read_response};
use smithy_http::{NonUtf8HeaderHandling, Response};
use smithy_json::JsonValue;
use smithy_model::{Asked, Floats, JobError, ModelTable, PlacedErrors, is_full_name, items_of};
use smithy_schema::{SchemaIndex, Schemas};
use std::alloc::Global;

/// An error that a response names by its code: one of the operation's, or else of the service's.
#[derive(Drop)]
pub struct CodedError<'t> {
    pub code: &'t str,
    pub operation: Vec<SchemaIndex>,
    pub service: Vec<SchemaIndex>,
}

/// What a response is read as, by indexes in a table.
#[derive(Drop)]
pub enum Expected<'t> {
    /// The output of the operation.
    Output(SchemaIndex),
    /// This error.
    Error(SchemaIndex),
    /// The error of a code.
    Coded(CodedError<'t>),
}

/// A response, and what is done with a header of it that is not UTF-8.
#[derive(Drop)]
pub struct Message {
    pub response: Response,
    pub policy: NonUtf8HeaderHandling,
}

/// What was received: a response, and what it is read as.
#[derive(Drop)]
pub struct Received<'t> {
    pub response: Response,
    pub policy: NonUtf8HeaderHandling,
    pub table: Schemas,
    pub expected: Expected<'t>,
}

/// What a response is read as, over its table.
#[derive(Drop)]
pub struct ExpectedIn<'t> {
    pub table: Schemas,
    pub expected: Expected<'t>,
}

/// A text that is a full name. Takes no memory.
pub fn full_name<'t>(value: &JsonValue<'t>) -> Option<&'t str>
    ensures { option_map (λ t. t.now) result ≡ full_name_in (view value.now) }
{
    let name = value.as_str()?;
    if is_full_name(name) { Some(name) } else { None }
}

fn names_in<'t>(alloc: Global, items: &[JsonValue<'t>]) -> Result<Vec<&'t str>, JobError>
    ensures { Reads (λ v. texts v.items) (each full_name_in (map view items.now)) result }
{
    let mut names = Vec::with_capacity(alloc, items.len())?;
    for item in items {
        let Some(name) = full_name(item) else {
            return Err(JobError::NoJob);
        };
        names.push(name)?;
    }
    Ok(names)
}

/// The full names of a service's errors. Takes memory. No job where they are none.
pub fn service_errors<'t>(
    alloc: Global,
    names: Option<&JsonValue<'t>>,
) -> Result<Vec<&'t str>, JobError>
    ensures { Reads (λ v. texts v.items) (names_given (value_seen names.entry)) result }
{
    let Some(names) = names else {
        return Ok(Vec::new(alloc));
    };
    match items_of(names) {
        Some(items) => names_in(alloc, items),
        None => Err(JobError::NoJob),
    }
}

// The schema of what is asked of the operation that stands under the keys.
fn schema_among<'t>(
    alloc: Global,
    keys: &Keys<'_, 't>,
    asked: Asked<'t>,
    floats: Floats,
) -> Result<ModelTable, JobError>
    ensures { Places (schema_among floats (asked_view asked.entry) (keys_seen keys.now)) result }
{
    schema_at(
        alloc,
        operation_given(keys.model, keys.operation),
        asked,
        floats,
    )
}

// The errors of the operation that stands under the keys, and these of its service.
fn errors_among<'t>(
    alloc: Global,
    keys: &Keys<'_, 't>,
    service: &[&'t str],
    floats: Floats,
) -> Result<PlacedErrors, JobError>
    ensures { PlacesErrors (errors_among floats (texts service.now) (keys_seen keys.now)) result }
{
    errors_at(
        alloc,
        operation_given(keys.model, keys.operation),
        service,
        floats,
    )
}

/// The errors that a response may name: those of the operation that stands under the keys, and those that are named as its service's.
/// The floats of the model are as they are or decimals. Takes memory. No job where they haven't the form, or the model hasn't what
/// they ask for.
pub fn read_errors_with_floats(
    alloc: Global,
    keys: &Keys<'_, '_>,
    floats: Floats,
) -> Result<PlacedErrors, JobError>
    ensures { PlacesErrors (errors_given_with_floats floats (keys_seen keys.now)) result }
{
    let service = service_errors(alloc, keys.service_errors)?;
    errors_among(alloc, keys, service.as_slice(), floats)
}

/// The same with its floats as they are.
#[tactic(auto, unfolding(crate::specs::Jobs::errors_given))]
pub fn read_errors(alloc: Global, keys: &Keys<'_, '_>) -> Result<PlacedErrors, JobError>
    ensures { PlacesErrors (errors_given (keys_seen keys.now)) result }
{
    read_errors_with_floats(alloc, keys, Floats::Kept)
}

fn expected_output<'t>(
    alloc: Global,
    keys: &Keys<'_, 't>,
    floats: Floats,
) -> Result<ExpectedIn<'t>, JobError>
    ensures { ReadsExpected (expected_output floats (keys_seen keys.now)) result }
{
    let placed = schema_among(alloc, keys, Asked::Output, floats)?;
    Ok(ExpectedIn {
        table: placed.table,
        expected: Expected::Output(placed.index),
    })
}

fn expected_error<'t>(
    alloc: Global,
    keys: &Keys<'_, 't>,
    name: &'t str,
    floats: Floats,
) -> Result<ExpectedIn<'t>, JobError>
    ensures { ReadsExpected (expected_error floats name.now (keys_seen keys.now)) result }
{
    let placed = schema_among(alloc, keys, Asked::Error(name), floats)?;
    Ok(ExpectedIn {
        table: placed.table,
        expected: Expected::Error(placed.index),
    })
}

fn expected_coded<'t>(
    alloc: Global,
    keys: &Keys<'_, 't>,
    code: &'t str,
    service: &[&'t str],
    floats: Floats,
) -> Result<ExpectedIn<'t>, JobError>
    ensures { ReadsExpected (expected_coded floats code.now (texts service.now) (keys_seen keys.now)) result }
{
    let placed = errors_among(alloc, keys, service, floats)?;
    Ok(ExpectedIn {
        table: placed.table,
        expected: Expected::Coded(CodedError {
            code,
            operation: placed.operation,
            service: placed.service,
        }),
    })
}

// As the error of the code, where there is one, and else as the output.
fn expected_by_code<'t>(
    alloc: Global,
    keys: &Keys<'_, 't>,
    service: &[&'t str],
    floats: Floats,
) -> Result<ExpectedIn<'t>, JobError>
    ensures { ReadsExpected (expected_by_code floats (texts service.now) (keys_seen keys.now)) result }
{
    let Some(code) = keys.code else {
        return expected_output(alloc, keys, floats);
    };
    match code.as_str() {
        Some(code) => expected_coded(alloc, keys, code, service, floats),
        None => Err(JobError::NoJob),
    }
}

// As the error of this name, beside which there is neither a code nor an error of the service.
fn expected_by_name<'t>(
    alloc: Global,
    keys: &Keys<'_, 't>,
    name: &JsonValue<'t>,
    floats: Floats,
) -> Result<ExpectedIn<'t>, JobError>
    ensures { ReadsExpected (expected_by_name floats (view name.now) (keys_seen keys.now)) result }
{
    match (keys.code, keys.service_errors) {
        (None, None) => match name.as_str() {
            Some(name) => expected_error(alloc, keys, name, floats),
            None => Err(JobError::NoJob),
        },
        _ => Err(JobError::NoJob),
    }
}

/// What a response is read as, by what stands under the keys, with the floats of the model as they are or as decimals. Takes
/// memory. No job where they haven't the form, or the model hasn't what they ask for.
pub fn read_expected_with_floats<'t>(
    alloc: Global,
    keys: &Keys<'_, 't>,
    floats: Floats,
) -> Result<ExpectedIn<'t>, JobError>
    ensures { ReadsExpected (expected_with_floats floats (keys_seen keys.now)) result }
{
    match keys.error {
        Some(name) => expected_by_name(alloc, keys, name, floats),
        None => {
            let service = service_errors(alloc, keys.service_errors)?;
            expected_by_code(alloc, keys, service.as_slice(), floats)
        }
    }
}

/// The same with its floats as they are.
pub fn read_expected<'t>(alloc: Global, keys: &Keys<'_, 't>) -> Result<ExpectedIn<'t>, JobError>
    ensures { ReadsExpected (expected (keys_seen keys.now)) result }
{
    read_expected_with_floats(alloc, keys, Floats::Kept)
}

/// The response that stands under the keys, with what is done with a header of it that is not UTF-8. Takes memory. No job where
/// one of these hasn't its form.
#[tactic(auto, unfolding(crate::specs::Jobs::message))]
pub fn read_message(alloc: Global, keys: &Keys<'_, '_>) -> Result<Message, JobError>
    ensures { Reads message_seen (message (keys_seen keys.now)) result }
{
    let Some(response) = keys.response else {
        return Err(JobError::NoJob);
    };
    let response = read_response(alloc, response)?;
    let Some(policy) = policy_given(keys.policy) else {
        return Err(JobError::NoJob);
    };
    Ok(Message { response, policy })
}

/// The job of a response that stands under the keys. Takes memory. What hasn't the form of one is no job.
#[tactic(auto, unfolding(crate::specs::Jobs::received_by))]
pub fn read_received_by<'t>(alloc: Global, keys: &Keys<'_, 't>) -> Result<Received<'t>, JobError>
    ensures { ReadsAs IsReceived (received_by (keys_seen keys.now)) result }
{
    let Message { response, policy } = read_message(alloc, keys)?;
    let ExpectedIn { table, expected } = read_expected(alloc, keys)?;
    Ok(Received {
        response,
        policy,
        table,
        expected,
    })
}

/// The job of a response that a JSON value is. Takes memory. What hasn't the form of one is no job.
pub fn read_received<'t>(alloc: Global, job: &JsonValue<'t>) -> Result<Received<'t>, JobError>
    ensures { ReadsAs IsReceived (received (view job.now)) result }
{
    read_received_by(alloc, &Keys::of(job))
}
