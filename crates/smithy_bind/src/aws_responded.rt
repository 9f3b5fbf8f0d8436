// The command `aws response`: the value of a response by a protocol of AWS.
ghost use Rattle.std.specs.Prelude.{◌≡◌, false, IsTrue};
ghost use Rattle.smithy_json.specs.JsonView.{view};
ghost use Rattle.smithy_aws.specs.ErrorShapes.{is_success};
ghost use Rattle.smithy_job.specs.KeysView.{keys_seen};
ghost use Rattle.smithy_bind.specs.AwsResponding.{aws_replied, aws_responded, is_asked, replied_by, says_error};
ghost use Rattle.smithy_bind.specs.views.AnswerView.{Gives};
ghost use Rattle.smithy_bind.specs.views.AwsView.{StandSomehow, TellsError, TellsExpected, TellsMessage};
ghost use Rattle.smithy_bind.specs.views.ReplyView.{IsExpectable};

use crate::aws_target::{aws_reply, aws_target};
use crate::response::{responded, told};
use crate::told::{Answer, refused};
use smithy_aws::error_code;
use smithy_http::Response;
use smithy_job::{
    AwsReading, CodedError, Expected, ExpectedIn, Keys, Message, aws_reading_of,
    read_errors_with_floats, read_expected_with_floats, read_message,
};
use smithy_json::JsonValue;
use smithy_model::{Floats, JobError, PlacedErrors};
use smithy_serde::SerdeError;
use std::alloc::Global;

/// What is to be told of the response that a JSON value has, by the protocol of AWS that it names; where it names none, what
/// `response` answers. Takes memory. No job where it is none, or where no response can be read by its schema.
#[tactic(auto, unfolding(crate::specs::AwsResponding::aws_responded))]
pub fn aws_responded(alloc: Global, value: &JsonValue<'_>) -> Result<Answer, JobError>
    ensures { Gives (aws_responded (view value.now)) result }
{
    match value.get("protocol") {
        Some(protocol) => named_told(alloc, protocol, value),
        None => responded(alloc, value),
    }
}

// What is to be told of a response by the protocol that a value names.
fn named_told(
    alloc: Global,
    protocol: &JsonValue<'_>,
    value: &JsonValue<'_>,
) -> Result<Answer, JobError>
    ensures { Gives (replied_by (view protocol.now) (view value.now)) result }
{
    match aws_reading_of(protocol, value) {
        Some(reading) => response_told(alloc, reading, value),
        None => Err(JobError::NoJob),
    }
}

// Whether the job says which error the response is.
fn says_error(keys: &Keys<'_, '_>) -> bool
    ensures { result ≡ says_error (keys_seen keys.now) }
{
    keys.error.is_some() || keys.code.is_some()
}

fn is_success(status: u16) -> bool
    ensures { result ≡ is_success status }
{
    matches!(status, 200..=299)
}

// Whether the job says it, or the response is a success.
fn is_asked(keys: &Keys<'_, '_>, response: &Response) -> bool
    ensures { result ≡ is_asked (keys_seen keys.now) response.now }
{
    says_error(keys) || is_success(response.status())
}

// What is to be told of a response that is read so.
#[tactic(auto, unfolding(crate::specs::AwsResponding::aws_replied))]
fn response_told(
    alloc: Global,
    reading: AwsReading,
    value: &JsonValue<'_>,
) -> Result<Answer, JobError>
    ensures { Gives (aws_replied reading (view value.now)) result }
{
    let keys = Keys::of(value);
    let message = read_message(alloc, &keys)?;
    if is_asked(&keys, &message.response) {
        asked_told(alloc, reading, &keys, &message)
    } else {
        error_told(alloc, reading, &keys, &message)
    }
}

// What is to be told of a message that is read as the job asks.
fn asked_told(
    alloc: Global,
    reading: AwsReading,
    keys: &Keys<'_, '_>,
    message: &Message,
) -> Result<Answer, JobError>
    requires { IsTrue (is_asked (keys_seen keys.now) message.now.response) }
    ensures { TellsMessage reading keys.now message.now result }
{
    let expected = read_expected_with_floats(alloc, keys, Floats::Decimals)?;
    expected_told(alloc, reading, expected, message)
}

// What is to be told of a message that is read as the error that it names.
fn error_told(
    alloc: Global,
    reading: AwsReading,
    keys: &Keys<'_, '_>,
    message: &Message,
) -> Result<Answer, JobError>
    requires { is_asked (keys_seen keys.now) message.now.response ≡ false }
    ensures { TellsMessage reading keys.now message.now result }
{
    let errors = read_errors_with_floats(alloc, keys, Floats::Decimals)?;
    named_error_told(alloc, reading, errors, message)
}

// What is to be told of a message that is read as the one of these errors that it names.
fn named_error_told(
    alloc: Global,
    reading: AwsReading,
    errors: PlacedErrors,
    message: &Message,
) -> Result<Answer, JobError>
    requires { StandSomehow errors }
    ensures { TellsError reading errors message.now result }
{
    let Some(code) = error_code(alloc, &message.response)? else {
        let refusal = SerdeError::invalid_input(alloc, "the response names no error");
        return refused(alloc, &refusal);
    };
    let error = CodedError {
        code: code.as_str(),
        operation: errors.operation,
        service: errors.service,
    };
    let expected = ExpectedIn {
        table: errors.table,
        expected: Expected::Coded(error),
    };
    expected_told(alloc, reading, expected, message)
}

// What is to be told of a message that is read as this.
fn expected_told(
    alloc: Global,
    reading: AwsReading,
    expected: ExpectedIn<'_>,
    message: &Message,
) -> Result<Answer, JobError>
    requires { IsExpectable expected.table expected.expected }
    ensures { TellsExpected reading expected.entry message.now result }
{
    let target = aws_target(alloc, expected)?;
    told(alloc, aws_reply(alloc, &target, reading, message)?)
}
