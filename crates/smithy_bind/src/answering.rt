// The commands as one table: what each answers to the JSON value of its input.
ghost use Rattle.smithy_json.specs.JsonView.{view};
ghost use Rattle.smithy_bind.specs.Outcome.{answer_read, answer_to, json_bodies};
ghost use Rattle.smithy_bind.specs.views.AnswerView.{Gives};

use crate::aws_requested::aws_requested;
use crate::aws_responded::aws_responded;
use crate::command::Command;
use crate::explaining::{explained, unread};
use crate::gatewayed::gatewayed;
use crate::generate::generated;
use crate::recovered::recovered;
use crate::requested::lines_told;
use crate::responded::replies_told;
use crate::response::responded;
use crate::routed::routed;
use crate::sending::job_told;
use crate::served::served;
use crate::texts::{help, version};
use crate::told::{Answer, said};
use smithy_job::Sending;
use smithy_json::{JsonError, JsonValue, Scratch, read_json};
use smithy_model::JobError;
use smithy_serde::Codec;
use std::alloc::Global;

/// What a command answers to the JSON value of its input; one that reads no input looks at no value. The codec writes the bodies
/// of requests. Takes memory. No job where the value is none for this command. Condition: the codec is lawful.
pub fn answer<C: Codec + Drop>(
    alloc: Global,
    command: Command,
    codec: C,
    value: &JsonValue<'_>,
) -> Result<Answer, JobError>
    requires { C.lawful codec }
    ensures { Gives (answer_to (json_bodies (C.text codec)) command (view value.now)) result }
{
    match command {
        Command::Request => job_told(alloc, Sending::Rest, codec, value),
        Command::Requests => lines_told(alloc, codec, value),
        Command::Rpc => job_told(alloc, Sending::Rpc, codec, value),
        Command::Response => responded(alloc, value),
        Command::Responses => replies_told(alloc, value),
        Command::Recover => recovered(alloc, value),
        Command::Route => routed(alloc, value),
        Command::Gateway => gatewayed(alloc, value),
        Command::Answer => served(alloc, codec, value),
        Command::AwsRequest => aws_requested(alloc, codec, value),
        Command::AwsResponse => aws_responded(alloc, value),
        Command::Explain(kind) => explained(alloc, kind, value),
        Command::Generate(count) => generated(alloc, codec, count),
        Command::Help => said(alloc, help()),
        Command::Version => said(alloc, version()),
    }
}

/// The same to the bytes of a job, whose texts with escapes are written to the scratch. No job also where they are no JSON in
/// UTF-8 (RFC 8259), but for `explain`, which tells that.
pub fn answer_text<C: Codec + Drop>(
    alloc: Global,
    scratch: &mut Scratch,
    command: Command,
    codec: C,
    bytes: &[u8],
) -> Result<Answer, JobError>
    requires { C.lawful codec }
    ensures { Gives (answer_read (json_bodies (C.text codec)) command bytes.now) result }
{
    match read_json(alloc, bytes, scratch) {
        Ok(value) => answer(alloc, command, codec, &value),
        Err(JsonError::Unreadable) => unread(alloc, command, bytes),
        Err(JsonError::OutOfMemory) => Err(JobError::OutOfMemory),
    }
}
