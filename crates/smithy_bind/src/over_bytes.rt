// Answers to commands over bytes that are at hand.
ghost use Rattle.std.specs.Prelude.{◌≡◌, ℕ, List, Some, false};
ghost use Rattle.smithy_bind.specs.Commands.{reads_input};
ghost use Rattle.smithy_bind.specs.Ends.{asks, due_of, EndsAs, EndsAt};
ghost use Rattle.smithy_bind.specs.Outcome.{outcome_by};

use crate::answering::{answer, answer_text};
use crate::command::Command;
use crate::ended::{Ended, Status};
use crate::json_value::json_codec;
use smithy_io::MAX_JOB_LEN;
use smithy_json::{JsonValue, Scratch};
use smithy_serde::Codec;
use std::alloc::Global;

/// How a run of the command ends and what it writes, where these bytes are its input and neither its source nor its sink
/// fails. Takes memory for the text.
pub fn answer_bytes(alloc: Global, command: Command, bytes: &[u8]) -> Ended
    ensures { EndsAs (due_of command bytes.now) (outcome_by (Some command) bytes.now) result }
{
    ended_by(alloc, command, json_codec(), bytes)
}

/// The same, over a scratch of the caller's, some 16 KiB and room for the longest of the inputs: whoever keeps one from call to
/// call saves its making. What it held before makes no difference.
pub fn answer_bytes_over(
    alloc: Global,
    scratch: &mut Scratch,
    command: Command,
    bytes: &[u8],
) -> Ended
    ensures { EndsAs (due_of command bytes.now) (outcome_by (Some command) bytes.now) result }
{
    ended_over(alloc, scratch, command, json_codec(), bytes)
}

/// How a command ends over these bytes, with a codec for the bodies of requests. It is no part of its caller, so that no sink is
/// written to with the room of the scratch, some 16 KiB, on the stack. Takes memory. Condition: the codec is lawful.
#[inline(never)]
pub fn ended_by<C: Codec + Drop>(alloc: Global, command: Command, codec: C, bytes: &[u8]) -> Ended
    requires { C.lawful codec }
    ensures { EndsAt (asks command (C.text codec)) bytes.now result }
{
    let mut scratch = Scratch::new(alloc);
    ended_over(alloc, &mut scratch, command, codec, bytes)
}

// The same over a scratch of the caller's.
fn ended_over<C: Codec + Drop>(
    alloc: Global,
    scratch: &mut Scratch,
    command: Command,
    codec: C,
    bytes: &[u8],
) -> Ended
    requires { C.lawful codec }
    ensures { EndsAt (asks command (C.text codec)) bytes.now result }
{
    if !command.reads_input() {
        return ended_without(alloc, command, codec);
    }
    if bytes.len() > MAX_JOB_LEN {
        return Ended::silent(alloc, Status::TooLong);
    }
    Ended::of(alloc, answer_text(alloc, scratch, command, codec, bytes))
}

/// How a command ends that reads no input. Takes memory. Conditions: it reads none, and the codec is lawful.
pub fn ended_without<C: Codec + Drop>(alloc: Global, command: Command, codec: C) -> Ended
    requires reads { reads_input command ≡ false }
    requires lawful { C.lawful codec }
    ensures { (bytes : List ℕ) → EndsAt (asks command (C.text codec)) bytes result }
{
    Ended::of(alloc, answer(alloc, command, codec, &JsonValue::Null))
}
