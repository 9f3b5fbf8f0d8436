// Runs of commands, over sources and sinks that may fail, and over bytes that are at hand.
ghost use Rattle.std.specs.Prelude.{◌<◌, IfOk};

use crate::given_job::{job_bytes, job_kind};
use crate::told::with_short_runs;
use serde_json::Value;
use smithy_bind::{
    Command, Ended, Scratch, Status, answer_bytes, answer_bytes_over, run, run_request,
};
use smithy_document::{JsonCodec, json_is_lawful};
use smithy_io::{MemorySink, MemorySource, Source};
use smithy_types::{Longs, Text, Words};
use std::alloc::Global;
use test_rows::{Failed, count_of, flag_of, items_of, text_of, told_bytes};

/// The answer of one of these calls; none of another.
pub fn answer(alloc: Global, call: &str, given: &Value) -> Result<Option<Text>, Failed> {
    match call {
        "run" => Ok(Some(ran(alloc, given, true)?)),
        "run_request" => Ok(Some(ran(alloc, given, false)?)),
        "answer_bytes" => Ok(Some(ended(alloc, given)?)),
        _ => Ok(None),
    }
}

// How a run ends, how many of two more bytes its source gives, and what was written.
fn ran(alloc: Global, given: &Value, has_words: bool) -> Result<Text, Failed> {
    let mut source = source_of(alloc, given)?;
    let room = given.get("room").and_then(Value::as_u64).unwrap_or(100_000);
    let room = usize::try_from(room).map_err(|_| Failed)?;
    let failing = numbers_of(alloc, given, "failingWrites")?;
    let mut sink = MemorySink::new(alloc, room, piece_of(given, "writePiece")?, failing)?;
    let status: Status = if has_words {
        run(alloc, &words_of(alloc, given)?, &mut source, &mut sink)
    } else {
        let codec = JsonCodec;
        json_is_lawful(&codec);
        run_request(alloc, codec, &mut source, &mut sink)
    };
    let left = source.read(&mut [0; 2]).unwrap_or(99);
    let code = status.code();
    let mut text = Text::from_string(format!(in alloc; "status {code}, {left} left\n")?);
    text.push_str(told_bytes(alloc, wanted(given, sink.written()))?.as_str())?;
    with_short_runs(alloc, text.as_str())
}

// The bytes that are compared: with `firstLine` those of the first line.
fn wanted<'b>(given: &Value, bytes: &'b [u8]) -> &'b [u8] {
    let end = bytes.iter().position(|byte| *byte == b'\n');
    match (flag_of(given, "firstLine"), end) {
        (true, Some(end)) => bytes.get(..=end).unwrap_or(bytes),
        _ => bytes,
    }
}

fn source_of(alloc: Global, given: &Value) -> Result<MemorySource, Failed> {
    let bytes = job_bytes(alloc, given)?;
    let failing = numbers_of(alloc, given, "failingReads")?;
    Ok(MemorySource::new(bytes, piece_of(given, "readPiece")?, failing))
}

// How many bytes a source or sink takes at once, at least one: 4,096 where nothing is said.
fn piece_of(given: &Value, key: &str) -> Result<usize, Failed>
    ensures { IfOk result (λ piece. 0 < piece) }
{
    let piece = given.get(key).and_then(Value::as_u64).unwrap_or(4096);
    match usize::try_from(piece) {
        Ok(piece) if piece > 0 => Ok(piece),
        _ => Err(Failed),
    }
}

fn numbers_of(alloc: Global, given: &Value, key: &str) -> Result<Longs, Failed> {
    let mut numbers = Longs::new(alloc);
    if let Some(items) = given.get(key).and_then(Value::as_array) {
        for item in items {
            numbers.push(item.as_i64().ok_or(Failed)?)?;
        }
    }
    Ok(numbers)
}

fn words_of(alloc: Global, given: &Value) -> Result<Words, Failed> {
    let mut words = Words::new(alloc);
    for word in items_of(given, "words")? {
        words.push(word.as_str().ok_or(Failed)?)?;
    }
    Ok(words)
}

fn command_of(given: &Value) -> Result<Command, Failed> {
    match text_of(given, "command")? {
        "request" => Ok(Command::Request),
        "requests" => Ok(Command::Requests),
        "response" => Ok(Command::Response),
        "responses" => Ok(Command::Responses),
        "rpc" => Ok(Command::Rpc),
        "recover" => Ok(Command::Recover),
        "route" => Ok(Command::Route),
        "gateway" => Ok(Command::Gateway),
        "answer" => Ok(Command::Answer),
        "explain" => Ok(Command::Explain(job_kind(given, "of")?)),
        "generate" => {
            let count = count_of(given, "count")?;
            Ok(Command::Generate(u32::try_from(count).map_err(|_| Failed)?))
        }
        "help" => Ok(Command::Help),
        "version" => Ok(Command::Version),
        _ => Err(Failed),
    }
}

// How the command ends over each job, one after another over one scratch, and by itself where that differs.
fn ended(alloc: Global, given: &Value) -> Result<Text, Failed> {
    let command = command_of(given)?;
    let mut scratch = Scratch::new(alloc);
    let mut text = Text::from_str(alloc, "")?;
    for job in items_of(given, "jobs")? {
        let bytes = job_bytes(alloc, job)?;
        let over = answer_bytes_over(alloc, &mut scratch, command, bytes.as_slice());
        let over = ended_text(alloc, given, &over)?;
        let alone = answer_bytes(alloc, command, bytes.as_slice());
        let alone = ended_text(alloc, given, &alone)?;
        text.push_str(over.as_str())?;
        if alone.as_str() != over.as_str() {
            text.push_str("alone ")?;
            text.push_str(alone.as_str())?;
        }
    }
    Ok(text)
}

fn ended_text(alloc: Global, given: &Value, ended: &Ended) -> Result<Text, Failed> {
    let code = ended.status.code();
    let mut text = Text::from_string(format!(in alloc; "status {code}\n")?);
    text.push_str(told_bytes(alloc, wanted(given, ended.text.as_slice()))?.as_str())?;
    with_short_runs(alloc, text.as_str())
}
