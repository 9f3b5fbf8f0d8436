// What is read of a response, and its texts.
ghost use Rattle.std.specs.Prelude.{◌≡◌, ◌++◌, codes, IfOk, None};
ghost use Rattle.smithy_document.specs.views.Printing.{Prints};
ghost use Rattle.smithy_bind.specs.Replying.{reply_line};
ghost use Rattle.smithy_bind.specs.Responding.{error_line};
ghost use Rattle.smithy_bind.specs.views.ReplyView.{error_tokens, front_tokens, name_seen, IsReplyLine, IsValueLine, ShowsReply, WritesRefused};

use crate::line::{with_line, write_refusal, write_status, write_text};
use json::Writer;
use smithy_serde::SerdeError;
use smithy_types::{Blob, OutOfMemory};
use std::alloc::{AllocError, Global};

// Room for what stands beside most values.
const FRONT_ROOM: usize = 64;

/// What is read of a response: the JSON text of its value, and the full name of its error where that was found for a code.
#[derive(Drop)]
pub struct Reply<'r> {
    pub error: Option<&'r str>,
    pub text: Blob,
}

// An error's name on a line of its own, where there is one.
fn error_line(alloc: Global, error: Option<&str>) -> Result<Vec<u8>, AllocError>
    ensures { IfOk result (λ v. v.items ≡ error_line (name_seen error.entry)) }
{
    match error {
        Some(name) => {
            let mut line = Vec::from_slice(alloc, name.as_bytes())?;
            line.push(b'\n')?;
            Ok(line)
        }
        None => Ok(Vec::new(alloc)),
    }
}

/// The line of a value, behind that of its error where that was found for a code. Takes memory.
pub fn shown_reply(alloc: Global, reply: &Reply<'_>) -> Result<Vec<u8>, AllocError>
    ensures { IfOk result (ShowsReply reply.now) }
{
    let mut text = error_line(alloc, reply.error)?;
    text.extend_from_slice(reply.text.as_slice())?;
    text.push(b'\n')?;
    Ok(text)
}

fn write_error(writer: &mut Writer, error: Option<&str>) -> Result<(), AllocError>
    ensures { Prints (error_tokens (name_seen error.entry)) writer.old writer.new result }
{
    match error {
        Some(name) => write_text(writer, "error", name),
        None => Ok(()),
    }
}

// What stands before the value.
fn write_front(writer: &mut Writer, error: Option<&str>) -> Result<(), AllocError>
    ensures { Prints (front_tokens (name_seen error.entry)) writer.old writer.new result }
{
    write_status(writer, 0)?;
    write_error(writer, error)?;
    writer.key("value")
}

// The line of a value.
fn value_line(alloc: Global, reply: &Reply<'_>) -> Result<Vec<u8>, AllocError>
    ensures { IfOk result (λ line. IsValueLine reply.now line.items) }
{
    let text = reply.text.as_slice();
    let room = text.len().saturating_add(FRONT_ROOM);
    let mut writer = Writer::new(Vec::with_capacity(alloc, room)?);
    write_front(&mut writer, reply.error)?;
    let mut line = writer.into_inner();
    line.extend_from_slice(text)?;
    line.extend_from_slice(b"}\n")?;
    Ok(line)
}

// The line of a refusal.
fn refused_line(alloc: Global, refusal: &SerdeError) -> Result<Vec<u8>, OutOfMemory>
    ensures { WritesRefused refusal.now result }
{
    let mut writer = Writer::new(Vec::with_capacity(alloc, FRONT_ROOM)?);
    write_refusal(alloc, &mut writer, refusal)?;
    let mut line = writer.into_inner();
    line.push(b'\n')?;
    Ok(line)
}

/// The line of what was read of a response among many, or of the first refusal. Takes memory.
#[tactic(auto, using(crate::proofs::ReplyLemmas::line_made, crate::proofs::ReplyLemmas::line_refused))]
pub fn reply_line(
    alloc: Global,
    made: &Result<Reply<'_>, SerdeError>,
) -> Result<Vec<u8>, OutOfMemory>
    ensures { IfOk result (λ line. IsReplyLine made.now line.items) }
{
    match made {
        Ok(reply) => Ok(value_line(alloc, reply)?),
        Err(refusal) => refused_line(alloc, refusal),
    }
}

/// The line where there is no job. Takes memory.
#[tactic(auto, unfolding(crate::specs::Replying::reply_line, crate::specs::Lines::answer_line))]
pub fn none_line(alloc: Global) -> Result<Vec<u8>, OutOfMemory>
    ensures { IfOk result (λ line. line.items ≡ reply_line None) }
{
    let lines = Vec::new(alloc);
    with_line(alloc, lines, &None)
}
