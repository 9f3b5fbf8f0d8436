// The line of JSON that tells of one input among many (RFC 8259).
ghost use Rattle.std.specs.Prelude.{◌∷◌, [], IfOk, Some, Ok};
ghost use Rattle.json.specs.Token as token;
ghost use Rattle.serde_json.specs.Data.{no_members};
ghost use Rattle.smithy_document.specs.views.Printing.{Prints};
ghost use Rattle.smithy_bind.specs.Lines.{answer_value, base64_value, bytes_value, fault_value, header_value, with_status};
ghost use Rattle.smithy_bind.specs.views.LineView.{data_tokens, headers_tokens, status_tokens, EndsWithLine, WritesAnswer, WritesRefusal};

use crate::shown::refusal_words;
use base64::engine::general_purpose::STANDARD;
use json::Writer;
use smithy_http::{Headers, Request};
use smithy_serde::SerdeError;
use smithy_types::OutOfMemory;
use std::alloc::{AllocError, Global};

// Room for most lines, in a block of the size that the C library keeps for the next.
const LINE_ROOM: usize = 1000;

// Bytes in base64 (RFC 4648).
fn write_base64(alloc: Global, writer: &mut Writer, bytes: &[u8]) -> Result<(), AllocError>
    ensures { Prints (data_tokens (base64_value bytes.now)) writer.old writer.new result }
{
    let text = STANDARD.encode(alloc, bytes)?;
    writer.begin_object()?;
    writer.key("base64")?;
    writer.string(text.as_str())?;
    writer.end_object()
}

// Bytes as a text where they are UTF-8, and else in base64.
fn write_bytes(alloc: Global, writer: &mut Writer, bytes: &[u8]) -> Result<(), AllocError>
    ensures { Prints (data_tokens (bytes_value bytes.now)) writer.old writer.new result }
{
    match str::from_utf8(bytes) {
        Ok(text) => writer.string(text),
        Err(_) => write_base64(alloc, writer, bytes),
    }
}

// A header as the pair of its name and its value.
fn write_header(
    alloc: Global,
    writer: &mut Writer,
    name: &str,
    value: &[u8],
) -> Result<(), AllocError>
    ensures { Prints (data_tokens (header_value (name.now, value.now))) writer.old writer.new result }
{
    writer.begin_array()?;
    writer.string(name)?;
    write_bytes(alloc, writer, value)?;
    writer.end_array()
}

// Headers, and the end of their array.
fn write_headers(alloc: Global, writer: &mut Writer, headers: &Headers) -> Result<(), AllocError>
    ensures { Prints (headers_tokens headers.now) writer.old writer.new result }
{
    for (name, value) in headers.iter_bytes() {
        write_header(alloc, writer, name, value)?;
    }
    writer.end_array()
}

/// The begin of an object, with a status. Takes memory.
pub fn write_status(writer: &mut Writer, status: u64) -> Result<(), AllocError>
    ensures { Prints (status_tokens status) writer.old writer.new result }
{
    writer.begin_object()?;
    writer.key("status")?;
    writer.u64(status)
}

/// A member with a text. Takes memory.
pub fn write_text(writer: &mut Writer, name: &str, text: &str) -> Result<(), AllocError>
    ensures { Prints (token.key name.now ∷ token.string text.now ∷ []) writer.old writer.new result }
{
    writer.key(name)?;
    writer.string(text)
}

// A request.
fn write_request(alloc: Global, writer: &mut Writer, request: &Request) -> Result<(), AllocError>
    ensures { Prints (data_tokens (answer_value (Some (Ok request.now)))) writer.old writer.new result }
{
    write_status(writer, 0)?;
    write_text(writer, "method", request.method())?;
    write_text(writer, "target", request.uri())?;
    writer.key("headers")?;
    writer.begin_array()?;
    write_headers(alloc, writer, request.headers())?;
    writer.key("body")?;
    write_bytes(alloc, writer, request.body().as_slice())?;
    writer.end_object()
}

// A fault, in these words.
fn write_fault(writer: &mut Writer, words: &str) -> Result<(), AllocError>
    ensures { Prints (data_tokens (fault_value words.now)) writer.old writer.new result }
{
    write_status(writer, 3)?;
    write_text(writer, "fault", words)?;
    writer.end_object()
}

// That there is no input.
fn write_none(writer: &mut Writer) -> Result<(), AllocError>
    ensures { Prints (data_tokens (with_status 2 no_members)) writer.old writer.new result }
{
    write_status(writer, 2)?;
    writer.end_object()
}

/// A refusal, by the fault that it tells. Takes memory.
pub fn write_refusal(
    alloc: Global,
    writer: &mut Writer,
    refusal: &SerdeError,
) -> Result<(), OutOfMemory>
    ensures { WritesRefusal refusal.now writer.old writer.new result }
{
    if let SerdeError::OutOfMemory = refusal {
        return Err(OutOfMemory);
    }
    let words = refusal_words(alloc, refusal)?;
    write_fault(writer, words.as_str())?;
    Ok(())
}

// What came of an input.
fn write_answer(
    alloc: Global,
    writer: &mut Writer,
    made: &Option<Result<Request, SerdeError>>,
) -> Result<(), OutOfMemory>
    ensures { WritesAnswer made.now writer.old writer.new result }
{
    match made {
        Some(Ok(request)) => Ok(write_request(alloc, writer, request)?),
        Some(Err(refusal)) => write_refusal(alloc, writer, refusal),
        None => Ok(write_none(writer)?),
    }
}

/// The lines, and behind them that of what came of an input: its request, the first fault, or nothing where the value has not the
/// form of an input. Takes memory.
pub fn with_line(
    alloc: Global,
    mut lines: Vec<u8>,
    made: &Option<Result<Request, SerdeError>>,
) -> Result<Vec<u8>, OutOfMemory>
    ensures { IfOk result (λ more. EndsWithLine made.now lines.items more.items) }
{
    let mut writer = Writer::new(Vec::with_capacity(alloc, LINE_ROOM)?);
    write_answer(alloc, &mut writer, made)?;
    let line = writer.into_inner();
    lines.extend_from_slice(line.as_slice())?;
    lines.push(b'\n')?;
    Ok(lines)
}
