// The commands of the program for callers in C: from the bytes of a job into a buffer of the caller.
#![tactic(auto)]

ghost use Rattle.std.specs.Prelude.{◌≡◌};
ghost use Rattle.smithy_bind_c.specs.Buffers.{Answers, filled};

use smithy_bind::{Command, JobKind, answer_bytes};
use std::alloc::Global;

/// The HTTP request of a job's input by AWS restJson1, or the line of its first fault: the text that the program's
/// command `request` writes. It answers that command's exit status, and sets `text_len` to the length of the whole
/// text in bytes, 0 at a status that has none. Where that is at most the buffer's length, the text stands at the
/// buffer's front, and what is behind it is as before; else the whole buffer is. Takes memory.
#[unsafe(no_mangle)]
pub extern "C" fn smithy_bind_request(
    alloc: Global,
    job: &[u8],
    text: &mut [u8],
    text_len: &mut usize,
) -> u8
    ensures { Answers Command.Request job.now result text_len.new text.old text.new }
{
    answer_into(alloc, Command::Request, job, text, text_len)
}

/// The HTTP requests of a job's inputs by AWS restJson1, a line of JSON for each, with the request, the line of its first fault, or
/// that the value is no input: the text that the program's command `requests` writes. What it answers and leaves is as
/// `smithy_bind_request` says. Takes memory.
#[unsafe(no_mangle)]
pub extern "C" fn smithy_bind_requests(
    alloc: Global,
    job: &[u8],
    text: &mut [u8],
    text_len: &mut usize,
) -> u8
    ensures { Answers Command.Requests job.now result text_len.new text.old text.new }
{
    answer_into(alloc, Command::Requests, job, text, text_len)
}

/// The value that a job's response hands out, as JSON, or the line of its first refusal: the text that the program's
/// command `response` writes. What it answers and leaves is as `smithy_bind_request` says. Takes memory.
#[unsafe(no_mangle)]
pub extern "C" fn smithy_bind_response(
    alloc: Global,
    job: &[u8],
    text: &mut [u8],
    text_len: &mut usize,
) -> u8
    ensures { Answers Command.Response job.now result text_len.new text.old text.new }
{
    answer_into(alloc, Command::Response, job, text, text_len)
}

/// The values that a job's responses hand out, a line of JSON for each, with the value, the line of the first refusal, or that there is
/// no job of it alone: the text that the program's command `responses` writes. What it answers and leaves is as `smithy_bind_request`
/// says. Takes memory.
#[unsafe(no_mangle)]
pub extern "C" fn smithy_bind_responses(
    alloc: Global,
    job: &[u8],
    text: &mut [u8],
    text_len: &mut usize,
) -> u8
    ensures { Answers Command.Responses job.now result text_len.new text.old text.new }
{
    answer_into(alloc, Command::Responses, job, text, text_len)
}

/// The `POST` of a job's whole input as a body of JSON, or the line of its first fault: the text that the program's
/// command `rpc` writes. What it answers and leaves is as `smithy_bind_request` says. Takes memory.
#[unsafe(no_mangle)]
pub extern "C" fn smithy_bind_rpc(
    alloc: Global,
    job: &[u8],
    text: &mut [u8],
    text_len: &mut usize,
) -> u8
    ensures { Answers Command.Rpc job.now result text_len.new text.old text.new }
{
    answer_into(alloc, Command::Rpc, job, text, text_len)
}

/// The input that a job's request is of, as JSON, or the line that there is none: the text that the program's command
/// `recover` writes. What it answers and leaves is as `smithy_bind_request` says. Takes memory.
#[unsafe(no_mangle)]
pub extern "C" fn smithy_bind_recover(
    alloc: Global,
    job: &[u8],
    text: &mut [u8],
    text_len: &mut usize,
) -> u8
    ensures { Answers Command.Recover job.now result text_len.new text.old text.new }
{
    answer_into(alloc, Command::Recover, job, text, text_len)
}

/// The operation that a job's request is of, by its full name and a line feed, and its input, as JSON, or the line that says why there
/// is none: the text that the program's command `route` writes. What it answers and leaves is as `smithy_bind_request` says. Takes
/// memory.
#[unsafe(no_mangle)]
pub extern "C" fn smithy_bind_route(
    alloc: Global,
    job: &[u8],
    text: &mut [u8],
    text_len: &mut usize,
) -> u8
    ensures { Answers Command.Route job.now result text_len.new text.old text.new }
{
    answer_into(alloc, Command::Route, job, text, text_len)
}

/// What a job's request becomes on the other side: the `POST` of the input that it is of, or the request, by AWS restJson1, of the
/// input that it posts; or the line that no input has it: the text that the program's command `gateway` writes. What it answers and
/// leaves is as `smithy_bind_request` says. Takes memory.
#[unsafe(no_mangle)]
pub extern "C" fn smithy_bind_gateway(
    alloc: Global,
    job: &[u8],
    text: &mut [u8],
    text_len: &mut usize,
) -> u8
    ensures { Answers Command.Gateway job.now result text_len.new text.old text.new }
{
    answer_into(alloc, Command::Gateway, job, text, text_len)
}

/// The response of a job's output by AWS restJson1, or the line of its first fault: the text that the program's command
/// `answer` writes. What it answers and leaves is as `smithy_bind_request` says. Takes memory.
#[unsafe(no_mangle)]
pub extern "C" fn smithy_bind_answer(
    alloc: Global,
    job: &[u8],
    text: &mut [u8],
    text_len: &mut usize,
) -> u8
    ensures { Answers Command.Answer job.now result text_len.new text.old text.new }
{
    answer_into(alloc, Command::Answer, job, text, text_len)
}

/// The HTTP request of a job's input by the protocol of AWS that the job names, or the line of its first fault: the text that the
/// program's command `aws request` writes. What it answers and leaves is as `smithy_bind_request` says. Takes memory.
#[unsafe(no_mangle)]
pub extern "C" fn smithy_aws_request(
    alloc: Global,
    job: &[u8],
    text: &mut [u8],
    text_len: &mut usize,
) -> u8
    ensures { Answers Command.AwsRequest job.now result text_len.new text.old text.new }
{
    answer_into(alloc, Command::AwsRequest, job, text, text_len)
}

/// The value that a job's response hands out by the protocol of AWS that the job names, as JSON, or the line of its first refusal: the
/// text that the program's command `aws response` writes. What it answers and leaves is as `smithy_bind_request` says. Takes memory.
#[unsafe(no_mangle)]
pub extern "C" fn smithy_aws_response(
    alloc: Global,
    job: &[u8],
    text: &mut [u8],
    text_len: &mut usize,
) -> u8
    ensures { Answers Command.AwsResponse job.now result text_len.new text.old text.new }
{
    answer_into(alloc, Command::AwsResponse, job, text, text_len)
}

/// Whether the bytes are a job of the command `request`, or why they are none: the line that the program's command
/// `explain request` writes. What it answers and leaves is as `smithy_bind_request` says. Takes memory.
#[unsafe(no_mangle)]
pub extern "C" fn smithy_bind_explain_request(
    alloc: Global,
    job: &[u8],
    text: &mut [u8],
    text_len: &mut usize,
) -> u8
    ensures { Answers (Command.Explain JobKind.Request) job.now result text_len.new text.old text.new }
{
    explain_into(alloc, JobKind::Request, job, text, text_len)
}

/// The same of the command `requests`: the line that `explain requests` writes. What it answers and leaves is as
/// `smithy_bind_request` says. Takes memory.
#[unsafe(no_mangle)]
pub extern "C" fn smithy_bind_explain_requests(
    alloc: Global,
    job: &[u8],
    text: &mut [u8],
    text_len: &mut usize,
) -> u8
    ensures { Answers (Command.Explain JobKind.Requests) job.now result text_len.new text.old text.new }
{
    explain_into(alloc, JobKind::Requests, job, text, text_len)
}

/// The same of the command `rpc`: the line that `explain rpc` writes. What it answers and leaves is as
/// `smithy_bind_request` says. Takes memory.
#[unsafe(no_mangle)]
pub extern "C" fn smithy_bind_explain_rpc(
    alloc: Global,
    job: &[u8],
    text: &mut [u8],
    text_len: &mut usize,
) -> u8
    ensures { Answers (Command.Explain JobKind.Rpc) job.now result text_len.new text.old text.new }
{
    explain_into(alloc, JobKind::Rpc, job, text, text_len)
}

/// The same of the command `response`: the line that `explain response` writes. What it answers and leaves is as
/// `smithy_bind_request` says. Takes memory.
#[unsafe(no_mangle)]
pub extern "C" fn smithy_bind_explain_response(
    alloc: Global,
    job: &[u8],
    text: &mut [u8],
    text_len: &mut usize,
) -> u8
    ensures { Answers (Command.Explain JobKind.Response) job.now result text_len.new text.old text.new }
{
    explain_into(alloc, JobKind::Response, job, text, text_len)
}

/// The same of the command `responses`: the line that `explain responses` writes. What it answers and leaves is as
/// `smithy_bind_request` says. Takes memory.
#[unsafe(no_mangle)]
pub extern "C" fn smithy_bind_explain_responses(
    alloc: Global,
    job: &[u8],
    text: &mut [u8],
    text_len: &mut usize,
) -> u8
    ensures { Answers (Command.Explain JobKind.Responses) job.now result text_len.new text.old text.new }
{
    explain_into(alloc, JobKind::Responses, job, text, text_len)
}

/// The same of the command `recover`: the line that `explain recover` writes. What it answers and leaves is as
/// `smithy_bind_request` says. Takes memory.
#[unsafe(no_mangle)]
pub extern "C" fn smithy_bind_explain_recover(
    alloc: Global,
    job: &[u8],
    text: &mut [u8],
    text_len: &mut usize,
) -> u8
    ensures { Answers (Command.Explain JobKind.Recover) job.now result text_len.new text.old text.new }
{
    explain_into(alloc, JobKind::Recover, job, text, text_len)
}

/// The same of the command `route`: the line that `explain route` writes. What it answers and leaves is as
/// `smithy_bind_request` says. Takes memory.
#[unsafe(no_mangle)]
pub extern "C" fn smithy_bind_explain_route(
    alloc: Global,
    job: &[u8],
    text: &mut [u8],
    text_len: &mut usize,
) -> u8
    ensures { Answers (Command.Explain JobKind.Route) job.now result text_len.new text.old text.new }
{
    explain_into(alloc, JobKind::Route, job, text, text_len)
}

/// The same of the command `gateway`: the line that `explain gateway` writes. What it answers and leaves is as
/// `smithy_bind_request` says. Takes memory.
#[unsafe(no_mangle)]
pub extern "C" fn smithy_bind_explain_gateway(
    alloc: Global,
    job: &[u8],
    text: &mut [u8],
    text_len: &mut usize,
) -> u8
    ensures { Answers (Command.Explain JobKind.Gateway) job.now result text_len.new text.old text.new }
{
    explain_into(alloc, JobKind::Gateway, job, text, text_len)
}

/// The same of the command `answer`: the line that `explain answer` writes. What it answers and leaves is as
/// `smithy_bind_request` says. Takes memory.
#[unsafe(no_mangle)]
pub extern "C" fn smithy_bind_explain_answer(
    alloc: Global,
    job: &[u8],
    text: &mut [u8],
    text_len: &mut usize,
) -> u8
    ensures { Answers (Command.Explain JobKind.Answer) job.now result text_len.new text.old text.new }
{
    explain_into(alloc, JobKind::Answer, job, text, text_len)
}

// Answers the command `explain` of such a job.
fn explain_into(
    alloc: Global,
    kind: JobKind,
    job: &[u8],
    text: &mut [u8],
    text_len: &mut usize,
) -> u8
    ensures { Answers (Command.Explain kind) job.now result text_len.new text.old text.new }
{
    answer_into(alloc, Command::Explain(kind), job, text, text_len)
}

// Answers the command: the code of its end, the length of its text, and the text where it fits.
fn answer_into(
    alloc: Global,
    command: Command,
    job: &[u8],
    text: &mut [u8],
    text_len: &mut usize,
) -> u8
    ensures { Answers command job.now result text_len.new text.old text.new }
{
    let ended = answer_bytes(alloc, command, job);
    *text_len = ended.text.len();
    fill(text, ended.text.as_slice());
    ended.status.code()
}

// Writes the text to the front of the buffer, where it fits.
fn fill(buffer: &mut [u8], text: &[u8])
    ensures { buffer.new ≡ filled text.now buffer.old }
{
    if text.len() <= buffer.len() {
        buffer[..text.len()].copy_from_slice(text);
    }
}
