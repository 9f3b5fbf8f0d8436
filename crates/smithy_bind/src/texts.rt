// The program's texts about itself.
ghost use Rattle.std.specs.Prelude.{◌≡◌};
ghost use Rattle.smithy_bind.specs.Texts.{help_text, version_text};

/// What `--help` writes.
pub const HELP: &str = "\
Places Smithy inputs in HTTP requests, and reads requests and responses.

Usage: smithy_bind request < JOB
       smithy_bind requests < JOB
       smithy_bind rpc < JOB
       smithy_bind response < JOB
       smithy_bind responses < JOB
       smithy_bind recover < JOB
       smithy_bind route < JOB
       smithy_bind gateway < JOB
       smithy_bind answer < JOB
       smithy_bind explain COMMAND < JOB
       smithy_bind aws request < JOB
       smithy_bind aws response < JOB
       smithy_bind generate N
       smithy_bind --help
       smithy_bind --version

`request` reads a job, a JSON object, from standard input, and writes the
request to standard output: a line of method and target, a line for each
header, an empty line, and the body. Where the input can't be sent, it writes
one line that says why.
`requests` reads a job with many inputs of one operation, and writes one line of
JSON for each, in order: its request, the line that says why it can't be sent,
or that the value is no input. The model is read and checked once.
`rpc` does the same as `request`, but posts the whole input as the body.
`response` reads a job with a response, and writes the value of the
operation's output, or of an error, as one line of JSON. Where the response
can't be read, it writes one line that says why.
`responses` reads a job with many responses of one model, and writes one line of
JSON for each, in order: its value, the line that says why it can't be read, or
that it is no job alone.
`recover` reads a job with a request, and writes the input that has it, in
normal form, as one line of JSON. Where no input has it, as where a text is
spelled otherwise than `request` does, it writes one line that says so.
`route` reads a job with a request and many operations, and writes the full
name of the one whose template matches the request best, and then its input as
`recover` does. Where there is none, or where a template has no route or one
that conflicts with another's, it writes one line that says so.
`gateway` reads a job with a request, and writes the request of the same input
on the other side: that of `rpc` for one that `request` writes, and back. Where
no input has it, it writes one line that says so.
`answer` reads a job with an output, and writes the response: a line of the
status, a line for each header, an empty line, and the body. Where the output
can't be written, it writes one line that says why.
`explain` reads what is to be the job of one of these commands, and writes one
line: `Job` where it is one. Where the command would end with 2 that is
`NotJson`, with the place of the first byte that can't stand there, counted from
0; `NotChecked`, with the rule that the schema breaks; or `NoJob`, with a JSON
Pointer to the first place that has not the form asked, and what is asked there.
`aws request` and `aws response` do the same as `request` and `response`, but by
the protocol of AWS that the job names: bodies then have times and big numbers
as its services do, and in restJson1 the names in JSON. Where it names none,
they do exactly what those do.
`generate` reads nothing: it makes the request of an input of N numbers, N from
0 to 100000, and writes its target, the number of its headers, the length of
its body and the sum of the body's bytes, each in a line.

A job has these keys:
  model      a Smithy model as a JSON AST, with its `shapes`
  operation  the full name of an operation of the model, but for `route`
A job of `request` or `rpc` has also:
  input      an object from names of members to values, written in byte order
             of the names; or an array of pairs of a name and a value,
             written in this order
A job of `requests` has also:
  inputs     an array of such inputs
A job of `answer` has also:
  output     the same of an output
  status     optional, from 100 to 999, where the output has no response code;
             without it the code of smithy.api#http, or else 200
A job of `request`, `requests`, `rpc`, `recover` or `gateway` has also:
  endpoint   optional, a text: the URI template of an operation without
             smithy.api#http; of `rpc` the target
A job of these or of `route` has also:
  omit       optional, an object: with `contentType` or `contentLength` true,
             that default header is left out
A job of `recover`, `route` or `gateway` has also:
  request    an object: `method`, a token; `target`; `headers` and `body` as in
             a response; without a body, or with null, it is empty
A job of `route` has also:
  operations an array of full names of operations with smithy.api#http
A job of `gateway` has also:
  to         `rpc` or `rest`: the side that the request goes to
  rpcEndpoint
             optional, a text: the target of a request that goes to `rpc`,
             empty or a legal one
A job of `response` has also:
  response   an object: `status`, from 100 to 999; `headers`, an array of
             pairs of a name and a value; `body`. Values and the body are
             texts, or objects with the text `base64`. The headers may be left
             out; without a body, or with null, it isn't buffered
  error      optional, the full name of one of the operation's errors: the
             response is that error
  code       optional, a text, not beside `error`: the response is the error
             of this code, and its full name is written on a line before it
  serviceErrors
             optional, an array of full names, not beside `error`: further
             errors, in which a code is looked for behind the operation's
  policy     optional, `reject` or `skip`: whether a header that isn't UTF-8
             is refused, or its member left out
A job of `responses` has also:
  responses  an array of objects with such keys, and with `operation`; where one
             lacks a key, it has the job's
A job of `aws request` or `aws response` has what one of `request` or `response`
has, and also:
  protocol   optional, `aws.protocols#restJson1`, `aws.protocols#awsJson1_0` or
             `aws.protocols#awsJson1_1`
  service    where `aws request` goes by awsJson1_0 or awsJson1_1, the full name
             of the service, whose shape need not be in the model
  fractions  of `aws response`, optional, `refuse` or `floor`: whether a time
             with a fraction of a second is refused, as without it, or loses it
With a protocol and neither `error` nor `code`, a response is the output where
its status is from 200 to 299, and else the error of the code that it names.
Other keys are passed over.

A value of `input` has the JSON form of its member's shape: a truth value; a
whole number, also for a timestamp, in seconds since 1970; a text, in base64
for a blob; a whole number or a text for a BigInteger, a text for a
BigDecimal; any value for a document; an array for a list; an object for a
map, a structure or a union. A float is no value.

The exit status is
  0  the output was written
  1  the words are no command
  2  the input is no job, or a request can't be placed by its schema, or a
     response read or written by it
  3  the input can't be sent, the response can't be read, no input has the
     request, or no operation is found; the line says why
  4  reading failed
  5  writing failed
  6  there was not enough memory
  7  the input has more than 16777216 bytes
";

/// What `--version` writes.
pub const VERSION: &str = "smithy_bind 0.1.0\n";

/// What `--help` writes.
#[tactic(auto, unfolding(crate::specs::Texts::help_text))]
pub fn help() -> &'static [u8]
    ensures { result.now ≡ help_text }
{
    HELP.as_bytes()
}

/// What `--version` writes.
#[tactic(auto, unfolding(crate::specs::Texts::version_text))]
pub fn version() -> &'static [u8]
    ensures { result.now ≡ version_text }
{
    VERSION.as_bytes()
}
