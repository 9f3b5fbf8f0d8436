// The command `generate`: the request of an input of many numbers, told in four lines.
ghost use Rattle.std.specs.Prelude.{◌≡◌, IfOk, Result};
ghost use Rattle.std.specs.List.{sum};
ghost use Rattle.smithy_http.specs.Requests.{Request as Sent};
ghost use Rattle.smithy_binding.specs.Faults.{Fault};
ghost use Rattle.smithy_binding.specs.Refusing.{Answers};
ghost use Rattle.smithy_bind.specs.Generating as generating;
ghost use Rattle.smithy_bind.specs.Outcome.{generated_by, json_bodies, summed};
ghost use Rattle.smithy_bind.specs.views.AnswerView.{Gives};

use crate::generated_schema::{INPUT, generated_table};
use crate::generated_writes::input_writes;
use crate::sending::placed;
use crate::told::{Answer, refused};
use smithy_http::Request;
use smithy_model::JobError;
use smithy_serde::{Codec, OmitFlags, SerdeError, StructValue};
use std::alloc::{AllocError, Global};

// The sum of bytes. A `u128` holds that of any bytes that a slice can have.
fn sum_of(bytes: &[u8]) -> u128
    ensures { result ≡ sum bytes.now }
{
    let mut sum: u128 = 0;
    for byte in bytes {
        sum += u128::from(*byte);
    }
    sum
}

// What is told of a request: target, number of headers, length of the body and sum of its bytes, each in a line.
#[tactic(auto, unfolding(crate::specs::Generating::summary))]
fn summary(alloc: Global, request: &Request) -> Result<Vec<u8>, AllocError>
    ensures { IfOk result (λ v. v.items ≡ generating.summary request.now) }
{
    let target = request.uri();
    let headers = request.headers().iter_bytes().count();
    let body = request.body().as_slice();
    let length = body.len();
    let sum = sum_of(body);
    let lines = format!(in alloc;
        "target {target}\nheaders {headers}\nbody {length}\nsum {sum}\n"
    )?;
    Ok(lines.into_bytes())
}

/// What is to be told of the input of so many numbers, with a body of JSON by a codec: four lines on its request, or its first
/// fault. Takes memory. Condition: the codec is lawful.
#[tactic(auto, using(crate::proofs::GeneratedSchema::generated_is_checked), unfolding(crate::specs::Generating::generated))]
pub fn generated<C: Codec + Drop>(alloc: Global, codec: C, count: u32) -> Result<Answer, JobError>
    requires { C.lawful codec }
    ensures { Gives (generated_by (json_bodies (C.text codec)) count) result }
{
    let table = generated_table(alloc)?;
    let writes = input_writes(alloc, count)?;
    let Some(schema) = table.get(INPUT) else {
        unreachable!()
    };
    let input = StructValue::with_writes(&table, INPUT, writes);
    let made = placed(alloc, codec, schema, &input, "", OmitFlags::KEEP_ALL);
    summed(alloc, made)
}

// What is told of a request that was made or refused: four lines on it, or the line of the refusal.
fn summed(alloc: Global, made: Result<Request, SerdeError>) -> Result<Answer, JobError>
    ensures { (answer : Result Sent Fault) → Answers made answer → Gives (summed answer) result }
{
    match made {
        Ok(request) => Ok(Answer::Output(summary(alloc, &request)?)),
        Err(refusal) => refused(alloc, &refusal),
    }
}
