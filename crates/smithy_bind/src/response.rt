// The command `response`: the value of a response.
ghost use Rattle.std.specs.Prelude.{◌≡◌, ◌++◌, codes, IfOk, Result};
ghost use Rattle.smithy_json.specs.JsonView.{view};
ghost use Rattle.smithy_serde.specs.declared.error.SerdeError.{SerdeError as Refusal};
ghost use Rattle.smithy_bind.specs.Responding as answers;
ghost use Rattle.smithy_bind.specs.Responding.{responded_to, told_reply};
ghost use Rattle.smithy_bind.specs.views.AnswerView.{Gives};
ghost use Rattle.smithy_bind.specs.views.ReplyView.{Replies};

use crate::reply::{Reply, shown_reply};
use crate::target::read_target;
use crate::told::{Answer, refused};
use smithy_job::{Keys, read_message};
use smithy_json::JsonValue;
use smithy_model::JobError;
use smithy_serde::SerdeError;
use std::alloc::{AllocError, Global};

/// What is to be told of the response that a JSON value has, with bodies of JSON (AWS restJson1). Takes memory. No job where it is
/// none, or where no response can be read by its schema.
#[tactic(auto, unfolding(crate::specs::Responding::responded_to))]
pub fn responded(alloc: Global, value: &JsonValue<'_>) -> Result<Answer, JobError>
    ensures { Gives (responded_to (view value.now)) result }
{
    let keys = Keys::of(value);
    let message = read_message(alloc, &keys)?;
    let target = read_target(alloc, &keys)?;
    told(alloc, target.reply(alloc, &message))
}

/// What is told of what is read of a response: its lines, or the line of the refusal. Takes memory.
#[tactic(auto, using(crate::proofs::ReplyLemmas::reply_told, crate::proofs::ReplyLemmas::refused_told))]
pub fn told(alloc: Global, made: Result<Reply<'_>, SerdeError>) -> Result<Answer, JobError>
    ensures { (is : Result answers.Reply Refusal) → Replies is made.entry → Gives (told_reply is) result }
{
    match made {
        Ok(reply) => Ok(Answer::Output(shown_reply(alloc, &reply)?)),
        Err(refusal) => refused(alloc, &refusal),
    }
}

/// A text behind a name on a line of its own. Takes memory.
pub fn behind_name(alloc: Global, name: &str, text: &[u8]) -> Result<Vec<u8>, AllocError>
    ensures { IfOk result (λ v. v.items ≡ name.now ++ (codes "\n" ++ text.now)) }
{
    let mut whole = Vec::from_slice(alloc, name.as_bytes())?;
    whole.push(b'\n')?;
    whole.extend_from_slice(text)?;
    Ok(whole)
}
