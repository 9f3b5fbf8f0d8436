// The command `responses`: the values of many responses of one model.
ghost use Rattle.std.specs.Prelude.{◌≡◌, map, IfOk, IfSome};
ghost use Rattle.smithy_json.specs.JsonView.{view};
ghost use Rattle.smithy_job.specs.KeysView.{keys_seen};
ghost use Rattle.smithy_bind.specs.Replying.{lines_of_items, replied_to};
ghost use Rattle.smithy_bind.specs.views.AnswerView.{Gives};
ghost use Rattle.smithy_bind.specs.views.ReplyView.{AreKnown, IsLineBy, IsSoundOrNone, IsTargetOf};

use crate::reply::{none_line, reply_line};
use crate::target::{Target, read_target};
use crate::told::Answer;
use smithy_job::{Keys, Message, read_message, responses_of};
use smithy_json::JsonValue;
use smithy_model::JobError;
use smithy_types::OutOfMemory;
use std::alloc::Global;

// What is kept weighs at most so much, but for one table that weighs more alone: each table its nodes, and so much beside.
const MOST_WEIGHT: usize = 65_536;

const OWN_WEIGHT: usize = 256;

/// What a response with these keys is read by, if there is something.
#[derive(Drop)]
pub struct Known<'v, 't> {
    pub keys: Keys<'v, 't>,
    pub target: Option<Target<'t>>,
}

// What responses were read by so far.
#[derive(Drop)]
struct Targets<'v, 't> {
    known: Vec<Known<'v, 't>>,
    weight: usize,
}

// What a response with these keys is read by, if there is something. Takes memory.
fn target_of<'t>(alloc: Global, keys: &Keys<'_, 't>) -> Result<Option<Target<'t>>, OutOfMemory>
    ensures { IfOk result (IsTargetOf (keys_seen keys.now)) }
{
    match read_target(alloc, keys) {
        Ok(target) => Ok(Some(target)),
        Err(JobError::NoJob) => Ok(None),
        Err(JobError::OutOfMemory) => Err(OutOfMemory),
    }
}

// What weighs in keeping it.
fn weight_of(target: &Option<Target<'_>>) -> usize {
    match target {
        Some(target) => target.table.len().saturating_add(OWN_WEIGHT),
        None => OWN_WEIGHT,
    }
}

// What was read for keys that ask for the same.
fn known_for<'k, 'v, 't>(
    known: &'k [Known<'v, 't>],
    keys: &Keys<'_, '_>,
) -> Option<&'k Option<Target<'t>>>
    requires { AreKnown (keys_seen keys.now).model known.now }
    ensures { IfSome result (λ t. IsTargetOf (keys_seen keys.now) t.now) }
{
    for one in known {
        if one.keys.ask_alike(keys) {
            return Some(&one.target);
        }
    }
    None
}

// The line of a response that is read by this, if there is something.
fn line_by(
    alloc: Global,
    target: &Option<Target<'_>>,
    message: &Message,
) -> Result<Vec<u8>, OutOfMemory>
    requires { IsSoundOrNone target.now }
    ensures { IfOk result (IsLineBy target.now message.now) }
{
    match target {
        Some(target) => reply_line(alloc, &target.reply(alloc, message)),
        None => none_line(alloc),
    }
}

impl<'v, 't> Targets<'v, 't> {
    ghost use Rattle.std.specs.Prelude.{◌≡◌, IfOk, OnOk};
    ghost use Rattle.smithy_job.specs.KeysView.{keys_seen};
    ghost use Rattle.smithy_bind.specs.Replying.{reply_line};
    ghost use Rattle.smithy_bind.specs.Responding.{reply_among};
    ghost use Rattle.smithy_bind.specs.views.ReplyView.{AreKnown, IsTargetOf};

    // Keeps what a response with these keys is read by. What was kept is let go where it would weigh too much with it.
    fn keep(&mut self, keys: Keys<'v, 't>, target: Option<Target<'t>>) -> Result<(), OutOfMemory>
        requires known { AreKnown (keys_seen keys).model self.old.known.items }
        requires target { IsTargetOf (keys_seen keys) target }
        ensures { OnOk result (AreKnown (keys_seen keys.entry).model self.new.known.items) }
    {
        let weight = weight_of(&target);
        if self.weight.saturating_add(weight) > MOST_WEIGHT {
            self.known.clear();
            self.weight = 0;
        }
        self.weight = self.weight.saturating_add(weight);
        self.known.push(Known { keys, target })?;
        Ok(())
    }

    // The line of the response under the keys, read by what is kept for keys that ask for the same, or else by what is then kept.
    fn line_of(&mut self, alloc: Global, keys: Keys<'v, 't>) -> Result<Vec<u8>, OutOfMemory>
        requires { AreKnown (keys_seen keys).model self.old.known.items }
        ensures line { IfOk result (λ line. line.items ≡ reply_line (reply_among (keys_seen keys.entry))) }
        ensures known { OnOk result (AreKnown (keys_seen keys.entry).model self.new.known.items) }
    {
        let message = match read_message(alloc, &keys) {
            Ok(message) => message,
            Err(JobError::NoJob) => return none_line(alloc),
            Err(JobError::OutOfMemory) => return Err(OutOfMemory),
        };
        if let Some(target) = known_for(self.known.as_slice(), &keys) {
            return line_by(alloc, target, &message);
        }
        let target = target_of(alloc, &keys)?;
        let line = line_by(alloc, &target, &message)?;
        self.keep(keys, target)?;
        Ok(line)
    }
}

// The lines of responses, in order.
fn lines_of<'v, 't>(
    alloc: Global,
    job: &'v JsonValue<'t>,
    items: &'v [JsonValue<'t>],
) -> Result<Vec<u8>, OutOfMemory>
    ensures { IfOk result (λ text. text.items ≡ lines_of_items (view job.now) (map view items.now)) }
{
    let mut targets = Targets {
        known: Vec::new(alloc),
        weight: 0,
    };
    let mut text = Vec::new(alloc);
    for item in items {
        let line = targets.line_of(alloc, Keys::among(job, item))?;
        text.extend_from_slice(line.as_slice())?;
    }
    Ok(text)
}

/// What is to be told of the responses that a JSON value has: a line for each item, in order, which tells what `response` answers
/// to the job with its keys in place of the job's own. The model is read, and a schema checked, once for all responses that are
/// read by the same, one after the other; for others too, as long as their tables together have not many more than 60,000 nodes.
/// Takes memory. No job where there is no model with shapes, or no array of responses.
#[tactic(auto, unfolding(crate::specs::Replying::replied_to))]
pub fn replies_told(alloc: Global, value: &JsonValue<'_>) -> Result<Answer, JobError>
    ensures { Gives (replied_to (view value.now)) result }
{
    let Some(items) = responses_of(value) else {
        return Err(JobError::NoJob);
    };
    Ok(Answer::Output(lines_of(alloc, value, items)?))
}
