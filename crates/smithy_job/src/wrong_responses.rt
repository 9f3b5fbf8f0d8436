// The first place of many responses whose form is not as asked.
ghost use Rattle.std.specs.Prelude.{◌≡◌, is_some, map, IfOk};
ghost use Rattle.smithy_json.specs.views.JsonView.{view};
ghost use Rattle.smithy_model.specs.Wrong.{first_item};
ghost use Rattle.smithy_model.specs.views.WrongView.{Finds};
ghost use Rattle.smithy_job.specs.Jobs.{received_by};
ghost use Rattle.smithy_job.specs.WrongJobs.{wrong_item, wrong_item_response, wrong_responses, wrong_responses_part};
ghost use Rattle.smithy_job.specs.views.KeysView.{keys_seen};

use crate::keys::Keys;
use crate::received::read_received_by;
use crate::wrong_message::wrong_response;
use smithy_json::JsonValue;
use smithy_model::{JobError, Wrong, asked_at, asked_here, in_item, in_key, items_of, unless_here};
use smithy_types::OutOfMemory;
use std::alloc::Global;

// Whether there is a job of a response under the keys.
fn is_received(alloc: Global, keys: &Keys<'_, '_>) -> Result<bool, OutOfMemory>
    ensures { IfOk result (λ is. is ≡ is_some (received_by (keys_seen keys.now))) }
{
    match read_received_by(alloc, keys) {
        Ok(_) => Ok(true),
        Err(JobError::NoJob) => Ok(false),
        Err(JobError::OutOfMemory) => Err(OutOfMemory),
    }
}

// The response of an item, where it has one of its own.
fn wrong_item_response(alloc: Global, item: &JsonValue<'_>) -> Result<Option<Wrong>, OutOfMemory>
    ensures { Finds (wrong_item_response (view item.now)) result }
{
    match item.get("response") {
        Some(response) => in_key(alloc, "response", wrong_response(alloc, response)?),
        None => Ok(None),
    }
}

#[tactic(auto, unfolding(crate::specs::WrongJobs::wrong_item))]
fn wrong_item<'v, 't>(
    alloc: Global,
    job: &'v JsonValue<'t>,
    item: &'v JsonValue<'t>,
) -> Result<Option<Wrong>, OutOfMemory>
    ensures { Finds (wrong_item (view job.now) (view item.now)) result }
{
    if let Some(wrong) = wrong_item_response(alloc, item)? {
        return Ok(Some(wrong));
    }
    let fits = is_received(alloc, &Keys::among(job, item))?;
    unless_here(
        alloc,
        fits,
        "a job of `response` is asked, with the keys of the whole job beside",
    )
}

fn wrong_each<'v, 't>(
    alloc: Global,
    job: &'v JsonValue<'t>,
    items: &'v [JsonValue<'t>],
) -> Result<Option<Wrong>, OutOfMemory>
    ensures { Finds (first_item (wrong_item (view job.now)) 0 (map view items.now)) result }
{
    for (position, item) in items.iter().enumerate() {
        if let Some(wrong) = in_item(position, wrong_item(alloc, job, item)?)? {
            return Ok(Some(wrong));
        }
    }
    Ok(None)
}

fn wrong_responses<'v, 't>(
    alloc: Global,
    job: &'v JsonValue<'t>,
    responses: &'v JsonValue<'t>,
) -> Result<Option<Wrong>, OutOfMemory>
    ensures { Finds (wrong_responses (view job.now) (view responses.now)) result }
{
    match items_of(responses) {
        Some(items) => wrong_each(alloc, job, items),
        None => Ok(Some(asked_here(alloc, "an array of responses is asked")?)),
    }
}

/// The first wrong place of the responses of a job. Takes memory.
#[tactic(auto, unfolding(crate::specs::WrongJobs::wrong_responses_part))]
pub fn wrong_responses_part(
    alloc: Global,
    job: &JsonValue<'_>,
) -> Result<Option<Wrong>, OutOfMemory>
    ensures { Finds (wrong_responses_part (view job.now)) result }
{
    match job.get("responses") {
        Some(responses) => in_key(alloc, "responses", wrong_responses(alloc, job, responses)?),
        None => Ok(Some(asked_at(alloc, "responses", "an array of responses is asked")?)),
    }
}
