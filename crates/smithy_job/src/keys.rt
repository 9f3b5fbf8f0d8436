// What stands under the keys of a job of a response.
ghost use Rattle.std.specs.Prelude.{◌≡◌, option_map, map};
ghost use Rattle.std.specs.Bool.{OnTrue};
ghost use Rattle.smithy_json.specs.views.JsonView.{view};
ghost use Rattle.smithy_job.specs.Keys.{given, responses_given};
ghost use Rattle.smithy_job.specs.views.KeysView.{value_seen};

use smithy_json::JsonValue;
use smithy_model::{items_of, shapes_of};

/// What stands under the keys of a job of a response, of one alone or of one among many.
#[derive(Clone, Copy)]
pub struct Keys<'v, 't> {
    pub model: Option<&'v JsonValue<'t>>,
    pub operation: Option<&'v JsonValue<'t>>,
    pub response: Option<&'v JsonValue<'t>>,
    pub error: Option<&'v JsonValue<'t>>,
    pub code: Option<&'v JsonValue<'t>>,
    pub service_errors: Option<&'v JsonValue<'t>>,
    pub policy: Option<&'v JsonValue<'t>>,
}

impl<'v, 't> Keys<'v, 't> {
    ghost use Rattle.std.specs.Prelude.{◌≡◌};
    ghost use Rattle.std.specs.Bool.{OnTrue};
    ghost use Rattle.smithy_json.specs.views.JsonView.{view};
    ghost use Rattle.smithy_job.specs.Keys.{keys_among, keys_of};
    ghost use Rattle.smithy_job.specs.views.KeysView.{keys_seen, AskAlike};

    /// Those of a job. Takes no memory.
    pub fn of(job: &'v JsonValue<'t>) -> Keys<'v, 't>
        ensures { keys_seen result ≡ keys_of (view job.now) }
    {
        Keys {
            model: job.get("model"),
            operation: job.get("operation"),
            response: job.get("response"),
            error: job.get("error"),
            code: job.get("code"),
            service_errors: job.get("serviceErrors"),
            policy: job.get("policy"),
        }
    }

    /// Those of an item of a job: of each key what the item has, or else the job; the model is the job's. Takes no memory.
    pub fn among(job: &'v JsonValue<'t>, item: &'v JsonValue<'t>) -> Keys<'v, 't>
        ensures { keys_seen result ≡ keys_among (view job.now) (view item.now) }
    {
        Keys {
            model: job.get("model"),
            operation: given("operation", job, item),
            response: given("response", job, item),
            error: given("error", job, item),
            code: given("code", job, item),
            service_errors: given("serviceErrors", job, item),
            policy: given("policy", job, item),
        }
    }

    /// Whether they ask for the same of an operation. It says no of what isn't texts, which nothing is read by. Takes no memory.
    pub fn ask_alike(&self, other: &Keys<'_, '_>) -> bool
        ensures { OnTrue result (AskAlike (keys_seen self.now) (keys_seen other.now)) }
    {
        are_alike(self.operation, other.operation)
            && are_alike(self.error, other.error)
            && are_alike(self.code, other.code)
            && are_alike(self.service_errors, other.service_errors)
    }
}

// What stands under a key of an item, or else of the job.
fn given<'v, 't>(
    key: &str,
    job: &'v JsonValue<'t>,
    item: &'v JsonValue<'t>,
) -> Option<&'v JsonValue<'t>>
    ensures { value_seen result ≡ given key.now (view job.now) (view item.now) }
{
    match item.get(key) {
        Some(value) => Some(value),
        None => job.get(key),
    }
}

// Whether neither is there, or both are the same text or arrays of the same texts.
fn are_alike(one: Option<&JsonValue<'_>>, other: Option<&JsonValue<'_>>) -> bool
    ensures { OnTrue result (value_seen one.entry ≡ value_seen other.entry) }
{
    match (one, other) {
        (None, None) => true,
        (Some(one), Some(other)) => is_same(one, other),
        _ => false,
    }
}

fn is_same(one: &JsonValue<'_>, other: &JsonValue<'_>) -> bool
    ensures { OnTrue result (view one.now ≡ view other.now) }
{
    match (one, other) {
        (JsonValue::String(one), JsonValue::String(other)) => *one == *other,
        (JsonValue::Array(one), JsonValue::Array(other)) => are_same(
            one.as_slice(),
            other.as_slice(),
        ),
        _ => false,
    }
}

// Whether both are the same texts.
fn are_same(ones: &[JsonValue<'_>], others: &[JsonValue<'_>]) -> bool
    ensures { OnTrue result (map view ones.now ≡ map view others.now) }
{
    if ones.len() != others.len() {
        return false;
    }
    for (place, one) in ones.iter().enumerate() {
        let Some(other) = others.get(place) else {
            return false;
        };
        if !is_same_text(one, other) {
            return false;
        }
    }
    true
}

fn is_same_text(one: &JsonValue<'_>, other: &JsonValue<'_>) -> bool
    ensures { OnTrue result (view one.now ≡ view other.now) }
{
    match (one, other) {
        (JsonValue::String(one), JsonValue::String(other)) => *one == *other,
        _ => false,
    }
}

/// The items of a job, in order, one for each response. None where it has no model with shapes, or no array of them. Takes no
/// memory.
#[tactic(auto, unfolding(crate::specs::Keys::responses_given))]
pub fn responses_of<'v, 't>(job: &'v JsonValue<'t>) -> Option<&'v [JsonValue<'t>]>
    ensures { option_map (λ ds. map view ds.now) result ≡ responses_given (view job.now) }
{
    let _shapes = shapes_of(job.get("model")?)?;
    items_of(job.get("responses")?)
}
