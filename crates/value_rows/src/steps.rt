// Parts of a step: an array whose first item is the name of a call, with its arguments behind it.
use serde_json::Value;
use test_rows::Failed;

/// The value at a place.
pub fn step_value(step: &Value, place: usize) -> Result<&Value, Failed> {
    step.get(place).ok_or(Failed)
}

/// The text at a place.
pub fn step_text(step: &Value, place: usize) -> Result<&str, Failed> {
    step_value(step, place)?.as_str().ok_or(Failed)
}

/// The number of things at a place.
pub fn step_count(step: &Value, place: usize) -> Result<usize, Failed> {
    let count = step_value(step, place)?.as_u64().ok_or(Failed)?;
    usize::try_from(count).ok().ok_or(Failed)
}
