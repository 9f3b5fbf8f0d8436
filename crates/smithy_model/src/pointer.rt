// Pointers into a value of JSON.
ghost use Rattle.std.specs.Prelude.{◌≡◌, ◌++◌, reverse, flat_map, option_map, IfOk, OnOk};
ghost use Rattle.smithy_json.specs.views.JsonView.{view};
ghost use Rattle.smithy_model.specs.Wrong.{escaped, token, pointer, led_to, led_from, leading, within};
ghost use Rattle.smithy_model.specs.views.WrongView.{wrong_view, next_view};

use crate::json_value::items_of;
use crate::wrong::{Step, Wrong};
use smithy_json::{JsonValue, value_named};
use smithy_types::OutOfMemory;
use std::alloc::Global;

// Adds a byte of a name.
fn push_escaped(text: &mut Vec<u8>, byte: u8) -> Result<(), OutOfMemory>
    ensures { OnOk result (text.new.items ≡ text.old.items ++ escaped byte) }
{
    if byte == b'~' {
        text.extend_from_slice(b"~0")?;
        return Ok(());
    }
    if byte == b'/' {
        text.extend_from_slice(b"~1")?;
        return Ok(());
    }
    text.push(byte)?;
    Ok(())
}

// Adds a name.
fn push_name(text: &mut Vec<u8>, name: &[u8]) -> Result<(), OutOfMemory>
    ensures { OnOk result (text.new.items ≡ text.old.items ++ flat_map escaped name.now) }
{
    for byte in name {
        push_escaped(text, *byte)?;
    }
    Ok(())
}

// Adds a step without the slash before it.
fn push_token(alloc: Global, text: &mut Vec<u8>, step: &Step) -> Result<(), OutOfMemory>
    ensures { OnOk result (text.new.items ≡ text.old.items ++ token step.now) }
{
    match step {
        Step::Key(key) => push_name(text, key.as_str().as_bytes()),
        Step::Item(position) => {
            let position = *position;
            let digits = format!(in alloc; "{position}")?;
            text.extend_from_slice(digits.as_bytes())?;
            Ok(())
        }
    }
}

/// The JSON Pointer to the place (RFC 6901, section 5), without bytes for the value itself. Takes memory.
pub fn pointer_of(alloc: Global, wrong: &Wrong) -> Result<Vec<u8>, OutOfMemory>
    ensures { IfOk result (λ v. v.items ≡ pointer (wrong_view wrong.now).path) }
{
    let mut text = Vec::new(alloc);
    let steps = wrong.steps.as_slice();
    let mut left = steps.len();
    'walk: while left > 0 {
        left -= 1;
        text.push(b'/')?;
        push_token(alloc, &mut text, &steps[left])?;
    }
    Ok(text)
}

// What a step leads to, where it leads: a value, or none under a key that an object lacks.
fn led_to<'v, 't>(value: &'v JsonValue<'t>, step: &Step) -> Option<Option<&'v JsonValue<'t>>>
    ensures { option_map next_view result ≡ led_to (view value.now) step.now }
{
    match step {
        Step::Key(key) => Some(value_named(value.as_object()?, key.as_str())),
        Step::Item(position) => Some(Some(items_of(value)?.get(*position)?)),
    }
}

// The same from where there may be no value.
fn led_from<'v, 't>(
    here: Option<&'v JsonValue<'t>>,
    step: &Step,
) -> Option<Option<&'v JsonValue<'t>>>
    ensures { option_map next_view result ≡ led_from (next_view here.entry) step.now }
{
    led_to(here?, step)
}

// The front of the steps that leads, outermost step first, of steps innermost first.
fn leading(
    alloc: Global,
    value: &JsonValue<'_>,
    mut steps: Vec<Step>,
) -> Result<Vec<Step>, OutOfMemory>
    ensures { IfOk result (λ v. v.items ≡ leading (view value.now) (reverse steps.items)) }
{
    let mut led = Vec::with_capacity(alloc, steps.len())?;
    let mut here = Some(value);
    'walk: while let Some(step) = steps.pop() {
        let Some(next) = led_from(here, &step) else {
            return Ok(led);
        };
        led.push(step)?;
        here = next;
    }
    Ok(led)
}

/// The same with the steps that lead to a place of the value, or to a key that an object there lacks, up to the first that
/// doesn't. Takes memory.
pub fn within(alloc: Global, value: &JsonValue<'_>, wrong: Wrong) -> Result<Wrong, OutOfMemory>
    ensures { IfOk result (λ w. wrong_view w ≡ within (view value.now) (wrong_view wrong)) }
{
    let Wrong { steps, asked } = wrong;
    let mut steps = leading(alloc, value, steps)?;
    steps.as_mut_slice().reverse();
    Ok(Wrong { steps, asked })
}
