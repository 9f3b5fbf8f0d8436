// The first place of a value whose form isn't as asked.
ghost use Rattle.std.specs.Prelude.{◌≡◌, ◌++◌, Some, IfOk, option_map};
ghost use Rattle.smithy_model.specs.Wrong.{asked_here, asked_at, unless_here, unless_at, under, in_key, in_item};
ghost use Rattle.smithy_model.specs.views.WrongView.{Finds, wrong_view};

use smithy_types::{OutOfMemory, Text};
use std::alloc::Global;

/// A step into a value of JSON.
#[derive(Debug, Drop)]
pub enum Step {
    /// To what stands under a key of an object.
    Key(Text),
    /// To the item of an array at this position.
    Item(usize),
}

/// A place whose form isn't as asked.
#[derive(Debug, Drop)]
pub struct Wrong {
    /// The way to the place, innermost step first.
    pub steps: Vec<Step>,
    /// The words of what is asked there.
    pub asked: Text,
}

/// The value itself isn't as asked. Takes memory.
pub fn asked_here(alloc: Global, words: &str) -> Result<Wrong, OutOfMemory>
    ensures { IfOk result (λ w. wrong_view w ≡ asked_here words.now) }
{
    Ok(Wrong {
        steps: Vec::new(alloc),
        asked: Text::from_str(alloc, words)?,
    })
}

// A place, one step further out.
fn under(wrong: Wrong, step: Step) -> Result<Wrong, OutOfMemory>
    ensures { IfOk result (λ w. wrong_view w ≡ under step (wrong_view wrong)) }
{
    let Wrong { mut steps, asked } = wrong;
    steps.push(step)?;
    Ok(Wrong { steps, asked })
}

/// What stands under a key isn't as asked, or belongs there. Takes memory.
pub fn asked_at(alloc: Global, key: &str, words: &str) -> Result<Wrong, OutOfMemory>
    ensures { IfOk result (λ w. wrong_view w ≡ asked_at key.now words.now) }
{
    let wrong = asked_here(alloc, words)?;
    under(wrong, Step::Key(Text::from_str(alloc, key)?))
}

/// What was found in what stands under a key. Takes memory.
pub fn in_key(alloc: Global, key: &str, found: Option<Wrong>) -> Result<Option<Wrong>, OutOfMemory>
    ensures { Finds (in_key key.now (option_map wrong_view found)) result }
{
    match found {
        Some(wrong) => Ok(Some(under(wrong, Step::Key(Text::from_str(alloc, key)?))?)),
        None => Ok(None),
    }
}

/// What was found in the item at a position. Takes memory.
pub fn in_item(position: usize, found: Option<Wrong>) -> Result<Option<Wrong>, OutOfMemory>
    ensures { Finds (in_item position (option_map wrong_view found)) result }
{
    match found {
        Some(wrong) => Ok(Some(under(wrong, Step::Item(position))?)),
        None => Ok(None),
    }
}

/// These words of the value where it doesn't fit. Takes memory.
pub fn unless_here(alloc: Global, fits: bool, words: &str) -> Result<Option<Wrong>, OutOfMemory>
    ensures { Finds (unless_here fits words.now) result }
{
    if fits {
        Ok(None)
    } else {
        Ok(Some(asked_here(alloc, words)?))
    }
}

/// These words of what stands under a key where it doesn't fit. Takes memory.
pub fn unless_at(
    alloc: Global,
    fits: bool,
    key: &str,
    words: &str,
) -> Result<Option<Wrong>, OutOfMemory>
    ensures { Finds (unless_at fits key.now words.now) result }
{
    if fits {
        Ok(None)
    } else {
        Ok(Some(asked_at(alloc, key, words)?))
    }
}

/// A name and these words of the value where it doesn't fit. Takes memory.
pub fn unless_named(
    alloc: Global,
    fits: bool,
    name: &str,
    words: &str,
) -> Result<Option<Wrong>, OutOfMemory>
    ensures { Finds (unless_here fits (name.now ++ words.now)) result }
{
    if fits {
        return Ok(None);
    }
    let mut asked = Text::from_str(alloc, name)?;
    asked.push_str(words)?;
    Ok(Some(Wrong {
        steps: Vec::new(alloc),
        asked,
    }))
}
