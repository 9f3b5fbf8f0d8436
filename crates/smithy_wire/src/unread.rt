// What can't be read of a body, and where it stands.
ghost use Rattle.std.specs.Prelude.{◌≡◌, ◌++◌, [], IfOk};
ghost use Rattle.smithy_wire.specs.Unwire.{part_step, unread};
ghost use Rattle.smithy_wire.specs.WireText.{at_path, unread_text, without_point};
ghost use Rattle.smithy_wire.specs.views.FormView.{form_view};
ghost use Rattle.smithy_wire.specs.views.WireReads.{step_view, IsOutward, ReadsWithin, TellsOutcome, TellsUnread};
ghost use Rattle.smithy_wire.specs.declared.unread.Unread.{Unread as Place};

use crate::forms::{Form, form_word};
use smithy_types::{Document, OutOfMemory, Text};
use std::alloc::{AllocFailed, Global};

/// What can't be read: the number or the text, the word of the kind that it is to be, and where it stands.
#[derive(Debug, Drop)]
pub(crate) struct Unread {
    pub(crate) text: Text,
    pub(crate) word: Text,
    pub(crate) path: Text,
}

/// Why a value of JSON is no document.
#[derive(Debug, Drop)]
pub(crate) enum ReadError {
    Unread(Unread),
    OutOfMemory,
}

/// A step of a path, from an array or an object to what stands in it.
#[derive(Clone, Copy)]
pub(crate) enum Step<'s> {
    Item(usize),
    Field(&'s str),
    Key(&'s str),
}

impl From<OutOfMemory> for ReadError {
    ghost use Rattle.smithy_wire.specs.declared.unread.ReadError.TheVariants as read_error;

    ghost from_gives = { λ _ e. e ≡ read_error.OutOfMemory };

    fn from(_: OutOfMemory) -> ReadError {
        ReadError::OutOfMemory
    }
}

impl<T: Drop> From<AllocFailed<T>> for ReadError {
    ghost use Rattle.smithy_wire.specs.declared.unread.ReadError.TheVariants as read_error;

    ghost from_gives = { λ _ e. e ≡ read_error.OutOfMemory };

    fn from(_: AllocFailed<T>) -> ReadError {
        ReadError::OutOfMemory
    }
}

fn made(alloc: Global, text: &str, word: &str) -> Result<Unread, OutOfMemory>
    ensures { IfOk result (λ (u : Place). u ≡ record { text = text.now; word = word.now; path = [] }) }
{
    Ok(Unread {
        text: Text::from_str(alloc, text)?,
        word: Text::from_str(alloc, word)?,
        path: Text::from_str(alloc, "")?,
    })
}

/// A text that can't be read as what stands there. Takes memory.
pub(crate) fn cannot_read(alloc: Global, text: &str, form: Form<'_>) -> ReadError
    ensures { TellsUnread (unread text.now (form_view form.entry)) result }
{
    match made(alloc, text, form_word(form)) {
        Ok(unread) => ReadError::Unread(unread),
        Err(_) => ReadError::OutOfMemory,
    }
}

/// The step to what stands in an object under a name.
pub(crate) fn part_step<'s>(form: Form<'_>, name: &'s str) -> Step<'s>
    ensures { step_view result ≡ part_step (form_view form.entry) name.now }
{
    match form {
        Form::Fields(_, _) => Step::Field(name),
        Form::Free => Step::Key(name),
        Form::Items(_) => Step::Key(name),
        Form::Entries(_) => Step::Key(name),
        Form::DateTime => Step::Key(name),
        Form::HttpDate => Step::Key(name),
        Form::BigInteger => Step::Key(name),
        Form::BigDecimal => Step::Key(name),
        Form::Whole(_) => Step::Key(name),
        Form::Document => Step::Key(name),
        Form::Other(_) => Step::Key(name),
    }
}

fn step_text(alloc: Global, step: Step<'_>) -> Result<Text, OutOfMemory>
    ensures { IfOk result (λ t. t ≡ step_view step.entry) }
{
    match step {
        Step::Item(position) => Ok(Text::from_string(format!(in alloc; "[{position}]")?)),
        Step::Field(name) => Ok(Text::from_string(format!(in alloc; ".{name}")?)),
        Step::Key(name) => Ok(Text::from_string(format!(in alloc; "[\"{name}\"]")?)),
    }
}

/// A path from one step further out.
pub(crate) fn behind(alloc: Global, step: Step<'_>, path: &Text) -> Result<Text, OutOfMemory>
    ensures { IfOk result (λ t. t ≡ step_view step.entry ++ path.now) }
{
    let first = step_text(alloc, step)?;
    let whole = format!(in alloc; "{}{}", first.as_str(), path.as_str())?;
    Ok(Text::from_string(whole))
}

// One step further out.
fn outward(alloc: Global, step: Step<'_>, inner: Unread) -> Result<Unread, OutOfMemory>
    ensures { IfOk result (IsOutward (step_view step.entry) inner) }
{
    let Unread { text, word, path } = inner;
    let path = behind(alloc, step, &path)?;
    Ok(Unread { text, word, path })
}

/// What was read behind a step; what can't be read is told from one step further out. Takes memory for that alone.
pub(crate) fn within(
    alloc: Global,
    step: Step<'_>,
    tried: Result<Document, ReadError>,
) -> Result<Document, ReadError>
    ensures { ReadsWithin (step_view step.entry) tried result }
{
    match tried {
        Ok(document) => Ok(document),
        Err(ReadError::OutOfMemory) => Err(ReadError::OutOfMemory),
        Err(ReadError::Unread(unread)) => match outward(alloc, step, unread) {
            Ok(outer) => Err(ReadError::Unread(outer)),
            Err(_) => Err(ReadError::OutOfMemory),
        },
    }
}

/// A path begins with no point.
pub(crate) fn without_point(path: &str) -> &str
    ensures { result.now ≡ without_point path.now }
{
    match path.strip_prefix('.') {
        Some(rest) => rest,
        None => path,
    }
}

// Where a value stands, for a message: nothing at the root.
fn at_path(alloc: Global, path: &str) -> Result<Text, OutOfMemory>
    ensures { IfOk result (λ t. t ≡ at_path path.now) }
{
    if path.is_empty() {
        return Text::from_str(alloc, "");
    }
    let shown = without_point(path);
    Ok(Text::from_string(format!(in alloc; " at {shown}")?))
}

fn message(alloc: Global, unread: &Unread) -> Result<Text, OutOfMemory>
    ensures { IfOk result (λ t. t ≡ unread_text unread.now) }
{
    let place = at_path(alloc, unread.path.as_str())?;
    let (text, word) = (unread.text.as_str(), unread.word.as_str());
    Ok(Text::from_string(format!(in alloc; "cannot read {text} as {word}{}", place.as_str())?))
}

/// What was read, or the text of the refusal of what can't be: the number or the text, the kind and the path. Takes memory for
/// that text alone.
pub(crate) fn told(
    alloc: Global,
    tried: Result<Document, ReadError>,
) -> Result<Result<Document, Text>, OutOfMemory>
    ensures { IfOk result (TellsOutcome tried) }
{
    match tried {
        Ok(document) => Ok(Ok(document)),
        Err(ReadError::Unread(unread)) => Ok(Err(message(alloc, &unread)?)),
        Err(ReadError::OutOfMemory) => Err(OutOfMemory),
    }
}
