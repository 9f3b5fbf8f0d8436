// Answers as texts.
use smithy_http::{Headers, Request};
use smithy_model::JobError;
use smithy_schema::{SchemaIndex, Schemas};
use smithy_serde::{SerdeError, WriteList};
use smithy_types::Text;
use std::alloc::Global;
use test_rows::{Failed, told_bytes};

// A character that stands more often in a row is told by its count.
const LONG_RUN: usize = 99;

/// `NoJob`, where it isn't memory that was wanted. It takes memory.
pub fn no_job(alloc: Global, refusal: JobError) -> Result<Text, Failed> {
    match refusal {
        JobError::NoJob => Ok(Text::from_str(alloc, "NoJob")?),
        JobError::OutOfMemory => Err(Failed),
    }
}

/// Whether a test holds. It takes memory.
pub fn flag_text(alloc: Global, holds: bool) -> Result<Text, Failed> {
    let word = if holds { "true" } else { "false" };
    Ok(Text::from_str(alloc, word)?)
}

/// The variant and the text of a refusal, where it isn't memory that was wanted. It takes memory.
pub fn refusal_text(alloc: Global, refusal: &SerdeError) -> Result<Text, Failed> {
    if let SerdeError::OutOfMemory = refusal {
        return Err(Failed);
    }
    let name = refusal.variant_name();
    Ok(Text::from_string(format!(in alloc; "{name}: {refusal}")?))
}

/// A request as text, or the variant and the text of a refusal. It takes memory.
pub fn outcome_text(alloc: Global, outcome: Result<Request, SerdeError>) -> Result<Text, Failed> {
    match outcome {
        Ok(request) => request_text(alloc, &request),
        Err(refusal) => refusal_text(alloc, &refusal),
    }
}

/// A request as text: a line of method and target, a line for each header, an empty line, and the body. It takes memory.
pub fn request_text(alloc: Global, request: &Request) -> Result<Text, Failed> {
    let (method, target) = (request.method(), request.uri());
    let mut text = Text::from_string(format!(in alloc; "{method} {target}\n")?);
    push_headers(alloc, &mut text, request.headers())?;
    text.push_str("\n")?;
    text.push_str(told_bytes(alloc, request.body().as_slice())?.as_str())?;
    with_short_runs(alloc, text.as_str())
}

/// Adds a line for each header. It takes memory.
pub fn push_headers(alloc: Global, text: &mut Text, headers: &Headers) -> Result<(), Failed> {
    for (name, value) in headers.iter_bytes() {
        text.push_str(name)?;
        text.push_str(": ")?;
        text.push_str(told_bytes(alloc, value)?.as_str())?;
        text.push_str("\n")?;
    }
    Ok(())
}

/// The text, in which a character that stands more than 99 times in a row is told as `{a*N}`. It takes memory.
pub fn with_short_runs(alloc: Global, text: &str) -> Result<Text, Failed> {
    let mut told = String::new(alloc);
    let mut last = '\0';
    let mut count: usize = 0;
    for character in text.chars() {
        if character == last {
            count = count.saturating_add(1);
            continue;
        }
        push_run(alloc, &mut told, last, count)?;
        last = character;
        count = 1;
    }
    push_run(alloc, &mut told, last, count)?;
    Ok(Text::from_string(told))
}

fn push_run(alloc: Global, told: &mut String, character: char, count: usize) -> Result<(), Failed> {
    if count > LONG_RUN {
        told.push_str(format!(in alloc; "{{{character}*{count}}}")?.as_str())?;
        return Ok(());
    }
    for _ in 0..count {
        told.push(character)?;
    }
    Ok(())
}

/// The writes in order, each as the name of its member and the word of its kind. It takes memory.
pub fn writes_text(alloc: Global, nodes: &Schemas, writes: &WriteList) -> Result<Text, Failed> {
    let mut text = Text::from_str(alloc, "")?;
    for (node, value) in writes.iter() {
        let name = match nodes.get(node) {
            Some(node) => node.member_name().unwrap_or(""),
            None => "",
        };
        let word = value.written_word();
        text.push_str(format!(in alloc; "{name} {word}; ")?.as_str())?;
    }
    Ok(text)
}

/// The answer that all ways gave; where two differ, all of them. It takes memory.
pub fn same_text(alloc: Global, answers: &[Text]) -> Result<Text, Failed> {
    let Some((first, others)) = answers.split_first() else {
        return Err(Failed);
    };
    let mut text = Text::from_str(alloc, first.as_str())?;
    if are_all(others, first.as_str()) {
        return Ok(text);
    }
    for answer in others {
        text.push_str("\nanother way: ")?;
        text.push_str(answer.as_str())?;
    }
    Ok(text)
}

fn are_all(answers: &[Text], wanted: &str) -> bool {
    answers.iter().all(|answer| answer.as_str() == wanted)
}

/// Adds the full names of the nodes at these places. It takes memory.
pub fn push_names(text: &mut Text, table: &Schemas, places: &[SchemaIndex]) -> Result<(), Failed> {
    for place in places {
        text.push_str(" ")?;
        text.push_str(table.get(*place).ok_or(Failed)?.full_name())?;
    }
    Ok(())
}
