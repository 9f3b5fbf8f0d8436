// Templates: that of a schema, whether it is clear for the schema's labels, and how a text is cut at its holes.
use crate::given_job::job_bytes;
use crate::models::placed;
use crate::told::{flag_text, no_job, with_short_runs};
use serde_json::Value;
use smithy_binding::{checked_input, cut, has_clear_template, template_of};
use smithy_json::{Scratch, read_json};
use smithy_schema::SchemaRef;
use smithy_types::Text;
use std::alloc::Global;
use test_rows::{Failed, long_text_of};

/// The answer of one of these calls; none of another.
pub fn answer(alloc: Global, call: &str, given: &Value) -> Result<Option<Text>, Failed> {
    match call {
        "has_clear_template" => Ok(Some(by_schema(alloc, given, true)?)),
        "template_of" => Ok(Some(by_schema(alloc, given, false)?)),
        "cut" => Ok(Some(pieces(alloc, given)?)),
        _ => Ok(None),
    }
}

// By the schema that a row asks for of its model, and the endpoint: the template, or whether it is clear.
fn by_schema(alloc: Global, given: &Value, is_test: bool) -> Result<Text, Failed> {
    let bytes = job_bytes(alloc, given)?;
    let mut scratch = Scratch::new(alloc);
    let job = match read_json(alloc, bytes.as_slice(), &mut scratch) {
        Ok(job) => job,
        Err(refusal) => return no_job(alloc, refusal.into()),
    };
    let asked = match placed(alloc, &job) {
        Ok(asked) => asked,
        Err(refusal) => return no_job(alloc, refusal),
    };
    let Some(schema) = asked.table.get(asked.index) else {
        return Err(Failed);
    };
    let endpoint = long_text_of(alloc, given, "endpoint")?;
    if is_test {
        clear(alloc, schema, endpoint.as_str())
    } else {
        with_short_runs(alloc, template_of(schema, endpoint.as_str()))
    }
}

fn clear(alloc: Global, schema: SchemaRef<'_>, endpoint: &str) -> Result<Text, Failed> {
    if !checked_input(alloc, schema)? {
        return Ok(Text::from_str(alloc, "no request by this schema")?);
    }
    flag_text(alloc, has_clear_template(alloc, schema, endpoint)?)
}

fn push_quoted(text: &mut Text, literal: &str) -> Result<(), Failed> {
    text.push_str("\"")?;
    text.push_str(literal)?;
    text.push_str("\"")?;
    Ok(())
}

// Each literal between quotes, and behind it the hole, if one follows, between braces.
fn pieces(alloc: Global, given: &Value) -> Result<Text, Failed> {
    let text = long_text_of(alloc, given, "text")?;
    let template = cut(alloc, text.as_str())?;
    let mut told = Text::from_str(alloc, "")?;
    for hole in template.holes.iter() {
        push_quoted(&mut told, hole.literal)?;
        told.push_str(" {")?;
        told.push_str(hole.name)?;
        told.push_str(if hole.is_greedy { "} greedy; " } else { "}; " })?;
    }
    push_quoted(&mut told, template.last)?;
    with_short_runs(alloc, told.as_str())
}
