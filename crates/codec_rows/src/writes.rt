// Writes to serializers, one after the other.
ghost use Rattle.std.specs.Prelude.{◌≡◌, IfOk, OnOk, IsSome};
ghost use Rattle.smithy_serde.specs.Recording.{open_count};

use crate::json_text::{document_text, plain};
use crate::model::input_schema;
use crate::one_write::{one_write, step_of};
use crate::told::{answered, push_part, refusal};
use crate::value_text::{document_told, writes_told};
use crate::wire::{json_names, wire_of};
use serde_json::Value;
use smithy_document::{DocumentShapeSerializer, JsonCodec};
use smithy_schema::SchemaRef;
use smithy_serde::{Codec, FinishSerializer, Recorder, SerdeError, ShapeSerializer};
use smithy_strings::{HttpStringCodec, HttpStringSerializer};
use smithy_types::{Document, Text};
use std::alloc::Global;
use test_rows::{Failed, items_of, told_bytes};

/// What a serializer finishes with that is told the calls under `steps`. Where one is refused: its place, its refusal, that of
/// a null behind it, and that of the finish.
pub fn answer(alloc: Global, call: &str, given: &Value) -> Result<Option<Text>, Failed> {
    let Some(_) = given.get("model") else {
        return by_name(alloc, call, None, given);
    };
    let placed = input_schema(alloc, given)?;
    let schema = placed.table.get(placed.index).ok_or(Failed)?;
    by_name(alloc, call, Some(schema), given)
}

fn by_name(
    alloc: Global,
    call: &str,
    schema: Option<SchemaRef<'_>>,
    given: &Value,
) -> Result<Option<Text>, Failed> {
    let text = match call {
        "JsonCodec" => by_codec(alloc, &JsonCodec, schema, given)?,
        "HttpStringCodec" => by_codec(alloc, &HttpStringCodec, schema, given)?,
        "HttpStringSerializer" => by_string(alloc, schema, given)?,
        "WireJson::create_serializer" => by_wire(alloc, schema, given)?,
        "DocumentShapeSerializer" => by_document(alloc, schema, given, false)?,
        "DocumentShapeSerializer::into_document" => by_document(alloc, schema, given, true)?,
        "Recorder" => by_recorder(alloc, schema, given)?,
        _ => return Ok(None),
    };
    Ok(Some(text))
}

// The calls in turn, up to the first refusal: how many are told, and how many lists are open.
fn all_writes<S: ShapeSerializer>(
    alloc: Global,
    to: &mut S,
    schema: Option<SchemaRef<'_>>,
    steps: &[Value],
    told: &mut u32,
) -> Result<usize, SerdeError>
    requires { (S.seen to.old).lists ≡ 0 }
    ensures { IfOk result (λ d. (S.seen to.new).lists ≡ d) }
{
    let mut depth = 0;
    'steps: for step in steps {
        let Some(step) = step_of(step, schema) else {
            return Err(SerdeError::custom(alloc, "no such call"));
        };
        depth = one_write(alloc, to, step, depth)?;
        *told = told.saturating_add(1);
    }
    Ok(depth)
}

// How many calls were told, the refusal of the next one, and that of a null behind it.
fn refused<S: ShapeSerializer>(
    alloc: Global,
    to: &mut S,
    told: u32,
    error: &SerdeError,
) -> Result<Text, Failed>
    ensures { OnOk result (IsSome (S.seen to.new).refusal) }
{
    let Err(again) = to.write_null(plain()) else {
        return Err(Failed);
    };
    let mut text = Text::from_string(format!(in alloc; "{told} told")?);
    push_part(&mut text, refusal(alloc, error)?.as_str())?;
    push_part(&mut text, refusal(alloc, &again)?.as_str())?;
    Ok(text)
}

// The same with what the finish answers.
fn with_end(alloc: Global, mut text: Text, end: Option<SerdeError>) -> Result<Text, Failed> {
    match end {
        Some(error) => push_part(&mut text, refusal(alloc, &error)?.as_str())?,
        None => push_part(&mut text, "finished")?,
    }
    Ok(text)
}

fn by_codec<C: Codec>(
    alloc: Global,
    codec: &C,
    schema: Option<SchemaRef<'_>>,
    given: &Value,
) -> Result<Text, Failed> {
    let steps = items_of(given, "steps")?;
    let Ok(mut to) = codec.create_serializer(alloc) else {
        return Err(Failed);
    };
    let mut told = 0;
    match all_writes(alloc, &mut to, schema, steps.as_slice(), &mut told) {
        Ok(0) => {
            let bytes = to.finish().map_err(|_| Failed)?;
            told_bytes(alloc, bytes.as_slice())
        }
        Ok(_) => Err(Failed),
        Err(error) => {
            let text = refused(alloc, &mut to, told, &error)?;
            with_end(alloc, text, to.finish().err())
        }
    }
}

// By the JSON of the schema.
fn by_wire(alloc: Global, schema: Option<SchemaRef<'_>>, given: &Value) -> Result<Text, Failed> {
    let node = schema.ok_or(Failed)?;
    let names = json_names(alloc, node)?;
    let wire = wire_of(alloc, node, &names, given)?;
    by_codec(alloc, &wire, schema, given)
}

fn by_string(alloc: Global, schema: Option<SchemaRef<'_>>, given: &Value) -> Result<Text, Failed> {
    let steps = items_of(given, "steps")?;
    let mut to = HttpStringSerializer::new(alloc);
    let mut told = 0;
    match all_writes(alloc, &mut to, schema, steps.as_slice(), &mut told) {
        Ok(0) => answered(alloc, HttpStringSerializer::finish(to)),
        Ok(_) => Err(Failed),
        Err(error) => {
            let text = refused(alloc, &mut to, told, &error)?;
            with_end(alloc, text, HttpStringSerializer::finish(to).err())
        }
    }
}

// The document with its discriminator, or the document alone, `None` where nothing is told.
fn by_document(
    alloc: Global,
    schema: Option<SchemaRef<'_>>,
    given: &Value,
    is_alone: bool,
) -> Result<Text, Failed> {
    let steps = items_of(given, "steps")?;
    let mut to = DocumentShapeSerializer::new(alloc);
    let mut told = 0;
    match all_writes(alloc, &mut to, schema, steps.as_slice(), &mut told) {
        Ok(0) => {
            if is_alone {
                alone(alloc, to.into_document())
            } else {
                document_told(alloc, to.finish())
            }
        }
        Ok(_) => Err(Failed),
        Err(error) => {
            let text = refused(alloc, &mut to, told, &error)?;
            let end = if is_alone {
                to.into_document().err()
            } else {
                to.finish().err()
            };
            with_end(alloc, text, end)
        }
    }
}

fn alone(alloc: Global, told: Result<Option<Document>, SerdeError>) -> Result<Text, Failed> {
    match told {
        Ok(Some(document)) => answered(alloc, document_text(alloc, &document)),
        Ok(None) => Ok(Text::from_str(alloc, "None")?),
        Err(error) => refusal(alloc, &error),
    }
}

fn by_recorder(
    alloc: Global,
    schema: Option<SchemaRef<'_>>,
    given: &Value,
) -> Result<Text, Failed> {
    let steps = items_of(given, "steps")?;
    let mut to = Recorder::new(alloc);
    let mut told = 0;
    match all_writes(alloc, &mut to, schema, steps.as_slice(), &mut told) {
        Ok(0) => recorded(alloc, to),
        Ok(_) => Err(Failed),
        Err(error) => {
            let text = refused(alloc, &mut to, told, &error)?;
            with_end(alloc, text, to.finish().err())
        }
    }
}

fn recorded(alloc: Global, to: Recorder) -> Result<Text, Failed>
    requires { open_count to ≡ 0 }
{
    match to.finish() {
        Ok(recorded) => writes_told(alloc, recorded.table(), recorded.writes()),
        Err(error) => refusal(alloc, &error),
    }
}
