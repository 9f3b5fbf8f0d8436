// Descriptions of nodes, made call by call.
use crate::ids::{http_of, kind_named, time_format};
use crate::schema::trait_map::traits_of;
use crate::steps::{step_count, step_text, step_value};
use serde_json::Value;
use smithy_ids::{PayloadHint, ShapeId, ShapeType};
use smithy_schema::{Schema, SchemaIndex, Traits};
use std::alloc::Global;
use test_rows::{Failed, flag_of, items_of, text_of};

/// The places of an array.
pub fn places_of(alloc: Global, places: &[Value]) -> Result<Vec<SchemaIndex>, Failed> {
    let mut indexes = Vec::new(alloc);
    for place in places {
        let place = usize::try_from(place.as_u64().ok_or(Failed)?)
            .ok()
            .ok_or(Failed)?;
        indexes.push(SchemaIndex(place)).ok().ok_or(Failed)?;
    }
    Ok(indexes)
}

/// The members that a description cites, none where it isn't one of a structure.
pub fn members_of(alloc: Global, given: &Value) -> Result<Vec<SchemaIndex>, Failed> {
    let new = given.get("new").ok_or(Failed)?;
    match new.get(2).and_then(Value::as_array) {
        Some(places) => places_of(alloc, places.as_slice()),
        None => Ok(Vec::new(alloc)),
    }
}

/// The description of `id`, `new`, the call that begins it, and the calls `with`, with these members.
pub fn described<'a>(
    alloc: Global,
    given: &'a Value,
    members: &'a [SchemaIndex],
) -> Result<Schema<'a>, Failed> {
    let id = ShapeId::parse(text_of(given, "id")?).ok_or(Failed)?;
    let mut schema = begun(id, given.get("new").ok_or(Failed)?, members)?;
    for step in items_of(given, "with")? {
        schema = with_step(alloc, schema, step)?;
    }
    Ok(schema)
}

fn place(step: &Value, at: usize) -> Result<SchemaIndex, Failed> {
    Ok(SchemaIndex(step_count(step, at)?))
}

fn begun<'a>(
    id: ShapeId<'a>,
    new: &'a Value,
    members: &'a [SchemaIndex],
) -> Result<Schema<'a>, Failed> {
    match step_text(new, 0)? {
        "new_list" => Ok(Schema::new_list(id, place(new, 1)?)),
        "new_map" => Ok(Schema::new_map(id, place(new, 1)?, place(new, 2)?)),
        "new_struct" => Ok(Schema::new_struct(id, kind_at(new)?, members)),
        "new_member" => {
            let (kind, name) = (kind_at(new)?, step_text(new, 2)?);
            Ok(Schema::new_member(id, kind, name, step_count(new, 3)?))
        }
        "new_unindexed" => Ok(Schema::new_unindexed(id, kind_at(new)?, step_text(new, 2)?)),
        "new" => Ok(Schema::new(id, kind_at(new)?)),
        _ => Err(Failed),
    }
}

fn kind_at(new: &Value) -> Result<ShapeType, Failed> {
    kind_named(step_text(new, 1)?)
}

// The description with one call more.
fn with_step<'a>(alloc: Global, schema: Schema<'a>, step: &'a Value) -> Result<Schema<'a>, Failed> {
    let call = step_text(step, 0)?;
    match step.get(1).and_then(Value::as_str) {
        Some(text) => with_text(schema, call, text, step),
        None => with_value(alloc, schema, call, step),
    }
}

fn with_text<'a>(
    schema: Schema<'a>,
    call: &str,
    text: &'a str,
    step: &'a Value,
) -> Result<Schema<'a>, Failed> {
    match call {
        "with_json_name" => Ok(schema.with_json_name(text)),
        "with_xml_name" => Ok(schema.with_xml_name(text)),
        "with_http_header" => Ok(schema.with_http_header(text)),
        "with_http_prefix_headers" => Ok(schema.with_http_prefix_headers(text)),
        "with_http_query" => Ok(schema.with_http_query(text)),
        "with_media_type" => Ok(schema.with_media_type(text)),
        "with_original_name" => Ok(schema.with_original_name(text)),
        _ => with_word(schema, call, text, step),
    }
}

fn with_word<'a>(
    schema: Schema<'a>,
    call: &str,
    text: &'a str,
    step: &'a Value,
) -> Result<Schema<'a>, Failed> {
    match call {
        "with_timestamp_format" => {
            let format = time_format(text)?;
            Ok(schema.with_timestamp_format(format))
        }
        "with_payload_hint" => {
            let hint = hint_named(text)?;
            Ok(schema.with_payload_hint(hint))
        }
        "with_xml_namespace" => {
            let prefix = step.get(2).and_then(Value::as_str);
            Ok(schema.with_xml_namespace(text, prefix))
        }
        _ => Err(Failed),
    }
}

fn with_value<'a>(
    alloc: Global,
    schema: Schema<'a>,
    call: &str,
    step: &'a Value,
) -> Result<Schema<'a>, Failed> {
    match call {
        "with_target" => {
            let target = place(step, 1)?;
            Ok(schema.with_target(target))
        }
        "with_list_member" => {
            let member = place(step, 1)?;
            Ok(schema.with_list_member(member))
        }
        "with_map_members" => {
            let (key, value) = (place(step, 1)?, place(step, 2)?);
            Ok(schema.with_map_members(key, value))
        }
        _ => with_traits(alloc, schema, call, step),
    }
}

fn with_traits<'a>(
    alloc: Global,
    schema: Schema<'a>,
    call: &str,
    step: &'a Value,
) -> Result<Schema<'a>, Failed> {
    match call {
        "with_traits" => {
            let traits = traits_of(alloc, step_value(step, 1)?)?;
            Ok(schema.with_traits(traits))
        }
        "with_plain_traits" => {
            let traits = plain_traits(step_value(step, 1)?);
            Ok(schema.with_plain_traits(traits))
        }
        "with_http" => {
            let http = http_of(step_value(step, 1)?)?;
            Ok(schema.with_http(http))
        }
        _ => with_mark(schema, call),
    }
}

fn with_mark<'a>(schema: Schema<'a>, call: &str) -> Result<Schema<'a>, Failed> {
    match call {
        "with_sensitive" => Ok(schema.with_sensitive()),
        "with_xml_attribute" => Ok(schema.with_xml_attribute()),
        "with_xml_flattened" => Ok(schema.with_xml_flattened()),
        "with_xml_unwrapped_output" => Ok(schema.with_xml_unwrapped_output()),
        "with_http_label" => Ok(schema.with_http_label()),
        "with_http_payload" => Ok(schema.with_http_payload()),
        "with_http_query_params" => Ok(schema.with_http_query_params()),
        _ => with_further_mark(schema, call),
    }
}

fn with_further_mark<'a>(schema: Schema<'a>, call: &str) -> Result<Schema<'a>, Failed> {
    match call {
        "with_http_response_code" => Ok(schema.with_http_response_code()),
        "with_streaming" => Ok(schema.with_streaming()),
        "with_event_header" => Ok(schema.with_event_header()),
        "with_event_payload" => Ok(schema.with_event_payload()),
        "with_host_label" => Ok(schema.with_host_label()),
        "with_no_body_members" => Ok(schema.with_no_body_members()),
        _ => Err(Failed),
    }
}

fn hint_named(name: &str) -> Result<PayloadHint, Failed> {
    match name {
        "Unknown" => Ok(PayloadHint::Unknown),
        "NoStructPayload" => Ok(PayloadHint::NoStructPayload),
        "StructPayload" => Ok(PayloadHint::StructPayload),
        _ => Err(Failed),
    }
}

fn text_in<'a>(given: &'a Value, key: &str) -> Option<&'a str> {
    given.get(key).and_then(Value::as_str)
}

// The traits that are set at once.
fn plain_traits<'a>(given: &'a Value) -> Traits<'a> {
    Traits {
        http_header: text_in(given, "http_header"),
        http_prefix_headers: text_in(given, "http_prefix_headers"),
        http_query: text_in(given, "http_query"),
        media_type: text_in(given, "media_type"),
        json_name: text_in(given, "json_name"),
        xml_name: text_in(given, "xml_name"),
        streaming: flag_of(given, "streaming"),
        http_label: flag_of(given, "http_label"),
        ..Traits::NONE
    }
}
