// The JSON of AWS's protocols, by the input of a row's model.
ghost use Rattle.std.specs.Prelude.{◌≡◌, IfOk};
ghost use Rattle.smithy_schema.specs.References.{schema_of};
ghost use Rattle.smithy_wire.specs.KnownForms.{table_in};

use crate::given::{canonical_document, input_of};
use crate::json_text::document_text;
use crate::model::input_schema;
use crate::told::{answered, optional, refusal};
use json::{Scratch, Value as Json};
use serde_json::Value;
use smithy_json::JsonError;
use smithy_schema::SchemaRef;
use smithy_types::Text;
use smithy_wire::{
    JsonNames, Side, WireJson, WireStyle, json_in, json_name, names_stand, whole_names_stand,
};
use std::alloc::Global;
use test_rows::{Failed, flag_of, text_of};

/// What a call answers for the document or the body under `text`, by the input of the operation.
pub fn answer(alloc: Global, call: &str, given: &Value) -> Result<Option<Text>, Failed> {
    match call {
        "names_stand" => by_schema(alloc, call, given),
        "whole_names_stand" => by_schema(alloc, call, given),
        "json_name" => by_schema(alloc, call, given),
        "WireJson::text" => by_schema(alloc, call, given),
        "WireJson::document" => by_schema(alloc, call, given),
        "json_in" => Ok(Some(json_told(alloc, given)?)),
        _ => Ok(None),
    }
}

fn by_schema(alloc: Global, call: &str, given: &Value) -> Result<Option<Text>, Failed> {
    let placed = input_schema(alloc, given)?;
    let schema = placed.table.get(placed.index).ok_or(Failed)?;
    let told = match call {
        "names_stand" => stand_told(alloc, names_stand(alloc, schema, side_of(given))?)?,
        "whole_names_stand" => stand_told(alloc, whole_names_stand(alloc, schema)?)?,
        "json_name" => name_told(alloc, schema, given)?,
        "WireJson::text" => text_told(alloc, schema, given)?,
        _ => document_told(alloc, schema, given)?,
    };
    Ok(Some(told))
}

// The message that the row's schema is of: a request where it says nothing.
fn side_of(given: &Value) -> Side {
    if flag_of(given, "output") {
        Side::Response
    } else {
        Side::Request
    }
}

fn stand_told(alloc: Global, stand: bool) -> Result<Text, Failed> {
    Ok(Text::from_string(format!(in alloc; "{stand}")?))
}

fn name_told(alloc: Global, schema: SchemaRef<'_>, given: &Value) -> Result<Text, Failed> {
    match schema.member_schema(text_of(given, "member")?) {
        Some(member) => optional(alloc, Some(json_name(member))),
        None => optional(alloc, None),
    }
}

/// The names in JSON of the schema's table.
pub fn json_names<'t>(alloc: Global, schema: SchemaRef<'t>) -> Result<JsonNames<'t>, Failed>
    ensures { IfOk result (λ names. table_in names ≡ (schema_of schema.entry).table) }
{
    match schema.table() {
        Some(table) => Ok(JsonNames::of(alloc, table)?),
        None => Err(Failed),
    }
}

// How the row's JSON differs: without JSON names where it says so, and with fractions of seconds dropped where it says so.
fn style_of(given: &Value) -> WireStyle {
    WireStyle {
        json_names: !flag_of(given, "without_names"),
        floors_times: flag_of(given, "floors"),
    }
}

// The JSON of a request's body.
fn input_wire<'t>(
    alloc: Global,
    schema: SchemaRef<'t>,
    names: &'t JsonNames<'t>,
    given: &Value,
) -> Result<WireJson<'t>, Failed>
    requires { table_in names.now ≡ (schema_of schema).table }
{
    let style = style_of(given);
    if !names_stand(alloc, schema, Side::Request)? {
        return Err(Failed);
    }
    if flag_of(given, "by_names") {
        return Ok(WireJson::of_body(Side::Request, schema, style, Some(names)));
    }
    if style.floors_times {
        return Ok(WireJson::of_body(Side::Request, schema, style, None));
    }
    Ok(WireJson::of_input(schema, style.json_names))
}

// That of a response's.
fn output_wire<'t>(
    alloc: Global,
    schema: SchemaRef<'t>,
    names: &'t JsonNames<'t>,
    given: &Value,
) -> Result<WireJson<'t>, Failed>
    requires { table_in names.now ≡ (schema_of schema).table }
{
    let style = style_of(given);
    if !names_stand(alloc, schema, Side::Response)? {
        return Err(Failed);
    }
    if flag_of(given, "by_names") {
        return Ok(WireJson::of_body(Side::Response, schema, style, Some(names)));
    }
    Ok(WireJson::of_output(schema, style.json_names))
}

// That of the whole value.
fn whole_wire<'t>(
    alloc: Global,
    schema: SchemaRef<'t>,
    names: &'t JsonNames<'t>,
    given: &Value,
) -> Result<WireJson<'t>, Failed>
    requires { table_in names.now ≡ (schema_of schema).table }
{
    let style = style_of(given);
    if !whole_names_stand(alloc, schema)? {
        return Err(Failed);
    }
    if flag_of(given, "by_names") {
        return Ok(WireJson::of_node(schema, style, Some(names)));
    }
    if style.floors_times {
        return Ok(WireJson::of_node(schema, style, None));
    }
    Ok(WireJson::of_whole(schema, style.json_names))
}

/// The JSON of the input's side, of the output's or of the whole value, without JSON names where the row says so, by these names
/// where it says that fields are found by them, and with fractions of seconds dropped where it says so.
pub fn wire_of<'t>(
    alloc: Global,
    schema: SchemaRef<'t>,
    names: &'t JsonNames<'t>,
    given: &Value,
) -> Result<WireJson<'t>, Failed>
    requires { table_in names.now ≡ (schema_of schema).table }
{
    match text_of(given, "body")? {
        "input" => input_wire(alloc, schema, names, given),
        "output" => output_wire(alloc, schema, names, given),
        _ => whole_wire(alloc, schema, names, given),
    }
}

fn text_told(alloc: Global, schema: SchemaRef<'_>, given: &Value) -> Result<Text, Failed> {
    let names = json_names(alloc, schema)?;
    let wire = wire_of(alloc, schema, &names, given)?;
    let document = canonical_document(alloc, input_of(alloc, given)?.as_slice())?;
    let text = wire.text(alloc, &document)?;
    match str::from_utf8(text.as_slice()) {
        Ok(text) => Ok(Text::from_str(alloc, text)?),
        Err(_) => Err(Failed),
    }
}

fn document_told(alloc: Global, schema: SchemaRef<'_>, given: &Value) -> Result<Text, Failed> {
    let names = json_names(alloc, schema)?;
    let wire = wire_of(alloc, schema, &names, given)?;
    match wire.document(alloc, input_of(alloc, given)?.as_slice()) {
        Ok(document) => answered(alloc, document_text(alloc, &document)),
        Err(error) => refusal(alloc, &error),
    }
}

// The value of JSON that the bytes under `text` are: its kind, with a number's text, a text, or how many parts there are.
fn json_told(alloc: Global, given: &Value) -> Result<Text, Failed> {
    let bytes = input_of(alloc, given)?;
    let mut scratch = Scratch::new(alloc);
    match json_in(alloc, bytes.as_slice(), &mut scratch) {
        Ok(value) => kind_told(alloc, &value),
        Err(JsonError::Unreadable) => Ok(Text::from_str(alloc, "Unreadable")?),
        Err(JsonError::OutOfMemory) => Err(Failed),
    }
}

fn kind_told(alloc: Global, value: &Json<'_>) -> Result<Text, Failed> {
    Ok(Text::from_string(match value {
        Json::Null => format!(in alloc; "null")?,
        Json::Bool(truth) => format!(in alloc; "{truth}")?,
        Json::Number(text) => format!(in alloc; "number {text}")?,
        Json::String(text) => format!(in alloc; "string {text}")?,
        Json::Array(items) => format!(in alloc; "array of {}", items.len())?,
        Json::Object(members) => format!(in alloc; "object of {}", members.len())?,
    }))
}
