// Registries of the shapes of a row's model.
ghost use Rattle.std.specs.Prelude.{◌≡◌, true, is_some, IfSome, IfOk};
ghost use Rattle.smithy_types.specs.DocumentView.{view};
ghost use Rattle.smithy_schema.specs.References.{index_of};

use crate::entries::{entry_told, iter_told};
use crate::given::{canonical_document_of, input_of};
use crate::model::input_schema;
use crate::settings::OwnSettings;
use crate::told::{optional, push_part};
use crate::values::{members_told, target_of};
use serde_json::Value;
use smithy_document::{JsonCodec, ShapeSettings};
use smithy_http::Headers;
use smithy_ids::ShapeId;
use smithy_registry::{
    ComposedRegistry, RegistryEntry, TypeRegistry, TypeRegistryBuilder,
    parse_query_compatible_header, reify_error, sanitize_error_code,
};
use smithy_schema::{SchemaIndex, SchemaRef, Schemas};
use smithy_serde::{Codec, ValueReader};
use smithy_types::{DiscriminatedDocument, Document, NoSettings, Text};
use std::alloc::Global;
use test_rows::{Failed, item_bytes, items_of, text_of};

/// What registries answer that were filled by the steps under `first` and `second`, with the shapes of the input's members.
pub fn answer(alloc: Global, call: &str, given: &Value) -> Result<Option<Text>, Failed> {
    match call {
        "sanitize_error_code" => {
            let code = sanitize_error_code(text_of(given, "code")?);
            Ok(Some(Text::from_str(alloc, code)?))
        }
        "parse_query_compatible_header" => Ok(Some(query_error(alloc, given)?)),
        _ => match given.get("first") {
            Some(_) => by_registries(alloc, call, given),
            None => Ok(None),
        },
    }
}

fn query_error(alloc: Global, given: &Value) -> Result<Text, Failed> {
    let mut headers = Headers::new(alloc);
    for value in items_of(given, "values")? {
        let value = item_bytes(alloc, value)?;
        headers
            .append("X-Amzn-Query-Error", value.as_slice())
            .map_err(|_| Failed)?;
    }
    match parse_query_compatible_header(&headers) {
        Some((code, fault)) => Ok(Text::from_string(format!(in alloc; "Some {code} {fault}")?)),
        None => optional(alloc, None),
    }
}

fn by_registries(alloc: Global, call: &str, given: &Value) -> Result<Option<Text>, Failed> {
    let placed = input_schema(alloc, given)?;
    let (table, place) = (&placed.table, placed.index);
    let first = registry_of(alloc, table, place, items_of(given, "first")?.as_slice())?;
    let second = match given.get("second").and_then(Value::as_array) {
        Some(steps) => registry_of(alloc, table, place, steps.as_slice())?,
        None => TypeRegistry::new(alloc),
    };
    let text = match call {
        "TypeRegistry" => all_asked(alloc, table, &first, given)?,
        "TypeRegistry::compose" => {
            let whole = first.compose(second)?;
            all_asked(alloc, table, &whole, given)?
        }
        "ComposedRegistry" => both_asked(alloc, table, first.or(&second), given)?,
        "reify_error" => reified(alloc, first.or(&second), given)?,
        "deserialize_document" => read_document(alloc, &first, &NoSettings, given)?,
        "deserialize_document(OwnSettings)" => read_document(alloc, &first, &OwnSettings, given)?,
        _ => return Ok(None),
    };
    Ok(Some(text))
}

fn node<'t>(table: &'t Schemas, place: SchemaIndex) -> Option<SchemaRef<'t>>
    ensures { IfSome result (λ n. is_some (index_of n) ≡ true) }
{
    table.get(place)
}

// What reads structures by the node at a place.
fn reader<'t>(table: &'t Schemas, place: SchemaIndex) -> Option<ValueReader<'t>> {
    match table.get(place) {
        Some(_) => Some(ValueReader::new(table, place)),
        None => None,
    }
}

fn registry_of<'t>(
    alloc: Global,
    table: &'t Schemas,
    place: SchemaIndex,
    steps: &[Value],
) -> Result<TypeRegistry<ValueReader<'t>>, Failed> {
    let mut builder = TypeRegistry::builder(alloc);
    for step in steps {
        put(&mut builder, table, place, step)?;
    }
    Ok(builder.build())
}

// The shape of the member that an item of a step names.
fn shape_at(table: &Schemas, place: SchemaIndex, step: &Value, item: usize) -> Option<SchemaIndex> {
    target_of(table, place, step.get(item)?.as_str()?)
}

fn put<'t>(
    builder: &mut TypeRegistryBuilder<ValueReader<'t>>,
    table: &'t Schemas,
    place: SchemaIndex,
    step: &Value,
) -> Result<(), Failed> {
    let shape = shape_at(table, place, step, 1).ok_or(Failed)?;
    let read = reader(table, shape).ok_or(Failed)?;
    let schema = node(table, shape).ok_or(Failed)?;
    match step.get(0).and_then(Value::as_str) {
        Some("insert_shape") => builder.insert_shape(schema, read)?,
        Some("insert_error_shape") => {
            let error = shape_at(table, place, step, 2).ok_or(Failed)?;
            let error = reader(table, error).ok_or(Failed)?;
            builder.insert_error_shape(schema, read, error)?;
        }
        Some(name) => {
            let id = ShapeId::parse(name).ok_or(Failed)?;
            let entry = match shape_at(table, place, step, 2).and_then(|at| reader(table, at)) {
                Some(error) => RegistryEntry::new_error(shape, read, error),
                None => RegistryEntry::new(shape, read),
            };
            builder.insert(id, entry)?;
        }
        None => return Err(Failed),
    }
    Ok(())
}

// What is asked under `asks`, each a name of a call and a text.
fn all_asked(
    alloc: Global,
    table: &Schemas,
    registry: &TypeRegistry<ValueReader<'_>>,
    given: &Value,
) -> Result<Text, Failed> {
    let mut text = Text::from_str(alloc, "")?;
    for ask in items_of(given, "asks")? {
        let call = ask.get(0).and_then(Value::as_str).ok_or(Failed)?;
        let name = ask.get(1).and_then(Value::as_str).unwrap_or("");
        let answer = asked(alloc, table, registry, call, name)?;
        push_part(&mut text, answer.as_str())?;
    }
    Ok(text)
}

fn asked(
    alloc: Global,
    table: &Schemas,
    registry: &TypeRegistry<ValueReader<'_>>,
    call: &str,
    name: &str,
) -> Result<Text, Failed> {
    let id = ShapeId::parse(name);
    match call {
        "len" => {
            let (len, is_empty) = (registry.len(), registry.is_empty());
            Ok(Text::from_string(format!(in alloc; "{len} {is_empty}")?))
        }
        "iter" => iter_told(alloc, table, registry),
        "schema_for" => place_told(alloc, table, registry.schema_for(id.ok_or(Failed)?)),
        "schema_for_fqn" => place_told(alloc, table, registry.schema_for_fqn(name)),
        "entry_for" => entry_told(alloc, table, registry.entry_for(id.ok_or(Failed)?)),
        "entry_for_fqn" => entry_told(alloc, table, registry.entry_for_fqn(name)),
        "entry_for_error_code" => entry_told(alloc, table, registry.entry_for_error_code(name)),
        _ => Err(Failed),
    }
}

fn place_told(alloc: Global, table: &Schemas, place: Option<SchemaIndex>) -> Result<Text, Failed> {
    match place {
        Some(place) => optional(alloc, Some(table.get(place).ok_or(Failed)?.full_name())),
        None => optional(alloc, None),
    }
}

fn both_asked(
    alloc: Global,
    table: &Schemas,
    both: ComposedRegistry<'_, ValueReader<'_>>,
    given: &Value,
) -> Result<Text, Failed> {
    let mut text = Text::from_str(alloc, "")?;
    for ask in items_of(given, "asks")? {
        let name = ask.get(1).and_then(Value::as_str).unwrap_or("");
        let found = match ask.get(0).and_then(Value::as_str) {
            Some("entry_for") => both.entry_for(ShapeId::parse(name).ok_or(Failed)?),
            Some("entry_for_fqn") => both.entry_for_fqn(name),
            Some("entry_for_error_code") => both.entry_for_error_code(name),
            _ => return Err(Failed),
        };
        push_part(&mut text, entry_told(alloc, table, found)?.as_str())?;
    }
    Ok(text)
}

// The error with the code under `code`, read from the JSON under `text`.
fn reified(
    alloc: Global,
    both: ComposedRegistry<'_, ValueReader<'_>>,
    given: &Value,
) -> Result<Text, Failed> {
    let input = input_of(alloc, given)?;
    let Ok(mut reader) = JsonCodec.create_deserializer(alloc, input.as_slice()) else {
        return Err(Failed);
    };
    match reify_error(alloc, both, text_of(given, "code")?, &mut reader)? {
        Some(error) => members_told(alloc, Ok(error)),
        None => optional(alloc, None),
    }
}

// The document of the JSON under `text`, read by the shape under `discriminator`.
fn read_document<S: ShapeSettings + Copy>(
    alloc: Global,
    registry: &TypeRegistry<ValueReader<'_>>,
    settings: &S,
    given: &Value,
) -> Result<Text, Failed> {
    let document = canonical_document_of(alloc, given)?;
    let document = named(alloc, document, settings, given)?;
    members_told(alloc, registry.deserialize_document(alloc, &document))
}

// The document with these settings, and with the discriminator under `discriminator`, where there is one.
fn named<S: ShapeSettings + Copy>(
    alloc: Global,
    document: Document,
    settings: &S,
    given: &Value,
) -> Result<DiscriminatedDocument<S>, Failed>
    ensures { IfOk result (λ d. d.document ≡ view document) }
{
    let document = DiscriminatedDocument::new(document, *settings);
    match given.get("discriminator").and_then(Value::as_str) {
        Some(name) => Ok(document.with_discriminator(Text::from_str(alloc, name)?)),
        None => Ok(document),
    }
}
