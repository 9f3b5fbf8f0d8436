// Errors by their codes, and documents by their discriminators.
use crate::asked::asked_of;
use crate::json::json_of;
use crate::readers::body_reader;
use crate::told::told;
use serde_json::Value;
use smithy_aws::{error_code, response_error};
use smithy_http::Response;
use smithy_job::{CodedError, Expected, Received, read_received};
use smithy_json::{Scratch, read_json};
use smithy_registry::{RegistryEntry, TypeRegistry, TypeRegistryBuilder, reify_error};
use smithy_schema::{SchemaIndex, SchemaRef, Schemas};
use smithy_serde::{SerdeError, SerializableStruct, ShapeDeserializer, StructValue, ValueReader};
use smithy_types::{DiscriminatedDocument, Document, NoSettings, Text};
use std::alloc::Global;
use test_rows::{Failed, text_of};

/// What the errors of a job with a code answer: those of the operation are asked first, and then those of its service. Each is
/// read as an error by its own node, and else by that of the first; the one under `plain` is registered as no error.
pub fn answer(alloc: Global, call: &str, given: &Value) -> Result<Option<Text>, Failed> {
    match call {
        "reify_error" => Ok(Some(reified(alloc, &errors_asked(alloc, given)?, given)?)),
        "ComposedRegistry::entry_for_error_code" => {
            Ok(Some(named_by_code(alloc, &errors_asked(alloc, given)?, given)?))
        }
        "error_code" => Ok(Some(code_told(alloc, given)?)),
        "response_error" => Ok(Some(error_told(alloc, &errors_asked(alloc, given)?, given)?)),
        "TypeRegistry::deserialize_document" => {
            Ok(Some(read_as_named(alloc, &errors_asked(alloc, given)?, given)?))
        }
        _ => Ok(None),
    }
}

// The code by which the response of a job names its error.
fn code_told(alloc: Global, given: &Value) -> Result<Text, Failed> {
    match error_code(alloc, &asked_of(alloc, given)?.response)? {
        Some(code) => Ok(code),
        None => Ok(Text::from_str(alloc, "None")?),
    }
}

// The name of the error that the response has.
fn error_told(alloc: Global, errors: &Errors, given: &Value) -> Result<Text, Failed> {
    let plain = plain_name(given);
    let operation = registry_of(alloc, &errors.table, errors.operation.as_slice(), plain)?;
    let service = registry_of(alloc, &errors.table, errors.service.as_slice(), plain)?;
    match response_error(alloc, &errors.response, operation.or(&service)) {
        Ok(Some(place)) => name_at(alloc, &errors.table, place),
        Ok(None) => Ok(Text::from_str(alloc, "None")?),
        Err(refusal) => told(alloc, Err(refusal)),
    }
}

// A response with its code, and the places of the errors.
#[derive(Drop)]
struct Errors {
    response: Response,
    table: Schemas,
    operation: Vec<SchemaIndex>,
    service: Vec<SchemaIndex>,
}

fn errors_asked(alloc: Global, given: &Value) -> Result<Errors, Failed> {
    let text = given.to_string(alloc)?;
    let mut scratch = Scratch::new(alloc);
    let job = read_json(alloc, text.as_bytes(), &mut scratch).map_err(|_| Failed)?;
    let received = read_received(alloc, &job).map_err(|_| Failed)?;
    let Received {
        response,
        table,
        expected,
        ..
    } = received;
    match expected {
        Expected::Coded(
            CodedError {
                operation,
                service,
                ..
            },
        ) => Ok(Errors {
            response,
            table,
            operation,
            service,
        }),
        _ => Err(Failed),
    }
}

// The shapes at these places, by their names.
fn registry_of<'t>(
    alloc: Global,
    table: &'t Schemas,
    places: &[SchemaIndex],
    plain: &str,
) -> Result<TypeRegistry<ValueReader<'t>>, Failed> {
    let mut builder = TypeRegistry::builder(alloc);
    if let Some(first) = places.first() {
        for place in places {
            add_shape(&mut builder, table, *first, *place, plain)?;
        }
    }
    Ok(builder.build())
}

// The shape at a place: as no error where it has the plain name.
fn add_shape<'t>(
    builder: &mut TypeRegistryBuilder<ValueReader<'t>>,
    table: &'t Schemas,
    first: SchemaIndex,
    place: SchemaIndex,
    plain: &str,
) -> Result<(), Failed> {
    let Some(schema) = table.get(place) else {
        return Err(Failed);
    };
    let Some(_first) = table.get(first) else {
        return Err(Failed);
    };
    let reader = ValueReader::new(table, first);
    let error_reader = ValueReader::new(table, place);
    if schema.full_name() == plain {
        builder.insert(schema.shape_id(), RegistryEntry::new(place, reader))?;
    } else {
        builder.insert_error_shape(schema, reader, error_reader)?;
    }
    Ok(())
}

fn plain_name(given: &Value) -> &str {
    given.get("plain").and_then(Value::as_str).unwrap_or("")
}

// The error that the response is read as.
fn reified(alloc: Global, errors: &Errors, given: &Value) -> Result<Text, Failed> {
    let plain = plain_name(given);
    let operation = registry_of(alloc, &errors.table, errors.operation.as_slice(), plain)?;
    let service = registry_of(alloc, &errors.table, errors.service.as_slice(), plain)?;
    let code = text_of(given, "code")?;
    let bytes = match errors.response.body() {
        Some(bytes) => bytes.as_slice(),
        None => &[],
    };
    let mut reader = body_reader(alloc, bytes)?;
    match reify_error(alloc, operation.or(&service), code, &mut reader)? {
        Some(error) => named_json(alloc, &error),
        None => Ok(Text::from_str(alloc, "None")?),
    }
}

// The name of the shape of a structure, and its JSON.
fn named_json(alloc: Global, value: &StructValue<'_>) -> Result<Text, Failed> {
    let json = told(alloc, json_of(alloc, value))?;
    let json = json.as_str();
    let name = value.schema().full_name();
    Ok(Text::from_string(format!(in alloc; "{name} {json}")?))
}

// The name of the error with the code.
fn named_by_code(alloc: Global, errors: &Errors, given: &Value) -> Result<Text, Failed> {
    let plain = plain_name(given);
    let operation = registry_of(alloc, &errors.table, errors.operation.as_slice(), plain)?;
    let service = registry_of(alloc, &errors.table, errors.service.as_slice(), plain)?;
    let code = text_of(given, "code")?;
    match operation.or(&service).entry_for_error_code(code) {
        Some(entry) => name_at(alloc, &errors.table, entry.schema()),
        None => Ok(Text::from_str(alloc, "None")?),
    }
}

fn name_at(alloc: Global, table: &Schemas, place: SchemaIndex) -> Result<Text, Failed> {
    let schema: SchemaRef<'_> = table.get(place).ok_or(Failed)?;
    Ok(Text::from_str(alloc, schema.full_name())?)
}

// The structure that the document of the body is read as, by its discriminator under `discriminator`, if it has one.
fn read_as_named(alloc: Global, errors: &Errors, given: &Value) -> Result<Text, Failed> {
    let registry = registry_of(
        alloc,
        &errors.table,
        errors.operation.as_slice(),
        plain_name(given),
    )?;
    let document = named_document(alloc, errors, given)?;
    if !document.document().is_canonical() {
        return Err(Failed);
    }
    let answer: Result<StructValue<'_>, SerdeError> = registry.deserialize_document(
        alloc, &document,
    );
    match answer {
        Ok(value) => named_json(alloc, &value),
        Err(refusal) => told(alloc, Err(refusal)),
    }
}

fn named_document(
    alloc: Global,
    errors: &Errors,
    given: &Value,
) -> Result<DiscriminatedDocument<NoSettings>, Failed> {
    let bytes = match errors.response.body() {
        Some(bytes) => bytes.as_slice(),
        None => &[],
    };
    let mut reader = body_reader(alloc, bytes)?;
    let node = SchemaRef::prelude(smithy_ids::ShapeType::Document);
    let document: Document = reader.read_document(alloc, node).map_err(|_| Failed)?;
    let document = DiscriminatedDocument::new(document, NoSettings);
    match given.get("discriminator").and_then(Value::as_str) {
        Some(name) => Ok(document.with_discriminator(Text::from_str(alloc, name)?)),
        None => Ok(document),
    }
}
