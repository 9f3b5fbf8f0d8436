// Models: the schemas of operations and of their errors, and whether requests and responses can be placed by them,
// and the first rule that they break.
use crate::given_job::job_bytes;
use crate::schema_text::schema_text;
use crate::told::{flag_text, no_job, push_names};
use serde_json::Value;
use smithy_binding::{broken_input_rule, broken_output_rule, checked_input, checked_output};
use smithy_ids::{PayloadHint, ShapeId, ShapeType};
use smithy_json::{JsonValue, Scratch, read_json};
use smithy_model::{
    Asked, JobError, ModelTable, PlacedErrors, errors_of_operation, items_of, schema_among,
    schema_of_operation, shapes_of, text_of,
};
use smithy_schema::{Schema, SchemaIndex, Schemas};
use smithy_types::Text;
use std::alloc::Global;
use test_rows::{Failed, flag_of};

/// The answer of one of these calls; none of another.
pub fn answer(alloc: Global, call: &str, given: &Value) -> Result<Option<Text>, Failed> {
    match call {
        "schema_of_operation" => Ok(Some(by_schema(alloc, given, Told::Schema)?)),
        "schema_among" => Ok(Some(by_shapes(alloc, given)?)),
        "checked_input" => Ok(Some(by_schema(alloc, given, Told::Input)?)),
        "checked_output" => Ok(Some(by_schema(alloc, given, Told::Output)?)),
        "checked_input with a flag" => Ok(Some(by_schema(alloc, given, Told::Flagged)?)),
        "broken_input_rule" => Ok(Some(by_schema(alloc, given, Told::InputRule)?)),
        "broken_output_rule" => Ok(Some(by_schema(alloc, given, Told::OutputRule)?)),
        "broken_input_rule with a flag" => Ok(Some(by_schema(alloc, given, Told::FlaggedRule)?)),
        "errors_of_operation" => Ok(Some(errors(alloc, given)?)),
        _ => Ok(None),
    }
}

// What is told of a schema.
#[derive(Clone, Copy)]
enum Told {
    Schema,
    Input,
    Output,
    // Whether a request can be placed by its structure with a flag or a hint that isn't the model's.
    Flagged,
    InputRule,
    OutputRule,
    // The rule that its structure breaks with a flag or a hint that isn't the model's.
    FlaggedRule,
}

// The part of the operation that is asked for: its input, its output, or an error by its full name.
fn asked_of<'t>(job: &JsonValue<'t>) -> Asked<'t> {
    match text_of(job, "asked") {
        None => Asked::Input,
        Some(name) => {
            if name == "output" {
                Asked::Output
            } else {
                Asked::Error(name)
            }
        }
    }
}

/// The schema that a row asks for of its model. It takes memory.
pub fn placed(alloc: Global, job: &JsonValue<'_>) -> Result<ModelTable, JobError> {
    let (Some(model), Some(name)) = (job.get("model"), text_of(job, "operation")) else {
        return Err(JobError::NoJob);
    };
    schema_of_operation(alloc, model, name, asked_of(job))
}

fn by_schema(alloc: Global, given: &Value, told: Told) -> Result<Text, Failed> {
    let bytes = job_bytes(alloc, given)?;
    let mut scratch = Scratch::new(alloc);
    let job = match read_json(alloc, bytes.as_slice(), &mut scratch) {
        Ok(job) => job,
        Err(refusal) => return no_job(alloc, refusal.into()),
    };
    let placed = match placed(alloc, &job) {
        Ok(placed) => placed,
        Err(refusal) => return no_job(alloc, refusal),
    };
    match told {
        Told::Schema => schema_text(alloc, &placed, flag_of(given, "members")),
        Told::Input => checked(alloc, &placed.table, placed.index, true),
        Told::Output => checked(alloc, &placed.table, placed.index, false),
        Told::Flagged => {
            let (table, index) = flagged(alloc, given, placed)?;
            checked(alloc, &table, index, true)
        }
        Told::InputRule => broken(alloc, &placed.table, placed.index, true),
        Told::OutputRule => broken(alloc, &placed.table, placed.index, false),
        Told::FlaggedRule => {
            let (table, index) = flagged(alloc, given, placed)?;
            broken(alloc, &table, index, true)
        }
    }
}

// The schema that a row asks for among the shapes of its model.
fn by_shapes(alloc: Global, given: &Value) -> Result<Text, Failed> {
    let bytes = job_bytes(alloc, given)?;
    let mut scratch = Scratch::new(alloc);
    let job = match read_json(alloc, bytes.as_slice(), &mut scratch) {
        Ok(job) => job,
        Err(refusal) => return no_job(alloc, refusal.into()),
    };
    match placed_among(alloc, &job) {
        Ok(placed) => schema_text(alloc, &placed, flag_of(given, "members")),
        Err(refusal) => no_job(alloc, refusal),
    }
}

fn placed_among(alloc: Global, job: &JsonValue<'_>) -> Result<ModelTable, JobError> {
    let (Some(model), Some(name)) = (job.get("model"), text_of(job, "operation")) else {
        return Err(JobError::NoJob);
    };
    let Some(shapes) = shapes_of(model) else {
        return Err(JobError::NoJob);
    };
    schema_among(alloc, &shapes, name, asked_of(job))
}

// Whether a request can be placed, or a response be read, by the schema at a place.
fn checked(
    alloc: Global,
    table: &Schemas,
    place: SchemaIndex,
    is_input: bool,
) -> Result<Text, Failed> {
    let Some(schema) = table.get(place) else {
        return Err(Failed);
    };
    let is_checked = if is_input {
        checked_input(alloc, schema)?
    } else {
        checked_output(alloc, schema)?
    };
    flag_text(alloc, is_checked)
}

// The first rule that the schema at a place breaks, with its member, or `none`.
fn broken(
    alloc: Global,
    table: &Schemas,
    place: SchemaIndex,
    is_input: bool,
) -> Result<Text, Failed> {
    let Some(schema) = table.get(place) else {
        return Err(Failed);
    };
    let broken = if is_input {
        broken_input_rule(alloc, schema)?
    } else {
        broken_output_rule(alloc, schema)?
    };
    match broken {
        Some(broken) => Ok(Text::from_string(format!(in alloc; "{broken}")?)),
        None => Ok(Text::from_str(alloc, "none")?),
    }
}

// An input whose members are those of the schema, with a flag or a hint of the row's, in its table.
fn flagged(
    alloc: Global,
    given: &Value,
    placed: ModelTable,
) -> Result<(Schemas, SchemaIndex), Failed> {
    let ModelTable {
        mut table,
        index,
        ..
    } = placed;
    let members = match table.get(index) {
        Some(schema) => Vec::from_slice(alloc, schema.members())?,
        None => return Err(Failed),
    };
    let id = ShapeId::from_parts("ex#In", "ex", "In");
    let mut schema = Schema::new_struct(id, ShapeType::Structure, members.as_slice());
    if flag_of(given, "noBodyMembers") {
        schema = schema.with_no_body_members();
    }
    if flag_of(given, "structPayload") {
        schema = schema.with_payload_hint(PayloadHint::StructPayload);
    }
    if flag_of(given, "noStructPayload") {
        schema = schema.with_payload_hint(PayloadHint::NoStructPayload);
    }
    let Ok(place) = table.insert(schema) else {
        return Err(Failed);
    };
    Ok((table, place))
}

// The errors of an operation, and of its service by their names.
fn errors(alloc: Global, given: &Value) -> Result<Text, Failed> {
    let bytes = job_bytes(alloc, given)?;
    let mut scratch = Scratch::new(alloc);
    let job = match read_json(alloc, bytes.as_slice(), &mut scratch) {
        Ok(job) => job,
        Err(refusal) => return no_job(alloc, refusal.into()),
    };
    match placed_errors(alloc, &job) {
        Ok(placed) => errors_text(alloc, &placed),
        Err(refusal) => no_job(alloc, refusal),
    }
}

fn placed_errors<'t>(alloc: Global, job: &JsonValue<'t>) -> Result<PlacedErrors, JobError> {
    let (Some(model), Some(name)) = (job.get("model"), text_of(job, "operation")) else {
        return Err(JobError::NoJob);
    };
    let service = service_names(alloc, job)?;
    errors_of_operation(alloc, model, name, service.as_slice())
}

// The texts under `service`; none where it is absent.
fn service_names<'t>(alloc: Global, job: &JsonValue<'t>) -> Result<Vec<&'t str>, JobError> {
    let mut names = Vec::new(alloc);
    let Some(service) = job.get("service") else {
        return Ok(names);
    };
    let Some(items) = items_of(service) else {
        return Err(JobError::NoJob);
    };
    for item in items {
        let Some(name) = item.as_str() else {
            return Err(JobError::NoJob);
        };
        names.push(name)?;
    }
    Ok(names)
}

fn errors_text(alloc: Global, placed: &PlacedErrors) -> Result<Text, Failed> {
    let mut text = Text::from_str(alloc, "operation:")?;
    push_names(&mut text, &placed.table, placed.operation.as_slice())?;
    text.push_str("; service:")?;
    push_names(&mut text, &placed.table, placed.service.as_slice())?;
    Ok(text)
}
