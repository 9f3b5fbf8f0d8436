// Schemas of models as texts.
use smithy_ids::{PayloadHint, TimestampFormat};
use smithy_model::ModelTable;
use smithy_schema::{SchemaIndex, SchemaRef, Schemas};
use smithy_types::Text;
use std::alloc::Global;
use test_rows::Failed;

/// How many nodes the table has, the full name of the schema, its method, URI and status code, what it says of payload and
/// body, and the node of natural values; with `has_members` each member in a line of its own. It takes memory.
pub fn schema_text(alloc: Global, placed: &ModelTable, has_members: bool) -> Result<Text, Failed> {
    let table = &placed.table;
    let schema = table.get(placed.index).ok_or(Failed)?;
    let natural = table.get(placed.natural).ok_or(Failed)?.full_name();
    let (count, name) = (table.len(), schema.full_name());
    let mut text = Text::from_string(format!(in alloc;
        "{count} nodes, natural {natural}: {name}"
    )?);
    push_http(alloc, &mut text, schema)?;
    text.push_str(payload_word(schema))?;
    if !schema.has_body_members() {
        text.push_str(", no body members")?;
    }
    if has_members {
        push_members(alloc, &mut text, table, schema.members())?;
    }
    Ok(text)
}

fn push_http(alloc: Global, text: &mut Text, schema: SchemaRef<'_>) -> Result<(), Failed> {
    if let Some(http) = schema.http() {
        let (method, uri, code) = (http.method(), http.uri(), http.code());
        text.push_str(format!(in alloc; ", {method} {uri} {code}")?.as_str())?;
    }
    Ok(())
}

fn payload_word(schema: SchemaRef<'_>) -> &'static str {
    match schema.payload_hint() {
        PayloadHint::Unknown => "",
        PayloadHint::StructPayload => ", structure payload",
        PayloadHint::NoStructPayload => ", no structure payload",
    }
}

fn push_members(
    alloc: Global,
    text: &mut Text,
    table: &Schemas,
    members: &[SchemaIndex],
) -> Result<(), Failed> {
    for member in members {
        push_member(alloc, text, table.get(*member).ok_or(Failed)?)?;
    }
    Ok(())
}

// Adds a member's name, and what its traits say that pass from its target or have no field.
fn push_member(alloc: Global, text: &mut Text, member: SchemaRef<'_>) -> Result<(), Failed> {
    text.push_str("\n")?;
    text.push_str(member.member_name().unwrap_or(""))?;
    if let Some(format) = member.timestamp_format() {
        text.push_str(format_word(format.format()))?;
    }
    if let Some(media) = member.media_type() {
        text.push_str(", media type ")?;
        text.push_str(media.value())?;
    }
    if member.sensitive().is_some() {
        text.push_str(", sensitive")?;
    }
    if let Some(further) = member.traits() {
        let (count, has_note) = (further.len(), further.contains_fqn("ex#note"));
        let word = if has_note { "with" } else { "without" };
        text.push_str(format!(in alloc; ", {count} further {word} ex#note")?.as_str())?;
    }
    Ok(())
}

fn format_word(format: TimestampFormat) -> &'static str {
    match format {
        TimestampFormat::EpochSeconds => ", epoch seconds",
        TimestampFormat::DateTime => ", date time",
        TimestampFormat::HttpDate => ", HTTP date",
    }
}
