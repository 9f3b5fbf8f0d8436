// Values and documents, as rows tell them.
use crate::json_text::document_text;
use crate::told::{answered, optional, push_part, refusal};
use smithy_ids::TimestampFormat;
use smithy_schema::{SchemaIndex, Schemas};
use smithy_serde::{SerdeError, ShapeValue, WriteList};
use smithy_strings::{Place, scalar_text};
use smithy_types::{DiscriminatedDocument, NoSettings, Text};
use std::alloc::Global;
use test_rows::Failed;

/// The JSON text of a document, behind its discriminator where it has one; or the refusal.
pub fn document_told(
    alloc: Global,
    outcome: Result<DiscriminatedDocument<NoSettings>, SerdeError>,
) -> Result<Text, Failed> {
    let document = match outcome {
        Ok(document) => document,
        Err(error) => return refusal(alloc, &error),
    };
    let mut text = optional(alloc, document.discriminator())?;
    let told = answered(alloc, document_text(alloc, document.document()))?;
    push_part(&mut text, told.as_str())?;
    Ok(text)
}

/// Each write as its node, `=` and its value, with a space behind it. A value is its kind and what is in it, in parentheses:
/// writes; of a document JSON; of a time its seconds since 1970; of bytes base64. A node is the name of its member, else that of
/// its shape.
pub fn writes_told(alloc: Global, table: &Schemas, writes: &WriteList) -> Result<Text, Failed> {
    let mut text = Text::from_str(alloc, "")?;
    for (node, value) in writes.iter() {
        push_name(table, node, &mut text)?;
        push_value(alloc, table, value, &mut text)?;
        text.push_str(" ")?;
    }
    Ok(text)
}

/// A value, as `writes_told` tells it.
pub fn value_told(alloc: Global, table: &Schemas, value: &ShapeValue) -> Result<Text, Failed> {
    let mut text = Text::from_str(alloc, "")?;
    push_value(alloc, table, value, &mut text)?;
    Ok(text)
}

fn name_of(table: &Schemas, node: SchemaIndex) -> &str {
    match table.get(node) {
        Some(node) => node.member_name().unwrap_or(node.shape_id().shape_name()),
        None => "",
    }
}

// Adds the name of a node.
fn push_name(table: &Schemas, node: SchemaIndex, text: &mut Text) -> Result<(), Failed> {
    text.push_str(name_of(table, node))?;
    text.push_str("=")?;
    Ok(())
}

fn push_value(
    alloc: Global,
    table: &Schemas,
    value: &ShapeValue,
    text: &mut Text,
) -> Result<(), Failed> {
    text.push_str(value.written_word())?;
    text.push_str("(")?;
    let parts = match value {
        ShapeValue::List(parts) => parts,
        ShapeValue::Map(parts) => parts,
        ShapeValue::Struct(parts) => parts,
        value => return last_scalar(alloc, value, text),
    };
    for (node, part) in parts.iter() {
        push_name(table, node, text)?;
        push_value(alloc, table, part, text)?;
        text.push_str(" ")?;
    }
    text.push_str(")")?;
    Ok(())
}

fn last_scalar(alloc: Global, value: &ShapeValue, text: &mut Text) -> Result<(), Failed> {
    push_scalar(alloc, value, text)?;
    text.push_str(")")?;
    Ok(())
}

/// Adds a scalar, a document as JSON, and nothing for a null.
pub fn push_scalar(alloc: Global, value: &ShapeValue, text: &mut Text) -> Result<(), Failed> {
    match value {
        ShapeValue::Document(document) => match document_text(alloc, document) {
            Ok(json) => text.push_str(json.as_str())?,
            Err(_) => return Err(Failed),
        },
        ShapeValue::Null => {}
        value => {
            let format = Some(TimestampFormat::EpochSeconds);
            match scalar_text(alloc, format, false, Place::Header, value) {
                Ok(scalar) => text.push_str(&scalar)?,
                Err(_) => return Err(Failed),
            }
        }
    }
    Ok(())
}
