// The value of a query member (Smithy, HTTP protocol bindings, httpQuery).
ghost use Rattle.std.specs.Prelude.{◌≡◌, option_map};
ghost use Rattle.smithy_schema.specs.Nodes.{Table};
ghost use Rattle.smithy_schema.specs.References.{schema_of};
ghost use Rattle.smithy_recovery.specs.views.Keeping.{Keeps, KeepsOf, KeepsPartOf};
ghost use Rattle.smithy_recovery.specs.QueryParts.{one_of, query_scalar, query_list, query_value, query_part};

use crate::error::RecoverError;
use crate::values::{is_list, scalar_list, scalar_value, written};
use smithy_schema::SchemaRef;
use smithy_serde::ShapeValue;
use smithy_strings::Place;
use smithy_types::Text;
use std::alloc::Global;

/// The one text.
pub fn one_text<'t>(texts: &'t [Text]) -> Option<&'t Text>
    ensures { option_map (λ t. t.now) result ≡ one_of texts.now }
{
    match texts {
        [text] => Some(text),
        _ => None,
    }
}

// The scalar of the one text.
fn query_scalar(
    alloc: Global,
    member: SchemaRef<'_>,
    texts: &[Text],
) -> Result<ShapeValue, RecoverError>
    ensures { (t : Table) → Keeps t (query_scalar (schema_of member.entry) texts.now) result }
{
    match one_text(texts) {
        Some(text) => scalar_value(alloc, member, Place::Query, text.as_str()),
        None => Err(RecoverError::NotPlaced),
    }
}

// The list of the scalars of the texts.
fn query_list(
    alloc: Global,
    member: SchemaRef<'_>,
    texts: &[Text],
) -> Result<ShapeValue, RecoverError>
    ensures { KeepsOf (schema_of member.entry) (λ m. query_list m texts.now) result }
{
    match member.element() {
        Some(element) => scalar_list(alloc, element, Place::Query, texts),
        None => Err(RecoverError::NotPlaced),
    }
}

fn query_value(
    alloc: Global,
    member: SchemaRef<'_>,
    texts: &[Text],
) -> Result<ShapeValue, RecoverError>
    ensures { KeepsOf (schema_of member.entry) (λ m. query_value m texts.now) result }
{
    if is_list(member.shape_type()) {
        query_list(alloc, member, texts)
    } else {
        query_scalar(alloc, member, texts)
    }
}

/// The value of a query member by its texts: none of none. `NotPlaced` where they are no value's. Takes memory.
pub fn query_part(
    alloc: Global,
    member: SchemaRef<'_>,
    texts: &[Text],
) -> Result<Option<ShapeValue>, RecoverError>
    ensures { KeepsPartOf (schema_of member.entry) (λ m. query_part m texts.now) result }
{
    if texts.is_empty() {
        return Ok(None);
    }
    written(query_value(alloc, member, texts))
}
