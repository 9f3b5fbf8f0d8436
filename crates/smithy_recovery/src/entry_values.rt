// The value of an entry of a query map (Smithy, HTTP protocol bindings, httpQueryParams).
ghost use Rattle.std.specs.Prelude.{◌≡◌, IfOk, Some, map};
ghost use Rattle.smithy_ids.specs.Kinds.{same_kind};
ghost use Rattle.smithy_ids.specs.declared.shape_type.ShapeType.TheVariants as kind;
ghost use Rattle.smithy_schema.specs.Nodes.{Table};
ghost use Rattle.smithy_schema.specs.References.{schema_of};
ghost use Rattle.smithy_serde.specs.StoredValues.{value_in, IsDefined};
ghost use Rattle.smithy_serde.specs.ValueRead.{IsPlaced};
ghost use Rattle.smithy_recovery.specs.HeaderParts.{list_value};
ghost use Rattle.smithy_recovery.specs.views.Keeping.{Keeps, KeepsOf};
ghost use Rattle.smithy_recovery.specs.MapParts.{as_text, one_text, text_list, entry_value};

use crate::error::RecoverError;
use crate::query_values::one_text as only_text;
use crate::values::own_place;
use smithy_ids::ShapeType;
use smithy_schema::SchemaRef;
use smithy_serde::{ShapeValue, WriteList};
use smithy_types::{OutOfMemory, Text};
use std::alloc::Global;

// Whether this is the kind of a text.
fn is_string(shape_type: ShapeType) -> bool
    ensures { result ≡ same_kind shape_type kind.String }
{
    match shape_type {
        ShapeType::String => true,
        _ => false,
    }
}

// A text as a value.
#[tactic(auto, unfolding(smithy_serde::specs::StoredValues::value_in, smithy_serde::specs::StoredValues::IsDefined))]
fn text_value(alloc: Global, text: &Text) -> Result<ShapeValue, OutOfMemory>
    ensures value { IfOk result (λ v. (t : Table) → value_in t v ≡ as_text text.now) }
    ensures defined { IfOk result (λ v. (t : Table) → IsDefined t v) }
{
    ShapeValue::text(alloc, text.as_str())
}

// The one text where a String stands.
fn one_text(alloc: Global, texts: &[Text]) -> Result<ShapeValue, RecoverError>
    ensures { (t : Table) → Keeps t (one_text texts.now) result }
{
    match only_text(texts) {
        Some(text) => Ok(text_value(alloc, text)?),
        None => Err(RecoverError::NotPlaced),
    }
}

// The list of texts.
fn list_of_texts(
    alloc: Global,
    element: SchemaRef<'_>,
    texts: &[Text],
) -> Result<ShapeValue, RecoverError>
    requires { IsPlaced (schema_of element).table (schema_of element) }
    ensures { KeepsOf (schema_of element.entry) (λ e. Some (list_value e (map as_text texts.now))) result }
{
    let index = own_place(element);
    let mut writes = WriteList::new(alloc);
    for text in texts {
        writes.push(index, text_value(alloc, text)?)?;
    }
    Ok(ShapeValue::List(writes))
}

// The list of texts, where a list's elements have a node.
fn text_list(alloc: Global, node: SchemaRef<'_>, texts: &[Text]) -> Result<ShapeValue, RecoverError>
    ensures { KeepsOf (schema_of node.entry) (λ n. text_list (Some n) texts.now) result }
{
    match node.element() {
        Some(element) => list_of_texts(alloc, element, texts),
        None => Err(RecoverError::NotPlaced),
    }
}

/// The value of an entry by its texts: the one text where a String stands, else the list of the texts. `NotPlaced` where there is
/// none. Takes memory.
pub fn entry_value(
    alloc: Global,
    node: SchemaRef<'_>,
    texts: &[Text],
) -> Result<ShapeValue, RecoverError>
    ensures { KeepsOf (schema_of node.entry) (λ n. entry_value (Some n) texts.now) result }
{
    if is_string(node.shape_type()) {
        one_text(alloc, texts)
    } else {
        text_list(alloc, node, texts)
    }
}
