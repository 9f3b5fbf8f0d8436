// The value of a label member (Smithy, HTTP protocol bindings, httpLabel).
ghost use Rattle.std.specs.Prelude.{◌≡◌};
ghost use Rattle.smithy_schema.specs.Nodes.{name_of};
ghost use Rattle.smithy_schema.specs.References.{schema_of};
ghost use Rattle.smithy_recovery.specs.views.KeptLabels.{KeepsLabel};

use crate::error::RecoverError;
use crate::path_texts::{LabelTexts, text_under};
use crate::values::{scalar_value, written};
use smithy_schema::SchemaRef;
use smithy_serde::ShapeValue;
use smithy_strings::Place;
use std::alloc::Global;

// The name, and the empty one where the node has none.
fn name_of<'t>(member: SchemaRef<'t>) -> &'t str
    ensures { result.now ≡ name_of (schema_of member.entry) }
{
    member.member_name().unwrap_or("")
}

/// The value of a label member, by the texts of the labels. `NotPlaced` where it has none, or one that is no value's. Takes
/// memory.
pub fn label_part<'t>(
    alloc: Global,
    member: SchemaRef<'t>,
    texts: &LabelTexts<'t>,
) -> Result<Option<ShapeValue>, RecoverError>
    ensures { KeepsLabel (schema_of member.entry) texts.now result }
{
    match text_under(texts, name_of(member)) {
        Some(text) => written(scalar_value(alloc, member, Place::Label, text)),
        None => Err(RecoverError::NotPlaced),
    }
}
