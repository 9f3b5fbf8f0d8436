// The elements of a list in a header or the query (Smithy, HTTP protocol bindings, httpHeader and httpQuery).
ghost use Rattle.std.specs.Prelude.{OnOk, IfOk, IfErr};
ghost use Rattle.smithy_binding.specs.Words.{schema_of, writes_in};
ghost use Rattle.smithy_strings.specs.declared.wire.Place.TheVariants as at;
ghost use Rattle.smithy_binding.specs.Faults.{element_fault, item_fault};
ghost use Rattle.smithy_binding.specs.Refusing.{Reports};
ghost use Rattle.smithy_binding.specs.views.Directed.{directed_of};
ghost use Rattle.smithy_binding.specs.views.StoredTexts.{element_texts, list_in, IsListed, AddsElements, LacksYear};

use crate::binding::element_kind;
use crate::bound_text::element_text;
use crate::direction::DirectedSchema;
use crate::refusal::wrong_item;
use crate::target::push_pair;
use smithy_ids::ShapeType;
use smithy_schema::{SchemaRef, Schemas};
use smithy_serde::{SerdeError, WriteList};
use smithy_strings::{Place, push_listed};
use smithy_types::Text;
use std::alloc::Global;

/// Tests that each element of the member's list is of the kind. `UnsupportedOperation` for the first that is not.
pub fn test_elements(
    alloc: Global,
    table: &Schemas,
    member: SchemaRef<'_>,
    kind: ShapeType,
    elements: &WriteList,
) -> Result<(), SerdeError>
    ensures { Reports
        (element_fault (schema_of member.entry) kind (writes_in table.now elements.now)) result }
{
    for (_, value) in elements.iter() {
        if !value.fits(kind) {
            return Err(wrong_item(alloc, member, kind, value));
        }
    }
    Ok(())
}

/// Tests that each element of the member's list is of the kind of its node. `UnsupportedOperation` for the first that is
/// not.
pub fn test_list(
    alloc: Global,
    table: &Schemas,
    member: DirectedSchema<'_>,
    elements: &WriteList,
) -> Result<(), SerdeError>
    ensures { Reports (item_fault (directed_of member.entry) (list_in table.now elements.now)) result }
{
    test_elements(alloc, table, member.schema, element_kind(member), elements)
}

/// The value of a header: the texts of the elements, of this kind, in one text (RFC 7230, section 7). `Custom` for the
/// first time whose year is not in the calendar of its format. Takes memory, linear in the texts.
pub fn listed_text(
    alloc: Global,
    table: &Schemas,
    kind: ShapeType,
    elements: &WriteList,
) -> Result<Text, SerdeError>
    ensures ok { IfOk result (IsListed kind (element_texts at.Header table.now elements.now)) }
    ensures err { IfErr result (LacksYear (element_texts at.Header table.now elements.now)) }
{
    let mut list = String::new(alloc);
    let mut is_first = true;
    for (node, value) in elements.iter() {
        let text = element_text(alloc, table, Place::Header, node, value)?;
        push_listed(&mut list, is_first, kind, text.as_str())?;
        is_first = false;
    }
    Ok(Text::from_string(list))
}

/// Adds a pair of the name and the text of each element. `Custom` for the first time whose year is not in the calendar of
/// its format. Takes memory, linear in the texts.
pub fn push_elements(
    alloc: Global,
    table: &Schemas,
    query: &mut String,
    name: &str,
    elements: &WriteList,
) -> Result<(), SerdeError>
    ensures ok { OnOk result (AddsElements name.now table.now elements.now query.old query.new) }
    ensures err { IfErr result (LacksYear (element_texts at.Query table.now elements.now)) }
{
    for (node, value) in elements.iter() {
        let text = element_text(alloc, table, Place::Query, node, value)?;
        push_pair(query, name, text.as_str())?;
    }
    Ok(())
}
