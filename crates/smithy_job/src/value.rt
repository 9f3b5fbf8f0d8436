// The value that a JSON value is at a node.
ghost use Rattle.smithy_job.specs.Values.{natural_label};
ghost use Rattle.smithy_job.specs.views.ReadingView.{node_of, KeepsNodes, ReadsValue, ReadsWrites, value_at, elements_at, entries_at, members_at};
ghost use Rattle.smithy_job.specs.views.Tables.{HasLabel, MayStandIn};

use crate::node::{
    ModelNodes, element_of, index_of, index_of_member, is_document, is_structure, key_of, kind_of,
    member_at, value_of,
};
use crate::scalar::{document_value, number_value, text_value};
use smithy_json::JsonValue;
use smithy_model::JobError;
use smithy_schema::SchemaRef;
use smithy_serde::{ShapeValue, WriteList};
use std::alloc::Global;

/// The value that a JSON value is at a node, or at none. Adds the names in it that are no member's.
/// Takes memory. A float in it is no job.
#[cycle(value)]
pub fn value_at<'t>(
    alloc: Global,
    model: ModelNodes<'_>,
    names: &mut Vec<&'t str>,
    here: Option<SchemaRef<'_>>,
    value: &JsonValue<'t>,
) -> Result<ShapeValue, JobError>
    requires natural { HasLabel model.table.now model.natural.0 natural_label }
    requires here { MayStandIn model.table.now (node_of here) }
    ensures kept { KeepsNodes model.entry names.old names.new result }
    ensures value { ReadsValue model.entry names.new (value_at here.entry value.now) result }
{
    let kind = kind_of(here);
    if is_document(kind) {
        return document_value(alloc, value);
    }
    match value {
        JsonValue::Null => Ok(ShapeValue::Null),
        JsonValue::Bool(truth) => Ok(ShapeValue::Boolean(*truth)),
        JsonValue::Number(number) => number_value(alloc, model.floats, kind, number),
        JsonValue::String(text) => Ok(text_value(alloc, kind, *text)?),
        JsonValue::Array(items) => {
            let elements = elements_at(alloc, model, names, element_of(here), items.as_slice())?;
            Ok(ShapeValue::List(elements))
        }
        JsonValue::Object(members) => {
            if is_structure(kind) {
                let members = members_at(alloc, model, names, here, members.as_slice())?;
                return Ok(ShapeValue::Struct(members));
            }
            let members = members.as_slice();
            let entries = entries_at(alloc, model, names, key_of(here), value_of(here), members)?;
            Ok(ShapeValue::Map(entries))
        }
    }
}

#[cycle(value)]
fn elements_at<'t>(
    alloc: Global,
    model: ModelNodes<'_>,
    names: &mut Vec<&'t str>,
    element: Option<SchemaRef<'_>>,
    items: &[JsonValue<'t>],
) -> Result<WriteList, JobError>
    requires natural { HasLabel model.table.now model.natural.0 natural_label }
    requires element { MayStandIn model.table.now (node_of element) }
    ensures kept { KeepsNodes model.entry names.old names.new result }
    ensures writes { ReadsWrites model.entry names.new (elements_at element.entry items.now) result }
{
    let mut writes = WriteList::new(alloc);
    let index = index_of(model, element);
    for item in items {
        let value = value_at(alloc, model, names, element, item)?;
        writes.push(index, value)?;
    }
    Ok(writes)
}

// Keys and values in turn.
#[cycle(value)]
fn entries_at<'t>(
    alloc: Global,
    model: ModelNodes<'_>,
    names: &mut Vec<&'t str>,
    key: Option<SchemaRef<'_>>,
    value: Option<SchemaRef<'_>>,
    members: &[(&'t str, JsonValue<'t>)],
) -> Result<WriteList, JobError>
    requires natural { HasLabel model.table.now model.natural.0 natural_label }
    requires key { MayStandIn model.table.now (node_of key) }
    requires value { MayStandIn model.table.now (node_of value) }
    ensures kept { KeepsNodes model.entry names.old names.new result }
    ensures writes { ReadsWrites model.entry names.new (entries_at key.entry value.entry members.now) result }
{
    let mut writes = WriteList::new(alloc);
    let key_index = index_of(model, key);
    let value_index = index_of(model, value);
    let key_kind = kind_of(key);
    for member in members {
        let found = value_at(alloc, model, names, value, &member.1)?;
        let text = text_value(alloc, key_kind, member.0)?;
        writes.push(key_index, text)?;
        writes.push(value_index, found)?;
    }
    Ok(writes)
}

/// The members of a structure at a node. Adds the names that are no member's. Takes memory. A float in
/// them is no job.
#[cycle(value)]
pub fn members_at<'t>(
    alloc: Global,
    model: ModelNodes<'_>,
    names: &mut Vec<&'t str>,
    here: Option<SchemaRef<'_>>,
    members: &[(&'t str, JsonValue<'t>)],
) -> Result<WriteList, JobError>
    requires natural { HasLabel model.table.now model.natural.0 natural_label }
    requires here { MayStandIn model.table.now (node_of here) }
    ensures kept { KeepsNodes model.entry names.old names.new result }
    ensures writes { ReadsWrites model.entry names.new (members_at here.entry members.now) result }
{
    let mut writes = WriteList::new(alloc);
    let mut before = None;
    for member in members {
        let node = member_at(here, before, member.0);
        let index = index_of_member(model, names, node, member.0)?;
        let value = value_at(alloc, model, names, node, &member.1)?;
        writes.push(index, value)?;
        before = node;
    }
    Ok(writes)
}
