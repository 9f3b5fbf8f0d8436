// The input of a job: an object, or an array of pairs of a member's name and its value.
ghost use Rattle.std.specs.Prelude.{◌≡◌, map, option_map};
ghost use Rattle.smithy_json.specs.views.JsonView.{view};
ghost use Rattle.smithy_schema.specs.References.{schema_of};
ghost use Rattle.smithy_job.specs.Values.{natural_label};
ghost use Rattle.smithy_job.specs.Inputs.{named_value, pair_in};
ghost use Rattle.smithy_job.specs.views.ReadingView.{KeepsNodes, ReadsWrites, input_at, pairs_at};
ghost use Rattle.smithy_job.specs.views.Seen.{seen};
ghost use Rattle.smithy_job.specs.views.Tables.{HasLabel, StandsIn};

use crate::node::{ModelNodes, index_of_member, member_at};
use crate::value::{members_at, value_at};
use smithy_json::JsonValue;
use smithy_model::{JobError, items_of};
use smithy_schema::SchemaRef;
use smithy_serde::WriteList;
use std::alloc::Global;

fn named_value<'v, 't>(items: &'v [JsonValue<'t>]) -> Option<(&'t str, &'v JsonValue<'t>)>
    ensures { option_map seen result ≡ named_value (map view items.now) }
{
    let [name, value] = items else {
        return None;
    };
    Some((name.as_str()?, value))
}

/// A name and a value, of an array of exactly two items. Takes no memory.
pub fn pair_of<'v, 't>(value: &'v JsonValue<'t>) -> Option<(&'t str, &'v JsonValue<'t>)>
    ensures { option_map seen result ≡ pair_in (view value.now) }
{
    named_value(items_of(value)?)
}

fn pairs_at<'t>(
    alloc: Global,
    model: ModelNodes<'_>,
    names: &mut Vec<&'t str>,
    schema: SchemaRef<'_>,
    items: &[JsonValue<'t>],
) -> Result<WriteList, JobError>
    requires natural { HasLabel model.table.now model.natural.0 natural_label }
    requires schema { StandsIn model.table.now (schema_of schema) }
    ensures kept { KeepsNodes model.entry names.old names.new result }
    ensures writes { ReadsWrites model.entry names.new (pairs_at schema.entry items.now) result }
{
    let mut writes = WriteList::new(alloc);
    let mut before = None;
    for item in items {
        let Some((name, value)) = pair_of(item) else {
            return Err(JobError::NoJob);
        };
        let node = member_at(Some(schema), before, name);
        let index = index_of_member(model, names, node, name)?;
        let value = value_at(alloc, model, names, node, value)?;
        writes.push(index, value)?;
        before = node;
    }
    Ok(writes)
}

/// The writes of an input at a schema. Adds the names in it that are no member's. Takes memory.
/// What hasn't the form of an input, or has a float in it, is no job.
#[tactic(auto, unfolding(crate::specs::Inputs::input))]
pub fn read_input<'t>(
    alloc: Global,
    model: ModelNodes<'_>,
    names: &mut Vec<&'t str>,
    schema: SchemaRef<'_>,
    value: &JsonValue<'t>,
) -> Result<WriteList, JobError>
    requires natural { HasLabel model.table.now model.natural.0 natural_label }
    requires schema { StandsIn model.table.now (schema_of schema) }
    ensures kept { KeepsNodes model.entry names.old names.new result }
    ensures writes { ReadsWrites model.entry names.new (input_at schema.entry value.now) result }
{
    match value {
        JsonValue::Object(members) => members_at(
            alloc,
            model,
            names,
            Some(schema),
            members.as_slice(),
        ),
        JsonValue::Array(items) => pairs_at(alloc, model, names, schema, items.as_slice()),
        _ => Err(JobError::NoJob),
    }
}
