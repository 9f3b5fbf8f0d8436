// Many inputs of one operation, whose model is read once.
ghost use Rattle.std.specs.Prelude.{◌≡◌, [], is_some, map, option_map, IfOk};
ghost use Rattle.std.specs.List.{list_all};
ghost use Rattle.smithy_json.specs.views.JsonView.{view};
ghost use Rattle.smithy_schema.specs.References.{schema_of};
ghost use Rattle.smithy_job.specs.Common.{common, inputs_given, whole};
ghost use Rattle.smithy_job.specs.Values.{natural_label};
ghost use Rattle.smithy_job.specs.views.CommonView.{input_at, inputs_at, AreReadBy, IsCommon, IsReadCommon, IsWhole, ReadsBehind};
ghost use Rattle.smithy_job.specs.views.Tables.{HasLabel, StandsIn, ReadsAs};

use crate::input::read_input;
use crate::node::ModelNodes;
use crate::reading::schema_asked;
use crate::settings::{endpoint_of, omit_of};
use crate::written::further_nodes;
use smithy_json::JsonValue;
use smithy_model::{Asked, Floats, JobError, ModelTable, items_of};
use smithy_schema::{SchemaRef, Schemas};
use smithy_serde::{OmitFlags, WriteList};
use smithy_types::OutOfMemory;
use std::alloc::Global;

/// What the jobs of many inputs have in common: the schema of an operation's input in a table, and what a job says beside model
/// and input.
#[derive(Drop)]
pub struct Common<'v, 't> {
    /// The job, whose model is read again where an input has a name that is no member's.
    pub job: &'v JsonValue<'t>,
    pub model: ModelTable,
    pub endpoint: &'t str,
    pub omit: OmitFlags,
}

/// Inputs, read by one schema.
#[derive(Drop)]
pub struct Inputs {
    /// The nodes of all writes where some of their names are no member's: those of the schema's table, and one for each such
    /// name. Else they are those of the schema's table.
    pub further: Option<Schemas>,
    /// The writes of each input in order, and none of a value that has not the form of one.
    pub each: Vec<Option<WriteList>>,
}

/// What the jobs of many inputs have in common, read of the JSON value that has them. Takes memory. What hasn't the form of it is
/// no job.
#[tactic(auto, unfolding(crate::specs::Common::common))]
pub fn read_common<'v, 't>(
    alloc: Global,
    job: &'v JsonValue<'t>,
) -> Result<Common<'v, 't>, JobError>
    ensures value { ReadsAs IsCommon (common (view job.now)) result }
    ensures read { IfOk result IsReadCommon }
{
    let Some(endpoint) = endpoint_of(job) else {
        return Err(JobError::NoJob);
    };
    let Some(omit) = omit_of(job) else {
        return Err(JobError::NoJob);
    };
    let model = schema_asked(alloc, job, Asked::Input, Floats::Kept)?;
    Ok(Common {
        job,
        model,
        endpoint,
        omit,
    })
}

/// The inputs of a job, in order. None where it has no array of them. Takes no memory.
pub fn inputs_of<'v, 't>(job: &'v JsonValue<'t>) -> Option<&'v [JsonValue<'t>]>
    ensures { option_map (λ ds. map view ds.now) result ≡ inputs_given (view job.now) }
{
    items_of(job.get("inputs")?)
}

// The writes of a value, where it has the form of an input. The names in it that are no member's are then added to those that
// there are.
fn read_behind<'t>(
    alloc: Global,
    model: &ModelTable,
    names: &mut Vec<&'t str>,
    schema: SchemaRef<'_>,
    value: &JsonValue<'t>,
) -> Result<Option<WriteList>, OutOfMemory>
    requires natural { HasLabel model.now.table model.now.natural.0 natural_label }
    requires schema { StandsIn model.now.table (schema_of schema) }
    ensures { IfOk result (ReadsBehind model.now.table names.old names.new (input_at schema.entry value.now)) }
{
    let mut own = Vec::new(alloc);
    let nodes = ModelNodes {
        table: &model.table,
        natural: model.natural,
        earlier: names.as_slice(),
        floats: Floats::Kept,
    };
    match read_input(alloc, nodes, &mut own, schema, value) {
        Ok(writes) => {
            names.extend_from_slice(own.as_slice())?;
            Ok(Some(writes))
        }
        Err(JobError::NoJob) => Ok(None),
        Err(JobError::OutOfMemory) => Err(OutOfMemory),
    }
}

// Those of values, in order, with the names in them that are no member's.
fn read_each<'t>(
    alloc: Global,
    model: &ModelTable,
    names: &mut Vec<&'t str>,
    schema: SchemaRef<'_>,
    values: &[JsonValue<'t>],
) -> Result<Vec<Option<WriteList>>, OutOfMemory>
    requires none { names.old.items ≡ [] }
    requires natural { HasLabel model.now.table model.now.natural.0 natural_label }
    requires schema { StandsIn model.now.table (schema_of schema) }
    ensures { IfOk result (AreReadBy model.now.table names.new (inputs_at schema.entry values.now)) }
{
    let mut each = Vec::with_capacity(alloc, values.len())?;
    for value in values {
        let input = read_behind(alloc, model, names, schema, value)?;
        each.push(input)?;
    }
    Ok(each)
}

// Whether each of the values had the form of an input.
fn are_some(each: &[Option<WriteList>]) -> bool
    ensures { result ≡ list_all (λ w. is_some w) each.now }
{
    for writes in each {
        if writes.is_none() {
            return false;
        }
    }
    true
}

impl<'v, 't> Common<'v, 't> {
    ghost use Rattle.std.specs.Prelude.{map, IfOk};
    ghost use Rattle.smithy_json.specs.views.JsonView.{view};
    ghost use Rattle.smithy_job.specs.views.CommonView.{IsReadBy, IsReadCommon, TellsInputs};

    /// The writes of values, in order, of each that has the form of an input. The model is read once more where a name in them
    /// is no member's. Condition: it was read. Takes memory.
    pub fn read_inputs(
        &self,
        alloc: Global,
        values: &[JsonValue<'_>],
    ) -> Result<Inputs, OutOfMemory>
        requires { IsReadCommon self.now }
        ensures { IfOk result (IsReadBy self.now (map view values.now)) }
    {
        let Some(schema) = self.model.table.get(self.model.index) else {
            unreachable!()
        };
        let mut names = Vec::new(alloc);
        let each = read_each(alloc, &self.model, &mut names, schema, values)?;
        let further = further_nodes(
            alloc,
            self.job,
            Asked::Input,
            &self.model.table,
            names.as_slice(),
            Floats::Kept,
        )?;
        Ok(Inputs { further, each })
    }

    // Whether each of these values has the form of an input.
    fn are_inputs(&self, alloc: Global, values: &[JsonValue<'_>]) -> Result<bool, OutOfMemory>
        requires { IsReadCommon self.now }
        ensures { IfOk result (TellsInputs self.now (map view values.now)) }
    {
        let inputs = self.read_inputs(alloc, values)?;
        Ok(are_some(inputs.each.as_slice()))
    }
}

/// The same, of a JSON value with many inputs, each of which has the form of one. Takes memory. Any other value is no job.
#[tactic(auto, unfolding(crate::specs::Common::whole, crate::specs::Common::many))]
pub fn read_whole<'v, 't>(alloc: Global, job: &'v JsonValue<'t>) -> Result<Common<'v, 't>, JobError>
    ensures { ReadsAs IsWhole (whole (view job.now)) result }
{
    let Some(inputs) = inputs_of(job) else {
        return Err(JobError::NoJob);
    };
    let common = read_common(alloc, job)?;
    if !common.are_inputs(alloc, inputs)? {
        return Err(JobError::NoJob);
    }
    Ok(common)
}
