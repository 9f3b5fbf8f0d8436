// The writes of a job: those of an input, or of an output.
ghost use Rattle.std.specs.Prelude.{◌≡◌, Some, IfOk, option_map, unwrap_or};
ghost use Rattle.smithy_json.specs.views.JsonView.{view};
ghost use Rattle.smithy_model.specs.views.ModelView.{asked_view};
ghost use Rattle.smithy_model.specs.views.PlacedView.{IsPlacedAt};
ghost use Rattle.smithy_job.specs.Jobs.{schema, written};
ghost use Rattle.smithy_job.specs.views.Tables.{nodes_with, ReadsAs};
ghost use Rattle.smithy_job.specs.views.WrittenView.{IsWritten};

use crate::input::read_input;
use crate::node::{ModelNodes, add_nodes};
use crate::reading::schema_asked;
use smithy_json::JsonValue;
use smithy_model::{Asked, Floats, JobError, ModelTable};
use smithy_schema::{SchemaIndex, Schemas};
use smithy_serde::WriteList;
use smithy_types::OutOfMemory;
use std::alloc::Global;

/// The writes of an input or an output, and the index of its schema in a table.
#[derive(Drop)]
pub struct Written {
    pub table: Schemas,
    pub index: SchemaIndex,
    /// The nodes of the writes where some of their names are no member's: those of `table`, and one for
    /// each such name. Else they are those of `table`.
    pub further: Option<Schemas>,
    pub writes: WriteList,
}

/// The nodes of a job's model, and those of names that are no member's; none where there is no such name. The model was read
/// before, so want of memory is all that can refuse it.
pub fn further_nodes<'t>(
    alloc: Global,
    job: &JsonValue<'t>,
    asked: Asked<'t>,
    table: &Schemas,
    names: &[&str],
    floats: Floats,
) -> Result<Option<Schemas>, OutOfMemory>
    requires { option_map (λ s. s.table) (schema floats (asked_view asked) (view job.now)) ≡ Some table.now }
    ensures { IfOk result (λ o. unwrap_or o table.now ≡ nodes_with table.now names.now) }
{
    if names.is_empty() {
        return Ok(None);
    }
    let Ok(again) = schema_asked(alloc, job, asked, floats) else {
        return Err(OutOfMemory);
    };
    let mut nodes = again.table;
    add_nodes(&mut nodes, names)?;
    Ok(Some(nodes))
}

// The writes under a key, by a model that was read.
fn written_by<'t>(
    alloc: Global,
    job: &JsonValue<'t>,
    asked: Asked<'t>,
    key: &str,
    model: ModelTable,
    floats: Floats,
) -> Result<Written, JobError>
    requires { IsPlacedAt (schema floats (asked_view asked) (view job.now)) model }
    ensures { ReadsAs IsWritten (written floats (asked_view asked.entry) key.now (view job.now)) result }
{
    let ModelTable {
        table,
        index,
        natural,
    } = model;
    let Some(schema) = table.get(index) else {
        return Err(JobError::NoJob);
    };
    let Some(value) = job.get(key) else {
        return Err(JobError::NoJob);
    };
    let mut names = Vec::new(alloc);
    let nodes = ModelNodes {
        table: &table,
        natural,
        earlier: &[],
        floats,
    };
    let writes = read_input(alloc, nodes, &mut names, schema, value)?;
    let further = further_nodes(alloc, job, asked, &table, names.as_slice(), floats)?;
    Ok(Written {
        table,
        index,
        further,
        writes,
    })
}

/// What stands under a key of a job, as the writes of what is asked of its operation. Takes memory. What hasn't the form of
/// these is no job.
pub fn read_written<'t>(
    alloc: Global,
    job: &JsonValue<'t>,
    asked: Asked<'t>,
    key: &str,
    floats: Floats,
) -> Result<Written, JobError>
    ensures { ReadsAs IsWritten (written floats (asked_view asked.entry) key.now (view job.now)) result }
{
    let model = schema_asked(alloc, job, asked, floats)?;
    written_by(alloc, job, asked, key, model, floats)
}
