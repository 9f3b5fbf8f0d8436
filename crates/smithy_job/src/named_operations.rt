// The operations that a job names.
ghost use Rattle.std.specs.Prelude.{◌≡◌, map};
ghost use Rattle.smithy_json.specs.views.JsonView.{view};
ghost use Rattle.smithy_model.specs.Models as models;
ghost use Rattle.smithy_model.specs.Among.{schema_among};
ghost use Rattle.smithy_model.specs.Reads.{Reads};
ghost use Rattle.smithy_model.specs.views.ModelView.{shapes_view};
ghost use Rattle.smithy_job.specs.Routing.{has_http};
ghost use Rattle.smithy_job.specs.views.RoutingView.{placed_seen, operation_seen, operation_among, operations_at, all_named};
ghost use Rattle.smithy_job.specs.views.Tables.{schema_seen};

use crate::operation::Operation;
use smithy_json::JsonValue;
use smithy_model::{Asked, JobError, ModelShapes, ModelTable, schema_among, shapes_of};
use smithy_schema::{SchemaIndex, Schemas};
use std::alloc::Global;

/// Operations by their names, which are texts where they are ones of a model, and its shapes, where it has some. Each is read
/// when it is asked for.
#[derive(Clone, Copy)]
pub struct NamedOperations<'v, 't> {
    pub names: &'v [JsonValue<'t>],
    pub shapes: Option<ModelShapes<'v, 't>>,
}

// The schema of an operation's input, in a table.
#[tactic(auto, using(crate::proofs::RoutingLemmas::placed_reads))]
fn input_schema(
    alloc: Global,
    shapes: &ModelShapes<'_, '_>,
    name: &str,
) -> Result<ModelTable, JobError>
    ensures { Reads placed_seen (schema_among models.input (shapes_view shapes.now) name.now) result }
{
    schema_among(alloc, shapes, name, Asked::Input)
}

// Whether the node at an index has `@http`.
#[tactic(auto, using(crate::proofs::RoutingLemmas::http_there, crate::proofs::RoutingLemmas::none_there))]
fn has_http(table: &Schemas, index: SchemaIndex) -> bool
    ensures { result ≡ has_http (schema_seen table.now index.0) }
{
    match table.get(index) {
        Some(schema) => schema.http().is_some(),
        None => false,
    }
}

// The operation of this name among the shapes of a model.
fn operation_among<'t>(
    alloc: Global,
    shapes: &ModelShapes<'_, '_>,
    name: &'t str,
) -> Result<Operation<'t>, JobError>
    ensures { Reads operation_seen (operation_among (shapes_view shapes.now) name.now) result }
{
    let ModelTable { table, index, .. } = input_schema(alloc, shapes, name)?;
    if !has_http(&table, index) {
        return Err(JobError::NoJob);
    }
    Ok(Operation { name, table, index })
}

/// The operations of these names in a model, whose shapes' names are gone over once. Takes no memory.
pub fn named_in<'v, 't>(
    model: &'v JsonValue<'t>,
    names: &'v [JsonValue<'t>],
) -> NamedOperations<'v, 't>
    ensures { all_named result ≡ operations_at model.now names.now }
{
    NamedOperations {
        names,
        shapes: shapes_of(model),
    }
}

impl<'v, 't> NamedOperations<'v, 't> {
    ghost use Rattle.smithy_json.specs.views.JsonView.{view};
    ghost use Rattle.smithy_model.specs.Reads.{Reads};
    ghost use Rattle.smithy_job.specs.views.RoutingView.{operation_seen, operation_by};

    /// The operation that a text names. Takes memory: a table of the shapes that its input reaches. No job where it is no text,
    /// or no operation with `@http` whose shapes have their form.
    #[tactic(auto, unfolding(crate::specs::views::RoutingView::named_among))]
    pub fn read(&self, alloc: Global, name: &JsonValue<'t>) -> Result<Operation<'t>, JobError>
        ensures { Reads operation_seen (operation_by self.now (view name.now)) result }
    {
        let Some(name) = name.as_str() else {
            return Err(JobError::NoJob);
        };
        match &self.shapes {
            Some(shapes) => operation_among(alloc, shapes, name),
            None => Err(JobError::NoJob),
        }
    }
}
