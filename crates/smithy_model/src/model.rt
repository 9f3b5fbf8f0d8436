// From a model and the name of an operation to its schemas.
ghost use Rattle.std.specs.Prelude.{◌≡◌};
ghost use Rattle.smithy_json.specs.views.JsonView.{view};
ghost use Rattle.smithy_model.specs.Among.{schema_among};
ghost use Rattle.smithy_model.specs.Models.{http_asked, http_in_model, schema_in_model, schema_with_floats, errors_in_model, errors_with_floats};
ghost use Rattle.smithy_model.specs.Reads.{Reads};
ghost use Rattle.smithy_model.specs.views.ModelView.{asked_view, operation_view, shapes_view};
ghost use Rattle.smithy_model.specs.views.NameView.{texts};
ghost use Rattle.smithy_model.specs.views.PlacedView.{schema_asked, Places, PlacesErrors};

use crate::error::JobError;
use crate::floats::Floats;
use crate::model_shapes::ModelShapes;
use crate::operation::{name_asked, operation_at};
use crate::reached::{shapes_from, with_floats, with_http};
use crate::shape::{Asked, Operation};
use crate::table::{ModelTable, PlacedErrors, errors_of, table_of};
use smithy_ids::HttpTrait;
use smithy_json::JsonValue;
use std::alloc::Global;

fn http_asked<'t>(operation: Operation<'t>, asked: Asked<'_>) -> Option<HttpTrait<'t>>
    ensures { result ≡ http_asked (asked_view asked.entry) (operation_view operation.entry) }
{
    match asked {
        Asked::Input => operation.http,
        _ => None,
    }
}

// The schema of what is asked of an operation, by the shapes that are reached from it, their floats read so.
fn schema_by<'t>(
    alloc: Global,
    shapes: &ModelShapes<'_, 't>,
    operation: Operation<'t>,
    asked: Asked<'_>,
    floats: Floats,
) -> Result<ModelTable, JobError>
    ensures { Places (schema_asked floats asked.entry shapes.now operation.entry) result }
{
    let Some(root) = name_asked(&operation, asked) else {
        return Err(JobError::NoJob);
    };
    let reached = with_floats(shapes_from(alloc, shapes, &[root])?, floats);
    table_of(
        alloc,
        &with_http(reached, http_asked(operation, asked)),
        root,
    )
}

/// The schema of what is asked of an operation of this full name, by those of the shapes of a model that are reached from it
/// (Smithy, JSON AST). Each of these is read once, in time linear in them up to the logarithm of a map. Takes memory.
///
/// No job where the operation isn't among the shapes, an error isn't one of the operation's, or a shape that is reached isn't
/// there or hasn't its form.
#[tactic(auto, unfolding(crate::specs::Among::schema_among))]
pub fn schema_among(
    alloc: Global,
    shapes: &ModelShapes<'_, '_>,
    name: &str,
    asked: Asked<'_>,
) -> Result<ModelTable, JobError>
    ensures { Places (schema_among (asked_view asked.entry) (shapes_view shapes.now) name.now) result }
{
    let operation = operation_at(alloc, shapes, name)?;
    schema_by(alloc, shapes, operation, asked, Floats::Kept)
}

/// The same of a model, whose shapes' names are gone over once, with its floats as they are or as decimals. Takes memory.
///
/// No job where the model has no `shapes`, and else as for `schema_among`.
#[tactic(auto, unfolding(crate::specs::Models::schema_with_floats))]
pub fn schema_with_floats(
    alloc: Global,
    model: &JsonValue<'_>,
    name: &str,
    asked: Asked<'_>,
    floats: Floats,
) -> Result<ModelTable, JobError>
    ensures { Places (schema_with_floats floats (asked_view asked.entry) (view model.now) name.now) result }
{
    let Some(object) = model.get("shapes") else {
        return Err(JobError::NoJob);
    };
    let Some(shapes) = ModelShapes::of(object) else {
        return Err(JobError::NoJob);
    };
    let operation = operation_at(alloc, &shapes, name)?;
    schema_by(alloc, &shapes, operation, asked, floats)
}

/// The same with its floats as they are.
#[tactic(auto, unfolding(crate::specs::Models::schema_in_model, crate::specs::Models::schema_with_floats))]
pub fn schema_of_operation(
    alloc: Global,
    model: &JsonValue<'_>,
    name: &str,
    asked: Asked<'_>,
) -> Result<ModelTable, JobError>
    ensures { Places (schema_in_model (asked_view asked.entry) (view model.now) name.now) result }
{
    schema_with_floats(alloc, model, name, asked, Floats::Kept)
}

/// `@http` of an operation of this full name, where it has one. Of the shapes the operation alone is looked at. Takes memory.
///
/// No job where the model has no `shapes`, or the operation isn't among them or hasn't its form.
#[tactic(auto, unfolding(crate::specs::Models::http_in_model))]
pub fn http_of_operation<'t>(
    alloc: Global,
    model: &JsonValue<'t>,
    name: &str,
) -> Result<Option<HttpTrait<'t>>, JobError>
    ensures { Reads (λ h. h) (http_in_model (view model.now) name.now) result }
{
    let Some(object) = model.get("shapes") else {
        return Err(JobError::NoJob);
    };
    let Some(shapes) = ModelShapes::of(object) else {
        return Err(JobError::NoJob);
    };
    let operation = operation_at(alloc, &shapes, name)?;
    Ok(operation.http)
}

/// The schemas of all errors of an operation of this full name, and of these errors of its service, in one table, with the
/// model's floats as they are or as decimals. Takes memory.
///
/// No job as for `schema_of_operation`; each error's shape is reached.
#[tactic(auto, unfolding(crate::specs::Models::errors_with_floats))]
pub fn errors_with_floats<'t>(
    alloc: Global,
    model: &JsonValue<'t>,
    name: &str,
    service: &[&'t str],
    floats: Floats,
) -> Result<PlacedErrors, JobError>
    ensures { PlacesErrors (errors_with_floats floats (texts service.now) (view model.now) name.now) result }
{
    let Some(object) = model.get("shapes") else {
        return Err(JobError::NoJob);
    };
    let Some(shapes) = ModelShapes::of(object) else {
        return Err(JobError::NoJob);
    };
    let Operation { errors, .. } = operation_at(alloc, &shapes, name)?;
    let mut names = Vec::from_slice(alloc, errors.as_slice())?;
    names.extend_from_slice(service)?;
    let reached = with_floats(shapes_from(alloc, &shapes, names.as_slice())?, floats);
    errors_of(alloc, &reached, errors.as_slice(), service)
}

/// The same with its floats as they are.
#[tactic(auto, unfolding(crate::specs::Models::errors_in_model, crate::specs::Models::errors_with_floats))]
pub fn errors_of_operation<'t>(
    alloc: Global,
    model: &JsonValue<'t>,
    name: &str,
    service: &[&'t str],
) -> Result<PlacedErrors, JobError>
    ensures { PlacesErrors (errors_in_model (texts service.now) (view model.now) name.now) result }
{
    errors_with_floats(alloc, model, name, service, Floats::Kept)
}
