// The command `route`: which operation a request is of, and its input.
ghost use Rattle.std.specs.Prelude.{◌≡◌, find, map, option_map, OnOk};
ghost use Rattle.smithy_json.specs.JsonView.{view};
ghost use Rattle.smithy_model.specs.Reads.{Reads};
ghost use Rattle.smithy_job.specs.RoutingView.{operation_by, operation_seen};
ghost use Rattle.smithy_bind.specs.Outcome.{json_requests, routed_to};
ghost use Rattle.smithy_bind.specs.Recovering.{recovered_by};
ghost use Rattle.smithy_bind.specs.Responding.{behind_name};
ghost use Rattle.smithy_bind.specs.Routing.{conflict, no_route, no_template, operation_found, told_input, with_operation};
ghost use Rattle.smithy_bind.specs.Told.{fault_line};
ghost use Rattle.smithy_bind.specs.views.AnswerView.{Gives, outcome_view};
ghost use Rattle.smithy_bind.specs.views.RoutedView.{added_seen, checked_by, is_named, routes_named, text_seen, told_by_added, told_by_routes, told_in_turn, told_named, with_more, AddsRouteOf, GivesRoutes, IsLine, TellsWhy};

use crate::recovered::job_told;
use crate::response::behind_name;
use crate::told::Answer;
use smithy_binding::checked_input;
use smithy_http::Request;
use smithy_job::{NamedOperations, NamedRouting, Operation, read_named_routing};
use smithy_json::JsonValue;
use smithy_model::JobError;
use smithy_router::{RouteError, Routes};
use smithy_serde::OmitFlags;
use smithy_types::OutOfMemory;
use std::alloc::Global;

// The line where no route matches.
const NO_ROUTE: &str = "NoRoute: no operation has this request\n";

// Why operations have no routes.
#[derive(Drop)]
enum Refusal {
    // In a line.
    Line(Vec<u8>),
    OutOfMemory,
}

// The routes of operations, in order, up to the first that has none, and its line.
#[derive(Drop)]
struct Added {
    routes: Routes,
    line: Option<Vec<u8>>,
}

/// What is to be told of the request that a JSON value has, by the one of its operations whose route matches it best, with bodies
/// of JSON (AWS restJson1). Takes memory, for one operation at a time. No job where it is none, or where no request can be placed
/// by a schema of its operations.
#[tactic(auto, unfolding(crate::specs::Outcome::routed_to))]
pub fn routed(alloc: Global, value: &JsonValue<'_>) -> Result<Answer, JobError>
    ensures { Gives (routed_to (view value.now)) result }
{
    let job = read_named_routing(alloc, value)?;
    routing_told(alloc, job)
}

// What is to be told of a request of many operations.
#[tactic(auto, unfolding(crate::specs::views::RoutedView::told_in_turn))]
fn routing_told(alloc: Global, job: NamedRouting<'_, '_>) -> Result<Answer, JobError>
    ensures { Gives (told_in_turn json_requests job.entry) result }
{
    let added = routes_of(alloc, &job.operations)?;
    added_told(alloc, added, job)
}

// What is to be told of a request by the routes that were added.
#[tactic(auto, unfolding(crate::specs::views::RoutedView::told_by_added))]
fn added_told(alloc: Global, added: Added, job: NamedRouting<'_, '_>) -> Result<Answer, JobError>
    ensures { Gives (told_by_added json_requests job.entry (added_seen added)) result }
{
    let Added { routes, line } = added;
    match line {
        Some(line) => Ok(Answer::Fault(line)),
        None => found_told(alloc, &routes, job),
    }
}

// The operation that a text names. No job where it names none, or no request can be placed by its schema.
fn checked_operation<'t>(
    alloc: Global,
    operations: &NamedOperations<'_, 't>,
    name: &JsonValue<'t>,
) -> Result<Operation<'t>, JobError>
    ensures { Reads operation_seen (checked_by (operation_by operations.now) (view name.now)) result }
{
    let operation = operations.read(alloc, name)?;
    if !checked_input(alloc, operation.schema())? {
        return Err(JobError::NoJob);
    }
    Ok(operation)
}

// The routes of the operations, in order. No job where one is none, or no request can be placed by its schema.
fn routes_of(alloc: Global, operations: &NamedOperations<'_, '_>) -> Result<Added, JobError>
    ensures { Reads added_seen (routes_named operations.now) result }
{
    let names = operations.names;
    let mut added = Added {
        routes: Routes::new(alloc),
        line: None,
    };
    for name in names {
        let operation = checked_operation(alloc, operations, name)?;
        add(alloc, &mut added, &operation)?;
    }
    Ok(added)
}

// Adds the route of an operation, where each one before it has one.
fn add(alloc: Global, added: &mut Added, operation: &Operation<'_>) -> Result<(), OutOfMemory>
    ensures { OnOk result (added_seen added.new ≡ with_more added.old operation.now) }
{
    if added.line.is_some() {
        return Ok(());
    }
    match add_operation(alloc, &mut added.routes, operation) {
        Ok(()) => Ok(()),
        Err(Refusal::Line(line)) => {
            added.line = Some(line);
            Ok(())
        }
        Err(Refusal::OutOfMemory) => Err(OutOfMemory),
    }
}

// Adds the route of an operation, or tells why it has none.
fn add_operation(
    alloc: Global,
    routes: &mut Routes,
    operation: &Operation<'_>,
) -> Result<(), Refusal>
    ensures { GivesRoutes (with_operation routes.old (operation_seen operation.now)) routes.new result }
{
    match add_route(routes, operation) {
        Ok(()) => Ok(()),
        Err(refusal) => Err(told_why(alloc, operation.name, &refusal)),
    }
}

// Adds the route of an operation's template.
fn add_route(routes: &mut Routes, operation: &Operation<'_>) -> Result<(), RouteError>
    ensures { AddsRouteOf routes.old (operation_seen operation.now) routes.new result }
{
    let http = operation.http();
    routes.add(http.method(), http.uri(), operation.name)
}

// Why the operation of this name is refused.
fn told_why(alloc: Global, name: &str, refusal: &RouteError) -> Refusal
    ensures { TellsWhy name.now refusal.now result }
{
    match refusal {
        RouteError::Template => no_template(alloc, name),
        RouteError::Conflict { other } => conflict(alloc, name, other.as_str()),
        RouteError::OutOfMemory => Refusal::OutOfMemory,
    }
}

// The template of this operation has no route.
fn no_template(alloc: Global, name: &str) -> Refusal
    ensures { IsLine (no_template name.now) result }
{
    match format!(in alloc; "Template: {name} has no routable template\n") {
        Ok(line) => Refusal::Line(line.into_bytes()),
        Err(_) => Refusal::OutOfMemory,
    }
}

// The route of this operation conflicts with that of the other.
fn conflict(alloc: Global, name: &str, other: &str) -> Refusal
    ensures { IsLine (conflict name.now other.now) result }
{
    match format!(in alloc; "Conflict: {name} conflicts with {other}\n") {
        Ok(line) => Refusal::Line(line.into_bytes()),
        Err(_) => Refusal::OutOfMemory,
    }
}

// The operation of the best route of a request.
#[tactic(auto, using(crate::proofs::RoutedLemmas::best_found_by))]
fn operation_found<'r>(routes: &'r Routes, request: &Request) -> Option<&'r str>
    ensures { text_seen result ≡ operation_found request.now routes.now }
{
    routes.find(request.method(), request.uri())
}

// Whether a text is this name.
fn is_named(text: &JsonValue<'_>, name: &str) -> bool
    ensures { result ≡ is_named name.now (view text.now) }
{
    match text.as_str() {
        Some(text) => text == name,
        None => false,
    }
}

// The first of these that is this name.
fn text_named<'v, 't>(names: &'v [JsonValue<'t>], name: &str) -> Option<&'v JsonValue<'t>>
    ensures { option_map (λ v. view v.now) result ≡ find (is_named name.now) (map view names.now) }
{
    for text in names {
        if is_named(text, name) {
            return Some(text);
        }
    }
    None
}

// What is to be told of a request by the operation that the routes lead to.
#[tactic(auto, unfolding(crate::specs::views::RoutedView::told_by_routes, crate::specs::views::RoutedView::told_named))]
fn found_told(alloc: Global, routes: &Routes, job: NamedRouting<'_, '_>) -> Result<Answer, JobError>
    ensures { Gives (told_by_routes json_requests job.entry routes.now) result }
{
    let Some(name) = operation_found(routes, &job.request) else {
        return not_found(alloc);
    };
    match text_named(job.operations.names, name) {
        Some(text) => named_told(alloc, job, text),
        None => not_found(alloc),
    }
}

// What is to be told of a request by the operation that a text names, which is read again.
#[tactic(auto, unfolding(crate::specs::views::RoutedView::told_named))]
fn named_told<'t>(
    alloc: Global,
    job: NamedRouting<'_, 't>,
    name: &JsonValue<'t>,
) -> Result<Answer, JobError>
    ensures { Gives (told_named json_requests job.entry (view name.now)) result }
{
    let operation = job.operations.read(alloc, name)?;
    input_told(alloc, operation, job.request, job.omit)
}

// What is told where no route matches.
fn not_found(alloc: Global) -> Result<Answer, JobError>
    ensures { Gives (fault_line no_route) result }
{
    Ok(Answer::Fault(Vec::from_slice(alloc, NO_ROUTE.as_bytes())?))
}

// What is to be told of a request by an operation: its name, and the input.
fn input_told(
    alloc: Global,
    operation: Operation<'_>,
    request: Request,
    omit: OmitFlags,
) -> Result<Answer, JobError>
    ensures { Gives (told_input json_requests omit request (operation_seen operation.entry)) result }
{
    let name = operation.name;
    let answer = answer_by(alloc, operation, request, omit)?;
    named(alloc, name, answer)
}

// What is to be told of the input of a request by an operation.
#[tactic(auto, using(crate::proofs::RoutedLemmas::told_by_operation, crate::proofs::RoutedLemmas::node_there))]
fn answer_by(
    alloc: Global,
    operation: Operation<'_>,
    request: Request,
    omit: OmitFlags,
) -> Result<Answer, JobError>
    ensures { Gives (recovered_by (json_requests (operation_seen operation.entry).schema) omit request) result }
{
    job_told(alloc, &operation.into_recovering(request, omit))
}

// What is told, an output behind a name.
fn named(alloc: Global, name: &str, answer: Answer) -> Result<Answer, JobError>
    ensures { Gives (behind_name name.now (outcome_view answer)) result }
{
    match answer {
        Answer::Output(text) => Ok(Answer::Output(behind_name(alloc, name, text.as_slice())?)),
        Answer::Fault(line) => Ok(Answer::Fault(line)),
    }
}
