// Calls of `smithy_router`.
use crate::steps::{step_text, step_value};
use crate::telling::Told;
use serde_json::Value;
use smithy_router::{RouteError, Routes, laws};
use smithy_types::Text;
use std::alloc::Global;
use test_rows::{Failed, item_text, items_of};

/// What the steps on an empty list of routes answer, `None` where the call is another's.
pub fn answer(alloc: Global, call: &str, given: &Value) -> Result<Option<Text>, Failed> {
    if call != "Routes" {
        return Ok(None);
    }
    laws::tests_decide();
    laws::some_is_best();
    laws::best_is_one();
    let mut told = Told::new(alloc)?;
    let mut routes = Routes::new(alloc);
    for step in items_of(given, "steps")? {
        take_step(&mut told, &mut routes, step)?;
    }
    told.tell_count("len", routes.len())?;
    Ok(Some(told.into_text()))
}

fn take_step(told: &mut Told, routes: &mut Routes, step: &Value) -> Result<(), Failed> {
    let method = step_text(step, 1)?;
    let target = item_text(told.alloc(), step_value(step, 2)?)?;
    match step_text(step, 0)? {
        "find" => told.tell_option(routes.find(method, target.as_str())),
        "add" => {
            let outcome = routes.add(method, target.as_str(), step_text(step, 3)?);
            tell_outcome(told, outcome)
        }
        _ => Err(Failed),
    }
}

fn tell_outcome(told: &mut Told, outcome: Result<(), RouteError>) -> Result<(), Failed> {
    match outcome {
        Ok(()) => told.tell("Ok"),
        Err(RouteError::Template) => told.tell("Template"),
        Err(RouteError::Conflict { other }) => told.tell_text("Conflict", other.as_str()),
        Err(RouteError::OutOfMemory) => Err(Failed),
    }
}
