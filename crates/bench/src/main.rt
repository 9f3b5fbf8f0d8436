// Does one sample again and again, a program to count instructions in. Its first word is the sample: `get 1000` and
// `put 1000 told` place an input, `put 1000 back` reads its request back, `job 1000` runs the job on standard input,
// `object 100 1000` reads a JSON object of 100 fields and `scrambled 100 1000` one whose fields stand in no order,
// `response 1000` reads a response and `answer 1000` writes one, `items 100 1000`, `headers 100 1000` and `pairs 100 1000`
// read back a request that has 100 of these, `routes 200 1 1000` finds an operation of 200 resources by a target of the second
// form, and `matchit 200 1 1000` does so by `matchit`.
#![tactic(auto)]

mod counted;
mod failed;
mod get_object;
mod grown;
mod inputs;
mod job;
mod object;
mod placing;
mod put_object;
mod response;
mod routing;
mod sample;
mod told_struct;
mod way_back;

use crate::failed::Failed;
use crate::get_object::do_get;
use crate::grown::{Grown, read_grown};
use crate::job::run_job;
use crate::object::read_objects;
use crate::placing::Doing;
use crate::put_object::do_put;
use crate::response::{read_responses, write_responses};
use crate::routing::{find_routes, match_routes};
use crate::sample::Order;
use std::env;
use std::env::Args;
use std::io::Input;
use std::process::ExitCode;
use std::rt::Env;

fn main(rt: HostRuntime) -> ExitCode {
    match run(&rt) {
        Ok(()) => ExitCode::SUCCESS,
        Err(_) => ExitCode::FAILURE,
    }
}

// The next word as a number.
fn number(words: &mut Args) -> Result<u32, Failed> {
    let Some(word) = words.next() else {
        return Err(Failed);
    };
    match word.as_str().parse::<u32>() {
        Ok(number) => Ok(number),
        Err(_) => Err(Failed),
    }
}

// What is done with an input: behind the word `told` it tells its writes one by one, behind `back` its request is read back, and
// else it is placed as it keeps them.
fn doing_of(words: &mut Args) -> Result<Doing, Failed> {
    let Some(word) = words.next() else {
        return Ok(Doing::PlacingKept);
    };
    match word.as_str() {
        "told" => Ok(Doing::PlacingTold),
        "back" => Ok(Doing::ReadingBack),
        _ => Err(Failed),
    }
}

fn run<R: Env + Input + AllocGlobal>(rt: &R) -> Result<(), Failed> {
    let alloc = rt.alloc();
    let mut words = env::args(rt)?;
    let _ = words.next();
    let Some(sample) = words.next() else {
        return Err(Failed);
    };
    let count = number(&mut words)?;
    match sample.as_str() {
        "get" => do_get(alloc, doing_of(&mut words)?, count),
        "put" => do_put(alloc, doing_of(&mut words)?, count),
        "job" => run_job(rt, count),
        "object" => read_objects(alloc, count, Order::InTurn, number(&mut words)?),
        "scrambled" => read_objects(alloc, count, Order::Scrambled, number(&mut words)?),
        "response" => read_responses(alloc, count),
        "answer" => write_responses(alloc, count),
        "routes" => find_routes(alloc, count, number(&mut words)?, number(&mut words)?),
        "matchit" => match_routes(alloc, count, number(&mut words)?, number(&mut words)?),
        "items" => read_grown(alloc, Grown::Items, count, number(&mut words)?),
        "headers" => read_grown(alloc, Grown::Headers, count, number(&mut words)?),
        "pairs" => read_grown(alloc, Grown::Pairs, count, number(&mut words)?),
        _ => Err(Failed),
    }
}
