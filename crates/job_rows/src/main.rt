// Runs rows of data: each line of standard input has a job, and the line in its place in the output says how the run of its
// words with that job ended, and what it wrote. The lines that are wanted stand in the file `stdout`.
#![tactic(auto)]

mod ended;
mod failed;
mod row;

use crate::ended::ended;
use crate::failed::Failed;
use crate::row::Row;
use std::io::{BufRead, BufReader, Input, Print};
use std::process::ExitCode;

fn main(rt: HostRuntime) -> ExitCode {
    match run(&rt) {
        Ok(()) => ExitCode::SUCCESS,
        Err(Failed) => ExitCode::FAILURE,
    }
}

fn run<R: Input + Print + AllocGlobal>(rt: &R) -> Result<(), Failed> {
    let alloc = rt.alloc();
    for line in BufReader::new(alloc, rt.reader())?.lines(alloc) {
        let row = Row::read(alloc, line?.as_str())?;
        let text = ended(alloc, row)?;
        println!(rt; "{text}")?;
    }
    Ok(())
}
