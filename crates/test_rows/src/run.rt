// All rows of an input, compared with what the calls answer.
use crate::failed::Failed;
use crate::row::Row;
use serde_json::Value;
use smithy_types::Text;
use std::alloc::Global;
use std::io::{BufRead, BufReader, Input, Print};

/// What the calls of a program answer.
pub trait Answers {
    /// The text that a call answers for what is given to it; `Failed` where there is no such call, where it can't be given
    /// that, or where memory is wanted.
    fn answer(&self, alloc: Global, call: &str, given: &Value) -> Result<Text, Failed>;
}

/// Reads rows from standard input, a line each, and prints the answer of each call that differs from the row's;
/// the last line has the number of rows, and how many of them failed. It takes memory.
pub fn run_rows<R: Input + Print + AllocGlobal, A: Answers>(
    rt: &R,
    answers: &A,
) -> Result<(), Failed> {
    let alloc = rt.alloc();
    let mut rows: u32 = 0;
    let mut failed: u32 = 0;
    for line in BufReader::new(alloc, rt.reader())?.lines(alloc) {
        rows = rows.saturating_add(1);
        match difference(alloc, answers, line?.as_str()) {
            Ok(None) => continue,
            Ok(Some(answer)) => print_answer(rt, rows, answer.as_str())?,
            Err(Failed) => println!(rt; "row {rows} has no answer")?,
        }
        failed = failed.saturating_add(1);
    }
    println!(rt; "{rows} rows, {failed} failed")?;
    Ok(())
}

fn print_answer<R: Print>(rt: &R, row: u32, answer: &str) -> Result<(), Failed> {
    println!(rt; "row {row}: {answer}")?;
    Ok(())
}

// What a row's call answers, where that isn't what the row has.
fn difference<A: Answers>(alloc: Global, answers: &A, line: &str) -> Result<Option<Text>, Failed> {
    let row = Row::read(alloc, line)?;
    let answer = answers.answer(alloc, row.call()?, row.given()?)?;
    if answer.as_str() == row.answer()? {
        Ok(None)
    } else {
        Ok(Some(answer))
    }
}
