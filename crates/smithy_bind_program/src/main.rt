// The program: answers a command over standard input and output.
#![tactic(auto)]

use smithy_bind::run;
use smithy_io::{StdSink, StdSource};
use smithy_types::Words;
use std::io::ErrorKind;
use std::process::ExitCode;
use std::rt::Env;
use std::{env, io};

// The exit status where a word isn't UTF-8.
const NO_WORDS: u8 = 1;

// The exit status where memory was wanted and not there.
const NO_MEMORY: u8 = 6;

fn main(rt: HostRuntime) -> ExitCode {
    let words = match words_of(&rt) {
        Ok(words) => words,
        Err(error) => return ExitCode::from(failed(&error)),
    };
    let mut source = StdSource::new(rt.stdin());
    let mut sink = StdSink::new(io::writer(&rt));
    ExitCode::from(run(rt.alloc(), &words, &mut source, &mut sink).code())
}

// The words behind the program's name.
fn words_of<R: Env + AllocGlobal>(rt: &R) -> io::Result<Words> {
    let mut words = Words::new(rt.alloc());
    for (place, word) in env::args(rt)?.enumerate() {
        if place > 0 && words.push(word.as_str()).is_err() {
            return Err(io::Error::from(ErrorKind::OutOfMemory));
        }
    }
    Ok(words)
}

// The exit status where the words can't be had.
fn failed(error: &io::Error) -> u8 {
    if error.kind() == ErrorKind::OutOfMemory {
        NO_MEMORY
    } else {
        NO_WORDS
    }
}
