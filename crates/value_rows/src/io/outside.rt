// A source over a reader and a sink over a writer.
use crate::telling::Told;
use serde_json::Value;
use smithy_io::{Sink, Source, StdSink, StdSource};
use smithy_types::Text;
use std::alloc::Global;
use std::io::{self, Read, Write};
use test_rows::{Failed, count_of, item_text, items_of};

// A reader that gives the letter `a`, up to so many a call, and fails at one call.
#[derive(Drop)]
struct Letters {
    most: usize,
    failing: usize,
    calls: usize,
}

impl Read for Letters {
    fn read(&mut self, buf: &mut [u8]) -> io::Result<usize> {
        self.calls = self.calls.saturating_add(1);
        if self.calls == self.failing {
            return Err(io::Error::from(io::ErrorKind::BrokenPipe));
        }
        let given = buf.len().min(self.most);
        buf[..given].fill(b'a');
        Ok(given)
    }
}

/// What reads of a reader answer, each with the letters that stand in its buffer of 8,192 bytes, and whether it failed.
pub fn source(alloc: Global, given: &Value) -> Result<Text, Failed> {
    let mut told = Told::new(alloc)?;
    let mut source = StdSource::new(Letters {
        most: count_of(given, "most")?,
        failing: count_of(given, "failing")?,
        calls: 0,
    });
    for wanted in items_of(given, "reads")? {
        let mut bytes = vec![in alloc; b'.'; 8192]?;
        let wanted = usize::try_from(wanted.as_u64().ok_or(Failed)?)
            .ok()
            .ok_or(Failed)?;
        let outcome = source.read(&mut bytes[..wanted.min(8192)]);
        tell_count(&mut told, outcome)?;
        let letters = bytes.iter().filter(|b| **b == b'a').count();
        told.tell_count("letters", letters)?;
        told.tell_flag("failed", source.has_failed())?;
    }
    Ok(told.into_text())
}

/// Tells how many bytes were read or written, or that the outside failed.
pub fn tell_count(
    told: &mut Told,
    outcome: Result<usize, smithy_io::Failed>,
) -> Result<(), Failed> {
    match outcome {
        Ok(count) => told.tell_count("Ok", count),
        Err(smithy_io::Failed) => told.tell("Err"),
    }
}

// A writer that takes so many bytes a call, fails at one flush, and keeps what it is asked: `w` and the bytes for a
// write, `f` for a flush.
#[derive(Drop)]
struct Log {
    asked: Vec<u8>,
    most: usize,
    failing: usize,
    flushes: usize,
}

impl Write for Log {
    fn write(&mut self, buf: &[u8]) -> io::Result<usize> {
        let taken = buf.len().min(self.most);
        self.asked.push(b'w')?;
        self.asked.extend_from_slice(&buf[..taken])?;
        Ok(taken)
    }

    fn flush(&mut self) -> io::Result<()> {
        self.asked.push(b'f')?;
        self.flushes = self.flushes.saturating_add(1);
        if self.flushes == self.failing {
            return Err(io::Error::from(io::ErrorKind::BrokenPipe));
        }
        Ok(())
    }
}

/// What writes to a writer answer, and what it was asked.
pub fn sink(alloc: Global, given: &Value) -> Result<Text, Failed> {
    let mut told = Told::new(alloc)?;
    let mut log = Log {
        asked: Vec::new(alloc),
        most: count_of(given, "most")?,
        failing: count_of(given, "failing")?,
        flushes: 0,
    };
    let mut sink = StdSink::new(&mut log);
    for bytes in items_of(given, "writes")? {
        let bytes = item_text(alloc, bytes)?;
        let outcome = sink.write(bytes.as_str().as_bytes());
        tell_count(&mut told, outcome)?;
    }
    told.tell_bytes("asked", log.asked.as_slice())?;
    Ok(told.into_text())
}
