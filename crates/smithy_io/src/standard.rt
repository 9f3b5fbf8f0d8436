// A source over a reader and a sink over a writer, which tell no bytes: over standard input and output they are the edge of the
// program.
ghost use Rattle.std.specs.Prelude.{◌≡◌, ◌≤◌, length, None, IfOk};

use crate::sink::Sink;
use crate::source::{Failed, Source};
use std::io::{Read, Write};

/// A source over a reader, as standard input. It tells no bytes, counts how often the reader failed, and notes whether it did
/// so at the last read.
#[derive(Drop)]
pub struct StdSource<R: Read> {
    reader: R,
    failed: u64,
    has_failed: bool,
}

impl<R: Read> StdSource<R> {
    /// A source over this reader, which has not failed yet. Takes no memory.
    pub fn new(reader: R) -> StdSource<R>
        ensures { ⟦<StdSource<R> as Source>⟧.faults result ≡ 0 }
    {
        StdSource {
            reader,
            failed: 0,
            has_failed: false,
        }
    }

    /// Whether its last read failed. Takes no memory.
    pub fn has_failed(&self) -> bool
        ensures { result ≡ ⟦<StdSource<R> as Source>⟧.has_failed self.now }
    {
        self.has_failed
    }
}

impl<R: Read> Source for StdSource<R> {
    ghost left = { λ _. None };

    ghost faults = { λ s. s.failed };

    ghost has_failed = { λ s. s.has_failed };

    fn read(&mut self, buf: &mut [u8]) -> Result<usize, Failed> {
        match self.reader.read(buf) {
            Ok(n) => {
                self.has_failed = false;
                Ok(n)
            }
            Err(_) => {
                self.has_failed = true;
                self.failed = self.failed.saturating_add(1);
                Err(Failed)
            }
        }
    }
}

/// A sink over a writer, as standard output, which is flushed in each write. It tells no bytes, and counts how often the writer
/// failed or took nothing of a piece that isn't empty.
#[derive(Drop)]
pub struct StdSink<W: Write> {
    writer: W,
    failed: u64,
}

impl<W: Write> StdSink<W> {
    /// A sink over this writer, which has not failed yet. Takes no memory.
    pub fn new(writer: W) -> StdSink<W>
        ensures { ⟦<StdSink<W> as Sink>⟧.faults result ≡ 0 }
    {
        StdSink { writer, failed: 0 }
    }
}

impl<W: Write> Sink for StdSink<W> {
    ghost written = { λ _. None };

    ghost faults = { λ s. s.failed };

    fn write(&mut self, bytes: &[u8]) -> Result<usize, Failed> {
        match write_flushed(&mut self.writer, bytes) {
            Ok(n) if n > 0 || bytes.is_empty() => Ok(n),
            _ => {
                self.failed = self.failed.saturating_add(1);
                Err(Failed)
            }
        }
    }
}

fn write_flushed<W: Write>(writer: &mut W, bytes: &[u8]) -> std::io::Result<usize>
    ensures { IfOk result (λ n. n ≤ length bytes.now) }
{
    let n = writer.write(bytes)?;
    writer.flush()?;
    Ok(n)
}
