// Reading a source to its end, and writing all of a text.
ghost use Rattle.std.specs.Prelude.{◌≡◌, ◌≤◌, length, IfOk, OnOk, OnErr, Err};
ghost use Rattle.smithy_io.specs.Causes.{Rose, Stops};
ghost use Rattle.smithy_io.specs.Streams.{IsWhole, HasTooMuch, HasReadPart, max_job_len, Gained, GainedPart, IsFull};

use crate::sink::Sink;
use crate::source::{Failed, Source};
use smithy_types::OutOfMemory;
use std::alloc::Global;

/// The most bytes that an input may have: 16 MiB.
pub const MAX_JOB_LEN: usize = 16_777_216;

// how many bytes a read asks for at most
const PIECE: usize = 4096;

/// Why a source was not read to its end.
#[derive(Clone, Copy, Debug, PartialEq, Eq, Drop)]
pub enum ReadError {
    /// The source failed.
    Failed,
    /// It has more than `MAX_JOB_LEN` bytes.
    TooLong,
    /// Memory was wanted and not there.
    OutOfMemory,
}

impl From<OutOfMemory> for ReadError {
    ghost use Rattle.smithy_io.specs.declared.streams.ReadError.TheVariants as read_error;

    ghost from_gives = { λ _ e. e ≡ read_error.OutOfMemory };

    fn from(_: OutOfMemory) -> ReadError {
        ReadError::OutOfMemory
    }
}

/// All bytes that the source has, at most `MAX_JOB_LEN`. `TooLong` comes where it has more: `MAX_JOB_LEN` and one byte were then read.
/// `Failed` comes where the source failed, and then nothing is read on. Each read asks for no byte past the first that is too many.
/// Takes memory.
pub fn read_all<S: Source>(alloc: Global, source: &mut S) -> Result<Vec<u8>, ReadError>
    ensures whole { IfOk result (λ bytes. IsWhole (S.left source.old) bytes.items (S.left source.new)) }
    ensures short { IfOk result (λ bytes. length bytes.items ≤ max_job_len) }
    ensures too_long { result ≡ Err ReadError.TooLong → HasTooMuch (S.left source.old) (S.left source.new) }
    ensures part { OnErr result (HasReadPart max_job_len (S.left source.old) (S.left source.new)) }
    ensures stops { Stops result (S.faults source.old) (S.faults source.new) (S.has_failed source.new) }
    ensures count { S.faults source.old ≤ S.faults source.new }
{
    let mut bytes = Vec::new(alloc);
    let mut piece = [0u8; PIECE];
    while bytes.len() <= MAX_JOB_LEN {
        let want = PIECE.min(MAX_JOB_LEN + 1 - bytes.len());
        let n = match source.read(&mut piece[..want]) {
            Ok(n) => n,
            Err(_) => return Err(ReadError::Failed),
        };
        if n == 0 {
            return Ok(bytes);
        }
        bytes.extend_from_slice(&piece[..n])?;
    }
    Err(ReadError::TooLong)
}

/// Writes all of these bytes, in as many pieces as it takes. `Failed` comes only where the sink failed; some of the bytes, from
/// their start on and not all, may then be written. Takes no memory of its own.
pub fn write_all<K: Sink>(sink: &mut K, bytes: &[u8]) -> Result<(), Failed>
    ensures whole { OnOk result (Gained (K.written sink.old) bytes.now (K.written sink.new)) }
    ensures part { OnErr result (GainedPart (K.written sink.old) bytes.now (K.written sink.new)) }
    ensures cause { OnErr result (Rose (K.faults sink.old) (K.faults sink.new)) }
    ensures count { K.faults sink.old ≤ K.faults sink.new }
    ensures room { K.room sink.new ≡ K.room sink.old }
    ensures sure { OnErr result (IsFull (K.room sink.new) (K.written sink.new)) }
{
    let mut done = 0;
    while done < bytes.len() {
        let n = sink.write(&bytes[done..])?;
        done += n;
    }
    Ok(())
}
