// Sources and sinks in memory.
ghost use Rattle.std.specs.Prelude.{◌≡◌, ◌+◌, ◌-◌, ◌<◌, ◌≤◌, ◌↔◌, ◌++◌, [], min, length, take, drop, Some, false, IsTrue, IsOk, IsErr, IfOk, OnErr, vec_len, vec_capacity};
ghost use Rattle.smithy_io.specs.Causes.{next_count};
ghost use Rattle.smithy_io.specs.Memory.{next_call, is_listed, SourceState, SinkState, SureSinkState, fails_to_give, given_count, gave, failed_to_give, has_failed_to_give, fails_to_take, taken_count, took, failed_to_take, empty_sink, is_overflowing, with_more, GaveFrom};
ghost use Rattle.smithy_io.specs.Streams.{Gave, EndsAt};

use crate::sink::Sink;
use crate::source::{Failed, Source};
use smithy_types::{Blob, Longs, OutOfMemory};
use std::alloc::Global;
use std::marker::Model;

/// Gives its bytes and never fails. It is seen as what is left.
#[derive(Drop)]
pub struct SureSource {
    bytes: Blob,
    done: usize,
}

impl Model for SureSource {
    ghost use Rattle.std.specs.Prelude.{◌≤◌, ℕ, List, length, drop};

    ghost Value = { List ℕ };

    ghost view = { λ a. drop a.done a.bytes };

    ghost invariant = { λ a. a.done ≤ length a.bytes };
}

impl SureSource {
    /// A source of these bytes. Takes no memory.
    pub fn new(bytes: Blob) -> SureSource
        ensures { result ≡ bytes }
    {
        SureSource { bytes, done: 0 }
    }
}

impl Source for SureSource {
    ghost left = { λ s. Some s };

    ghost faults = { λ _. 0 };

    ghost has_failed = { λ _. false };

    /// Gives as many bytes as fit into the buffer. Never fails.
    fn read(&mut self, buf: &mut [u8]) -> Result<usize, Failed>
        ensures sure { IsOk result }
        ensures amount { IfOk result (λ n. n ≡ min (length buf.old) (length self.old)) }
        ensures after { IfOk result (λ n. self.new ≡ drop n self.old) }
        ensures given { IfOk result (λ n. Gave (Some self.old) (take n buf.new) (Some self.new)) }
    {
        let n = next_bytes(self.bytes.as_slice(), self.done, buf);
        self.done += n;
        Ok(n)
    }
}

/// Gives its bytes in pieces, and fails at the calls that are listed by number, counted from 1.
#[derive(Drop)]
pub struct MemorySource {
    bytes: Blob,
    done: usize,
    piece: usize,
    failing: Longs,
    calls: u64,
    failed: u64,
}

impl Model for MemorySource {
    ghost use Rattle.std.specs.Prelude.{◌≤◌, ◌<◌, length, drop};
    ghost use Rattle.smithy_io.specs.Memory.{SourceState};

    ghost Value = { SourceState };

    ghost view = { λ a. record {
      left = drop a.done a.bytes;
      piece = a.piece;
      failing = a.failing;
      calls = a.calls;
      faults = a.failed;
    } };

    ghost invariant = { λ a. (a.done ≤ length a.bytes) × (0 < a.piece) × (a.calls ≤ 9223372036854775807) };
}

impl MemorySource {
    /// A source of these bytes that gives at most so many of them a call, and fails exactly at the calls whose numbers are
    /// listed. A call number that has reached 9,223,372,036,854,775,807 stays there. Each call looks through the list. Takes no
    /// memory.
    pub fn new(bytes: Blob, piece: usize, failing: Longs) -> MemorySource
        requires { 0 < piece }
        ensures { result ≡ record { left = bytes; piece = piece; failing = failing; calls = 0; faults = 0 } }
    {
        MemorySource {
            bytes,
            done: 0,
            piece,
            failing,
            calls: 0,
            failed: 0,
        }
    }
}

impl Source for MemorySource {
    ghost left = { λ s. Some s.left };

    ghost faults = { λ s. s.faults };

    ghost has_failed = { has_failed_to_give };

    /// Gives as many bytes as the piece, the buffer and what is left allow. `Failed` comes exactly at the calls that are listed.
    fn read(&mut self, buf: &mut [u8]) -> Result<usize, Failed>
        ensures fails { IsErr result ↔ IsTrue (fails_to_give self.old) }
        ensures amount { IfOk result (λ n. n ≡ given_count self.old (length buf.old)) }
        ensures ok { IfOk result (λ n. self.new ≡ gave self.old n) }
        ensures err { OnErr result (self.new ≡ failed_to_give self.old) }
        ensures count { self.old.faults ≤ self.new.faults }
        ensures given { IfOk result (λ n. Gave (Some self.old.left) (take n buf.new) (Some self.new.left)) }
        ensures end { IfOk result (λ n. 0 < length buf.old → EndsAt n (Some self.old.left)) }
    {
        self.calls = next_call(self.calls);
        if is_listed(&self.failing, self.calls) {
            self.failed = self.failed.saturating_add(1);
            return Err(Failed);
        }
        let most = buf.len().min(self.piece);
        let n = next_bytes(self.bytes.as_slice(), self.done, &mut buf[..most]);
        self.done += n;
        Ok(n)
    }
}

// The number of the next call.
fn next_call(calls: u64) -> u64
    requires { calls ≤ 9223372036854775807 }
    ensures { result ≡ next_call calls }
{
    (calls + 1).min(i64::MAX as u64)
}

// Whether the call of this number is to fail.
fn is_listed(failing: &Longs, call: u64) -> bool
    requires { call ≤ 9223372036854775807 }
    ensures { result ≡ is_listed failing.now call }
{
    failing.as_slice().contains(&(call as i64))
}

// Copies the next bytes into the buffer, as many as fit.
fn next_bytes(bytes: &[u8], done: usize, buf: &mut [u8]) -> usize
    requires { done ≤ length bytes.now }
    ensures count { result ≡ min (length buf.old) (length bytes.now - done) }
    ensures given { GaveFrom bytes.now done (take result buf.new) result }
    ensures end { 0 < length buf.old → EndsAt result (Some (drop done bytes.now)) }
{
    let n = buf.len().min(bytes.len() - done);
    copy_front(buf, &bytes[done..done + n]);
    n
}

// The buffer begins with these bytes.
fn copy_front(buf: &mut [u8], from: &[u8])
    requires { length from.now ≤ length buf.old }
    ensures { buf.new ≡ from.now ++ drop (length from.now) buf.old }
{
    buf[..from.len()].copy_from_slice(from);
}

/// Takes as many bytes as fit into its room, and fails only where it is full.
#[derive(Drop)]
pub struct SureSink {
    bytes: Vec<u8>,
    room: usize,
    failed: u64,
}

impl Model for SureSink {
    ghost use Rattle.std.specs.Prelude.{◌≡◌, ◌≤◌, ◌<◌, vec_len, vec_capacity};
    ghost use Rattle.smithy_io.specs.Memory.{SureSinkState};

    ghost Value = { SureSinkState };

    ghost view = { λ a. record { written = a.bytes.items; room = a.room; faults = a.failed } };

    ghost invariant = { λ a. (vec_len a.bytes ≤ a.room) × (a.room ≤ vec_capacity a.bytes)
        × (vec_len a.bytes < a.room → a.failed ≡ 0) };
}

impl SureSink {
    /// An empty sink, with its room in bytes from the start. Takes memory.
    pub fn new(alloc: Global, room: usize) -> Result<SureSink, OutOfMemory>
        ensures { IfOk result (λ s. s ≡ record { written = []; room = room; faults = 0 }) }
    {
        let bytes = Vec::with_capacity(alloc, room)?;
        Ok(SureSink {
            bytes,
            room,
            failed: 0,
        })
    }

    /// What was written. It is never more than the room, and as long as it is less no write has failed.
    pub fn written(&self) -> &[u8]
        ensures value { result.now ≡ self.now.written }
        ensures within { length self.now.written ≤ self.now.room }
        ensures calm { length self.now.written < self.now.room → self.now.faults ≡ 0 }
    {
        self.bytes.as_slice()
    }
}

impl Sink for SureSink {
    ghost written = { λ s. Some s.written };

    ghost faults = { λ s. s.faults };

    ghost room = { λ s. s.room };

    /// Takes as many bytes of the piece as still fit. `Failed` comes exactly where a piece that isn't empty comes when the room
    /// is full.
    fn write(&mut self, bytes: &[u8]) -> Result<usize, Failed>
        ensures fails { IsErr result ↔ IsTrue (is_overflowing self.old (length bytes.now)) }
        ensures amount { IfOk result (λ n. n ≡ min (length bytes.now) (self.old.room - length self.old.written)) }
        ensures ok { IfOk result (λ n. self.new ≡ with_more self.old (take n bytes.now)) }
        ensures err { OnErr result (self.new ≡ record self.old { faults = next_count self.old.faults }) }
        ensures count { self.old.faults ≤ self.new.faults }
        ensures some { IfOk result (λ n. 0 < length bytes.now → 0 < n) }
    {
        let n = bytes.len().min(self.room - self.bytes.len());
        if n == 0 && !bytes.is_empty() {
            self.failed = self.failed.saturating_add(1);
            return Err(Failed);
        }
        keep(&mut self.bytes, &bytes[..n]);
        Ok(n)
    }
}

/// Takes bytes in pieces into its room, and fails at the calls that are listed by number, counted from 1, and where it is full.
#[derive(Drop)]
pub struct MemorySink {
    bytes: Vec<u8>,
    room: usize,
    piece: usize,
    failing: Longs,
    calls: u64,
    failed: u64,
}

impl Model for MemorySink {
    ghost use Rattle.std.specs.Prelude.{◌≤◌, ◌<◌, vec_len, vec_capacity};
    ghost use Rattle.smithy_io.specs.Memory.{SinkState};

    ghost Value = { SinkState };

    ghost view = { λ a. record {
      written = a.bytes.items;
      room = a.room;
      piece = a.piece;
      failing = a.failing;
      calls = a.calls;
      faults = a.failed;
    } };

    ghost invariant = { λ a. (vec_len a.bytes ≤ a.room) × (a.room ≤ vec_capacity a.bytes)
        × (0 < a.piece) × (a.calls ≤ 9223372036854775807) };
}

impl MemorySink {
    /// An empty sink, with its room in bytes from the start, that takes at most so many bytes a call, and fails exactly at the
    /// calls whose numbers are listed and where a piece that isn't empty comes when the room is full. A call number that has
    /// reached 9,223,372,036,854,775,807 stays there. Each call looks through the list. Takes memory.
    pub fn new(
        alloc: Global,
        room: usize,
        piece: usize,
        failing: Longs,
    ) -> Result<MemorySink, OutOfMemory>
        requires { 0 < piece }
        ensures { IfOk result (λ s. s ≡ empty_sink room piece failing) }
    {
        let bytes = Vec::with_capacity(alloc, room)?;
        Ok(MemorySink {
            bytes,
            room,
            piece,
            failing,
            calls: 0,
            failed: 0,
        })
    }

    /// What was written, never more than the room.
    pub fn written(&self) -> &[u8]
        ensures value { result.now ≡ self.now.written }
        ensures within { length self.now.written ≤ self.now.room }
    {
        self.bytes.as_slice()
    }
}

impl Sink for MemorySink {
    ghost written = { λ s. Some s.written };

    ghost faults = { λ s. s.faults };

    /// Takes as many bytes as the piece and the free room allow. `Failed` comes exactly at the calls that are listed and where a
    /// piece that isn't empty comes when the room is full.
    fn write(&mut self, bytes: &[u8]) -> Result<usize, Failed>
        ensures fails { IsErr result ↔ IsTrue (fails_to_take self.old (length bytes.now)) }
        ensures amount { IfOk result (λ n. n ≡ taken_count self.old (length bytes.now)) }
        ensures ok { IfOk result (λ n. self.new ≡ took self.old (take n bytes.now)) }
        ensures err { OnErr result (self.new ≡ failed_to_take self.old) }
        ensures count { self.old.faults ≤ self.new.faults }
        ensures some { IfOk result (λ n. 0 < length bytes.now → 0 < n) }
    {
        self.calls = next_call(self.calls);
        let is_full = self.bytes.len() == self.room && !bytes.is_empty();
        if is_listed(&self.failing, self.calls) || is_full {
            self.failed = self.failed.saturating_add(1);
            return Err(Failed);
        }
        let n = bytes
            .len()
            .min(self.piece)
            .min(self.room - self.bytes.len());
        keep(&mut self.bytes, &bytes[..n]);
        Ok(n)
    }
}

// Adds bytes for which there is room.
fn keep(bytes: &mut Vec<u8>, more: &[u8])
    requires { vec_len bytes.old + length more.now ≤ vec_capacity bytes.old }
    ensures items { bytes.new.items ≡ bytes.old.items ++ more.now }
    ensures len { vec_len bytes.new ≡ vec_len bytes.old + length more.now }
    ensures capacity { vec_capacity bytes.old ≤ vec_capacity bytes.new }
{
    match bytes.extend_from_slice(more) {
        Ok(()) => {}
        Err(_) => unreachable!(),
    }
}
