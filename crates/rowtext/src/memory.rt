// Sources and sinks over memory, for tests and for callers that have all the bytes.
ghost use Rattle.std.specs.Prelude.{◌≡◌, ◌≤◌, ◌<◌, ◌-◌, [], length, drop, take, min, Some, None, IfOk, vec_capacity, OnErr, is_err, ◌++◌, ◌||◌, ◌&&◌, ◌==◌, nat_lt};
ghost use Rattle.rowtext.specs.Bytes.{Takes, IsAtEnd};
ghost use Rattle.rowtext.specs.FaultCounts.{Counts, HasRisen};
ghost use Rattle.rowtext.specs.Schedule.{called, fails_next};

use crate::{Sink, SinkFailed, Source, SourceFailed};
use std::alloc::{AllocError, Global};

/// Gives its bytes in pieces, and fails at chosen calls.
#[derive(Drop)]
pub struct MemorySource {
    bytes: Vec<u8>,
    at: usize,
    piece: usize,
    fails: Vec<u64>,
    calls: u64,
    faults: u64,
    ghost in_bytes: { at ≤ length bytes.items },
    ghost some: { 0 < piece },
}

/// Gives its bytes, and never fails.
#[derive(Drop)]
pub struct SteadySource {
    bytes: Vec<u8>,
    at: usize,
    ghost in_bytes: { at ≤ length bytes.items },
}

/// Keeps what it takes, in pieces, and fails at chosen calls and where its room is full.
#[derive(Drop)]
pub struct MemorySink {
    bytes: Vec<u8>,
    room: usize,
    piece: usize,
    fails: Vec<u64>,
    calls: u64,
    faults: u64,
    ghost in_room: { length bytes.items ≤ room },
    ghost has_room: { room ≤ vec_capacity bytes },
    ghost some: { 0 < piece },
}

/// Takes every byte, never fails, and tells nothing.
#[derive(Drop)]
pub struct NullSink;

/// Copies the next bytes from a place to the start of the buffer, at most as many as a piece has.
fn copy_piece(bytes: &[u8], at: usize, piece: usize, buf: &mut [u8]) -> usize
    requires { at ≤ length bytes.now }
    ensures count { result ≡ min piece (min (length buf.old) (length bytes.now - at)) }
    ensures bytes { take result buf.new ≡ take result (drop at bytes.now) }
{
    let rest = &bytes[at..];
    let count = piece.min(buf.len()).min(rest.len());
    buf[..count].copy_from_slice(&rest[..count]);
    count
}

impl MemorySource {
    ghost use Rattle.rowtext.specs.Memory.{source_schedule};

    /// A source of these bytes that gives at most `piece` of them a call.
    ///
    /// It fails at each call whose number is in `fails`. Calls are counted from 1, those that fail among them.
    pub fn new(bytes: Vec<u8>, piece: usize, fails: Vec<u64>) -> MemorySource
        requires { 0 < piece }
        ensures left { ⟦<MemorySource as Source>⟧.left result ≡ Some bytes.items }
        ensures faults { ⟦<MemorySource as Source>⟧.faults result ≡ 0 }
        ensures schedule { source_schedule result ≡ record { piece = piece; fails = fails.items; calls = 0 } }
    {
        MemorySource {
            bytes,
            at: 0,
            piece,
            fails,
            calls: 0,
            faults: 0,
        }
    }
}

impl Source for MemorySource {
    ghost use Rattle.rowtext.specs.Memory.{memory_left, source_schedule};

    ghost left = { λ s. Some (memory_left s) };

    ghost faults = { λ s. s.faults };

    fn read(&mut self, buf: &mut [u8]) -> Result<usize, SourceFailed>
        // It fails exactly where its schedule says so, and else gives as many bytes as it can.
        ensures fails { is_err result ≡ fails_next (source_schedule self.old) }
        ensures given { IfOk result (λ n.
            n ≡ min self.old.piece (min (length buf.old) (length (memory_left self.old)))) }
        ensures schedule { source_schedule self.new ≡ called (source_schedule self.old) }
        // What every source promises.
        ensures count { IfOk result (λ n. n ≤ length buf.new) }
        ensures bytes { IfOk result (λ n.
            Takes (Some (memory_left self.old)) (take n buf.new) (Some (memory_left self.new))) }
        ensures end { IfOk result (λ n.
            n ≡ 0 → 0 < length buf.new → IsAtEnd (Some (memory_left self.new))) }
        ensures kept { OnErr result (memory_left self.new ≡ memory_left self.old) }
        ensures counts { Counts self.old.faults self.new.faults }
        ensures cause { OnErr result (HasRisen self.old.faults self.new.faults) }
    {
        let faults = self.faults;
        self.calls = self.calls.saturating_add(1);
        if self.fails.contains(&self.calls) {
            self.faults = faults.saturating_add(1);
            return Err(SourceFailed);
        }
        let count = copy_piece(&self.bytes, self.at, self.piece, buf);
        self.at += count;
        Ok(count)
    }
}

impl SteadySource {
    /// A source of these bytes that gives as many a call as the buffer takes.
    pub fn new(bytes: Vec<u8>) -> SteadySource
        ensures left { ⟦<SteadySource as Source>⟧.left result ≡ Some bytes.items }
        ensures faults { ⟦<SteadySource as Source>⟧.faults result ≡ 0 }
    {
        SteadySource { bytes, at: 0 }
    }
}

impl Source for SteadySource {
    ghost use Rattle.rowtext.specs.Memory.{steady_left};

    ghost left = { λ s. Some (steady_left s) };

    ghost faults = { λ _. 0 };

    fn read(&mut self, buf: &mut [u8]) -> Result<usize, SourceFailed> {
        let piece = buf.len();
        let count = copy_piece(&self.bytes, self.at, piece, buf);
        self.at += count;
        Ok(count)
    }
}

impl MemorySink {
    ghost use Rattle.rowtext.specs.Memory.{sink_schedule};

    /// A sink with room for `room` bytes that takes at most `piece` of them a call.
    ///
    /// The room is allocated here, so a write takes no memory. The sink fails where its room is full, and at each
    /// call whose number is in `fails`. Calls are counted from 1, those that fail among them.
    pub fn new(
        alloc: Global,
        room: usize,
        piece: usize,
        fails: Vec<u64>,
    ) -> Result<MemorySink, AllocError>
        requires { 0 < piece }
        ensures held { IfOk result (λ s. ⟦<MemorySink as Sink>⟧.held s ≡ Some []) }
        ensures faults { IfOk result (λ s. ⟦<MemorySink as Sink>⟧.faults s ≡ 0) }
        ensures room { IfOk result (λ s. s.room ≡ room) }
        ensures schedule { IfOk result (λ s.
            sink_schedule s ≡ record { piece = piece; fails = fails.items; calls = 0 }) }
    {
        Ok(MemorySink {
            bytes: Vec::with_capacity(alloc, room)?,
            room,
            piece,
            fails,
            calls: 0,
            faults: 0,
        })
    }

    /// What the sink holds.
    pub fn bytes(&self) -> &[u8]
        ensures { ⟦<MemorySink as Sink>⟧.held self.now ≡ Some result.now }
    {
        &self.bytes
    }
}

impl Sink for MemorySink {
    ghost use Rattle.rowtext.specs.Memory.{memory_held, sink_schedule};

    ghost held = { λ s. Some (memory_held s) };

    ghost faults = { λ s. s.faults };

    fn write(&mut self, bytes: &[u8]) -> Result<usize, SinkFailed>
        // It fails exactly where its schedule says so or its room is full, and else takes as many bytes as it can.
        ensures fails { is_err result ≡ (fails_next (sink_schedule self.old)
            || nat_lt 0 (length bytes.now) && (length (memory_held self.old) == self.old.room)) }
        ensures taken { IfOk result (λ n. n ≡ min self.old.piece
            (min (length bytes.now) (self.old.room - length (memory_held self.old)))) }
        ensures schedule { sink_schedule self.new ≡ called (sink_schedule self.old) }
        ensures room { self.new.room ≡ self.old.room }
        // What every sink promises.
        ensures count { IfOk result (λ n. n ≤ length bytes.now) }
        ensures some { IfOk result (λ n. 0 < length bytes.now → 0 < n) }
        ensures bytes { IfOk result (λ n. memory_held self.new ≡ memory_held self.old ++ take n bytes.now) }
        ensures kept { OnErr result (memory_held self.new ≡ memory_held self.old) }
        ensures counts { Counts self.old.faults self.new.faults }
        ensures cause { OnErr result (HasRisen self.old.faults self.new.faults) }
    {
        let faults = self.faults;
        self.calls = self.calls.saturating_add(1);
        let count = self
            .piece
            .min(bytes.len())
            .min(self.room - self.bytes.len());
        if self.fails.contains(&self.calls) || (count == 0 && !bytes.is_empty()) {
            self.faults = faults.saturating_add(1);
            return Err(SinkFailed);
        }
        self.bytes.extend_from_slice(&bytes[..count]).unwrap();
        Ok(count)
    }
}

impl Sink for NullSink {
    ghost held = { λ _. None };

    ghost faults = { λ _. 0 };

    fn write(&mut self, bytes: &[u8]) -> Result<usize, SinkFailed> {
        Ok(bytes.len())
    }
}
