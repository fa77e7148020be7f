//! Sinks in memory, which take their room when they are made: one that never fails, and one whose
//! writes fail as its maker says.

ghost use Rattle.std.specs.Prelude.{◌≡◌, ◌≢◌, ◌+◌, ◌<◌, ◌≤◌, ◌++◌, ◌↔◌, ◌⊎◌, [], Some, Contains, IfOk, IsTrue, false, length, min, take};
ghost use Rattle.outside_io.specs.Bytes.{Gains};
ghost use Rattle.outside_io.specs.Faults.{Rose, raised_count};
ghost use Rattle.outside_io.specs.Memory.{told_bytes};
ghost use Rattle.outside_io.specs.Sink.{FitsPiece, taken_bytes};

use super::traits::{Put, Sink};
use std::alloc::{AllocError, Global};
use std::marker::Model;

/// A sink in memory that takes every write. It keeps the first bytes, as many as it has room for,
/// and from the first byte past them on it no longer tells what it holds.
///
/// Contracts see the `bytes` that it keeps, its `room`, the `most` that one write takes, and
/// whether it `is_past` its room.
#[derive(Drop)]
pub struct CleanSink {
    bytes: Vec<u8>,
    room: usize,
    most: usize,
    is_past: bool,
}

impl Model for CleanSink {
    ghost use Rattle.std.specs.Prelude.{◌≤◌, vec_capacity, vec_len};
    ghost use Rattle.outside_io.specs.Memory.{BytesKept};

    ghost Value = { BytesKept };

    ghost view = { λ s. record {
      bytes = s.bytes.items;
      room = s.room;
      most = s.most;
      is_past = s.is_past;
    } };

    ghost invariant = { λ s.
        (vec_len s.bytes ≤ s.room) × (s.room ≤ vec_capacity s.bytes) × (1 ≤ s.most) };
}

impl CleanSink {
    /// An empty sink with room for `room` bytes that takes at most `most` bytes in one write.
    pub fn new(alloc: Global, room: usize, most: usize) -> Result<CleanSink, AllocError>
        requires { 1 ≤ most }
        ensures bytes { IfOk result (λ sink. sink.bytes ≡ []) }
        ensures room { IfOk result (λ sink. sink.room ≡ room) }
        ensures most { IfOk result (λ sink. sink.most ≡ most) }
        ensures within { IfOk result (λ sink. sink.is_past ≡ false) }
    {
        Ok(CleanSink {
            bytes: Vec::with_capacity(alloc, room)?,
            room,
            most,
            is_past: false,
        })
    }

    /// The bytes that it keeps: the first ones of all that it took.
    pub fn bytes(&self) -> &[u8]
        ensures { result.now ≡ self.now.bytes }
    {
        self.bytes.as_slice()
    }
}

impl Sink for CleanSink {
    ghost held = { told_bytes };

    ghost faults = { λ _. 0 };

    fn write(&mut self, piece: &[u8]) -> Put
        ensures fits { FitsPiece result piece.now }
        ensures bytes { Gains (told_bytes self.old) (told_bytes self.new)
            (taken_bytes result piece.now) }
        ensures took { result ≡ Put.Took (min self.old.most (length piece.now)) }

        // It keeps the first bytes of all that it took, and tells whether there were more.
        ensures kept { self.new.bytes
            ≡ take self.old.room (self.old.bytes ++ taken_bytes result piece.now) }
        ensures past { IsTrue self.new.is_past ↔ (IsTrue self.old.is_past
            ⊎ (self.old.room < length self.old.bytes + length (taken_bytes result piece.now))) }
        ensures room { self.new.room ≡ self.old.room }
        ensures most { self.new.most ≡ self.old.most }
    {
        let count = self.most.min(piece.len());
        let stored = count.min(self.room - self.bytes.len());
        // The room was taken when the sink was made.
        self.bytes.extend_from_slice(&piece[..stored]).unwrap();
        if stored < count {
            self.is_past = true;
        }
        Put::Took(count)
    }
}

/// A sink in memory whose writes with given numbers fail, and each write that would take more
/// bytes than are free. A write that fails takes nothing.
///
/// Contracts see the `bytes` that it holds, its `room`, the `most` that one write takes, the
/// numbers of the writes that fail, and how many `calls` there were and how many `faults`. These
/// two counts stand still at their greatest value, 2^64 - 1.
#[derive(Drop)]
pub struct MemSink {
    bytes: Vec<u8>,
    room: usize,
    most: usize,
    fails: Vec<u64>,
    calls: u64,
    faults: u64,
}

impl Model for MemSink {
    ghost use Rattle.std.specs.Prelude.{◌≤◌, vec_capacity, vec_len};
    ghost use Rattle.outside_io.specs.Memory.{FailingBytesKept};

    ghost Value = { FailingBytesKept };

    ghost view = { λ s. record {
      bytes = s.bytes.items;
      room = s.room;
      most = s.most;
      fails = s.fails.items;
      calls = s.calls;
      faults = s.faults;
    } };

    ghost invariant = { λ s.
        (vec_len s.bytes ≤ s.room) × (s.room ≤ vec_capacity s.bytes) × (1 ≤ s.most) };
}

impl MemSink {
    /// An empty sink with room for `room` bytes that takes at most `most` bytes in one write.
    /// Writes are numbered from 1, and those whose number is in `fails` fail.
    pub fn new(
        alloc: Global,
        room: usize,
        most: usize,
        fails: Vec<u64>,
    ) -> Result<MemSink, AllocError>
        requires { 1 ≤ most }
        ensures bytes { IfOk result (λ sink. sink.bytes ≡ []) }
        ensures room { IfOk result (λ sink. sink.room ≡ room) }
        ensures most { IfOk result (λ sink. sink.most ≡ most) }
        ensures fails { IfOk result (λ sink. sink.fails ≡ fails.items) }
        ensures calls { IfOk result (λ sink. sink.calls ≡ 0) }
        ensures faults { IfOk result (λ sink. sink.faults ≡ 0) }
    {
        Ok(MemSink {
            bytes: Vec::with_capacity(alloc, room)?,
            room,
            most,
            fails,
            calls: 0,
            faults: 0,
        })
    }

    /// The bytes that it holds: all that it took.
    pub fn bytes(&self) -> &[u8]
        ensures { result.now ≡ self.now.bytes }
    {
        self.bytes.as_slice()
    }
}

impl Sink for MemSink {
    ghost held = { λ s. Some s.bytes };

    ghost faults = { λ s. s.faults };

    fn write(&mut self, piece: &[u8]) -> Put
        ensures fits { FitsPiece result piece.now }
        ensures bytes { Gains (Some self.old.bytes) (Some self.new.bytes)
            (taken_bytes result piece.now) }
        ensures failed { result ≡ Put.Failed → Rose self.old.faults self.new.faults }
        ensures unchanged { result ≡ Put.Failed → self.new.bytes ≡ self.old.bytes }
        ensures faults { self.old.faults ≤ self.new.faults }

        // It fails exactly at the numbers that its maker gave and where there is no room, and
        // else takes as much as it may.
        ensures number { self.new.calls ≡ raised_count self.old.calls }
        ensures fails { (result ≡ Put.Failed) ↔ (Contains self.old.fails self.new.calls
            ⊎ (self.old.room < length self.old.bytes + min self.old.most (length piece.now))) }
        ensures took { result ≢ Put.Failed
            → result ≡ Put.Took (min self.old.most (length piece.now)) }
        ensures counted { result ≡ Put.Failed → self.new.faults ≡ raised_count self.old.faults }
        ensures not_counted { result ≢ Put.Failed → self.new.faults ≡ self.old.faults }
        ensures room { self.new.room ≡ self.old.room }
        ensures most { self.new.most ≡ self.old.most }
        ensures same_fails { self.new.fails ≡ self.old.fails }
    {
        self.calls = self.calls.saturating_add(1);
        let count = self.most.min(piece.len());
        if self.fails.contains(&self.calls) || count > self.room - self.bytes.len() {
            self.faults = self.faults.saturating_add(1);
            return Put::Failed;
        }
        // The room was taken when the sink was made.
        self.bytes.extend_from_slice(&piece[..count]).unwrap();
        Put::Took(count)
    }
}
