//! Sources in memory: one that never fails, and one whose reads fail as its maker says.

ghost use Rattle.std.specs.Prelude.{◌≡◌, ◌≢◌, ◌≤◌, ◌↔◌, [], Some, Contains, length, min, take};
ghost use Rattle.std.specs.Io.KnownBytes.{Consumes};
ghost use Rattle.outside_io.specs.Faults.{Rose, raised_count};
ghost use Rattle.outside_io.specs.Source.{FitsBuffer, given_bytes, TellsEnd};

use super::traits::{Got, Source};
use std::marker::Model;

/// A source in memory that never fails.
///
/// Contracts see the bytes that are `left`, and the `most` that one read gives.
#[derive(Drop)]
pub struct CleanSource {
    bytes: Vec<u8>,
    at: usize,
    most: usize,
}

impl Model for CleanSource {
    ghost use Rattle.std.specs.Prelude.{◌≤◌, drop, length};
    ghost use Rattle.outside_io.specs.Memory.{BytesToCome};

    ghost Value = { BytesToCome };

    ghost view = { λ s. record { left = drop s.at s.bytes.items; most = s.most } };

    ghost invariant = { λ s. (s.at ≤ length s.bytes.items) × (1 ≤ s.most) };
}

impl CleanSource {
    /// A source of these bytes that gives at most `most` of them in one read.
    pub fn new(bytes: Vec<u8>, most: usize) -> CleanSource
        requires { 1 ≤ most }
        ensures left { result.left ≡ bytes.items }
        ensures most { result.most ≡ most }
    {
        CleanSource { bytes, at: 0, most }
    }
}

impl Source for CleanSource {
    ghost left = { λ s. Some s.left };

    ghost faults = { λ _. 0 };

    fn read(&mut self, buffer: &mut [u8]) -> Got
        ensures fits { FitsBuffer result buffer.new }
        ensures bytes { Consumes (Some self.old.left) (Some self.new.left)
            (given_bytes result buffer.new) }
        ensures end { TellsEnd result buffer.new → self.new.left ≡ [] }

        // It never fails, and gives as much as it may.
        ensures never_failed { result ≢ Got.Failed }
        ensures amount { length (given_bytes result buffer.new)
            ≡ min self.old.most (min (length self.old.left) (length buffer.new)) }
        ensures most { self.new.most ≡ self.old.most }
    {
        let rest = &self.bytes[self.at..];
        if rest.is_empty() {
            return Got::End;
        }
        let count = copy_front(rest, self.most, buffer);
        self.at += count;
        Got::Gave(count)
    }
}

/// A source in memory whose reads with given numbers fail.
///
/// Contracts see the bytes that are `left`, the `most` that one read gives, the numbers of the
/// reads that fail, and how many `calls` there were and how many `faults`. These two counts stand
/// still at their greatest value, 2^64 - 1.
#[derive(Drop)]
pub struct MemSource {
    source: CleanSource,
    fails: Vec<u64>,
    calls: u64,
    faults: u64,
}

impl Model for MemSource {
    ghost use Rattle.outside_io.specs.Memory.{FailingBytesToCome};

    ghost Value = { FailingBytesToCome };

    ghost view = { λ s. record {
      left = s.source.left;
      most = s.source.most;
      fails = s.fails.items;
      calls = s.calls;
      faults = s.faults;
    } };
}

impl MemSource {
    /// A source of these bytes that gives at most `most` of them in one read. Reads are numbered
    /// from 1, and those whose number is in `fails` fail.
    pub fn new(bytes: Vec<u8>, most: usize, fails: Vec<u64>) -> MemSource
        requires { 1 ≤ most }
        ensures left { result.left ≡ bytes.items }
        ensures most { result.most ≡ most }
        ensures fails { result.fails ≡ fails.items }
        ensures calls { result.calls ≡ 0 }
        ensures faults { result.faults ≡ 0 }
    {
        MemSource {
            source: CleanSource::new(bytes, most),
            fails,
            calls: 0,
            faults: 0,
        }
    }
}

impl Source for MemSource {
    ghost left = { λ s. Some s.left };

    ghost faults = { λ s. s.faults };

    fn read(&mut self, buffer: &mut [u8]) -> Got
        ensures fits { FitsBuffer result buffer.new }
        ensures bytes { Consumes (Some self.old.left) (Some self.new.left)
            (given_bytes result buffer.new) }
        ensures end { TellsEnd result buffer.new → self.new.left ≡ [] }
        ensures failed { result ≡ Got.Failed → Rose self.old.faults self.new.faults }
        ensures faults { self.old.faults ≤ self.new.faults }

        // It fails exactly at the numbers that its maker gave, and else gives as much as it may.
        ensures number { self.new.calls ≡ raised_count self.old.calls }
        ensures fails { (result ≡ Got.Failed) ↔ Contains self.old.fails self.new.calls }
        ensures amount { result ≢ Got.Failed → length (given_bytes result buffer.new)
            ≡ min self.old.most (min (length self.old.left) (length buffer.new)) }
        ensures counted { result ≡ Got.Failed → self.new.faults ≡ raised_count self.old.faults }
        ensures not_counted { result ≢ Got.Failed → self.new.faults ≡ self.old.faults }
        ensures most { self.new.most ≡ self.old.most }
        ensures same_fails { self.new.fails ≡ self.old.fails }
    {
        self.calls = self.calls.saturating_add(1);
        if self.fails.contains(&self.calls) {
            self.faults = self.faults.saturating_add(1);
            return Got::Failed;
        }
        self.source.read(buffer)
    }
}

/// Copies the first bytes into the front of the buffer, and answers how many: `most`, or as many
/// as there are or the buffer has room for.
fn copy_front(bytes: &[u8], most: usize, buffer: &mut [u8]) -> usize
    ensures amount { result ≡ min most (min (length bytes.now) (length buffer.new)) }
    ensures copied { take result buffer.new ≡ take result bytes.now }
{
    let count = most.min(bytes.len().min(buffer.len()));
    buffer[..count].copy_from_slice(&bytes[..count]);
    count
}
