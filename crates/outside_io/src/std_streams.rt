//! Sources and sinks over std's readers and writers: what the program reads and writes when it
//! runs.

ghost use Rattle.std.specs.Prelude.{◌≡◌, None};

use super::traits::{Got, Put, Sink, Source};
use std::io::{Read, Write};

/// A source over a reader of std. It tells of the bytes to come what the reader tells: nothing,
/// over a terminal, a pipe or a file.
///
/// Its count of faults is raised at each error, and stands still at its greatest value, 2^64 - 1.
#[derive(Drop)]
pub struct StdSource<R> {
    reader: R,
    faults: u64,
}

impl<R: Read> StdSource<R> {
    /// A source over this reader, with no fault yet.
    pub fn new(reader: R) -> StdSource<R>
        ensures left { ⟦<StdSource<R> as Source>⟧.left result ≡ R.remaining reader }
        ensures faults { ⟦<StdSource<R> as Source>⟧.faults result ≡ 0 }
    {
        StdSource { reader, faults: 0 }
    }
}

impl<R: Read> Source for StdSource<R> {
    ghost left = { λ s. R.remaining s.reader };

    ghost faults = { λ s. s.faults };

    fn read(&mut self, buffer: &mut [u8]) -> Got {
        match self.reader.read(buffer) {
            Ok(count) => Got::Gave(count),
            Err(_) => {
                self.faults = self.faults.saturating_add(1);
                Got::Failed
            }
        }
    }
}

/// A sink over a writer of std. It tells nothing of what it took.
///
/// Its count of faults is raised at each error, and at each write that takes no byte of a piece
/// that has some. It stands still at its greatest value, 2^64 - 1.
#[derive(Drop)]
pub struct StdSink<W> {
    writer: W,
    faults: u64,
}

impl<W: Write> StdSink<W> {
    /// A sink over this writer, with no fault yet.
    pub fn new(writer: W) -> StdSink<W>
        ensures { ⟦<StdSink<W> as Sink>⟧.faults result ≡ 0 }
    {
        StdSink { writer, faults: 0 }
    }
}

impl<W: Write> Sink for StdSink<W> {
    ghost held = { λ _. None };

    ghost faults = { λ s. s.faults };

    fn write(&mut self, piece: &[u8]) -> Put {
        match self.writer.write(piece) {
            Ok(count) if count > 0 || piece.is_empty() => Put::Took(count),
            _ => {
                self.faults = self.faults.saturating_add(1);
                Put::Failed
            }
        }
    }
}
