//! The traits through which the program reads and writes, with what each call means.

ghost use Rattle.std.specs.Prelude.{◌≡◌, ℕ, ◌+◌, ◌-◌, ◌^◌, ◌≤◌, List, length, Option, OnOk, OnErr};
ghost use Rattle.std.specs.Io.KnownBytes.{Consumes, IsAtEnd};
ghost use Rattle.outside_io.specs.Faults.{Rose};
ghost use Rattle.outside_io.specs.Bytes.{Gains};
ghost use Rattle.outside_io.specs.Source.{FitsBuffer, given_bytes, TellsEnd};
ghost use Rattle.outside_io.specs.Sink.{FitsPiece, taken_bytes};
ghost use Rattle.outside_io.specs.Taker.{Extends, StandsAsBefore};

use std::alloc::AllocError;

/// The answer of a read.
#[derive(Clone, Copy, Debug, PartialEq, Eq)]
pub enum Got {
    /// The front of the buffer has the next bytes, so many of them. None, where the buffer has
    /// room, is another way to tell the end.
    Gave(usize),
    /// No byte is left.
    End,
    /// The read failed, and gave nothing.
    Failed,
}

/// Where bytes come from.
pub trait Source {
    /// The bytes that are still to come, where the source tells them. What it tells before a read
    /// it tells after it.
    ghost left: { Self → Option (List ℕ) };

    /// How often a read has failed. It never falls.
    ghost faults: { Self → ℕ };

    /// Reads the next bytes into the front of the buffer, and leaves open what is behind them
    /// there. A read that fails leaves the bytes that are to come as they are.
    fn read(&mut self, buffer: &mut [u8]) -> Got
        ensures fits { FitsBuffer result buffer.new }
        ensures bytes { Consumes (left self.old) (left self.new) (given_bytes result buffer.new) }
        ensures end { TellsEnd result buffer.new → IsAtEnd (left self.new) }
        ensures failed { result ≡ Got.Failed → Rose (faults self.old) (faults self.new) }
        ensures faults { faults self.old ≤ faults self.new };
}

/// The answer of a write.
#[derive(Clone, Copy, Debug, PartialEq, Eq)]
pub enum Put {
    /// The first bytes of the piece were taken, so many of them: one at least, if it has any.
    Took(usize),
    /// The write failed, and took nothing.
    Failed,
}

/// Where bytes go.
pub trait Sink {
    /// The bytes that were taken so far, where the sink tells them. What it tells after a write
    /// it told before it, so a sink may stop telling them, for good.
    ghost held: { Self → Option (List ℕ) };

    /// How often a write has failed. It never falls.
    ghost faults: { Self → ℕ };

    /// Takes the first bytes of the piece.
    fn write(&mut self, piece: &[u8]) -> Put
        ensures fits { FitsPiece result piece.now }
        ensures bytes { Gains (held self.old) (held self.new) (taken_bytes result piece.now) }
        ensures failed { result ≡ Put.Failed → Rose (faults self.old) (faults self.new) }
        ensures unchanged { result ≡ Put.Failed → held self.new ≡ held self.old }
        ensures faults { faults self.old ≤ faults self.new };
}

/// What takes a text piece by piece.
pub trait Taker {
    /// How many bytes were taken.
    ghost count: { Self → ℕ };

    /// The lists of bytes that it stands for, by a test of them.
    ghost stands_for: { Self → List ℕ → Type 0 };

    /// Takes the next piece. A refusal comes only for want of memory, and leaves all as before.
    fn take(&mut self, piece: &[u8]) -> Result<(), AllocError>
        requires { count self.old + length piece.now ≤ 2 ^ 63 - 1 }
        ensures count { OnOk result (count self.new ≡ count self.old + length piece.now) }
        ensures taken { OnOk result
            (Extends (stands_for self.old) (stands_for self.new) piece.now) }
        ensures same_count { OnErr result (count self.new ≡ count self.old) }
        ensures same { OnErr result (StandsAsBefore (stands_for self.old) (stands_for self.new)) };
}
