//! What is told on the diagnostic stream.

ghost use Rattle.std.specs.Prelude.{◌≡◌, ◌≢◌, ◌≤◌, ℕ, List};
ghost use Rattle.c_lexer.specs.Lines.{MapsLines};
ghost use Rattle.outside_io.specs.Bytes.{Gains, GainsPrefix};
ghost use Rattle.outside_io.specs.Faults.{Rose};
ghost use Rattle.loopx.specs.declared.status.Status.{Status};
ghost use Rattle.loopx.specs.Told.{told_line, told_status, told_of_end, FitsRefusal};

use crate::line;
use crate::status::Status;
use c_tree::arithmetic::Trap;
use outside_io::{ReadEnd, Sink, write_all};
use std::alloc::Global;
use translator::positions::Positions;
use translator::refusal::Refusal;

/// An answer other than that all is done.
#[derive(Drop)]
pub enum Told {
    /// The text is refused, with this line.
    Refused(Vec<u8>),

    /// The words are in no written list.
    Usage,

    /// A read of the source failed.
    ReadFault,

    /// The source has more than 2^24 bytes.
    TooLong,

    /// There was no memory.
    Memory,

    /// The run ended by a trap.
    Trapped(Trap),

    /// The run was cut off.
    Cut,
}

impl Told {
    /// The line that tells it.
    fn line(&self) -> &[u8]
        ensures { result.now ≡ told_line self.now }
    {
        match self {
            Told::Refused(line) => line.as_slice(),
            Told::Usage => b"usage: loopx translate | run BOUND [NUMBER ...]\n",
            Told::ReadFault => b"read failed\n",
            Told::TooLong => b"text too long\n",
            Told::Memory => b"out of memory\n",
            Told::Trapped(trap) => line::trapped(*trap),
            Told::Cut => b"cut\n",
        }
    }

    /// The answer.
    fn status(&self) -> Status
        ensures { result ≡ told_status self.now }
    {
        match self {
            Told::Refused(_) => Status::Refused,
            Told::Usage => Status::Usage,
            Told::ReadFault => Status::ReadFault,
            Told::TooLong => Status::TooLong,
            Told::Memory => Status::Memory,
            Told::Trapped(_) => Status::Trapped,
            Told::Cut => Status::Cut,
        }
    }
}

/// What is told of a source that could not be read to its end.
pub fn unread(end: ReadEnd) -> Told
    ensures { result ≡ told_of_end end }
{
    match end {
        ReadEnd::ReadFault => Told::ReadFault,
        ReadEnd::TooLong => Told::TooLong,
        ReadEnd::Memory => Told::Memory,
    }
}

/// What is told of a refusal of the text with these positions.
pub fn refused(alloc: Global, positions: &Positions, refusal: Refusal) -> Told
    ensures { (text : List ℕ) → MapsLines positions.now text → FitsRefusal result text refusal }
{
    if refusal == Refusal::Memory {
        return Told::Memory;
    }
    match line::refused(alloc, positions, refusal) {
        Ok(bytes) => Told::Refused(bytes),
        Err(_) => Told::Memory,
    }
}

/// Tells an answer on the diagnostic stream.
pub fn tell<E: Sink>(diag: &mut E, told: Told) -> Status
    ensures told { result ≢ Status.WriteFault → (result ≡ told_status told) × Gains (E.held diag.old) (E.held diag.new) (told_line told) }
    ensures failed { result ≡ Status.WriteFault → Rose (E.faults diag.old) (E.faults diag.new) × GainsPrefix (E.held diag.old) (E.held diag.new) (told_line told) }
    ensures faults { E.faults diag.old ≤ E.faults diag.new }
{
    match write_all(diag, told.line()) {
        Ok(()) => told.status(),
        Err(_) => Status::WriteFault,
    }
}
