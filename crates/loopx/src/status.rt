//! The answers of the program, and the exit statuses that tell them.

ghost use Rattle.std.specs.Prelude.{◌≡◌};
ghost use Rattle.loopx.specs.Status.{exit_status};

/// How the program answers. The exit statuses are the places of the variants, from 0.
#[derive(Clone, Copy, Debug, PartialEq, Eq)]
pub enum Status {
    /// All is written.
    Done,
    /// The text is refused; a line on the diagnostic stream says why.
    Refused,
    /// The words are in no written list.
    Usage,
    /// A read of the source failed.
    ReadFault,
    /// A write to a stream failed.
    WriteFault,
    /// There was no memory.
    Memory,
    /// The source has more than 2^24 bytes.
    TooLong,
    /// The run ended by a trap; a line on the diagnostic stream says by which.
    Trapped,
    /// The run was cut off, where a loop asked for a turn beyond the bound.
    Cut,
}

/// The exit status that tells the answer.
pub fn exit_code(status: Status) -> u8
    ensures { result ≡ exit_status status }
{
    status as u8
}
