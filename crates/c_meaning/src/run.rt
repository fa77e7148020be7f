//! How runs and statements end.

ghost use Rattle.std.specs.Prelude.{◌≡◌};
ghost use Rattle.c_semantics.specs.Meaning.Runs as runs;
ghost use Rattle.c_semantics.specs.Meaning.SimpleStatements as simple;
ghost use Rattle.c_semantics.specs.Meaning.Programs as programs;
ghost use Rattle.c_meaning.specs.Ends.{end_of, finish_of};

pub use c_tree::arithmetic::Trap;
use std::alloc::AllocError;

/// How a run ends: at the end of `main`, by a trap, or cut off where a loop asks for a turn beyond the bound.
#[derive(Clone, Copy, Debug, PartialEq, Eq)]
pub enum RunEnd {
    Ended,
    Trapped(Trap),
    Cut,
}

/// A run: its end, and the turns of `for` loops that it entered, 2^64 - 1 for any greater number.
#[derive(Clone, Copy, Debug, PartialEq, Eq)]
pub struct Run {
    pub end: RunEnd,
    pub turns: u64,
}

/// Why there is no run: a write failed, or memory is wanting.
#[derive(Clone, Copy, Debug, PartialEq, Eq)]
pub enum RunFault {
    WriteFault,
    Memory,
}

impl From<AllocError> for RunFault {
    fn from(_: AllocError) -> RunFault {
        RunFault::Memory
    }
}

/// How a statement ends.
#[derive(Clone, Copy, Debug, PartialEq, Eq)]
pub enum End {
    Next,
    Break,
    Continue,
    Trapped(Trap),
    Cut,
}

/// How a turn ends: `continue` ends only the turn (C11 6.8.6.2).
pub fn turn_end(end: End) -> End
    ensures { end_of result ≡ runs.turn_end (end_of end) }
{
    match end {
        End::Continue => End::Next,
        end => end,
    }
}

/// How a loop ends: `break` ends only the loop (C11 6.8.6.3).
pub fn loop_end(end: End) -> End
    ensures { end_of result ≡ runs.loop_end (end_of end) }
{
    match end {
        End::Break => End::Next,
        end => end,
    }
}

/// How a call ends.
pub fn call_end(end: End) -> End
    ensures { end_of result ≡ simple.call_end (end_of end) }
{
    match end {
        End::Break | End::Continue => End::Next,
        end => end,
    }
}

/// How a run ends whose last statement ends so.
pub fn finish(end: End) -> RunEnd
    ensures { finish_of result ≡ programs.finish (end_of end) }
{
    match end {
        End::Trapped(trap) => RunEnd::Trapped(trap),
        End::Cut => RunEnd::Cut,
        _ => RunEnd::Ended,
    }
}
