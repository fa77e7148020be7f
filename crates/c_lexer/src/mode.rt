//! What the lexer is in the midst of.

use crate::context::{Before, Line};
use crate::token::{LexKind, Punct};

/// The open piece of a text, with what stands before it.
#[derive(Clone, Copy)]
pub struct OpenPiece {
    pub line: Line,
    pub before: Before,
    pub mode: Mode,
}

/// Which piece is open, with the places that its end asks for.
#[derive(Clone, Copy)]
pub enum Mode {
    /// No piece is open.
    Between,

    /// A word.
    Word { start: u64 },

    /// A number, of which `last` is the last byte so far.
    Number { start: u64, last: u8 },

    /// A punctuator that may go on.
    Punct { start: u64, punct: Punct },

    /// Two dots, which may become an ellipsis.
    TwoDots { start: u64, second: u64 },

    /// A backslash that may begin a run of joins.
    Backslash { first: u64 },

    /// The same, and a carriage return.
    BackslashReturn { first: u64 },

    /// A run of joins.
    Joined { first: u64 },

    /// A run of joins, and a backslash at `last` that may be one more.
    JoinedBackslash { first: u64, last: u64 },

    /// The same, and a carriage return.
    JoinedReturn { first: u64, last: u64 },

    /// A run of joins that asks for white space or a comment after it, and a `/` at `slash`.
    JoinedSlash { first: u64, slash: u64 },

    /// A block comment.
    Block { start: u64, stage: BlockStage },

    /// A line comment.
    LineComment { stage: LineStage },

    /// The rest of a text whose first fault is known.
    Faulted { kind: LexKind, place: u64 },
}

/// What stands directly before a place in a block comment.
#[derive(Clone, Copy)]
pub enum BlockStage {
    /// Nothing that a `/` could end the comment after.
    Inside,

    /// A `*`, and any joins.
    Star,

    /// The same, and a backslash.
    StarBackslash,

    /// The same, a backslash and a carriage return.
    StarReturn,
}

/// What stands directly before a place in a line comment.
#[derive(Clone, Copy)]
pub enum LineStage {
    /// Nothing that a line feed could make a join.
    Inside,

    /// A backslash.
    Backslash,

    /// A backslash and a carriage return.
    Return,
}

/// What a byte makes of the punctuator before it.
#[derive(Clone, Copy)]
pub enum Growth {
    /// A longer punctuator.
    Grows(Punct),

    /// Two dots.
    Dots,

    /// `/*`.
    OpensBlock,

    /// `//`.
    OpensLine,

    /// Nothing: the punctuator ends before the byte.
    Ends,
}
