//! The open phrases of an expression that is being read, and what stands between two tokens.

use crate::operand::{Operand, Subscripts};
use c_tree::name::Name;
use c_tree::tree::{BinOp, Span, Ty, UnOp};

/// An operator that goes on with an operand: a binary one, or `? :`.
#[derive(Clone, Copy, Debug, PartialEq, Eq)]
pub enum Infix {
    Between(BinOp),
    Choice,
}

/// An open phrase, which waits for its last operand. The place of each earlier operand is that of its phrase,
/// parentheses included.
#[derive(Drop)]
pub enum Open {
    Sign {
        at: Span,
        op: UnOp,
    },
    Casts {
        at: Span,
        ty: Ty,
    },
    Left {
        left: Operand,
        at: Span,
        op: BinOp,
    },
    Round {
        at: Span,
    },
    Square {
        name: Name,
        at: Span,
        subscripts: Subscripts,
    },
    Test {
        test: Operand,
        at: Span,
    },
    Other {
        test: Operand,
        at: Span,
        yes: Operand,
    },
}

/// What stands between two tokens.
#[derive(Drop)]
pub enum State {
    /// An operand is wanted.
    Want,

    /// A parenthesis was opened, for a phrase or a type's name.
    Opened {
        at: Span,
    },

    /// A type's name was begun by `long`, by `long long`, or is whole.
    HalfLong {
        at: Span,
    },
    Long {
        at: Span,
    },
    Typed {
        at: Span,
        ty: Ty,
    },

    /// A name, with its subscripts so far; the last token of them stands at `last`.
    Access {
        name: Name,
        at: Span,
        subscripts: Subscripts,
        last: Span,
    },

    /// An operand.
    Have {
        operand: Operand,
        at: Span,
    },
}

/// What a token does: it fits nowhere, it leads to a state, or it comes after the whole expression and isn't taken.
#[derive(Drop)]
pub enum Move {
    Stuck,
    Leads(State),
    Ended { operand: Operand, at: Span },
}

/// What one turn of closing phrases leaves: the move, or a whole phrase with its row.
#[derive(Drop)]
pub enum Turn {
    Done(Move),
    Again { operand: Operand, at: Span, row: u8 },
}
