//! Tokens, and the kinds of lexical faults.

use c_tree::name::Name;
use c_tree::tree::{Span, Ty};

/// A token and the bytes that it spans, `start` included and `end` not.
#[derive(Debug, Drop)]
pub struct Token {
    pub kind: TokenKind,
    pub span: Span,
}

/// What a token is.
#[derive(Debug, Drop)]
pub enum TokenKind {
    /// A keyword or a name (C11 6.4.1 and 6.4.2), as it is spelled.
    Word(Name),

    /// An integer constant (C11 6.4.4.1): its value, at most 2^63 - 1, its type, and whether it is spelled `0`.
    Number {
        value: u64,
        ty: Ty,
        plain_zero: bool,
    },
    Punct(Punct),

    /// The `#` that begins a `#` line.
    Hash,

    /// The end of a `#` line; it spans no bytes.
    LineEnd,

    /// The end of the text; it spans no bytes.
    End,
}

/// The punctuators (C11 6.4.6, without digraphs and without `#`).
#[derive(Clone, Copy, Debug, PartialEq, Eq)]
pub enum Punct {
    SquareOpen,
    SquareClose,
    RoundOpen,
    RoundClose,
    CurlyOpen,
    CurlyClose,
    Dot,
    Arrow,
    PlusPlus,
    MinusMinus,
    And,
    Star,
    Plus,
    Minus,
    Tilde,
    Bang,
    Slash,
    Percent,
    ShiftLeft,
    ShiftRight,
    Less,
    Greater,
    LessEq,
    GreaterEq,
    EqEq,
    BangEq,
    Caret,
    Bar,
    AndAnd,
    BarBar,
    Question,
    Colon,
    Semicolon,
    Ellipsis,
    Assign,
    StarAssign,
    SlashAssign,
    PercentAssign,
    PlusAssign,
    MinusAssign,
    ShiftLeftAssign,
    ShiftRightAssign,
    AndAssign,
    CaretAssign,
    BarAssign,
    Comma,
}

/// What is wrong at a place of a text that has no tokens.
#[derive(Clone, Copy, Debug, PartialEq, Eq)]
pub enum LexKind {
    /// A byte that begins nothing there.
    BadByte,

    /// A block comment without an end.
    OpenComment,

    /// A preprocessing number that is no integer constant of the profile.
    BadNumber,

    /// A line join that has no white space beside it.
    SplitToken,
}

/// Why a text has no tokens: its first fault, with its place in bytes, or no memory was left.
#[derive(Clone, Copy, Debug, PartialEq, Eq)]
pub enum LexFault {
    At(LexKind, u64),
    Memory,
}
