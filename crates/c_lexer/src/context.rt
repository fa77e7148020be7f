//! What the lexer knows of the text before a place.

/// What stands on a line before a place, joined lines being one line.
#[derive(Clone, Copy, Debug, PartialEq, Eq)]
pub enum Line {
    /// No token.
    Fresh,

    /// Tokens, the first of which is no `#`.
    Begun,

    /// A `#`, and any tokens after it.
    Directive,
}

/// What stands directly before a place.
#[derive(Clone, Copy, Debug, PartialEq, Eq)]
pub enum Before {
    /// White space, the end of a line, the end of a comment, or the start of the text.
    Free,

    /// A token other than `/`.
    Solid,

    /// The token `/`.
    Slash,
}
