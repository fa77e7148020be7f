//! What a token is to the grammar.

ghost use Rattle.std.specs.Prelude.{◌≡◌};
ghost use Rattle.pragma_grammar.specs.Symbols.{symbol, name, number, is_static};
ghost use Rattle.pragma_grammar.specs.Terminals.{terminal_of, terminal_of_word};
ghost use Rattle.pragma_grammar.specs.declared.terminal.Terminal.{Terminal};

use c_lexer::token::{Punct, Token, TokenKind};
use c_lexer::words::{Keyword, keyword_of};
use c_tree::tree::Ty;

/// A terminal symbol of the grammar, without the spelling of a name and the value of a number.
#[derive(Clone, Copy, Debug, PartialEq, Eq)]
pub enum Terminal {
    Name,
    Number,
    Punct(Punct),
    Keyword(Keyword),

    /// The word `static`, which begins a function; every other keyword of C11 that the profile leaves out is a
    /// `Keyword(Keyword::LeftOut)`.
    Static,
    Hash,
    LineEnd,
    End,
}

/// The terminal symbol that a token is.
pub fn terminal_of(token: &Token) -> Terminal
    ensures { result ≡ terminal_of (symbol token.now) }
{
    match &token.kind {
        TokenKind::Word(word) => word_terminal(word.bytes()),
        TokenKind::Number { .. } => Terminal::Number,
        TokenKind::Punct(punct) => Terminal::Punct(*punct),
        TokenKind::Hash => Terminal::Hash,
        TokenKind::LineEnd => Terminal::LineEnd,
        TokenKind::End => Terminal::End,
    }
}

fn word_terminal(word: &[u8]) -> Terminal
    ensures { result ≡ terminal_of_word word.now }
{
    match keyword_of(word) {
        None => Terminal::Name,
        Some(Keyword::LeftOut) => {
            if is_static(word) {
                Terminal::Static
            } else {
                Terminal::Keyword(Keyword::LeftOut)
            }
        }
        Some(keyword) => Terminal::Keyword(keyword),
    }
}

fn is_static(word: &[u8]) -> bool
    ensures { result ≡ is_static word.now }
{
    let other: &[u8] = b"static";
    word == other
}

/// The spelling of a name; of any other token but a keyword no bytes.
pub fn spelling(token: &Token) -> &[u8]
    ensures { terminal_of (symbol token.now) ≡ Terminal.Name → symbol token.now ≡ name result.now token.now.span }
{
    match &token.kind {
        TokenKind::Word(word) => word.bytes(),
        _ => b"",
    }
}

/// The value and the type of a number, and whether it is spelled `0`; of any other token 0.
pub fn constant(token: &Token) -> (u64, Ty, bool)
    ensures { terminal_of (symbol token.now) ≡ Terminal.Number → symbol token.now ≡ number result.0 result.1 result.2 token.now.span }
{
    match &token.kind {
        TokenKind::Number {
            value,
            ty,
            plain_zero,
        } => (*value, *ty, *plain_zero),
        _ => (0, Ty::Int, false),
    }
}
