//! What may begin a statement or a declaration.

ghost use Rattle.std.specs.Prelude.{◌≡◌};
ghost use Rattle.c_parser.specs.Beginnings.{beginning_of, keyword_begins};

use c_lexer::token::Punct;
use c_lexer::words::Keyword;
use pragma_grammar::terminal::Terminal;

/// What the first token of a statement or a declaration is to it.
#[derive(Clone, Copy, Debug, PartialEq, Eq)]
pub enum Beginning {
    Name,
    Empty,
    Print,
    If,
    While,
    Do,
    For,
    Break,
    Continue,
    Pragma,
    CurlyOpen,
    CurlyClose,
    Return,
    Int,
    Long,
    Other,
}

pub fn beginning_of(terminal: Terminal) -> Beginning
    ensures { result ≡ beginning_of terminal }
{
    match terminal {
        Terminal::Name => Beginning::Name,
        Terminal::Hash => Beginning::Pragma,
        Terminal::Punct(Punct::Semicolon) => Beginning::Empty,
        Terminal::Punct(Punct::CurlyOpen) => Beginning::CurlyOpen,
        Terminal::Punct(Punct::CurlyClose) => Beginning::CurlyClose,
        Terminal::Keyword(keyword) => keyword_begins(keyword),
        _ => Beginning::Other,
    }
}

fn keyword_begins(keyword: Keyword) -> Beginning
    ensures { result ≡ keyword_begins keyword }
{
    match keyword {
        Keyword::Print => Beginning::Print,
        Keyword::If => Beginning::If,
        Keyword::While => Beginning::While,
        Keyword::Do => Beginning::Do,
        Keyword::For => Beginning::For,
        Keyword::Break => Beginning::Break,
        Keyword::Continue => Beginning::Continue,
        Keyword::Return => Beginning::Return,
        Keyword::Int => Beginning::Int,
        Keyword::Long => Beginning::Long,
        _ => Beginning::Other,
    }
}
