//! What the first token of an item is to it.

ghost use Rattle.std.specs.Prelude.{◌≡◌};
ghost use Rattle.c_parser.specs.Openings.{opening_of, IsOpeningTaken};

use crate::cursor::Cursor;
use c_lexer::words::Keyword;
use c_tree::tree::Span;
use pragma_grammar::phrase::ParseFault;
use pragma_grammar::terminal::{Terminal, terminal_of};

/// The first token of an item which that token alone tells.
#[derive(Clone, Copy, Debug, PartialEq, Eq)]
pub enum Single {
    Void,
    Extern,
    Static,
    Hash,
}

/// The first token of an item.
#[derive(Clone, Copy, Debug, PartialEq, Eq)]
pub enum Opening {
    Int,
    Long,
    One(Single),
}

fn opening_of(terminal: Terminal) -> Option<Opening>
    ensures { result ≡ opening_of terminal }
{
    match terminal {
        Terminal::Keyword(Keyword::Int) => Some(Opening::Int),
        Terminal::Keyword(Keyword::Long) => Some(Opening::Long),
        Terminal::Keyword(Keyword::Void) => Some(Opening::One(Single::Void)),
        Terminal::Keyword(Keyword::Extern) => Some(Opening::One(Single::Extern)),
        Terminal::Static => Some(Opening::One(Single::Static)),
        Terminal::Hash => Some(Opening::One(Single::Hash)),
        _ => None,
    }
}

/// Takes the first token of an item, which has to stand first.
pub fn take_opening(cursor: &mut Cursor) -> Result<(Opening, Span), ParseFault>
    ensures { IsOpeningTaken cursor.old result cursor.new }
{
    let token = cursor.first();
    match opening_of(terminal_of(token)) {
        Some(opening) => {
            let at = token.span;
            cursor.advance();
            Ok((opening, at))
        }
        None => Err(cursor.blamed()),
    }
}
