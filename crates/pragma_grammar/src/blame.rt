//! How a token that no phrase can have is blamed.

ghost use Rattle.std.specs.Prelude.{◌≡◌, ◌<◌, ◌+◌, length, drop, slice_get, Some};
ghost use Rattle.pragma_grammar.specs.Reading.{on_directive_line, blamed_as};
ghost use Rattle.pragma_grammar.specs.declared.phrase.ParseFault.{ParseFault};
ghost use Rattle.c_lexer.specs.declared.token.Token.{Token};

use crate::phrase::{ParseFault, ParseKind};
use c_lexer::token::{Token, TokenKind};
use c_lexer::words::is_outside;

/// Do the tokens begin on a `#` line?
fn on_directive_line(mut tokens: &[Token]) -> bool
    ensures { result ≡ on_directive_line tokens.entry.now }
{
    while let [token, rest @ ..] = tokens {
        match token.kind {
            TokenKind::LineEnd => return true,
            TokenKind::Hash => return false,
            TokenKind::End => return false,
            _ => tokens = rest,
        }
    }
    false
}

fn blamed_as(token: &Token, rest: &[Token]) -> ParseKind
    ensures { result ≡ blamed_as token.now rest.now }
{
    if is_outside(&token.kind, on_directive_line(rest)) {
        ParseKind::Outside
    } else {
        ParseKind::Syntax
    }
}

/// The blame of the token at an index: what is wrong with it, and its place.
pub fn blamed(tokens: &[Token], at: usize) -> ParseFault
    requires { at < length tokens.now }
    ensures { (t : Token) → slice_get tokens.now at ≡ Some t → result ≡ ParseFault.At (blamed_as t (drop (at + 1) tokens.now)) t.span.start }
{
    let token = &tokens[at];
    ParseFault::At(blamed_as(token, &tokens[at + 1..]), token.span.start)
}
