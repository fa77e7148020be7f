//! The reader of expressions.

ghost use Rattle.std.specs.Prelude.{◌≡◌, ◌<◌, ◌↔◌, length, IsTrue};
ghost use Rattle.c_lexer.specs.declared.token.TokenKind.{TokenKind};
ghost use Rattle.pragma_grammar.specs.Reading.{EndsText, IsExprRead};
ghost use Rattle.pragma_grammar.specs.Stands.{phrase_of};

use crate::blame::blamed;
use crate::operand::Operand;
use crate::phrase::{ParseFault, Phrase};
use crate::reading::{Reading, run};
use c_lexer::token::{Token, TokenKind};
use c_tree::tree::Expr;
use std::alloc::Global;

/// A phrase as it was kept.
fn phrase(operand: Operand, next: usize) -> Phrase<Expr>
    ensures { result ≡ phrase_of operand next }
{
    match operand {
        Operand::Tree { tree, height } => Phrase::Whole { tree, height, next },
        Operand::Deep(place) => Phrase::Deep { place, next },
    }
}

/// The whole expression (C11 6.5) that starts at an index of a text's tokens: the one after which no binary operator,
/// no `?` and no `[` stands. Where there is none, the fault is the token after the longest run of tokens that begins
/// some expression.
pub fn read_expr(alloc: Global, tokens: &[Token], at: usize) -> Result<Phrase<Expr>, ParseFault>
    requires within { at < length tokens.now }
    requires ended { EndsText tokens.now }
    ensures { IsExprRead tokens.now at result }
{
    match run(alloc, tokens, at)? {
        Reading::Whole { operand, next, .. } => Ok(phrase(operand, next)),
        Reading::Fault(fault) => Err(blamed(tokens, fault)),
    }
}

/// Do the tokens end with End, as a text's do?
pub fn ends_text(tokens: &[Token]) -> bool
    ensures { IsTrue result ↔ EndsText tokens.now }
{
    match tokens.last() {
        Some(token) => is_end(token),
        None => false,
    }
}

fn is_end(token: &Token) -> bool
    ensures { IsTrue result ↔ (token.now.kind ≡ TokenKind.End) }
{
    match token.kind {
        TokenKind::End => true,
        _ => false,
    }
}
