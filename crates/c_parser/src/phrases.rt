//! Expressions and directives, each taken whole from the tokens that are left.

ghost use Rattle.std.specs.Prelude.{◌≡◌, ◌<◌, length};
ghost use Rattle.pragma_grammar.specs.Reading.{EndsText, between};
ghost use Rattle.c_parser.specs.Phrases.{kept_of, next_of, IsExprTaken, IsDirectiveTaken};

use crate::cursor::Cursor;
use c_lexer::token::Token;
use c_tree::tree::{Directive, Expr, Span};
use pragma_grammar::directive::read_directive;
use pragma_grammar::directive_kept::Kept;
use pragma_grammar::expression::read_expr;
use pragma_grammar::phrase::{ParseFault, Phrase};
use std::alloc::Global;

/// What is kept of a phrase, and the index of the token after it.
fn kept_phrase<T>(phrase: Phrase<T>) -> (Kept<T>, usize)
    ensures { (result.0 ≡ kept_of phrase) × (result.1 ≡ next_of phrase) }
{
    match phrase {
        Phrase::Whole { tree, height, next } => (Kept::Whole { tree, height }, next),
        Phrase::Deep { place, next } => (Kept::Deep(place), next),
    }
}

/// The place of the tokens before an index.
fn between(tokens: &[Token], next: usize) -> Span
    requires some { 0 < next }
    requires within { next < length tokens.now }
    ensures { result ≡ between tokens.now 0 next }
{
    Span {
        start: tokens[0].span.start,
        end: tokens[next - 1].span.end,
    }
}

/// Takes the whole expression that stands first, with its place.
pub fn expr(alloc: Global, cursor: &mut Cursor) -> Result<(Kept<Expr>, Span), ParseFault>
    ensures taken { IsExprTaken cursor.old result cursor.new }
    ensures ended { EndsText cursor.old }
{
    let tokens = cursor.tokens();
    let (expr, next) = kept_phrase(read_expr(alloc, tokens, 0)?);
    let span = between(tokens, next);
    cursor.skip(next);
    Ok((expr, span))
}

/// Takes the whole directive whose name stands first; the end of its line is left.
pub fn directive(alloc: Global, cursor: &mut Cursor) -> Result<Kept<Directive>, ParseFault>
    ensures { IsDirectiveTaken cursor.old result cursor.new }
{
    let tokens = cursor.tokens();
    let (directive, next) = kept_phrase(read_directive(alloc, tokens, 0)?);
    cursor.skip(next);
    Ok(directive)
}
